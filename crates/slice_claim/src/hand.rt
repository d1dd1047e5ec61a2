// A caller's seat at a board.
ghost use Rattle.std.specs.Prelude.{◌≡◌, ◌<◌, ◌%◌, ◌^◌, map, is_some, option_to_list};

use crate::view::View;
use atomic_table::Seat;

/// A caller's seat at a board: how many of the board's hands it stands for, and what it did so
/// far. Contracts see it as `hand_state` (`specs/Board.antt`).
#[derive(Drop)]
pub struct Hand<J> {
    pub(crate) seat: Seat<Option<J>, View>,
    pub(crate) share: u32,
    pub(crate) spent: bool,
    pub(crate) holding: bool,
    // That two shares never exceed 2^32 - 1 is known to the board's rule alone.
    ghost share_is: { share ≡ seat.me.0.hand.share % 2 ^ 32 },
    ghost spent_is: { spent ≡ seat.me.0.hand.spent },
    ghost holding_is: { holding ≡ is_some seat.me.0.hand.held },
    ghost live: { 0 < seat.me.0.hand.share },
    // The slot of the held slice is out with the seat, and no other.
    ghost carries: { map (λ x. x.0) seat.me.1 ≡ option_to_list seat.me.0.hand.held },
}

impl<J> Hand<J> {
    ghost use Rattle.slice_claim.specs.Board.{hand_state};

    /// How many of the board's hands it stands for. It is exact wherever the caller knows that the
    /// share is below 2^32, as of a hand from `Board::new`, of the parts that such a hand was
    /// split into, and of these joined again; no other clause bounds it.
    pub fn share(&self) -> u32
        ensures exact { (hand_state self.now).share < 2 ^ 32
            → result ≡ (hand_state self.now).share }
        ensures modulo { result ≡ (hand_state self.now).share % 2 ^ 32 }
    {
        self.share
    }

    /// It, or a hand that was joined into it, has drawn a number that is no job's.
    pub fn spent(&self) -> bool
        ensures { result ≡ (hand_state self.now).spent }
    {
        self.spent
    }

    /// It holds a claimed job that it has not finished.
    pub fn holding(&self) -> bool
        ensures { result ≡ is_some (hand_state self.now).held }
    {
        self.holding
    }
}
