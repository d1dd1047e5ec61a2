// The board: jobs in slots, and a word that says which is next.
ghost use Rattle.std.specs.Prelude.{◌≡◌, ◌≤◌, ◌<◌, ◌^◌, vec_len};
ghost use Rattle.std.specs.Prelude.{true, None, Some, IfOk, map};
ghost use Rattle.std.specs.Vec.{vec_capacity};
ghost use Rattle.std.specs.Mem.Slots.{slots_items, slots_filled, slots_len, IsFull};
ghost use Rattle.slice_claim.specs.Slots.{AreFull, AreMovedOut, AreEmpty};

use crate::hand::Hand;
use crate::held::Held;
use crate::room::Room;
use crate::rule::{BoardRule, ClaimStep, FinishStep, Gift, JoinStep, SplitStep};
use crate::view::{Terms, View};
use crate::work::Work;
use atomic_table::{Closed, Refused, Table};
use frac_math::OutOfMemory;
use std::alloc::Global;
use std::marker::Brand;
use std::snapshot::Snapshot;

// The word of the number that is drawn next.
const CLAIM_WORD: usize = 0;

// The word that counts the jobs that came back. Nothing is said of its value: a finish steps on it
// because what a hand knows changes only at a step on a word.
const DONE_WORD: usize = 1;

/// Jobs that hands claim in order, each once. Contracts see of it the number of its jobs, the
/// number of its hands, and the origins as they were given (`specs/Board.antt`).
#[derive(Drop)]
pub struct Board<J: Work> {
    table: Table<Option<J>, View, Terms<J>, BoardRule<J>, Global>,
    count: u32,
    // It is filled when the board is closed.
    room: Room<J>,
    ghost two_words: { table.shared.table_id.words ≡ 2 },
    ghost slot_each: { table.shared.table_id.slots ≡ count },
    ghost counted: { vec_len table.shared.key.jobs.value ≡ count },
    ghost roomy: { room.table.shared.key ≡ count },
}

// Each job in a slot of its own.
fn in_slots<J: Drop>(alloc: Global, jobs: Vec<J>) -> Result<Vec<Option<J>>, OutOfMemory>
    ensures { IfOk result (λ slots. slots.items ≡ map Some jobs.items) }
{
    let mut slots = Vec::with_capacity(alloc, jobs.len())?;
    for job in jobs {
        slots.push(Some(job))?;
    }
    Ok(slots)
}

// Moves the jobs out of the slots.
fn take_all<J>(closed: &mut Closed<Option<J>, Global>, jobs: &mut Vec<J>, count: u32)
    requires slots { (slots_len closed.old.slots ≡ count) × IsFull closed.old.slots }
    requires full { AreFull (slots_items closed.old.slots) count }
    requires room { (vec_len jobs.old ≡ 0) × (count ≤ vec_capacity jobs.old) }
    ensures jobs { AreMovedOut (slots_items closed.old.slots) jobs.new.items count }
    ensures empty { AreEmpty (slots_filled closed.new.slots) (slots_len closed.new.slots) }
{
    for k in 0..count {
        jobs.push_reserved(closed.take(k as usize).unwrap());
    }
}

impl<J: Work> Board<J> {
    ghost use Rattle.slice_claim.specs.Machine.{IsFree, fresh, emptied, kept, joined};
    ghost use Rattle.slice_claim.specs.Board.{hand_count, hand_state, IsHandOf, IsJobOf};
    ghost use Rattle.slice_claim.specs.Board.{IsClaim, IsOpened, AllDone, AreNumbered};

    /// A board of these jobs, job k with number k, and one hand that stands for all `hands`. The
    /// jobs are fewer than 2^32. All memory is taken here, that of `close` too; where it is not to
    /// be had, the jobs are dropped.
    pub fn new(alloc: Global, jobs: Vec<J>, hands: u32) -> Result<(Board<J>, Hand<J>), OutOfMemory>
        requires few { vec_len jobs < 2 ^ 32 }
        requires some_hand { 1 ≤ hands }
        requires numbered { AreNumbered J.number_of jobs.items }
        ensures { IfOk result (λ made. IsOpened J.origin jobs.items hands made.0 made.1) }
    {
        let terms = Terms {
            hands,
            jobs: Snapshot::of(&jobs),
        };
        let count = jobs.len() as u32;
        let room = Room::for_jobs(alloc, count)?;
        let slots = in_slots(alloc, jobs)?;
        match Table::new(alloc, &[0, 0], slots, &terms) {
            Ok((table, seat)) => {
                let board = Board { table, count, room };
                let hand = Hand {
                    seat,
                    share: hands,
                    spent: false,
                    holding: false,
                };
                Ok((board, hand))
            }
            Err(Refused { slots: _ }) => Err(OutOfMemory),
        }
    }

    /// Draws the next number by one atomic step, and gives the job of that number, as it was given
    /// to the board, for the hand to hold. None exactly where the number is no job's: the hand is
    /// then spent, and may only be joined or close the board.
    pub fn claim(&self, hand: &mut Hand<J>) -> Option<Held<J>>
        requires own { IsHandOf J.origin self.now hand.old }
        requires free { IsFree (hand_state hand.old) }
        ensures own { IsHandOf J.origin self.now hand.new }
        ensures claim { IsClaim J.number_of J.origin self.now hand.old hand.new result }
    {
        let number = self
            .table
            .shared
            .fetch_add::<ClaimStep<J>>(&mut hand.seat, CLAIM_WORD, 1);
        if number >= u64::from(self.count) {
            hand.spent = true;
            return None;
        }
        hand.holding = true;
        let job = self
            .table
            .shared
            .exchange(&mut hand.seat, number as usize, None)
            .unwrap();
        Some(Held {
            number: number as u32,
            job,
        })
    }

    /// Gives the job that the hand holds back, done, with its number and origin unchanged.
    pub fn finish(&self, hand: &mut Hand<J>, held: Held<J>)
        requires own { IsHandOf J.origin self.now hand.old }
        requires holds { (hand_state hand.old).held ≡ Some held.number }
        requires job { IsJobOf J.number_of J.origin self.now held.number held.job }
        requires done { J.is_done held.job }
        ensures own { IsHandOf J.origin self.now hand.new }
        ensures hand { hand_state hand.new ≡ emptied (hand_state hand.old) }
    {
        let Held { number, job } = held;
        drop(
            self.table
                .shared
                .exchange(&mut hand.seat, number as usize, Some(job)),
        );
        self.table
            .shared
            .fetch_add::<FinishStep>(&mut hand.seat, DONE_WORD, 1);
        hand.holding = false;
    }

    // The split of a seat cannot read a number at run time, so the amount comes in by a type.
    fn split_by<G: Gift>(&self, hand: &mut Hand<J>, give: u32) -> Hand<J>
        requires own { IsHandOf J.origin self.now hand.old }
        requires free { IsFree (hand_state hand.old) }
        requires give { (1 ≤ give) × (give < (hand_state hand.old).share) × (give ≡ G.amount) }
        ensures own { IsHandOf J.origin self.now hand.new × IsHandOf J.origin self.now result }
        ensures rest { hand_state hand.new ≡ kept give (hand_state hand.old) }
        ensures given { hand_state result ≡ fresh give }
    {
        let seat = self.table.shared.split_seat::<SplitStep<G>>(&mut hand.seat);
        hand.share = hand.share.wrapping_sub(give);
        Hand {
            seat,
            share: give,
            spent: false,
            holding: false,
        }
    }

    /// A new hand, which stands for `give` of this hand's share, at least 1 and not all of it.
    pub fn split(&self, hand: &mut Hand<J>, give: u32) -> Hand<J>
        requires own { IsHandOf J.origin self.now hand.old }
        requires free { IsFree (hand_state hand.old) }
        requires give { (1 ≤ give) × (give < (hand_state hand.old).share) }
        ensures own { IsHandOf J.origin self.now hand.new × IsHandOf J.origin self.now result }
        ensures rest { hand_state hand.new ≡ kept give (hand_state hand.old) }
        ensures given { hand_state result ≡ fresh give }
    {
        self.split_by::<Brand>(hand, give)
    }

    /// Makes two hands one: their shares add up, and it is spent where either was.
    pub fn join(&self, into: &mut Hand<J>, from: Hand<J>)
        requires own { IsHandOf J.origin self.now into.old × IsHandOf J.origin self.now from }
        requires idle { ((hand_state into.old).held ≡ None) × ((hand_state from).held ≡ None) }
        ensures own { IsHandOf J.origin self.now into.new }
        ensures hand { hand_state into.new ≡ joined (hand_state into.old) (hand_state from) }
    {
        let Hand {
            seat,
            share,
            spent,
            holding: _,
        } = from;
        self.table
            .shared
            .join_seat::<JoinStep>(&mut into.seat, seat);
        into.share = into.share.wrapping_add(share);
        into.spent = into.spent || spent;
    }

    /// The jobs in order, each with its number, its origin as it was given, and done. It asks for
    /// a spent hand that stands for all of the board's hands and holds nothing.
    pub fn close(self, hand: Hand<J>) -> Vec<J>
        requires own { IsHandOf J.origin self hand }
        requires whole { (hand_state hand).share ≡ hand_count self }
        requires spent { (hand_state hand).spent ≡ true }
        requires idle { (hand_state hand).held ≡ None }
        ensures { AllDone J.number_of J.origin J.is_done self result.items }
    {
        let Hand {
            seat,
            share: _,
            spent: _,
            holding: _,
        } = hand;
        let Board { table, count, room } = self;
        let mut jobs = room.into_vec();
        let mut closed = table.close_with(seat);
        take_all(&mut closed, &mut jobs, count);
        closed.free();
        jobs
    }
}
