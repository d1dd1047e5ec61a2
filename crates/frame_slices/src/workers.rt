// The workers that do the jobs of a board, each on a thread of its own.
ghost use Rattle.std.specs.Prelude.{◌≡◌, ◌<◌, Some};
ghost use Rattle.std.specs.Thread.{IsSync};
ghost use Rattle.slice_claim.specs.Machine.{IsFree, emptied};
ghost use Rattle.slice_claim.specs.Board.{hand_state, IsHandOf, IsJobOf};
ghost use Rattle.frame_slices.specs.Workers.{HasWorked};

use crate::gate::Gate;
use slice_claim::{Board, Hand, Held, Work};
use std::sync::Wait;
use std::thread::{Threads, join_mut};

/// A job that a worker can do once what it needs has come.
pub trait Task: Work {
    /// Waits until what it needs has come, or will not come, and answers which.
    fn has_come<R: Wait>(&self, rt: &R) -> bool;

    /// Does the job, where what it needs has come; its number and its origin stay.
    fn run<R: Wait>(&mut self, rt: &R)
        ensures done { Self.is_done self.new }
        ensures number { Self.number_of self.new ≡ Self.number_of self.old }
        ensures origin { Self.origin self.new ≡ Self.origin self.old };
}

// Does the job that the hand has claimed, and gives it back. It passes the gate, unless what it needs
// will not come.
fn do_held<R: Wait, J: Task, G: Gate>(
    rt: &R,
    board: &Board<J>,
    hand: &mut Hand<J>,
    mut held: Held<J>,
    gate: &G,
)
    requires own { IsHandOf J.origin board.now hand.old }
    requires holds { (hand_state hand.old).held ≡ Some held.number }
    requires job { IsJobOf J.number_of J.origin board.now held.number held.job }
    ensures own { IsHandOf J.origin board.now hand.new }
    ensures hand { hand_state hand.new ≡ emptied (hand_state hand.old) }
{
    if held.job().has_come(rt) {
        gate.pass(&held);
    }
    held.job().run(rt);
    board.finish(hand, held);
}

// One worker: it claims jobs until none is left.
fn work<R: Wait, J: Task, G: Gate>(rt: &R, board: &Board<J>, hand: &mut Hand<J>, gate: &G)
    requires own { IsHandOf J.origin board.now hand.old }
    requires free { IsFree (hand_state hand.old) }
    ensures own { IsHandOf J.origin board.now hand.new }
    ensures hand { HasWorked (hand_state hand.old) (hand_state hand.new) }
{
    while let Some(held) = board.claim(hand) {
        do_held(rt, board, hand, held, gate);
    }
}

// Starts a thread for each share but one, then does what is to be done first, and works. All threads
// are started from this one, so that the system has a free processor for each.
fn share_out<'a, R: Threads + Wait + Sync, J: Task, G: Gate, F: FnMut() -> B, B>(
    rt: &'a R,
    board: &'a Board<J>,
    hand: &mut Hand<J>,
    gate: &'a G,
    first: &mut F,
) -> B
    requires own { IsHandOf J.origin board.now hand.old }
    requires free { IsFree (hand_state hand.old) }
    requires first { F.pre first.old }
    ensures own { IsHandOf J.origin board.now hand.new }
    ensures hand { HasWorked (hand_state hand.old) (hand_state hand.new) }
    ensures first { F.step first.old result first.new }
{
    if hand.share() < 2 {
        let done = first();
        work(rt, board, hand, gate);
        return done;
    }
    let mut other = board.split(hand, 1);
    let (mine, theirs) = (&mut *hand, &mut other);
    let ((), done) = join_mut(
        rt,
        &mut ||
            requires { IsSync R.row × IsHandOf J.origin board.now theirs.now
                × IsFree (hand_state theirs.now) }
            ensures { IsHandOf J.origin board.entry.now theirs.exit.now
                × HasWorked (hand_state theirs.entry.now) (hand_state theirs.exit.now) }
        { work(rt, board, theirs, gate) },
        &mut || -> B
            requires { IsSync R.row × IsHandOf J.origin board.now mine.now
                × IsFree (hand_state mine.now) × F.pre first.now }
            ensures { IsHandOf J.origin board.entry.now mine.exit.now
                × HasWorked (hand_state mine.entry.now) (hand_state mine.exit.now)
                × F.step first.entry.now result first.exit.now }
        { share_out(rt, board, mine, gate, first) },
    );
    board.join(hand, other);
    done
}

/// Does all jobs of the board, with as many workers as the hand stands for. The caller's thread is
/// one of them: it does first what `first` says, beside the others, who may wait for it.
///
/// A hand of one share starts no thread. It takes no memory.
pub fn run_workers<R: Threads + Wait + Sync, J: Task, G: Gate, F: FnMut() -> B, B>(
    rt: &R,
    board: &Board<J>,
    hand: &mut Hand<J>,
    gate: &G,
    first: &mut F,
) -> B
    requires own { IsHandOf J.origin board.now hand.old }
    requires free { IsFree (hand_state hand.old) }
    requires first { F.pre first.old }
    ensures own { IsHandOf J.origin board.now hand.new }
    ensures hand { HasWorked (hand_state hand.old) (hand_state hand.new) }
    ensures first { F.step first.old result first.new }
{
    share_out(rt, board, hand, gate, first)
}
