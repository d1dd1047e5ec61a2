// Two hands that take turns, by hand, and boards at their edges.
ghost use Rattle.std.specs.Prelude.{◌≡◌, ◌≤◌, ◌<◌, ◌*◌, [], ◌∷◌, false, true, None, Some, IfOk};
ghost use Rattle.std.specs.Prelude.{length};
ghost use Rattle.slice_claim.specs.Machine.{IsFree};
ghost use Rattle.slice_claim.specs.Board.{hand_state, IsHandOf, IsJobOf, AreNumbered};

use crate::{Board, Hand, Held, Work};
use std::alloc::{AllocError, Global};
use std::process::Abort;
use std::test::Fail;

// A number that is to be doubled.
#[derive(Drop)]
struct Doubling {
    number: u32,
    given: u8,
    doubled: Option<u32>,
}

impl Work for Doubling {
    ghost number_of = { λ j. j.number };

    ghost origin = { λ j. j.given ∷ [] };

    ghost is_done = { λ j. j.doubled ≡ Some (j.given * 2) };

    fn number(&self) -> u32 {
        self.number
    }
}

impl Doubling {
    fn new(number: u32, given: u8) -> Doubling
        ensures { result.number ≡ number }
    {
        Doubling {
            number,
            given,
            doubled: None,
        }
    }

    fn double(&mut self)
        ensures done { self.new.doubled ≡ Some (self.new.given * 2) }
        ensures same { (self.new.number ≡ self.old.number) × (self.new.given ≡ self.old.given) }
    {
        self.doubled = Some(u32::from(self.given) * 2);
    }
}

fn three(alloc: Global) -> Result<Vec<Doubling>, AllocError>
    ensures numbered { IfOk result (λ jobs. AreNumbered (λ (j : Doubling). j.number) jobs.items) }
    ensures count { IfOk result (λ jobs. length jobs.items ≡ 3) }
{
    Ok(vec![in alloc;
        Doubling::new(0, 7),
        Doubling::new(1, 8),
        Doubling::new(2, 9),
    ]?)
}

// The hand has drawn a job, and its share is as it was.
fn draw(rt: &impl Abort, board: &Board<Doubling>, hand: &mut Hand<Doubling>) -> Held<Doubling>
    requires own { IsHandOf ⟦<Doubling as Work>⟧.origin board.now hand.old }
    requires free { IsFree (hand_state hand.old) }
    ensures own { IsHandOf ⟦<Doubling as Work>⟧.origin board.now hand.new }
    ensures share { (hand_state hand.new).share ≡ (hand_state hand.old).share }
    ensures holds { (hand_state hand.new).held ≡ Some result.number }
    ensures not_spent { (hand_state hand.new).spent ≡ false }
    ensures job { IsJobOf (λ j. j.number) (λ j. j.given ∷ []) board.now result.number result.job }
{
    match board.claim(hand) {
        Some(held) => held,
        None => panic!(rt; "no job was left"),
    }
}

// The hand finds no job any more, and its share is as it was.
fn find_none(rt: &impl Abort, board: &Board<Doubling>, hand: &mut Hand<Doubling>)
    requires own { IsHandOf ⟦<Doubling as Work>⟧.origin board.now hand.old }
    requires free { IsFree (hand_state hand.old) }
    ensures own { IsHandOf ⟦<Doubling as Work>⟧.origin board.now hand.new }
    ensures share { (hand_state hand.new).share ≡ (hand_state hand.old).share }
    ensures spent { ((hand_state hand.new).held ≡ None) × ((hand_state hand.new).spent ≡ true) }
{
    match board.claim(hand) {
        Some(_) => panic!(rt; "a job was left"),
        None => (),
    }
}

// The hand's job is done, and its share is as it was.
fn give_back(board: &Board<Doubling>, hand: &mut Hand<Doubling>, mut held: Held<Doubling>)
    requires own { IsHandOf ⟦<Doubling as Work>⟧.origin board.now hand.old }
    requires holds { (hand_state hand.old).held ≡ Some held.number }
    requires not_spent { (hand_state hand.old).spent ≡ false }
    requires job { IsJobOf (λ j. j.number) (λ j. j.given ∷ []) board.now held.number held.job }
    ensures own { IsHandOf ⟦<Doubling as Work>⟧.origin board.now hand.new }
    ensures share { (hand_state hand.new).share ≡ (hand_state hand.old).share }
    ensures free { IsFree (hand_state hand.new) }
{
    held.job().double();
    board.finish(hand, held);
}

fn may_cross<T: Send>() {}

fn may_be_shared<T: Sync>() {}

// Of any job that may go to another thread, the board is shared and its hands cross.
fn crosses<J: Work>() {
    may_cross::<Board<J>>();
    may_be_shared::<Board<J>>();
    may_cross::<Hand<J>>();
    may_cross::<Held<J>>();
}

#[test]
fn two_hands_take_turns(rt: HostRuntime) -> Result<(), Fail> {
    let (board, mut a) = Board::new(rt.alloc(), three(rt.alloc())?, 2)?;
    let mut b = board.split(&mut a, 1);
    assert_eq!(rt; (a.share(), b.share()), (1, 1));
    let first = draw(&rt, &board, &mut a);
    let second = draw(&rt, &board, &mut b);
    assert_eq!(rt; (first.number(), second.number()), (0, 1));
    assert!(rt; a.holding() && b.holding());
    give_back(&board, &mut b, second);
    let third = draw(&rt, &board, &mut b);
    assert_eq!(rt; third.number(), 2);
    give_back(&board, &mut a, first);
    find_none(&rt, &board, &mut a);
    assert!(rt; a.spent() && !b.spent());
    give_back(&board, &mut b, third);
    find_none(&rt, &board, &mut b);
    board.join(&mut a, b);
    assert_eq!(rt; (a.share(), a.spent(), a.holding()), (2, true, false));
    let jobs = board.close(a);
    let found = [jobs[0].doubled, jobs[1].doubled, jobs[2].doubled];
    assert_eq!(rt; found, [Some(14), Some(16), Some(18)]);
    assert_eq!(rt; jobs.len(), 3);
    Ok(())
}

#[test]
fn a_board_of_no_jobs_is_spent_at_once(rt: HostRuntime) -> Result<(), Fail> {
    let jobs: Vec<Doubling> = Vec::new(rt.alloc());
    crosses::<Doubling>();
    let (board, mut hand) = Board::new(rt.alloc(), jobs, 1)?;
    find_none(&rt, &board, &mut hand);
    assert!(rt; board.close(hand).is_empty());
    Ok(())
}
