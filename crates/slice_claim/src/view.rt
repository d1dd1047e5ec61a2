// What a board was made with, and what a hand knows of it.
ghost use Rattle.std.specs.Prelude.{ℕ, List};
ghost use Rattle.std.specs.Borrow.{ftrue};
ghost use Rattle.slice_claim.specs.Machine.{HandState};

use std::marker::Model;
use std::snapshot::Snapshot;

/// The number of a board's hands, and its jobs as they were given. It has no bytes of the jobs.
#[derive(Drop)]
pub struct Terms<J> {
    pub hands: u32,
    pub jobs: Snapshot<Vec<J>>,
}

/// What a hand knows: its own state, and what its board was made with. No value of it is made.
pub struct View {
    pub ghost hand: { HandState },
    pub ghost hands: { ℕ },
    pub ghost origins: { List (List ℕ) },
}

impl Model for View {
    ghost also_owns = { λ _. ftrue };
}
