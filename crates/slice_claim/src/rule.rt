// The rule of a board's table, and the names of its steps.
ghost use Rattle.std.specs.Prelude.{ℕ};
ghost use Rattle.slice_claim.specs.Rule.{IsBoard, first_of, Draws, Finishes};
ghost use Rattle.slice_claim.specs.Rule.{kept_view, given_view, joined_view, ended_view};

use crate::view::{Terms, View};
use crate::work::Work;
use atomic_table::{Join, Play, Split, TableRule};
use std::marker::{Brand, PhantomData};

// Between any two steps the table shows a lawful state of the claim machine.
pub struct BoardRule<J> {
    marker: PhantomData<J>,
}

impl<J: Work> TableRule<Option<J>, View, Terms<J>> for BoardRule<J> {
    ghost holds = { IsBoard J.number_of J.origin J.is_done };

    ghost first = { first_of J.origin };
}

// Draws the next number, and takes its slot, where there is one.
pub struct ClaimStep<J> {
    marker: PhantomData<J>,
}

impl<J: Work> Play<Option<J>, View> for ClaimStep<J> {
    ghost then = { Draws J.number_of J.origin };
}

// Gives the slot back.
pub struct FinishStep;

impl<J> Play<Option<J>, View> for FinishStep {
    ghost then = { Finishes };
}

// How much of a share is given away. A proof picks it at the call, so that it has no bytes.
pub trait Gift {
    ghost amount: { ℕ };
}

impl Gift for Brand {
    ghost amount = { 0 };
}

// Cuts a hand in two.
pub struct SplitStep<G> {
    marker: PhantomData<G>,
}

impl<G: Gift> Split<View> for SplitStep<G> {
    ghost left = { kept_view G.amount };

    ghost right = { given_view G.amount };
}

// Makes two hands one.
pub struct JoinStep;

impl Join<View> for JoinStep {
    ghost both = { joined_view };

    ghost spent = { ended_view };
}
