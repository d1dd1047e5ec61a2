//! The laws of the claim machine, and of the steps on a board's table, each the contract of a
//! function.
ghost use Rattle.slice_claim.specs.Laws.{EventsKeepLawful, StartIsLawful, NextIsBounded};
ghost use Rattle.slice_claim.specs.Laws.{SharesFit, HeldByOne};
ghost use Rattle.slice_claim.specs.Events.{ClaimIsOneEvent, WorkIsOneEvent, FinishIsOneEvent};
ghost use Rattle.slice_claim.specs.Events.{SplitIsOneEvent, JoinIsOneEvent, HomeIsDone};

use crate::work::Work;

/// Each event of the claim machine leads from a lawful state to a lawful state.
pub fn events_keep_lawful()
    ensures { EventsKeepLawful }
{}

/// A board begins in a lawful state.
pub fn start_is_lawful()
    ensures { StartIsLawful }
{}

/// No more numbers are drawn than there are jobs and hands.
pub fn next_is_bounded()
    ensures { NextIsBounded }
{}

/// No two hands stand for more than the board's hands, so below 2^32.
pub fn shares_fit()
    ensures { SharesFit }
{}

/// No two hands hold one job.
pub fn held_by_one()
    ensures { HeldByOne }
{}

/// The step of `claim` is one event: a claim.
pub fn claim_is_one_event<J: Work>()
    ensures { ClaimIsOneEvent J.number_of J.origin J.is_done }
{}

/// Each move of the job out of a held slot or back into it is one event, which changes no state.
pub fn work_is_one_event<J: Work>()
    ensures { WorkIsOneEvent J.number_of J.origin J.is_done }
{}

/// The step of `finish` is one event: a finish.
pub fn finish_is_one_event<J: Work>()
    ensures { FinishIsOneEvent J.number_of J.origin J.is_done }
{}

/// The step of `split` is one event: a split.
pub fn split_is_one_event<J: Work>()
    ensures { SplitIsOneEvent J.number_of J.origin J.is_done }
{}

/// The step of `join` is one event: a join.
pub fn join_is_one_event<J: Work>()
    ensures { JoinIsOneEvent J.number_of J.origin J.is_done }
{}

/// The slots at home below the drawn numbers are those of the jobs that are done.
pub fn home_is_done<J: Work>()
    ensures { HomeIsDone J.number_of J.origin J.is_done }
{}
