//! The laws of the definitions, each the contract of a function.
ghost use Rattle.op_list.specs.Laws.{AppliesExactly, RunsExactly, AppliesWhereItFits};
ghost use Rattle.op_list.specs.Laws.{RunsWhereItFits, ReadsInOrder};
ghost use Rattle.op_list.specs.Walk.{EveryListWalksInParts, EveryListAppends, EveryPartIsReplaced};
ghost use Rattle.op_list.specs.Walk.{EveryFrontRunsAlike, EndsAsItsRest, NothingFollowsWrite};
ghost use Rattle.op_list.specs.Store.{ElementsMakeFrame};

use crate::list::OpList;

/// Where the checked steps of an operation have an answer, it is the exact one.
pub fn applies_exactly()
    ensures { AppliesExactly }
{}

/// Where the checked steps of a list have an answer, it is the exact one.
pub fn runs_exactly()
    ensures { RunsExactly }
{}

/// The checked steps of an operation have an answer where all numbers fit.
pub fn applies_where_it_fits()
    ensures { AppliesWhereItFits }
{}

/// The checked steps of a list have an answer where all numbers fit.
pub fn runs_where_it_fits()
    ensures { RunsWhereItFits }
{}

/// Two parts, one behind the other, as one list: typing, stage, size, exact and checked run.
pub fn walks_in_parts()
    ensures { EveryListWalksInParts }
{}

/// The same of a list with one operation more at its end.
pub fn appends_operation()
    ensures { EveryListAppends }
{}

/// Operations in the middle of a list, replaced by others that may stand for them: typing, stage
/// and size.
pub fn replaces_part()
    ensures { EveryPartIsReplaced }
{}

/// Lists behind one front run alike where they do on what the front leaves, by the exact and by the
/// checked run.
pub fn runs_alike()
    ensures { EveryFrontRunsAlike }
{}

/// A list ends with a Write where its rest does.
pub fn ends_as_its_rest()
    ensures { EndsAsItsRest }
{}

/// Nothing follows a Write.
pub fn nothing_follows_write()
    ensures { NothingFollowsWrite }
{}

/// The elements of a pixel stand in the order of its planes.
pub fn reads_in_order()
    ensures { ReadsInOrder }
{}

/// The elements of all pixels determine a frame.
pub fn elements_make_frame()
    ensures { ElementsMakeFrame }
{}

/// An `OpList` is `Send` and `Sync`: the workers of a run share one list. A missing proof of it
/// would else show only where the first threads are started.
pub fn crosses_threads() {
    crosses::<OpList>()
}

fn crosses<T: Send + Sync>() {}
