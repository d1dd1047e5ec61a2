//! The laws of the definitions, each the contract of a function.
ghost use Rattle.op_range.specs.FractionBoundLaws.{BoundsAreEnough};
ghost use Rattle.op_range.specs.Examples.{WordsToBytes};
ghost use Rattle.op_range.specs.Laws.{UnusedIsFree, RangesEnclose, NumbersStaySmall, StatesEnclose};

/// Where the fractions have bounds, and the operations' bounds after these are there, the checked
/// operations have the exact answers, within them.
pub fn bounds_are_enough()
    ensures { BoundsAreEnough }
{}

/// Values that agree in the used ones give the same elements.
pub fn unused_is_free()
    ensures { UnusedIsFree }
{}

/// The ranges after an operation enclose the values after it, where those before it do.
pub fn ranges_enclose()
    ensures { RangesEnclose }
{}

/// The numbers of a whole type keep its bits.
pub fn numbers_stay_small()
    ensures { NumbersStaySmall }
{}

/// The states of a whole list enclose it at every pixel of every frame.
pub fn states_enclose()
    ensures { StatesEnclose }
{}

/// The width of a list that is known from outside.
pub fn words_to_bytes_are_narrow()
    ensures { WordsToBytes }
{}
