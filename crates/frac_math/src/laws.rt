//! Laws of fractions and of the ordered dither: each is the contract of a function without a body.
ghost use Rattle.frac_math.specs.Laws.{IsCheckedExactly, IsComparedExactly, FloorIsGreatest};
ghost use Rattle.frac_math.specs.Laws.{DitherIsInside, DitherKeepsWhole, DitherRepeats};
ghost use Rattle.frac_math.specs.Laws.{DitherIsDistinct};

/// Each checked call has the exact answer where its numbers fit, and no answer elsewhere.
pub fn checked_exactly()
    ensures { IsCheckedExactly }
{}

/// The test of equality and the order are those of the values.
pub fn compared_exactly()
    ensures { IsComparedExactly }
{}

/// The floor of a fraction is the greatest whole number that is not above it.
pub fn floor_is_greatest()
    ensures { FloorIsGreatest }
{}

/// The dither lies strictly between 0 and 1.
pub fn dither_is_inside()
    ensures { DitherIsInside }
{}

/// A whole number with the dither added has that number as its floor.
pub fn dither_keeps_whole()
    ensures { DitherKeepsWhole }
{}

/// The dither repeats after 2^k pixels in each direction.
pub fn dither_repeats()
    ensures { DitherRepeats }
{}

/// No two pixels of a square of 2^k by 2^k have the same dither.
pub fn dither_is_distinct()
    ensures { DitherIsDistinct }
{}
