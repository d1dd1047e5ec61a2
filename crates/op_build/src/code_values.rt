// The operations between codes and values.
ghost use Rattle.std.specs.Prelude.{◌≡◌, ◌*◌, ℕ, negsuc};
ghost use Rattle.frac_math.specs.Fraction.{nat, whole, neg_ℚ, ◌/ℚ◌};
ghost use Rattle.frac_math.specs.Checked.{QuotientFits};
ghost use Rattle.colour_matrix.specs.declared.class.Levels.{Levels};
ghost use Rattle.pix_desc.specs.Layouts.{IsValid};
ghost use Rattle.op_list.specs.Values.{four, fraction_in};
ghost use Rattle.pix_meaning.specs.Channels.{channel_levels};
ghost use Rattle.op_build.specs.Recipe.{are_plain, diagonal, from_codes, to_codes};
ghost use Rattle.op_build.specs.LevelSizes.{AreSmall};

use colour_matrix::Levels;
use frac_math::Frac;
use op_list::Op;
use pix_meaning::{Side, channel_levels};

// The levels of the four channels of a side.
fn side_levels(side: &Side) -> [Levels; 4]
    requires { IsValid side.now.desc }
    ensures { result ≡ four (channel_levels side.now) }
{
    [
        channel_levels(side, 0),
        channel_levels(side, 1),
        channel_levels(side, 2),
        channel_levels(side, 3),
    ]
}

// Whether all four scales are equal, and all bases are 0.
fn are_plain(levels: &[Levels; 4]) -> bool
    ensures { (l : ℕ → Levels) → levels.now ≡ four l → result ≡ are_plain l }
{
    let [first, second, third, fourth] = *levels;
    let zero = Frac::whole(0);
    second.scale == first.scale
        && third.scale == first.scale
        && fourth.scale == first.scale
        && first.base == zero
        && second.base == zero
        && third.base == zero
        && fourth.base == zero
}

/// One coefficient and one constant for each value.
pub fn diagonal(scales: &[Frac; 4], constants: &[Frac; 4]) -> [[Frac; 5]; 4]
    ensures { result ≡ diagonal (fraction_in scales.now) (fraction_in constants.now) }
{
    let [a, b, c, d] = *scales;
    let [e, f, g, h] = *constants;
    let zero = Frac::whole(0);
    [
        [a, zero, zero, zero, e],
        [zero, b, zero, zero, f],
        [zero, zero, c, zero, g],
        [zero, zero, zero, d, h],
    ]
}

// x/y, where its numbers fit.
fn quotient(x: &Frac, y: &Frac) -> Frac
    requires { QuotientFits x.now y.now }
    ensures { result ≡ x.now /ℚ y.now }
{
    x.checked_div(y).unwrap()
}

// By how much a value rises with each code.
fn value_step(levels: &Levels) -> Frac
    requires { AreSmall levels.now }
    ensures { result ≡ nat 1 /ℚ levels.now.scale }
{
    quotient(&Frac::whole(1), &levels.scale)
}

fn negative_base(levels: &Levels) -> Frac
    requires { AreSmall levels.now }
    ensures { result ≡ neg_ℚ levels.now.base }
{
    Frac::whole(-1).checked_mul(&levels.base).unwrap()
}

// The value of code 0.
fn value_of_zero(levels: &Levels) -> Frac
    requires { AreSmall levels.now }
    ensures { result ≡ neg_ℚ levels.now.base /ℚ levels.now.scale }
{
    quotient(&negative_base(levels), &levels.scale)
}

/// From codes to values.
pub fn from_codes(side: &Side) -> Op
    requires { IsValid side.now.desc }
    ensures { result ≡ from_codes side.now }
{
    let levels = side_levels(side);
    let [first, second, third, fourth] = levels;
    if are_plain(&levels) {
        return Op::Scale {
            by: value_step(&first),
        };
    }
    Op::Linear {
        rows: diagonal(
            &[
                value_step(&first),
                value_step(&second),
                value_step(&third),
                value_step(&fourth),
            ],
            &[
                value_of_zero(&first),
                value_of_zero(&second),
                value_of_zero(&third),
                value_of_zero(&fourth),
            ],
        ),
    }
}

/// From values to codes.
pub fn to_codes(side: &Side) -> Op
    requires { IsValid side.now.desc }
    ensures { result ≡ to_codes side.now }
{
    let levels = side_levels(side);
    let [first, second, third, fourth] = levels;
    if are_plain(&levels) {
        return Op::Scale { by: first.scale };
    }
    Op::Linear {
        rows: diagonal(
            &[first.scale, second.scale, third.scale, fourth.scale],
            &[first.base, second.base, third.base, fourth.base],
        ),
    }
}
