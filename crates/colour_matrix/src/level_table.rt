// The levels of a class, a depth and a range.
ghost use Rattle.std.specs.Prelude.{◌≡◌, ℕ, ◌^◌, ◌*◌, ◌≤◌, ◌<◌};
ghost use Rattle.frac_math.specs.Fraction.{ℚ, nat, ◌<ℚ◌};
ghost use Rattle.colour_matrix.specs.Levels.{levels, from_code, to_code, scaled_to};

use crate::class::{Class, Levels, Range};
use crate::ratio::{ratio, whole};
use frac_math::Frac;

/// The levels of a component of `depth` bits, 1 to 16. Red, green, blue and alpha have all codes,
/// whatever the range.
pub fn levels(class: Class, depth: u8, range: Range) -> Levels
    requires some_depth { 1 ≤ depth }
    requires greatest_depth { depth ≤ 16 }
    ensures value { result ≡ levels class depth range }
    ensures scale { nat 0 <ℚ result.scale }
    ensures code_back { (code : ℚ) → to_code result (from_code result code) ≡ code }
    ensures value_back { (e : ℚ) → from_code result (to_code result e) ≡ e }
{
    Levels {
        scale: scale_of(class, depth, range),
        base: base_of(class, depth, range),
    }
}

/// The difference of codes by which a value rises by 1.
fn scale_of(class: Class, depth: u8, range: Range) -> Frac
    requires some_depth { 1 ≤ depth }
    requires greatest_depth { depth ≤ 16 }
    ensures { result ≡ (levels class depth range).scale }
{
    match (class, range) {
        (Class::Luma, Range::Limited) => scaled(219, depth),
        (Class::Chroma, Range::Limited) => scaled(224, depth),
        _ => whole(power(depth) - 1),
    }
}

/// The code that stands for 0.
fn base_of(class: Class, depth: u8, range: Range) -> Frac
    requires some_depth { 1 ≤ depth }
    requires greatest_depth { depth ≤ 16 }
    ensures { result ≡ (levels class depth range).base }
{
    match (class, range) {
        (Class::Luma, Range::Limited) => scaled(16, depth),
        (Class::Chroma, Range::Limited) => scaled(128, depth),
        (Class::Chroma, Range::Full) => whole(power(depth - 1)),
        _ => whole(0),
    }
}

/// A code at 8 bits, put at `depth` bits: 2^(depth - 8) * code, a fraction below 8 bits.
fn scaled(code: u8, depth: u8) -> Frac
    requires { depth ≤ 16 }
    ensures { result ≡ scaled_to depth code }
{
    ratio(power(depth) * u64::from(code), 256)
}

/// 2^exponent
fn power(exponent: u8) -> u64
    requires { exponent ≤ 16 }
    ensures { result ≡ 2 ^ exponent }
{
    1 << exponent
}
