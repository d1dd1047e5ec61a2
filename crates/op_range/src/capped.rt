ghost use Rattle.std.specs.Prelude.{◌≡◌, ◌<◌, ◌≤◌, ◌+◌, ◌*◌, ◌/◌, ◌^◌};
ghost use Rattle.op_range.specs.FractionBounds.{factor};
ghost use Rattle.op_range.specs.Width.{common_multiple};
ghost use Rattle.op_range.specs.Capped.{capped, below_cap};

use frac_math::common_divisor;

// Numbers from here on are not told apart.
pub const CAP: u128 = 1 << 126;

// The product, and the cap where it is no less.
pub fn capped_product(a: u128, b: u128) -> u128
    ensures { result ≡ capped (a * b) }
{
    match a.checked_mul(b) {
        Some(product) => product.min(CAP),
        None => CAP,
    }
}

// The sum, and the cap where it is no less.
pub fn capped_sum(a: u128, b: u128) -> u128
    ensures { result ≡ capped (a + b) }
{
    match a.checked_add(b) {
        Some(sum) => sum.min(CAP),
        None => CAP,
    }
}

// The product below the cap.
pub fn product_below(a: u128, b: u128) -> Option<u128>
    ensures { result ≡ below_cap (a * b) }
{
    match a.checked_mul(b) {
        Some(product) => { if product < CAP { Some(product) } else { None } }
        None => None,
    }
}

// b divided by the greatest common divisor: a times this is the least common multiple.
pub fn factor(a: u128, b: u128) -> u128
    requires { 0 < b }
    ensures { result ≡ factor a b }
{
    b / common_divisor(a, b)
}

// The least common multiple below the cap.
pub fn common_multiple(a: u128, b: u128) -> Option<u128>
    requires { 0 < b }
    ensures { result ≡ below_cap (common_multiple a b) }
{
    product_below(a, factor(a, b))
}
