ghost use Rattle.std.specs.Prelude.{◌≡◌, ◌*◌};
ghost use Rattle.std.specs.Ordering.{nat_cmp};

use std::cmp::Ordering;

// The order of two products, each of up to 256 bits.
pub(crate) fn compare_products(a: u128, b: u128, c: u128, d: u128) -> Ordering
    ensures { result ≡ nat_cmp (a * b) (c * d) }
{
    let (low, high) = a.carrying_mul(b, 0);
    let (other_low, other_high) = c.carrying_mul(d, 0);
    if high < other_high {
        Ordering::Less
    } else if other_high < high {
        Ordering::Greater
    } else if low < other_low {
        Ordering::Less
    } else if other_low < low {
        Ordering::Greater
    } else {
        Ordering::Equal
    }
}
