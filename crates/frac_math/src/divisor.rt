ghost use Rattle.std.specs.Prelude.{◌≡◌};
ghost use Rattle.frac_math.specs.Gcd.{gcd};

/// The greatest common divisor; that of a number and 0 is the number.
// It goes in divisions of 64 bits from where the lesser number has no more.
pub fn common_divisor(a: u128, b: u128) -> u128
    ensures { result ≡ gcd a b }
{
    let mut x = a;
    let mut y = b;
    while y > u64::MAX as u128 {
        let rest = x % y;
        x = y;
        y = rest;
    }
    if y == 0 {
        return x;
    }
    short_divisor(y as u64, (x % y) as u64) as u128
}

fn short_divisor(a: u64, b: u64) -> u64
    ensures { result ≡ gcd a b }
{
    let mut x = a;
    let mut y = b;
    while y != 0 {
        let rest = x % y;
        x = y;
        y = rest;
    }
    x
}
