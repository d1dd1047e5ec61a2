// Fractions of two whole numbers, small enough that they always fit.
ghost use Rattle.std.specs.Prelude.{◌≡◌, ◌<◌, pos, neg_ℤ};
ghost use Rattle.frac_math.specs.Fraction.{nat, over};

use frac_math::Frac;

/// n/1
pub fn whole(n: u64) -> Frac
    ensures { result ≡ nat n }
{
    Frac::whole(i128::from(n))
}

/// numerator/denominator
pub fn ratio(numerator: u64, denominator: u64) -> Frac
    requires { 0 < denominator }
    ensures { result ≡ over (pos numerator) denominator }
{
    Frac::new(i128::from(numerator), i128::from(denominator)).unwrap()
}

/// -numerator/denominator
pub fn negative_ratio(numerator: u64, denominator: u64) -> Frac
    requires { 0 < denominator }
    ensures { result ≡ over (neg_ℤ (pos numerator)) denominator }
{
    Frac::new(-i128::from(numerator), i128::from(denominator)).unwrap()
}
