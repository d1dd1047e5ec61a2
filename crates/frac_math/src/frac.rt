ghost use Rattle.std.specs.Prelude.{◌≡◌, ◌≢◌, pos, unsigned_abs, ◌<ℤ◌, FitsSigned};
ghost use Rattle.std.specs.Option.{SomeIff};
ghost use Rattle.std.specs.Int.{w128};
ghost use Rattle.frac_math.specs.Fraction.{ℚ, over, ratio, ◌+ℚ◌, ◌*ℚ◌, ◌/ℚ◌, whole, floor, order};
ghost use Rattle.frac_math.specs.Checked.{SumFits, ProductFits, QuotientFits, RatioFits};
ghost use Rattle.frac_math.specs.Checked.{checked_sum, checked_product, checked_quotient};
ghost use Rattle.frac_math.specs.Checked.{checked_ratio};
ghost use Rattle.frac_math.specs.Reduced.{IsReduced, over-numerator, over-denominator};
ghost use Rattle.frac_math.specs.Signed.{with_sign};

use crate::divisor::common_divisor;
use crate::product::compare_products;
use std::cmp::Ordering;
use std::marker::Model;

/// An exact fraction in lowest terms, whose denominator is at least 1.
/// The numerator and the denominator are numbers of 128 bits, and no call rounds.
#[derive(Clone, Copy, Debug)]
pub struct Frac {
    num: i128,
    den: i128,
}

impl Model for Frac {
    ghost Value = { ℚ };

    ghost view = { λ f. over f.num (unsigned_abs f.den) };

    ghost invariant = { λ f. IsReduced f.num f.den };

    ghost inverse = { λ x. record { num = x.numerator; den = pos x.denominator } };

    ghost inverse_ok = { λ f h. λ i.
        record { num = over-numerator f.num f.den h i; den = over-denominator f.num f.den h i } };
}

// The size with the sign, where an i128 holds it.
fn signed(size: u128, negative: bool) -> Option<i128>
    ensures { SomeIff result (FitsSigned w128 (with_sign negative size)) (with_sign negative size) }
{
    if negative {
        0i128.checked_sub_unsigned(size)
    } else {
        0i128.checked_add_unsigned(size)
    }
}

// num/den in lowest terms.
pub(crate) fn reduced(num: i128, den: i128) -> Frac
    requires { pos 0 <ℤ den }
    ensures { result ≡ over num (unsigned_abs den) }
{
    if den == 1 {
        return Frac { num, den };
    }
    let divisor = common_divisor(num.unsigned_abs(), den.unsigned_abs()) as i128;
    Frac {
        num: num / divisor,
        den: den / divisor,
    }
}

impl Frac {
    /// num/den in lowest terms. None where den is 0, or where the lowest terms leave i128.
    pub fn new(num: i128, den: i128) -> Option<Frac>
        ensures exact { SomeIff result (RatioFits num den) (ratio num den) }
        ensures value { result ≡ checked_ratio num den }
    {
        if den == 0 {
            return None;
        }
        let divisor = common_divisor(num.unsigned_abs(), den.unsigned_abs());
        let negative = (num < 0) != (den < 0);
        let above = signed(num.unsigned_abs() / divisor, negative)?;
        let below = signed(den.unsigned_abs() / divisor, false)?;
        Some(Frac {
            num: above,
            den: below,
        })
    }

    /// The whole number n, which is n/1.
    pub fn whole(n: i128) -> Frac
        ensures { result ≡ whole n }
    {
        Frac { num: n, den: 1 }
    }

    /// The numerator in lowest terms, with the sign.
    pub fn num(&self) -> i128
        ensures { result ≡ self.now.numerator }
    {
        self.num
    }

    /// The denominator in lowest terms, at least 1.
    pub fn den(&self) -> i128
        ensures { result ≡ pos self.now.denominator }
    {
        self.den
    }

    /// The exact sum of a/b and c/d. None where a d, c b, a d + c b or b d leaves i128.
    pub fn checked_add(&self, other: &Frac) -> Option<Frac>
        ensures exact { SomeIff result (SumFits self.now other.now) (self.now +ℚ other.now) }
        ensures value { result ≡ checked_sum self.now other.now }
    {
        // most terms of a row are 0
        let (left, right) = (self.num, other.num);
        if right == 0 {
            Some(*self)
        } else if left == 0 {
            Some(*other)
        } else {
            self.reduced_sum(other)
        }
    }

    // The sum, of its four numbers.
    fn reduced_sum(&self, other: &Frac) -> Option<Frac>
        ensures exact { SomeIff result (SumFits self.now other.now) (self.now +ℚ other.now) }
        ensures value { result ≡ checked_sum self.now other.now }
    {
        let left = self.num().checked_mul(other.den())?;
        let right = other.num().checked_mul(self.den())?;
        let sum = left.checked_add(right)?;
        let den = self.den().checked_mul(other.den())?;
        Some(reduced(sum, den))
    }

    /// The exact product of a/b and c/d. None where a c or b d leaves i128.
    pub fn checked_mul(&self, other: &Frac) -> Option<Frac>
        ensures exact { SomeIff result (ProductFits self.now other.now) (self.now *ℚ other.now) }
        ensures value { result ≡ checked_product self.now other.now }
    {
        // most coefficients of a row are 0
        let (left, right) = (self.num, other.num);
        if right == 0 {
            Some(*other)
        } else if left == 0 {
            Some(*self)
        } else {
            self.reduced_product(other)
        }
    }

    // The product, of its two numbers.
    fn reduced_product(&self, other: &Frac) -> Option<Frac>
        ensures exact { SomeIff result (ProductFits self.now other.now) (self.now *ℚ other.now) }
        ensures value { result ≡ checked_product self.now other.now }
    {
        let num = self.num().checked_mul(other.num())?;
        let den = self.den().checked_mul(other.den())?;
        Some(reduced(num, den))
    }

    /// The exact quotient of a/b by c/d. None where c is 0, or where a d s or b c s leaves i128,
    /// for the sign s of c.
    pub fn checked_div(&self, other: &Frac) -> Option<Frac>
        ensures exact { SomeIff result (QuotientFits self.now other.now) (self.now /ℚ other.now) }
        ensures value { result ≡ checked_quotient self.now other.now }
    {
        let sign = other.num().signum();
        if sign == 0 {
            return None;
        }
        let num = self.num().checked_mul(other.den() * sign)?;
        let den = other.num().checked_mul(self.den() * sign)?;
        Some(reduced(num, den))
    }

    /// The greatest whole number that is not above.
    pub fn floor(&self) -> i128
        ensures { result ≡ floor self.now }
    {
        self.num().div_euclid(self.den())
    }

    /// The exact order. Nothing overflows.
    pub fn cmp(&self, other: &Frac) -> Ordering
        ensures { result ≡ order self.now other.now }
    {
        let left = self.num();
        let right = other.num();
        if left >= 0 {
            if right >= 0 {
                compare_products(
                    left.unsigned_abs(),
                    other.den().unsigned_abs(),
                    right.unsigned_abs(),
                    self.den().unsigned_abs(),
                )
            } else {
                Ordering::Greater
            }
        } else if right >= 0 {
            Ordering::Less
        } else {
            compare_products(
                right.unsigned_abs(),
                self.den().unsigned_abs(),
                left.unsigned_abs(),
                other.den().unsigned_abs(),
            )
        }
    }
}

impl PartialEq for Frac {
    ghost use Rattle.frac_math.specs.Fraction.{equal_ℚ};
    ghost use Rattle.frac_math.specs.Equality.{equal_partial_equivalence};

    ghost eq = { equal_ℚ };

    ghost laws = { equal_partial_equivalence };

    fn eq(&self, other: &Frac) -> bool {
        self.num() == other.num() && self.den() == other.den()
    }
}

impl Eq for Frac {
    ghost use Rattle.frac_math.specs.Equality.{equal_equivalence};

    ghost laws = { equal_equivalence };
}
