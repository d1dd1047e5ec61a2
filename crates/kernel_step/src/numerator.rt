ghost use Rattle.std.specs.Prelude.{◌≡◌, ◌*◌, ◌^◌, ◌<◌, ℤ, pos, ◌+ℤ◌, ◌-ℤ◌, ◌*ℤ◌, ◌≤ℤ◌, ◌<ℤ◌};
ghost use Rattle.std.specs.Prelude.{FitsSigned, ◌/◌, unsigned_abs};
ghost use Rattle.std.specs.Int.{Width, int_div_euclid, w32, w64, w128};
ghost use Rattle.op_list.specs.Whole.{modulo};
ghost use Rattle.kernel_step.specs.Rules.{with_product, but_at_least, but_at_most};

/// A numerator, in 32, 64 or 128 bits.
pub trait Numerator: Copy {
    ghost width: { Width };

    ghost value: { Self → ℤ };

    /// A number that fits.
    fn of(n: i128) -> Self
        requires { FitsSigned width n }
        ensures { value result ≡ n };

    /// The number with k times another one.
    fn raised(self, from: Self, k: Self) -> Self
        requires product { FitsSigned width (value k *ℤ value from) }
        requires fits { FitsSigned width (with_product (value self) (value from) (value k)) }
        ensures { value result ≡ with_product (value self) (value from) (value k) };

    /// The number with k times another one, where that lies from 0 to 2^31 - 1, and k from 0 to
    /// 2^32 - 1.
    fn raised_short(self, from: Self, k: Self) -> Self
        requires from { (pos 0 ≤ℤ value from) × (value from <ℤ pos (2 ^ 31)) }
        requires k { (pos 0 ≤ℤ value k) × (value k <ℤ pos (2 ^ 32)) }
        requires product { FitsSigned width (value k *ℤ value from) }
        requires fits { FitsSigned width (with_product (value self) (value from) (value k)) }
        ensures { value result ≡ with_product (value self) (value from) (value k) };

    /// The same where k lies from -(2^32 - 1) to 0.
    fn lowered_short(self, from: Self, k: Self) -> Self
        requires from { (pos 0 ≤ℤ value from) × (value from <ℤ pos (2 ^ 31)) }
        requires k { (value k ≤ℤ pos 0) × ((pos 0 -ℤ value k) <ℤ pos (2 ^ 32)) }
        requires product { FitsSigned width (value k *ℤ value from) }
        requires fits { FitsSigned width (with_product (value self) (value from) (value k)) }
        ensures { value result ≡ with_product (value self) (value from) (value k) };

    /// The number with k times another one, where that lies from 0 to 2^31 - 1, and k from -2^31 to
    /// 2^31 - 1.
    fn raised_signed(self, from: Self, k: Self) -> Self
        requires from { (pos 0 ≤ℤ value from) × (value from <ℤ pos (2 ^ 31)) }
        requires k { FitsSigned w32 (value k) }
        requires product { FitsSigned width (value k *ℤ value from) }
        requires fits { FitsSigned width (with_product (value self) (value from) (value k)) }
        ensures { value result ≡ with_product (value self) (value from) (value k) };

    /// k times the number, where it lies from 0 to 2^31 - 1, and k from 0 to 2^32 - 1.
    fn times_short(self, k: Self) -> Self
        requires from { (pos 0 ≤ℤ value self) × (value self <ℤ pos (2 ^ 31)) }
        requires k { (pos 0 ≤ℤ value k) × (value k <ℤ pos (2 ^ 32)) }
        requires product { FitsSigned width (value k *ℤ value self) }
        ensures { value result ≡ value k *ℤ value self };

    /// k times the number.
    fn times(self, k: Self) -> Self
        requires { FitsSigned width (value k *ℤ value self) }
        ensures { value result ≡ value k *ℤ value self };

    /// The sum of the number and another one.
    fn plus(self, addend: Self) -> Self
        requires { FitsSigned width (value self +ℤ value addend) }
        ensures { value result ≡ value self +ℤ value addend };

    /// The number, but at least a limit.
    fn but_at_least(self, least: Self) -> Self
        ensures { value result ≡ but_at_least (value least) (value self) };

    /// The number, but at most a limit.
    fn but_at_most(self, greatest: Self) -> Self
        ensures { value result ≡ but_at_most (value greatest) (value self) };

    /// The number without its lowest bits, where 32 bits hold that.
    fn above(self, zeros: u32) -> u32
        requires zeros { zeros < 32 }
        requires least { pos 0 ≤ℤ value self }
        requires greatest { unsigned_abs (value self) / 2 ^ zeros < 2 ^ 32 }
        ensures { result ≡ unsigned_abs (value self) / 2 ^ zeros };

    /// The number, where 64 bits hold it.
    fn long(self) -> u64
        requires least { pos 0 ≤ℤ value self }
        requires greatest { value self <ℤ pos (2 ^ 64) }
        ensures { pos result ≡ value self };

    /// The floor of the quotient by d, modulo 2^32.
    fn floor_by(self, d: Self) -> u32
        requires { pos 0 <ℤ value d }
        ensures { result ≡ modulo (int_div_euclid (value self) (value d)) (2 ^ 32) };
}

impl Numerator for i32 {
    ghost width = { w32 };

    ghost value = { λ x. x };

    fn of(n: i128) -> i32 {
        n as i32
    }

    #[tactic(auto, unfolding(crate::specs::Rules::with_product))]
    fn raised(self, from: i32, k: i32) -> i32 {
        self + k * from
    }

    #[tactic(auto, unfolding(crate::specs::Rules::with_product))]
    fn raised_short(self, from: i32, k: i32) -> i32 {
        self + k * from
    }

    #[tactic(auto, unfolding(crate::specs::Rules::with_product))]
    fn lowered_short(self, from: i32, k: i32) -> i32 {
        self + k * from
    }

    #[tactic(auto, unfolding(crate::specs::Rules::with_product))]
    fn raised_signed(self, from: i32, k: i32) -> i32 {
        self + k * from
    }

    fn times(self, k: i32) -> i32 {
        k * self
    }

    fn times_short(self, k: i32) -> i32 {
        k * self
    }

    fn plus(self, addend: i32) -> i32 {
        self + addend
    }

    #[tactic(auto, unfolding(crate::specs::Rules::but_at_least))]
    fn but_at_least(self, least: i32) -> i32 {
        self.max(least)
    }

    #[tactic(auto, unfolding(crate::specs::Rules::but_at_most))]
    fn but_at_most(self, greatest: i32) -> i32 {
        self.min(greatest)
    }

    fn above(self, zeros: u32) -> u32 {
        self as u32 >> zeros
    }

    fn long(self) -> u64 {
        self as u64
    }

    fn floor_by(self, d: i32) -> u32 {
        i64::from(self.div_euclid(d)).rem_euclid(4_294_967_296) as u32
    }
}

// How far a number is below 0.
fn magnitude(k: i64) -> u32
    requires { (k ≤ℤ pos 0) × ((pos 0 -ℤ k) <ℤ pos (2 ^ 32)) }
    ensures { pos result ≡ pos 0 -ℤ k }
{
    (0 - k) as u32
}

// A sum less m times a number.
fn lowered(sum: i64, from: u32, m: u32) -> i64
    requires from { from < 2 ^ 31 }
    requires fits { FitsSigned w64 (sum -ℤ pos (m * from)) }
    ensures { result ≡ sum -ℤ pos (m * from) }
{
    let product = u64::from(m) * u64::from(from);
    sum - product as i64
}

// A product less 2^31 times its second factor. Its one multiplication is that of two numbers of 32
// bits without a sign, which the vectors of each processor have.
fn product_below(m: u32, from: i64) -> i64
    requires { (pos 0 ≤ℤ from) × (from <ℤ pos (2 ^ 31)) }
    ensures { result ≡ pos (m * unsigned_abs from) -ℤ pos (2 ^ 31 * unsigned_abs from) }
{
    let product = u64::from(m) * u64::from(from as u32);
    product as i64 - 2_147_483_648 * from
}

// The number that is 2^31 above k.
fn lifted(k: i64) -> u32
    requires { FitsSigned w32 k }
    ensures { pos result ≡ k +ℤ pos (2 ^ 31) }
{
    (k + 2_147_483_648) as u32
}

// k times a number that lies from 0 to 2^31 - 1.
fn signed_product(k: i64, from: i64) -> i64
    requires k { FitsSigned w32 k }
    requires from { (pos 0 ≤ℤ from) × (from <ℤ pos (2 ^ 31)) }
    ensures { result ≡ k *ℤ from }
{
    product_below(lifted(k), from)
}

impl Numerator for i64 {
    ghost width = { w64 };

    ghost value = { λ x. x };

    fn of(n: i128) -> i64 {
        n as i64
    }

    #[tactic(auto, unfolding(crate::specs::Rules::with_product))]
    fn raised(self, from: i64, k: i64) -> i64 {
        self + k * from
    }

    #[tactic(auto, unfolding(crate::specs::Rules::with_product))]
    fn raised_short(self, from: i64, k: i64) -> i64 {
        self + ((k as u32 as u64) * (from as u32 as u64)) as i64
    }

    fn lowered_short(self, from: i64, k: i64) -> i64 {
        lowered(self, from as u32, magnitude(k))
    }

    #[tactic(auto, unfolding(crate::specs::Rules::with_product))]
    fn raised_signed(self, from: i64, k: i64) -> i64 {
        self + signed_product(k, from)
    }

    fn times(self, k: i64) -> i64 {
        k * self
    }

    fn times_short(self, k: i64) -> i64 {
        ((k as u32 as u64) * (self as u32 as u64)) as i64
    }

    fn plus(self, addend: i64) -> i64 {
        self + addend
    }

    #[tactic(auto, unfolding(crate::specs::Rules::but_at_least))]
    fn but_at_least(self, least: i64) -> i64 {
        self.max(least)
    }

    #[tactic(auto, unfolding(crate::specs::Rules::but_at_most))]
    fn but_at_most(self, greatest: i64) -> i64 {
        self.min(greatest)
    }

    fn above(self, zeros: u32) -> u32 {
        (self as u64 >> zeros) as u32
    }

    fn long(self) -> u64 {
        self as u64
    }

    fn floor_by(self, d: i64) -> u32 {
        self.div_euclid(d).rem_euclid(4_294_967_296) as u32
    }
}

impl Numerator for i128 {
    ghost width = { w128 };

    ghost value = { λ x. x };

    fn of(n: i128) -> i128 {
        n
    }

    #[tactic(auto, unfolding(crate::specs::Rules::with_product))]
    fn raised(self, from: i128, k: i128) -> i128 {
        self + k * from
    }

    #[tactic(auto, unfolding(crate::specs::Rules::with_product))]
    fn raised_short(self, from: i128, k: i128) -> i128 {
        self + k * from
    }

    #[tactic(auto, unfolding(crate::specs::Rules::with_product))]
    fn lowered_short(self, from: i128, k: i128) -> i128 {
        self + k * from
    }

    #[tactic(auto, unfolding(crate::specs::Rules::with_product))]
    fn raised_signed(self, from: i128, k: i128) -> i128 {
        self + k * from
    }

    fn times(self, k: i128) -> i128 {
        k * self
    }

    fn times_short(self, k: i128) -> i128 {
        k * self
    }

    fn plus(self, addend: i128) -> i128 {
        self + addend
    }

    #[tactic(auto, unfolding(crate::specs::Rules::but_at_least))]
    fn but_at_least(self, least: i128) -> i128 {
        self.max(least)
    }

    #[tactic(auto, unfolding(crate::specs::Rules::but_at_most))]
    fn but_at_most(self, greatest: i128) -> i128 {
        self.min(greatest)
    }

    fn above(self, zeros: u32) -> u32 {
        (self as u128 >> zeros) as u32
    }

    fn long(self) -> u64 {
        self as u64
    }

    fn floor_by(self, d: i128) -> u32 {
        self.div_euclid(d).rem_euclid(4_294_967_296) as u32
    }
}
