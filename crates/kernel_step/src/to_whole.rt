// Fractions become whole numbers: their floors.
ghost use Rattle.std.specs.Prelude.{◌≡◌, ℕ, ◌+◌, ◌*◌, ◌/◌, ◌%◌, ◌^◌, ◌<◌, ◌≤◌, ◌⊎◌, ◌≤ℤ◌, ◌<ℤ◌};
ghost use Rattle.std.specs.Prelude.{pos, true, length, slice_index_or, unsigned_abs, IfSome};
ghost use Rattle.std.specs.Prelude.{FitsSigned};
ghost use Rattle.std.specs.Int.{int_div_euclid, w128};
ghost use Rattle.op_list.specs.Types.{bits, is_whole_type};
ghost use Rattle.op_list.specs.Typing.{stage_after};
ghost use Rattle.op_list.specs.Whole.{modulo};
ghost use Rattle.kernel_step.specs.Forms.{AreNarrowed, IsBounded, IsNarrowed, Performs, bits_of};
ghost use Rattle.kernel_step.specs.Forms.{extent_at, width_of};
ghost use Rattle.kernel_step.specs.ValueSteps.{AreFloors, AreIn, IsDivided, IsQuotient};
ghost use Rattle.kernel_step.specs.ValueSteps.{IsEvenQuotient, IsReciprocal};

use crate::form::{
    Divisor, Extent, Form, LongReciprocal, NO_DIVISOR, NumberWidth, Reciprocal, Storage,
};
use crate::interval::fits;
use crate::numerator::Numerator;
use kernel_lane::{Merge, merge_part};
use kernel_planes::WholeNumber;
use op_list::{Op, PixType, PixelPosition, Stage};

// The quotient of a number.
#[tactic(auto, using(crate::proofs::Division::quotient_is))]
fn quotient(n: u32, by: Reciprocal) -> u32
    requires reciprocal { IsReciprocal by.d by.bound by.factor by.shift }
    requires shift { by.shift < 64 }
    requires bound { n ≤ by.bound }
    ensures { result ≡ n / by.d }
{
    let product = n as u64 * by.factor as u64;
    let quotient = product >> by.shift;
    quotient as u32
}

// The same of 64 bits.
#[tactic(auto, using(crate::proofs::Division::quotient_is))]
fn long_quotient(n: u64, by: LongReciprocal) -> u64
    requires reciprocal { IsReciprocal by.d by.bound by.factor by.shift }
    requires shift { by.shift < 128 }
    requires bound { n ≤ by.bound }
    ensures { result ≡ n / by.d }
{
    let product = n as u128 * by.factor as u128;
    (product >> by.shift) as u64
}

// The lowest bits of a number: those of a whole type.
fn lowest(n: u32, to: PixType) -> u32
    requires { is_whole_type to ≡ true }
    ensures { result ≡ n % 2 ^ bits to }
{
    match to {
        PixType::U8 => n % 256,
        PixType::U16 => n % 65_536,
        PixType::U32 => n,
        PixType::Rat => unreachable!(),
    }
}

// The quotient of a number by a multiplication of 32 bits, once it has lost its lowest bits.
#[derive(Clone, Copy)]
struct ShortQuotient {
    zeros: u32,
    by: Reciprocal,
}

impl<W: WholeNumber, N: Numerator> Merge<N, W> for ShortQuotient {
    ghost takes = { λ r _ x. IsReciprocal r.by.d r.by.bound r.by.factor r.by.shift
        × (r.by.shift < 64) × (r.zeros < 32) × (pos 0 ≤ℤ N.value x)
        × (unsigned_abs (N.value x) / 2 ^ r.zeros ≤ r.by.bound)
        × (r.by.bound / r.by.d < 2 ^ W.bits) };

    ghost makes = { λ r _ x y. W.number y ≡ unsigned_abs (N.value x) / 2 ^ r.zeros / r.by.d };

    fn merged(self, _old: W, from: N) -> W {
        W::narrow(quotient(from.above(self.zeros), self.by))
    }
}

// The quotients of value v of each pixel, by a multiplication.
#[inline(never)]
fn narrow<W: WholeNumber, N: Numerator>(
    numbers: &[N],
    v: usize,
    zeros: u32,
    by: Reciprocal,
    values: &mut [W],
)
    requires block { (v < 4) × (length numbers.now ≡ 256) × (length values.old ≡ 256) }
    requires zeros { zeros < 32 }
    requires reciprocal { IsReciprocal by.d by.bound by.factor by.shift }
    requires shift { by.shift < 64 }
    requires least { (i : ℕ) (e : N) → i < 64
        → pos 0 ≤ℤ N.value (slice_index_or numbers.now (64 * v + i) e) }
    requires greatest { (i : ℕ) (e : N) → i < 64
        → unsigned_abs (N.value (slice_index_or numbers.now (64 * v + i) e)) / 2 ^ zeros
        ≤ by.bound }
    requires fits { by.bound / by.d < 2 ^ W.bits }
    ensures set { (i : ℕ) (d : W) (e : N) → i < 64
        → W.number (slice_index_or values.new (64 * v + i) d)
        ≡ unsigned_abs (N.value (slice_index_or numbers.now (64 * v + i) e)) / 2 ^ zeros / by.d }
    ensures kept { (j : ℕ) (d : W) → (j < 64 * v) ⊎ (64 * v + 64 ≤ j)
        → slice_index_or values.new j d ≡ slice_index_or values.old j d }
{
    let rule = ShortQuotient { zeros, by };
    merge_part::<N, W, ShortQuotient, 64>(rule, values, 64 * v, numbers, 64 * v);
}

// A quotient by a multiplication of 64 bits, which 32 bits hold.
fn short_of_long<N: Numerator>(n: N, by: LongReciprocal) -> u32
    requires reciprocal { IsReciprocal by.d by.bound by.factor by.shift }
    requires shift { by.shift < 128 }
    requires least { pos 0 ≤ℤ N.value n }
    requires greatest { N.value n ≤ℤ pos by.bound }
    requires short { by.bound / by.d < 2 ^ 32 }
    ensures value { result ≡ unsigned_abs (N.value n) / by.d }
    ensures small { result ≤ by.bound / by.d }
{
    long_quotient(n.long(), by) as u32
}

// The quotient of a number by a multiplication of 64 bits.
#[derive(Clone, Copy)]
struct LongQuotient {
    by: LongReciprocal,
}

impl<W: WholeNumber, N: Numerator> Merge<N, W> for LongQuotient {
    ghost takes = { λ r _ x. IsReciprocal r.by.d r.by.bound r.by.factor r.by.shift
        × (r.by.shift < 128) × (pos 0 ≤ℤ N.value x) × (N.value x ≤ℤ pos r.by.bound)
        × (r.by.bound / r.by.d < 2 ^ 32) × (r.by.bound / r.by.d < 2 ^ W.bits) };

    ghost makes = { λ r _ x y. W.number y ≡ unsigned_abs (N.value x) / r.by.d };

    fn merged(self, _old: W, from: N) -> W {
        W::narrow(short_of_long(from, self.by))
    }
}

// The same by a multiplication of 64 bits.
#[inline(never)]
fn narrow_long<W: WholeNumber, N: Numerator>(
    numbers: &[N],
    v: usize,
    by: LongReciprocal,
    values: &mut [W],
)
    requires block { (v < 4) × (length numbers.now ≡ 256) × (length values.old ≡ 256) }
    requires reciprocal { IsReciprocal by.d by.bound by.factor by.shift }
    requires shift { by.shift < 128 }
    requires least { (i : ℕ) (e : N) → i < 64
        → pos 0 ≤ℤ N.value (slice_index_or numbers.now (64 * v + i) e) }
    requires greatest { (i : ℕ) (e : N) → i < 64
        → N.value (slice_index_or numbers.now (64 * v + i) e) ≤ℤ pos by.bound }
    requires short { by.bound / by.d < 2 ^ 32 }
    requires fits { by.bound / by.d < 2 ^ W.bits }
    ensures set { (i : ℕ) (d : W) (e : N) → i < 64
        → W.number (slice_index_or values.new (64 * v + i) d)
        ≡ unsigned_abs (N.value (slice_index_or numbers.now (64 * v + i) e)) / by.d }
    ensures kept { (j : ℕ) (d : W) → (j < 64 * v) ⊎ (64 * v + 64 ≤ j)
        → slice_index_or values.new j d ≡ slice_index_or values.old j d }
{
    merge_part::<N, W, LongQuotient, 64>(LongQuotient { by }, values, 64 * v, numbers, 64 * v);
}

// A floor, modulo 2^bits.
fn floor_in<N: Numerator>(n: N, d: N, to: PixType) -> u32
    requires whole { is_whole_type to ≡ true }
    requires d { pos 0 <ℤ N.value d }
    ensures value { result ≡ modulo (int_div_euclid (N.value n) (N.value d)) (2 ^ bits to) }
    ensures small { result < 2 ^ bits to }
{
    lowest(n.floor_by(d), to)
}

// The floor of a number by a division.
#[derive(Clone, Copy)]
struct Floor<N> {
    d: N,
    to: PixType,
}

impl<W: WholeNumber, N: Numerator> Merge<N, W> for Floor<N> {
    ghost takes = { λ r _ x. (is_whole_type r.to ≡ true) × (pos 0 <ℤ N.value r.d)
        × (2 ^ bits r.to ≤ 2 ^ W.bits) };

    ghost makes = { λ r _ x y. W.number y
        ≡ modulo (int_div_euclid (N.value x) (N.value r.d)) (2 ^ bits r.to) };

    fn merged(self, _old: W, from: N) -> W {
        W::narrow(floor_in(from, self.d, self.to))
    }
}

// The floors of value v of each pixel, by a division.
#[inline(never)]
fn divide<W: WholeNumber, N: Numerator>(
    numbers: &[N],
    v: usize,
    d: N,
    to: PixType,
    values: &mut [W],
)
    requires block { (v < 4) × (length numbers.now ≡ 256) × (length values.old ≡ 256) }
    requires whole { is_whole_type to ≡ true }
    requires d { pos 0 <ℤ N.value d }
    requires fits { 2 ^ bits to ≤ 2 ^ W.bits }
    ensures set { (i : ℕ) (x : W) (e : N) → i < 64
        → W.number (slice_index_or values.new (64 * v + i) x)
        ≡ modulo (int_div_euclid (N.value (slice_index_or numbers.now (64 * v + i) e))
        (N.value d)) (2 ^ bits to) }
    ensures kept { (j : ℕ) (x : W) → (j < 64 * v) ⊎ (64 * v + 64 ≤ j)
        → slice_index_or values.new j x ≡ slice_index_or values.old j x }
{
    merge_part::<N, W, Floor<N>, 64>(Floor { d, to }, values, 64 * v, numbers, 64 * v);
}

// The denominator of an extent as a numerator.
fn denominator_of<N: Numerator>(extent: &Extent) -> N
    requires { FitsSigned N.width extent.now.denominator }
    ensures { N.value result ≡ extent.now.denominator }
{
    N::of(extent.denominator)
}

// The floors of value v of each pixel, over the denominator of its extent.
fn narrow_value<W: WholeNumber, N: Numerator>(
    numbers: &[N],
    v: usize,
    to: PixType,
    old: &Extent,
    divisor: &Divisor,
    values: &mut [W],
)
    requires block { (v < 4) × (length numbers.now ≡ 256) × (length values.old ≡ 256) }
    requires whole { is_whole_type to ≡ true }
    requires fits { 2 ^ bits to ≤ 2 ^ W.bits }
    requires divided { IsDivided N.width (bits to) old.now divisor.now }
    requires old { AreIn N.value numbers.now v old.now }
    ensures set { AreFloors W.number N.value (bits to) numbers.now v
        (unsigned_abs old.now.denominator) values.new }
    ensures kept { (j : ℕ) (x : W) → (j < 64 * v) ⊎ (64 * v + 64 ≤ j)
        → slice_index_or values.new j x ≡ slice_index_or values.old j x }
{
    match divisor {
        Divisor::Short { zeros, by } => narrow(numbers, v, *zeros, *by, values),
        Divisor::Long(by) => narrow_long(numbers, v, *by, values),
        Divisor::Plain => divide(numbers, v, denominator_of(old), to, values),
    }
}

/// A Convert of fractions to whole numbers.
pub fn narrow_step<W: WholeNumber, N: Numerator>(
    to: PixType,
    _expand: bool,
    stage: Stage,
    _position: &PixelPosition,
    before: &Form,
    after: &Form,
    values: &mut [W],
    numbers: &[N],
)
    requires whole { is_whole_type to ≡ true }
    requires narrowed { AreNarrowed W.bits N.width stage before.now to after.now }
    requires few { after.now.count ≤ 4 }
    requires block { (length values.old ≡ 256) × (length numbers.now ≡ 256) }
    requires bounded { IsBounded W.number N.value stage before.now values.old numbers.now }
    ensures bounded { IsBounded W.number N.value (stage_after stage
        (Op.Convert to _expand)) after.now values.new numbers.now }
    ensures holds { Performs W.number N.value stage before.now
        (Op.Convert to _expand) after.now _position.now values.old numbers.now values.new
        numbers.now }
{
    for v in 0..after.count {
        narrow_value(
            numbers,
            v,
            to,
            &before.extents[v],
            &after.divisors[v],
            values,
        );
    }
}

/// The form after a Convert of fractions to whole numbers.
pub fn narrow_form(
    to: PixType,
    stage: Stage,
    before: &Form,
    count: usize,
    storage: Storage,
    number_width: NumberWidth,
) -> Option<Form>
    ensures few { IfSome result (λ form. form.count ≤ 4) }
    ensures narrowed { IfSome result (λ form. AreNarrowed (bits_of storage)
        (width_of number_width) stage before.now to form) }
{
    if count > 4 {
        return None;
    }
    if before.count < count {
        return None;
    }
    if !stage.is_rational() {
        return None;
    }
    if to.bits() > storage.bits() {
        return None;
    }
    let extents = before.extents;
    let mut after = Form {
        count: 0,
        extents,
        factors: [[0; 5]; 4],
        divisors: [NO_DIVISOR; 4],
    };
    for v in 0..count {
        let divisor = divisor_of(&before.extents[v], to.bits(), number_width)?;
        after.count += 1;
        after.divisors[v] = divisor;
    }
    Some(after)
}

/// The same by divisions alone, which are right for all numbers.
pub fn plain_form(before: &Form, count: usize) -> Form
    requires few { count ≤ 4 }
    requires there { count ≤ before.now.count }
    requires positive { (v : ℕ) → v < count → pos 0 <ℤ (extent_at before.now v).denominator }
    requires fits { (v : ℕ) → v < count → FitsSigned w128 (extent_at before.now v).denominator }
    ensures count { result.count ≡ count }
    ensures narrowed { (bits v : ℕ) → v < result.count → IsNarrowed w128 bits before.now result v }
{
    Form {
        count,
        extents: before.extents,
        factors: [[0; 5]; 4],
        divisors: [Divisor::Plain; 4],
    }
}

// How the numbers of an extent are divided, where a width of numbers holds the denominator: the
// fastest way that is right for all of them and whose quotients have so many bits.
fn divisor_of(extent: &Extent, bits: u32, number_width: NumberWidth) -> Option<Divisor>
    ensures { IfSome result (λ divisor. IsDivided (width_of number_width) bits extent.now divisor) }
{
    if let Some((zeros, by)) = short_divisor(extent, bits) {
        return Some(Divisor::Short { zeros, by });
    }
    if let Some(by) = long_divisor(extent, bits) {
        return Some(Divisor::Long(by));
    }
    if extent.denominator <= 0 {
        return None;
    }
    if !fits(extent.denominator, number_width) {
        return None;
    }
    Some(Divisor::Plain)
}

// How many of the lowest bits of a denominator are 0, but at most 31 of them.
fn zeros_of(denominator: i128) -> u32
    ensures { result < 32 }
{
    denominator.trailing_zeros().min(31)
}

// The denominator and the greatest number of an extent without so many of their lowest bits, where
// those of the denominator are 0, and 32 bits hold the rest.
fn parts_above(extent: &Extent, zeros: u32) -> Option<(u32, u32)>
    requires zeros { zeros < 32 }
    ensures least { IfSome result (λ parts. pos 0 ≤ℤ extent.now.least) }
    ensures denominator { IfSome result
        (λ parts. 2 ^ zeros * parts.0 ≡ unsigned_abs extent.now.denominator) }
    ensures greatest { IfSome result
        (λ parts. parts.1 ≡ unsigned_abs extent.now.greatest / 2 ^ zeros) }
{
    if extent.least < 0 || extent.greatest < 0 || extent.denominator <= 0 {
        return None;
    }
    let denominator = extent.denominator as u128;
    let greatest = extent.greatest as u128 >> zeros;
    if denominator % (1 << zeros) != 0 {
        return None;
    }
    let denominator = denominator >> zeros;
    if denominator > 4_294_967_295 || greatest > 4_294_967_295 {
        return None;
    }
    Some((denominator as u32, greatest as u32))
}

// A factor of 32 bits for the numbers of an extent, whose quotients have so many bits, once they
// have lost so many of their lowest bits.
fn short_divisor(extent: &Extent, bits: u32) -> Option<(u32, Reciprocal)>
    ensures zeros { IfSome result (λ by. by.0 < 32) }
    ensures shift { IfSome result (λ by. by.1.shift < 64) }
    ensures quotient { IfSome result (λ by. IsEvenQuotient bits extent.now by.0
        by.1.d by.1.bound by.1.factor by.1.shift) }
{
    let zeros = zeros_of(extent.denominator);
    let (denominator, greatest) = parts_above(extent, zeros)?;
    let by = new_reciprocal(denominator, greatest)?;
    if bits > 32 {
        return None;
    }
    if u64::from(by.bound / by.d) >= 1u64 << bits {
        return None;
    }
    Some((zeros, by))
}

// A factor of 64 bits for the numbers of an extent, whose quotients have so many bits.
fn long_divisor(extent: &Extent, bits: u32) -> Option<LongReciprocal>
    ensures shift { IfSome result (λ by. by.shift < 128) }
    ensures quotient { IfSome result
        (λ by. IsQuotient bits extent.now by.d by.bound by.factor by.shift) }
{
    if extent.least < 0 || extent.greatest < 0 || extent.greatest > 18_446_744_073_709_551_615 {
        return None;
    }
    if extent.denominator <= 0 || extent.denominator > 18_446_744_073_709_551_615 {
        return None;
    }
    let by = new_long_reciprocal(extent.denominator as u64, extent.greatest as u64)?;
    if bits > 32 {
        return None;
    }
    if by.bound / by.d >= 1u64 << bits {
        return None;
    }
    Some(by)
}

// A factor for this divisor and bound, or none where 32 bits hold none.
fn new_reciprocal(d: u32, bound: u32) -> Option<Reciprocal>
    ensures reciprocal { IfSome result (λ by. IsReciprocal by.d by.bound by.factor by.shift) }
    ensures shift { IfSome result (λ by. by.shift < 64) }
    ensures d { IfSome result (λ by. by.d ≡ d) }
    ensures bound { IfSome result (λ by. by.bound ≡ bound) }
{
    if d == 0 {
        return None;
    }
    let shift = 62 - d.leading_zeros();
    let power = 1u64 << shift;
    let factor = power / d as u64 + 1;
    if factor > u32::MAX as u64 {
        return None;
    }
    let product = factor * d as u64;
    if product < power {
        return None;
    }
    let over = product - power;
    if over > u32::MAX as u64 || bound as u64 * over >= power {
        return None;
    }
    Some(Reciprocal {
        d,
        bound,
        factor: factor as u32,
        shift,
    })
}

// The same of 64 bits.
fn new_long_reciprocal(d: u64, bound: u64) -> Option<LongReciprocal>
    ensures reciprocal { IfSome result (λ by. IsReciprocal by.d by.bound by.factor by.shift) }
    ensures shift { IfSome result (λ by. by.shift < 128) }
    ensures d { IfSome result (λ by. by.d ≡ d) }
    ensures bound { IfSome result (λ by. by.bound ≡ bound) }
{
    if d == 0 {
        return None;
    }
    let shift = 126 - d.leading_zeros();
    let power = 1u128 << shift;
    let factor = (power / d as u128).checked_add(1)?;
    if factor > u64::MAX as u128 {
        return None;
    }
    let product = factor * d as u128;
    if product < power {
        return None;
    }
    let over = product - power;
    if over > u64::MAX as u128 || bound as u128 * over >= power {
        return None;
    }
    Some(LongReciprocal {
        d,
        bound,
        factor: factor as u64,
        shift,
    })
}
