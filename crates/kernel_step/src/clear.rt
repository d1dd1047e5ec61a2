// Values that are replaced by given ones.
ghost use Rattle.std.specs.Prelude.{◌≡◌, ℕ, ◌+◌, ◌*◌, ◌^◌, ◌<◌, ◌≤◌, ◌⊎◌, true, false, pos, length};
ghost use Rattle.std.specs.Prelude.{slice_index_or, unsigned_abs, IfSome, IsTrue, Option, Some};
ghost use Rattle.std.specs.Prelude.{None, FitsSigned};
ghost use Rattle.std.specs.Int.{w128};
ghost use Rattle.op_list.specs.Types.{bits_at, is_rational};
ghost use Rattle.op_list.specs.Typing.{may_follow, are_good, stage_after};
ghost use Rattle.op_list.specs.Values.{entry};
ghost use Rattle.op_list.specs.Apply.{cleared_number};
ghost use Rattle.kernel_step.specs.Forms.{IsBounded, IsStep, Performs, IsCleared, IsConstant};
ghost use Rattle.kernel_step.specs.Forms.{cleared_numerator, extent_at, factor, factors_at};
ghost use Rattle.kernel_step.specs.Forms.{width_of};

use crate::form::{Extent, Form, NO_DIVISOR, NumberWidth};
use crate::interval::fits;
use crate::numerator::Numerator;
use crate::single::{single_of, with_single};
use frac_math::Frac;
use kernel_planes::{WholeNumber, fill};
use op_list::{Op, PixelPosition, Stage};

/// A Clear of the values of a block.
pub fn clear_step<W: WholeNumber, N: Numerator>(
    entries: &[Option<Frac>; 4],
    stage: Stage,
    position: &PixelPosition,
    before: &Form,
    after: &Form,
    values: &mut [W],
    numbers: &mut [N],
)
    requires follows { may_follow stage (Op.Clear entries.now) ≡ true }
    requires good { are_good stage (Op.Clear entries.now) ≡ true }
    requires step { IsStep W.bits N.width stage before.now (Op.Clear entries.now) after.now }
    requires stored { 2 ^ bits_at (stage_after stage (Op.Clear entries.now)) ≤ 2 ^ W.bits }
    requires few { after.now.count ≤ 4 }
    requires block { (length values.old ≡ 256) × (length numbers.old ≡ 256) }
    requires bounded { IsBounded W.number N.value stage before.now values.old numbers.old }
    ensures bounded { IsBounded W.number N.value
        (stage_after stage (Op.Clear entries.now)) after.now values.new numbers.new }
    ensures holds { Performs W.number N.value stage before.now
        (Op.Clear entries.now) after.now position.now values.old numbers.old values.new
        numbers.new }
{
    if stage.is_rational() {
        clear_fractions(entries, stage, position, before, after, values, numbers)
    } else {
        clear_numbers(entries, stage, position, before, after, values, numbers)
    }
}

// The same of whole numbers.
fn clear_numbers<W: WholeNumber, N: Numerator>(
    entries: &[Option<Frac>; 4],
    stage: Stage,
    _position: &PixelPosition,
    before: &Form,
    after: &Form,
    values: &mut [W],
    _numbers: &[N],
)
    requires kind { is_rational stage ≡ false }
    requires good { are_good stage (Op.Clear entries.now) ≡ true }
    requires step { IsStep W.bits N.width stage before.now (Op.Clear entries.now) after.now }
    requires stored { 2 ^ bits_at stage ≤ 2 ^ W.bits }
    requires few { after.now.count ≤ 4 }
    requires block { length values.old ≡ 256 }
    requires bounded { IsBounded W.number N.value stage before.now values.old _numbers.now }
    ensures bounded { IsBounded W.number N.value
        (stage_after stage (Op.Clear entries.now)) after.now values.new _numbers.now }
    ensures holds { Performs W.number N.value stage before.now
        (Op.Clear entries.now) after.now _position.now values.old _numbers.now values.new
        _numbers.now }
{
    for v in 0..after.count {
        clear_number(&entries[v], v, values);
    }
}

// Value v of each pixel: the entry, where it is given.
fn clear_number<W: WholeNumber>(entry: &Option<Frac>, v: usize, values: &mut [W])
    requires block { (v < 4) × (length values.old ≡ 256) }
    requires fits { IfSome entry.now (λ x. (unsigned_abs x.numerator < 2 ^ 32)
        × (unsigned_abs x.numerator < 2 ^ W.bits)) }
    ensures set { (i : ℕ) (d : W) → i < 64
        → W.number (slice_index_or values.new (64 * v + i) d)
        ≡ cleared_number entry.now (W.number (slice_index_or values.old (64 * v + i) d)) }
    ensures kept { (j : ℕ) (d : W) → (j < 64 * v) ⊎ (64 * v + 64 ≤ j)
        → slice_index_or values.new j d ≡ slice_index_or values.old j d }
{
    if let Some(x) = entry {
        fill(values, v, W::narrow(x.num().unsigned_abs() as u32));
    }
}

// The same of fractions.
fn clear_fractions<W: WholeNumber, N: Numerator>(
    entries: &[Option<Frac>; 4],
    stage: Stage,
    _position: &PixelPosition,
    before: &Form,
    after: &Form,
    _values: &[W],
    numbers: &mut [N],
)
    requires kind { is_rational stage ≡ true }
    requires step { IsStep W.bits N.width stage before.now (Op.Clear entries.now) after.now }
    requires few { after.now.count ≤ 4 }
    requires block { length numbers.old ≡ 256 }
    requires bounded { IsBounded W.number N.value stage before.now _values.now numbers.old }
    ensures bounded { IsBounded W.number N.value
        (stage_after stage (Op.Clear entries.now)) after.now _values.now numbers.new }
    ensures holds { Performs W.number N.value stage before.now
        (Op.Clear entries.now) after.now _position.now _values.now numbers.old _values.now
        numbers.new }
{
    for v in 0..after.count {
        clear_fraction(&entries[v], after, v, numbers);
    }
}

// The numerator of value v of each pixel: that of the entry, where it is given.
fn clear_fraction<N: Numerator>(entry: &Option<Frac>, form: &Form, v: usize, numbers: &mut [N])
    requires block { (v < 4) × (length numbers.old ≡ 256) }
    requires fits { IfSome entry.now (λ x. FitsSigned N.width (factor (factors_at form.now v) 0)) }
    ensures set { (i : ℕ) (d : N) → i < 64
        → N.value (slice_index_or numbers.new (64 * v + i) d)
        ≡ cleared_numerator entry.now (factor (factors_at form.now v) 0)
        (N.value (slice_index_or numbers.old (64 * v + i) d)) }
    ensures kept { (j : ℕ) (d : N) → (j < 64 * v) ⊎ (64 * v + 64 ≤ j)
        → slice_index_or numbers.new j d ≡ slice_index_or numbers.old j d }
{
    if let Some(_) = entry {
        fill(numbers, v, single_of(form, v));
    }
}

/// The form after a Clear.
pub fn clear_form(
    entries: &[Option<Frac>; 4],
    stage: Stage,
    before: &Form,
    count: usize,
    number_width: NumberWidth,
) -> Option<Form>
    ensures few { IfSome result (λ form. form.count ≤ 4) }
    ensures step { IfSome result (λ form. (v : ℕ) → v < form.count
        → IsCleared (width_of number_width) (is_rational stage) before.now v (entry entries.now v)
        (factor (factors_at form v) 0) (extent_at form v)) }
{
    if count > 4 {
        return None;
    }
    let extents = before.extents;
    let mut after = Form {
        count: 0,
        extents,
        factors: [[0; 5]; 4],
        divisors: [NO_DIVISOR; 4],
    };
    for v in 0..count {
        let value = cleared_value(&entries[v], stage.is_rational(), before, v, number_width)?;
        let factors = with_single(value.numerator);
        after.count += 1;
        after.factors[v] = factors;
        after.extents[v] = value.extent;
    }
    Some(after)
}

// The numerator that a value is given, and its extent.
#[derive(Clone, Copy, Debug)]
struct Cleared {
    numerator: i128,
    extent: Extent,
}

// What value v is cleared to, where its type is that of fractions or not.
fn cleared_value(
    entry: &Option<Frac>,
    rational: bool,
    before: &Form,
    v: usize,
    number_width: NumberWidth,
) -> Option<Cleared>
    requires { v < 4 }
    ensures cleared { IfSome result (λ cleared. IsCleared
        (width_of number_width) rational before.now v entry.now cleared.numerator cleared.extent) }
    ensures fits { IfSome result (λ cleared. FitsSigned w128 cleared.numerator) }
{
    match entry {
        None => kept_value(before, v),
        Some(x) => given_value(x, rational, number_width),
    }
}

fn kept_value(before: &Form, v: usize) -> Option<Cleared>
    requires { v < 4 }
    ensures there { IfSome result (λ cleared. v < before.now.count) }
    ensures same { IfSome result (λ cleared. cleared.extent ≡ extent_at before.now v) }
    ensures fits { IfSome result (λ cleared. FitsSigned w128 cleared.numerator) }
{
    if before.count <= v {
        return None;
    }
    Some(Cleared {
        numerator: 0,
        extent: before.extents[v],
    })
}

fn given_value(x: &Frac, rational: bool, number_width: NumberWidth) -> Option<Cleared>
    ensures constant { IfSome result (λ cleared. IsTrue rational
        → IsConstant (width_of number_width) x.now cleared.numerator cleared.extent) }
    ensures fits { IfSome result (λ cleared. FitsSigned w128 cleared.numerator) }
{
    let numerator = x.num();
    if rational && !fits(numerator, number_width) {
        return None;
    }
    Some(Cleared {
        numerator,
        extent: Extent {
            denominator: x.den(),
            least: numerator,
            greatest: numerator,
        },
    })
}
