// Whole numbers become fractions.
ghost use Rattle.std.specs.Prelude.{◌≡◌, ℕ, ◌+◌, ◌*◌, ◌^◌, ◌<◌, ◌≤◌, pos, length, slice_index_or};
ghost use Rattle.std.specs.Prelude.{slice_index};
ghost use Rattle.std.specs.Prelude.{IfSome, FitsSigned};
ghost use Rattle.op_list.specs.declared.types.PixType.TheVariants.{Rat};
ghost use Rattle.op_list.specs.Typing.{stage_after};
ghost use Rattle.kernel_step.specs.Forms.{AreHeld, AreReady, AreWidened, IsBounded, IsWidened};
ghost use Rattle.kernel_step.specs.Forms.{Performs, extent_at, width_of};

use crate::form::{Extent, Form, NO_DIVISOR, NumberWidth};
use crate::interval::fits;
use crate::numerator::Numerator;
use kernel_lane::{Merge, merge_front};
use kernel_planes::WholeNumber;
use op_list::{Op, PixelPosition, Stage};

// A whole number as a numerator.
#[derive(Clone, Copy)]
struct AsNumerator;

impl<W: WholeNumber, N: Numerator> Merge<W, N> for AsNumerator {
    ghost takes = { λ _ _ x. FitsSigned N.width (pos (W.number x)) };

    ghost makes = { λ _ _ x y. N.value y ≡ pos (W.number x) };

    fn merged(self, _old: N, from: W) -> N {
        N::of(i128::from(from.wide()))
    }
}

// The first n whole numbers as numerators.
#[inline(never)]
fn widen<W: WholeNumber, N: Numerator>(values: &[W], n: usize, numbers: &mut [N])
    requires block { (n ≤ 256) × (length values.now ≡ 256) × (length numbers.old ≡ 256) }
    requires fit { (j : ℕ) (d : W) → j < n
        → FitsSigned N.width (pos (W.number (slice_index_or values.now j d))) }
    ensures { (j : ℕ) (d : W) (e : N) → j < n
        → N.value (slice_index_or numbers.new j e)
        ≡ pos (W.number (slice_index_or values.now j d)) }
{
    merge_front::<W, N, AsNumerator>(AsNumerator, numbers, values, n);
}

/// A Convert of whole numbers to fractions.
pub fn widen_step<W: WholeNumber, N: Numerator>(
    expand: bool,
    stage: Stage,
    _position: &PixelPosition,
    before: &Form,
    after: &Form,
    values: &[W],
    numbers: &mut [N],
)
    requires widened { AreWidened stage before.now after.now }
    requires ready { AreReady W.number N.width stage
        (Op.Convert Rat expand) after.now values.now }
    requires few { after.now.count ≤ 4 }
    requires block { (length values.now ≡ 256) × (length numbers.old ≡ 256) }
    requires bounded { IsBounded W.number N.value stage before.now values.now numbers.old }
    ensures bounded { IsBounded W.number N.value
        (stage_after stage (Op.Convert Rat expand)) after.now values.now numbers.new }
    ensures holds { Performs W.number N.value stage before.now
        (Op.Convert Rat expand) after.now _position.now values.now numbers.old values.now
        numbers.new }
{
    widen(values, 64 * after.count, numbers);
}

/// The form after a Convert of whole numbers to fractions.
pub fn widen_form(
    _expand: bool,
    stage: Stage,
    limits: &[u64; 4],
    before: &Form,
    count: usize,
    number_width: NumberWidth,
) -> Option<Form>
    ensures few { IfSome result (λ form. form.count ≤ 4) }
    ensures widened { IfSome result (λ form. AreWidened stage before.now form) }
    ensures held { IfSome result (λ form. AreHeld (width_of number_width)
        (slice_index limits.now) stage (Op.Convert Rat _expand) form) }
{
    if count > 4 {
        return None;
    }
    if before.count < count {
        return None;
    }
    if !stage.is_whole() {
        return None;
    }
    let [first, second, third, fourth] = *limits;
    let first = widened(first, number_width)?;
    let second = widened(second, number_width)?;
    let third = widened(third, number_width)?;
    let fourth = widened(fourth, number_width)?;
    Some(form_of(count, first, second, third, fourth))
}

// The form of the first values with these extents.
fn form_of(count: usize, first: Extent, second: Extent, third: Extent, fourth: Extent) -> Form
    ensures count { result.count ≡ count }
    ensures first { extent_at result 0 ≡ first }
    ensures second { extent_at result 1 ≡ second }
    ensures third { extent_at result 2 ≡ third }
    ensures fourth { extent_at result 3 ≡ fourth }
{
    Form {
        count,
        extents: [first, second, third, fourth],
        factors: [[0; 5]; 4],
        divisors: [NO_DIVISOR; 4],
    }
}

// The whole numbers below a limit, over 1.
fn widened(limit: u64, number_width: NumberWidth) -> Option<Extent>
    ensures { IfSome result (λ extent. IsWidened (width_of number_width) limit extent) }
{
    let greatest = i128::from(limit) - 1;
    if !fits(greatest, number_width) {
        return None;
    }
    Some(Extent {
        denominator: 1,
        least: 0,
        greatest,
    })
}
