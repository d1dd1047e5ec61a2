// Whole numbers as the fields of one number.
ghost use Rattle.std.specs.Prelude.{◌≡◌, ℕ, ◌+◌, ◌*◌, ◌^◌, ◌<◌, ◌≤◌, ◌⊎◌, true, length, sum};
ghost use Rattle.std.specs.Prelude.{slice_index, slice_index_or, IfSome};
ghost use Rattle.op_list.specs.Types.{bits_at};
ghost use Rattle.op_list.specs.Typing.{may_follow, are_good, stage_after};
ghost use Rattle.op_list.specs.Whole.{bits_below, placed};
ghost use Rattle.kernel_step.specs.Forms.{IsBounded, IsStep, Performs};

use crate::fields::{FieldPlace, bits_below};
use crate::form::{Form, whole_form};
use crate::numerator::Numerator;
use kernel_lane::{change_part, merge_within};
use kernel_planes::{WholeNumber, fill};
use op_list::{Op, PixelPosition, Stage};

// Value 0 of each pixel becomes its own field of the number.
fn place_first<W: WholeNumber>(widths: &[u8; 4], values: &mut [W])
    requires block { length values.old ≡ 256 }
    requires room { bits_below widths.now 0 + slice_index widths.now 0 ≤ W.bits }
    ensures set { (i : ℕ) (d : W) → i < 64 → W.number (slice_index_or values.new i d)
        ≡ placed widths.now (W.number (slice_index_or values.old i d)) 0 }
    ensures kept { (j : ℕ) (d : W) → 64 ≤ j
        → slice_index_or values.new j d ≡ slice_index_or values.old j d }
{
    if widths[0] == 0 {
        fill(values, 0, W::narrow(0));
        return;
    }
    let place = FieldPlace {
        below: bits_below(widths, 0),
        width: widths[0],
    };
    change_part::<W, FieldPlace, 64>(place, values, 0);
}

// The field of value v of each pixel, added to value 0.
#[inline(never)]
fn add_field<W: WholeNumber>(widths: &[u8; 4], v: usize, values: &mut [W])
    requires block { (0 < v) × (v < 4) × (length values.old ≡ 256) }
    requires room { bits_below widths.now v + slice_index widths.now v ≤ W.bits }
    requires fits { (i : ℕ) (d : W) → i < 64 → W.number (slice_index_or values.old i d)
        + placed widths.now (W.number (slice_index_or values.old (64 * v + i) d)) v < 2 ^ W.bits }
    ensures set { (i : ℕ) (d : W) → i < 64 → W.number (slice_index_or values.new i d)
        ≡ W.number (slice_index_or values.old i d)
        + placed widths.now (W.number (slice_index_or values.old (64 * v + i) d)) v }
    ensures kept { (j : ℕ) (d : W) → 64 ≤ j
        → slice_index_or values.new j d ≡ slice_index_or values.old j d }
{
    if widths[v] == 0 {
        return;
    }
    let place = FieldPlace {
        below: bits_below(widths, v),
        width: widths[v],
    };
    merge_within::<W, FieldPlace, 64>(place, values, 0, 64 * v);
}

// The values of each pixel as the fields of its value 0.
fn pack_fields<W: WholeNumber>(widths: &[u8; 4], values: &mut [W])
    requires block { length values.old ≡ 256 }
    requires fits { 2 ^ sum widths.now ≤ 2 ^ W.bits }
    ensures set { (i : ℕ) (d : W) → i < 64 → W.number (slice_index_or values.new i d)
        ≡ placed widths.now (W.number (slice_index_or values.old i d)) 0
        + placed widths.now (W.number (slice_index_or values.old (64 + i) d)) 1
        + placed widths.now (W.number (slice_index_or values.old (128 + i) d)) 2
        + placed widths.now (W.number (slice_index_or values.old (192 + i) d)) 3 }
    ensures kept { (j : ℕ) (d : W) → 64 ≤ j
        → slice_index_or values.new j d ≡ slice_index_or values.old j d }
{
    place_first(widths, values);
    add_field(widths, 1, values);
    add_field(widths, 2, values);
    add_field(widths, 3, values);
}

/// A Pack of the values of a block.
pub fn pack_step<W: WholeNumber, N: Numerator>(
    widths: &[u8; 4],
    stage: Stage,
    _position: &PixelPosition,
    before: &Form,
    after: &Form,
    values: &mut [W],
    _numbers: &[N],
)
    requires follows { may_follow stage (Op.Pack widths.now) ≡ true }
    requires good { are_good stage (Op.Pack widths.now) ≡ true }
    requires step { IsStep W.bits N.width stage before.now (Op.Pack widths.now) after.now }
    requires stored { 2 ^ bits_at (stage_after stage (Op.Pack widths.now)) ≤ 2 ^ W.bits }
    requires few { after.now.count ≤ 4 }
    requires block { length values.old ≡ 256 }
    requires bounded { IsBounded W.number N.value stage before.now values.old _numbers.now }
    ensures bounded { IsBounded W.number N.value
        (stage_after stage (Op.Pack widths.now)) after.now values.new _numbers.now }
    ensures holds { Performs W.number N.value stage before.now
        (Op.Pack widths.now) after.now _position.now values.old _numbers.now values.new
        _numbers.now }
{
    pack_fields(widths, values);
    for v in 1..after.count {
        fill(values, v, W::narrow(0));
    }
}

/// The form after a Pack.
pub fn pack_form(widths: &[u8; 4], before: &Form, count: usize) -> Option<Form>
    ensures few { IfSome result (λ form. form.count ≤ 4) }
    ensures fields { IfSome result (λ form. (j : ℕ) → j < 4
        → (j < before.now.count) ⊎ (slice_index widths.now j ≡ 0)) }
{
    if count > 4 {
        return None;
    }
    for j in 0..4 {
        if before.count <= j && widths[j] != 0 {
            return None;
        }
    }
    Some(whole_form(count))
}
