// The widths on the way through a list, as long as their numbers are small.
ghost use Rattle.std.specs.Prelude.{◌≡◌, ◌<◌, true, None, IfSome};
ghost use Rattle.op_list.specs.Typing.{are_good};
ghost use Rattle.op_range.specs.Width.{width_after};
ghost use Rattle.kernel_joint.specs.Joint.{AreSame, IsSmall, room};

use kernel_step::NumberWidth;
use op_list::{Op, Stage};
use op_range::{Width, width_after};

// Below what the numbers of a width are.
fn room_of(number_width: NumberWidth) -> u128
    ensures { result ≡ room number_width }
{
    match number_width {
        NumberWidth::Bits32 => 1 << 30,
        NumberWidth::Bits64 => 1 << 62,
        NumberWidth::Bits128 => 1 << 126,
    }
}

// Whether all numbers of a width are.
fn is_small(width: &Width, number_width: NumberWidth) -> bool
    requires { 0 < width.now.denominator }
    ensures small { result ≡ true → IsSmall number_width width.now }
    ensures large { IsSmall number_width width.now → result ≡ true }
{
    let room = room_of(number_width);
    width.denominator < room
        && width.sizes[0] < room
        && width.sizes[1] < room
        && width.sizes[2] < room
        && width.sizes[3] < room
}

/// The width after an operation, where its numbers are small.
pub fn next_width(op: &Op, stage: Stage, width: &Width, number_width: NumberWidth) -> Option<Width>
    requires good { are_good stage op.now ≡ true }
    requires positive { 0 < width.now.denominator }
    ensures same { IfSome result (λ next. AreSame next (width_after stage op.now width.now)) }
    ensures small { IfSome result (λ next. IsSmall number_width next) }
    ensures none { IsSmall number_width (width_after stage op.now width.now) → result ≡ None → ⊥ }
{
    let after = width_after(op, stage, width)?;
    if !is_small(&after, number_width) {
        return None;
    }
    Some(after)
}
