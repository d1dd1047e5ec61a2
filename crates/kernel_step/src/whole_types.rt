// Whole numbers in another whole type.
ghost use Rattle.std.specs.Prelude.{◌≡◌, ℕ, ◌*◌, ◌/◌, ◌%◌, ◌^◌, ◌<◌, ◌≤◌, ◌⊎◌, true, length};
ghost use Rattle.std.specs.Prelude.{if◌then◌else◌};
ghost use Rattle.op_list.specs.Types.{bits_at, bits, is_whole, is_whole_type};
ghost use Rattle.op_list.specs.Typing.{stage_after};
ghost use Rattle.op_list.specs.Whole.{reversed_bytes};
ghost use Rattle.kernel_step.specs.Forms.{IsBounded, Performs};

use crate::form::Form;
use crate::numerator::Numerator;
use kernel_lane::{Change, change_front};
use kernel_planes::WholeNumber;
use op_list::{Op, PixType, PixelPosition, Stage, product_modulo};

// A number times a factor, modulo 2^bits.
#[derive(Clone, Copy)]
struct Multiplied {
    factor: u32,
    bits: u32,
}

impl<W: WholeNumber> Change<W> for Multiplied {
    ghost takes = { λ r x. (r.bits ≤ 32) × (W.number x * r.factor % 2 ^ r.bits < 2 ^ W.bits) };

    ghost makes = { λ r x y. W.number y ≡ W.number x * r.factor % 2 ^ r.bits };

    fn changed(self, x: W) -> W {
        W::narrow(product_modulo(x.wide(), self.factor, self.bits))
    }
}

// What a number is multiplied by.
fn factor_of(expand: bool) -> u32
    ensures { result ≡ (if expand then 257 else 1) }
{
    if expand { 257 } else { 1 }
}

/// A Convert of whole numbers to a whole type.
pub fn retype_step<W: WholeNumber, N: Numerator>(
    to: PixType,
    expand: bool,
    stage: Stage,
    _position: &PixelPosition,
    before: &Form,
    after: &Form,
    values: &mut [W],
    _numbers: &[N],
)
    requires whole { is_whole_type to ≡ true }
    requires before { is_whole stage ≡ true }
    requires there { after.now.count ≤ before.now.count }
    requires stored { 2 ^ bits_at (stage_after stage (Op.Convert to expand)) ≤ 2 ^ W.bits }
    requires few { after.now.count ≤ 4 }
    requires block { length values.old ≡ 256 }
    requires bounded { IsBounded W.number N.value stage before.now values.old _numbers.now }
    ensures bounded { IsBounded W.number N.value
        (stage_after stage (Op.Convert to expand)) after.now values.new _numbers.now }
    ensures holds { Performs W.number N.value stage before.now
        (Op.Convert to expand) after.now _position.now values.old _numbers.now values.new
        _numbers.now }
{
    let rule = Multiplied {
        factor: factor_of(expand),
        bits: to.bits(),
    };
    change_front::<W, Multiplied>(rule, values, 64 * after.count);
}
