// The form after a Clear, over the joint denominator.
ghost use Rattle.std.specs.Prelude.{◌≡◌, ℕ, ◌<◌, true, IfSome, unsigned_abs};
ghost use Rattle.op_list.specs.Values.{entry};
ghost use Rattle.kernel_step.specs.Forms.{IsCleared, IsConstant, extent_at, factor, factors_at};
ghost use Rattle.kernel_step.specs.Forms.{width_of};
ghost use Rattle.kernel_joint.specs.Joint.{room};

use crate::joint_form::form_of;
use frac_math::Frac;
use kernel_step::{Extent, Form, Made, NumberWidth};

/// Four values, of which those with an entry are that entry alone.
pub fn joint_clear_form(
    entries: &[Option<Frac>; 4],
    before: &Form,
    number_width: NumberWidth,
) -> Form
    requires count { before.now.count ≡ 4 }
    requires small { (v : ℕ) → v < 4 → IfSome (entry entries.now v)
        (λ x. unsigned_abs x.numerator < room number_width) }
    ensures count { result.count ≡ 4 }
    ensures cleared { (v : ℕ) → v < 4 → IsCleared (width_of number_width) true before.now v
        (entry entries.now v) (factor (factors_at result v) 0) (extent_at result v) }
{
    let first = joint_cleared(&entries[0], before, 0, number_width);
    let second = joint_cleared(&entries[1], before, 1, number_width);
    let third = joint_cleared(&entries[2], before, 2, number_width);
    let fourth = joint_cleared(&entries[3], before, 3, number_width);
    form_of(first, second, third, fourth)
}

// What value v is cleared to: the entry alone, or what it was.
fn joint_cleared(entry: &Option<Frac>, before: &Form, v: usize, number_width: NumberWidth) -> Made
    requires there { (v < 4) × (before.now.count ≡ 4) }
    requires small { IfSome entry.now (λ x. unsigned_abs x.numerator < room number_width) }
    ensures { IsCleared (width_of number_width) true before.now v entry.now
        (factor result.factors 0) result.extent }
{
    match entry {
        None => Made {
            factors: [0; 5],
            extent: before.extents[v],
        },
        Some(x) => given(x, number_width),
    }
}

#[tactic(auto, using(crate::proofs::Rooms::small_fits))]
fn given(x: &Frac, _number_width: NumberWidth) -> Made
    requires { unsigned_abs x.now.numerator < room _number_width }
    ensures { IsConstant (width_of _number_width) x.now (factor result.factors 0) result.extent }
{
    let numerator = x.num();
    Made {
        factors: [numerator, 0, 0, 0, 0],
        extent: Extent {
            denominator: x.den(),
            least: numerator,
            greatest: numerator,
        },
    }
}
