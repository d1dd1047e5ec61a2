// A chain of operations on a block, in one loop for each value.
ghost use Rattle.std.specs.Prelude.{◌≡◌, ℕ, ℤ, ◌+◌, ◌-◌, ◌*◌, ◌<◌, ◌≤◌, ◌⊎◌, false, length, List};
ghost use Rattle.std.specs.Prelude.{slice_index_or, FitsSigned, IfSome};
ghost use Rattle.op_list.specs.declared.types.PixType.TheVariants.{Rat};
ghost use Rattle.op_list.specs.declared.types.Stage.TheVariants.{Typed};
ghost use Rattle.kernel_step.specs.Forms.{AreReady, IsBounded, IsKernel, IsState, form_at, op_at};
ghost use Rattle.kernel_step.specs.Forms.{stage_before, values_before};
ghost use Rattle.kernel_affine.specs.Affine.{AreFitting, AreWide, bound_above, bound_below};
ghost use Rattle.kernel_affine.specs.Affine.{whole_lane};
ghost use Rattle.kernel_affine.specs.Chain.{IsPlaced, IsReadyChain, chain_number, from_least};
ghost use Rattle.kernel_affine.specs.Chain.{greatest_at, greatest_of, least_at, least_of};
ghost use Rattle.kernel_affine.specs.Chain.{products_at, to_greatest, unit_at};
ghost use Rattle.kernel_affine.specs.declared.products.Products.TheVariants.{Three};

use crate::chain::{Chain, Placed, row_at};
use crate::products::Products;
use crate::wide::{affine_wide, widen};
use kernel_planes::WholeNumber;
use kernel_step::{Form, Numerator};
use op_list::{Op, PixelPosition};

// What a Dither adds to value v.
fn unit_of(forms: &[Form], half: Option<usize>, v: usize) -> i128
    requires inside { IfSome half (λ h. h < length forms.now) }
    requires few { v < 4 }
    ensures { result ≡ unit_at forms.now half v }
{
    match half {
        Some(h) => forms[h].factors[v][1],
        None => 0,
    }
}

// The least number of value v after an operation, where that is a Max with a limit for it.
#[tactic(auto, unfolding(crate::specs::Affine::bound_below))]
fn least_bound<N: Numerator>(op: &Op, form: &Form, v: usize) -> Option<N>
    requires few { v < 4 }
    requires fits { IfSome (least_of op.now form.now v) (λ least. FitsSigned N.width least) }
    ensures { (x : ℤ) → bound_below N.value result x ≡ from_least (least_of op.now form.now v) x }
{
    match op {
        Op::Max { limits } => match limits[v] {
            Some(_) => Some(N::of(form.extents[v].least)),
            None => None,
        },
        _ => None,
    }
}

// The greatest one, where that is a Min with a limit for it.
#[tactic(auto, unfolding(crate::specs::Affine::bound_above))]
fn greatest_bound<N: Numerator>(op: &Op, form: &Form, v: usize) -> Option<N>
    requires few { v < 4 }
    requires fits { IfSome (greatest_of op.now form.now v)
        (λ greatest. FitsSigned N.width greatest) }
    ensures { (x : ℤ) → bound_above N.value result x
        ≡ to_greatest (greatest_of op.now form.now v) x }
{
    match op {
        Op::Min { limits } => match limits[v] {
            Some(_) => Some(N::of(form.extents[v].greatest)),
            None => None,
        },
        _ => None,
    }
}

// The least number of value v after a Max, where one stands.
#[tactic(auto, unfolding(crate::specs::Affine::bound_below))]
fn low_of<N: Numerator>(ops: &[Op], forms: &[Form], max: Option<usize>, v: usize) -> Option<N>
    requires sizes { length forms.now ≡ length ops.now }
    requires inside { IfSome max (λ m. m < length ops.now) }
    requires few { v < 4 }
    requires fits { IfSome (least_at ops.now forms.now max v) (λ least. FitsSigned N.width least) }
    ensures { (x : ℤ) → bound_below N.value result x
        ≡ from_least (least_at ops.now forms.now max v) x }
{
    match max {
        Some(m) => least_bound(&ops[m], &forms[m], v),
        None => None,
    }
}

// The greatest number of value v after a Min, where one stands.
#[tactic(auto, unfolding(crate::specs::Affine::bound_above))]
fn high_of<N: Numerator>(ops: &[Op], forms: &[Form], min: Option<usize>, v: usize) -> Option<N>
    requires sizes { length forms.now ≡ length ops.now }
    requires inside { IfSome min (λ m. m < length ops.now) }
    requires few { v < 4 }
    requires fits { IfSome (greatest_at ops.now forms.now min v)
        (λ greatest. FitsSigned N.width greatest) }
    ensures { (x : ℤ) → bound_above N.value result x
        ≡ to_greatest (greatest_at ops.now forms.now min v) x }
{
    match min {
        Some(m) => greatest_bound(&ops[m], &forms[m], v),
        None => None,
    }
}

// All that a chain makes of value v.
fn chain_value<W: WholeNumber, N: Numerator>(
    ops: &[Op],
    forms: &[Form],
    k: usize,
    chain: &Chain,
    values: &[W],
    wide: &[N],
    numbers: &mut [N],
    v: usize,
)
    requires ready { IsReadyChain W.number W.bits N.width ops.now forms.now k chain.now values.now }
    requires there { v < (form_at forms.now (chain.now.next - 1)).count }
    requires block { (length values.now ≡ 256) × (length wide.now ≡ 256)
        × (length numbers.old ≡ 256) }
    requires wide { products_at chain.now.products v ≡ Three
        → AreWide W.bits W.number N.value values.now wide.now (form_at forms.now k).count }
    ensures set { (i : ℕ) (d : W) (e : N) → i < 64
        → N.value (slice_index_or numbers.new (64 * v + i) e)
        ≡ chain_number ops.now forms.now chain.now (whole_lane W.number values.now i d) v }
    ensures kept { (j : ℕ) (e : N) → (j < 64 * v) ⊎ (64 * v + 64 ≤ j)
        → slice_index_or numbers.new j e ≡ slice_index_or numbers.old j e }
{
    let row = row_at(ops, forms, chain.map, v);
    let unit = unit_of(forms, chain.half, v);
    let low = low_of(ops, forms, chain.max, v);
    let high = high_of(ops, forms, chain.min, v);
    affine_wide(
        values,
        wide,
        forms[k].count,
        chain.products[v],
        &row,
        unit,
        low,
        high,
        numbers,
        v,
    );
}

// Whether a row of one of the first values has three products.
fn has_three(products: &[Products; 4], count: usize) -> bool
    requires { count ≤ 4 }
    ensures { result ≡ false → (v : ℕ) → v < count → products_at products.now v ≡ Three → ⊥ }
{
    for v in 0..count {
        match products[v] {
            Products::Three => return true,
            Products::One(_) => {}
        }
    }
    false
}

// The whole numbers of a block as numerators, where a row needs them so.
fn widen_for<W: WholeNumber, N: Numerator>(
    products: &[Products; 4],
    rows: usize,
    values: &[W],
    count: usize,
    wide: &mut [N],
)
    requires few { (rows ≤ 4) × (count ≤ 4) }
    requires block { (length values.now ≡ 256) × (length wide.old ≡ 256) }
    requires fitting { AreFitting N.width W.number values.now count }
    ensures { (v : ℕ) → v < rows → products_at products.now v ≡ Three
        → AreWide W.bits W.number N.value values.now wide.new count }
{
    if has_three(products, rows) {
        widen(values, count, wide);
    }
}

// All that a chain makes of a block.
fn chain_values<W: WholeNumber, N: Numerator>(
    ops: &[Op],
    forms: &[Form],
    k: usize,
    chain: &Chain,
    values: &[W],
    wide: &mut [N],
    numbers: &mut [N],
)
    requires ready { IsReadyChain W.number W.bits N.width ops.now forms.now k chain.now values.now }
    requires block { (length values.now ≡ 256) × (length wide.old ≡ 256)
        × (length numbers.old ≡ 256) }
    ensures { (v i : ℕ) (d : W) (e : N) → v < (form_at forms.now (chain.now.next - 1)).count
        → i < 64 → N.value (slice_index_or numbers.new (64 * v + i) e)
        ≡ chain_number ops.now forms.now chain.now (whole_lane W.number values.now i d) v }
{
    let rows = forms[chain.next - 1].count;
    widen_for(&chain.products, rows, values, forms[k].count, wide);
    for v in 0..rows {
        chain_value(ops, forms, k, chain, values, wide, numbers, v);
    }
}

/// Works out the numerators that the operations of a chain would give one after the other, in one
/// loop for each value.
pub fn chain_steps<W: WholeNumber, N: Numerator>(
    ops: &[Op],
    forms: &[Form],
    placed: &Placed,
    _position: &PixelPosition,
    values: &[W],
    wide: &mut [N],
    numbers: &mut [N],
)
    requires kernel { IsKernel ops.now forms.now W.bits N.width }
    requires there { IsPlaced ops.now forms.now placed.now }
    requires ready { AreReady W.number N.width (stage_before ops.now placed.now.at)
        (op_at ops.now placed.now.at) (form_at forms.now placed.now.at) values.now }
    requires block { (length values.now ≡ 256) × (length wide.old ≡ 256)
        × (length numbers.old ≡ 256) }
    ensures stage { stage_before ops.now placed.now.chain.next ≡ Typed Rat }
    ensures bounded { IsBounded W.number N.value (stage_before ops.now placed.now.chain.next)
        (form_at forms.now (placed.now.chain.next - 1)) values.now numbers.new }
    ensures holds { (frames : ℕ → List ℕ) (n : ℕ) → n ≤ 64
        → IsState W.number N.value (stage_before ops.now placed.now.at)
        (form_at forms.now (placed.now.at - 1)) values.now numbers.old n
        (λ i. values_before ops.now (frames i) _position.now placed.now.at i)
        → IsState W.number N.value (stage_before ops.now placed.now.chain.next)
        (form_at forms.now (placed.now.chain.next - 1)) values.now numbers.new n
        (λ i. values_before ops.now (frames i) _position.now placed.now.chain.next i) }
{
    chain_values(ops, forms, placed.at, &placed.chain, values, wide, numbers);
}
