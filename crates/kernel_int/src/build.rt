// The kernel of a list.
ghost use Rattle.std.specs.Prelude.{◌≡◌, ◌≤◌, ◌<◌, ◌^◌, true, length, sum, IfOk, IfSome};
ghost use Rattle.std.specs.Prelude.{None};
ghost use Rattle.op_list.specs.Typing.{IsOpList, ends_with_write, is_write};
ghost use Rattle.op_range.specs.States.{states_of};
ghost use Rattle.op_range.specs.Width.{width};
ghost use Rattle.kernel_step.specs.Forms.{AreStored, IsKernel, bits_of};
ghost use Rattle.kernel_planes.specs.Planes.{planes_of};
ghost use Rattle.kernel_step.specs.Forms.{width_of};
ghost use Rattle.kernel_step.specs.declared.form.NumberWidth.TheVariants.{Bits128};
ghost use Rattle.kernel_joint.specs.Joint.{room};

use crate::kernel::RowKernel;
use frac_math::{Frac, OutOfMemory};
use kernel_joint::joint_forms;
use kernel_step::{Form, NumberWidth, Storage, counts_of, forms_of, storage_of};
use op_list::{Op, OpList, total};
use op_range::StateRange;
use std::alloc::Global;

// The operations, one after the other.
fn copied(alloc: Global, ops: &[Op]) -> Result<Vec<Op>, OutOfMemory>
    ensures { IfOk result (λ copies. copies.items ≡ ops.now) }
{
    // The proof of this call has to find the type named that an operation holds.
    let _entry: Option<Frac> = None;
    let mut copies = Vec::new(alloc);
    for op in ops {
        copies.push(*op)?;
    }
    Ok(copies)
}

/// The forms of a kernel, and the width of its numerators.
#[derive(Drop)]
pub struct Numbers {
    pub forms: Vec<Form>,
    pub number_width: NumberWidth,
}

/// The kernel of a list with these numbers.
pub fn kernel_of(
    alloc: Global,
    ops: &[Op],
    storage: Storage,
    numbers: Numbers,
) -> Result<RowKernel, OutOfMemory>
    requires numbers { IsKernel ops.now numbers.forms.items (bits_of storage)
        (width_of numbers.number_width) }
    ensures { IfOk result (λ kernel. kernel ≡ ops.now) }
{
    let Numbers {
        forms,
        number_width,
    } = numbers;
    let ops = copied(alloc, ops)?;
    Ok(RowKernel {
        ops,
        forms,
        storage,
        number_width,
    })
}

/// The numbers of a list over own denominators, where they fit this width of numbers.
pub fn own_numbers(
    alloc: Global,
    ops: &[Op],
    ranges: &[StateRange],
    storage: Storage,
    number_width: NumberWidth,
) -> Result<Option<Numbers>, OutOfMemory>
    requires sound { IsOpList ops.now }
    requires whole { ends_with_write ops.now ≡ true }
    requires some { 2 ≤ length ops.now }
    requires ranges { ranges.now ≡ states_of ops.now }
    requires stored { AreStored ops.now (bits_of storage) }
    ensures kernel { IfOk result (λ found. IfSome found (λ numbers. IsKernel ops.now
        numbers.forms.items (bits_of storage) (width_of numbers.number_width))) }
    ensures width { IfOk result (λ found. IfSome found
        (λ numbers. numbers.number_width ≡ number_width)) }
{
    let counts = counts_of(ops);
    let Some(forms) = forms_of(alloc, ops, ranges, &counts, storage, number_width)? else {
        return Ok(None);
    };
    if forms[ops.len() - 2].count < written(&ops[ops.len() - 1]) {
        return Ok(None);
    }
    Ok(Some(Numbers {
        forms,
        number_width,
    }))
}

// The elements that a Write is given.
fn written(op: &Op) -> usize
    requires { is_write op.now ≡ true }
    ensures { result ≡ sum (planes_of op.now) }
{
    match op {
        Op::Write { planes, .. } => total(planes) as usize,
        _ => unreachable!(),
    }
}

/// The numbers of a whole list over one denominator, where all that it works out is below the room
/// of this width of numbers.
#[tactic(auto, using(kernel_step::proofs::Kernels::written_few))]
pub fn joint_numbers(
    alloc: Global,
    ops: &[Op],
    storage: Storage,
    number_width: NumberWidth,
) -> Result<Option<Numbers>, OutOfMemory>
    requires sound { IsOpList ops.now }
    requires whole { ends_with_write ops.now ≡ true }
    requires some { 2 ≤ length ops.now }
    requires stored { AreStored ops.now (bits_of storage) }
    requires room { 2 ^ 32 ≤ room number_width }
    ensures kernel { IfOk result (λ found. IfSome found (λ numbers. IsKernel ops.now
        numbers.forms.items (bits_of storage) (width_of numbers.number_width))) }
    ensures width { IfOk result (λ found. IfSome found
        (λ numbers. numbers.number_width ≡ number_width)) }
    ensures none { IfOk result (λ found. width ops.now < room number_width → found ≡ None → ⊥) }
{
    let Some(forms) = joint_forms(alloc, ops, storage, number_width)? else {
        return Ok(None);
    };
    Ok(Some(Numbers {
        forms,
        number_width,
    }))
}

// The numbers of a whole list with numerators of at most 64 bits: every list has some whose width
// is below 2^62.
fn few_bits(
    alloc: Global,
    ops: &[Op],
    ranges: &[StateRange],
    storage: Storage,
) -> Result<Option<Numbers>, OutOfMemory>
    requires sound { IsOpList ops.now }
    requires whole { ends_with_write ops.now ≡ true }
    requires some { 2 ≤ length ops.now }
    requires ranges { ranges.now ≡ states_of ops.now }
    requires stored { AreStored ops.now (bits_of storage) }
    ensures kernel { IfOk result (λ found. IfSome found (λ numbers. IsKernel ops.now
        numbers.forms.items (bits_of storage) (width_of numbers.number_width))) }
    ensures short { IfOk result (λ found. IfSome found
        (λ numbers. numbers.number_width ≡ Bits128 → ⊥)) }
    ensures none { IfOk result (λ found. width ops.now < 2 ^ 62 → found ≡ None → ⊥) }
{
    if let Some(numbers) = own_numbers(alloc, ops, ranges, storage, NumberWidth::Bits32)? {
        return Ok(Some(numbers));
    }
    if let Some(numbers) = own_numbers(alloc, ops, ranges, storage, NumberWidth::Bits64)? {
        return Ok(Some(numbers));
    }
    joint_numbers(alloc, ops, storage, NumberWidth::Bits64)
}

/// The numbers of a whole list that fits, in the narrowest numerators that hold all that it works
/// out: at most 64 bits where the width is below 2^62.
pub fn numbers_of(
    alloc: Global,
    ops: &[Op],
    ranges: &[StateRange],
    storage: Storage,
) -> Result<Numbers, OutOfMemory>
    requires sound { IsOpList ops.now }
    requires whole { ends_with_write ops.now ≡ true }
    requires some { 2 ≤ length ops.now }
    requires ranges { ranges.now ≡ states_of ops.now }
    requires stored { AreStored ops.now (bits_of storage) }
    requires fits { width ops.now < 2 ^ 126 }
    ensures kernel { IfOk result (λ numbers. IsKernel ops.now
        numbers.forms.items (bits_of storage) (width_of numbers.number_width)) }
    ensures short { IfOk result (λ numbers. width ops.now < 2 ^ 62
        → numbers.number_width ≡ Bits128 → ⊥) }
{
    if let Some(numbers) = few_bits(alloc, ops, ranges, storage)? {
        return Ok(numbers);
    }
    if let Some(numbers) = own_numbers(alloc, ops, ranges, storage, NumberWidth::Bits128)? {
        return Ok(numbers);
    }
    match joint_numbers(alloc, ops, storage, NumberWidth::Bits128)? {
        Some(numbers) => Ok(numbers),
        None => unreachable!(),
    }
}

/// The kernel of a whole list that fits, with the numbers of `numbers_of`. The ranges are those of
/// the list. OutOfMemory comes where an allocation is refused.
#[tactic(auto, using(kernel_step::proofs::Kernels::at_least_two))]
pub fn compile(
    alloc: Global,
    list: &OpList,
    ranges: &[StateRange],
) -> Result<RowKernel, OutOfMemory>
    requires whole { ends_with_write list.now ≡ true }
    requires fits { width list.now < 2 ^ 126 }
    requires ranges { ranges.now ≡ states_of list.now }
    ensures { IfOk result (λ kernel. kernel ≡ list.now) }
{
    let ops = list.ops();
    let storage = storage_of(ops);
    let numbers = numbers_of(alloc, ops, ranges, storage)?;
    kernel_of(alloc, ops, storage, numbers)
}
