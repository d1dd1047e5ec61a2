// The list of a conversion, one step behind the other.
ghost use Rattle.std.specs.Prelude.{◌≡◌, ◌↔◌, true, IfOk, IfErr, OnOk, [], ◌∷◌, ◌++◌};
ghost use Rattle.pix_meaning.specs.Pairs.{IsValidPair};
ghost use Rattle.op_list.specs.Typing.{IsOpList, ends_with_write};
ghost use Rattle.op_build.specs.Meaning.{MeansTargetRows};
ghost use Rattle.op_build.specs.Recipe.{recipe};
ghost use Rattle.op_build.specs.Steps.{operations};

use crate::fault::BuildFault;
use crate::steps::{convert, decode, encode};
use op_list::{Op, OpList, PushFault};
use pix_meaning::Pair;
use std::alloc::Global;

// Puts an operation at the end of a list that it may follow.
fn append(list: &mut OpList, op: Op) -> Result<(), BuildFault>
    requires { IsOpList (list.old ++ op ∷ []) }
    ensures ok { OnOk result (list.new ≡ list.old ++ op ∷ []) }
    ensures fault { IfErr result (λ fault. fault ≡ BuildFault.OutOfMemory) }
{
    match list.push(op) {
        Ok(()) => Ok(()),
        Err(PushFault::OutOfMemory) => Err(BuildFault::OutOfMemory),
        Err(PushFault::WrongType) => unreachable!(),
        Err(PushFault::BadArgument) => unreachable!(),
        Err(PushFault::TooLong) => unreachable!(),
    }
}

// Puts the operations of some steps at the end of a list that they may follow.
fn append_steps(list: &mut OpList, steps: &[Option<Op>]) -> Result<(), BuildFault>
    requires { IsOpList (list.old ++ operations steps.now) }
    ensures ok { OnOk result (list.new ≡ list.old ++ operations steps.now) }
    ensures fault { IfErr result (λ fault. fault ≡ BuildFault.OutOfMemory) }
{
    for step in steps {
        append_step(list, step)?;
    }
    Ok(())
}

fn append_step(list: &mut OpList, step: &Option<Op>) -> Result<(), BuildFault>
    requires { IsOpList (list.old ++ operations (step.now ∷ [])) }
    ensures ok { OnOk result (list.new ≡ list.old ++ operations (step.now ∷ [])) }
    ensures fault { IfErr result (λ fault. fault ≡ BuildFault.OutOfMemory) }
{
    match step {
        Some(op) => append(list, *op),
        None => Ok(()),
    }
}

fn append_recipe(list: &mut OpList, pair: &Pair) -> Result<(), BuildFault>
    requires valid { IsValidPair pair.now }
    requires empty { list.old ≡ [] }
    ensures ok { OnOk result (list.new ≡ recipe pair.now) }
    ensures fault { IfErr result (λ fault. fault ≡ BuildFault.OutOfMemory) }
{
    append_steps(list, &decode(&pair.from.desc))?;
    append_steps(list, &convert(pair))?;
    append_steps(list, &encode(&pair.to.desc))
}

/// The list of operations of a conversion, by the recipe, where the pair is valid. It is whole, and
/// at every pixel of every source frame it gives the
/// elements of the target rows. PaletteTarget comes exactly where the target is a palette format,
/// and OutOfMemory where an allocation is refused.
pub fn build(alloc: Global, pair: &Pair) -> Result<OpList, BuildFault>
    requires { IsValidPair pair.now }
    ensures list { IfOk result (λ list. list ≡ recipe pair.now) }
    ensures whole { IfOk result (λ list. ends_with_write list ≡ true) }
    ensures meaning { IfOk result (λ list. MeansTargetRows pair.now list) }
    ensures palette { (result ≡ Err BuildFault.PaletteTarget) ↔ (pair.now.to.desc.palette ≡ true) }
{
    if pair.to.desc.palette {
        return Err(BuildFault::PaletteTarget);
    }
    let mut list = OpList::new(alloc);
    append_recipe(&mut list, pair)?;
    Ok(list)
}
