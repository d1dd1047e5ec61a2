// How a plan is made.
ghost use Rattle.std.specs.Prelude.{◌≡◌, ◌↔◌, ◌<◌, ◌^◌, true, IfOk, IfErr, string_bytes};
ghost use Rattle.pix_meaning.specs.Pairs.{IsValidPair};
ghost use Rattle.op_list.specs.Typing.{ends_with_write};
ghost use Rattle.op_range.specs.Width.{width};
ghost use Rattle.op_build.specs.Recipe.{recipe};
ghost use Rattle.op_opt.specs.Normal.{normal};
ghost use Rattle.op_text.specs.Line.{text_of};
ghost use Rattle.row_plan.specs.Evaluated.{IsPlannable};

use crate::plans::Plan;
use kernel_int::{RowKernel, compile};
use op_build::{BuildFault, build};
use op_list::OpList;
use op_opt::{NormalList, optimise};
use op_range::ranges;
use op_text::print;
use pix_meaning::Pair;
use std::alloc::Global;

// The normal list of a whole list.
fn optimised(alloc: Global, list: OpList) -> Result<NormalList, BuildFault>
    requires whole { ends_with_write list ≡ true }
    ensures ok { IfOk result (λ after. after ≡ normal list) }
    ensures whole { IfOk result (λ after. ends_with_write after ≡ true) }
    ensures fault { IfErr result (λ fault. fault ≡ BuildFault.OutOfMemory) }
{
    match optimise(alloc, list) {
        Ok(after) => Ok(after),
        Err(_) => Err(BuildFault::OutOfMemory),
    }
}

// The text of a normal list.
fn text_of(alloc: Global, list: &NormalList) -> Result<String, BuildFault>
    ensures ok { IfOk result (λ text. string_bytes text ≡ text_of list.now) }
    ensures fault { IfErr result (λ fault. fault ≡ BuildFault.OutOfMemory) }
{
    match print(alloc, list.list()) {
        Ok(text) => Ok(text),
        Err(_) => Err(BuildFault::OutOfMemory),
    }
}

// The kernel of a list.
fn kernel_of(alloc: Global, list: &OpList) -> Result<RowKernel, BuildFault>
    requires whole { ends_with_write list.now ≡ true }
    requires fits { width list.now < 2 ^ 126 }
    ensures ok { IfOk result (λ kernel. kernel ≡ list.now) }
    ensures fault { IfErr result (λ fault. fault ≡ BuildFault.OutOfMemory) }
{
    let Ok(states) = ranges(alloc, list) else {
        return Err(BuildFault::OutOfMemory);
    };
    match compile(alloc, list, &states) {
        Ok(kernel) => Ok(kernel),
        Err(_) => Err(BuildFault::OutOfMemory),
    }
}

/// The plan of a pair that is valid, and fits where its target is no palette format: every pair of
/// the table with named matrices is such a one (`laws::table_pairs_have_plans`). PaletteTarget
/// comes exactly where the target is a palette format, and OutOfMemory where an allocation is
/// refused. All the memory that a conversion of rows takes is taken here.
pub fn plan(alloc: Global, pair: &Pair, stamp: u64) -> Result<Plan, BuildFault>
    requires { IsPlannable pair.now }
    ensures pair { IfOk result (λ plan. plan.pair ≡ pair.now) }
    ensures stamp { IfOk result (λ plan. plan.stamp ≡ stamp) }
    ensures text { IfOk result
        (λ plan. string_bytes plan.text ≡ text_of (normal (recipe pair.now))) }
    ensures palette { (result ≡ Err BuildFault.PaletteTarget) ↔ (pair.now.to.desc.palette ≡ true) }
{
    let list = optimised(alloc, build(alloc, pair)?)?;
    let text = text_of(alloc, &list)?;
    let kernel = kernel_of(alloc, list.list())?;
    Ok(Plan {
        pair: *pair,
        stamp,
        kernel,
        text,
    })
}
