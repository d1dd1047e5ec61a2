// The conversion of rows, and the bytes that they take.
ghost use Rattle.std.specs.Prelude.{◌≡◌, false, length, Ok, IfOk, IfErr, OnOk, OnErr};
ghost use Rattle.pix_meaning.specs.Pairs.{IsValidPair};
ghost use Rattle.pix_meaning.specs.Target.{target_rows};
ghost use Rattle.row_plan.specs.Evaluated.{IsPlannable};
ghost use Rattle.frame_calls.specs.declared.refusal.Refusal.{Refusal};
ghost use Rattle.frame_calls.specs.Conversion.{pair_of, pair_asked};
ghost use Rattle.frame_calls.specs.Calls.{is_size, are_rows, bytes_asked, rows_asked};
ghost use Rattle.frame_calls.specs.Calls.{rows_asked_of, IsRefusalOf};

use crate::conversion::{Conversion, pair_of};
use crate::refusal::Refusal;
use desc_table::{at, desc};
use op_build::BuildFault;
use pix_io::frame_len;
use pix_meaning::Pair;
use row_plan::{Plan, plan};
use std::alloc::Global;

/// Some rows of a larger frame. Its numbers may be any.
#[derive(Clone, Copy, Debug)]
pub struct Rows {
    /// The row of the whole frame at which they begin, by which the dither goes.
    pub first: u32,
    /// In pixels.
    pub width: u32,
    /// How many there are.
    pub count: u32,
}

fn is_size(width: u32, count: u32) -> bool
    ensures { result ≡ is_size width count }
{
    (1 <= width && width <= 16384) && (1 <= count && count <= 16384)
}

pub(crate) fn are_rows(rows: &Rows) -> bool
    ensures { result ≡ are_rows rows.now }
{
    is_size(rows.width, rows.count) && u64::from(rows.first) + u64::from(rows.count) < 4294967296
}

/// The bytes of a raw frame of a format, or of some rows of one, or the first fault of the numbers.
#[tactic(auto, unfolding(crate::specs::Calls::bytes_asked))]
pub fn frame_bytes(format: u32, width: u32, count: u32) -> Result<u64, Refusal>
    ensures { result ≡ bytes_asked format width count }
{
    let Some(id) = at(format as usize) else {
        return Err(Refusal::Format);
    };
    if !is_size(width, count) {
        return Err(Refusal::Size);
    }
    Ok(frame_len(&desc(id), width, count))
}

// Whether rows can be converted, whose source and target have so many bytes.
#[tactic(auto, unfolding(crate::specs::Calls::rows_asked))]
fn test_rows(pair: &Pair, rows: &Rows, source: usize, target: usize) -> Result<(), Refusal>
    requires { IsValidPair pair.now }
    ensures { result ≡ rows_asked pair.now rows.now source target }
{
    if !are_rows(rows) {
        return Err(Refusal::Size);
    }
    if source as u64 != frame_len(&pair.from.desc, rows.width, rows.count) {
        return Err(Refusal::InputLength);
    }
    if target as u64 != frame_len(&pair.to.desc, rows.width, rows.count) {
        return Err(Refusal::OutputLength);
    }
    Ok(())
}

// The plan of a pair that has one.
fn plan_for(alloc: Global, pair: &Pair) -> Result<Plan, Refusal>
    requires plannable { IsPlannable pair.now }
    requires plain { pair.now.to.desc.palette ≡ false }
    ensures pair { IfOk result (λ plan. plan.pair ≡ pair.now) }
    ensures refusal { IfErr result (λ refusal. refusal ≡ Refusal.OutOfMemory) }
{
    match plan(alloc, pair, 0) {
        Ok(plan) => Ok(plan),
        Err(BuildFault::OutOfMemory) => Err(Refusal::OutOfMemory),
        Err(BuildFault::PaletteTarget) => unreachable!(),
    }
}

/// The plan of a conversion, or why there is none. All the memory that it will take is taken here.
pub fn plan_of(alloc: Global, conversion: &Conversion) -> Result<Plan, Refusal>
    ensures pair { IfOk result (λ plan. pair_asked conversion.now ≡ Ok plan.pair) }
    ensures refusal { IfErr result (IsRefusalOf (pair_asked conversion.now)) }
{
    plan_for(alloc, &pair_of(conversion)?)
}

/// Converts some rows by a plan. Input and output are raw frames of that width and as many rows,
/// the input with the whole palette where it has one; else the call says what is wrong, and changes
/// nothing. It takes no memory.
#[tactic(auto, unfolding(crate::specs::Calls::rows_asked))]
pub fn convert_by(plan: &Plan, rows: &Rows, input: &[u8], output: &mut [u8]) -> Result<(), Refusal>
    ensures answer { result
        ≡ rows_asked plan.now.pair rows.now (length input.now) (length output.old) }
    ensures target { OnOk result (output.new ≡ target_rows plan.now.pair rows.now.width
        rows.now.count rows.now.first input.now) }
    ensures unchanged { OnErr result (output.new ≡ output.old) }
{
    test_rows(plan.pair(), rows, input.len(), output.len())?;
    plan.convert_rows(rows.first, rows.width, rows.count, input, output);
    Ok(())
}

/// Converts some rows by a plan of its own, which takes memory, but only where all else is right.
pub fn convert(
    alloc: Global,
    conversion: &Conversion,
    rows: &Rows,
    input: &[u8],
    output: &mut [u8],
) -> Result<(), Refusal>
    ensures right { OnOk result (rows_asked_of (pair_asked conversion.now) rows.now
        (length input.now) (length output.old) ≡ Ok tt) }
    ensures target { OnOk result (output.new ≡ target_rows (pair_of conversion.now) rows.now.width
        rows.now.count rows.now.first input.now) }
    ensures refusal { IfErr result (IsRefusalOf (rows_asked_of (pair_asked conversion.now) rows.now
        (length input.now) (length output.old))) }
    ensures unchanged { OnErr result (output.new ≡ output.old) }
{
    let pair = pair_of(conversion)?;
    test_rows(&pair, rows, input.len(), output.len())?;
    let plan = plan_for(alloc, &pair)?;
    convert_by(&plan, rows, input, output)
}

/// A plan may cross threads, and be shared by them. A missing proof of it would else show only
/// where the first threads are started.
pub fn crosses_threads() {
    crosses::<Plan>()
}

fn crosses<T: Send + Sync>() {}
