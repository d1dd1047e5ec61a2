// A list of operations on a block of pixels.
ghost use Rattle.std.specs.Prelude.{◌≡◌, ℕ, ◌+◌, ◌*◌, ◌-◌, ◌^◌, ◌<◌, ◌≤◌, ◌⊎◌, true, false, length};
ghost use Rattle.std.specs.Prelude.{sum, All, IfSome};
ghost use Rattle.kernel_affine.specs.Chain.{IsPlaced};
ghost use Rattle.std.specs.Prelude.{slice_index_or, List};
ghost use Rattle.op_list.specs.Types.{bits, bits_at};
ghost use Rattle.op_list.specs.Typing.{may_follow, are_good, stage_after, is_write};
ghost use Rattle.op_list.specs.Apply.{apply};
ghost use Rattle.op_list.specs.declared.types.Stage.TheVariants.{Start};
ghost use Rattle.op_list.specs.Values.{number, no_values};
ghost use Rattle.op_list.specs.Run.{run_from};
ghost use Rattle.kernel_planes.specs.Block.{pixel_at, Holds, AreBelow, IsInRow};
ghost use Rattle.kernel_step.specs.Forms.{AreRuns, IsKernel, IsState, IsBounded, form_at};
ghost use Rattle.kernel_step.specs.Forms.{stage_before};
ghost use Rattle.kernel_step.specs.Forms.{op_at, values_before, last_op};
ghost use Rattle.kernel_planes.specs.Planes.{planes_of, elem_of};
ghost use Rattle.kernel_planes.specs.Planes.{AreRows, palette_length, row_element, row_frame};
ghost use Rattle.kernel_planes.specs.Planes.{row_list};
ghost use Rattle.kernel_planes.specs.Planes.{rows_of};

use kernel_affine::{Placed, chain_steps};
use kernel_planes::{Planes, WholeNumber, clear_rest, read_block, read_palette, write_block};
use kernel_step::{Form, Numerator, step};
use op_list::{Op, PixType, PixelPosition, Stage};

// The elements of n pixels from a position on, or their colours, and 0 for the others.
fn read_values<W: WholeNumber>(
    elem: PixType,
    planes: &[u8; 4],
    palette: bool,
    input: &Planes<'_>,
    position: &PixelPosition,
    n: usize,
    values: &mut [W],
)
    requires good { are_good Start (Op.Read elem planes.now palette) ≡ true }
    requires rows { AreRows
        (Op.Read elem planes.now palette) position.now.width (rows_of input.now) }
    requires entries { length input.now.palette.now
        ≡ palette_length (Op.Read elem planes.now palette) }
    requires inside { IsInRow position.now n }
    requires bits { 2 ^ bits elem ≤ 2 ^ W.bits }
    requires block { length values.old ≡ 256 }
    ensures set { Holds W.number values.new 4 n
        (λ v i. number (apply (row_frame (rows_of input.now) input.now.palette.now)
        (pixel_at position.now i) Start (Op.Read elem planes.now palette) no_values) v) }
    ensures small { AreBelow W.number values.new 4 (2 ^ bits elem) }
{
    let x = position.x as usize;
    if palette {
        read_palette(input.first, input.palette, x, n, values)
    } else {
        read_block(elem, planes, input, x, n, values)
    }
}

// What the Read of a list gives for n pixels, and where the list then stands.
#[tactic(auto, unfolding(op_list::specs::Typing::may_follow, op_list::specs::Typing::stage_after))]
fn read_first<W: WholeNumber>(
    op: &Op,
    input: &Planes<'_>,
    position: &PixelPosition,
    n: usize,
    values: &mut [W],
) -> Stage
    requires follows { may_follow Start op.now ≡ true }
    requires good { are_good Start op.now ≡ true }
    requires rows { AreRows op.now position.now.width (rows_of input.now) }
    requires entries { length input.now.palette.now ≡ palette_length op.now }
    requires inside { IsInRow position.now n }
    requires bits { 2 ^ bits_at (stage_after Start op.now) ≤ 2 ^ W.bits }
    requires block { length values.old ≡ 256 }
    ensures stage { result ≡ stage_after Start op.now }
    ensures set { Holds W.number values.new 4 n
        (λ v i. number (apply (row_frame (rows_of input.now) input.now.palette.now)
        (pixel_at position.now i) Start op.now no_values) v) }
    ensures small { AreBelow W.number values.new 4 (2 ^ bits_at (stage_after Start op.now)) }
{
    match op {
        Op::Read {
            elem,
            planes,
            palette,
        } => {
            read_values(*elem, planes, *palette, input, position, n, values);
            Stage::Typed(*elem)
        }
        _ => unreachable!(),
    }
}

// The operations from one to another, one after the other.
fn plain_steps<W: WholeNumber, N: Numerator>(
    ops: &[Op],
    forms: &[Form],
    first: usize,
    last: usize,
    stage: Stage,
    position: &PixelPosition,
    values: &mut [W],
    spare: &mut [W],
    numbers: &mut [N],
    sums: &mut [N],
)
    requires kernel { IsKernel ops.now forms.now W.bits N.width }
    requires order { (0 < first) × (first ≤ last) × (last < length ops.now) }
    requires stage { stage ≡ stage_before ops.now first }
    requires block { (length values.old ≡ 256) × (length spare.old ≡ 256)
        × (length numbers.old ≡ 256) × (length sums.old ≡ 256) }
    requires bounded { IsBounded W.number N.value (stage_before ops.now first)
        (form_at forms.now (first - 1)) values.old numbers.old }
    requires lanes { AreRuns W.number N.value ops.now first position.now
        (form_at forms.now (first - 1)) values.old numbers.old }
    ensures bounded { IsBounded W.number N.value (stage_before ops.now last)
        (form_at forms.now (last - 1)) values.new numbers.new }
    ensures holds { (frames : ℕ → List ℕ) (n : ℕ) → n ≤ 64
        → IsState W.number N.value (stage_before ops.now first)
        (form_at forms.now (first - 1)) values.old numbers.old n
        (λ i. values_before ops.now (frames i) position.now first i)
        → IsState W.number N.value (stage_before ops.now last)
        (form_at forms.now (last - 1)) values.new numbers.new n
        (λ i. values_before ops.now (frames i) position.now last i) }
{
    let mut stage = stage;
    for k in first..last {
        step(
            &ops[k],
            stage,
            position,
            &forms[k - 1],
            &forms[k],
            values,
            spare,
            numbers,
            sums,
        );
        stage = ops[k].stage_after(stage);
    }
}

// The operations between the first and the last one, where some of them are a chain.
fn steps_around<W: WholeNumber, N: Numerator>(
    ops: &[Op],
    forms: &[Form],
    placed: &Placed,
    first: Stage,
    position: &PixelPosition,
    values: &mut [W],
    spare: &mut [W],
    numbers: &mut [N],
    sums: &mut [N],
)
    requires kernel { IsKernel ops.now forms.now W.bits N.width }
    requires there { IsPlaced ops.now forms.now placed.now }
    requires first { first ≡ stage_before ops.now 1 }
    requires block { (length values.old ≡ 256) × (length spare.old ≡ 256)
        × (length numbers.old ≡ 256) × (length sums.old ≡ 256) }
    requires bounded { IsBounded W.number N.value (stage_before ops.now 1)
        (form_at forms.now 0) values.old numbers.old }
    requires lanes { AreRuns W.number N.value ops.now 1 position.now
        (form_at forms.now 0) values.old numbers.old }
    ensures bounded { IsBounded W.number N.value (stage_before ops.now (length ops.now - 1))
        (form_at forms.now (length ops.now - 2)) values.new numbers.new }
    ensures holds { (frames : ℕ → List ℕ) (n : ℕ) → n ≤ 64
        → IsState W.number N.value (stage_before ops.now 1)
        (form_at forms.now 0) values.old numbers.old n
        (λ i. values_before ops.now (frames i) position.now 1 i)
        → IsState W.number N.value (stage_before ops.now (length ops.now - 1))
        (form_at forms.now (length ops.now - 2)) values.new numbers.new n
        (λ i. values_before ops.now (frames i) position.now (length ops.now - 1) i) }
{
    let at = placed.at;
    plain_steps(
        ops, forms, 1, at, first, position, values, spare, numbers, sums,
    );
    chain_steps(ops, forms, placed, position, values, sums, numbers);
    let next = placed.chain.next;
    let last = ops.len() - 1;
    let stage = Stage::Typed(PixType::Rat);
    plain_steps(
        ops, forms, next, last, stage, position, values, spare, numbers, sums,
    );
}

// The operations between the first and the last one.
fn run_steps<W: WholeNumber, N: Numerator>(
    ops: &[Op],
    forms: &[Form],
    chain: &Option<Placed>,
    first: Stage,
    position: &PixelPosition,
    values: &mut [W],
    spare: &mut [W],
    numbers: &mut [N],
    sums: &mut [N],
)
    requires kernel { IsKernel ops.now forms.now W.bits N.width }
    requires chain { IfSome chain.now (λ placed. IsPlaced ops.now forms.now placed) }
    requires some { 2 ≤ length ops.now }
    requires first { first ≡ stage_before ops.now 1 }
    requires block { (length values.old ≡ 256) × (length spare.old ≡ 256)
        × (length numbers.old ≡ 256) × (length sums.old ≡ 256) }
    requires bounded { IsBounded W.number N.value (stage_before ops.now 1)
        (form_at forms.now 0) values.old numbers.old }
    requires lanes { AreRuns W.number N.value ops.now 1 position.now
        (form_at forms.now 0) values.old numbers.old }
    ensures bounded { IsBounded W.number N.value (stage_before ops.now (length ops.now - 1))
        (form_at forms.now (length ops.now - 2)) values.new numbers.new }
    ensures holds { (frames : ℕ → List ℕ) (n : ℕ) → n ≤ 64
        → IsState W.number N.value (stage_before ops.now 1)
        (form_at forms.now 0) values.old numbers.old n
        (λ i. values_before ops.now (frames i) position.now 1 i)
        → IsState W.number N.value (stage_before ops.now (length ops.now - 1))
        (form_at forms.now (length ops.now - 2)) values.new numbers.new n
        (λ i. values_before ops.now (frames i) position.now (length ops.now - 1) i) }
{
    match chain {
        Some(placed) => steps_around(
            ops, forms, placed, first, position, values, spare, numbers, sums,
        ),
        None => {
            let last = ops.len() - 1;
            plain_steps(
                ops, forms, 1, last, first, position, values, spare, numbers, sums,
            );
        }
    }
}

// Writes the elements of n pixels from x on as the Write of a list states.
fn write_last<W: WholeNumber>(
    op: &Op,
    values: &[W],
    position: &PixelPosition,
    n: usize,
    first: &mut [u8],
    second: &mut [u8],
    third: &mut [u8],
    fourth: &mut [u8],
)
    requires write { is_write op.now ≡ true }
    requires good { are_good Start op.now ≡ true }
    requires rows { AreRows
        op.now position.now.width (row_list first.old second.old third.old fourth.old) }
    requires inside { IsInRow position.now n }
    requires block { length values.now ≡ 256 }
    requires small { AreBelow W.number values.now (sum (planes_of op.now))
        (2 ^ bits (elem_of op.now)) }
    ensures stored { (v i : ℕ) (d : W) → v < sum (planes_of op.now) → i < n
        → row_element (elem_of op.now) (planes_of op.now)
        (row_list first.new second.new third.new fourth.new) (position.now.x + i) v
        ≡ W.number (slice_index_or values.now (64 * v + i) d) }
    ensures others { (other v : ℕ) → (other < position.now.x) ⊎ (position.now.x + n ≤ other)
        → row_element (elem_of op.now) (planes_of op.now)
        (row_list first.new second.new third.new fourth.new) other v
        ≡ row_element (elem_of op.now) (planes_of op.now)
        (row_list first.old second.old third.old fourth.old) other v }
{
    let x = position.x as usize;
    match op {
        Op::Write { elem, planes } => {
            write_block(*elem, planes, values, x, n, first, second, third, fourth)
        }
        _ => unreachable!(),
    }
}

// The numbers of some bytes are below 256.
fn are_bytes(bytes: &[u8])
    ensures { All (λ byte. byte < 256) bytes.now }
{}

// The frame that the rows of planes make is one of bytes.
fn hold_bytes(input: &Planes<'_>)
    ensures { All (λ byte. byte < 256) (row_frame (rows_of input.now) input.now.palette.now) }
{
    are_bytes(input.first);
    are_bytes(input.second);
    are_bytes(input.third);
    are_bytes(input.fourth);
    are_bytes(input.palette);
}

// Runs the operations on the n pixels from a position on, and writes their elements.
pub fn run_block<W: WholeNumber, N: Numerator>(
    ops: &[Op],
    forms: &[Form],
    chain: &Option<Placed>,
    input: &Planes<'_>,
    position: &PixelPosition,
    n: usize,
    values: &mut [W],
    spare: &mut [W],
    numbers: &mut [N],
    sums: &mut [N],
    first: &mut [u8],
    second: &mut [u8],
    third: &mut [u8],
    fourth: &mut [u8],
)
    requires kernel { IsKernel ops.now forms.now W.bits N.width }
    requires chain { IfSome chain.now (λ placed. IsPlaced ops.now forms.now placed) }
    requires input { AreRows (op_at ops.now 0) position.now.width (rows_of input.now) }
    requires entries { length input.now.palette.now ≡ palette_length (op_at ops.now 0) }
    requires output { AreRows (last_op ops.now) position.now.width
        (row_list first.old second.old third.old fourth.old) }
    requires inside { IsInRow position.now n }
    requires block { (length values.old ≡ 256) × (length spare.old ≡ 256)
        × (length numbers.old ≡ 256) × (length sums.old ≡ 256) }
    ensures stored { (v i : ℕ) → v < sum (planes_of (last_op ops.now)) → i < n
        → row_element (elem_of (last_op ops.now)) (planes_of (last_op ops.now))
        (row_list first.new second.new third.new fourth.new) (position.now.x + i) v
        ≡ number (run_from (row_frame (rows_of input.now) input.now.palette.now)
        (pixel_at position.now i) Start ops.now no_values) v }
    ensures others { (other v : ℕ) → (other < position.now.x) ⊎ (position.now.x + n ≤ other)
        → row_element (elem_of (last_op ops.now)) (planes_of (last_op ops.now))
        (row_list first.new second.new third.new fourth.new) other v
        ≡ row_element (elem_of (last_op ops.now)) (planes_of (last_op ops.now))
        (row_list first.old second.old third.old fourth.old) other v }
{
    hold_bytes(input);
    let stage = read_first(&ops[0], input, position, n, values);
    clear_rest(n, values);
    run_steps(
        ops, forms, chain, stage, position, values, spare, numbers, sums,
    );
    write_last(
        &ops[ops.len() - 1],
        values,
        position,
        n,
        first,
        second,
        third,
        fourth,
    );
}
