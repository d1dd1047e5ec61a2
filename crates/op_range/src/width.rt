ghost use Rattle.std.specs.Prelude.{◌≡◌, ◌<◌, ◌≤◌, ◌^◌, ◌*◌, ◌+◌, ◌↔◌, ◌||◌, true, false, None};
ghost use Rattle.std.specs.Prelude.{if◌then◌else◌, nat_le, IsTrue, IfSome, All, unsigned_abs};
ghost use Rattle.std.specs.Prelude.{slice_index, slice_index_or, ◌&&◌};
ghost use Rattle.op_list.specs.Types.{is_rational};
ghost use Rattle.op_list.specs.Values.{four, entry, fraction_in};
ghost use Rattle.op_list.specs.Apply.{row_of};
ghost use Rattle.op_list.specs.Typing.{are_good, are_typed};
ghost use Rattle.op_range.specs.Width.{width_of, size_in, denominator_over, rows_denominator};
ghost use Rattle.op_range.specs.Width.{entries_denominator, multiple_with, size_over, term_size};
ghost use Rattle.op_range.specs.Width.{row_size, mapped_width, dithered_width, scaled_width};
ghost use Rattle.op_range.specs.Width.{cleared_size, limited_size, cleared_width, limited_width};
ghost use Rattle.op_range.specs.Width.{fractions_width, whole_width, width_after, own_width_from};
ghost use Rattle.op_range.specs.Width.{width, IsLowestTooWide};
ghost use Rattle.op_range.specs.Capped.{capped, below_cap, capped_width, first_true};

use crate::capped::{CAP, capped_product, capped_sum, common_multiple, factor, product_below};
use crate::fractions::dither_places;
use frac_math::Frac;
use op_list::{Op, OpList, Stage};

/// Four fractions as numerators over one denominator: the denominator, and bounds of the numerators
/// without their signs. A bound from 2^126 on stands as 2^126.
#[derive(Clone, Copy, Debug)]
pub struct Width {
    pub denominator: u128,
    pub sizes: [u128; 4],
}

// The numerator without its sign.
fn size(x: &Frac) -> u128
    ensures { result ≡ unsigned_abs x.now.numerator }
{
    x.num().unsigned_abs()
}

fn denominator(x: &Frac) -> u128
    ensures value { result ≡ x.now.denominator }
    ensures positive { 0 < result }
{
    x.den() as u128
}

// The numerator over e, a multiple of the denominator, without its sign.
fn size_over(x: &Frac, e: u128) -> u128
    ensures { result ≡ capped (size_over e x.now) }
{
    capped_product(size(x), e / denominator(x))
}

// The least common multiple of e and the denominators of some fractions, below the cap.
fn denominator_over(e: u128, xs: &[Frac]) -> Option<u128>
    requires { e < 2 ^ 126 }
    ensures { result ≡ below_cap (denominator_over e xs.now) }
{
    match xs {
        [] => Some(e),
        [x, rest @ ..] => common_multiple(denominator_over(e, rest)?, denominator(x)),
    }
}

// The least common denominator of all numbers of some rows, below the cap.
fn rows_denominator(rows: &[[Frac; 5]]) -> Option<u128>
    ensures { result ≡ below_cap (rows_denominator rows.now) }
{
    match rows {
        [] => Some(1),
        [row, rest @ ..] => denominator_over(rows_denominator(rest)?, row),
    }
}

// The least common denominator of the entries that are given, below the cap.
fn entries_denominator(entries: &[Option<Frac>]) -> Option<u128>
    ensures { result ≡ below_cap (entries_denominator entries.now) }
{
    match entries {
        [] => Some(1),
        [entry, rest @ ..] => multiple_with(entries_denominator(rest)?, entry),
    }
}

fn multiple_with(e: u128, entry: &Option<Frac>) -> Option<u128>
    requires { e < 2 ^ 126 }
    ensures { result ≡ below_cap (multiple_with e entry.now) }
{
    match entry {
        Some(x) => common_multiple(e, denominator(x)),
        None => Some(e),
    }
}

// The size of a row over e.
fn row_size(e: u128, row: &[Frac; 5], width: &Width) -> u128
    ensures { result ≡ capped (row_size e row.now width.now) }
{
    let terms = term_sizes(e, row, width);
    let constant = constant_size(e, row, width.denominator);
    capped_sum(sum_of_four(&terms), constant)
}

fn constant_size(e: u128, row: &[Frac; 5], d: u128) -> u128
    ensures { result ≡ capped (size_over e (fraction_in row.now 4) * d) }
{
    capped_term(e, &row[4], d)
}

fn sum_of_four(terms: &[u128; 4]) -> u128
    ensures { result ≡ capped
        (slice_index terms.now 0 + slice_index terms.now 1 + slice_index terms.now 2 + slice_index
        terms.now 3) }
{
    let [first, second, third, fourth] = *terms;
    capped_sum(capped_sum(capped_sum(first, second), third), fourth)
}

fn term_sizes(e: u128, row: &[Frac; 5], width: &Width) -> [u128; 4]
    ensures { result ≡ four (λ j. capped (term_size e row.now width.now j)) }
{
    [
        capped_term(e, &row[0], width.sizes[0]),
        capped_term(e, &row[1], width.sizes[1]),
        capped_term(e, &row[2], width.sizes[2]),
        capped_term(e, &row[3], width.sizes[3]),
    ]
}

fn capped_term(e: u128, coefficient: &Frac, size: u128) -> u128
    ensures { result ≡ capped (size_over e coefficient.now * size) }
{
    capped_product(size_over(coefficient, e), size)
}

// After a Linear.
fn mapped(width: &Width, rows: &[[Frac; 5]; 4]) -> Option<Width>
    requires { 0 < width.now.denominator }
    ensures { result ≡ capped_width (mapped_width rows.now width.now) }
{
    let e = rows_denominator(rows)?;
    let denominator = product_below(width.denominator, e)?;
    let sizes = mapped_sizes(e, width, rows);
    Some(Width { denominator, sizes })
}

fn mapped_sizes(e: u128, width: &Width, rows: &[[Frac; 5]; 4]) -> [u128; 4]
    ensures { result ≡ four (λ i. capped (row_size e (row_of rows.now i) width.now)) }
{
    [
        row_size(e, &rows[0], width),
        row_size(e, &rows[1], width),
        row_size(e, &rows[2], width),
        row_size(e, &rows[3], width),
    ]
}

// After a Dither.
fn dithered(width: &Width, k: u8) -> Option<Width>
    requires { k ≤ 4 }
    ensures { result ≡ capped_width (dithered_width k width.now) }
{
    let f = factor(width.denominator, u128::from(dither_places(k)));
    let denominator = product_below(width.denominator, f)?;
    let sizes = dithered_sizes(f, denominator, &width.sizes);
    Some(Width { denominator, sizes })
}

fn dithered_sizes(f: u128, denominator: u128, sizes: &[u128; 4]) -> [u128; 4]
    ensures { result ≡ four (λ i. capped (slice_index sizes.now i * f + denominator)) }
{
    [
        capped_sum(capped_product(sizes[0], f), denominator),
        capped_sum(capped_product(sizes[1], f), denominator),
        capped_sum(capped_product(sizes[2], f), denominator),
        capped_sum(capped_product(sizes[3], f), denominator),
    ]
}

// After a Scale.
fn scaled(width: &Width, by: &Frac) -> Option<Width>
    ensures { result ≡ capped_width (scaled_width by.now width.now) }
{
    let denominator = product_below(width.denominator, denominator(by))?;
    let sizes = scaled_sizes(size(by), &width.sizes);
    Some(Width { denominator, sizes })
}

fn scaled_sizes(factor: u128, sizes: &[u128; 4]) -> [u128; 4]
    ensures { result ≡ four (λ i. capped (slice_index sizes.now i * factor)) }
{
    [
        capped_product(sizes[0], factor),
        capped_product(sizes[1], factor),
        capped_product(sizes[2], factor),
        capped_product(sizes[3], factor),
    ]
}

// After a Clear.
fn cleared(width: &Width, entries: &[Option<Frac>; 4]) -> Option<Width>
    requires { 0 < width.now.denominator }
    ensures { result ≡ capped_width (cleared_width entries.now width.now) }
{
    let e = entries_denominator(entries)?;
    let denominator = product_below(width.denominator, e)?;
    let sizes = cleared_sizes(e, width, entries);
    Some(Width { denominator, sizes })
}

fn cleared_sizes(e: u128, width: &Width, entries: &[Option<Frac>; 4]) -> [u128; 4]
    ensures { result ≡ four
        (λ i. capped
        (cleared_size e width.now.denominator (entry entries.now i) (size_in width.now i))) }
{
    let d = width.denominator;
    [
        cleared_size(e, d, &entries[0], width.sizes[0]),
        cleared_size(e, d, &entries[1], width.sizes[1]),
        cleared_size(e, d, &entries[2], width.sizes[2]),
        cleared_size(e, d, &entries[3], width.sizes[3]),
    ]
}

fn cleared_size(e: u128, d: u128, entry: &Option<Frac>, size: u128) -> u128
    ensures { result ≡ capped (cleared_size e d entry.now size) }
{
    match entry {
        Some(x) => capped_product(size_over(x, e), d),
        None => capped_product(size, e),
    }
}

// After a Min or a Max.
fn limited(width: &Width, limits: &[Option<Frac>; 4]) -> Option<Width>
    requires { 0 < width.now.denominator }
    ensures { result ≡ capped_width (limited_width limits.now width.now) }
{
    let e = entries_denominator(limits)?;
    let denominator = product_below(width.denominator, e)?;
    let sizes = limited_sizes(e, width, limits);
    Some(Width { denominator, sizes })
}

fn limited_sizes(e: u128, width: &Width, limits: &[Option<Frac>; 4]) -> [u128; 4]
    ensures { result ≡ four
        (λ i. capped
        (limited_size e width.now.denominator (entry limits.now i) (size_in width.now i))) }
{
    let d = width.denominator;
    [
        limited_size(e, d, &limits[0], width.sizes[0]),
        limited_size(e, d, &limits[1], width.sizes[1]),
        limited_size(e, d, &limits[2], width.sizes[2]),
        limited_size(e, d, &limits[3], width.sizes[3]),
    ]
}

fn limited_size(e: u128, d: u128, limit: &Option<Frac>, size: u128) -> u128
    ensures { result ≡ capped (limited_size e d limit.now size) }
{
    let kept = capped_product(size, e);
    match limit {
        Some(x) => kept.max(capped_product(size_over(x, e), d)),
        None => kept,
    }
}

// The width itself.
fn kept(width: &Width) -> Option<Width>
    ensures { result ≡ capped_width width.now }
{
    if width.denominator < CAP {
        Some(Width {
            denominator: width.denominator,
            sizes: scaled_sizes(1, &width.sizes),
        })
    } else {
        None
    }
}

// After a Swizzle.
fn swizzled(width: &Width, from: &[u8; 4]) -> Option<Width>
    requires { All (λ i. i < 4) from.now }
    ensures { result ≡ capped_width
        (width_of width.now.denominator (λ i. size_in width.now (slice_index from.now i))) }
{
    kept(&Width {
        denominator: width.denominator,
        sizes: [
            width.sizes[usize::from(from[0])],
            width.sizes[usize::from(from[1])],
            width.sizes[usize::from(from[2])],
            width.sizes[usize::from(from[3])],
        ],
    })
}

/// The width of whole numbers of so many bits, which a list begins with for 0 bits.
pub fn whole_width(bits: u32) -> Width
    requires { bits ≤ 32 }
    ensures { result ≡ whole_width bits }
{
    let most = (1 << bits) - 1;
    Width {
        denominator: 1,
        sizes: [most, most, most, most],
    }
}

// After an operation, and none where the denominator reaches the cap.
#[tactic(auto, unfolding(crate::specs::Width::fractions_width))]
fn fractions_width(op: &Op, stage: Stage, width: &Width) -> Option<Width>
    requires good { are_good stage op.now ≡ true }
    requires positive { 0 < width.now.denominator }
    ensures { result ≡ capped_width (fractions_width op.now width.now) }
{
    match op {
        Op::Clear { values } => cleared(width, values),
        Op::Swizzle { from } => swizzled(width, from),
        Op::Dither { k } => dithered(width, *k),
        Op::Linear { rows } => mapped(width, rows),
        Op::Scale { by } => scaled(width, by),
        Op::Min { limits } | Op::Max { limits } => limited(width, limits),
        Op::Read { .. }
        | Op::Write { .. }
        | Op::SwapBytes
        | Op::Unpack { .. }
        | Op::Pack { .. }
        | Op::LeftShift { .. }
        | Op::RightShift { .. }
        | Op::Convert { .. } => kept(width),
    }
}

/// The width after an operation, with sizes from 2^126 on as 2^126; none where the denominator
/// reaches 2^126. It takes no memory.
#[tactic(auto, unfolding(crate::specs::Width::width_after))]
pub fn width_after(op: &Op, stage: Stage, width: &Width) -> Option<Width>
    requires good { are_good stage op.now ≡ true }
    requires positive { 0 < width.now.denominator }
    ensures { result ≡ capped_width (width_after stage op.now width.now) }
{
    if stage.is_rational() {
        fractions_width(op, stage, width)
    } else {
        kept(&whole_width(stage.bits()))
    }
}

// Which values reach the cap after any of some operations that leaves fractions.
fn reached(ops: &[Op], stage: Stage, width: &Width) -> [bool; 4]
    requires typed { are_typed stage ops.now ≡ true }
    requires positive { 0 < width.now.denominator }
    requires small { width.now.denominator < 2 ^ 126 }
    ensures { result ≡ four (λ i. nat_le (2 ^ 126) (own_width_from stage ops.now width.now i)) }
{
    match ops {
        [] => [false; 4],
        [op, rest @ ..] => match width_after(op, stage, width) {
            Some(after) => {
                let next = op.stage_after(stage);
                let behind = reached(rest, next, &after);
                reached_by(next.is_rational(), &after.sizes, &behind)
            }
            None => [true; 4],
        },
    }
}

// The values that reach the cap here, where the values are fractions, or behind.
fn reached_by(rational: bool, sizes: &[u128; 4], behind: &[bool; 4]) -> [bool; 4]
    ensures { result ≡ four
        (λ i. rational && nat_le (2 ^ 126) (slice_index sizes.now i)
        || slice_index_or behind.now i false) }
{
    [
        rational && sizes[0] >= CAP || behind[0],
        rational && sizes[1] >= CAP || behind[1],
        rational && sizes[2] >= CAP || behind[2],
        rational && sizes[3] >= CAP || behind[3],
    ]
}

/// The lowest value, from 0 to 3, whose own width reaches 2^126, and None where all are below.
///
/// The own width of a value is the greatest of the common denominator and its numerator over it,
/// after any operation that leaves fractions. It takes no memory.
pub fn width_fault(list: &OpList) -> Option<u8>
    ensures none { (result ≡ None) ↔ (width list.now < 2 ^ 126) }
    ensures lowest { IfSome result (λ i. IsLowestTooWide list.now i) }
{
    let reached = reached(list.ops(), Stage::Start, &whole_width(0));
    first_true(&reached)
}

fn first_true(flags: &[bool; 4]) -> Option<u8>
    ensures { result ≡ first_true flags.now }
{
    if flags[0] {
        Some(0)
    } else if flags[1] {
        Some(1)
    } else if flags[2] {
        Some(2)
    } else if flags[3] {
        Some(3)
    } else {
        None
    }
}

/// Whether the width of the list is below 2^126. It takes no memory.
pub fn fits(list: &OpList) -> bool
    ensures { IsTrue result ↔ (width list.now < 2 ^ 126) }
{
    width_fault(list).is_none()
}
