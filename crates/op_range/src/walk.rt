ghost use Rattle.std.specs.Prelude.{◌≡◌, ◌<◌, ◌≤◌, ◌||◌, if◌then◌else◌, sum, slice_index, nat_lt};
ghost use Rattle.std.specs.Prelude.{All, true, [], ◌∷◌};
ghost use Rattle.op_list.specs.Values.{four, entry};
ghost use Rattle.op_list.specs.Apply.{row_of};
ghost use Rattle.op_list.specs.Types.{bits};
ghost use Rattle.op_list.specs.Typing.{may_follow, are_good};
ghost use Rattle.op_range.specs.Ranges.{range as range_with, ranges_after, start_ranges, full};
ghost use Rattle.op_range.specs.Ranges.{only_zero, swapped_range, left_range, right_range};
ghost use Rattle.op_range.specs.Ranges.{converted_range, dithered_range, scaled_range, row_range};
ghost use Rattle.op_range.specs.Ranges.{range_at_most, range_at_least, cleared_range, range_in};

use crate::fractions::{cleared, dithered, limited_above, limited_below, mapped, scaled};
use crate::numbers::{as_whole, from_to, full, shifted_left, shifted_right, swapped};
use crate::range::{Ranges, ValueRange};
use frac_math::Frac;
use op_list::{Op, PixType, Stage, total};

fn read(elem: PixType, planes: &[u8; 4], palette: bool) -> Ranges
    ensures { result ≡ four
        (λ i. if palette || nat_lt i (sum planes.now) then full (bits elem) else only_zero) }
{
    let count = total(planes);
    let full = full(elem.bits());
    [
        full_where(palette || 0 < count, &full),
        full_where(palette || 1 < count, &full),
        full_where(palette || 2 < count, &full),
        full_where(palette || 3 < count, &full),
    ]
}

fn full_where(there: bool, full: &ValueRange) -> ValueRange
    ensures { result ≡ (if there then full.now else only_zero) }
{
    if there { *full } else { from_to(0, 0) }
}

fn written(range: &ValueRange) -> ValueRange
    ensures { result ≡ range_with range.now.least range.now.greatest true }
{
    ValueRange {
        least: range.least,
        greatest: range.greatest,
        whole: true,
    }
}

fn converted(range: &ValueRange, to: PixType, expand: bool, rational: bool) -> ValueRange
    ensures { result ≡ converted_range to expand rational range.now }
{
    match to {
        PixType::Rat => ValueRange {
            least: range.least,
            greatest: range.greatest,
            whole: range.whole || !rational,
        },
        PixType::U8 => as_whole(range, 8, expand, rational),
        PixType::U16 => as_whole(range, 16, expand, rational),
        PixType::U32 => as_whole(range, 32, expand, rational),
    }
}

/// The ranges after an operation that may follow, with good arguments.
#[tactic(auto, unfolding(crate::specs::Ranges::ranges_after))]
pub fn ranges_after(op: &Op, stage: Stage, ranges: &Ranges) -> Ranges
    requires follows { may_follow stage op.now ≡ true }
    requires good { are_good stage op.now ≡ true }
    ensures { result ≡ ranges_after stage op.now ranges.now }
{
    match op {
        Op::Read {
            elem,
            planes,
            palette,
        } => read(*elem, planes, *palette),
        Op::Write { .. } => all_written(ranges),
        Op::SwapBytes => all_swapped(ranges, stage.bits()),
        Op::Unpack { widths } => unpacked(widths),
        Op::Pack { widths } => packed(widths),
        Op::Clear { values } => all_cleared(ranges, values),
        Op::LeftShift { n } => all_shifted_left(ranges, *n, stage.bits()),
        Op::RightShift { n } => all_shifted_right(ranges, *n),
        Op::Swizzle { from } => swizzled(ranges, from),
        Op::Convert { to, expand } => all_converted(ranges, *to, *expand, stage.is_rational()),
        Op::Dither { k } => all_dithered(ranges, *k),
        Op::Linear { rows } => all_mapped(ranges, rows),
        Op::Scale { by } => all_scaled(ranges, by),
        Op::Min { limits } => all_limited_above(ranges, limits),
        Op::Max { limits } => all_limited_below(ranges, limits),
    }
}

/// The ranges before a Read: all values are 0.
pub fn start_ranges() -> Ranges
    ensures { result ≡ start_ranges }
{
    [from_to(0, 0), from_to(0, 0), from_to(0, 0), from_to(0, 0)]
}

fn all_written(ranges: &Ranges) -> Ranges
    ensures { result ≡ four
        (λ i. range_with (range_in ranges.now i).least (range_in ranges.now i).greatest true) }
{
    [
        written(&ranges[0]),
        written(&ranges[1]),
        written(&ranges[2]),
        written(&ranges[3]),
    ]
}

fn all_swapped(ranges: &Ranges, bits: u32) -> Ranges
    requires { bits ≤ 32 }
    ensures { result ≡ four (λ i. swapped_range bits (range_in ranges.now i)) }
{
    [
        swapped(&ranges[0], bits),
        swapped(&ranges[1], bits),
        swapped(&ranges[2], bits),
        swapped(&ranges[3], bits),
    ]
}

fn all_cleared(ranges: &Ranges, entries: &[Option<Frac>; 4]) -> Ranges
    ensures { result ≡ four (λ i. cleared_range (entry entries.now i) (range_in ranges.now i)) }
{
    [
        cleared(&ranges[0], &entries[0]),
        cleared(&ranges[1], &entries[1]),
        cleared(&ranges[2], &entries[2]),
        cleared(&ranges[3], &entries[3]),
    ]
}

fn all_shifted_left(ranges: &Ranges, n: u8, bits: u32) -> Ranges
    requires bits { bits ≤ 32 }
    requires n { n < bits }
    ensures { result ≡ four (λ i. left_range bits n (range_in ranges.now i)) }
{
    [
        shifted_left(&ranges[0], n, bits),
        shifted_left(&ranges[1], n, bits),
        shifted_left(&ranges[2], n, bits),
        shifted_left(&ranges[3], n, bits),
    ]
}

fn all_shifted_right(ranges: &Ranges, n: u8) -> Ranges
    requires { n < 32 }
    ensures { result ≡ four (λ i. right_range n (range_in ranges.now i)) }
{
    [
        shifted_right(&ranges[0], n),
        shifted_right(&ranges[1], n),
        shifted_right(&ranges[2], n),
        shifted_right(&ranges[3], n),
    ]
}

fn all_converted(ranges: &Ranges, to: PixType, expand: bool, rational: bool) -> Ranges
    ensures { result ≡ four (λ i. converted_range to expand rational (range_in ranges.now i)) }
{
    [
        converted(&ranges[0], to, expand, rational),
        converted(&ranges[1], to, expand, rational),
        converted(&ranges[2], to, expand, rational),
        converted(&ranges[3], to, expand, rational),
    ]
}

fn all_dithered(ranges: &Ranges, k: u8) -> Ranges
    requires { k ≤ 4 }
    ensures { result ≡ four (λ i. dithered_range k (range_in ranges.now i)) }
{
    [
        dithered(&ranges[0], k),
        dithered(&ranges[1], k),
        dithered(&ranges[2], k),
        dithered(&ranges[3], k),
    ]
}

fn all_mapped(ranges: &Ranges, rows: &[[Frac; 5]; 4]) -> Ranges
    ensures { result ≡ four (λ i. row_range (row_of rows.now i) ranges.now) }
{
    [
        mapped(&rows[0], ranges),
        mapped(&rows[1], ranges),
        mapped(&rows[2], ranges),
        mapped(&rows[3], ranges),
    ]
}

fn all_scaled(ranges: &Ranges, by: &Frac) -> Ranges
    ensures { result ≡ four (λ i. scaled_range by.now (range_in ranges.now i)) }
{
    [
        scaled(&ranges[0], by),
        scaled(&ranges[1], by),
        scaled(&ranges[2], by),
        scaled(&ranges[3], by),
    ]
}

fn all_limited_above(ranges: &Ranges, limits: &[Option<Frac>; 4]) -> Ranges
    ensures { result ≡ four (λ i. range_at_most (entry limits.now i) (range_in ranges.now i)) }
{
    [
        limited_above(&ranges[0], &limits[0]),
        limited_above(&ranges[1], &limits[1]),
        limited_above(&ranges[2], &limits[2]),
        limited_above(&ranges[3], &limits[3]),
    ]
}

fn all_limited_below(ranges: &Ranges, limits: &[Option<Frac>; 4]) -> Ranges
    ensures { result ≡ four (λ i. range_at_least (entry limits.now i) (range_in ranges.now i)) }
{
    [
        limited_below(&ranges[0], &limits[0]),
        limited_below(&ranges[1], &limits[1]),
        limited_below(&ranges[2], &limits[2]),
        limited_below(&ranges[3], &limits[3]),
    ]
}

fn unpacked(widths: &[u8; 4]) -> Ranges
    requires { sum widths.now ≤ 32 }
    ensures { result ≡ four (λ i. full (slice_index widths.now i)) }
{
    let [first, second, third, fourth] = *widths;
    [
        full(u32::from(first)),
        full(u32::from(second)),
        full(u32::from(third)),
        full(u32::from(fourth)),
    ]
}

fn packed(widths: &[u8; 4]) -> Ranges
    requires { sum widths.now ≤ 32 }
    ensures { result ≡ full (sum widths.now) ∷ only_zero ∷ only_zero ∷ only_zero ∷ [] }
{
    [
        full(total(widths)),
        from_to(0, 0),
        from_to(0, 0),
        from_to(0, 0),
    ]
}

fn swizzled(ranges: &Ranges, from: &[u8; 4]) -> Ranges
    requires { All (λ i. i < 4) from.now }
    ensures { result ≡ four (λ i. range_in ranges.now (slice_index from.now i)) }
{
    [
        ranges[usize::from(from[0])],
        ranges[usize::from(from[1])],
        ranges[usize::from(from[2])],
        ranges[usize::from(from[3])],
    ]
}
