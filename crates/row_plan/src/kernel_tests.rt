// Kernels of pairs of the table, against the evaluation of the recipe at each pixel.
ghost use Rattle.std.specs.Prelude.{◌≡◌, ◌≤◌, ◌<◌, false, true, length, IfSome};
ghost use Rattle.pix_desc.specs.Frame.{frame_length};
ghost use Rattle.op_list.specs.Typing.{ends_with_write};
ghost use Rattle.op_build.specs.Recipe.{recipe};
ghost use Rattle.row_plan.specs.Evaluated.{IsPlannable};

use crate::plan;
use crate::tests::{pair_with, side_of};
use colour_matrix::Range;
use op_build::{build, element_type};
use op_list::{OpList, PixelPosition, store_elements};
use pix_desc::element_counts;
use pix_io::frame_len;
use pix_meaning::Pair;
use std::alloc::{AllocError, Global};
use std::test::Fail;

// Name, matrix and range of both sides, and the dither. Their lists have every operation, and their
// kernels whole numbers of 8, 16 and 32 bits, and numerators of 32, 64 and 128.
pub type Conversion = (
    (&'static str, &'static str, Range),
    (&'static str, &'static str, Range),
    u8,
);

const CONVERSIONS: [Conversion; 13] = [
    (
        ("yuv444p10le", "bt709", Range::Limited),
        ("rgb24", "bt709", Range::Full),
        0,
    ),
    (
        ("yuva444p16le", "bt709", Range::Full),
        ("p412be", "bt2020", Range::Limited),
        4,
    ),
    (
        ("rgb48be", "bt601", Range::Full),
        ("rgb565le", "bt601", Range::Full),
        2,
    ),
    (
        ("rgb24", "bt601", Range::Full),
        ("yuv444p", "bt601", Range::Limited),
        0,
    ),
    (
        ("yuv444p10be", "bt709", Range::Limited),
        ("x2bgr10be", "bt601", Range::Full),
        3,
    ),
    (
        ("pal8", "bt601", Range::Full),
        ("yuva444p16le", "fcc", Range::Limited),
        0,
    ),
    (
        ("gray", "bt601", Range::Full),
        ("gray16be", "bt601", Range::Full),
        0,
    ),
    (
        ("bgra64le", "bt601", Range::Full),
        ("rgb48be", "bt601", Range::Full),
        0,
    ),
    (
        ("x2rgb10be", "bt601", Range::Full),
        ("gbrap14le", "bt601", Range::Full),
        0,
    ),
    (
        ("gray10le", "bt601", Range::Full),
        ("yuv444p12be", "bt601", Range::Limited),
        1,
    ),
    (
        ("rgb4_byte", "bt601", Range::Full),
        ("nv42", "smpte240m", Range::Full),
        1,
    ),
    (
        ("ayuv64be", "bt2020", Range::Limited),
        ("vuyx", "bt709", Range::Full),
        4,
    ),
    (
        ("p410le", "bt601", Range::Limited),
        ("gbrp9be", "bt601", Range::Full),
        0,
    ),
];

// The pair of a conversion.
pub fn pair_of(conversion: &Conversion) -> Option<Pair>
    ensures { IfSome result IsPlannable }
{
    let (source, target, dither) = *conversion;
    let from = side_of(source.0, source.1, source.2)?;
    let to = side_of(target.0, target.1, target.2)?;
    pair_with(from, to, dither)
}

// Fills bytes with numbers from a seed.
pub fn fill(bytes: &mut [u8], seed: u32)
    ensures { length bytes.new ≡ length bytes.old }
{
    let mut state = seed;
    for byte in bytes.iter_mut() {
        state = state.wrapping_mul(1_664_525).wrapping_add(1_013_904_223);
        *byte = (state >> 24) as u8;
    }
}

// Stores the elements of a pixel by the recipe of a pair.
fn store_pixel(
    list: &OpList,
    pair: &Pair,
    input: &[u8],
    position: &PixelPosition,
    output: &mut [u8],
) -> bool
    requires list { list.now ≡ recipe pair.now }
    requires whole { ends_with_write list.now ≡ true }
    requires pair { IsPlannable pair.now }
    requires plain { pair.now.to.desc.palette ≡ false }
    requires column { position.now.x < position.now.width }
    requires row { position.now.row < position.now.rows }
    requires input { length input.now
        ≡ frame_length pair.now.from.desc position.now.width position.now.rows }
    requires output { length output.old
        ≡ frame_length pair.now.to.desc position.now.width position.now.rows }
    ensures { length output.new ≡ length output.old }
{
    let PixelPosition {
        width,
        rows,
        x,
        row,
        y,
    } = *position;
    let Some(numbers) = list.run_pixel(input, width, rows, x, row, y) else {
        return false;
    };
    let elem = element_type(&pair.to.desc);
    let planes = element_counts(&pair.to.desc);
    store_elements(elem, &planes, &numbers, position, output);
    true
}

// The same for the pixels of a row of two, where the dither goes by the rows from 5 on.
fn store_row(
    list: &OpList,
    pair: &Pair,
    input: &[u8],
    width: u32,
    row: u32,
    output: &mut [u8],
) -> bool
    requires list { list.now ≡ recipe pair.now }
    requires whole { ends_with_write list.now ≡ true }
    requires pair { IsPlannable pair.now }
    requires plain { pair.now.to.desc.palette ≡ false }
    requires row { row < 2 }
    requires input { length input.now ≡ frame_length pair.now.from.desc width 2 }
    requires output { length output.old ≡ frame_length pair.now.to.desc width 2 }
    ensures { length output.new ≡ length output.old }
{
    for x in 0..width {
        let position = PixelPosition {
            width,
            rows: 2,
            x,
            row,
            y: 5 + row,
        };
        if !store_pixel(list, pair, input, &position, output) {
            return false;
        }
    }
    true
}

// Whether the plan of a pair converts two rows as the recipe is evaluated.
fn agrees(alloc: Global, pair: &Pair, width: u32) -> Result<bool, AllocError>
    requires pair { IsPlannable pair.now }
    requires width { width ≤ 16384 }
{
    if pair.to.desc.palette {
        return Ok(false);
    }
    let (Ok(plan), Ok(list)) = (plan(alloc, pair, 0), build(alloc, pair)) else {
        return Ok(false);
    };
    let mut input = vec![in alloc; 0; frame_len(&pair.from.desc, width, 2) as usize]?;
    fill(&mut input, width);
    let size = frame_len(&pair.to.desc, width, 2) as usize;
    let mut converted = vec![in alloc; 0xaa; size]?;
    let mut wanted = vec![in alloc; 0x55; size]?;
    plan.convert_rows(5, width, 2, &input, &mut converted);
    Ok(
        store_row(&list, pair, &input, width, 0, &mut wanted)
            && store_row(&list, pair, &input, width, 1, &mut wanted)
            && converted == wanted,
    )
}

// The same in rows of one pixel, and of a block, less and more.
fn agrees_in_all_widths(alloc: Global, pair: &Pair) -> Result<bool, AllocError>
    requires { IsPlannable pair.now }
{
    for width in [1, 63, 64, 65, 130] {
        if !agrees(alloc, pair, width)? {
            return Ok(false);
        }
    }
    Ok(true)
}

#[test]
fn kernels_agree_with_the_evaluation(rt: HostRuntime) -> Result<(), Fail> {
    for conversion in &CONVERSIONS {
        let pair = pair_of(conversion).ok_or("a pair")?;
        assert!(rt;
            agrees_in_all_widths(rt.alloc(), &pair)?,
            "{:?}",
            conversion.1
        );
    }
    Ok(())
}
