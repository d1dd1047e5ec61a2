// A row that is converted in the rows of its planes, against the same as a slice.
ghost use Rattle.std.specs.Prelude.{◌≡◌, ◌<◌, ◌≤◌, length};
ghost use Rattle.pix_desc.specs.Layouts.{IsValid};
ghost use Rattle.pix_desc.specs.Frame.{frame_length, row_length};
ghost use Rattle.row_plan.specs.Evaluated.{IsPlannable};

use crate::kernel_tests::{Conversion, fill, pair_of};
use crate::plans::Plan;
use crate::{Planes, plan};
use colour_matrix::Range;
use pix_desc::Desc;
use pix_io::{frame_len, row_start};
use pix_meaning::Pair;
use std::alloc::{AllocError, Global};
use std::test::Fail;

// A palette and four planes, and two planes and three.
const CONVERSIONS: [Conversion; 2] = [
    (
        ("pal8", "bt601", Range::Full),
        ("yuva444p16le", "fcc", Range::Limited),
        2,
    ),
    (
        ("p412be", "bt2020", Range::Limited),
        ("gbrp9be", "bt601", Range::Full),
        4,
    ),
];

// The bytes of a row of a plane: the way from one row of two to the other.
#[tactic(auto, unfolding(pix_desc::specs::Frame::row_start))]
fn row_len(desc: &Desc, width: u32, plane: u8) -> usize
    requires valid { IsValid desc.now }
    requires width { width ≤ 16384 }
    requires plane { plane < 4 }
    ensures { result ≡ row_length desc.now width plane }
{
    (row_start(desc, width, 2, plane, 1) - row_start(desc, width, 2, plane, 0)) as usize
}

// Converts a row by the parts of its frames.
#[tactic(auto, unfolding(pix_desc::specs::Frame::frame_length))]
fn convert_parts(plan: &Plan, pair: &Pair, width: u32, input: &[u8], output: &mut [u8])
    requires plan { plan.now.pair ≡ pair.now }
    requires pair { IsPlannable pair.now }
    requires width { width ≤ 16384 }
    requires input { length input.now ≡ frame_length pair.now.from.desc width 1 }
    requires output { length output.old ≡ frame_length pair.now.to.desc width 1 }
    ensures { length output.new ≡ length output.old }
{
    let desc = &pair.from.desc;
    let (first, rest) = input.split_at(row_len(desc, width, 0));
    let (second, rest) = rest.split_at(row_len(desc, width, 1));
    let (third, rest) = rest.split_at(row_len(desc, width, 2));
    let (fourth, palette) = rest.split_at(row_len(desc, width, 3));
    let planes = Planes {
        first,
        second,
        third,
        fourth,
        palette,
    };
    let desc = &pair.to.desc;
    let (first, rest) = output.split_at_mut(row_len(desc, width, 0));
    let (second, rest) = rest.split_at_mut(row_len(desc, width, 1));
    let (third, fourth) = rest.split_at_mut(row_len(desc, width, 2));
    plan.convert_planes(5, width, &planes, first, second, third, fourth);
}

// Whether the plan of a pair converts the parts of a row as the slice of that row.
fn agrees(alloc: Global, pair: &Pair, width: u32) -> Result<bool, AllocError>
    requires pair { IsPlannable pair.now }
    requires width { width ≤ 16384 }
{
    let Ok(plan) = plan(alloc, pair, 0) else {
        return Ok(false);
    };
    let mut input = vec![in alloc; 0; frame_len(&pair.from.desc, width, 1) as usize]?;
    fill(&mut input, width);
    let size = frame_len(&pair.to.desc, width, 1) as usize;
    let mut converted = vec![in alloc; 0xaa; size]?;
    let mut wanted = vec![in alloc; 0x55; size]?;
    convert_parts(&plan, pair, width, &input, &mut converted);
    plan.convert_rows(5, width, 1, &input, &mut wanted);
    Ok(converted == wanted)
}

#[test]
fn planes_agree_with_slices(rt: HostRuntime) -> Result<(), Fail> {
    for conversion in &CONVERSIONS {
        let pair = pair_of(conversion).ok_or("a pair")?;
        for width in [1, 65] {
            assert!(rt;
                agrees(rt.alloc(), &pair, width)?,
                "{:?} {width}",
                conversion.1
            );
        }
    }
    Ok(())
}
