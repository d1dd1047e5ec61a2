// Slices of rows that are converted, by the reference in exact fractions.
ghost use Rattle.std.specs.Prelude.{◌≤◌, IfSome};
ghost use Rattle.row_plan.specs.Evaluated.{IsPlannable, IsTableSide};

use crate::plan;
use colour_matrix::{Range, named};
use desc_table::{desc, find};
use pix_io::frame_len;
use pix_meaning::{Pair, Side};
use std::alloc::{AllocError, Global};
use std::test::Fail;

// A conversion of a slice: name, matrix and range of its sides, and the slice's first row, width
// and rows.
#[derive(Clone, Copy)]
struct Case<'a> {
    from: (&'a str, &'a str, Range),
    to: (&'a str, &'a str, Range),
    dither: u8,
    slice: (u32, u32, u32),
    input: &'a [u8],
    output: &'a [u8],
}

// A side of the table.
pub fn side_of(name: &str, matrix: &str, range: Range) -> Option<Side>
    ensures { IfSome result IsTableSide }
{
    let Ok(id) = find(name) else {
        return None;
    };
    let matrix = named(matrix)?;
    Some(Side {
        desc: desc(id),
        matrix,
        range,
    })
}

// The pair of two sides of the table.
pub fn pair_with(from: Side, to: Side, dither: u8) -> Option<Pair>
    requires from { IsTableSide from }
    requires to { IsTableSide to }
    ensures { IfSome result IsPlannable }
{
    if dither > 4 {
        None
    } else {
        Some(Pair { from, to, dither })
    }
}

// The target rows; none where the case is no conversion of a slice.
fn converted(
    alloc: Global,
    from: Side,
    to: Side,
    dither: u8,
    slice: (u32, u32, u32),
    input: &[u8],
) -> Result<Option<Vec<u8>>, AllocError>
    requires from { IsTableSide from }
    requires to { IsTableSide to }
{
    let (first, width, rows) = slice;
    if width > 16384 || rows > 16384 || first > 4294967295 - rows {
        return Ok(None);
    }
    let Some(pair) = pair_with(from, to, dither) else {
        return Ok(None);
    };
    let Ok(plan) = plan(alloc, &pair, 0) else {
        return Ok(None);
    };
    if input.len() as u64 != frame_len(&pair.from.desc, width, rows) {
        return Ok(None);
    }
    let len = frame_len(&pair.to.desc, width, rows);
    let mut output = vec![in alloc; 0xaa; len as usize]?;
    plan.convert_rows(first, width, rows, input, &mut output);
    Ok(Some(output))
}

fn converted_case(alloc: Global, case: &Case<'_>) -> Result<Option<Vec<u8>>, AllocError> {
    let Some(from) = side_of(case.from.0, case.from.1, case.from.2) else {
        return Ok(None);
    };
    let Some(to) = side_of(case.to.0, case.to.1, case.to.2) else {
        return Ok(None);
    };
    converted(alloc, from, to, case.dither, case.slice, case.input)
}

const CASES: [Case<'static>; 6] = [
    Case {
        from: ("gray16le", "bt601", Range::Full),
        to: ("gray", "bt601", Range::Full),
        dither: 1,
        slice: (0, 2, 1),
        input: &[0x00, 0x80, 0x00, 0x80],
        output: &[0x7f, 0x80],
    },
    Case {
        from: ("gray16le", "bt601", Range::Full),
        to: ("gray", "bt601", Range::Full),
        dither: 1,
        slice: (1, 2, 1),
        input: &[0x00, 0x80, 0x00, 0x80],
        output: &[0x80, 0x7f],
    },
    Case {
        from: ("rgb24", "bt601", Range::Full),
        to: ("yuv444p", "bt2020", Range::Limited),
        dither: 4,
        slice: (3, 3, 2),
        input: &[
            0xa5, 0x4d, 0xca, 0x18, 0x25, 0x30, 0xbb, 0x1d, 0x6d, 0x13, 0x2c, 0xde, 0xd6, 0x23,
            0x7b, 0x2e, 0xd9, 0x1e,
        ],
        output: &[
            0x6d, 0x2d, 0x51, 0x39, 0x5b, 0x9a, 0xad, 0x86, 0x90, 0xd1, 0x91, 0x43, 0xa3, 0x7a,
            0xc3, 0x6e, 0xcc, 0x3b,
        ],
    },
    Case {
        from: ("yuv444p10le", "bt709", Range::Limited),
        to: ("rgb565be", "bt601", Range::Full),
        dither: 3,
        slice: (6, 4, 1),
        input: &[
            0x3f, 0x72, 0x1f, 0xcb, 0x19, 0x71, 0x17, 0x44, 0x94, 0xd6, 0x49, 0x3c, 0x9d, 0x5c,
            0x34, 0x60, 0xbe, 0x31, 0x20, 0x1e, 0x69, 0xfe, 0xda, 0xa0,
        ],
        output: &[0x74, 0xbb, 0xe7, 0x40, 0x6a, 0x00, 0x01, 0xa0],
    },
    Case {
        from: ("nv24", "fcc", Range::Full),
        to: ("yuva444p16be", "smpte240m", Range::Limited),
        dither: 2,
        slice: (5, 2, 2),
        input: &[
            0xee, 0xe8, 0xb9, 0x99, 0x7f, 0x5c, 0x7c, 0x29, 0x99, 0xfd, 0xaf, 0xe5,
        ],
        output: &[
            0xe2, 0xb8, 0xe6, 0x9f, 0x97, 0x81, 0x7e, 0xb9, 0x7b, 0x9b, 0x73, 0xf6, 0xa2, 0x80,
            0xb3, 0xd5, 0x5f, 0xcf, 0x32, 0x22, 0xf0, 0xb7, 0xdc, 0x3c, 0xff, 0xff, 0xff, 0xff,
            0xff, 0xff, 0xff, 0xff,
        ],
    },
    Case {
        from: ("x2rgb10le", "bt601", Range::Full),
        to: ("ayuv64le", "bt709", Range::Full),
        dither: 1,
        slice: (4294967294, 1, 1),
        input: &[0x93, 0x25, 0x3c, 0xd6],
        output: &[0xff, 0xff, 0x3a, 0xa5, 0x4d, 0x5d, 0x7d, 0x4f],
    },
];

// Whether the plan of two sides of the table has its stamp and this text.
fn has_text(alloc: Global, from: Side, to: Side, dither: u8, text: &str) -> bool
    requires from { IsTableSide from }
    requires to { IsTableSide to }
{
    let Some(pair) = pair_with(from, to, dither) else {
        return false;
    };
    match plan(alloc, &pair, 7) {
        Ok(plan) => plan.stamp() == 7 && plan.text() == text,
        Err(_) => false,
    }
}

// Two formats, whose matrix is bt601 and whose luma and chroma are of full range, the dither and
// the text of their plan.
const TEXTS: [(&str, &str, u8, &str); 6] = [
    (
        "gray16le",
        "gray",
        0,
        "read u16 1 0 0 0\nconvert rat\nlinear 0: 1/257 0 0 0 0\ndither 0\nmin 0=255\n\
         convert u8\nwrite u8 1 0 0 0\n",
    ),
    (
        "rgb24",
        "bgr24",
        0,
        "read u8 3 0 0 0\nswizzle 2 1 0 3\nwrite u8 3 0 0 0\n",
    ),
    (
        "rgb24",
        "0rgb",
        4,
        "read u8 3 0 0 0\nswizzle 0 0 1 2\nclear 0=0\nwrite u8 4 0 0 0\n",
    ),
    (
        "gray",
        "gray16le",
        2,
        "read u8 1 0 0 0\nconvert u16 expand\nwrite u16 1 0 0 0\n",
    ),
    (
        "x2rgb10le",
        "rgb565be",
        3,
        "read u32 1 0 0 0\nunpack 2 10 10 10\nswizzle 1 2 3 3\nconvert rat\n\
         linear 0: 1/33 0 0 0 0; 1: 0 21/341 0 0 0; 2: 0 0 1/33 0 0\ndither 3\n\
         min 0=31 1=63 2=31\nconvert u16\npack 5 6 5 0\nswap\nwrite u16 1 0 0 0\n",
    ),
    (
        "pal8",
        "gray",
        0,
        "read pal8\nconvert rat\nlinear 0: 299/1000 587/1000 57/500 0 0\ndither 0\n\
         min 0=255\nconvert u8\nwrite u8 1 0 0 0\n",
    ),
];

#[test]
fn shows_normal_lists(rt: HostRuntime) -> Result<(), Fail> {
    for (from, to, dither, text) in TEXTS {
        let source = side_of(from, "bt601", Range::Full).ok_or("a side")?;
        let target = side_of(to, "bt601", Range::Full).ok_or("a side")?;
        assert!(rt;
            has_text(rt.alloc(), source, target, dither, text),
            "{from} {to}"
        );
    }
    Ok(())
}

#[test]
fn converts_slices_as_the_reference(rt: HostRuntime) -> Result<(), Fail> {
    for case in &CASES {
        let got = converted_case(rt.alloc(), case)?.ok_or("a slice")?;
        assert_eq!(rt; got.as_slice(), case.output, "{:?}", case.slice);
    }
    Ok(())
}

#[test]
fn converts_a_slice_by_its_palette(rt: HostRuntime) -> Result<(), Fail> {
    let mut input = vec![in rt.alloc(); 0u8; 1027]?;
    input[0..3].copy_from_slice(&[1, 2, 1]);
    input[7..15].copy_from_slice(&[0x10, 0x40, 0xff, 0x80, 0x77, 0x93, 0x21, 0x05]);
    let case = Case {
        from: ("pal8", "bt601", Range::Full),
        to: ("yuva444p", "bt709", Range::Limited),
        dither: 4,
        slice: (9, 1, 3),
        input: &input,
        output: &[
            0x67, 0x77, 0x67, 0x58, 0x7f, 0x58, 0xd6, 0x4f, 0xd6, 0x80, 0x05, 0x80,
        ],
    };
    let got = converted_case(rt.alloc(), &case)?.ok_or("a slice")?;
    assert_eq!(rt; got.as_slice(), case.output);
    Ok(())
}

#[test]
fn refuses_a_palette_target(rt: HostRuntime) -> Result<(), Fail> {
    let case = Case {
        from: ("gray", "bt601", Range::Full),
        to: ("pal8", "bt601", Range::Full),
        dither: 0,
        slice: (0, 1, 1),
        input: &[0],
        output: &[],
    };
    assert!(rt; converted_case(rt.alloc(), &case)?.is_none());
    Ok(())
}
