// How long lists are, which pairs have none, and one list as another program makes it from the same
// recipe.
use crate::{BuildFault, build};
use colour_matrix::{Matrix, Range};
use frac_math::Frac;
use op_list::{Op, PixType};
use pix_desc::{Comp, Desc};
use pix_meaning::{Pair, Side, pair_valid};
use std::alloc::Global;
use std::test::Fail;

// Offset, shift and depth of a component.
type Bits = (i8, u8, u8);

// A side of these components, with the matrix bt601 and a limited range.
fn side_of(
    count: u8,
    comps: [Comp; 4],
    be: bool,
    (rgb, alpha, palette): (bool, bool, bool),
) -> Side {
    Side {
        desc: Desc {
            count,
            comps,
            be,
            rgb,
            alpha,
            palette,
        },
        matrix: Matrix {
            q: 1000,
            r: 299,
            b: 114,
        },
        range: Range::Limited,
    }
}

// A format of bytes in one plane.
fn side(count: u8, rgb: bool, alpha: bool, palette: bool) -> Side {
    let at = |offset| Comp {
        plane: 0,
        step: count,
        offset,
        shift: 0,
        depth: 8,
    };
    side_of(
        count,
        [at(0), at(1), at(2), at(3)],
        false,
        (rgb, alpha, palette),
    )
}

// How many operations the list has; no answer where the pair is not valid.
fn list_length(alloc: Global, from: Side, to: Side) -> Option<Result<usize, BuildFault>> {
    let pair = Pair {
        from,
        to,
        dither: 0,
    };
    if !pair_valid(&pair) {
        return None;
    }
    match build(alloc, &pair) {
        Ok(list) => Some(Ok(list.ops().len())),
        Err(fault) => Some(Err(fault)),
    }
}

#[test]
fn lists(rt: HostRuntime) {
    let rgb24 = side(3, true, false, false);
    let gray = side(1, false, false, false);
    let pal8 = side(1, false, true, true);
    for (from, to, want) in [
        (rgb24, gray, Ok(17)),
        (rgb24, rgb24, Ok(16)),
        (pal8, gray, Ok(14)),
        (rgb24, pal8, Err(BuildFault::PaletteTarget)),
    ] {
        assert_eq!(rt; list_length(rt.alloc(), from, to), Some(want));
    }
}

// A format of one word: the bytes of a pixel, its byte order, and offset, shift and depth of red,
// green and blue.
fn word(step: u8, be: bool, red: Bits, green: Bits, blue: Bits) -> Side {
    let at = |(offset, shift, depth)| Comp {
        plane: 0,
        step,
        offset,
        shift,
        depth,
    };
    side_of(
        3,
        [at(red), at(green), at(blue), at((0, 0, 0))],
        be,
        (true, false, false),
    )
}

// n/d, which is there for small numbers.
fn fraction(n: i128, d: i128) -> Frac {
    Frac::new(n, d).unwrap_or(Frac::whole(0))
}

// A row with one coefficient.
fn row(lane: usize, coefficient: Frac) -> [Frac; 5] {
    let zero = Frac::whole(0);
    let at = |i| if i == lane { coefficient } else { zero };
    [at(0), at(1), at(2), at(3), zero]
}

// The operations from rgb565be to the values of its channels, and from these to x2rgb10le.
fn decoding() -> [Op; 7] {
    let thirty_first = fraction(1, 31);
    [
        Op::Read {
            elem: PixType::U16,
            planes: [1, 0, 0, 0],
            palette: false,
        },
        Op::SwapBytes,
        Op::Unpack {
            widths: [5, 6, 5, 0],
        },
        Op::Swizzle { from: [0, 1, 2, 3] },
        Op::Clear {
            values: [None, None, None, Some(Frac::whole(31))],
        },
        Op::Convert {
            to: PixType::Rat,
            expand: false,
        },
        Op::Linear {
            rows: [
                row(0, thirty_first),
                row(1, fraction(1, 63)),
                row(2, thirty_first),
                row(3, thirty_first),
            ],
        },
    ]
}

// A limit of red, green and blue.
fn limits(n: i128) -> [Option<Frac>; 4] {
    [
        Some(Frac::whole(n)),
        Some(Frac::whole(n)),
        Some(Frac::whole(n)),
        None,
    ]
}

fn encoding() -> [Op; 9] {
    [
        Op::Scale {
            by: Frac::whole(1023),
        },
        Op::Dither { k: 0 },
        Op::Max { limits: limits(0) },
        Op::Min {
            limits: limits(1023),
        },
        Op::Convert {
            to: PixType::U32,
            expand: false,
        },
        Op::Swizzle { from: [0, 0, 1, 2] },
        Op::Clear {
            values: [Some(Frac::whole(0)), None, None, None],
        },
        Op::Pack {
            widths: [2, 10, 10, 10],
        },
        Op::Write {
            elem: PixType::U32,
            planes: [1, 0, 0, 0],
        },
    ]
}

#[test]
fn list_between_words(rt: HostRuntime) -> Result<(), Fail> {
    let pair = Pair {
        from: word(2, true, (-1, 3, 5), (0, 5, 6), (0, 0, 5)),
        to: word(4, false, (2, 4, 10), (1, 2, 10), (0, 0, 10)),
        dither: 0,
    };
    if !pair_valid(&pair) {
        return Err(Fail::from("the pair is not valid"));
    }
    let list = build(rt.alloc(), &pair).ok().ok_or("a list")?;
    assert_eq!(rt; list.ops().len(), 16);
    assert_eq!(rt; &list.ops()[..7], decoding().as_slice());
    assert_eq!(rt; &list.ops()[7..], encoding().as_slice());
    Ok(())
}

// Numerator and denominator.
type Ratio = (i128, i128);

// Luma and chroma in three planes of little-endian numbers.
fn planar(step: u8, depth: u8, matrix: Matrix, range: Range) -> Side {
    let at = |plane| Comp {
        plane,
        step,
        offset: 0,
        shift: 0,
        depth,
    };
    let side = side_of(
        3,
        [at(0), at(1), at(2), at(0)],
        false,
        (false, false, false),
    );
    Side {
        desc: side.desc,
        matrix,
        range,
    }
}

// A row with one coefficient and a constant.
fn row_with(lane: usize, (n, d): Ratio, (m, e): Ratio) -> [Frac; 5] {
    let [a, b, c, alpha, _] = row(lane, fraction(n, d));
    [a, b, c, alpha, fraction(m, e)]
}

// Luma, two chromas and alpha, each with its coefficient and its constant.
fn by_levels(luma: (Ratio, Ratio), chroma: (Ratio, Ratio), alpha: Ratio) -> Op {
    Op::Linear {
        rows: [
            row_with(0, luma.0, luma.1),
            row_with(1, chroma.0, chroma.1),
            row_with(2, chroma.0, chroma.1),
            row_with(3, alpha, (0, 1)),
        ],
    }
}

fn row_of_three(a: Ratio, b: Ratio, c: Ratio) -> [Frac; 5] {
    let zero = Frac::whole(0);
    [
        fraction(a.0, a.1),
        fraction(b.0, b.1),
        fraction(c.0, c.1),
        zero,
        zero,
    ]
}

// The operations from yuv444p10le, limited, to the values of its channels.
fn planar_decoding() -> [Op; 7] {
    [
        Op::Read {
            elem: PixType::U16,
            planes: [1, 1, 1, 0],
            palette: false,
        },
        Op::LeftShift { n: 6 },
        Op::RightShift { n: 6 },
        Op::Swizzle { from: [0, 1, 2, 3] },
        Op::Clear {
            values: [None, None, None, Some(Frac::whole(1023))],
        },
        Op::Convert {
            to: PixType::Rat,
            expand: false,
        },
        by_levels(((1, 876), (-16, 219)), ((1, 896), (-4, 7)), (1, 1023)),
    ]
}

// From luma and chroma by bt2020 to red, green and blue, and from these to luma and chroma by
// bt709.
fn between_matrices() -> [Op; 2] {
    let alpha = row(3, Frac::whole(1));
    [
        Op::Linear {
            rows: [
                row_of_three((1, 1), (0, 1), (7373, 5000)),
                row_of_three((1, 1), (-5578351, 33900000), (-19368871, 33900000)),
                row_of_three((1, 1), (9407, 5000), (0, 1)),
                alpha,
            ],
        },
        Op::Linear {
            rows: [
                row_of_three((1063, 5000), (447, 625), (361, 5000)),
                row_of_three((-1063, 9278), (-1788, 4639), (1, 2)),
                row_of_three((1, 2), (-1788, 3937), (-361, 7874)),
                alpha,
            ],
        },
    ]
}

// From the values to yuv444p, full, with the greatest dither.
fn planar_encoding() -> [Op; 9] {
    [
        by_levels(((255, 1), (0, 1)), ((255, 1), (128, 1)), (255, 1)),
        Op::Dither { k: 4 },
        Op::Max { limits: limits(0) },
        Op::Min {
            limits: limits(255),
        },
        Op::Convert {
            to: PixType::U8,
            expand: false,
        },
        Op::Swizzle { from: [0, 1, 2, 3] },
        Op::Clear { values: [None; 4] },
        Op::LeftShift { n: 0 },
        Op::Write {
            elem: PixType::U8,
            planes: [1, 1, 1, 0],
        },
    ]
}

#[test]
fn list_between_matrices_and_ranges(rt: HostRuntime) -> Result<(), Fail> {
    let bt2020 = Matrix {
        q: 10000,
        r: 2627,
        b: 593,
    };
    let bt709 = Matrix {
        q: 10000,
        r: 2126,
        b: 722,
    };
    let pair = Pair {
        from: planar(2, 10, bt2020, Range::Limited),
        to: planar(1, 8, bt709, Range::Full),
        dither: 4,
    };
    if !pair_valid(&pair) {
        return Err(Fail::from("the pair is not valid"));
    }
    let list = build(rt.alloc(), &pair).ok().ok_or("a list")?;
    assert_eq!(rt; list.ops().len(), 18);
    assert_eq!(rt; &list.ops()[..7], planar_decoding().as_slice());
    assert_eq!(rt; &list.ops()[7..9], between_matrices().as_slice());
    assert_eq!(rt; &list.ops()[9..], planar_encoding().as_slice());
    Ok(())
}
