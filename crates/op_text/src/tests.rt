// Texts worked out by hand.
use crate::print;
use frac_math::Frac;
use op_list::{Op, OpList, PixType, PushFault};
use std::alloc::Global;

fn list_of(alloc: Global, ops: &[Op]) -> Result<OpList, PushFault> {
    let mut list = OpList::new(alloc);
    for op in ops {
        list.push(*op)?;
    }
    Ok(list)
}

// Whether the list of these operations can be made, and has this text.
fn has_text(alloc: Global, ops: &[Op], wanted: &str) -> bool {
    let Ok(list) = list_of(alloc, ops) else {
        return false;
    };
    match print(alloc, &list) {
        Ok(text) => text.as_str() == wanted,
        Err(_) => false,
    }
}

fn fraction(num: i128, den: i128) -> Frac {
    Frac::new(num, den).unwrap_or(Frac::whole(0))
}

fn read(elem: PixType, planes: [u8; 4]) -> Op {
    Op::Read {
        elem,
        planes,
        palette: false,
    }
}

fn convert(to: PixType, expand: bool) -> Op {
    Op::Convert { to, expand }
}

// Some(n/d) at the places that are given.
fn entries(first: Option<Frac>, last: Option<Frac>) -> [Option<Frac>; 4] {
    [first, None, None, last]
}

// The map that gives all values back.
fn identity() -> [[Frac; 5]; 4] {
    let (zero, one) = (Frac::whole(0), Frac::whole(1));
    [
        [one, zero, zero, zero, zero],
        [zero, one, zero, zero, zero],
        [zero, zero, one, zero, zero],
        [zero, zero, zero, one, zero],
    ]
}

#[test]
fn shows_sixteen_bits_to_eight(rt: HostRuntime) {
    let mut rows = identity();
    rows[0][0] = fraction(1, 257);
    let ops = [
        read(PixType::U16, [1, 0, 0, 0]),
        convert(PixType::Rat, false),
        Op::Linear { rows },
        Op::Dither { k: 0 },
        Op::Min {
            limits: entries(Some(Frac::whole(255)), None),
        },
        convert(PixType::U8, false),
        Op::Write {
            elem: PixType::U8,
            planes: [1, 0, 0, 0],
        },
    ];
    let wanted = "read u16 1 0 0 0\nconvert rat\nlinear 0: 1/257 0 0 0 0\ndither 0\n\
         min 0=255\nconvert u8\nwrite u8 1 0 0 0\n";
    assert!(rt; has_text(rt.alloc(), &ops, wanted));
}

#[test]
fn shows_whole_numbers(rt: HostRuntime) {
    let ops = [
        read(PixType::U16, [1, 2, 0, 0]),
        Op::SwapBytes,
        Op::LeftShift { n: 6 },
        Op::RightShift { n: 0 },
        Op::Unpack {
            widths: [5, 6, 5, 0],
        },
        Op::Swizzle { from: [2, 1, 0, 3] },
        Op::Clear {
            values: entries(Some(Frac::whole(0)), Some(Frac::whole(65535))),
        },
        Op::Clear {
            values: entries(None, None),
        },
        Op::Pack {
            widths: [2, 10, 4, 0],
        },
        convert(PixType::U32, false),
        Op::Write {
            elem: PixType::U32,
            planes: [4, 0, 0, 0],
        },
    ];
    let wanted = "read u16 1 2 0 0\nswap\nlshift 6\nrshift 0\nunpack 5 6 5 0\n\
         swizzle 2 1 0 3\nclear 0=0 3=65535\nclear\npack 2 10 4 0\nconvert u32\n\
         write u32 4 0 0 0\n";
    assert!(rt; has_text(rt.alloc(), &ops, wanted));
}

#[test]
fn shows_fractions_and_rows(rt: HostRuntime) {
    let mut rows = identity();
    rows[0][0] = fraction(1, 257);
    rows[2] = [
        Frac::whole(1),
        Frac::whole(0),
        Frac::whole(1),
        Frac::whole(0),
        Frac::whole(-5),
    ];
    let ops = [
        Op::Read {
            elem: PixType::U8,
            planes: [1, 0, 0, 0],
            palette: true,
        },
        convert(PixType::U16, true),
        convert(PixType::Rat, false),
        Op::Linear { rows },
        Op::Linear { rows: identity() },
        Op::Scale {
            by: fraction(-1, 257),
        },
        Op::Max {
            limits: entries(Some(fraction(-7, 2)), Some(Frac::whole(-1))),
        },
    ];
    let wanted = "read pal8\nconvert u16 expand\nconvert rat\n\
         linear 0: 1/257 0 0 0 0; 2: 1 0 1 0 -5\nlinear\nscale -1/257\n\
         max 0=-7/2 3=-1\n";
    assert!(rt; has_text(rt.alloc(), &ops, wanted));
}
