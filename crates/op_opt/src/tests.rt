// Normal lists from outside: those that another program's passes leave of the same lists.
use crate::optimise;
use frac_math::Frac;
use op_list::{Op, OpList, PixType, PushFault};
use std::alloc::Global;

fn list_of(alloc: Global, ops: &[Op]) -> Result<OpList, PushFault> {
    let mut list = OpList::new(alloc);
    for op in ops {
        list.push(*op)?;
    }
    Ok(list)
}

// Whether the normal list of a list is this one.
fn becomes(alloc: Global, ops: &[Op], want: &[Op]) -> bool {
    let Ok(list) = list_of(alloc, ops) else {
        return false;
    };
    if !list.whole() {
        return false;
    }
    match optimise(alloc, list) {
        Ok(normal) => *normal.list().ops() == *want,
        Err(_) => false,
    }
}

// Whether a list is normal.
fn stays(alloc: Global, ops: &[Op]) -> bool {
    becomes(alloc, ops, ops)
}

fn whole(n: i128) -> Frac {
    Frac::whole(n)
}

fn over(num: i128, den: i128) -> Frac {
    match Frac::new(num, den) {
        Some(value) => value,
        None => Frac::whole(0),
    }
}

fn read(elem: PixType, count: u8) -> Op {
    Op::Read {
        elem,
        planes: [count, 0, 0, 0],
        palette: false,
    }
}

fn write(elem: PixType, count: u8) -> Op {
    Op::Write {
        elem,
        planes: [count, 0, 0, 0],
    }
}

fn convert(to: PixType) -> Op {
    Op::Convert { to, expand: false }
}

fn expand() -> Op {
    Op::Convert {
        to: PixType::U16,
        expand: true,
    }
}

fn swizzle(from: [u8; 4]) -> Op {
    Op::Swizzle { from }
}

fn scale(by: Frac) -> Op {
    Op::Scale { by }
}

fn clear(values: [Option<Frac>; 4]) -> Op {
    Op::Clear { values }
}

fn min(limits: [Option<Frac>; 4]) -> Op {
    Op::Min { limits }
}

fn max(limits: [Option<Frac>; 4]) -> Op {
    Op::Max { limits }
}

fn row(coefficients: [i128; 4], constant: Frac) -> [Frac; 5] {
    let [a, b, c, d] = coefficients;
    [whole(a), whole(b), whole(c), whole(d), constant]
}

// Rows other than the identity's for values 0 and 1.
fn linear(first: [Frac; 5], second: [Frac; 5]) -> Op {
    Op::Linear {
        rows: [
            first,
            second,
            row([0, 0, 1, 0], whole(0)),
            row([0, 0, 0, 1], whole(0)),
        ],
    }
}

#[test]
fn drops_idle_operations(rt: HostRuntime) {
    let ops = [
        read(PixType::U8, 2),
        Op::LeftShift { n: 0 },
        Op::RightShift { n: 0 },
        convert(PixType::U8),
        clear([None, None, None, None]),
        swizzle([0, 1, 3, 2]),
        write(PixType::U8, 2),
    ];
    let want = [read(PixType::U8, 2), write(PixType::U8, 2)];
    assert!(rt; becomes(rt.alloc(), &ops, &want));
    let ops = [
        read(PixType::U8, 2),
        convert(PixType::Rat),
        scale(whole(2)),
        scale(whole(1)),
        min([None, None, None, None]),
        max([None, None, None, None]),
        convert(PixType::Rat),
        Op::Linear {
            rows: [
                row([1, 0, 0, 0], whole(0)),
                row([0, 1, 0, 0], whole(0)),
                row([0, 0, 0, 0], whole(9)),
                row([0, 0, 0, 1], whole(0)),
            ],
        },
        convert(PixType::U16),
        write(PixType::U16, 2),
    ];
    let want = [
        read(PixType::U8, 2),
        convert(PixType::Rat),
        scale(whole(2)),
        convert(PixType::U16),
        write(PixType::U16, 2),
    ];
    assert!(rt; becomes(rt.alloc(), &ops, &want));
    let ops = [
        read(PixType::U8, 2),
        Op::LeftShift { n: 1 },
        write(PixType::U8, 2),
    ];
    assert!(rt; stays(rt.alloc(), &ops));
    let ops = [
        read(PixType::U8, 3),
        swizzle([0, 1, 3, 2]),
        write(PixType::U8, 3),
    ];
    let want = [
        read(PixType::U8, 3),
        swizzle([0, 1, 3, 3]),
        write(PixType::U8, 3),
    ];
    assert!(rt; becomes(rt.alloc(), &ops, &want));
    let ops = [
        read(PixType::U8, 1),
        convert(PixType::U16),
        write(PixType::U16, 1),
    ];
    assert!(rt; stays(rt.alloc(), &ops));
}

#[test]
fn joins_two_swizzles(rt: HostRuntime) {
    let ops = [
        read(PixType::U8, 3),
        swizzle([1, 2, 0, 3]),
        swizzle([1, 0, 2, 3]),
        write(PixType::U8, 3),
    ];
    let want = [
        read(PixType::U8, 3),
        swizzle([2, 1, 0, 3]),
        write(PixType::U8, 3),
    ];
    assert!(rt; becomes(rt.alloc(), &ops, &want));
    let ops = [
        read(PixType::U16, 3),
        swizzle([1, 2, 0, 3]),
        Op::SwapBytes,
        swizzle([1, 0, 2, 3]),
        write(PixType::U16, 3),
    ];
    assert!(rt; stays(rt.alloc(), &ops));
}

#[test]
fn joins_two_shifts(rt: HostRuntime) {
    let ops = [
        read(PixType::U8, 1),
        Op::LeftShift { n: 3 },
        Op::LeftShift { n: 4 },
        write(PixType::U8, 1),
    ];
    let want = [
        read(PixType::U8, 1),
        Op::LeftShift { n: 7 },
        write(PixType::U8, 1),
    ];
    assert!(rt; becomes(rt.alloc(), &ops, &want));
    let ops = [
        read(PixType::U8, 1),
        Op::RightShift { n: 3 },
        Op::RightShift { n: 4 },
        write(PixType::U8, 1),
    ];
    let want = [
        read(PixType::U8, 1),
        Op::RightShift { n: 7 },
        write(PixType::U8, 1),
    ];
    assert!(rt; becomes(rt.alloc(), &ops, &want));
    let ops = [
        read(PixType::U8, 1),
        clear([Some(whole(127)), None, None, None]),
        Op::LeftShift { n: 1 },
        Op::RightShift { n: 3 },
        write(PixType::U8, 1),
    ];
    let want = [
        read(PixType::U8, 1),
        clear([Some(whole(127)), None, None, None]),
        Op::RightShift { n: 2 },
        write(PixType::U8, 1),
    ];
    assert!(rt; becomes(rt.alloc(), &ops, &want));
    let ops = [
        read(PixType::U8, 1),
        clear([Some(whole(31)), None, None, None]),
        Op::LeftShift { n: 3 },
        Op::RightShift { n: 1 },
        write(PixType::U8, 1),
    ];
    let want = [
        read(PixType::U8, 1),
        clear([Some(whole(31)), None, None, None]),
        Op::LeftShift { n: 2 },
        write(PixType::U8, 1),
    ];
    assert!(rt; becomes(rt.alloc(), &ops, &want));
    let ops = [
        read(PixType::U8, 2),
        clear([Some(whole(3)), None, None, None]),
        Op::LeftShift { n: 3 },
        Op::RightShift { n: 1 },
        write(PixType::U8, 1),
    ];
    let want = [
        read(PixType::U8, 2),
        clear([Some(whole(3)), None, None, None]),
        Op::LeftShift { n: 2 },
        write(PixType::U8, 1),
    ];
    assert!(rt; becomes(rt.alloc(), &ops, &want));
    let ops = [
        read(PixType::U8, 1),
        Op::LeftShift { n: 4 },
        Op::LeftShift { n: 4 },
        write(PixType::U8, 1),
    ];
    assert!(rt; stays(rt.alloc(), &ops));
    let ops = [
        read(PixType::U8, 1),
        Op::RightShift { n: 4 },
        Op::RightShift { n: 4 },
        write(PixType::U8, 1),
    ];
    assert!(rt; stays(rt.alloc(), &ops));
    let ops = [
        read(PixType::U8, 1),
        clear([Some(whole(128)), None, None, None]),
        Op::LeftShift { n: 1 },
        Op::RightShift { n: 3 },
        write(PixType::U8, 1),
    ];
    assert!(rt; stays(rt.alloc(), &ops));
    let ops = [
        read(PixType::U8, 2),
        clear([Some(whole(3)), None, None, None]),
        Op::LeftShift { n: 3 },
        Op::RightShift { n: 1 },
        write(PixType::U8, 2),
    ];
    assert!(rt; stays(rt.alloc(), &ops));
    let ops = [
        read(PixType::U8, 1),
        Op::RightShift { n: 3 },
        Op::LeftShift { n: 1 },
        write(PixType::U8, 1),
    ];
    assert!(rt; stays(rt.alloc(), &ops));
}

#[test]
fn cancels_two_byte_swaps(rt: HostRuntime) {
    let ops = [
        read(PixType::U16, 2),
        Op::SwapBytes,
        Op::SwapBytes,
        write(PixType::U16, 2),
    ];
    let want = [read(PixType::U16, 2), write(PixType::U16, 2)];
    assert!(rt; becomes(rt.alloc(), &ops, &want));
    let ops = [
        read(PixType::U16, 2),
        Op::SwapBytes,
        swizzle([1, 0, 2, 3]),
        Op::SwapBytes,
        write(PixType::U16, 2),
    ];
    assert!(rt; stays(rt.alloc(), &ops));
}

#[test]
fn trims_a_clear(rt: HostRuntime) {
    let ops = [
        read(PixType::U8, 3),
        clear([Some(whole(0)), None, None, Some(whole(255))]),
        write(PixType::U8, 3),
    ];
    let want = [
        read(PixType::U8, 3),
        clear([Some(whole(0)), None, None, None]),
        write(PixType::U8, 3),
    ];
    assert!(rt; becomes(rt.alloc(), &ops, &want));
    let ops = [
        read(PixType::U8, 3),
        clear([Some(whole(0)), None, None, Some(whole(255))]),
        write(PixType::U8, 4),
    ];
    assert!(rt; stays(rt.alloc(), &ops));
}

#[test]
fn trims_a_clamp(rt: HostRuntime) {
    let ops = [
        read(PixType::U8, 1),
        convert(PixType::Rat),
        linear(
            [over(1, 2), whole(0), whole(0), whole(0), whole(3)],
            row([0, 1, 0, 0], whole(0)),
        ),
        min([Some(over(261, 2)), Some(whole(7)), None, None]),
        max([Some(whole(3)), Some(whole(0)), None, None]),
        convert(PixType::U8),
        write(PixType::U8, 1),
    ];
    let want = [
        read(PixType::U8, 1),
        convert(PixType::Rat),
        linear(
            [over(1, 2), whole(0), whole(0), whole(0), whole(3)],
            row([0, 1, 0, 0], whole(0)),
        ),
        convert(PixType::U8),
        write(PixType::U8, 1),
    ];
    assert!(rt; becomes(rt.alloc(), &ops, &want));
    let ops = [
        read(PixType::U8, 2),
        convert(PixType::Rat),
        scale(over(1, 2)),
        max([Some(whole(0)), Some(whole(9)), None, None]),
        convert(PixType::U8),
        write(PixType::U8, 2),
    ];
    let want = [
        read(PixType::U8, 2),
        convert(PixType::Rat),
        scale(over(1, 2)),
        max([None, Some(whole(9)), None, None]),
        convert(PixType::U8),
        write(PixType::U8, 2),
    ];
    assert!(rt; becomes(rt.alloc(), &ops, &want));
    let ops = [
        read(PixType::U8, 1),
        convert(PixType::Rat),
        linear(
            [over(85, 73), whole(0), whole(0), whole(0), over(-1360, 73)],
            row([0, 1, 0, 0], whole(0)),
        ),
        Op::Dither { k: 0 },
        max([Some(whole(0)), None, None, None]),
        min([Some(whole(255)), None, None, None]),
        convert(PixType::U8),
        write(PixType::U8, 1),
    ];
    assert!(rt; stays(rt.alloc(), &ops));
    let ops = [
        read(PixType::U8, 1),
        convert(PixType::Rat),
        linear(
            [over(1, 2), whole(0), whole(0), whole(0), whole(3)],
            row([0, 1, 0, 0], whole(0)),
        ),
        min([Some(whole(130)), None, None, None]),
        convert(PixType::U8),
        write(PixType::U8, 1),
    ];
    assert!(rt; stays(rt.alloc(), &ops));
}

#[test]
fn drops_a_dither_of_whole_values(rt: HostRuntime) {
    let ops = [
        read(PixType::U8, 2),
        convert(PixType::Rat),
        scale(whole(2)),
        Op::Dither { k: 3 },
        swizzle([1, 0, 2, 3]),
        clear([None, Some(whole(5)), None, None]),
        min([Some(whole(300)), None, None, None]),
        max([Some(whole(7)), None, None, None]),
        convert(PixType::U16),
        write(PixType::U16, 2),
    ];
    let want = [
        read(PixType::U8, 2),
        convert(PixType::Rat),
        scale(whole(2)),
        swizzle([1, 1, 2, 3]),
        clear([None, Some(whole(5)), None, None]),
        min([Some(whole(300)), None, None, None]),
        max([Some(whole(7)), None, None, None]),
        convert(PixType::U16),
        write(PixType::U16, 2),
    ];
    assert!(rt; becomes(rt.alloc(), &ops, &want));
    let ops = [
        read(PixType::U8, 2),
        convert(PixType::Rat),
        linear(
            row([1, 0, 0, 0], whole(0)),
            [over(1, 2), whole(0), whole(0), whole(0), whole(0)],
        ),
        Op::Dither { k: 0 },
        convert(PixType::U8),
        write(PixType::U8, 1),
    ];
    let want = [read(PixType::U8, 2), write(PixType::U8, 1)];
    assert!(rt; becomes(rt.alloc(), &ops, &want));
    let ops = [
        read(PixType::U8, 2),
        convert(PixType::Rat),
        linear(
            row([1, 0, 0, 0], whole(0)),
            [over(1, 2), whole(0), whole(0), whole(0), whole(0)],
        ),
        Op::Dither { k: 0 },
        convert(PixType::U8),
        write(PixType::U8, 2),
    ];
    assert!(rt; stays(rt.alloc(), &ops));
    let ops = [
        read(PixType::U8, 1),
        convert(PixType::Rat),
        scale(whole(2)),
        Op::Dither { k: 3 },
        min([Some(over(601, 2)), None, None, None]),
        convert(PixType::U16),
        write(PixType::U16, 1),
    ];
    assert!(rt; stays(rt.alloc(), &ops));
    let ops = [
        read(PixType::U8, 1),
        convert(PixType::Rat),
        Op::Dither { k: 3 },
        scale(whole(2)),
        convert(PixType::U16),
        write(PixType::U16, 1),
    ];
    assert!(rt; stays(rt.alloc(), &ops));
}

#[test]
fn joins_two_linear_maps(rt: HostRuntime) {
    let ops = [
        read(PixType::U8, 1),
        convert(PixType::Rat),
        scale(over(1, 3)),
        scale(over(5, 2)),
        convert(PixType::U16),
        write(PixType::U16, 1),
    ];
    let want = [
        read(PixType::U8, 1),
        convert(PixType::Rat),
        scale(over(5, 6)),
        convert(PixType::U16),
        write(PixType::U16, 1),
    ];
    assert!(rt; becomes(rt.alloc(), &ops, &want));
    let ops = [
        read(PixType::U8, 2),
        convert(PixType::Rat),
        linear(
            row([2, 3, 0, 0], whole(1)),
            [whole(0), over(1, 2), whole(0), whole(0), whole(4)],
        ),
        linear(row([1, 1, 0, 0], whole(-2)), row([3, 0, 0, 0], over(1, 2))),
        convert(PixType::U16),
        write(PixType::U16, 2),
    ];
    let want = [
        read(PixType::U8, 2),
        convert(PixType::Rat),
        linear(
            [whole(2), over(7, 2), whole(0), whole(0), whole(3)],
            row([6, 9, 0, 0], over(7, 2)),
        ),
        convert(PixType::U16),
        write(PixType::U16, 2),
    ];
    assert!(rt; becomes(rt.alloc(), &ops, &want));
    let ops = [
        read(PixType::U8, 2),
        convert(PixType::Rat),
        scale(over(1, 3)),
        linear(row([1, 1, 0, 0], whole(2)), row([0, 1, 0, 0], whole(0))),
        scale(over(1, 2)),
        convert(PixType::U8),
        write(PixType::U8, 2),
    ];
    let want = [
        read(PixType::U8, 2),
        convert(PixType::Rat),
        linear(
            [over(1, 6), over(1, 6), whole(0), whole(0), whole(1)],
            [whole(0), over(1, 6), whole(0), whole(0), whole(0)],
        ),
        convert(PixType::U8),
        write(PixType::U8, 2),
    ];
    assert!(rt; becomes(rt.alloc(), &ops, &want));
    let ops = [
        read(PixType::U8, 1),
        convert(PixType::Rat),
        scale(whole(1 << 100)),
        scale(whole(1 << 100)),
        convert(PixType::U16),
        write(PixType::U16, 1),
    ];
    assert!(rt; stays(rt.alloc(), &ops));
    let ops = [
        read(PixType::U8, 1),
        convert(PixType::Rat),
        scale(over(1, 3)),
        Op::Dither { k: 0 },
        scale(over(5, 2)),
        convert(PixType::U16),
        write(PixType::U16, 1),
    ];
    assert!(rt; stays(rt.alloc(), &ops));
}

#[test]
fn skips_a_fraction_between_whole_types(rt: HostRuntime) {
    let ops = [
        read(PixType::U8, 2),
        convert(PixType::Rat),
        convert(PixType::U16),
        write(PixType::U16, 2),
    ];
    let want = [
        read(PixType::U8, 2),
        convert(PixType::U16),
        write(PixType::U16, 2),
    ];
    assert!(rt; becomes(rt.alloc(), &ops, &want));
    let ops = [
        read(PixType::U16, 2),
        convert(PixType::Rat),
        convert(PixType::U8),
        write(PixType::U8, 2),
    ];
    let want = [
        read(PixType::U16, 2),
        convert(PixType::U8),
        write(PixType::U8, 2),
    ];
    assert!(rt; becomes(rt.alloc(), &ops, &want));
    let ops = [
        read(PixType::U8, 2),
        convert(PixType::Rat),
        scale(over(1, 2)),
        convert(PixType::U16),
        write(PixType::U16, 2),
    ];
    assert!(rt; stays(rt.alloc(), &ops));
    let ops = [
        read(PixType::U8, 1),
        expand(),
        convert(PixType::U8),
        write(PixType::U8, 1),
    ];
    assert!(rt; stays(rt.alloc(), &ops));
}

#[test]
fn expands_bytes_by_a_conversion(rt: HostRuntime) {
    let ops = [
        read(PixType::U8, 2),
        convert(PixType::Rat),
        scale(whole(257)),
        convert(PixType::U16),
        write(PixType::U16, 2),
    ];
    let want = [read(PixType::U8, 2), expand(), write(PixType::U16, 2)];
    assert!(rt; becomes(rt.alloc(), &ops, &want));
    let ops = [
        read(PixType::U8, 3),
        convert(PixType::Rat),
        linear(row([257, 0, 0, 0], whole(0)), row([0, 257, 0, 0], whole(0))),
        convert(PixType::U16),
        write(PixType::U16, 2),
    ];
    let want = [read(PixType::U8, 3), expand(), write(PixType::U16, 2)];
    assert!(rt; becomes(rt.alloc(), &ops, &want));
    let ops = [
        read(PixType::U8, 2),
        convert(PixType::Rat),
        scale(whole(256)),
        convert(PixType::U16),
        write(PixType::U16, 2),
    ];
    assert!(rt; stays(rt.alloc(), &ops));
    let ops = [
        read(PixType::U16, 2),
        convert(PixType::Rat),
        scale(whole(257)),
        convert(PixType::U16),
        write(PixType::U16, 2),
    ];
    assert!(rt; stays(rt.alloc(), &ops));
    let ops = [
        read(PixType::U8, 2),
        convert(PixType::Rat),
        scale(whole(257)),
        convert(PixType::U32),
        write(PixType::U32, 2),
    ];
    assert!(rt; stays(rt.alloc(), &ops));
    let ops = [
        read(PixType::U8, 3),
        convert(PixType::Rat),
        linear(row([257, 0, 0, 0], whole(0)), row([0, 257, 0, 0], whole(0))),
        convert(PixType::U16),
        write(PixType::U16, 3),
    ];
    assert!(rt; stays(rt.alloc(), &ops));
}

#[test]
fn resets_what_is_not_used(rt: HostRuntime) {
    let ops = [
        read(PixType::U8, 4),
        swizzle([3, 2, 1, 0]),
        write(PixType::U8, 2),
    ];
    let want = [
        read(PixType::U8, 4),
        swizzle([3, 2, 2, 3]),
        write(PixType::U8, 2),
    ];
    assert!(rt; becomes(rt.alloc(), &ops, &want));
    let ops = [
        read(PixType::U8, 3),
        convert(PixType::Rat),
        Op::Linear {
            rows: [
                [over(1, 2), whole(0), whole(0), whole(0), whole(0)],
                row([5, 0, 0, 0], whole(0)),
                row([0, 0, 1, 0], whole(0)),
                row([0, 0, 0, 0], whole(1)),
            ],
        },
        convert(PixType::U8),
        write(PixType::U8, 1),
    ];
    let want = [
        read(PixType::U8, 3),
        convert(PixType::Rat),
        linear(
            [over(1, 2), whole(0), whole(0), whole(0), whole(0)],
            row([0, 1, 0, 0], whole(0)),
        ),
        convert(PixType::U8),
        write(PixType::U8, 1),
    ];
    assert!(rt; becomes(rt.alloc(), &ops, &want));
    let ops = [
        read(PixType::U8, 4),
        swizzle([3, 2, 1, 0]),
        write(PixType::U8, 4),
    ];
    assert!(rt; stays(rt.alloc(), &ops));
    let ops = [
        read(PixType::U8, 3),
        convert(PixType::Rat),
        linear(
            [over(1, 2), whole(0), whole(0), whole(0), whole(0)],
            row([5, 0, 0, 0], whole(0)),
        ),
        convert(PixType::U8),
        write(PixType::U8, 2),
    ];
    assert!(rt; stays(rt.alloc(), &ops));
}

#[test]
fn cancels_unpack_and_pack(rt: HostRuntime) {
    let ops = [
        read(PixType::U16, 1),
        Op::Unpack {
            widths: [5, 6, 5, 0],
        },
        Op::Pack {
            widths: [5, 6, 5, 0],
        },
        write(PixType::U16, 1),
    ];
    let want = [read(PixType::U16, 1), write(PixType::U16, 1)];
    assert!(rt; becomes(rt.alloc(), &ops, &want));
    let ops = [
        read(PixType::U16, 1),
        Op::Unpack {
            widths: [5, 5, 5, 0],
        },
        Op::Pack {
            widths: [5, 5, 5, 0],
        },
        write(PixType::U16, 1),
    ];
    assert!(rt; stays(rt.alloc(), &ops));
    let ops = [
        read(PixType::U16, 1),
        Op::Unpack {
            widths: [5, 6, 5, 0],
        },
        Op::Pack {
            widths: [6, 5, 5, 0],
        },
        write(PixType::U16, 1),
    ];
    assert!(rt; stays(rt.alloc(), &ops));
    let ops = [
        read(PixType::U16, 1),
        Op::Unpack {
            widths: [5, 6, 5, 0],
        },
        Op::Pack {
            widths: [5, 6, 5, 0],
        },
        write(PixType::U16, 2),
    ];
    assert!(rt; stays(rt.alloc(), &ops));
}

#[test]
fn words_become_bytes(rt: HostRuntime) {
    let ops = [
        read(PixType::U16, 1),
        Op::LeftShift { n: 0 },
        Op::RightShift { n: 0 },
        swizzle([0, 1, 2, 3]),
        clear([
            None,
            Some(whole(32768)),
            Some(whole(32768)),
            Some(whole(65535)),
        ]),
        convert(PixType::Rat),
        Op::Linear {
            rows: [
                [over(1, 65535), whole(0), whole(0), whole(0), whole(0)],
                [
                    whole(0),
                    over(1, 65535),
                    whole(0),
                    whole(0),
                    over(-32768, 65535),
                ],
                [
                    whole(0),
                    whole(0),
                    over(1, 65535),
                    whole(0),
                    over(-32768, 65535),
                ],
                [whole(0), whole(0), whole(0), over(1, 65535), whole(0)],
            ],
        },
        Op::Linear {
            rows: [
                [whole(1), whole(0), over(701, 500), whole(0), whole(0)],
                [
                    whole(1),
                    over(-25251, 73375),
                    over(-209599, 293500),
                    whole(0),
                    whole(0),
                ],
                [whole(1), over(443, 250), whole(0), whole(0), whole(0)],
                row([0, 0, 0, 1], whole(0)),
            ],
        },
        Op::Linear {
            rows: [
                [
                    over(299, 1000),
                    over(587, 1000),
                    over(57, 500),
                    whole(0),
                    whole(0),
                ],
                [
                    over(-299, 1772),
                    over(-587, 1772),
                    over(1, 2),
                    whole(0),
                    whole(0),
                ],
                [
                    over(1, 2),
                    over(-587, 1402),
                    over(-57, 701),
                    whole(0),
                    whole(0),
                ],
                row([0, 0, 0, 1], whole(0)),
            ],
        },
        Op::Linear {
            rows: [
                row([255, 0, 0, 0], whole(0)),
                row([0, 255, 0, 0], whole(128)),
                row([0, 0, 255, 0], whole(128)),
                row([0, 0, 0, 255], whole(0)),
            ],
        },
        Op::Dither { k: 0 },
        max([Some(whole(0)), None, None, None]),
        min([Some(whole(255)), None, None, None]),
        convert(PixType::U8),
        swizzle([0, 1, 2, 3]),
        clear([None, None, None, None]),
        Op::LeftShift { n: 0 },
        write(PixType::U8, 1),
    ];
    let want = [
        read(PixType::U16, 1),
        convert(PixType::Rat),
        linear(
            [over(1, 257), whole(0), whole(0), whole(0), whole(0)],
            row([0, 1, 0, 0], whole(0)),
        ),
        Op::Dither { k: 0 },
        min([Some(whole(255)), None, None, None]),
        convert(PixType::U8),
        write(PixType::U8, 1),
    ];
    assert!(rt; becomes(rt.alloc(), &ops, &want));
}

#[test]
fn pixels_with_a_spare_byte(rt: HostRuntime) {
    let ops = [
        read(PixType::U8, 3),
        Op::LeftShift { n: 0 },
        Op::RightShift { n: 0 },
        swizzle([0, 1, 2, 3]),
        clear([None, None, None, Some(whole(255))]),
        convert(PixType::Rat),
        scale(over(1, 255)),
        scale(whole(255)),
        Op::Dither { k: 0 },
        max([Some(whole(0)), Some(whole(0)), Some(whole(0)), None]),
        min([Some(whole(255)), Some(whole(255)), Some(whole(255)), None]),
        convert(PixType::U8),
        swizzle([0, 0, 1, 2]),
        clear([Some(whole(0)), None, None, None]),
        Op::LeftShift { n: 0 },
        write(PixType::U8, 4),
    ];
    let want = [
        read(PixType::U8, 3),
        swizzle([0, 0, 1, 2]),
        clear([Some(whole(0)), None, None, None]),
        write(PixType::U8, 4),
    ];
    assert!(rt; becomes(rt.alloc(), &ops, &want));
}

#[test]
fn bytes_become_words(rt: HostRuntime) {
    let ops = [
        read(PixType::U8, 1),
        Op::LeftShift { n: 0 },
        Op::RightShift { n: 0 },
        swizzle([0, 1, 2, 3]),
        clear([None, Some(whole(128)), Some(whole(128)), Some(whole(255))]),
        convert(PixType::Rat),
        Op::Linear {
            rows: [
                [over(1, 255), whole(0), whole(0), whole(0), whole(0)],
                [whole(0), over(1, 255), whole(0), whole(0), over(-128, 255)],
                [whole(0), whole(0), over(1, 255), whole(0), over(-128, 255)],
                [whole(0), whole(0), whole(0), over(1, 255), whole(0)],
            ],
        },
        Op::Linear {
            rows: [
                [whole(1), whole(0), over(701, 500), whole(0), whole(0)],
                [
                    whole(1),
                    over(-25251, 73375),
                    over(-209599, 293500),
                    whole(0),
                    whole(0),
                ],
                [whole(1), over(443, 250), whole(0), whole(0), whole(0)],
                row([0, 0, 0, 1], whole(0)),
            ],
        },
        Op::Linear {
            rows: [
                [
                    over(299, 1000),
                    over(587, 1000),
                    over(57, 500),
                    whole(0),
                    whole(0),
                ],
                [
                    over(-299, 1772),
                    over(-587, 1772),
                    over(1, 2),
                    whole(0),
                    whole(0),
                ],
                [
                    over(1, 2),
                    over(-587, 1402),
                    over(-57, 701),
                    whole(0),
                    whole(0),
                ],
                row([0, 0, 0, 1], whole(0)),
            ],
        },
        Op::Linear {
            rows: [
                row([65535, 0, 0, 0], whole(0)),
                row([0, 65535, 0, 0], whole(32768)),
                row([0, 0, 65535, 0], whole(32768)),
                row([0, 0, 0, 65535], whole(0)),
            ],
        },
        Op::Dither { k: 0 },
        max([Some(whole(0)), None, None, None]),
        min([Some(whole(65535)), None, None, None]),
        convert(PixType::U16),
        swizzle([0, 1, 2, 3]),
        clear([None, None, None, None]),
        Op::LeftShift { n: 0 },
        write(PixType::U16, 1),
    ];
    let want = [read(PixType::U8, 1), expand(), write(PixType::U16, 1)];
    assert!(rt; becomes(rt.alloc(), &ops, &want));
}

#[test]
fn colours_are_exchanged(rt: HostRuntime) {
    let ops = [
        read(PixType::U8, 3),
        Op::LeftShift { n: 0 },
        Op::RightShift { n: 0 },
        swizzle([0, 1, 2, 3]),
        clear([None, None, None, Some(whole(255))]),
        convert(PixType::Rat),
        scale(over(1, 255)),
        scale(whole(255)),
        Op::Dither { k: 0 },
        max([Some(whole(0)), Some(whole(0)), Some(whole(0)), None]),
        min([Some(whole(255)), Some(whole(255)), Some(whole(255)), None]),
        convert(PixType::U8),
        swizzle([2, 1, 0, 3]),
        clear([None, None, None, None]),
        Op::LeftShift { n: 0 },
        write(PixType::U8, 3),
    ];
    let want = [
        read(PixType::U8, 3),
        swizzle([2, 1, 0, 3]),
        write(PixType::U8, 3),
    ];
    assert!(rt; becomes(rt.alloc(), &ops, &want));
}
