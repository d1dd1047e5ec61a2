// Ranges, used values and widths from outside: those that a program over fractions of any size
// gives.
ghost use Rattle.std.specs.Prelude.{◌≡◌, true};
ghost use Rattle.op_list.specs.Typing.{ends_with_write};

use crate::{CompRange, fits, ranges, width_fault};
use frac_math::Frac;
use op_list::{Op, OpList, PixType, PushFault};
use std::alloc::Global;

fn list_of(alloc: Global, ops: &[Op]) -> Result<OpList, PushFault> {
    let mut list = OpList::new(alloc);
    for op in ops {
        list.push(*op)?;
    }
    Ok(list)
}

// What is known of a value after an operation.
#[derive(Clone, Copy)]
struct Known {
    op: usize,
    value: usize,
    comp: CompRange,
}

// Whether this is known along the list of these operations.
fn tells(alloc: Global, ops: &[Op], wants: &[Known]) -> bool {
    match list_of(alloc, ops) {
        Ok(list) => list.whole() && is_told(alloc, &list, wants),
        Err(_) => false,
    }
}

fn is_told(alloc: Global, list: &OpList, wants: &[Known]) -> bool
    requires { ends_with_write list.now ≡ true }
{
    let Ok(states) = ranges(alloc, list) else {
        return false;
    };
    for want in wants {
        if want.op >= states.len() || want.value >= 4 {
            return false;
        }
        if states[want.op].comps[want.value] != want.comp {
            return false;
        }
    }
    true
}

fn used(
    op: usize,
    value: usize,
    least: Option<Frac>,
    greatest: Option<Frac>,
    whole: bool,
) -> Known {
    let used = true;
    Known {
        op,
        value,
        comp: CompRange {
            least,
            greatest,
            whole,
            used,
        },
    }
}

fn unused(
    op: usize,
    value: usize,
    least: Option<Frac>,
    greatest: Option<Frac>,
    whole: bool,
) -> Known {
    let mut known = used(op, value, least, greatest, whole);
    known.comp.used = false;
    known
}

fn whole(n: i128) -> Option<Frac> {
    Some(Frac::whole(n))
}

fn over(num: i128, den: i128) -> Option<Frac> {
    Frac::new(num, den)
}

fn quotient(num: i128, den: i128) -> Frac {
    match Frac::new(num, den) {
        Some(value) => value,
        None => Frac::whole(0),
    }
}

fn read(elem: PixType, count: u8) -> Op {
    Op::Read {
        elem,
        planes: [count, 0, 0, 0],
        palette: false,
    }
}

fn write(elem: PixType, count: u8) -> Op {
    Op::Write {
        elem,
        planes: [count, 0, 0, 0],
    }
}

fn convert(to: PixType) -> Op {
    Op::Convert { to, expand: false }
}

fn scale(num: i128, den: i128) -> Op {
    Op::Scale {
        by: quotient(num, den),
    }
}

// Rows other than the identity's for values 0 and 1.
fn linear(first: [Frac; 5], second: [Frac; 5]) -> Op {
    let zero = Frac::whole(0);
    let one = Frac::whole(1);
    Op::Linear {
        rows: [
            first,
            second,
            [zero, zero, one, zero, zero],
            [zero, zero, zero, one, zero],
        ],
    }
}

fn row(coefficient: Frac, constant: Frac) -> [Frac; 5] {
    let zero = Frac::whole(0);
    [coefficient, zero, zero, zero, constant]
}

fn second() -> [Frac; 5] {
    let zero = Frac::whole(0);
    [zero, Frac::whole(1), zero, zero, zero]
}

// Words to bytes, as the optimiser leaves them.
fn words_to_bytes() -> [Op; 7] {
    [
        read(PixType::U16, 1),
        convert(PixType::Rat),
        linear(row(quotient(1, 257), Frac::whole(0)), second()),
        Op::Dither { k: 0 },
        Op::Min {
            limits: [whole(255), None, None, None],
        },
        convert(PixType::U8),
        write(PixType::U8, 1),
    ]
}

#[test]
fn words_become_bytes(rt: HostRuntime) {
    let wants = [
        used(1, 0, whole(0), whole(65535), true),
        used(2, 0, whole(0), whole(255), false),
        used(3, 0, over(1, 2), over(511, 2), false),
        unused(3, 1, over(1, 2), over(1, 2), false),
        unused(3, 3, over(1, 2), over(1, 2), false),
        used(4, 0, over(1, 2), whole(255), false),
        used(5, 0, whole(0), whole(255), true),
        unused(5, 1, whole(0), whole(0), true),
        unused(6, 0, whole(0), whole(255), true),
        unused(6, 3, whole(0), whole(0), true),
    ];
    assert!(rt; tells(rt.alloc(), &words_to_bytes(), &wants));
}

// Bounds that leave 128 bits: a row that does not take them, and limits that give them anew.
#[test]
fn bounds_that_are_not_there(rt: HostRuntime) {
    let big = 1 << 100;
    let ops = [
        read(PixType::U8, 2),
        convert(PixType::Rat),
        scale(big, 1),
        scale(-big, 1),
        linear(row(Frac::whole(0), quotient(1, 3)), second()),
        Op::Min {
            limits: [whole(5), whole(-3), None, None],
        },
        Op::Max {
            limits: [None, whole(-7), None, None],
        },
        convert(PixType::U8),
        write(PixType::U8, 2),
    ];
    let wants = [
        unused(2, 0, whole(0), whole(255 << 100), true),
        unused(3, 0, None, whole(0), true),
        used(3, 1, None, whole(0), true),
        used(4, 0, over(1, 3), over(1, 3), false),
        used(5, 1, None, whole(-3), true),
        used(6, 1, whole(-7), whole(-3), true),
        used(7, 0, whole(0), whole(0), true),
        used(7, 1, whole(0), whole(255), true),
    ];
    assert!(rt; tells(rt.alloc(), &ops, &wants));
    let up = [ops[0], ops[1], ops[2], ops[2], ops[6], ops[7], ops[8]];
    let missing = [
        used(3, 1, whole(0), None, true),
        used(4, 1, whole(0), None, true),
        used(5, 1, whole(0), whole(255), true),
    ];
    assert!(rt; tells(rt.alloc(), &up, &missing));
}

#[test]
fn negative_factors_exchange_the_bounds(rt: HostRuntime) {
    let ops = [
        read(PixType::U8, 1),
        convert(PixType::Rat),
        scale(-1, 2),
        linear(row(Frac::whole(-2), quotient(1, 3)), second()),
        Op::Dither { k: 2 },
        convert(PixType::U16),
        write(PixType::U16, 1),
    ];
    let wants = [
        used(2, 0, over(-255, 2), whole(0), false),
        used(3, 0, over(1, 3), over(766, 3), false),
        used(4, 0, over(35, 96), over(24605, 96), false),
        unused(4, 2, over(1, 32), over(31, 32), false),
        used(5, 0, whole(0), whole(256), true),
    ];
    assert!(rt; tells(rt.alloc(), &ops, &wants));
}

#[test]
fn whole_types_keep_their_bounds(rt: HostRuntime) {
    let ops = [
        read(PixType::U8, 3),
        Op::Clear {
            values: [None, whole(3), whole(200), None],
        },
        Op::LeftShift { n: 2 },
        Op::Convert {
            to: PixType::U16,
            expand: true,
        },
        Op::SwapBytes,
        Op::RightShift { n: 9 },
        Op::Swizzle { from: [1, 2, 3, 0] },
        Op::Pack {
            widths: [3, 4, 0, 0],
        },
        Op::Unpack {
            widths: [2, 5, 0, 0],
        },
        convert(PixType::U8),
        write(PixType::U8, 2),
    ];
    let wants = [
        unused(0, 1, whole(0), whole(255), true),
        used(1, 1, whole(3), whole(3), true),
        used(2, 1, whole(12), whole(12), true),
        used(2, 2, whole(0), whole(252), true),
        used(3, 1, whole(3084), whole(3084), true),
        used(3, 2, whole(0), whole(64764), true),
        used(4, 1, whole(0), whole(65535), true),
        unused(4, 3, whole(0), whole(0), true),
        used(5, 1, whole(0), whole(127), true),
        used(6, 1, whole(0), whole(127), true),
        unused(6, 3, whole(0), whole(127), true),
        used(7, 0, whole(0), whole(127), true),
        used(8, 1, whole(0), whole(31), true),
        unused(10, 1, whole(0), whole(31), true),
    ];
    assert!(rt; tells(rt.alloc(), &ops, &wants));
}

// Whether fractions read from bytes have this fault under some more operations.
fn has_fault(alloc: Global, more: &[Op], want: Option<u8>) -> bool {
    let Ok(mut list) = list_of(alloc, &[read(PixType::U8, 1), convert(PixType::Rat)]) else {
        return false;
    };
    for op in more {
        if list.push(*op).is_err() {
            return false;
        }
    }
    width_fault(&list) == want && fits(&list) == want.is_none()
}

fn fits_whole(alloc: Global, ops: &[Op]) -> bool {
    match list_of(alloc, ops) {
        Ok(list) => fits(&list) && width_fault(&list).is_none(),
        Err(_) => false,
    }
}

fn large() -> Op {
    scale(1 << 120, 1)
}

// All values but value 1 become 0.
fn one_left() -> Op {
    Op::Clear {
        values: [whole(0), None, whole(0), whole(0)],
    }
}

#[test]
fn widths_below_the_cap_fit(rt: HostRuntime) {
    assert!(rt; fits_whole(rt.alloc(), &words_to_bytes()));
    assert!(rt; has_fault(rt.alloc(), &[], None));
    assert!(rt; has_fault(rt.alloc(), &[large()], Some(0)));
    assert!(rt; has_fault(rt.alloc(), &[scale(1 << 118, 1)], None));
    assert!(rt; has_fault(rt.alloc(), &[scale(1 << 119, 1), scale(0, 1)], Some(0)));
    assert!(rt; has_fault(rt.alloc(), &[scale(1, 1 << 126)], Some(0)));
    assert!(rt; has_fault(rt.alloc(), &[scale(1, 1 << 125)], None));
    assert!(rt; has_fault(rt.alloc(), &[one_left(), large()], Some(1)));
    assert!(rt; has_fault(rt.alloc(), &[one_left(), scale(0, 1), large()], None));
    assert!(rt;
        has_fault(
            rt.alloc(),
            &[large(), scale(0, 1), scale(1 << 100, 1)],
            Some(0)
        )
    );
}
