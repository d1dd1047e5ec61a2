// Which lists have a chain behind their Read, and where it ends.
use crate::chain::find_chain;
use frac_math::Frac;
use kernel_step::{NumberWidth, counts_of, forms_of, storage_of};
use op_list::{Op, OpList, PixType, PushFault};
use op_range::ranges;
use std::alloc::Global;

// The list of these operations.
fn list_of(alloc: Global, ops: &[Op]) -> Result<OpList, PushFault> {
    let mut list = OpList::new(alloc);
    for op in ops {
        list.push(*op)?;
    }
    Ok(list)
}

// The operation behind the chain that follows the Read of a list of bytes.
fn end_of_chain(alloc: Global, ops: &[Op]) -> Option<usize> {
    let list = list_of(alloc, ops).ok()?;
    if !list.whole() || list.ops().len() < 2 {
        return None;
    }
    let states = ranges(alloc, &list).ok()?;
    let ops = list.ops();
    let counts = counts_of(ops);
    let storage = storage_of(ops);
    let forms = forms_of(alloc, ops, &states, &counts, storage, NumberWidth::Bits64).ok()??;
    if ops.len() < 3 {
        return None;
    }
    let placed = find_chain(ops, &forms)?;
    Some(placed.chain.next)
}

fn read() -> Op {
    Op::Read {
        elem: PixType::U8,
        planes: [4, 0, 0, 0],
        palette: false,
    }
}

fn write() -> Op {
    Op::Write {
        elem: PixType::U8,
        planes: [4, 0, 0, 0],
    }
}

fn convert(to: PixType) -> Op {
    Op::Convert { to, expand: false }
}

// Three values of the first three, where the first also has a part of the fourth, and the fourth.
fn linear(part: Frac) -> Op {
    let zero = Frac::whole(0);
    let two = Frac::whole(2);
    Op::Linear {
        rows: [
            [two, two, two, part, two],
            [two, zero, two, zero, two],
            [zero, zero, two, zero, zero],
            [zero, zero, zero, two, zero],
        ],
    }
}

fn least() -> Op {
    Op::Max {
        limits: [Some(Frac::whole(16)), None, None, None],
    }
}

fn greatest() -> Op {
    Op::Min {
        limits: [Some(Frac::whole(235)); 4],
    }
}

#[test]
fn whole_chains(rt: HostRuntime) {
    let all = [
        read(),
        convert(PixType::Rat),
        linear(Frac::whole(0)),
        Op::Dither { k: 0 },
        least(),
        greatest(),
        convert(PixType::U8),
        write(),
    ];
    assert!(rt; end_of_chain(rt.alloc(), &all) == Some(6));
    let scaled = [
        read(),
        convert(PixType::Rat),
        Op::Scale { by: Frac::whole(3) },
        greatest(),
        convert(PixType::U8),
        write(),
    ];
    assert!(rt; end_of_chain(rt.alloc(), &scaled) == Some(4));
}

#[test]
fn other_lists(rt: HostRuntime) {
    let four_products = [
        read(),
        convert(PixType::Rat),
        linear(Frac::whole(1)),
        convert(PixType::U8),
        write(),
    ];
    assert!(rt; end_of_chain(rt.alloc(), &four_products).is_none());
    let dithered = [
        read(),
        convert(PixType::Rat),
        linear(Frac::whole(0)),
        Op::Dither { k: 2 },
        convert(PixType::U8),
        write(),
    ];
    assert!(rt; end_of_chain(rt.alloc(), &dithered) == Some(3));
}
