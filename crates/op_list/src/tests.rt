// What push takes, and values from outside: the elements that another program's exact fractions
// give.
ghost use Rattle.std.specs.Prelude.{◌≡◌, false, IfOk, length};
ghost use Rattle.op_list.specs.Run.{read_length};

use crate::{MAX_OPERATIONS, Op, OpList, PixType, PushFault};
use frac_math::Frac;
use std::alloc::Global;

// The list of these operations.
fn list_of(alloc: Global, ops: &[Op]) -> Result<OpList, PushFault>
    ensures { IfOk result (λ list. list ≡ ops.now) }
{
    let mut list = OpList::new(alloc);
    for op in ops {
        list.push(*op)?;
    }
    Ok(list)
}

// Whether each of the operations gets this answer behind the front.
fn answers(alloc: Global, front: &[Op], ops: &[Op], want: Result<(), PushFault>) -> bool {
    for op in ops {
        let Ok(mut list) = list_of(alloc, front) else {
            return false;
        };
        if list.push(*op) != want {
            return false;
        }
    }
    true
}

// Whether the list of these operations gives these elements, row by row, where the dither goes by
// the rows from y on.
fn gives(
    alloc: Global,
    ops: &[Op],
    frame: &[u8],
    width: u32,
    rows: u32,
    y: u32,
    wants: &[Option<[u32; 4]>],
) -> bool
    requires { length frame.now ≡ read_length ops.now width rows }
{
    match list_of(alloc, ops) {
        Ok(list) => runs_as(&list, frame, width, rows, y, wants),
        Err(_) => false,
    }
}

fn runs_as(
    list: &OpList,
    frame: &[u8],
    width: u32,
    rows: u32,
    y: u32,
    wants: &[Option<[u32; 4]>],
) -> bool
    requires { length frame.now ≡ read_length list.now width rows }
{
    if !list.whole() {
        return false;
    }
    let mut at = 0;
    for row in 0..rows {
        for x in 0..width {
            if at >= wants.len()
                || list.run_pixel(frame, width, rows, x, row, y.wrapping_add(row)) != wants[at]
            {
                return false;
            }
            at += 1;
        }
    }
    at == wants.len()
}

fn read(elem: PixType, planes: [u8; 4]) -> Op
    ensures { result ≡ Op.Read elem planes false }
{
    Op::Read {
        elem,
        planes,
        palette: false,
    }
}

fn read_palette(elem: PixType, planes: [u8; 4]) -> Op {
    Op::Read {
        elem,
        planes,
        palette: true,
    }
}

fn write(elem: PixType, planes: [u8; 4]) -> Op {
    Op::Write { elem, planes }
}

fn unpack(widths: [u8; 4]) -> Op {
    Op::Unpack { widths }
}

fn pack(widths: [u8; 4]) -> Op {
    Op::Pack { widths }
}

fn convert(to: PixType) -> Op {
    Op::Convert { to, expand: false }
}

fn expand(to: PixType) -> Op {
    Op::Convert { to, expand: true }
}

fn swizzle(from: [u8; 4]) -> Op {
    Op::Swizzle { from }
}

// Value 1 is cleared.
fn clear(value: Frac) -> Op {
    Op::Clear {
        values: [None, Some(value), None, None],
    }
}

// A linear map whose first row has this coefficient and this constant, and whose other rows are the
// identity.
fn linear(coefficient: Frac, constant: Frac) -> Op {
    let zero = Frac::whole(0);
    let one = Frac::whole(1);
    Op::Linear {
        rows: [
            [coefficient, zero, zero, zero, constant],
            [zero, one, zero, zero, zero],
            [zero, zero, one, zero, zero],
            [zero, zero, zero, one, zero],
        ],
    }
}

fn quotient(num: i128, den: i128) -> Frac {
    match Frac::new(num, den) {
        Some(value) => value,
        None => Frac::whole(0),
    }
}

#[test]
fn begins_with_a_read(rt: HostRuntime) {
    let good = [
        read(PixType::U8, [1, 0, 0, 0]),
        read(PixType::U32, [1, 1, 1, 1]),
        read(PixType::U16, [4, 0, 0, 0]),
        read_palette(PixType::U8, [1, 0, 0, 0]),
    ];
    assert!(rt; answers(rt.alloc(), &[], &good, Ok(())));
    let bad = [
        read(PixType::Rat, [1, 0, 0, 0]),
        read(PixType::U8, [0, 0, 0, 0]),
        read(PixType::U8, [3, 2, 0, 0]),
        read(PixType::U8, [3, 0, 1, 0]),
        read_palette(PixType::U16, [1, 0, 0, 0]),
        read_palette(PixType::U8, [2, 0, 0, 0]),
        read_palette(PixType::U8, [1, 1, 0, 0]),
    ];
    assert!(rt; answers(rt.alloc(), &[], &bad, Err(PushFault::BadArgument)));
    let others = [
        Op::SwapBytes,
        swizzle([0, 0, 0, 0]),
        write(PixType::U8, [1, 0, 0, 0]),
    ];
    assert!(rt; answers(rt.alloc(), &[], &others, Err(PushFault::WrongType)));
    let second = [read(PixType::U8, [1, 0, 0, 0])];
    assert!(rt; answers(rt.alloc(), &second, &second, Err(PushFault::WrongType)));
}

#[test]
fn ends_with_a_write(rt: HostRuntime) {
    let front = [read(PixType::U16, [3, 0, 0, 0])];
    let good = [
        write(PixType::U16, [1, 0, 0, 0]),
        write(PixType::U16, [1, 1, 1, 1]),
    ];
    assert!(rt; answers(rt.alloc(), &front, &good, Ok(())));
    let bad = [
        write(PixType::U16, [0, 0, 0, 0]),
        write(PixType::U16, [0, 1, 0, 0]),
        write(PixType::U16, [4, 1, 0, 0]),
    ];
    assert!(rt; answers(rt.alloc(), &front, &bad, Err(PushFault::BadArgument)));
    let other_type = [write(PixType::U8, [1, 0, 0, 0])];
    assert!(rt; answers(rt.alloc(), &front, &other_type, Err(PushFault::WrongType)));
    let fractions = [front[0], convert(PixType::Rat)];
    let of_fractions = [write(PixType::Rat, [1, 0, 0, 0])];
    assert!(rt;
        answers(
            rt.alloc(),
            &fractions,
            &of_fractions,
            Err(PushFault::BadArgument)
        )
    );
    let ended = [front[0], write(PixType::U16, [1, 0, 0, 0])];
    let after = [ended[1], Op::SwapBytes, convert(PixType::U8)];
    assert!(rt; answers(rt.alloc(), &ended, &after, Err(PushFault::WrongType)));
}

#[test]
fn widths_and_shifts_fit_the_type(rt: HostRuntime) {
    let front = [read(PixType::U8, [1, 0, 0, 0])];
    let good = [
        unpack([2, 2, 2, 2]),
        pack([8, 0, 0, 0]),
        Op::LeftShift { n: 7 },
        Op::RightShift { n: 7 },
        swizzle([3, 3, 3, 3]),
    ];
    assert!(rt; answers(rt.alloc(), &front, &good, Ok(())));
    let bad = [
        unpack([3, 0, 2, 0]),
        unpack([0, 0, 0, 0]),
        unpack([5, 4, 0, 0]),
        pack([0, 8, 0, 0]),
        pack([0, 0, 0, 0]),
        pack([3, 3, 3, 0]),
        Op::LeftShift { n: 8 },
        Op::RightShift { n: 8 },
        swizzle([0, 0, 0, 4]),
    ];
    assert!(rt; answers(rt.alloc(), &front, &bad, Err(PushFault::BadArgument)));
    let wrong = [Op::SwapBytes, Op::Dither { k: 0 }];
    assert!(rt; answers(rt.alloc(), &front, &wrong, Err(PushFault::WrongType)));
    let fractions = [front[0], convert(PixType::Rat)];
    let of_numbers = [
        unpack([8, 0, 0, 0]),
        pack([8, 0, 0, 0]),
        Op::RightShift { n: 0 },
    ];
    assert!(rt;
        answers(
            rt.alloc(),
            &fractions,
            &of_numbers,
            Err(PushFault::WrongType)
        )
    );
}

#[test]
fn cleared_values_fit_the_type(rt: HostRuntime) {
    let front = [read(PixType::U8, [1, 0, 0, 0])];
    let good = [clear(Frac::whole(0)), clear(Frac::whole(255))];
    assert!(rt; answers(rt.alloc(), &front, &good, Ok(())));
    let bad = [
        clear(Frac::whole(-1)),
        clear(Frac::whole(256)),
        clear(quotient(1, 2)),
    ];
    assert!(rt; answers(rt.alloc(), &front, &bad, Err(PushFault::BadArgument)));
    let fractions = [front[0], convert(PixType::Rat)];
    let any = [clear(Frac::whole(-1)), clear(quotient(513, 2))];
    assert!(rt; answers(rt.alloc(), &fractions, &any, Ok(())));
}

#[test]
fn expands_bytes_alone(rt: HostRuntime) {
    let bytes = [read(PixType::U8, [1, 0, 0, 0])];
    let words = [read(PixType::U16, [1, 0, 0, 0])];
    let fractions = [bytes[0], convert(PixType::Rat)];
    let to_words = [expand(PixType::U16)];
    let to_others = [
        expand(PixType::U8),
        expand(PixType::U32),
        expand(PixType::Rat),
    ];
    assert!(rt; answers(rt.alloc(), &bytes, &to_words, Ok(())));
    assert!(rt; answers(rt.alloc(), &bytes, &to_others, Err(PushFault::BadArgument)));
    assert!(rt; answers(rt.alloc(), &words, &to_words, Err(PushFault::BadArgument)));
    assert!(rt;
        answers(
            rt.alloc(),
            &fractions,
            &to_words,
            Err(PushFault::BadArgument)
        )
    );
    let dithers = [Op::Dither { k: 0 }, Op::Dither { k: 4 }];
    assert!(rt; answers(rt.alloc(), &fractions, &dithers, Ok(())));
    let greater = [Op::Dither { k: 5 }];
    assert!(rt;
        answers(
            rt.alloc(),
            &fractions,
            &greater,
            Err(PushFault::BadArgument)
        )
    );
}

#[test]
fn takes_no_more(rt: HostRuntime) {
    let mut list = OpList::new(rt.alloc());
    assert_eq!(rt; list.push(read(PixType::U8, [1, 0, 0, 0])), Ok(()));
    for _ in 1..MAX_OPERATIONS {
        assert_eq!(rt; list.push(Op::RightShift { n: 0 }), Ok(()));
    }
    for (op, want) in [
        (Op::RightShift { n: 0 }, PushFault::TooLong),
        (Op::RightShift { n: 8 }, PushFault::BadArgument),
        (Op::SwapBytes, PushFault::WrongType),
    ] {
        assert_eq!(rt; list.push(op), Err(want), "{op:?}");
    }
    assert_eq!(rt; list.ops().len(), MAX_OPERATIONS);
    assert!(rt; !list.whole());
}

#[test]
#[tactic(auto, unfolding(crate::specs::Pixel::frame_length))]
fn turns_the_fields_of_words(rt: HostRuntime) {
    // Fields of 5, 6 and 5 bits in words with the highest byte first.
    let words = [
        read(PixType::U16, [1, 0, 0, 0]),
        Op::SwapBytes,
        unpack([5, 6, 5, 0]),
        swizzle([2, 1, 0, 3]),
        Op::LeftShift { n: 3 },
        Op::RightShift { n: 3 },
        pack([5, 6, 5, 0]),
        Op::SwapBytes,
        write(PixType::U16, [1, 0, 0, 0]),
    ];
    let frame = [18, 52, 248, 31, 7, 224];
    let wants = [
        Some([8866, 0, 0, 0]),
        Some([8184, 0, 0, 0]),
        Some([57351, 0, 0, 0]),
    ];
    assert!(rt; gives(rt.alloc(), &words, &frame, 3, 1, 0, &wants));

    let long_words = [
        read(PixType::U32, [1, 0, 0, 0]),
        Op::SwapBytes,
        unpack([2, 10, 10, 10]),
        swizzle([0, 3, 2, 1]),
        pack([2, 10, 10, 10]),
        write(PixType::U32, [1, 0, 0, 0]),
    ];
    let frame = [18, 52, 86, 120, 255, 0, 0, 1];
    let wants = [Some([662983971, 0, 0, 0]), Some([3222275056, 0, 0, 0])];
    assert!(rt; gives(rt.alloc(), &long_words, &frame, 2, 1, 0, &wants));
}

#[test]
#[tactic(auto, unfolding(crate::specs::Pixel::frame_length))]
fn takes_elements_in_the_order_of_planes(rt: HostRuntime) {
    // Three planes of two, one and one bytes a pixel.
    let ops = [
        read(PixType::U8, [2, 1, 1, 0]),
        swizzle([3, 2, 1, 0]),
        clear(Frac::whole(7)),
        expand(PixType::U16),
        write(PixType::U16, [1, 1, 1, 1]),
    ];
    let frame = [1, 2, 3, 4, 5, 6, 7, 8];
    let wants = [Some([1799, 1799, 514, 257]), Some([2056, 1799, 1028, 771])];
    assert!(rt; gives(rt.alloc(), &ops, &frame, 2, 1, 0, &wants));
}

#[test]
#[tactic(auto, unfolding(crate::specs::Pixel::frame_length))]
fn looks_up_a_palette(rt: HostRuntime) {
    let ops = [
        Op::Read {
            elem: PixType::U8,
            planes: [1, 0, 0, 0],
            palette: true,
        },
        swizzle([2, 1, 0, 3]),
        write(PixType::U8, [4, 0, 0, 0]),
    ];
    let mut frame = [0; 1026];
    frame[0] = 3;
    frame[1] = 255;
    for (k, byte) in [10, 20, 30, 40].iter().enumerate() {
        frame[2 + 4 * 3 + k] = *byte;
    }
    for (k, byte) in [1, 2, 3, 4].iter().enumerate() {
        frame[2 + 4 * 255 + k] = *byte;
    }
    let wants = [Some([10, 20, 30, 40]), Some([1, 2, 3, 4])];
    assert!(rt; gives(rt.alloc(), &ops, &frame, 2, 1, 0, &wants));
}

#[test]
#[tactic(auto, unfolding(crate::specs::Pixel::frame_length))]
fn rounds_words_to_bytes(rt: HostRuntime) {
    let ops = [
        read(PixType::U16, [1, 0, 0, 0]),
        convert(PixType::Rat),
        linear(quotient(1, 257), Frac::whole(0)),
        Op::Dither { k: 0 },
        Op::Min {
            limits: [Some(Frac::whole(255)), None, None, None],
        },
        convert(PixType::U8),
        write(PixType::U8, [1, 0, 0, 0]),
    ];
    let frame = [0, 0, 128, 0, 129, 0, 255, 255, 52, 18, 0, 255];
    let wants = [
        Some([0; 4]),
        Some([0; 4]),
        Some([1, 0, 0, 0]),
        Some([255, 0, 0, 0]),
        Some([18, 0, 0, 0]),
        Some([254, 0, 0, 0]),
    ];
    assert!(rt; gives(rt.alloc(), &ops, &frame, 6, 1, 0, &wants));
}

// Below 0 the floor is the lower number, and its remainder is at least 0.
#[test]
#[tactic(auto, unfolding(crate::specs::Pixel::frame_length))]
fn takes_the_floor_below_0(rt: HostRuntime) {
    let ops = [
        read(PixType::U8, [1, 1, 0, 0]),
        convert(PixType::Rat),
        linear(quotient(1, 2), Frac::whole(-100)),
        Op::Max {
            limits: [None, Some(Frac::whole(2)), None, None],
        },
        convert(PixType::U8),
        write(PixType::U8, [1, 1, 0, 0]),
    ];
    let frame = [1, 200, 255, 1, 2, 255];
    let wants = [
        Some([156, 2, 0, 0]),
        Some([0, 2, 0, 0]),
        Some([27, 255, 0, 0]),
    ];
    assert!(rt; gives(rt.alloc(), &ops, &frame, 3, 1, 0, &wants));
}

// The second and the third row of a larger frame.
#[test]
#[tactic(auto, unfolding(crate::specs::Pixel::frame_length))]
fn dithers_by_column_and_row(rt: HostRuntime) {
    let ops = [
        read(PixType::U32, [1, 0, 0, 0]),
        convert(PixType::Rat),
        Op::Dither { k: 2 },
        Op::Scale {
            by: Frac::whole(16),
        },
        convert(PixType::U16),
        write(PixType::U16, [1, 0, 0, 0]),
    ];
    let wants = [
        Some([12, 0, 0, 0]),
        Some([4, 0, 0, 0]),
        Some([14, 0, 0, 0]),
        Some([3, 0, 0, 0]),
        Some([11, 0, 0, 0]),
        Some([1, 0, 0, 0]),
    ];
    assert!(rt; gives(rt.alloc(), &ops, &[0; 24], 3, 2, 1, &wants));
}

// A product that leaves 128 bits.
#[test]
#[tactic(auto, unfolding(crate::specs::Pixel::frame_length))]
fn gives_none_past_128_bits(rt: HostRuntime) {
    let ops = [
        read(PixType::U8, [1, 0, 0, 0]),
        convert(PixType::Rat),
        Op::Scale {
            by: Frac::whole(1i128 << 100),
        },
        Op::Scale {
            by: Frac::whole(1i128 << 26),
        },
        convert(PixType::U8),
        write(PixType::U8, [1, 0, 0, 0]),
    ];
    let wants = [Some([0; 4]), Some([0; 4]), None];
    assert!(rt; gives(rt.alloc(), &ops, &[0, 1, 2], 3, 1, 0, &wants));
}
