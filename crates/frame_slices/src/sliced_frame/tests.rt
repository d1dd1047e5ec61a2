// Frames in slices: converted with every number of workers, and cut at each byte.
ghost use Rattle.std.specs.Prelude.{◌<◌, ◌≤◌};
ghost use Rattle.row_plan.specs.Evaluated.{IsTableSide};

use super::*;
use crate::gate::OpenGate;
use crate::sides::side_of;
use pix_io::{MemSink, MemSource};
use pix_meaning::{Pair, Side};
use row_plan::plan;
use std::alloc::AllocError;
use std::sync::Wait;
use std::test::Fail;

// A frame of a width and a height, in slices of so many rows, for so many workers.
#[derive(Clone, Copy)]
struct Shape {
    width: u32,
    height: u32,
    each: u32,
    workers: u32,
}

// What was written of the frame that the input begins with, or why there is none; nothing where
// there is no such conversion.
fn slices_converted<R: Threads + Wait + Sync>(
    rt: &R,
    alloc: Global,
    from: Side,
    to: Side,
    shape: Shape,
    input: &[u8],
) -> Result<Option<Result<Vec<u8>, Unfinished>>, AllocError>
    requires from { IsTableSide from }
    requires to { IsTableSide to }
{
    let Shape {
        width,
        height,
        each,
        workers,
    } = shape;
    if width > 16384 || height > 16384 || height == 0 || each == 0 || workers == 0 {
        return Ok(None);
    }
    let pair = Pair {
        from,
        to,
        dither: 0,
    };
    let Ok(plan) = plan(alloc, &pair, 0) else {
        return Ok(None);
    };
    let Ok(frame) = SlicedFrame::new(alloc, &from.desc, &plan.pair().to.desc, width, height, each)
    else {
        return Ok(None);
    };
    let mut source = MemSource::new(input.to_vec(alloc)?, 5, Vec::new(alloc));
    let Ok(mut sink) = MemSink::new(alloc, 5000, 7, Vec::new(alloc)) else {
        return Ok(None);
    };
    let frame = match frame.convert_next(rt, alloc, &plan, workers, &OpenGate, &mut source) {
        Ok(frame) => frame,
        Err(why) => return Ok(Some(Err(why))),
    };
    let Ok(()) = frame.write(&mut sink) else {
        return Ok(None);
    };
    Ok(Some(Ok(sink.bytes().to_vec(alloc)?)))
}

#[test]
fn converts_with_every_number_of_workers(rt: HostRuntime) -> Result<(), Fail> {
    let from = side_of("gray", "bt601").ok_or("gray")?;
    let to = side_of("gray16le", "bt601").ok_or("gray16le")?;
    let input = [0, 1, 2, 3, 4, 5, 6, 7, 8, 9];
    let output = [0, 0, 1, 1, 2, 2, 3, 3, 4, 4, 5, 5, 6, 6, 7, 7, 8, 8, 9, 9];
    for (each, workers) in [(3, 7), (3, 1), (1, 3), (1, 64), (16384, 4), (10, 2), (4, 2)] {
        let shape = Shape {
            width: 1,
            height: 10,
            each,
            workers,
        };
        let got = slices_converted(&rt, rt.alloc(), from, to, shape, &input)?;
        let bytes = got.ok_or("a plan")?.ok().ok_or("a frame")?;
        assert_eq!(rt; bytes.as_slice(), output.as_slice(), "{each} {workers}");
    }
    Ok(())
}

// Why there is no frame where so many bytes came, fewer than it has.
fn left_after(bytes: usize) -> Unfinished {
    match bytes {
        0 => Unfinished::End,
        n => Unfinished::Short(n),
    }
}

#[test]
fn gives_each_slice_the_palette(rt: HostRuntime) -> Result<(), Fail> {
    let from = side_of("pal8", "bt601").ok_or("pal8")?;
    let to = side_of("rgb24", "bt601").ok_or("rgb24")?;
    let mut input = vec![in rt.alloc(); 0u8; 1027]?;
    input[0..3].copy_from_slice(&[1, 2, 1]);
    input[7..15].copy_from_slice(&[0x10, 0x40, 0xff, 0x80, 0x77, 0x93, 0x21, 0x05]);
    let shape = Shape {
        width: 1,
        height: 3,
        each: 1,
        workers: 2,
    };
    for cut in [0, 1, 2, 3, 4, 1026, 1027] {
        let part = input.get(..cut).ok_or("a front")?;
        let got = slices_converted(&rt, rt.alloc(), from, to, shape, part)?;
        match got.ok_or("a plan")? {
            Ok(bytes) => {
                let output = [0xff, 0x40, 0x10, 0x21, 0x93, 0x77, 0xff, 0x40, 0x10];
                assert_eq!(rt; (cut, bytes.as_slice()), (1027, output.as_slice()));
            }
            Err(why) => assert_eq!(rt; why, left_after(cut)),
        }
    }
    Ok(())
}

#[test]
fn cuts_planes_at_each_byte(rt: HostRuntime) -> Result<(), Fail> {
    let from = side_of("gbrp", "bt601").ok_or("gbrp")?;
    let to = side_of("rgb24", "bt601").ok_or("rgb24")?;
    let input = [1, 2, 3, 4, 5, 6, 7, 8, 9];
    let shape = Shape {
        width: 1,
        height: 3,
        each: 2,
        workers: 2,
    };
    for cut in 0..10 {
        let part = &input[..cut];
        let got = slices_converted(&rt, rt.alloc(), from, to, shape, part)?;
        match got.ok_or("a plan")? {
            Ok(bytes) => {
                let output = [7, 1, 4, 8, 2, 5, 9, 3, 6];
                assert_eq!(rt; (cut, bytes.as_slice()), (9, output.as_slice()));
            }
            Err(why) => assert_eq!(rt; why, left_after(cut)),
        }
    }
    Ok(())
}
