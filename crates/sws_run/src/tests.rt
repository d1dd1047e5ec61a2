ghost use Rattle.std.specs.Prelude.{◌<◌, ◌≤◌};

mod boards;
mod endings;
mod pairs;
mod places;
mod rows;

use crate::{Ended, Gate, OpenGate, run_sws};
use pairs::{formats, pixels};
use pix_io::{MemSink, MemSource};
use std::alloc::{AllocError, Global};
use std::process::Abort;
use std::sync::Wait;
use std::test::Fail;
use std::thread::Threads;

// How the streams of a run behave: the most bytes that a read or a write moves, at least one, and
// the number of the call that fails, of the source, the sink and the notes.
#[derive(Clone, Copy)]
struct Faults {
    piece: usize,
    read: Option<u64>,
    write: Option<u64>,
    note: Option<u64>,
}

// Streams without a fault.
const QUIET: Faults = Faults {
    piece: 7,
    read: None,
    write: None,
    note: None,
};

// What a run leaves: its ending, and the bytes of its sink and its notes.
#[derive(Drop)]
struct Outcome {
    ended: Ended,
    output: Vec<u8>,
    notes: Vec<u8>,
}

fn fails(alloc: Global, call: Option<u64>) -> Result<Vec<u64>, AllocError> {
    let mut fails = Vec::new(alloc);
    if let Some(call) = call {
        fails.push(call)?;
    }
    Ok(fails)
}

// A run over memory.
fn run<R: Threads + Wait + Sync>(
    rt: &R,
    alloc: Global,
    line: &str,
    input: &[u8],
    faults: &Faults,
) -> Result<Outcome, AllocError> {
    run_through(rt, alloc, line, input, faults, &OpenGate)
}

// A run over memory whose workers pass a gate.
fn run_through<R: Threads + Wait + Sync, G: Gate>(
    rt: &R,
    alloc: Global,
    line: &str,
    input: &[u8],
    faults: &Faults,
    gate: &G,
) -> Result<Outcome, AllocError> {
    let mut words = Vec::new(alloc);
    for word in line.split(' ') {
        words.push(String::from_str(alloc, word)?)?;
    }
    let piece = faults.piece.max(1);
    let mut source = MemSource::new(input.to_vec(alloc)?, piece, fails(alloc, faults.read)?);
    let Ok(mut sink) = MemSink::new(alloc, 1 << 16, piece, fails(alloc, faults.write)?) else {
        return Err(AllocError);
    };
    let Ok(mut notes) = MemSink::new(alloc, 128, 1, fails(alloc, faults.note)?) else {
        return Err(AllocError);
    };
    let ended = run_sws(rt, alloc, &words, &mut source, &mut sink, &mut notes, gate);
    Ok(Outcome {
        ended,
        output: sink.bytes().to_vec(alloc)?,
        notes: notes.bytes().to_vec(alloc)?,
    })
}

// The value of a hexadecimal digit.
fn digit(c: u8) -> u8
    ensures { result < 16 }
{
    match c {
        b'0'..=b'9' => c - b'0',
        b'a'..=b'f' => c - b'a' + 10,
        _ => 0,
    }
}

// The bytes that hexadecimal digits stand for.
fn bytes_of(alloc: Global, text: &str) -> Result<Vec<u8>, AllocError> {
    let digits = text.as_bytes();
    let mut bytes = Vec::new(alloc);
    for i in 0..digits.len() / 2 {
        bytes.push(16 * digit(digits[2 * i]) + digit(digits[2 * i + 1]))?;
    }
    Ok(bytes)
}

// The two formats and the size, the source frame and the target frame of a row of the table.
fn parts_of(row: &str) -> Option<(&str, &str, &str)> {
    let (names, frames) = row.split_once(':')?;
    let (source, target) = frames.split_once(':')?;
    Some((names, source, target))
}

// The line that converts raw frames between two formats.
fn line_of(alloc: Global, names: &str) -> Result<String, AllocError> {
    let mut line = String::new(alloc);
    for (option, value) in ["--in=", " --out=", " --size="]
        .iter()
        .zip(names.split(' '))
    {
        line.push_str(option)?;
        line.push_str(value)?;
    }
    Ok(line)
}

// Converts the frame of each row.
fn convert_rows<R: Abort + Threads + Wait + Sync>(
    rt: &R,
    alloc: Global,
    rows: &[&str],
) -> Result<(), AllocError> {
    for row in rows {
        let (names, source, target) = parts_of(row).expect(rt, "three parts");
        let line = line_of(alloc, names)?;
        let input = bytes_of(alloc, source)?;
        let output = bytes_of(alloc, target)?;
        let outcome = run(rt, alloc, line.as_str(), &input, &QUIET)?;
        assert_eq!(rt; outcome.ended, Ended::Done { frames: 1 }, "{names}");
        assert_eq!(rt; outcome.output.as_slice(), output.as_slice(), "{names}");
        assert!(rt; outcome.notes.is_empty(), "{names}");
    }
    Ok(())
}

#[test]
fn converts_every_format_as_the_reference(rt: HostRuntime) -> Result<(), Fail> {
    assert_eq!(rt; formats().len(), 108);
    convert_rows(&rt, rt.alloc(), formats())?;
    Ok(())
}

#[test]
fn converts_pixels(rt: HostRuntime) -> Result<(), Fail> {
    convert_rows(&rt, rt.alloc(), pixels())?;
    Ok(())
}
