use super::*;
use y4m_io::StreamFault;

// A stream of three frames: a header of 22 bytes, and 7 bytes a frame.
const STREAM: &[u8] = b"YUV4MPEG2 W1 H1 Cmono\nFRAME\n\x01FRAME\n\x02FRAME\n\x03";

// What it is converted to: a header of 53 bytes, and 7 bytes a frame.
const OUTPUT: &[u8] =
    b"YUV4MPEG2 W1 H1 F25:1 Ip A0:0 Cmono XCOLORRANGE=FULL\nFRAME\n\x01FRAME\n\x02FRAME\n\x03";

const LINE: &str = "--from y4m --to y4m --out gray";

fn check<R: Abort>(rt: &R, outcome: &Outcome, ended: Ended, output: &[u8], n: usize) {
    assert_eq!(rt; outcome.ended, ended, "{n}");
    assert_eq!(rt; outcome.output.as_slice(), output, "{n}");
}

// The whole output, the first so many frames of it, or nothing where the header was not whole.
fn output_after(frames: usize) -> &'static [u8] {
    &OUTPUT[..(53 + 7 * frames.min(3)).min(OUTPUT.len())]
}

// One byte a call, and one call after the other fails.
#[test]
fn tells_where_reading_failed(rt: HostRuntime) -> Result<(), Fail> {
    for n in 0..=60 {
        let faults = Faults {
            piece: 1,
            read: Some(n as u64),
            write: None,
            note: None,
        };
        let outcome = run(&rt, rt.alloc(), LINE, STREAM, &faults)?;
        if n < 22 {
            check(&rt, &outcome, Ended::ReadFault { frames: 0 }, b"", n);
        } else if n <= 43 {
            let frames = (n - 22) / 7;
            let ended = Ended::ReadFault {
                frames: frames as u32,
            };
            check(&rt, &outcome, ended, output_after(frames), n);
        } else {
            check(&rt, &outcome, Ended::Done { frames: 3 }, OUTPUT, n);
        }
    }
    Ok(())
}

#[test]
fn tells_where_writing_failed(rt: HostRuntime) -> Result<(), Fail> {
    for n in 0..=60 {
        let faults = Faults {
            piece: 1,
            read: None,
            write: Some(n as u64),
            note: None,
        };
        let outcome = run(&rt, rt.alloc(), LINE, STREAM, &faults)?;
        let frames = if n < 53 { 0 } else { (n - 53) / 7 };
        let ended = Ended::WriteFault {
            frames: frames as u32,
        };
        check(&rt, &outcome, ended, &OUTPUT[..n.min(OUTPUT.len())], n);
    }
    Ok(())
}

#[test]
fn cuts_a_stream_at_each_byte(rt: HostRuntime) -> Result<(), Fail> {
    for n in 0..=43 {
        let outcome = run(
            &rt,
            rt.alloc(),
            LINE,
            &STREAM[..n.min(STREAM.len())],
            &QUIET,
        )?;
        if n < 22 {
            let fault = if n < 9 {
                StreamFault::NoMagic
            } else {
                StreamFault::Truncated
            };
            check(&rt, &outcome, Ended::Stream { fault, frames: 0 }, b"", n);
        } else {
            let frames = ((n - 22) / 7) as u32;
            let ended = if (n - 22) % 7 == 0 {
                Ended::Done { frames }
            } else {
                Ended::Stream {
                    fault: StreamFault::Truncated,
                    frames,
                }
            };
            check(&rt, &outcome, ended, output_after((n - 22) / 7), n);
        }
    }
    Ok(())
}

// Raw frames of three bytes, of which two are there.
#[test]
fn tells_where_raw_frames_failed(rt: HostRuntime) -> Result<(), Fail> {
    let line = "--in rgb24 --out bgr24 --size 1x1";
    let input = b"\xff\x80\0\x01\x02\x03";
    let read = Faults {
        piece: 1,
        read: Some(4),
        write: None,
        note: None,
    };
    let outcome = run(&rt, rt.alloc(), line, input, &read)?;
    check(
        &rt,
        &outcome,
        Ended::ReadFault { frames: 1 },
        b"\0\x80\xff",
        4,
    );
    assert_eq!(rt;
        outcome.notes.as_slice(),
        b"sws: read fault after 1 frames\n".as_slice()
    );
    let write = Faults {
        piece: 1,
        read: None,
        write: Some(4),
        note: None,
    };
    let outcome = run(&rt, rt.alloc(), line, input, &write)?;
    check(
        &rt,
        &outcome,
        Ended::WriteFault { frames: 1 },
        b"\0\x80\xff\x03",
        4,
    );
    assert_eq!(rt;
        outcome.notes.as_slice(),
        b"sws: write fault after 1 frames\n".as_slice()
    );
    let first = Faults {
        piece: 2,
        read: None,
        write: Some(1),
        note: None,
    };
    let outcome = run(&rt, rt.alloc(), line, &input[..3], &first)?;
    check(&rt, &outcome, Ended::WriteFault { frames: 0 }, b"\0\x80", 1);
    Ok(())
}

// After its 0 a source is not read again: the call behind it would fail.
#[test]
fn reads_no_further_than_the_end(rt: HostRuntime) -> Result<(), Fail> {
    let line = "--in rgb24 --out bgr24 --size 1x1";
    let faults = Faults {
        piece: 1,
        read: Some(4),
        write: None,
        note: None,
    };
    let outcome = run(&rt, rt.alloc(), line, b"\x01\x02\x03", &faults)?;
    check(&rt, &outcome, Ended::Done { frames: 1 }, b"\x03\x02\x01", 4);
    let faults = Faults {
        piece: 1,
        read: Some(3),
        write: None,
        note: None,
    };
    let outcome = run(&rt, rt.alloc(), line, b"\x01\x02", &faults)?;
    let truncated = Ended::Stream {
        fault: StreamFault::Truncated,
        frames: 0,
    };
    check(&rt, &outcome, truncated, b"", 3);
    let faults = Faults {
        piece: 1,
        read: Some(1),
        write: None,
        note: None,
    };
    let outcome = run(&rt, rt.alloc(), LINE, b"", &faults)?;
    let none = Ended::Stream {
        fault: StreamFault::NoMagic,
        frames: 0,
    };
    check(&rt, &outcome, none, b"", 1);
    Ok(())
}

// Notes that fail change neither the ending nor the output.
#[test]
fn goes_on_where_notes_fail(rt: HostRuntime) -> Result<(), Fail> {
    let faults = Faults {
        piece: 7,
        read: None,
        write: None,
        note: Some(4),
    };
    let line = "--in yuv420p --out rgb24 --size 2x2";
    let outcome = run(&rt, rt.alloc(), line, b"", &faults)?;
    assert_eq!(rt; outcome.ended.status(), 3);
    assert!(rt; outcome.output.is_empty());
    assert_eq!(rt; outcome.notes.as_slice(), b"sws:".as_slice());
    Ok(())
}
