use super::*;

// Runs that write nothing: the line, the input, the status and the line on notes.
fn ends<R: Abort + Threads + Wait + Sync>(
    rt: &R,
    alloc: Global,
    line: &str,
    input: &[u8],
    status: u8,
    note: &str,
) -> Result<(), AllocError> {
    let outcome = run(rt, alloc, line, input, &QUIET)?;
    assert_eq!(rt; outcome.ended.status(), status, "{line}");
    assert!(rt; outcome.output.is_empty(), "{line}");
    assert_eq!(rt; outcome.notes.as_slice(), note.as_bytes(), "{line}");
    Ok(())
}

#[test]
fn refuses_words(rt: HostRuntime) -> Result<(), Fail> {
    for (line, note) in [
        ("--colour red", "sws: usage 1 Words\n"),
        ("--task paint", "sws: usage 2 Task\n"),
        ("--in gray --size 1x1", "sws: usage 3 Missing\n"),
        ("--task list --out gray", "sws: usage 4 Unwanted\n"),
        (
            "--in gray --out gray --size 1x1 --dither 5",
            "sws: usage 5 Value\n",
        ),
        (
            "--in rgb24 --out rgb24 --size 16385x1",
            "sws: usage 6 Size\n",
        ),
        (
            "--in gray --out yuvj444p --size 1x1 --out-range limited",
            "sws: usage 7 FixedRange\n",
        ),
        (
            "--in gray --out rgb24 --size 1x1 --out-range limited",
            "sws: usage 8 RgbRange\n",
        ),
        (
            "--in gray --to y4m --out rgb24 --size 1x1",
            "sws: usage 9 NotStreamFormat\n",
        ),
    ] {
        ends(&rt, rt.alloc(), line, b"\x01\x02\x03", 2, note)?;
    }
    Ok(())
}

#[test]
fn refuses_formats(rt: HostRuntime) -> Result<(), Fail> {
    for (line, note) in [
        (
            "--in yuv420p --out rgb24 --size 2x2",
            "sws: format 2 Subsampled in\n",
        ),
        (
            "--task ops --in yuv420p --out pal8",
            "sws: format 2 Subsampled in\n",
        ),
        (
            "--task generate --in rgb24 --out pal8 --seed 0",
            "sws: format 6 PaletteTarget out\n",
        ),
        (
            "--in rgb25 --out rgb24 --size 2x2",
            "sws: format 1 Unknown in\n",
        ),
        (
            "--in grayf32le --out rgb24 --size 2x2",
            "sws: format 3 FloatFormat in\n",
        ),
        (
            "--in monob --out rgb24 --size 2x2",
            "sws: format 4 Bitstream in\n",
        ),
        (
            "--in xyz12le --out rgb24 --size 2x2",
            "sws: format 5 OtherUnsupported in\n",
        ),
        (
            "--in rgb25 --out yuv420p --size 2x2",
            "sws: format 1 Unknown in\n",
        ),
        (
            "--in rgb24 --out yuv420p --size 2x2",
            "sws: format 2 Subsampled out\n",
        ),
        (
            "--in rgb24 --out pal8 --size 2x2",
            "sws: format 6 PaletteTarget out\n",
        ),
        ("--from y4m --out pal8", "sws: format 6 PaletteTarget out\n"),
    ] {
        ends(&rt, rt.alloc(), line, b"\x01\x02\x03", 3, note)?;
    }
    Ok(())
}

// Headers, and first frame lines, that are faulty.
#[test]
fn refuses_streams(rt: HostRuntime) -> Result<(), Fail> {
    for (input, note) in [
        (&b""[..], "sws: stream 1 NoMagic after 0 frames\n"),
        (b"YUV4MPEG2 Q1\n", "sws: stream 3 BadTag after 0 frames\n"),
        (
            b"YUV4MPEG2 W2 C444\n",
            "sws: stream 4 NoSize after 0 frames\n",
        ),
        (
            b"YUV4MPEG2 W0 H1 C444\n",
            "sws: stream 5 BadSize after 0 frames\n",
        ),
        (
            b"YUV4MPEG2 W2 H1 F25:1\n",
            "sws: stream 6 BadColour after 0 frames\n",
        ),
        (
            b"YUV4MPEG2 W1 H1 Cmono\nFRAMX\n",
            "sws: stream 7 NoFrameLine after 0 frames\n",
        ),
        (
            b"YUV4MPEG2 W1 H1 Cmono\nFRA",
            "sws: stream 8 Truncated after 0 frames\n",
        ),
    ] {
        ends(&rt, rt.alloc(), "--from y4m --out gray", input, 4, note)?;
    }
    Ok(())
}

#[test]
fn refuses_a_long_frame_line(rt: HostRuntime) -> Result<(), Fail> {
    let mut input = b"YUV4MPEG2 W1 H1 Cmono\nFRAME".to_vec(rt.alloc())?;
    input.extend_from_slice(&[b' '; 1020])?;
    let note = "sws: stream 2 LineTooLong after 0 frames\n";
    ends(&rt, rt.alloc(), "--from y4m --out gray", &input, 4, note)?;
    Ok(())
}

#[test]
fn stops_inside_a_frame(rt: HostRuntime) -> Result<(), Fail> {
    let input = [0, 1, 2, 3, 4, 5, 6, 7, 8, 9, 10, 11, 12];
    let line = "--in rgb24 --out bgr24 --size 2x2";
    let outcome = run(&rt, rt.alloc(), line, &input, &QUIET)?;
    assert_eq!(rt; outcome.ended.status(), 4);
    assert_eq!(rt;
        outcome.output.as_slice(),
        [2, 1, 0, 5, 4, 3, 8, 7, 6, 11, 10, 9].as_slice()
    );
    assert_eq!(rt;
        outcome.notes.as_slice(),
        b"sws: stream 8 Truncated after 1 frames\n".as_slice()
    );
    Ok(())
}
