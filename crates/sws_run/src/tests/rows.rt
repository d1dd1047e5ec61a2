use super::*;

// The line, the bytes of the input and those of the output.
fn converts<R: Abort + Threads + Wait + Sync>(
    rt: &R,
    alloc: Global,
    line: &str,
    input: &[u8],
    frames: u32,
    output: &[u8],
) -> Result<(), AllocError> {
    let outcome = run(rt, alloc, line, input, &QUIET)?;
    assert_eq!(rt; outcome.ended, Ended::Done { frames }, "{line}");
    assert_eq!(rt; outcome.output.as_slice(), output, "{line}");
    assert!(rt; outcome.notes.is_empty(), "{line}");
    Ok(())
}

// Ranges, matrices and dithers of raw frames.
#[test]
fn converts_with_options(rt: HostRuntime) -> Result<(), Fail> {
    let alloc = rt.alloc();
    for (line, input, output) in [
        (
            "--in yuv444p10le --in-range full --out gray10le --size 1x1",
            "01fc01fc01fc",
            "0100",
        ),
        (
            "--in rgb24 --out yuv444p --out-range full --size 1x1",
            "0000ff",
            "1dff6b",
        ),
        (
            "--in yuv444p --in-range full --out yuv444p10le --out-range full --size 1x1",
            "808080",
            "020200020002",
        ),
        (
            "--in yuv444p --in-range limited --out yuv444p10le --out-range limited --size 1x1",
            "eb8080",
            "ac0300020002",
        ),
        (
            "--in gray16le --out gray --dither 1 --size 2x2",
            "0080008000800080",
            "7f80807f",
        ),
        (
            "--in gray16le --out gray --dither 1 --size 2x2 --slice 1 --workers 2",
            "0080008000800080",
            "7f80807f",
        ),
        ("--in rgb24 --out gray --size 1x1", "00ff00", "96"),
        (
            "--in rgb24 --out gray --out-matrix bt709 --size 1x1",
            "00ff00",
            "b6",
        ),
    ] {
        let input = bytes_of(alloc, input)?;
        let output = bytes_of(alloc, output)?;
        converts(&rt, alloc, line, &input, 1, &output)?;
    }
    Ok(())
}

#[test]
fn converts_nothing_to_nothing(rt: HostRuntime) -> Result<(), Fail> {
    converts(
        &rt,
        rt.alloc(),
        "--in rgb24 --out bgr24 --size 1x1",
        b"",
        0,
        b"",
    )?;
    Ok(())
}

#[test]
fn converts_by_a_palette(rt: HostRuntime) -> Result<(), Fail> {
    let mut input = vec![in rt.alloc(); 0u8; 1025]?;
    input[0] = 1;
    input[5..9].copy_from_slice(&[0x10, 0x40, 0xff, 0x80]);
    converts(
        &rt,
        rt.alloc(),
        "--in pal8 --out rgba --size 1x1",
        &input,
        1,
        b"\xff\x40\x10\x80",
    )?;
    Ok(())
}

// Streams with headers, on either side and on both.
#[test]
fn converts_streams(rt: HostRuntime) -> Result<(), Fail> {
    let alloc = rt.alloc();
    let limited: &[u8] =
        b"YUV4MPEG2 W2 H1 F25:1 Ip A1:1 C444 XYSCSS=444 XCOLORRANGE=LIMITED\nFRAME\n\
        \x51\x10\x5a\x80\xf0\x80";
    converts(
        &rt,
        alloc,
        "--from y4m --out rgb24",
        limited,
        1,
        b"\xfe\0\0\0\0\0",
    )?;
    converts(
        &rt,
        alloc,
        "--in gray --to y4m --out yuv444p --size 1x1",
        b"\x80",
        1,
        b"YUV4MPEG2 W1 H1 F25:1 Ip A0:0 C444 XCOLORRANGE=LIMITED\nFRAME\n\x7e\x80\x80",
    )?;
    converts(
        &rt,
        alloc,
        "--from y4m --to y4m --out gray",
        b"YUV4MPEG2 W1 H2 F30000:1001 It A8:9 Cmono\nFRAME Ip\n\x01\x02FRAME\n\x03\x04",
        2,
        b"YUV4MPEG2 W1 H2 F30000:1001 It A8:9 Cmono XCOLORRANGE=FULL\nFRAME\n\x01\x02\
        FRAME\n\x03\x04",
    )?;
    converts(
        &rt,
        alloc,
        "--from y4m --to y4m --out yuvj444p",
        b"YUV4MPEG2 W1 H1 Cmono\n",
        0,
        b"YUV4MPEG2 W1 H1 F25:1 Ip A0:0 C444 XCOLORRANGE=FULL\n",
    )?;
    Ok(())
}

// The range of the words outweighs that of the header, and that of the header the format's.
#[test]
fn takes_the_range_of_the_words_first(rt: HostRuntime) -> Result<(), Fail> {
    let alloc = rt.alloc();
    let full: &[u8] = b"YUV4MPEG2 W1 H1 Cmono XCOLORRANGE=LIMITED\nFRAME\n\x10";
    converts(&rt, alloc, "--from y4m --out gray", full, 1, b"\0")?;
    converts(
        &rt,
        alloc,
        "--from y4m --in-range full --out gray",
        full,
        1,
        b"\x10",
    )?;
    let plain: &[u8] = b"YUV4MPEG2 W1 H1 Cmono\nFRAME\n\x10";
    converts(&rt, alloc, "--from y4m --out gray", plain, 1, b"\x10")?;
    Ok(())
}

#[test]
fn lists_the_formats(rt: HostRuntime) -> Result<(), Fail> {
    let outcome = run(&rt, rt.alloc(), "--task list", b"", &QUIET)?;
    assert_eq!(rt; outcome.ended, Ended::Done { frames: 0 });
    let text = str::from_utf8(&outcome.output).expect(&rt, "text");
    assert_eq!(rt; text.lines().count(), 109);
    assert_eq!(rt; text.lines().next(), Some("gray - 0,1,0,0,8"));
    assert_eq!(rt; text.lines().last(), Some("pal8 AP 0,1,0,0,8"));
    assert!(rt; text.contains("\nrgb565be BR 0,2,-1,3,5 0,2,0,5,6 0,2,0,0,5\n"));
    Ok(())
}

// Slices of three rows, of one and of all of them, by any number of workers.
#[test]
fn converts_in_slices(rt: HostRuntime) -> Result<(), Fail> {
    let alloc = rt.alloc();
    let rows = b"\0\x01\x02\x03\x04\x05\x06\x07\x08\x09";
    let doubled = bytes_of(alloc, "0000010102020303040405050606070708080909")?;
    for (slice, workers) in [("3", "7"), ("3", "1"), ("1", "64"), ("16384", "4")] {
        let mut line = String::from_str(alloc, "--in gray --out gray16le --size 1x10 --slice ")?;
        line.push_str(slice)?;
        line.push_str(" --workers ")?;
        line.push_str(workers)?;
        converts(&rt, alloc, line.as_str(), rows, 1, &doubled)?;
    }
    Ok(())
}

// A run that reads nothing: its line, its number of frames and its text.
fn reports<R: Abort + Threads + Wait + Sync>(
    rt: &R,
    alloc: Global,
    line: &str,
    frames: u32,
    text: &str,
) -> Result<(), AllocError> {
    let outcome = run(rt, alloc, line, b"\x01", &QUIET)?;
    assert_eq!(rt; outcome.ended, Ended::Done { frames }, "{line}");
    assert_eq!(rt; outcome.output.as_slice(), text.as_bytes(), "{line}");
    assert!(rt; outcome.notes.is_empty(), "{line}");
    Ok(())
}

#[test]
fn shows_lists_of_operations(rt: HostRuntime) -> Result<(), Fail> {
    for (line, text) in [
        (
            "--task ops --in gray16le --out gray",
            "read u16 1 0 0 0\nconvert rat\nlinear 0: 1/257 0 0 0 0\ndither 0\nmin 0=255\n\
            convert u8\nwrite u8 1 0 0 0\n",
        ),
        (
            "--task ops --in rgb24 --out 0rgb",
            "read u8 3 0 0 0\nswizzle 0 0 1 2\nclear 0=0\nwrite u8 4 0 0 0\n",
        ),
        (
            "--task ops --in gray --out gray16le",
            "read u8 1 0 0 0\nconvert u16 expand\nwrite u16 1 0 0 0\n",
        ),
        (
            "--task ops --in rgb24 --out bgr24",
            "read u8 3 0 0 0\nswizzle 2 1 0 3\nwrite u8 3 0 0 0\n",
        ),
    ] {
        reports(&rt, rt.alloc(), line, 0, text)?;
    }
    Ok(())
}

#[test]
fn sums_made_frames(rt: HostRuntime) -> Result<(), Fail> {
    for line in [
        "--task generate --in rgb24 --out gray --seed 0",
        "--task generate --in rgb24 --out gray --seed 0 --workers 7",
    ] {
        let text = "frames 4\nbytes 1048576\nsum 133717142\n";
        reports(&rt, rt.alloc(), line, 4, text)?;
    }
    Ok(())
}
