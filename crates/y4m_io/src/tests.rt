use crate::{
    FrameLine, Header, HeaderEnd, LineEnd, StreamFault, header_text, read_frame_line, read_header,
};
use colour_matrix::Range;
use desc_table::{find, name};
use pix_io::MemSource;
use std::alloc::{AllocError, Global};
use std::test::Fail;

// A source of these bytes, one at a time.
fn source(alloc: Global, bytes: &[u8], fails: &[u64]) -> Result<MemSource, AllocError> {
    Ok(MemSource::new(bytes.to_vec(alloc)?, 1, fails.to_vec(alloc)?))
}

// The fault of a header that is none.
fn header_fault(answer: Result<Header, HeaderEnd>) -> Option<HeaderEnd> {
    match answer {
        Ok(_) => None,
        Err(end) => Some(end),
    }
}

// Headers and what they say; the frame line behind each is still there.
#[test]
fn reads_headers(rt: HostRuntime) -> Result<(), Fail> {
    for (text, width, height, format, range, rate) in [
        (
            "YUV4MPEG2 W2 H1 F25:1 Ip A1:1 C444 XYSCSS=444 XCOLORRANGE=LIMITED\nFRAME\n",
            2,
            1,
            "yuv444p",
            Some(Range::Limited),
            Some("25:1"),
        ),
        (
            "YUV4MPEG2 W1920 H1080 F30000:1001 Ip A1:1 C444p10 XYSCSS=444P10\nFRAME\n",
            1920,
            1080,
            "yuv444p10le",
            None,
            Some("30000:1001"),
        ),
        (
            "YUV4MPEG2 W1 H1 C444p9\nFRAME\n",
            1,
            1,
            "yuv444p9le",
            None,
            None,
        ),
        (
            "YUV4MPEG2 W1 H1 C444p12\nFRAME\n",
            1,
            1,
            "yuv444p12le",
            None,
            None,
        ),
        (
            "YUV4MPEG2 W1 H1 C444p14\nFRAME\n",
            1,
            1,
            "yuv444p14le",
            None,
            None,
        ),
        (
            "YUV4MPEG2 W1 H1 C444p16\nFRAME\n",
            1,
            1,
            "yuv444p16le",
            None,
            None,
        ),
        (
            "YUV4MPEG2 W1 H1 Cmono10\nFRAME\n",
            1,
            1,
            "gray10le",
            None,
            None,
        ),
        (
            "YUV4MPEG2 W1 H1 Cmono12\nFRAME\n",
            1,
            1,
            "gray12le",
            None,
            None,
        ),
        (
            "YUV4MPEG2 W1 H1 Cmono16\nFRAME\n",
            1,
            1,
            "gray16le",
            None,
            None,
        ),
        (
            "YUV4MPEG2   Cmono W0 H3  XCOLORRANGE=FULL XCOLORRANGE= Cmono W16384 F F9 \nFRAME\n",
            16384,
            3,
            "gray",
            Some(Range::Full),
            Some("9"),
        ),
        (
            "YUV4MPEG2 W000000000000000000004 H1 Cmono F\nFRAME\n",
            4,
            1,
            "gray",
            None,
            Some(""),
        ),
    ] {
        let mut source = source(rt.alloc(), text.as_bytes(), &[])?;
        let Ok(header) = read_header(rt.alloc(), &mut source) else {
            panic!(rt; "{text}");
        };
        assert_eq!(rt; (header.width, header.height), (width, height), "{text}");
        assert_eq!(rt; name(header.format), format, "{text}");
        assert_eq!(rt; header.range, range, "{text}");
        let rate = rate.map(|text| text.as_bytes());
        assert_eq!(rt;
            header.rate.as_ref().map(|text| text.bytes()),
            rate,
            "{text}"
        );
        assert_eq!(rt;
            read_frame_line(&mut source),
            Ok(FrameLine::Frame),
            "{text}"
        );
        assert_eq!(rt; read_frame_line(&mut source), Ok(FrameLine::End), "{text}");
    }
    Ok(())
}

// Lines that are no headers.
#[test]
fn refuses_headers(rt: HostRuntime) -> Result<(), Fail> {
    for (text, fault) in [
        ("", StreamFault::NoMagic),
        ("YUV4MPEG", StreamFault::NoMagic),
        ("YUV4MPEG\n", StreamFault::NoMagic),
        ("YUV4MPEG2W1 H1 Cmono\n", StreamFault::NoMagic),
        ("YUV4MPEG2", StreamFault::Truncated),
        ("YUV4MPEG2 Q1", StreamFault::Truncated),
        ("YUV4MPEG2 Q1\n", StreamFault::BadTag),
        ("YUV4MPEG2 w1 W1 H1 Cmono\n", StreamFault::BadTag),
        ("YUV4MPEG2 W2 C444\n", StreamFault::NoSize),
        ("YUV4MPEG2\n", StreamFault::NoSize),
        ("YUV4MPEG2 W0 H1 C444\n", StreamFault::BadSize),
        ("YUV4MPEG2 W H1 C444\n", StreamFault::BadSize),
        ("YUV4MPEG2 W+1 H1 C444\n", StreamFault::BadSize),
        ("YUV4MPEG2 W1 H16385 C444\n", StreamFault::BadSize),
        ("YUV4MPEG2 W16384 H2049 C444\n", StreamFault::BadSize),
        ("YUV4MPEG2 W4294967297 H1 C444\n", StreamFault::BadSize),
        ("YUV4MPEG2 W1 H1 XYSCSS=444\n", StreamFault::BadColour),
        ("YUV4MPEG2 W1 H1 C444 C420jpeg\n", StreamFault::BadColour),
        ("YUV4MPEG2 W1 H1 C444alpha\n", StreamFault::BadColour),
        ("YUV4MPEG2 W1 H1 Cmono9\n", StreamFault::BadColour),
    ] {
        let mut source = source(rt.alloc(), text.as_bytes(), &[])?;
        let answer = header_fault(read_header(rt.alloc(), &mut source));
        assert_eq!(rt; answer, Some(HeaderEnd::Stream(fault)), "{text}");
    }
    Ok(())
}

// A header that ends after each of its bytes, or whose next read fails.
#[test]
fn cuts_headers(rt: HostRuntime) -> Result<(), Fail> {
    let bytes = b"YUV4MPEG2 W1 H1 Cmono\n";
    for size in 0..bytes.len() {
        let fault = if size < 9 {
            StreamFault::NoMagic
        } else {
            StreamFault::Truncated
        };
        let after_end = size as u64 + 1;
        let mut short = source(rt.alloc(), &bytes[..size], &[after_end])?;
        let answer = header_fault(read_header(rt.alloc(), &mut short));
        assert_eq!(rt; answer, Some(HeaderEnd::Stream(fault)), "{size}");
        assert_eq!(rt; short.faults(), 0, "{size}");
        let mut broken = source(rt.alloc(), bytes, &[size as u64])?;
        let answer = header_fault(read_header(rt.alloc(), &mut broken));
        assert_eq!(rt; answer, Some(HeaderEnd::ReadFault), "{size}");
        assert_eq!(rt; broken.faults(), 1, "{size}");
    }
    let mut wrong = source(rt.alloc(), b"YUX4MPEG2\n", &[3])?;
    let answer = header_fault(read_header(rt.alloc(), &mut wrong));
    assert_eq!(rt; answer, Some(HeaderEnd::Stream(StreamFault::NoMagic)));
    Ok(())
}

// Header lines of 1,024 and of 1,025 bytes.
#[test]
fn reads_long_headers(rt: HostRuntime) -> Result<(), Fail> {
    for (size, fault) in [
        (1001, None),
        (1002, Some(HeaderEnd::Stream(StreamFault::LineTooLong))),
    ] {
        let mut text = b"YUV4MPEG2 W1 H1 Cmono F".to_vec(rt.alloc())?;
        for _ in 0..size {
            text.push(b'7')?;
        }
        text.push(b'\n')?;
        let mut source = source(rt.alloc(), &text, &[])?;
        assert_eq!(rt;
            header_fault(read_header(rt.alloc(), &mut source)),
            fault,
            "{size}"
        );
    }
    Ok(())
}

// Frame lines, and what is none.
#[test]
fn reads_frame_lines(rt: HostRuntime) -> Result<(), Fail> {
    let spaces = [b' '; 1020];
    for (text, more, answer) in [
        ("", 0, Ok(FrameLine::End)),
        ("FRAME\n", 0, Ok(FrameLine::Frame)),
        ("FRAME Ip XA=1\n", 0, Ok(FrameLine::Frame)),
        ("FRAMES\n", 0, Ok(FrameLine::Frame)),
        ("FRAMX\n", 0, Err(LineEnd::Stream(StreamFault::NoFrameLine))),
        ("FRA\n", 0, Err(LineEnd::Stream(StreamFault::NoFrameLine))),
        ("\n", 0, Err(LineEnd::Stream(StreamFault::NoFrameLine))),
        ("FRA", 0, Err(LineEnd::Stream(StreamFault::Truncated))),
        ("FRAME", 1019, Err(LineEnd::Stream(StreamFault::Truncated))),
        (
            "FRAME",
            1020,
            Err(LineEnd::Stream(StreamFault::LineTooLong)),
        ),
    ] {
        let mut bytes = text.as_bytes().to_vec(rt.alloc())?;
        bytes.extend_from_slice(&spaces[..more])?;
        let mut source = source(rt.alloc(), &bytes, &[])?;
        assert_eq!(rt; read_frame_line(&mut source), answer, "{text} {more}");
    }
    let mut broken = source(rt.alloc(), b"FRAME\n", &[5])?;
    assert_eq!(rt; read_frame_line(&mut broken), Err(LineEnd::ReadFault));
    Ok(())
}

// The header line of each format of a stream.
#[test]
fn writes_headers(rt: HostRuntime) -> Result<(), Fail> {
    for (format, tags) in [
        ("yuv444p", "C444 XCOLORRANGE=LIMITED"),
        ("yuvj444p", "C444 XCOLORRANGE=FULL"),
        ("yuv444p9le", "C444p9 XCOLORRANGE=LIMITED"),
        ("yuv444p10le", "C444p10 XCOLORRANGE=LIMITED"),
        ("yuv444p12le", "C444p12 XCOLORRANGE=LIMITED"),
        ("yuv444p14le", "C444p14 XCOLORRANGE=LIMITED"),
        ("yuv444p16le", "C444p16 XCOLORRANGE=LIMITED"),
        ("gray", "Cmono XCOLORRANGE=FULL"),
        ("gray10le", "Cmono10 XCOLORRANGE=FULL"),
        ("gray12le", "Cmono12 XCOLORRANGE=FULL"),
        ("gray16le", "Cmono16 XCOLORRANGE=FULL"),
    ] {
        let Ok(id) = find(format) else {
            panic!(rt; "{format}");
        };
        if !crate::is_stream_format(id) {
            panic!(rt; "{format}");
        }
        let header = Header {
            width: 16384,
            height: 1,
            format: id,
            range: None,
            rate: None,
            interlace: None,
            aspect: None,
        };
        let Ok(text) = header_text(rt.alloc(), &header) else {
            panic!(rt; "{format}");
        };
        let want = format!(in rt.alloc(); "YUV4MPEG2 W16384 H1 F25:1 Ip A0:0 {tags}\n")?;
        assert_eq!(rt; text.as_slice(), want.as_bytes(), "{format}");
    }
    Ok(())
}

// The texts of a header that was read are written again.
#[test]
fn copies_headers(rt: HostRuntime) -> Result<(), Fail> {
    let text = "YUV4MPEG2 W7 H5 F30000:1001 It A128:117 Cmono XCOLORRANGE=LIMITED\n";
    let mut source = source(rt.alloc(), text.as_bytes(), &[])?;
    let Ok(header) = read_header(rt.alloc(), &mut source) else {
        panic!(rt; "read");
    };
    let Ok(copy) = header_text(rt.alloc(), &header) else {
        panic!(rt; "write");
    };
    assert_eq!(rt; copy.as_slice(), text.as_bytes());
    Ok(())
}
