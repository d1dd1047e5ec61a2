// Formats as a reference that was written apart from this program prints them, and the refused
// names.
use crate::FormatFault::{self, Bitstream, FloatFormat, OtherUnsupported, Subsampled, Unknown};
use crate::{FormatId, at, count, desc, find, index, name};
use std::alloc::{AllocError, Global};
use std::test::Fail;

// The name, the flags (big-endian, RGB, alpha, palette), and plane, step, offset, shift and depth
// of each component. A format that is not here is not tried.
#[rattlefmt::skip]
static TABLE: &[&str] = &[
    "gray - 0,1,0,0,8",
    "gray9le - 0,2,0,0,9",
    "gray9be B 0,2,0,0,9",
    "gray10le - 0,2,0,0,10",
    "gray10be B 0,2,0,0,10",
    "gray12le - 0,2,0,0,12",
    "gray12be B 0,2,0,0,12",
    "gray14le - 0,2,0,0,14",
    "gray14be B 0,2,0,0,14",
    "gray16le - 0,2,0,0,16",
    "gray16be B 0,2,0,0,16",
    "ya8 A 0,2,0,0,8 0,2,1,0,8",
    "ya16le A 0,4,0,0,16 0,4,2,0,16",
    "ya16be BA 0,4,0,0,16 0,4,2,0,16",
    "rgb24 R 0,3,0,0,8 0,3,1,0,8 0,3,2,0,8",
    "bgr24 R 0,3,2,0,8 0,3,1,0,8 0,3,0,0,8",
    "argb RA 0,4,1,0,8 0,4,2,0,8 0,4,3,0,8 0,4,0,0,8",
    "rgba RA 0,4,0,0,8 0,4,1,0,8 0,4,2,0,8 0,4,3,0,8",
    "abgr RA 0,4,3,0,8 0,4,2,0,8 0,4,1,0,8 0,4,0,0,8",
    "bgra RA 0,4,2,0,8 0,4,1,0,8 0,4,0,0,8 0,4,3,0,8",
    "0rgb R 0,4,1,0,8 0,4,2,0,8 0,4,3,0,8",
    "rgb0 R 0,4,0,0,8 0,4,1,0,8 0,4,2,0,8",
    "0bgr R 0,4,3,0,8 0,4,2,0,8 0,4,1,0,8",
    "bgr0 R 0,4,2,0,8 0,4,1,0,8 0,4,0,0,8",
    "rgb48le R 0,6,0,0,16 0,6,2,0,16 0,6,4,0,16",
    "rgb48be BR 0,6,0,0,16 0,6,2,0,16 0,6,4,0,16",
    "bgr48le R 0,6,4,0,16 0,6,2,0,16 0,6,0,0,16",
    "bgr48be BR 0,6,4,0,16 0,6,2,0,16 0,6,0,0,16",
    "rgba64le RA 0,8,0,0,16 0,8,2,0,16 0,8,4,0,16 0,8,6,0,16",
    "rgba64be BRA 0,8,0,0,16 0,8,2,0,16 0,8,4,0,16 0,8,6,0,16",
    "bgra64le RA 0,8,4,0,16 0,8,2,0,16 0,8,0,0,16 0,8,6,0,16",
    "bgra64be BRA 0,8,4,0,16 0,8,2,0,16 0,8,0,0,16 0,8,6,0,16",
    "rgb565le R 0,2,1,3,5 0,2,0,5,6 0,2,0,0,5",
    "rgb565be BR 0,2,-1,3,5 0,2,0,5,6 0,2,0,0,5",
    "rgb555le R 0,2,1,2,5 0,2,0,5,5 0,2,0,0,5",
    "rgb555be BR 0,2,-1,2,5 0,2,0,5,5 0,2,0,0,5",
    "rgb444le R 0,2,1,0,4 0,2,0,4,4 0,2,0,0,4",
    "rgb444be BR 0,2,-1,0,4 0,2,0,4,4 0,2,0,0,4",
    "bgr565le R 0,2,0,0,5 0,2,0,5,6 0,2,1,3,5",
    "bgr565be BR 0,2,0,0,5 0,2,0,5,6 0,2,-1,3,5",
    "bgr555le R 0,2,0,0,5 0,2,0,5,5 0,2,1,2,5",
    "bgr555be BR 0,2,0,0,5 0,2,0,5,5 0,2,-1,2,5",
    "bgr444le R 0,2,0,0,4 0,2,0,4,4 0,2,1,0,4",
    "bgr444be BR 0,2,0,0,4 0,2,0,4,4 0,2,-1,0,4",
    "rgb8 R 0,1,0,5,3 0,1,0,2,3 0,1,0,0,2",
    "bgr8 R 0,1,0,0,3 0,1,0,3,3 0,1,0,6,2",
    "rgb4_byte R 0,1,0,3,1 0,1,0,1,2 0,1,0,0,1",
    "bgr4_byte R 0,1,0,0,1 0,1,0,1,2 0,1,0,3,1",
    "x2rgb10le R 0,4,2,4,10 0,4,1,2,10 0,4,0,0,10",
    "x2rgb10be BR 0,4,0,4,10 0,4,1,2,10 0,4,2,0,10",
    "x2bgr10le R 0,4,0,0,10 0,4,1,2,10 0,4,2,4,10",
    "x2bgr10be BR 0,4,2,0,10 0,4,1,2,10 0,4,0,4,10",
    "yuv444p - 0,1,0,0,8 1,1,0,0,8 2,1,0,0,8",
    "yuvj444p - 0,1,0,0,8 1,1,0,0,8 2,1,0,0,8",
    "yuv444p9le - 0,2,0,0,9 1,2,0,0,9 2,2,0,0,9",
    "yuv444p9be B 0,2,0,0,9 1,2,0,0,9 2,2,0,0,9",
    "yuv444p10le - 0,2,0,0,10 1,2,0,0,10 2,2,0,0,10",
    "yuv444p10be B 0,2,0,0,10 1,2,0,0,10 2,2,0,0,10",
    "yuv444p12le - 0,2,0,0,12 1,2,0,0,12 2,2,0,0,12",
    "yuv444p12be B 0,2,0,0,12 1,2,0,0,12 2,2,0,0,12",
    "yuv444p14le - 0,2,0,0,14 1,2,0,0,14 2,2,0,0,14",
    "yuv444p14be B 0,2,0,0,14 1,2,0,0,14 2,2,0,0,14",
    "yuv444p16le - 0,2,0,0,16 1,2,0,0,16 2,2,0,0,16",
    "yuv444p16be B 0,2,0,0,16 1,2,0,0,16 2,2,0,0,16",
    "yuva444p A 0,1,0,0,8 1,1,0,0,8 2,1,0,0,8 3,1,0,0,8",
    "yuva444p9le A 0,2,0,0,9 1,2,0,0,9 2,2,0,0,9 3,2,0,0,9",
    "yuva444p9be BA 0,2,0,0,9 1,2,0,0,9 2,2,0,0,9 3,2,0,0,9",
    "yuva444p10le A 0,2,0,0,10 1,2,0,0,10 2,2,0,0,10 3,2,0,0,10",
    "yuva444p10be BA 0,2,0,0,10 1,2,0,0,10 2,2,0,0,10 3,2,0,0,10",
    "yuva444p12le A 0,2,0,0,12 1,2,0,0,12 2,2,0,0,12 3,2,0,0,12",
    "yuva444p12be BA 0,2,0,0,12 1,2,0,0,12 2,2,0,0,12 3,2,0,0,12",
    "yuva444p16le A 0,2,0,0,16 1,2,0,0,16 2,2,0,0,16 3,2,0,0,16",
    "yuva444p16be BA 0,2,0,0,16 1,2,0,0,16 2,2,0,0,16 3,2,0,0,16",
    "gbrp R 2,1,0,0,8 0,1,0,0,8 1,1,0,0,8",
    "gbrp9le R 2,2,0,0,9 0,2,0,0,9 1,2,0,0,9",
    "gbrp9be BR 2,2,0,0,9 0,2,0,0,9 1,2,0,0,9",
    "gbrp10le R 2,2,0,0,10 0,2,0,0,10 1,2,0,0,10",
    "gbrp10be BR 2,2,0,0,10 0,2,0,0,10 1,2,0,0,10",
    "gbrp12le R 2,2,0,0,12 0,2,0,0,12 1,2,0,0,12",
    "gbrp12be BR 2,2,0,0,12 0,2,0,0,12 1,2,0,0,12",
    "gbrp14le R 2,2,0,0,14 0,2,0,0,14 1,2,0,0,14",
    "gbrp14be BR 2,2,0,0,14 0,2,0,0,14 1,2,0,0,14",
    "gbrp16le R 2,2,0,0,16 0,2,0,0,16 1,2,0,0,16",
    "gbrp16be BR 2,2,0,0,16 0,2,0,0,16 1,2,0,0,16",
    "gbrap RA 2,1,0,0,8 0,1,0,0,8 1,1,0,0,8 3,1,0,0,8",
    "gbrap10le RA 2,2,0,0,10 0,2,0,0,10 1,2,0,0,10 3,2,0,0,10",
    "gbrap10be BRA 2,2,0,0,10 0,2,0,0,10 1,2,0,0,10 3,2,0,0,10",
    "gbrap12le RA 2,2,0,0,12 0,2,0,0,12 1,2,0,0,12 3,2,0,0,12",
    "gbrap12be BRA 2,2,0,0,12 0,2,0,0,12 1,2,0,0,12 3,2,0,0,12",
    "gbrap14le RA 2,2,0,0,14 0,2,0,0,14 1,2,0,0,14 3,2,0,0,14",
    "gbrap14be BRA 2,2,0,0,14 0,2,0,0,14 1,2,0,0,14 3,2,0,0,14",
    "gbrap16le RA 2,2,0,0,16 0,2,0,0,16 1,2,0,0,16 3,2,0,0,16",
    "gbrap16be BRA 2,2,0,0,16 0,2,0,0,16 1,2,0,0,16 3,2,0,0,16",
    "ayuv64le A 0,8,2,0,16 0,8,4,0,16 0,8,6,0,16 0,8,0,0,16",
    "ayuv64be BA 0,8,2,0,16 0,8,4,0,16 0,8,6,0,16 0,8,0,0,16",
    "vuya A 0,4,2,0,8 0,4,1,0,8 0,4,0,0,8 0,4,3,0,8",
    "vuyx - 0,4,2,0,8 0,4,1,0,8 0,4,0,0,8",
    "ayuv A 0,4,1,0,8 0,4,2,0,8 0,4,3,0,8 0,4,0,0,8",
    "uyva A 0,4,1,0,8 0,4,0,0,8 0,4,2,0,8 0,4,3,0,8",
    "vyu444 - 0,3,1,0,8 0,3,2,0,8 0,3,0,0,8",
    "nv24 - 0,1,0,0,8 1,2,0,0,8 1,2,1,0,8",
    "nv42 - 0,1,0,0,8 1,2,1,0,8 1,2,0,0,8",
    "p410le - 0,2,0,6,10 1,4,0,6,10 1,4,2,6,10",
    "p410be B 0,2,0,6,10 1,4,0,6,10 1,4,2,6,10",
    "p412le - 0,2,0,4,12 1,4,0,4,12 1,4,2,4,12",
    "p412be B 0,2,0,4,12 1,4,0,4,12 1,4,2,4,12",
    "p416le - 0,2,0,0,16 1,4,0,0,16 1,4,2,0,16",
    "p416be B 0,2,0,0,16 1,4,0,0,16 1,4,2,0,16",
    "pal8 AP 0,1,0,0,8",
];

// The refused names with their reason, from the same reference.
#[rattlefmt::skip]
static REFUSED: &[(&str, FormatFault)] = &[
    ("yuv420p", Subsampled), ("yuv422p", Subsampled), ("yuv440p", Subsampled),
    ("yuv411p", Subsampled), ("yuv410p", Subsampled), ("yuvj420p", Subsampled),
    ("yuvj422p", Subsampled), ("yuvj440p", Subsampled), ("yuvj411p", Subsampled),
    ("yuva420p", Subsampled), ("yuva422p", Subsampled), ("nv12", Subsampled), ("nv21", Subsampled),
    ("nv16", Subsampled), ("nv20le", Subsampled), ("nv20be", Subsampled), ("yuyv422", Subsampled),
    ("yvyu422", Subsampled), ("uyvy422", Subsampled), ("uyyvyy411", Subsampled),
    ("yuv420p9le", Subsampled), ("yuv420p9be", Subsampled), ("yuv420p10le", Subsampled),
    ("yuv420p10be", Subsampled), ("yuv420p12le", Subsampled), ("yuv420p12be", Subsampled),
    ("yuv420p14le", Subsampled), ("yuv420p14be", Subsampled), ("yuv420p16le", Subsampled),
    ("yuv420p16be", Subsampled), ("yuv422p9le", Subsampled), ("yuv422p9be", Subsampled),
    ("yuv422p10le", Subsampled), ("yuv422p10be", Subsampled), ("yuv422p12le", Subsampled),
    ("yuv422p12be", Subsampled), ("yuv422p14le", Subsampled), ("yuv422p14be", Subsampled),
    ("yuv422p16le", Subsampled), ("yuv422p16be", Subsampled), ("yuv440p10le", Subsampled),
    ("yuv440p10be", Subsampled), ("yuv440p12le", Subsampled), ("yuv440p12be", Subsampled),
    ("p010le", Subsampled), ("p010be", Subsampled), ("p012le", Subsampled), ("p012be", Subsampled),
    ("p016le", Subsampled), ("p016be", Subsampled), ("p210le", Subsampled), ("p210be", Subsampled),
    ("p212le", Subsampled), ("p212be", Subsampled), ("p216le", Subsampled), ("p216be", Subsampled),
    ("y210le", Subsampled), ("y210be", Subsampled), ("y212le", Subsampled), ("y212be", Subsampled),
    ("gbrpf32le", FloatFormat), ("gbrpf32be", FloatFormat), ("gbrapf32le", FloatFormat),
    ("gbrapf32be", FloatFormat), ("grayf32le", FloatFormat), ("grayf32be", FloatFormat),
    ("rgbf32le", FloatFormat), ("rgbf32be", FloatFormat), ("rgbaf32le", FloatFormat),
    ("rgbaf32be", FloatFormat), ("rgbaf16le", FloatFormat), ("rgbaf16be", FloatFormat),
    ("monow", Bitstream), ("monob", Bitstream), ("rgb4", Bitstream), ("bgr4", Bitstream),
    ("bayer_bggr8", OtherUnsupported), ("bayer_rggb8", OtherUnsupported),
    ("bayer_gbrg8", OtherUnsupported), ("bayer_grbg8", OtherUnsupported),
    ("vaapi", OtherUnsupported), ("cuda", OtherUnsupported), ("vulkan", OtherUnsupported),
    ("qsv", OtherUnsupported), ("videotoolbox_vld", OtherUnsupported), ("vdpau", OtherUnsupported),
    ("drm_prime", OtherUnsupported), ("opencl", OtherUnsupported), ("mediacodec", OtherUnsupported),
    ("xyz12le", OtherUnsupported), ("xyz12be", OtherUnsupported), ("gray32le", OtherUnsupported),
    ("gray32be", OtherUnsupported), ("xv30le", OtherUnsupported), ("xv30be", OtherUnsupported),
    ("v30xle", OtherUnsupported), ("v30xbe", OtherUnsupported), ("xv36le", OtherUnsupported),
    ("xv36be", OtherUnsupported), ("xv48le", OtherUnsupported), ("xv48be", OtherUnsupported),
    ("yuv444p10msble", OtherUnsupported), ("yuv444p10msbbe", OtherUnsupported),
    ("yuv444p12msble", OtherUnsupported), ("yuv444p12msbbe", OtherUnsupported),
    ("gbrp10msble", OtherUnsupported), ("gbrp10msbbe", OtherUnsupported),
    ("gbrp12msble", OtherUnsupported), ("gbrp12msbbe", OtherUnsupported),
];

fn table() -> &'static [&'static str] {
    TABLE
}

fn refused_names() -> &'static [(&'static str, FormatFault)] {
    REFUSED
}

fn flags_of(alloc: Global, id: FormatId) -> Result<String, AllocError> {
    let desc = desc(id);
    let mut text = String::new(alloc);
    for (is_set, letter) in [
        (desc.be, 'B'),
        (desc.rgb, 'R'),
        (desc.alpha, 'A'),
        (desc.palette, 'P'),
    ] {
        if is_set {
            text.push(letter)?;
        }
    }
    if text.is_empty() {
        text.push('-')?;
    }
    Ok(text)
}

fn line_of(alloc: Global, id: FormatId) -> Result<String, AllocError> {
    let desc = desc(id);
    let flags = flags_of(alloc, id)?;
    let mut text = format!(in alloc; "{} {}", name(id), flags)?;
    for comp in desc.comps.iter().take(usize::from(desc.count)) {
        let part = format!(in alloc;
            " {},{},{},{},{}",
            comp.plane, comp.step, comp.offset, comp.shift, comp.depth
        )?;
        text.push_str(&part)?;
    }
    Ok(text)
}

#[test]
fn formats_read_as_the_reference_prints_them(rt: HostRuntime) -> Result<(), Fail> {
    for line in table() {
        let (wanted, _) = line.split_once(' ').expect(&rt, "a name");
        assert_eq!(rt; find(wanted).map(name), Ok(wanted));
        let id = find(wanted).expect(&rt, "a format");
        assert_eq!(rt; line_of(rt.alloc(), id)?.as_str(), *line);
        assert_eq!(rt; at(index(id)), Some(id));
    }
    assert_eq!(rt; at(count()), None);
    Ok(())
}

#[test]
fn refused_names_have_their_reason(rt: HostRuntime) {
    for (refused, fault) in refused_names() {
        assert_eq!(rt; find(refused), Err(*fault));
    }
    for unknown in [
        "gray16", "rgb25", "", "RGB24", "rgb24 ", "rgb2", "yuv420p9", "zzz",
    ] {
        assert_eq!(rt; find(unknown), Err(Unknown));
    }
}
