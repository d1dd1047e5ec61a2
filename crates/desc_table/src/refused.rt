// The names that are refused, after FFmpeg's libavutil/pixdesc.c.
ghost use Rattle.std.specs.Prelude.{◌≡◌, map, find, bytes_eq};
ghost use Rattle.std.specs.Option.{option_map};
ghost use Rattle.desc_table.specs.Refused.{refused, fault_named};
ghost use Rattle.desc_table.specs.Row.{refusal_of};

use crate::fault::FormatFault;

/// A name that is refused, and why.
pub struct Refused {
    pub name: &'static str,
    pub fault: FormatFault,
}

// Each reason with its names.
macro_rules! refused {
    ($($fault:ident: $($name:literal)*;)*) => {
        &[$($(Refused {
            name: $name,
            fault: FormatFault::$fault,
        },)*)*]
    };
}

static REFUSED: &[Refused] = refused! {
    Subsampled:
        "yuv420p" "yuv422p" "yuv440p" "yuv411p" "yuv410p" "yuvj420p" "yuvj422p" "yuvj440p"
        "yuvj411p" "yuva420p" "yuva422p" "nv12" "nv21" "nv16" "yuyv422" "yvyu422" "uyvy422"
        "uyyvyy411" "nv20le" "nv20be" "yuv420p9le" "yuv420p9be" "yuv420p10le" "yuv420p10be"
        "yuv420p12le" "yuv420p12be" "yuv420p14le" "yuv420p14be" "yuv420p16le" "yuv420p16be"
        "yuv422p9le" "yuv422p9be" "yuv422p10le" "yuv422p10be" "yuv422p12le" "yuv422p12be"
        "yuv422p14le" "yuv422p14be" "yuv422p16le" "yuv422p16be" "yuv440p10le" "yuv440p10be"
        "yuv440p12le" "yuv440p12be" "p010le" "p010be" "p012le" "p012be" "p016le" "p016be" "p210le"
        "p210be" "p212le" "p212be" "p216le" "p216be" "y210le" "y210be" "y212le" "y212be";
    FloatFormat:
        "gbrpf32le" "gbrpf32be" "gbrapf32le" "gbrapf32be" "grayf32le" "grayf32be" "rgbf32le"
        "rgbf32be" "rgbaf32le" "rgbaf32be" "rgbaf16le" "rgbaf16be";
    Bitstream:
        "monow" "monob" "rgb4" "bgr4";
    OtherUnsupported:
        "bayer_bggr8" "bayer_rggb8" "bayer_gbrg8" "bayer_grbg8" "vaapi" "cuda" "vulkan" "qsv"
        "videotoolbox_vld" "vdpau" "drm_prime" "opencl" "mediacodec" "xyz12le" "xyz12be"
        "gray32le" "gray32be" "xv30le" "xv30be" "v30xle" "v30xbe" "xv36le" "xv36be" "xv48le"
        "xv48be" "yuv444p10msble" "yuv444p10msbbe" "yuv444p12msble" "yuv444p12msbbe" "gbrp10msble"
        "gbrp10msbbe" "gbrp12msble" "gbrp12msbbe";
};

// The refused names, in their order.
fn refused_names() -> &'static [Refused]
    ensures { map refusal_of result.now ≡ refused }
{
    REFUSED
}

/// Why a name that is no format's is refused.
pub fn fault_named(name: &str) -> FormatFault
    ensures { result ≡ fault_named name.now }
{
    match find_in(refused_names(), name) {
        Some(refused) => refused.fault,
        None => FormatFault::Unknown,
    }
}

// The first of these refused names that is the name.
fn find_in<'a>(names: &'a [Refused], name: &str) -> Option<&'a Refused>
    ensures { option_map (λ refused. refused.now) result
        ≡ find (λ refused. bytes_eq refused.name.now name.now) names.now }
{
    names.iter().find(|refused| refused.name == name)
}
