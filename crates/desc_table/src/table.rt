// The table of formats, after FFmpeg's libavutil/pixdesc.c.
ghost use Rattle.std.specs.Prelude.{◌≡◌, ◌<◌, map, length, position, bytes_eq, IfSome, None};
ghost use Rattle.desc_table.specs.Format.{formats, format_count, format_at};
ghost use Rattle.desc_table.specs.Refused.{row_named};
ghost use Rattle.desc_table.specs.Row.{format_of, differing_row};

use pix_desc::Comp;

/// A format: its name, and the parts of its descriptor.
pub struct Row {
    pub name: &'static str,
    pub count: u8,
    pub comps: [Comp; 4],
    pub flags: Flags,
}

/// The flags of a descriptor.
#[derive(Clone, Copy)]
pub struct Flags {
    pub be: bool,
    pub rgb: bool,
    pub alpha: bool,
    pub palette: bool,
}

macro_rules! flags {
    ($be:literal, $rgb:literal, $alpha:literal, $palette:literal) => {
        Flags {
            be: $be,
            rgb: $rgb,
            alpha: $alpha,
            palette: $palette,
        }
    };
}

const PLAIN: Flags = flags!(false, false, false, false);

const ALPHA: Flags = flags!(false, false, true, false);

const RGB: Flags = flags!(false, true, false, false);

const RGB_ALPHA: Flags = flags!(false, true, true, false);

const BIG: Flags = flags!(true, false, false, false);

const BIG_ALPHA: Flags = flags!(true, false, true, false);

const BIG_RGB: Flags = flags!(true, true, false, false);

const BIG_RGB_ALPHA: Flags = flags!(true, true, true, false);

const PALETTE: Flags = flags!(false, false, true, true);

// A row: the name, the flags, and plane, step, offset, shift and depth of each component.
macro_rules! row {
    ($name:literal, $flags:ident, $a:tt) => {
        row!(1; $name, $flags, $a [0 0 0 0 0] [0 0 0 0 0] [0 0 0 0 0])
    };
    ($name:literal, $flags:ident, $a:tt $b:tt) => {
        row!(2; $name, $flags, $a $b [0 0 0 0 0] [0 0 0 0 0])
    };
    ($name:literal, $flags:ident, $a:tt $b:tt $c:tt) => {
        row!(3; $name, $flags, $a $b $c [0 0 0 0 0])
    };
    ($name:literal, $flags:ident, $a:tt $b:tt $c:tt $d:tt) => {
        row!(4; $name, $flags, $a $b $c $d)
    };
    ($count:literal; $name:literal, $flags:ident,
        $([$plane:literal $step:literal $offset:literal $shift:literal $depth:literal])*) => {
        Row {
            name: $name,
            count: $count,
            comps: [$(Comp {
                plane: $plane,
                step: $step,
                offset: $offset,
                shift: $shift,
                depth: $depth,
            }),*],
            flags: $flags,
        }
    };
}

static FORMATS: &[Row] = &[
    row!("gray", PLAIN, [0 1 0 0 8]),
    row!("gray9le", PLAIN, [0 2 0 0 9]),
    row!("gray9be", BIG, [0 2 0 0 9]),
    row!("gray10le", PLAIN, [0 2 0 0 10]),
    row!("gray10be", BIG, [0 2 0 0 10]),
    row!("gray12le", PLAIN, [0 2 0 0 12]),
    row!("gray12be", BIG, [0 2 0 0 12]),
    row!("gray14le", PLAIN, [0 2 0 0 14]),
    row!("gray14be", BIG, [0 2 0 0 14]),
    row!("gray16le", PLAIN, [0 2 0 0 16]),
    row!("gray16be", BIG, [0 2 0 0 16]),
    row!("ya8", ALPHA, [0 2 0 0 8] [0 2 1 0 8]),
    row!("ya16le", ALPHA, [0 4 0 0 16] [0 4 2 0 16]),
    row!("ya16be", BIG_ALPHA, [0 4 0 0 16] [0 4 2 0 16]),
    row!("rgb24", RGB, [0 3 0 0 8] [0 3 1 0 8] [0 3 2 0 8]),
    row!("bgr24", RGB, [0 3 2 0 8] [0 3 1 0 8] [0 3 0 0 8]),
    row!("argb", RGB_ALPHA, [0 4 1 0 8] [0 4 2 0 8] [0 4 3 0 8] [0 4 0 0 8]),
    row!("rgba", RGB_ALPHA, [0 4 0 0 8] [0 4 1 0 8] [0 4 2 0 8] [0 4 3 0 8]),
    row!("abgr", RGB_ALPHA, [0 4 3 0 8] [0 4 2 0 8] [0 4 1 0 8] [0 4 0 0 8]),
    row!("bgra", RGB_ALPHA, [0 4 2 0 8] [0 4 1 0 8] [0 4 0 0 8] [0 4 3 0 8]),
    row!("0rgb", RGB, [0 4 1 0 8] [0 4 2 0 8] [0 4 3 0 8]),
    row!("rgb0", RGB, [0 4 0 0 8] [0 4 1 0 8] [0 4 2 0 8]),
    row!("0bgr", RGB, [0 4 3 0 8] [0 4 2 0 8] [0 4 1 0 8]),
    row!("bgr0", RGB, [0 4 2 0 8] [0 4 1 0 8] [0 4 0 0 8]),
    row!("rgb48le", RGB, [0 6 0 0 16] [0 6 2 0 16] [0 6 4 0 16]),
    row!("rgb48be", BIG_RGB, [0 6 0 0 16] [0 6 2 0 16] [0 6 4 0 16]),
    row!("bgr48le", RGB, [0 6 4 0 16] [0 6 2 0 16] [0 6 0 0 16]),
    row!("bgr48be", BIG_RGB, [0 6 4 0 16] [0 6 2 0 16] [0 6 0 0 16]),
    row!("rgba64le", RGB_ALPHA, [0 8 0 0 16] [0 8 2 0 16] [0 8 4 0 16] [0 8 6 0 16]),
    row!("rgba64be", BIG_RGB_ALPHA, [0 8 0 0 16] [0 8 2 0 16] [0 8 4 0 16] [0 8 6 0 16]),
    row!("bgra64le", RGB_ALPHA, [0 8 4 0 16] [0 8 2 0 16] [0 8 0 0 16] [0 8 6 0 16]),
    row!("bgra64be", BIG_RGB_ALPHA, [0 8 4 0 16] [0 8 2 0 16] [0 8 0 0 16] [0 8 6 0 16]),
    row!("rgb565le", RGB, [0 2 1 3 5] [0 2 0 5 6] [0 2 0 0 5]),
    row!("rgb565be", BIG_RGB, [0 2 -1 3 5] [0 2 0 5 6] [0 2 0 0 5]),
    row!("rgb555le", RGB, [0 2 1 2 5] [0 2 0 5 5] [0 2 0 0 5]),
    row!("rgb555be", BIG_RGB, [0 2 -1 2 5] [0 2 0 5 5] [0 2 0 0 5]),
    row!("rgb444le", RGB, [0 2 1 0 4] [0 2 0 4 4] [0 2 0 0 4]),
    row!("rgb444be", BIG_RGB, [0 2 -1 0 4] [0 2 0 4 4] [0 2 0 0 4]),
    row!("bgr565le", RGB, [0 2 0 0 5] [0 2 0 5 6] [0 2 1 3 5]),
    row!("bgr565be", BIG_RGB, [0 2 0 0 5] [0 2 0 5 6] [0 2 -1 3 5]),
    row!("bgr555le", RGB, [0 2 0 0 5] [0 2 0 5 5] [0 2 1 2 5]),
    row!("bgr555be", BIG_RGB, [0 2 0 0 5] [0 2 0 5 5] [0 2 -1 2 5]),
    row!("bgr444le", RGB, [0 2 0 0 4] [0 2 0 4 4] [0 2 1 0 4]),
    row!("bgr444be", BIG_RGB, [0 2 0 0 4] [0 2 0 4 4] [0 2 -1 0 4]),
    row!("rgb8", RGB, [0 1 0 5 3] [0 1 0 2 3] [0 1 0 0 2]),
    row!("bgr8", RGB, [0 1 0 0 3] [0 1 0 3 3] [0 1 0 6 2]),
    row!("rgb4_byte", RGB, [0 1 0 3 1] [0 1 0 1 2] [0 1 0 0 1]),
    row!("bgr4_byte", RGB, [0 1 0 0 1] [0 1 0 1 2] [0 1 0 3 1]),
    row!("x2rgb10le", RGB, [0 4 2 4 10] [0 4 1 2 10] [0 4 0 0 10]),
    row!("x2rgb10be", BIG_RGB, [0 4 0 4 10] [0 4 1 2 10] [0 4 2 0 10]),
    row!("x2bgr10le", RGB, [0 4 0 0 10] [0 4 1 2 10] [0 4 2 4 10]),
    row!("x2bgr10be", BIG_RGB, [0 4 2 0 10] [0 4 1 2 10] [0 4 0 4 10]),
    row!("yuv444p", PLAIN, [0 1 0 0 8] [1 1 0 0 8] [2 1 0 0 8]),
    row!("yuvj444p", PLAIN, [0 1 0 0 8] [1 1 0 0 8] [2 1 0 0 8]),
    row!("yuv444p9le", PLAIN, [0 2 0 0 9] [1 2 0 0 9] [2 2 0 0 9]),
    row!("yuv444p9be", BIG, [0 2 0 0 9] [1 2 0 0 9] [2 2 0 0 9]),
    row!("yuv444p10le", PLAIN, [0 2 0 0 10] [1 2 0 0 10] [2 2 0 0 10]),
    row!("yuv444p10be", BIG, [0 2 0 0 10] [1 2 0 0 10] [2 2 0 0 10]),
    row!("yuv444p12le", PLAIN, [0 2 0 0 12] [1 2 0 0 12] [2 2 0 0 12]),
    row!("yuv444p12be", BIG, [0 2 0 0 12] [1 2 0 0 12] [2 2 0 0 12]),
    row!("yuv444p14le", PLAIN, [0 2 0 0 14] [1 2 0 0 14] [2 2 0 0 14]),
    row!("yuv444p14be", BIG, [0 2 0 0 14] [1 2 0 0 14] [2 2 0 0 14]),
    row!("yuv444p16le", PLAIN, [0 2 0 0 16] [1 2 0 0 16] [2 2 0 0 16]),
    row!("yuv444p16be", BIG, [0 2 0 0 16] [1 2 0 0 16] [2 2 0 0 16]),
    row!("yuva444p", ALPHA, [0 1 0 0 8] [1 1 0 0 8] [2 1 0 0 8] [3 1 0 0 8]),
    row!("yuva444p9le", ALPHA, [0 2 0 0 9] [1 2 0 0 9] [2 2 0 0 9] [3 2 0 0 9]),
    row!("yuva444p9be", BIG_ALPHA, [0 2 0 0 9] [1 2 0 0 9] [2 2 0 0 9] [3 2 0 0 9]),
    row!("yuva444p10le", ALPHA, [0 2 0 0 10] [1 2 0 0 10] [2 2 0 0 10] [3 2 0 0 10]),
    row!("yuva444p10be", BIG_ALPHA, [0 2 0 0 10] [1 2 0 0 10] [2 2 0 0 10] [3 2 0 0 10]),
    row!("yuva444p12le", ALPHA, [0 2 0 0 12] [1 2 0 0 12] [2 2 0 0 12] [3 2 0 0 12]),
    row!("yuva444p12be", BIG_ALPHA, [0 2 0 0 12] [1 2 0 0 12] [2 2 0 0 12] [3 2 0 0 12]),
    row!("yuva444p16le", ALPHA, [0 2 0 0 16] [1 2 0 0 16] [2 2 0 0 16] [3 2 0 0 16]),
    row!("yuva444p16be", BIG_ALPHA, [0 2 0 0 16] [1 2 0 0 16] [2 2 0 0 16] [3 2 0 0 16]),
    row!("gbrp", RGB, [2 1 0 0 8] [0 1 0 0 8] [1 1 0 0 8]),
    row!("gbrp9le", RGB, [2 2 0 0 9] [0 2 0 0 9] [1 2 0 0 9]),
    row!("gbrp9be", BIG_RGB, [2 2 0 0 9] [0 2 0 0 9] [1 2 0 0 9]),
    row!("gbrp10le", RGB, [2 2 0 0 10] [0 2 0 0 10] [1 2 0 0 10]),
    row!("gbrp10be", BIG_RGB, [2 2 0 0 10] [0 2 0 0 10] [1 2 0 0 10]),
    row!("gbrp12le", RGB, [2 2 0 0 12] [0 2 0 0 12] [1 2 0 0 12]),
    row!("gbrp12be", BIG_RGB, [2 2 0 0 12] [0 2 0 0 12] [1 2 0 0 12]),
    row!("gbrp14le", RGB, [2 2 0 0 14] [0 2 0 0 14] [1 2 0 0 14]),
    row!("gbrp14be", BIG_RGB, [2 2 0 0 14] [0 2 0 0 14] [1 2 0 0 14]),
    row!("gbrp16le", RGB, [2 2 0 0 16] [0 2 0 0 16] [1 2 0 0 16]),
    row!("gbrp16be", BIG_RGB, [2 2 0 0 16] [0 2 0 0 16] [1 2 0 0 16]),
    row!("gbrap", RGB_ALPHA, [2 1 0 0 8] [0 1 0 0 8] [1 1 0 0 8] [3 1 0 0 8]),
    row!("gbrap10le", RGB_ALPHA, [2 2 0 0 10] [0 2 0 0 10] [1 2 0 0 10] [3 2 0 0 10]),
    row!("gbrap10be", BIG_RGB_ALPHA, [2 2 0 0 10] [0 2 0 0 10] [1 2 0 0 10] [3 2 0 0 10]),
    row!("gbrap12le", RGB_ALPHA, [2 2 0 0 12] [0 2 0 0 12] [1 2 0 0 12] [3 2 0 0 12]),
    row!("gbrap12be", BIG_RGB_ALPHA, [2 2 0 0 12] [0 2 0 0 12] [1 2 0 0 12] [3 2 0 0 12]),
    row!("gbrap14le", RGB_ALPHA, [2 2 0 0 14] [0 2 0 0 14] [1 2 0 0 14] [3 2 0 0 14]),
    row!("gbrap14be", BIG_RGB_ALPHA, [2 2 0 0 14] [0 2 0 0 14] [1 2 0 0 14] [3 2 0 0 14]),
    row!("gbrap16le", RGB_ALPHA, [2 2 0 0 16] [0 2 0 0 16] [1 2 0 0 16] [3 2 0 0 16]),
    row!("gbrap16be", BIG_RGB_ALPHA, [2 2 0 0 16] [0 2 0 0 16] [1 2 0 0 16] [3 2 0 0 16]),
    row!("ayuv64le", ALPHA, [0 8 2 0 16] [0 8 4 0 16] [0 8 6 0 16] [0 8 0 0 16]),
    row!("ayuv64be", BIG_ALPHA, [0 8 2 0 16] [0 8 4 0 16] [0 8 6 0 16] [0 8 0 0 16]),
    row!("vuya", ALPHA, [0 4 2 0 8] [0 4 1 0 8] [0 4 0 0 8] [0 4 3 0 8]),
    row!("vuyx", PLAIN, [0 4 2 0 8] [0 4 1 0 8] [0 4 0 0 8]),
    row!("ayuv", ALPHA, [0 4 1 0 8] [0 4 2 0 8] [0 4 3 0 8] [0 4 0 0 8]),
    row!("uyva", ALPHA, [0 4 1 0 8] [0 4 0 0 8] [0 4 2 0 8] [0 4 3 0 8]),
    row!("vyu444", PLAIN, [0 3 1 0 8] [0 3 2 0 8] [0 3 0 0 8]),
    row!("nv24", PLAIN, [0 1 0 0 8] [1 2 0 0 8] [1 2 1 0 8]),
    row!("nv42", PLAIN, [0 1 0 0 8] [1 2 1 0 8] [1 2 0 0 8]),
    row!("p410le", PLAIN, [0 2 0 6 10] [1 4 0 6 10] [1 4 2 6 10]),
    row!("p410be", BIG, [0 2 0 6 10] [1 4 0 6 10] [1 4 2 6 10]),
    row!("p412le", PLAIN, [0 2 0 4 12] [1 4 0 4 12] [1 4 2 4 12]),
    row!("p412be", BIG, [0 2 0 4 12] [1 4 0 4 12] [1 4 2 4 12]),
    row!("p416le", PLAIN, [0 2 0 0 16] [1 4 0 0 16] [1 4 2 0 16]),
    row!("p416be", BIG, [0 2 0 0 16] [1 4 0 0 16] [1 4 2 0 16]),
    row!("pal8", PALETTE, [0 1 0 0 8]),
];

// The rows of the table, in their order. Where a descriptor is another than in the definitions, the
// refusal of `differing` prints the format's name.
fn rows() -> &'static [Row]
    ensures differing { differing_row (map format_of result.now) formats ≡ None }
    ensures count { length result.now ≡ format_count }
    ensures value { map format_of result.now ≡ formats }
{
    FORMATS
}

/// How many rows there are.
pub fn row_count() -> usize
    ensures { result ≡ format_count }
{
    rows().len()
}

/// A row, counted from 0.
pub fn row_at(row: usize) -> &'static Row
    requires { row < format_count }
    ensures { format_of result.now ≡ format_at row }
{
    &rows()[row]
}

/// The row of the format of this name, counted from 0.
pub fn row_named(name: &str) -> Option<usize>
    ensures value { result ≡ row_named name.now }
    ensures below { IfSome result (λ row. row < format_count) }
{
    position_in(rows(), name)
}

// The first of these rows that has the name.
fn position_in(rows: &[Row], name: &str) -> Option<usize>
    ensures { result ≡ position (λ row. bytes_eq row.name.now name.now) rows.now }
{
    rows.iter().position(|row| row.name == name)
}
