use crate::types::PixType;
use frac_math::Frac;

/// An operation on the four values of a pixel, which are numbered 0 to 3.
///
/// The values are whole numbers of 8, 16 or 32 bits, or exact fractions ([`PixType`]); "bits" is
/// the width of that type. `specs/Typing` says which operation may follow which, and with which
/// arguments; `specs/Apply` what each one makes of the values.
#[derive(Clone, Copy, Debug, PartialEq, Eq)]
pub enum Op {
    /// Takes a pixel's elements from the frame, as the first operation and nowhere else.
    ///
    /// An element is a little-endian number of the whole type `elem`. A pixel has `planes[p]` of
    /// them in plane p: 1 to 4 in all, and no plane without one before a plane with one. The
    /// values are the elements in the order of the planes, and 0 for those that are left.
    ///
    /// With `palette`, for U8 and one element alone, that element is an index, and the values are
    /// red, green, blue and alpha of its entry, 8 bits each. The 256 entries stand behind the
    /// pixels, four bytes each: blue, green, red, alpha (FFmpeg's pal8).
    Read {
        elem: PixType,
        planes: [u8; 4],
        palette: bool,
    },
    /// Gives the first values to the target as elements, in the order of its planes, as the last
    /// operation.
    ///
    /// The values have the whole type `elem`. `planes` are as those of a Read.
    Write {
        elem: PixType,
        planes: [u8; 4],
    },
    /// Turns the bytes of every value round. The values are whole numbers of 16 or 32 bits.
    SwapBytes,
    /// Cuts value 0, a whole number, into fields, the first from the most significant bits.
    ///
    /// `widths` are the fields' widths in bits: from 1 to the bits of the type in all, and no
    /// width 0 before one above 0. The fields take the lowest bits, as many as the widths come to.
    Unpack {
        widths: [u8; 4],
    },
    /// Puts the values, whole numbers, together to value 0 as fields of these widths in bits, the
    /// first as its most significant ones, and makes the others 0.
    ///
    /// Of each value the lowest bits are taken. `widths` are as those of an Unpack.
    Pack {
        widths: [u8; 4],
    },
    /// Puts the given entries in place of the values; a value without one stays.
    ///
    /// Where the values are whole numbers, each entry is one from 0 to 2^bits - 1.
    Clear {
        values: [Option<Frac>; 4],
    },
    /// Makes of every value, a whole number, the value times 2^n, modulo 2^bits. `n` is below the
    /// bits of the type.
    LeftShift {
        n: u8,
    },
    /// Divides every value, a whole number, by 2^n, rounded down. `n` is below the bits of the
    /// type.
    RightShift {
        n: u8,
    },
    /// Makes the old value `from[i]` the new value i. Each of `from` is below 4.
    Swizzle {
        from: [u8; 4],
    },
    /// Gives every value another type.
    ///
    /// In a whole type it is taken modulo 2^bits, a fraction after its floor; as a fraction it is
    /// what it was. With `expand`, from U8 to U16 alone, it is times 257, so that 255 becomes
    /// 65535.
    Convert {
        to: PixType,
        expand: bool,
    },
    /// Adds the ordered dither of 2^k by 2^k pixels to every value, a fraction. `k` is at most 4.
    ///
    /// It goes by the column and the row of the pixel, and lies between 0 and 1
    /// ([`frac_math::dither_at`]).
    Dither {
        k: u8,
    },
    /// Makes the new value i, a fraction, the sum of the old values, each times its coefficient
    /// of row i, and of the row's last number:
    /// `rows[i][0] v0 + rows[i][1] v1 + rows[i][2] v2 + rows[i][3] v3 + rows[i][4]`.
    Linear {
        rows: [[Frac; 5]; 4],
    },
    /// Makes every value, a fraction, the value times `by`.
    Scale {
        by: Frac,
    },
    /// Makes every value, a fraction, the lesser of itself and its limit, where it has one.
    Min {
        limits: [Option<Frac>; 4],
    },
    /// Makes every value, a fraction, the greater of itself and its limit, where it has one.
    Max {
        limits: [Option<Frac>; 4],
    },
}
