// Conversions that keep nothing from one call to the next.
ghost use Rattle.std.specs.Prelude.{◌≡◌, ◌≢◌, length};
ghost use Rattle.pix_meaning.specs.Target.{target_rows};
ghost use Rattle.frame_calls.specs.Conversion.{pair_of, pair_asked};
ghost use Rattle.frame_calls.specs.Calls.{bytes_asked, rows_asked_of};
ghost use Rattle.sws_c.specs.Status.{status_of, answer_or, IsStatusOf};

use crate::numbers::{DONE, number_of, status_of};
use frame_calls::{Conversion, Rows, convert, frame_bytes, pair_of};
use std::alloc::Global;

/// The bytes of a raw frame of a format, or of some rows of one.
#[unsafe(no_mangle)]
pub extern "C" fn sws_frame_bytes(format: u32, width: u32, rows: u32, bytes: &mut u64) -> u32
    ensures status { result ≡ status_of (bytes_asked format width rows) }
    ensures written { bytes.new ≡ answer_or (bytes_asked format width rows) bytes.old }
{
    match frame_bytes(format, width, rows) {
        Ok(length) => {
            *bytes = length;
            DONE
        }
        Err(refusal) => number_of(refusal),
    }
}

/// Whether a conversion can be made.
#[unsafe(no_mangle)]
pub extern "C" fn sws_check(conversion: &Conversion) -> u32
    ensures { result ≡ status_of (pair_asked conversion.now) }
{
    match pair_of(conversion) {
        Ok(_) => DONE,
        Err(refusal) => number_of(refusal),
    }
}

/// Converts some rows. It keeps nothing, so any number of threads may call it at once.
#[unsafe(no_mangle)]
pub extern "C" fn sws_convert(
    alloc: Global,
    conversion: &Conversion,
    first: u32,
    width: u32,
    rows: u32,
    input: &[u8],
    output: &mut [u8],
) -> u32
    ensures status { IsStatusOf (rows_asked_of (pair_asked conversion.now)
        (record { first = first; width = width; count = rows }) (length input.now)
        (length output.old)) result }
    ensures target { result ≡ 0
        → output.new ≡ target_rows (pair_of conversion.now) width rows first input.now }
    ensures unchanged { result ≢ 0 → output.new ≡ output.old }
{
    let rows = Rows {
        first,
        width,
        count: rows,
    };
    status_of(convert(alloc, conversion, &rows, input, output))
}
