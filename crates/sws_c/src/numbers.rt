// The numbers that the calls answer.
ghost use Rattle.std.specs.Prelude.{◌≡◌, Err};
ghost use Rattle.sws_c.specs.Status.{number_of, status_of, format_status};

use desc_table::FormatFault;
use frame_calls::Refusal;

/// The call did what was asked.
pub(crate) const DONE: u32 = 0;

/// A name that is none.
pub(crate) const UNKNOWN_NAME: u32 = 11;

pub(crate) fn number_of(refusal: Refusal) -> u32
    ensures { result ≡ number_of refusal }
{
    match refusal {
        Refusal::Format => 1,
        Refusal::PaletteTarget => 2,
        Refusal::Matrix => 3,
        Refusal::Range => 4,
        Refusal::Dither => 5,
        Refusal::Size => 6,
        Refusal::InputLength => 7,
        Refusal::OutputLength => 8,
        Refusal::OutOfMemory => 9,
        Refusal::NameRoom => 10,
    }
}

pub(crate) fn status_of(answer: Result<(), Refusal>) -> u32
    ensures { result ≡ status_of answer }
{
    match answer {
        Ok(()) => DONE,
        Err(refusal) => number_of(refusal),
    }
}

pub(crate) fn fault_number(fault: FormatFault) -> u32
    ensures { result ≡ format_status (Err fault) }
{
    match fault {
        FormatFault::Unknown => UNKNOWN_NAME,
        FormatFault::Subsampled => 12,
        FormatFault::FloatFormat => 13,
        FormatFault::Bitstream => 14,
        FormatFault::OtherUnsupported => 15,
    }
}
