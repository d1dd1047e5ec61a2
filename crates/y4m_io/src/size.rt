// The size of a frame.
ghost use Rattle.std.specs.Prelude.{◌≡◌, ◌≤◌, IfSome, option_copied};
ghost use Rattle.y4m_io.specs.HeaderLine.{extent_of, size_of};

use crate::StreamFault;

// A width or a height: a number of 1 to 16,384.
fn extent(text: &[u8]) -> Option<u32>
    ensures value { result ≡ extent_of text.now }
    ensures most { IfSome result (λ number. number ≤ 16384) }
{
    let mut number = 0;
    for digit in text {
        if !digit.is_ascii_digit() {
            return None;
        }
        number = number * 10 + u32::from(*digit - b'0');
        if number > 16384 {
            return None;
        }
    }
    if number == 0 { None } else { Some(number) }
}

/// The width and the height that these texts say.
pub(crate) fn size(width: Option<&[u8]>, height: Option<&[u8]>) -> Result<(u32, u32), StreamFault>
    ensures { result ≡ size_of (option_copied width.entry) (option_copied height.entry) }
{
    let (Some(width), Some(height)) = (width, height) else {
        return Err(StreamFault::NoSize);
    };
    let (Some(width), Some(height)) = (extent(width), extent(height)) else {
        return Err(StreamFault::BadSize);
    };
    if width * height > 33554432 {
        return Err(StreamFault::BadSize);
    }
    Ok((width, height))
}
