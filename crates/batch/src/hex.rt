//! Bytes in hexadecimal.
ghost use Rattle.std.specs.Prelude.{◌<◌, IfSome};

use anyhow::bail;
use std::alloc::{AllocError, Global};

/// The value of a digit.
// Not by to_digit, which takes capital letters too.
fn digit(byte: u8) -> Option<u8>
    ensures { IfSome result (λ value. value < 16) }
{
    match byte {
        b'0'..=b'9' => Some(byte - b'0'),
        b'a'..=b'f' => Some(byte - b'a' + 10),
        _ => None,
    }
}

/// The bytes of a text of pairs of digits.
pub fn from_hex(heap: Global, text: &[u8]) -> anyhow::Result<Vec<u8>> {
    let (pairs, rest) = text.as_chunks::<2>();
    // Taken first: want of memory is told before a line that is none.
    let mut bytes = Vec::with_capacity(heap, pairs.len())?;
    if !rest.is_empty() {
        bail!("a line is not hexadecimal");
    }
    for [high, low] in pairs {
        let (Some(high), Some(low)) = (digit(*high), digit(*low)) else {
            bail!("a line is not hexadecimal");
        };
        bytes.push(high * 16 + low)?;
    }
    Ok(bytes)
}

/// The text of some bytes.
pub fn to_hex(heap: Global, bytes: &[u8]) -> Result<String, AllocError> {
    let mut text = String::new(heap);
    for byte in bytes {
        write!(text, "{byte:02x}")?;
    }
    Ok(text)
}
