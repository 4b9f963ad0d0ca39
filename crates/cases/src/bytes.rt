//! Bytes in a line of text: a backslash and two hexadecimal digits stand for one byte, and each other byte for itself.
ghost use Rattle.std.specs.Prelude.{◌<◌};

use shape_base::OutOfMemory;
use std::alloc::Global;

/// The value of a hexadecimal digit, or 0 where the byte is none.
fn digit_value(digit: u8) -> u8
    ensures { result < 16 }
{
    match digit {
        b'0'..=b'9' => digit - b'0',
        b'a'..=b'f' => digit - b'a' + 10,
        b'A'..=b'F' => digit - b'A' + 10,
        _ => 0,
    }
}

/// The bytes that a text stands for.
pub fn bytes_of(alloc: Global, text: &str) -> Result<Vec<u8>, OutOfMemory> {
    let mut bytes = Vec::new(alloc);
    let mut digits = 0;
    let mut value = 0;
    for byte in text.as_bytes() {
        if digits > 0 {
            digits -= 1;
            value = value % 16 * 16 + digit_value(*byte);
        } else if *byte == b'\\' {
            digits = 2;
        } else {
            value = *byte;
        }
        if digits == 0 {
            bytes.push(value)?;
        }
    }
    Ok(bytes)
}

/// The hexadecimal digit of a value.
fn digit_of(value: u8) -> char
    requires { value < 16 }
{
    b"0123456789abcdef"[value as usize] as char
}

/// Adds the text of bytes to a line: printable ASCII other than a backslash as it is, each other byte as a backslash and
/// two hexadecimal digits.
pub fn put_bytes(out: &mut String, bytes: &[u8]) -> Result<(), OutOfMemory> {
    for byte in bytes {
        if (b' '..=b'~').contains(byte) && *byte != b'\\' {
            out.push(*byte as char)?;
        } else {
            out.push('\\')?;
            out.push(digit_of(*byte / 16))?;
            out.push(digit_of(*byte % 16))?;
        }
    }
    Ok(())
}
