//! Readers of single parts. Each takes the part from the front of bytes and gives the bytes after it.
ghost use Rattle.byte_format.specs.Format.{Gives, byte, int16, int32, int64, string, chunk, tag_at};

use crate::fault::ReadError;
use std::alloc::Global;

/// One byte.
///
/// `Wrong { left: 0 }` exactly where there is none.
pub fn u8_at(bytes: &[u8]) -> Result<(u8, &[u8]), ReadError>
    ensures { Gives (λ x. (x.0, x.1.now)) result (byte.read bytes.now) }
{
    match bytes {
        [] => Err(ReadError::Wrong { left: 0 }),
        [first, rest @ ..] => Ok((*first, rest)),
    }
}

/// A number of two bytes, the high one first.
///
/// `Wrong { left: 0 }` exactly where there are fewer.
pub fn u16_at(bytes: &[u8]) -> Result<(u16, &[u8]), ReadError>
    ensures { Gives (λ x. (x.0, x.1.now)) result (int16.read bytes.now) }
{
    if bytes.len() < 2 {
        return Err(ReadError::Wrong { left: 0 });
    }
    let (front, rest) = bytes.split_at(2);
    Ok((u16::from_be_bytes([front[0], front[1]]), rest))
}

/// A number of four bytes, the high one first.
///
/// `Wrong { left: 0 }` exactly where there are fewer.
pub fn u32_at(bytes: &[u8]) -> Result<(u32, &[u8]), ReadError>
    ensures { Gives (λ x. (x.0, x.1.now)) result (int32.read bytes.now) }
{
    if bytes.len() < 4 {
        return Err(ReadError::Wrong { left: 0 });
    }
    let (front, rest) = bytes.split_at(4);
    let number = u32::from_be_bytes([front[0], front[1], front[2], front[3]]);
    Ok((number, rest))
}

/// A number of eight bytes, the high one first.
///
/// `Wrong { left: 0 }` exactly where there are fewer.
pub fn u64_at(bytes: &[u8]) -> Result<(u64, &[u8]), ReadError>
    ensures { Gives (λ x. (x.0, x.1.now)) result (int64.read bytes.now) }
{
    if bytes.len() < 8 {
        return Err(ReadError::Wrong { left: 0 });
    }
    let (front, rest) = bytes.split_at(8);
    let number = u64::from_be_bytes([
        front[0], front[1], front[2], front[3], front[4], front[5], front[6], front[7],
    ]);
    Ok((number, rest))
}

/// A length of four bytes and that many bytes, which are copied once. The length takes no memory before the bytes are seen to be there.
///
/// `Wrong { left: 0 }` exactly where the bytes end before.
#[tactic(auto, unfolding(crate::specs::Format::chunk_at))]
pub fn chunk_of(alloc: Global, bytes: &[u8]) -> Result<(Vec<u8>, &[u8]), ReadError>
    ensures { Gives (λ x. (x.0.items, x.1.now)) result (chunk.read bytes.now) }
{
    let (len, rest) = u32_at(bytes)?;
    let len = len as usize;
    if rest.len() < len {
        return Err(ReadError::Wrong { left: 0 });
    }
    let (text, rest) = rest.split_at(len);
    Ok((Vec::from_slice(alloc, text)?, rest))
}

/// Bytes up to a zero byte, which are copied once, and that zero byte.
///
/// `Wrong { left: 0 }` exactly where there is no zero byte.
#[tactic(auto, unfolding(crate::specs::Format::string_at))]
pub fn string_of(alloc: Global, bytes: &[u8]) -> Result<(Vec<u8>, &[u8]), ReadError>
    ensures { Gives (λ x. (x.0.items, x.1.now)) result (string.read bytes.now) }
{
    for (len, byte) in bytes.iter().enumerate() {
        if *byte == 0 {
            let text = Vec::from_slice(alloc, &bytes[..len])?;
            return Ok((text, &bytes[len + 1..]));
        }
    }
    Err(ReadError::Wrong { left: 0 })
}

/// The bytes after a first byte that is this one.
///
/// `Wrong` with all of the bytes left exactly where the first byte is another one or missing.
pub fn after(tag: u8, bytes: &[u8]) -> Result<&[u8], ReadError>
    ensures { Gives (λ x. x.now) result (tag_at tag bytes.now) }
{
    match bytes {
        [first, rest @ ..] if *first == tag => Ok(rest),
        _ => Err(ReadError::Wrong { left: bytes.len() }),
    }
}
