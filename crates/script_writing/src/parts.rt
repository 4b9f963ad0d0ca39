//! Numbers, texts and lists. Each function adds the part at the end of what is there.
ghost use Rattle.std.specs.Prelude.{◌≡◌, true};
ghost use Rattle.script_writing.specs.Outcomes.{Puts};
ghost use Rattle.script_writing.specs.Parts.{Spelling, int16, int32, int64, raw, has_no_zero, is_text, text, long_text, all, short_list, long_list};

use crate::fault::WriteError;
use byte_format::{put_u16, put_u32, put_u64};
use shape_base::Text;

/// A part that is written so.
pub trait Part: Sized {
    /// Its bytes, and whether it fits.
    ghost spelling: { Self → Spelling };

    /// Adds its bytes at the end.
    fn put(&self, out: &mut Vec<u8>) -> Result<(), WriteError>
        ensures { Puts result out.old.items out.new.items (spelling self.now) };
}

/// A number in two bytes.
pub fn put_int16(out: &mut Vec<u8>, number: u64) -> Result<(), WriteError>
    ensures { Puts result out.old.items out.new.items (int16 number) }
{
    if number >= 65536 {
        return Err(WriteError::Unwritable);
    }
    put_u16(out, number as u16)?;
    Ok(())
}

/// A number in four bytes.
pub fn put_int32(out: &mut Vec<u8>, number: u64) -> Result<(), WriteError>
    ensures { Puts result out.old.items out.new.items (int32 number) }
{
    if number >= 4294967296 {
        return Err(WriteError::Unwritable);
    }
    put_u32(out, number as u32)?;
    Ok(())
}

/// A number in eight bytes.
pub fn put_int64(out: &mut Vec<u8>, number: u64) -> Result<(), WriteError>
    ensures { Puts result out.old.items out.new.items (int64 number) }
{
    put_u64(out, number)?;
    Ok(())
}

/// Bytes as they are.
pub fn put_raw(out: &mut Vec<u8>, bytes: &[u8]) -> Result<(), WriteError>
    ensures { Puts result out.old.items out.new.items (raw bytes.now) }
{
    out.extend_from_slice(bytes)?;
    Ok(())
}

/// Whether none of the bytes is zero.
fn has_no_zero(bytes: &[u8]) -> bool
    ensures { result ≡ has_no_zero bytes.now }
{
    for byte in bytes {
        if *byte == 0 {
            return false;
        }
    }
    true
}

/// The bytes of a text, which are UTF-8.
#[tactic(auto, using(crate::proofs::Utf8::passes))]
fn bytes_of(words: &Text) -> &[u8]
    ensures same { result.now ≡ words.now }
    ensures utf8 { is_text result.now ≡ true }
{
    words.as_bytes()
}

/// A text without a zero byte, and a zero byte.
pub fn put_text(out: &mut Vec<u8>, words: &Text) -> Result<(), WriteError>
    ensures { Puts result out.old.items out.new.items (text words.now) }
{
    let bytes = bytes_of(words);
    if !has_no_zero(bytes) {
        return Err(WriteError::Unwritable);
    }
    out.extend_from_slice(bytes)?;
    out.push(0)?;
    Ok(())
}

/// The length of a text in four bytes, and the text.
pub fn put_long_text(out: &mut Vec<u8>, words: &Text) -> Result<(), WriteError>
    ensures { Puts result out.old.items out.new.items (long_text words.now) }
{
    let bytes = bytes_of(words);
    put_int32(out, bytes.len() as u64)?;
    put_raw(out, bytes)?;
    Ok(())
}

/// All of the parts, in order.
fn put_all<T: Part>(out: &mut Vec<u8>, parts: &[T]) -> Result<(), WriteError>
    ensures { Puts result out.old.items out.new.items (all T.spelling parts.now) }
{
    for part in parts {
        part.put(out)?;
    }
    Ok(())
}

/// A count of two bytes, and that many parts.
pub fn put_short_list<T: Part>(out: &mut Vec<u8>, parts: &[T]) -> Result<(), WriteError>
    ensures { Puts result out.old.items out.new.items (short_list T.spelling parts.now) }
{
    put_int16(out, parts.len() as u64)?;
    put_all(out, parts)?;
    Ok(())
}

/// A count of four bytes, and that many parts.
pub fn put_long_list<T: Part>(out: &mut Vec<u8>, parts: &[T]) -> Result<(), WriteError>
    ensures { Puts result out.old.items out.new.items (long_list T.spelling parts.now) }
{
    put_int32(out, parts.len() as u64)?;
    put_all(out, parts)?;
    Ok(())
}
