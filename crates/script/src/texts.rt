//! Texts: UTF-8.
ghost use Rattle.byte_format.specs.Format.{Gives};
ghost use Rattle.script.specs.Texts.{if_utf8, text_at, long_text_at};

use byte_format::{ReadError, chunk_of, string_of};
use shape_base::Text;
use std::alloc::Global;

/// The text of these bytes, where they are UTF-8.
fn utf8_of(bytes: Vec<u8>) -> Result<Text, ReadError>
    ensures { Gives (λ x. x) result (if_utf8 bytes.items) }
{
    match Text::from_bytes(bytes) {
        Ok(text) => Ok(text),
        Err(_) => Err(ReadError::Wrong { left: 0 }),
    }
}

/// A String, which ends with a zero byte, and the bytes after it.
#[tactic(auto, unfolding(crate::specs::Texts::text_at))]
pub fn text_of(alloc: Global, bytes: &[u8]) -> Result<(Text, &[u8]), ReadError>
    ensures { Gives (λ x. (x.0, x.1.now)) result (text_at bytes.now) }
{
    let (text, rest) = string_of(alloc, bytes)?;
    Ok((utf8_of(text)?, rest))
}

/// A text behind its length, and the bytes after it.
#[tactic(auto, unfolding(crate::specs::Texts::long_text_at))]
pub fn long_text_of(alloc: Global, bytes: &[u8]) -> Result<(Text, &[u8]), ReadError>
    ensures { Gives (λ x. (x.0, x.1.now)) result (long_text_at bytes.now) }
{
    let (text, rest) = chunk_of(alloc, bytes)?;
    Ok((utf8_of(text)?, rest))
}
