//! The message that stands first in bytes.
ghost use Rattle.pg_dialogue.specs.Pieces.{IsFirst};

use crate::inbox::head_of;
use crate::wire_error::WireError;

/// The type byte of the message that stands first, and its size with type byte and length; none where it is not whole yet.
///
/// `BadReply` as soon as its length is there and too small to count itself.
pub(crate) fn first_of(place: u64, bytes: &[u8]) -> Result<Option<(u8, usize)>, WireError>
    ensures { IsFirst place bytes.now result }
{
    if bytes.len() < 5 {
        return Ok(None);
    }
    let (kind, len) = head_of(&bytes[..5]);
    if len < 4 {
        return Err(WireError::BadReply { place });
    }
    let size = len as usize + 1;
    if bytes.len() < size {
        return Ok(None);
    }
    Ok(Some((kind, size)))
}
