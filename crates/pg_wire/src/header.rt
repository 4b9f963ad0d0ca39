//! Type bytes and lengths.
ghost use Rattle.std.specs.Prelude.{◌≡◌};
ghost use Rattle.pg_wire.specs.FrameList.{is_type, may_be_data, may_be, payload_at, length_at, whole_at};

use crate::frame::{FrameError, LONGEST};

fn is_type(kind: u8) -> bool
    ensures { result ≡ is_type kind }
{
    matches!(kind, b'd' | b'c' | b'C' | b'E' | b'S' | b'N')
}

/// Whether a CopyData's payload may have this length, as far as its first byte tells.
fn may_be_data(len: u32, rest: &[u8]) -> bool
    ensures { result ≡ may_be_data len rest.now }
{
    match rest {
        [] => len >= 25 || len == 18,
        [first, ..] => (*first == b'w' && len >= 25) || (*first == b'k' && len == 18),
    }
}

fn may_be(kind: u8, len: u32, rest: &[u8]) -> bool
    ensures { result ≡ may_be kind len rest.now }
{
    match kind {
        b'd' => may_be_data(len, rest),
        b'c' => len == 0,
        _ => true,
    }
}

/// The type byte and the payload's length of the frame that stands first; none where it is not whole yet.
///
/// `BadFrame` at a type byte that is unknown, at a length below 4, and where no payload of this length begins so; `FrameTooLong` at a length above the limit.
#[tactic(auto, unfolding(crate::specs::FrameList::whole_at))]
pub(crate) fn whole_at(place: u64, bytes: &[u8]) -> Result<Option<(u8, u32)>, FrameError>
    ensures { result ≡ whole_at place bytes.now }
{
    let [kind, sized @ ..] = bytes else {
        return Ok(None);
    };
    if !is_type(*kind) {
        return Err(FrameError::BadFrame { place });
    }
    let [a, b, c, d, rest @ ..] = sized else {
        return Ok(None);
    };
    length_at(place, *kind, u32::from_be_bytes([*a, *b, *c, *d]), rest)
}

#[tactic(auto, unfolding(crate::specs::FrameList::length_at))]
fn length_at(place: u64, kind: u8, len: u32, rest: &[u8]) -> Result<Option<(u8, u32)>, FrameError>
    ensures { result ≡ length_at place kind len rest.now }
{
    let bytes = len as u64;
    if bytes > LONGEST {
        let limit = LONGEST;
        return Err(FrameError::FrameTooLong {
            place,
            bytes,
            limit,
        });
    }
    if len < 4 {
        return Err(FrameError::BadFrame { place });
    }
    payload_at(place, kind, len - 4, rest)
}

#[tactic(auto, unfolding(crate::specs::FrameList::payload_at))]
fn payload_at(place: u64, kind: u8, len: u32, rest: &[u8]) -> Result<Option<(u8, u32)>, FrameError>
    ensures { result ≡ payload_at place kind len rest.now }
{
    if !may_be(kind, len, rest) {
        return Err(FrameError::BadFrame { place });
    }
    if rest.len() < len as usize {
        return Ok(None);
    }
    Ok(Some((kind, len)))
}
