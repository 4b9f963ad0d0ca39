//! The frame that stands first.
ghost use Rattle.std.specs.Prelude.{◌≡◌, ◌+◌, ◌≤◌, length, Ok, Some};
ghost use Rattle.pg_wire.specs.FrameList.{whole_at};
ghost use Rattle.pg_wire.specs.Contents.{IsFirstAnswer};

use crate::content::{Content, content_of};
use crate::frame::FrameError;
use crate::header::whole_at;
use std::alloc::Global;

/// What a whole frame gives, by its type byte and its payload's length, and its size.
fn framed_of(
    alloc: Global,
    place: u64,
    kind: u8,
    len: u32,
    bytes: &[u8],
) -> Result<Option<(Content, usize)>, FrameError>
    requires whole { whole_at place bytes.now ≡ Ok (Some (kind, len)) }
    requires inside { 5 + len ≤ length bytes.now }
    ensures { IsFirstAnswer place bytes.now result }
{
    let size = 5 + len as usize;
    match content_of(alloc, place, kind, &bytes[5..size]) {
        Ok(content) => Ok(Some((content, size))),
        Err(error) => Err(error),
    }
}

/// What the frame that stands first gives, and its size; none where it is not whole yet.
pub(crate) fn first_of(
    alloc: Global,
    place: u64,
    bytes: &[u8],
) -> Result<Option<(Content, usize)>, FrameError>
    ensures { IsFirstAnswer place bytes.now result }
{
    match whole_at(place, bytes) {
        Ok(Some((kind, len))) => framed_of(alloc, place, kind, len, bytes),
        Ok(None) => Ok(None),
        Err(error) => Err(error),
    }
}
