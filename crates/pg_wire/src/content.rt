//! What whole payloads give.
ghost use Rattle.std.specs.Prelude.{◌≡◌, ◌⊎◌, ◌∷◌, ℕ, List, Option, Ok, IfOk, IfErr};
ghost use Rattle.byte_format.specs.Format.{Gives};
ghost use Rattle.byte_format.specs.Whole.{whole};
ghost use Rattle.pg_wire.specs.FrameList.{wal, keepalive, content, copy_data, command_complete, copy_done, error_response, or_bad, wal_frame, keepalive_frame};
ghost use Rattle.pg_wire.specs.declared.frame.Frame.{Frame};
ghost use Rattle.pg_wire.specs.Contents.{IsShown, IsAnswer};

use crate::fields::{sqlstate_at, text_at};
use crate::frame::FrameError;
use byte_format::{ReadError, u8_at, u64_at};
use shape_base::{Text, TextError};
use std::alloc::Global;

/// What a payload gives. The message of an XLogData stays where it is, behind 25 bytes.
#[derive(Clone, Copy)]
pub(crate) enum Content {
    /// The frame is passed over.
    Passed,
    /// XLogData.
    Wal { start: u64, end: u64 },
    /// A keepalive.
    Keepalive { end: u64, wanted: bool },
    /// The server sends no more.
    Done,
}

fn wal_of(bytes: &[u8]) -> Result<((u64, u64, u64), &[u8]), ReadError>
    ensures { Gives (λ x. ((x.0.0, (x.0.1, x.0.2)), x.1.now)) result (wal.read bytes.now) }
{
    let (start, rest) = u64_at(bytes)?;
    let (end, rest) = u64_at(rest)?;
    let (time, rest) = u64_at(rest)?;
    Ok(((start, end, time), rest))
}

fn keepalive_of(bytes: &[u8]) -> Result<(u64, u64, u8), ReadError>
    ensures { Gives (λ x. (x.0, (x.1, x.2))) result (whole keepalive bytes.now) }
{
    let (end, rest) = u64_at(bytes)?;
    let (time, rest) = u64_at(rest)?;
    let (wanted, rest) = u8_at(rest)?;
    if !rest.is_empty() {
        return Err(ReadError::Wrong { left: rest.len() });
    }
    Ok((end, time, wanted))
}

/// XLogData, of what stands behind its `w`; none where it is none.
fn wal_at(bytes: &[u8]) -> Result<Option<Content>, FrameError>
    ensures ok { IfOk result (λ o. IsShown (119 ∷ bytes.now) o (wal_frame (wal.read bytes.now))) }
    ensures err { IfErr result (λ e. e ≡ FrameError.OutOfMemory) }
{
    match wal_of(bytes) {
        Ok(((start, end, _), _)) => Ok(Some(Content::Wal { start, end })),
        Err(ReadError::Wrong { left: _ }) => Ok(None),
        Err(ReadError::OutOfMemory) => Err(FrameError::OutOfMemory),
    }
}

/// A keepalive, of what stands behind its `k`; none where it is none.
fn keepalive_at(bytes: &[u8]) -> Result<Option<Content>, FrameError>
    ensures ok { IfOk result (λ o. IsShown (107 ∷ bytes.now) o (keepalive_frame (whole keepalive bytes.now))) }
    ensures err { IfErr result (λ e. e ≡ FrameError.OutOfMemory) }
{
    match keepalive_of(bytes) {
        Ok((end, _, wanted)) => Ok(keepalive(end, wanted)),
        Err(ReadError::Wrong { left: _ }) => Ok(None),
        Err(ReadError::OutOfMemory) => Err(FrameError::OutOfMemory),
    }
}

/// XLogData or a keepalive, by its first byte and what stands behind; none where it is neither.
#[tactic(auto, unfolding(crate::specs::FrameList::copy_data))]
fn data_of(first: u8, rest: &[u8]) -> Result<Option<Content>, FrameError>
    ensures ok { IfOk result (λ o. IsShown (first ∷ rest.now) o (copy_data (first ∷ rest.now))) }
    ensures err { IfErr result (λ e. e ≡ FrameError.OutOfMemory) }
{
    match first {
        b'w' => wal_at(rest),
        b'k' => keepalive_at(rest),
        _ => Ok(None),
    }
}

#[tactic(auto, unfolding(crate::specs::FrameList::copy_data))]
fn copy_data_of(payload: &[u8]) -> Result<Option<Content>, FrameError>
    ensures ok { IfOk result (λ o. IsShown payload.now o (copy_data payload.now)) }
    ensures err { IfErr result (λ e. e ≡ FrameError.OutOfMemory) }
{
    match payload.split_first() {
        Some((first, rest)) => data_of(*first, rest),
        None => Ok(None),
    }
}

/// The byte is 1 where a reply is wanted and else 0.
fn keepalive(end: u64, wanted: u8) -> Option<Content>
    ensures { (time : ℕ) (payload : List ℕ) → IsShown payload result (keepalive_frame (Ok (end, (time, wanted)))) }
{
    if wanted > 1 {
        return None;
    }
    let wanted = wanted == 1;
    Some(Content::Keepalive { end, wanted })
}

fn copy_done_of(payload: &[u8]) -> Option<Content>
    ensures { IsShown payload.now result (copy_done payload.now) }
{
    if payload.is_empty() {
        Some(Content::Done)
    } else {
        None
    }
}

fn command_complete_of(payload: &[u8]) -> Option<Content>
    ensures { IsShown payload.now result (command_complete payload.now) }
{
    let (_, rest) = text_at(payload)?;
    if rest.is_empty() {
        Some(Content::Done)
    } else {
        None
    }
}

fn server_error(alloc: Global, place: u64, payload: &[u8]) -> FrameError
    ensures { (result ≡ FrameError.OutOfMemory) ⊎ (result ≡ error_response place payload.now) }
{
    let Some(code) = sqlstate_at(payload) else {
        return FrameError::BadFrame { place };
    };
    match Text::read(alloc, code) {
        Ok(sqlstate) => FrameError::ServerError { place, sqlstate },
        Err(TextError::NotUtf8 { place: _ }) => FrameError::BadFrame { place },
        Err(TextError::OutOfMemory) => FrameError::OutOfMemory,
    }
}

fn or_bad(place: u64, content: Option<Content>) -> Result<Content, FrameError>
    ensures { (payload : List ℕ) (frame : Option Frame) → IsShown payload content frame → IsAnswer payload result (or_bad place frame) }
{
    match content {
        Some(content) => Ok(content),
        None => Err(FrameError::BadFrame { place }),
    }
}

/// What a whole payload behind this type byte gives.
#[tactic(auto, unfolding(crate::specs::FrameList::content))]
pub(crate) fn content_of(
    alloc: Global,
    place: u64,
    kind: u8,
    payload: &[u8],
) -> Result<Content, FrameError>
    ensures { IsAnswer payload.now result (content place kind payload.now) }
{
    match kind {
        b'd' => or_bad(place, copy_data_of(payload)?),
        b'c' => or_bad(place, copy_done_of(payload)),
        b'C' => or_bad(place, command_complete_of(payload)),
        b'E' => Err(server_error(alloc, place, payload)),
        _ => Ok(Content::Passed),
    }
}
