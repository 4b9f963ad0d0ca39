//! The frames of a stream whose bytes come in pieces.
ghost use Rattle.std.specs.Prelude.{◌≡◌, ◌⊎◌, ℕ, ◌<◌, ◌≤◌, ◌+◌, List, [], ◌++◌, length, take, drop, Option, None, Some, Ok, Err, MatchResult, OnOk, OnErr, IfOk, IfErr, IsErrOf};
ghost use Rattle.pg_wire.specs.declared.frame.Frame.{Frame};
ghost use Rattle.pg_wire.specs.declared.frame.FrameError.{FrameError};
ghost use Rattle.pg_wire.specs.FrameList.{beginning, frames_of, Unfinished, Refused};
ghost use Rattle.pg_wire.specs.Cutting.{Took, Stepped, given};

use crate::content::Content;
use crate::first::first_of;
use crate::frame::{Frame, FrameError};
use bytes::{Bytes, BytesMut};
use shape_base::OutOfMemory;
use std::alloc::{AllocError, Global};
use std::marker::Model;

/// The bytes of a stream that were fed and not yet taken. A contract sees the place of the first of them in the stream, from 0, and these bytes.
#[derive(Drop)]
pub struct Frames {
    place: u64,
    bytes: BytesMut,
}

impl Model for Frames {
    ghost use Rattle.std.specs.Prelude.{◌<◌, ◌^◌, ◌+◌, length};
    ghost use Rattle.pg_wire.specs.Reached.{Reached, reached_code};

    ghost Value = { Reached };

    ghost coded = { reached_code };

    ghost view = { λ f. record { place = f.place; rest = f.bytes.items } };

    ghost invariant = { λ f. f.place + length f.bytes.items < 2 ^ 64 };
}

/// What stood first.
enum Step {
    /// No whole frame.
    Open,
    /// A frame that is passed over; it was taken.
    Passed,
    /// A frame; it was taken.
    Given(Frame),
}

/// What stands behind so many bytes.
fn behind(mut bytes: Bytes, count: usize) -> Bytes
    ensures { result ≡ drop count bytes }
{
    if bytes.len() < count {
        return Bytes::new();
    }
    bytes.advance(count);
    bytes
}

impl Frames {
    /// The beginning of a stream.
    pub fn new(alloc: Global) -> Frames
        ensures took { Took [] [] result }
        ensures rest { result.rest ≡ [] }
    {
        Frames {
            place: 0,
            bytes: BytesMut::new(alloc),
        }
    }

    /// The next bytes of the stream, which are copied once. After 2^64 bytes no more are taken, as where memory runs out.
    pub fn feed(&mut self, piece: &[u8]) -> Result<(), OutOfMemory>
        ensures place { self.new.place ≡ self.old.place }
        ensures rest { OnOk result (self.new.rest ≡ self.old.rest ++ piece.now) }
        // The bytes that were fed are those of the pieces.
        ensures took { OnOk result ((fed : List ℕ) (taken : List Frame) → Took fed taken self.old → Took (fed ++ piece.now) taken self.new) }
        ensures err { OnErr result (self.new.rest ≡ self.old.rest) }
    {
        let room = u64::MAX - (self.place + self.bytes.len() as u64);
        if room < piece.len() as u64 {
            return Err(OutOfMemory);
        }
        self.bytes.extend_from_slice(piece)?;
        Ok(())
    }

    /// How many bytes were fed and not yet taken.
    pub fn rest(&self) -> u64
        ensures { result ≡ length self.now.rest }
    {
        self.bytes.len() as u64
    }

    fn step(&mut self) -> Result<Step, FrameError>
        ensures ok { IfOk result (λ s. Stepped self.old s self.new) }
        ensures kept { OnErr result (self.new ≡ self.old) }
        ensures err { IfErr result (λ e. (e ≡ FrameError.OutOfMemory) ⊎ (beginning self.old.place self.old.rest ≡ Refused e)) }
    {
        let alloc = *self.bytes.allocator();
        let Some((content, size)) = first_of(alloc, self.place, self.bytes.as_slice())? else {
            return Ok(Step::Open);
        };
        match content {
            Content::Passed => {
                self.pass(size);
                Ok(Step::Passed)
            }
            Content::Wal { start, end } => {
                let message = self.message(size)?;
                Ok(Step::Given(Frame::Wal {
                    start,
                    end,
                    message,
                }))
            }
            Content::Keepalive { end, wanted } => {
                self.pass(size);
                Ok(Step::Given(Frame::Keepalive { end, wanted }))
            }
            Content::Done => {
                self.pass(size);
                Ok(Step::Given(Frame::Done))
            }
        }
    }

    fn pass(&mut self, size: usize)
        requires { size ≤ length self.old.rest }
        ensures { (self.new.place ≡ self.old.place + size) × (self.new.rest ≡ drop size self.old.rest) }
    {
        self.bytes.advance(size);
        self.place += size as u64;
    }

    /// Takes an XLogData's frame of this size, and gives its message, which shares the bytes.
    fn message(&mut self, size: usize) -> Result<Bytes, AllocError>
        requires { (5 ≤ size) × (size ≤ length self.old.rest) }
        ensures ok { IfOk result (λ message. message ≡ drop 25 (drop 5 (take size self.old.rest))) }
        ensures taken { OnOk result ((self.new.place ≡ self.old.place + size) × (self.new.rest ≡ drop size self.old.rest)) }
        ensures kept { OnErr result (self.new ≡ self.old) }
    {
        let mut payload = self.bytes.freeze_to(size)?;
        self.place += size as u64;
        payload.advance(5);
        Ok(behind(payload, 25))
    }

    /// The next frame; `None` exactly where what was fed and not yet taken is no whole frame and nothing that is refused. Frames that are passed over are
    /// taken on the way. After a refusal the same comes again.
    ///
    /// The refusals have the place of the frame's first byte in all that was fed, and are tried in this order. `BadFrame`: a type byte that is unknown.
    /// `FrameTooLong`: a length above `LONGEST`. `BadFrame`: a length below 4; a payload that is not as its type byte wants it, as soon as nothing can
    /// complete it, for CommandComplete and ErrorResponse when it is whole. `ServerError`: an ErrorResponse.
    pub fn next(&mut self) -> Result<Option<Frame>, FrameError>
        // However the bytes were cut: what is taken is the front of their list of frames.
        ensures took { (fed : List ℕ) (taken : List Frame) → Took fed taken self.old → Took fed (taken ++ given result) self.new }
        // `None`: no whole frame and nothing that is refused stands at the place reached, and the frames of all that was fed are those that were taken.
        ensures none { IfOk result (λ o. o ≡ None → beginning self.new.place self.new.rest ≡ Unfinished) }
        ensures whole { result ≡ Ok None → (fed : List ℕ) (taken : List Frame) → Took fed taken self.old → frames_of fed ≡ record { frames = taken; refusal = None } }
        // A refusal is the one that ends the list, whatever is fed behind.
        ensures refused { IfErr result (λ e. (e ≡ FrameError.OutOfMemory) ⊎ ((fed more : List ℕ) (taken : List Frame) → Took fed taken self.old → frames_of (fed ++ more) ≡ record { frames = taken; refusal = Some e })) }
    {
        loop {
            match self.step() {
                Ok(Step::Open) => return Ok(None),
                Ok(Step::Passed) => {}
                Ok(Step::Given(frame)) => return Ok(Some(frame)),
                Err(error) => return Err(error),
            }
        }
    }
}
