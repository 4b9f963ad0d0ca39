//! The counting of frames.
ghost use Rattle.std.specs.Prelude.{◌<◌};

use pg_wire::{Frame, Frames};

/// How many frames came.
#[derive(Drop)]
pub struct Counts {
    /// Frames with a message.
    pub wals: u64,
    /// The bytes of their messages.
    pub bytes: u64,
    /// Keepalives.
    pub keepalives: u64,
}

impl Counts {
    pub fn new() -> Counts {
        Counts {
            wals: 0,
            bytes: 0,
            keepalives: 0,
        }
    }

    fn count(&mut self, frame: Frame) {
        match frame {
            Frame::Wal { message, .. } => {
                self.wals = self.wals.saturating_add(1);
                self.bytes = self.bytes.saturating_add(message.len() as u64);
            }
            Frame::Keepalive { .. } => self.keepalives = self.keepalives.saturating_add(1),
            Frame::Done => {}
        }
    }

    /// Takes the frames that are there; false where one is refused.
    fn take_frames(&mut self, frames: &mut Frames) -> bool {
        for _ in 0..u64::MAX {
            match frames.next() {
                Ok(Some(frame)) => self.count(frame),
                Ok(None) => return true,
                Err(_) => return false,
            }
        }
        true
    }

    /// Feeds the bytes in pieces of this size, and takes the frames after each; false where the bytes are refused.
    pub fn take_pieces(&mut self, frames: &mut Frames, bytes: &[u8], size: usize) -> bool
        requires { 0 < size }
    {
        for piece in bytes.chunks(size) {
            if frames.feed(piece).is_err() {
                return false;
            }
            if !self.take_frames(frames) {
                return false;
            }
        }
        true
    }
}
