//! What stands in the stream, and why it is refused.
ghost use Rattle.std.specs.Prelude.{◌≡◌};
ghost use Rattle.pg_wire.specs.declared.frame.FrameError.TheVariants.{OutOfMemory};

use bytes::Bytes;
use shape_base::Text;
use std::alloc::AllocError;

/// The most that a frame's length may be, which counts itself and the payload and not the type byte.
pub const LONGEST: u64 = 67_109_888;

/// A frame of the replication connection.
#[derive(PartialEq, Eq, Drop)]
pub enum Frame {
    /// CopyData with XLogData.
    Wal {
        /// The LSN at which the message begins.
        start: u64,
        /// The end LSN of the server's write-ahead log.
        end: u64,
        /// One message of the logical decoding plugin. It shares the bytes that were fed.
        message: Bytes,
    },
    /// CopyData with a primary keepalive message.
    Keepalive {
        /// The end LSN of the server's write-ahead log.
        end: u64,
        /// Whether the server wants a status update at once.
        wanted: bool,
    },
    /// CopyDone or CommandComplete: the server sends no more.
    Done,
}

/// Why no frame comes.
#[derive(PartialEq, Eq, Drop)]
pub enum FrameError {
    /// An allocation failed.
    OutOfMemory,
    /// These bytes begin no frame.
    BadFrame {
        /// The place of the frame's first byte, from 0, in all that was fed.
        place: u64,
    },
    /// A length is above the limit.
    FrameTooLong {
        /// The place of the frame's first byte, from 0, in all that was fed.
        place: u64,
        /// The length.
        bytes: u64,
        /// The most that it may be.
        limit: u64,
    },
    /// ErrorResponse.
    ServerError {
        /// The place of the frame's first byte, from 0, in all that was fed.
        place: u64,
        /// The SQLSTATE code (PostgreSQL manual, Appendix A).
        sqlstate: Text,
    },
}

impl From<AllocError> for FrameError {
    ghost from_gives = { λ _ e. e ≡ OutOfMemory };

    fn from(_error: AllocError) -> FrameError {
        FrameError::OutOfMemory
    }
}
