//! Why a dialogue with the database ends early.
ghost use Rattle.std.specs.Prelude.{◌≡◌};
ghost use Rattle.pg_dialogue.specs.declared.wire_error.WireError.TheVariants.{OutOfMemory};

use shape_base::Text;
use std::alloc::{AllocError, AllocFailed};

/// Why a dialogue with the database ends early. Places count the bytes that the link gave in this dialogue, from 0.
#[derive(PartialEq, Eq, Drop)]
pub enum WireError {
    /// An allocation failed.
    OutOfMemory,
    /// A read or a write of the link failed.
    LinkFault,
    /// The link gives no more, and the dialogue wants more.
    Ended {
        /// How many bytes the link gave.
        place: u64,
    },
    /// The database sent an ErrorResponse.
    ErrorResponse {
        /// The SQLSTATE code (PostgreSQL manual, Appendix A).
        sqlstate: Text,
    },
    /// A message that cannot stand there.
    BadReply {
        /// The place of its first byte.
        place: u64,
    },
    /// The database asks for a password or another proof of who the user is.
    AuthWanted {
        /// The code of the authentication message (PostgreSQL manual, 55.7 Message Formats).
        code: u32,
    },
    /// A column's name or a value that is not UTF-8.
    NotUtf8 {
        /// The place of the message's first byte.
        place: u64,
    },
    /// The dialogue wants more bytes than it may have.
    TooLong {
        /// The most bytes that it may have.
        limit: u64,
    },
}

impl From<AllocError> for WireError {
    ghost from_gives = { λ _ e. e ≡ OutOfMemory };

    fn from(_error: AllocError) -> WireError {
        WireError::OutOfMemory
    }
}

impl<T: Drop> From<AllocFailed<T>> for WireError {
    ghost from_gives = { λ _ e. e ≡ OutOfMemory };

    fn from(_error: AllocFailed<T>) -> WireError {
        WireError::OutOfMemory
    }
}

impl From<shape_base::OutOfMemory> for WireError {
    ghost from_gives = { λ _ e. e ≡ OutOfMemory };

    fn from(_error: shape_base::OutOfMemory) -> WireError {
        WireError::OutOfMemory
    }
}
