//! Why a run ended before its end record.
ghost use Rattle.std.specs.Prelude.{◌≡◌};
ghost use Rattle.script_play.specs.declared.stop.Stop.TheVariants.{OutOfMemory};
ghost use Rattle.script_play.specs.Replaying.{stop_of_read};

use crate::cause::ScriptCause;
use script::ReadStop;
use std::alloc::{AllocError, AllocFailed};

/// Why a run ended before its end record.
#[derive(Clone, Copy, Debug, PartialEq, Eq)]
pub enum Stop {
    /// An allocation failed.
    OutOfMemory,
    /// The words are no form of the command line.
    Usage,
    /// The input failed.
    ReadFault,
    /// The output failed.
    WriteFault,
    /// A record was refused: the place of its first byte, and why.
    BadScript { place: u64, cause: ScriptCause },
    /// The input ended before the end record.
    Unfinished,
    /// The script is longer than its limit.
    TooLong,
    /// A record would make one exchange more than a script may have.
    TooManyExchanges,
}

impl From<AllocError> for Stop {
    ghost from_gives = { λ _ e. e ≡ OutOfMemory };

    fn from(_error: AllocError) -> Stop {
        Stop::OutOfMemory
    }
}

impl<T: Drop> From<AllocFailed<T>> for Stop {
    ghost from_gives = { λ _ e. e ≡ OutOfMemory };

    fn from(_error: AllocFailed<T>) -> Stop {
        Stop::OutOfMemory
    }
}

impl From<shape_base::OutOfMemory> for Stop {
    ghost from_gives = { λ _ e. e ≡ OutOfMemory };

    fn from(_error: shape_base::OutOfMemory) -> Stop {
        Stop::OutOfMemory
    }
}

impl From<ReadStop> for Stop {
    ghost from_gives = { λ t e. e ≡ stop_of_read t };

    fn from(stop: ReadStop) -> Stop {
        match stop {
            ReadStop::OutOfMemory => Stop::OutOfMemory,
            ReadStop::ReadFault => Stop::ReadFault,
        }
    }
}
