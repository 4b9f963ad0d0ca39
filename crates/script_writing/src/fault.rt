//! Why a record was not written.
ghost use Rattle.std.specs.Prelude.{◌≡◌};
ghost use Rattle.script_writing.specs.declared.fault.WriteError.TheVariants as errors;

use shape_base::OutOfMemory as NoMemory;
use std::alloc::{AllocError, AllocFailed};

/// Why a record was not written.
#[derive(Clone, Copy, Debug, PartialEq, Eq, Drop)]
pub enum WriteError {
    /// No bytes are read as this record: a name has a zero byte, a count or a length has no room in its field, or a table is none that can be declared.
    Unwritable,
    /// An allocation failed.
    OutOfMemory,
}

impl From<AllocError> for WriteError {
    ghost from_gives = { λ _ e. e ≡ errors.OutOfMemory };

    fn from(_error: AllocError) -> WriteError {
        WriteError::OutOfMemory
    }
}

impl<T: Drop> From<AllocFailed<T>> for WriteError {
    ghost from_gives = { λ _ e. e ≡ errors.OutOfMemory };

    fn from(_error: AllocFailed<T>) -> WriteError {
        WriteError::OutOfMemory
    }
}

impl From<NoMemory> for WriteError {
    ghost from_gives = { λ _ e. e ≡ errors.OutOfMemory };

    fn from(_error: NoMemory) -> WriteError {
        WriteError::OutOfMemory
    }
}
