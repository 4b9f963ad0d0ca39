//! Why a record was not read.
ghost use Rattle.std.specs.Prelude.{◌≡◌};
ghost use Rattle.script.specs.declared.fault.RecordError.TheVariants.{OutOfMemory};

use shape_base::OutOfMemory as NoMemory;

/// Why a record was not read.
#[derive(Clone, Copy, Debug, PartialEq, Eq)]
pub enum RecordError {
    /// No record has this kind byte.
    UnknownKind,
    /// The payload is not of its kind's form.
    BadPayload,
    /// An allocation failed.
    OutOfMemory,
}

impl From<NoMemory> for RecordError {
    ghost from_gives = { λ _ e. e ≡ OutOfMemory };

    fn from(_error: NoMemory) -> RecordError {
        RecordError::OutOfMemory
    }
}
