//! What a registration answers.
use shape_base::OutOfMemory;
use std::alloc::AllocError;

/// A shape was registered: its number, and the id of the last transaction taken before, if there was one.
#[derive(Clone, Copy, Debug)]
pub struct Started {
    pub number: u64,
    pub last: Option<u32>,
}

/// Why no shape was registered.
#[derive(Clone, Copy, Debug)]
pub enum StartError {
    /// Its identity is live, with that number.
    Exists { number: u64 },
    /// That many shapes are live, and no more may be.
    TooMany { live: u64, limit: u64 },
    /// 2^64 - 1 was given, the last number.
    NumbersSpent,
    OutOfMemory,
}

impl From<AllocError> for StartError {
    ghost use Rattle.std.specs.Prelude.{◌≡◌};
    ghost use Rattle.shared_shapes.specs.declared.started.StartError.TheVariants as errors;

    ghost from_gives = { λ _ e. e ≡ errors.OutOfMemory };

    fn from(_error: AllocError) -> StartError {
        StartError::OutOfMemory
    }
}

impl From<OutOfMemory> for StartError {
    ghost use Rattle.std.specs.Prelude.{◌≡◌};
    ghost use Rattle.shared_shapes.specs.declared.started.StartError.TheVariants as errors;

    ghost from_gives = { λ _ e. e ≡ errors.OutOfMemory };

    fn from(_error: OutOfMemory) -> StartError {
        StartError::OutOfMemory
    }
}
