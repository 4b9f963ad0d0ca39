//! Why reading stops.
ghost use Rattle.std.specs.Prelude.{◌≡◌};
ghost use Rattle.where_parser.specs.declared.stop.Stop.TheVariants.{Memory};

use shape_base::OutOfMemory;
use std::alloc::{AllocError, AllocFailed};
use where_lexer::Token;

/// Why no part of a clause was read, with the tokens from the fault on.
#[derive(Drop)]
pub enum Stop<'a> {
    Memory,
    Syntax(&'a [Token]),
    TooDeep(&'a [Token]),
}

impl<'a> From<OutOfMemory> for Stop<'a> {
    ghost from_gives = { λ _ e. e ≡ Memory };

    fn from(_error: OutOfMemory) -> Stop<'a> {
        Stop::Memory
    }
}

impl<'a> From<AllocError> for Stop<'a> {
    ghost from_gives = { λ _ e. e ≡ Memory };

    fn from(_error: AllocError) -> Stop<'a> {
        Stop::Memory
    }
}

impl<'a, T: Drop> From<AllocFailed<T>> for Stop<'a> {
    ghost from_gives = { λ _ e. e ≡ Memory };

    fn from(_error: AllocFailed<T>) -> Stop<'a> {
        Stop::Memory
    }
}
