//! Why a request asks for nothing.
use shape_base::OutOfMemory;
use std::alloc::{AllocError, AllocFailed};

/// Why a request asks for nothing, in the order in which they are tried; want of memory may come always.
#[derive(Clone, Copy, Debug, PartialEq, Eq)]
pub enum Refusal {
    /// The method is not GET.
    MethodRefused,
    /// The path is not `/v1/shape`.
    PathUnknown,
    /// A percent sign has no two hexadecimal digits after it, or a name or a value is not UTF-8.
    BadEscape,
    /// A parameter that is looked at stands twice.
    RepeatedParameter,
    MissingTable,
    TableNotServed,
    /// The clause has more than 8,192 bytes.
    WhereTooLong,
    /// The text is no clause; the place is a number of bytes from its start.
    WhereSyntax { place: u64 },
    /// The offset is absent or cannot be read.
    BadOffset,
    /// An offset other than `-1` stands without a handle.
    HandleNeeded,
    /// A request from `-1` waits for nothing.
    LiveAtStart,
    OutOfMemory,
}

impl From<OutOfMemory> for Refusal {
    ghost use Rattle.std.specs.Prelude.{◌≡◌};
    ghost use Rattle.http_edge.specs.declared.refusal.Refusal.TheVariants as refusals;

    ghost from_gives = { λ _ e. e ≡ refusals.OutOfMemory };

    fn from(_error: OutOfMemory) -> Refusal {
        Refusal::OutOfMemory
    }
}

impl From<AllocError> for Refusal {
    ghost use Rattle.std.specs.Prelude.{◌≡◌};
    ghost use Rattle.http_edge.specs.declared.refusal.Refusal.TheVariants as refusals;

    ghost from_gives = { λ _ e. e ≡ refusals.OutOfMemory };

    fn from(_error: AllocError) -> Refusal {
        Refusal::OutOfMemory
    }
}

impl<T: Drop> From<AllocFailed<T>> for Refusal {
    ghost use Rattle.std.specs.Prelude.{◌≡◌};
    ghost use Rattle.http_edge.specs.declared.refusal.Refusal.TheVariants as refusals;

    ghost from_gives = { λ _ e. e ≡ refusals.OutOfMemory };

    fn from(_error: AllocFailed<T>) -> Refusal {
        Refusal::OutOfMemory
    }
}
