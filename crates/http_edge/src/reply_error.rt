//! Why bytes were not read as a reply.
use shape_base::OutOfMemory;
use std::alloc::AllocError;

/// Why bytes were not read as a reply.
#[derive(Clone, Copy, Debug, PartialEq, Eq)]
pub enum ReplyError {
    /// The bytes have no empty line yet, or fewer bytes follow their head than it states.
    Partial,
    /// The bytes up to the first empty line are no head of a reply, or the body is not UTF-8.
    BadReply,
    OutOfMemory,
}

impl From<OutOfMemory> for ReplyError {
    ghost use Rattle.std.specs.Prelude.{◌≡◌};
    ghost use Rattle.http_edge.specs.declared.reply_error.ReplyError.TheVariants as errors;

    ghost from_gives = { λ _ e. e ≡ errors.OutOfMemory };

    fn from(_error: OutOfMemory) -> ReplyError {
        ReplyError::OutOfMemory
    }
}

impl From<AllocError> for ReplyError {
    ghost use Rattle.std.specs.Prelude.{◌≡◌};
    ghost use Rattle.http_edge.specs.declared.reply_error.ReplyError.TheVariants as errors;

    ghost from_gives = { λ _ e. e ≡ errors.OutOfMemory };

    fn from(_error: AllocError) -> ReplyError {
        ReplyError::OutOfMemory
    }
}
