//! What the first target of a client asks for.
ghost use Rattle.std.specs.Prelude.{◌≡◌};
ghost use Rattle.core_machine.specs.Firsts.{code_of};

use http_edge::{ErrorCode, Refusal};
use shape_base::Ask;

/// What the first target of a client asks for, as it was routed.
#[derive(Drop)]
pub enum First {
    /// It is refused.
    Refused(Refusal),
    /// It asks for a part of a table.
    AsksFor(Ask),
}

/// The code with which what is routed is refused.
pub fn code_of(refusal: Refusal) -> ErrorCode
    ensures { result ≡ code_of refusal }
{
    match refusal {
        Refusal::MethodRefused => ErrorCode::MethodRefused,
        Refusal::PathUnknown => ErrorCode::PathUnknown,
        Refusal::BadEscape => ErrorCode::BadEscape,
        Refusal::RepeatedParameter => ErrorCode::RepeatedParameter,
        Refusal::MissingTable => ErrorCode::MissingTable,
        Refusal::TableNotServed => ErrorCode::TableNotServed,
        Refusal::WhereTooLong => ErrorCode::WhereTooLong,
        Refusal::WhereSyntax { place } => ErrorCode::WhereSyntax { place },
        Refusal::BadOffset => ErrorCode::BadOffset,
        Refusal::HandleNeeded => ErrorCode::HandleNeeded,
        Refusal::LiveAtStart => ErrorCode::LiveAtStart,
        Refusal::OutOfMemory => ErrorCode::OutOfMemory,
    }
}
