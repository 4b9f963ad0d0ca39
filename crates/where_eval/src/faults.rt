//! Why a clause cannot be checked.
use shape_base::OutOfMemory;

/// Why a clause cannot be checked against columns. An atom is the number of a leaf, from 0, left to right: a name, an
/// integer, a string, TRUE, FALSE, NULL, or the pattern of LIKE. Numbers stand still at 2^32 - 1.
#[derive(Debug, Drop)]
pub enum CheckError {
    OutOfMemory,
    /// The leaf names no column.
    UnknownColumn { atom: u32 },
    /// A part of the node whose first leaf this is has another type than the node's other parts or the node asks for.
    TypeMismatch { atom: u32 },
    /// The string has no value under the type that its place asks for, or the pattern of LIKE ends inside an escape.
    BadLiteral { atom: u32 },
}

impl From<OutOfMemory> for CheckError {
    ghost use Rattle.std.specs.Prelude.{◌≡◌};
    ghost use Rattle.where_eval.specs.declared.faults.CheckError.TheVariants as errors;

    ghost from_gives = { λ _ e. e ≡ errors.OutOfMemory };

    fn from(_error: OutOfMemory) -> CheckError {
        CheckError::OutOfMemory
    }
}
