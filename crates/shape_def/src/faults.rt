//! Why a request has no definition.
use shape_base::OutOfMemory;
use where_eval::CheckError;
use where_parser::ParseError;

/// Why a request has no definition, in the order in which they are tried; want of memory may come always.
#[derive(Debug, Drop)]
pub enum DefError {
    OutOfMemory,
    /// The definition lacks a key column, or two of its columns have one name.
    KeyMissing,
    /// A chosen column is none of the definition's, with no atom; or the leaf of this number in
    /// the clause names no column.
    UnknownColumn { atom: Option<u32> },
    /// Columns are chosen, and a key column is not among them.
    KeyNotSelected,
    /// The text is no clause; the place is a number of bytes from its start.
    Syntax { place: u64 },
    /// Groups and NOT words stand too deep in one another from this byte on.
    TooDeep { place: u64 },
    /// A part of the node whose first leaf this is has another type than is asked for.
    TypeMismatch { atom: u32 },
    /// The leaf is a string without a value under the type that its place asks for, or a pattern
    /// of LIKE that ends inside an escape.
    BadLiteral { atom: u32 },
}

impl From<OutOfMemory> for DefError {
    ghost use Rattle.std.specs.Prelude.{◌≡◌};
    ghost use Rattle.shape_def.specs.declared.faults.DefError.TheVariants as errors;

    ghost from_gives = { λ _ e. e ≡ errors.OutOfMemory };

    fn from(_error: OutOfMemory) -> DefError {
        DefError::OutOfMemory
    }
}

impl From<ParseError> for DefError {
    ghost use Rattle.std.specs.Prelude.{◌≡◌};
    ghost use Rattle.shape_def.specs.Clauses.{of_parse};

    ghost from_gives = { λ x e. e ≡ of_parse x };

    fn from(error: ParseError) -> DefError {
        match error {
            ParseError::OutOfMemory => DefError::OutOfMemory,
            ParseError::Syntax { place } => DefError::Syntax { place },
            ParseError::TooDeep { place } => DefError::TooDeep { place },
        }
    }
}

impl From<CheckError> for DefError {
    ghost use Rattle.std.specs.Prelude.{◌≡◌};
    ghost use Rattle.shape_def.specs.Clauses.{of_check};

    ghost from_gives = { λ x e. e ≡ of_check x };

    fn from(error: CheckError) -> DefError {
        match error {
            CheckError::OutOfMemory => DefError::OutOfMemory,
            CheckError::UnknownColumn { atom } => DefError::UnknownColumn { atom: Some(atom) },
            CheckError::TypeMismatch { atom } => DefError::TypeMismatch { atom },
            CheckError::BadLiteral { atom } => DefError::BadLiteral { atom },
        }
    }
}
