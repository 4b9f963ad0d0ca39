//! Truth with a third value (PostgreSQL manual, 9.1 Logical Operators).

/// The truth of a row under a clause.
#[derive(Clone, Copy, Debug, PartialEq, Eq)]
pub enum Tri {
    True,
    False,
    /// A null took part, and what is known does not settle the answer.
    Unknown,
}
