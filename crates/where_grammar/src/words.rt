//! Words of clauses that trees name.

/// What IS asks of its left side.
#[derive(Clone, Copy, Debug, Drop)]
pub enum IsTest {
    Null,
    True,
    False,
    Unknown,
}
