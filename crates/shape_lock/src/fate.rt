//! What becomes of a commit at a shape.
use shape_base::Cause;

/// What became of a commit at a shape.
#[derive(Clone, Copy)]
pub enum Fate {
    /// It was taken by a shape that has its snapshot.
    Appended,
    /// It was taken by a shape that waits for its snapshot.
    Buffered,
    /// It was taken, and drops the shape.
    Stopped { cause: Cause },
    /// The shape was dropped before.
    Found { cause: Cause },
    /// Memory was wanted, and the shape is dropped for it.
    Starved,
}
