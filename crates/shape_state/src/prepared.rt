//! What is prepared for a commit.
use chunked_log::Written;
use shape_base::{Cause, Tx};

/// What a shape does with a commit. All memory for it is taken.
#[derive(Drop)]
pub enum Prepared {
    /// Nothing: the shape is dropped, or its snapshot shows the commit and all before it.
    Skip,
    /// It keeps this copy of the commit until its snapshot comes.
    Buffer { tx: Tx },
    /// Its log gets these entries, which are written.
    Append { written: Written },
    /// It is dropped.
    Drop { cause: Cause },
}
