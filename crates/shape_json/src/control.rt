//! Controls.

/// What the end of a body says.
#[derive(Clone, Copy, Debug, PartialEq, Eq)]
pub enum Control {
    /// Nothing: more entries may follow.
    Nothing,
    /// The entries so far are all that there were.
    UpToDate,
    /// What was folded so far is to be thrown away.
    MustRefetch,
}
