//! What snapshots and commits add to the log of a shape, over any test of its rows.
//!
//! Nothing is added by halves: a snapshot with a row that cannot be taken, and a commit that stops the shape, give no entry.
#![tactic(auto)]

mod commit;
mod joining;
mod start;

pub use commit::commit_entries;
pub use joining::{Past, entries_past, join};
pub use start::start_entries;
