//! Entries and bodies as JSON texts (RFC 8259), and back.
#![tactic(auto)]

mod body;
mod control;
pub mod laws;
mod plain;
mod read;
mod row;
mod size;
mod writer;

pub use body::{close_body, put_entries, write_entries};
pub use control::Control;
pub use plain::is_plain;
pub use read::{BodyError, read_body};
pub use row::{push_keyed, push_row};
pub use size::entry_size;
pub use writer::{put_cells, put_entry, put_string};
