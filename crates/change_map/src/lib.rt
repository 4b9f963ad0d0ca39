//! What a change of a table does to a shape: the key text of a row, and the entries of a change.
//!
//! It works over any `RowTest`, the rows that a shape selects.
#![tactic(auto)]

mod cells;
mod emitting;
mod key;
mod key_reader;
mod order;
mod wanted;

pub use emitting::{EmitError, Emitted, Emitter};
pub use key::{KeyError, key_text};
pub use key_reader::{KeyTextError, read_key};
