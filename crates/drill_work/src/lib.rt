//! The generated work of a drill: from a number, the commits of one table and the steps of four clients, over 2,000 rounds.
#![tactic(auto)]

mod chance;
mod change;
mod clients;
mod drill;
mod fields;
mod messages;
mod notes;
mod plain;

pub use chance::Chance;
pub use clients::{opening, turn_events};
pub use drill::{Drill, ROUNDS, Turn, Turns, turns};
pub use messages::{Events, TABLE_OID, streamed_events};
pub use notes::{Exchanges, Note, Notes, columns, given, take_notes};
pub use plain::{Commit, Commits, Item, Items, Letter, Plain, Statement, Statements};
