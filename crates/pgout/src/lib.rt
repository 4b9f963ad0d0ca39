//! The messages of PostgreSQL's logical replication (plugin `pgoutput`, protocol version 1) as bytes, both ways: `read_message` takes the bytes of one
//! message, `write_message` gives them. Both follow one grammar, `specs/Grammar.antt`, after the PostgreSQL manual, 55.9 Logical Replication Message
//! Formats.
#![tactic(auto)]

mod bodies;
mod fault;
mod message;
mod parts;
mod reading;
mod writing;

pub use fault::MessageError;
pub use message::{Before, ColumnSent, ColumnsSent, Field, Fields, Message};
pub use reading::read_message;
pub use writing::write_message;
