//! The log of one shape as JSON texts, cut into chunks: what a server keeps of a shape, and what its replies are made of.
//!
//! Entries are written first (`Written`), then room is made for them, and then they are appended without memory. A page of a closed chunk shares the bytes of the
//! log and copies nothing.
#![tactic(auto)]

mod log;
mod settled;
mod written;

pub use log::{ChunkedLog, PageError};
pub use written::Written;
