//! The log of one shape: entries, or their texts, at offsets that rise strictly. After `reserve`, appending takes no memory, so that what changes a log can take its
//! memory first. A place in the log is found by its offset in logarithmic time.
#![tactic(auto)]

mod log;
mod rope;
mod text_log;

pub use log::{Log, OffsetAhead};
pub use text_log::TextLog;
