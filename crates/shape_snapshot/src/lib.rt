//! The snapshot of a shape, row by row, and the log that it begins.
//!
//! A snapshot is started over what it says before its rows (`Snap::start`), and then takes its rows one by one (`Snap::row`). Rows are kept nowhere: of a
//! selected row its key and the text of its entry stay.
#![tactic(auto)]

mod faults;
mod head;
mod kept;
pub mod laws;
mod rows;
mod snap;

pub use faults::SnapError;
pub use snap::Snap;
