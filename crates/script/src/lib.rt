//! Scripts: lists of records, each a kind byte, four bytes of length and a payload, from their bytes to events.
#![tactic(auto)]

mod columns;
mod fault;
mod lines;
mod lists;
mod reading;
mod record;
mod rows;
mod snapshot;
mod table;
mod texts;

pub use fault::RecordError;
pub use lines::{push_end, push_out, push_outs};
pub use reading::{ReadStop, next_item};
pub use record::{Item, Record, read_record};
pub use rows::StartRows;
pub use table::Declaration;
