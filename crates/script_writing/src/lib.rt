//! Scripts as bytes: records, each a kind byte, four bytes of length and a payload, are written so that the crate `script` reads them back.
#![tactic(auto)]

mod events;
mod fault;
mod laws;
mod parts;
mod records;
mod rows;
mod table;

pub use events::write_event;
pub use fault::WriteError;
pub use laws::{items_are_written, records_are_read_back, scripts_are_read_back};
pub use records::write_record;
