//! Formats of values in bytes, put together from parts: numbers, strings, lengths with bytes, counts with items, choices by a first byte. A format is a
//! definition (`specs/Format.antt`). Each way to put formats together has two laws, proved once (`proofs/`): what is spelled is read back, and a reader
//! that stops has the exact place of the first wrong byte. Here are also the small readers and writers of the parts.
#![tactic(auto)]

mod fault;
mod list;
mod reading;
mod writing;

pub use fault::ReadError;
pub use list::{Part, list_of, put_list};
pub use reading::{after, chunk_of, string_of, u8_at, u16_at, u32_at, u64_at};
pub use writing::{put_chunk, put_string, put_u16, put_u32, put_u64};
