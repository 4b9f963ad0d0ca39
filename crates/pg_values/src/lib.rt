//! Texts that have values under a column's type, and the order of the values.
//!
//! PostgreSQL sends each column as a text. A where-clause compares columns of the types boolean, smallint, integer,
//! bigint, text, varchar and uuid; `read_int`, `read_bool` and `read_uuid` read the texts of these that are no plain
//! texts, and `compare` says how two values stand to one another. No call takes memory.
#![tactic(auto)]

mod kind;
pub mod laws;
mod value;

pub use kind::{Kind, kind_of};
pub use value::{BadValueText, compare, has_value, read_bool, read_int, read_uuid};
