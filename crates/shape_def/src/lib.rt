//! What a shape is: its text that tells it apart from others, and its definition for a table's columns.
#![tactic(auto)]

mod choosing;
mod condition;
mod defining;
mod faults;
mod identities;
mod index;
pub mod laws;

pub use defining::Def;
pub use faults::DefError;
pub use identities::identity;
