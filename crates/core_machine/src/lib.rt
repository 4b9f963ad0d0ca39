//! A server, its exchanges and its clients over events that were read: what each event puts out.
//!
//! Requests come routed, snapshots whole, and commits assembled: bytes are no matter of this crate. It stands for a situation of `core_law`.
#![tactic(auto)]

mod answering;
mod changes;
mod commits;
mod customers;
mod fault;
mod first;
pub mod laws;
mod machine;
mod opening;
mod replying;
mod snapshots;
mod watching;

pub use fault::Fault;
pub use first::{First, code_of};
pub use machine::Machine;
