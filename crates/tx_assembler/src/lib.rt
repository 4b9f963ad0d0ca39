//! From the messages of a replication stream to its transactions, in order, each once.
//!
//! `Assembler::feed` takes the messages one by one and answers a transaction at each Commit. It keeps the changes of served tables, resolves the values that
//! were not sent, passes over transactions that it gave before, and refuses what no such stream has.
#![tactic(auto)]

mod answer;
mod assembler;
mod described;
mod kept;
pub mod laws;
mod rows;
mod sizes;
mod stage;
mod tables;
mod transactions;

pub use answer::{AssembleError, Fed};
pub use assembler::Assembler;
