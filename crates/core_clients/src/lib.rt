//! The clients of a script: their queries, what each holds, and their open exchanges.
//!
//! A query is read from a web form. A client asks by its next target and takes replies; what it makes of one is put out as blocks, refetches and refusals.
#![tactic(auto)]

mod clients;
mod follower;
mod form;
pub mod laws;
mod query;

pub use clients::{Clients, is_long};
pub use follower::Received;
pub use query::{QueryError, read_query};
