//! The server without exchanges and clients: its registry, the shapes of its live numbers, and what requests, snapshots and removals do to them.
#![tactic(auto)]

mod answering;
mod commits;
mod effect;
mod numbers;
mod registering;
mod schema;
mod server;
pub mod snapshot_laws;
mod snapshots;

pub use registering::RegisterError;
pub use server::Server;
pub use snapshots::{SnapshotRefusal, refusal_of_snapshot, take_row};
