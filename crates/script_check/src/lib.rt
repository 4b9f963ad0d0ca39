//! The plain model's side of a check of scripts: whether a history is a good one, whether snapshots are honest for it, whether
//! definitions change, and the rows of blocks. It replays whole tables, and shares no program with the server.
#![tactic(auto)]

mod blocks;
mod definitions;
mod honesty;
pub mod laws;
mod order;
mod premise;
mod shown;
mod snapshot;

pub use blocks::block_rows;
pub use definitions::kept_steps;
pub use honesty::{SnapshotError, honest_step};
pub use order::are_same_up_to_order;
pub use premise::{Claim, Claims, PremiseError, check_premise};
pub use snapshot::Snapshot;
