//! The registry and the shapes that threads share: a `shape_registry::Registry` under one lock, and each shape under a lock of its own.
//!
//! Each call is given a pass, waits for the locks that it needs, one after the other, and adds the events of its part of the history, or none. Its contract is by the
//! histories that the pass has seen then.
#![tactic(auto)]

mod ask;
mod asked;
mod birth;
mod board;
mod copies;
mod lent;
mod numbered;
mod passes;
mod registry_data;
mod rights;
mod seat;
mod seats;
mod shared;
mod slot;
mod started;
mod step;
mod steps;
mod telling;
mod visits;

pub use asked::Asked;
pub use board::Board;
pub use passes::{RegNote, RegPass};
pub use registry_data::RegistryData;
pub use shared::Shared;
pub use started::{StartError, Started};
pub use step::RegistryStep;
