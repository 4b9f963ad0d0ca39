//! One shape through its life: it keeps commits until its snapshot comes, then it has a log to which commits add entries, until one of them or its caller drops it.
//!
//! Each call's contract is by the shape's history (`shape_json`'s `ShapeHistory`): for all events for which the shape stood, it stands for them with the one event after.
#![tactic(auto)]

mod adding;
mod commits;
pub mod laws;
mod paged;
mod prepared;
mod preparing;
mod readying;
mod shape;
mod state;
mod stopping;

pub use paged::{Paged, Stage};
pub use prepared::Prepared;
pub use shape::{ReadyError, Shape};
