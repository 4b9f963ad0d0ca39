//! The relations of a replication stream: for each object identifier the last relation that was put.
#![tactic(auto)]

mod relation;
mod relations;

pub use relation::Relation;
pub use relations::{Relations, UnknownRelation};
