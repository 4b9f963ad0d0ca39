//! The client that folds: entries of a shape's log are folded into rows, one page at a time, and whatever reply comes, aged or repeated, the rows are those of the shape.
//!
//! A page whose entries cannot all be folded leaves the rows as they were.
#![tactic(auto)]

mod body;
mod client;
pub mod laws;
mod parts;
mod rows;
mod target;

pub use client::{Client, Query, TakeError, Taken};
pub use rows::{Fault, FoldedRows};
pub use target::first_target;
