//! One machine over events: what a stream, its snapshots, requests and clients bring, and what is put out for it.
#![tactic(auto)]

mod dialogues;
pub mod laws;
mod reading;
pub mod snapshots;
mod stepping;
pub mod stream;

pub use stepping::Core;
