//! A cache of replies by their targets. It keeps at most so many, gives each only while it is younger than its age, and lets go
//! of the least recently used first.
#![tactic(auto)]

mod cache;

pub use cache::Cache;
