//! The exchanges of a core: what each was asked, what its reply comes from, and the reply that it was given.
//!
//! Those without a reply are found by the number that they await, and by the moment at which they came.
#![tactic(auto)]

mod exchange;
mod exchanges;
mod indexes;

pub use exchange::{Asked, Exchange, Role};
pub use exchanges::Exchanges;
