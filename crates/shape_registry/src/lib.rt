//! The registry of a server: which handles live, under which identities, and what is kept for each.
#![tactic(auto)]

mod found;
mod handles;
mod names;
mod refusal;
mod registry;
mod standing;

pub use found::Found;
pub use refusal::RegisterError;
pub use registry::Registry;
pub use standing::Standing;
