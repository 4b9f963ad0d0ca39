//! The client's dialogue with a PostgreSQL database.
#![tactic(auto)]

mod contents;
mod dialogue;
mod first;
mod inbox;
pub mod laws;
mod login;
mod queries;
mod replies;
mod snap_reader;
mod talk;
mod wanted;
mod wire_error;

pub use dialogue::{Dialogue, describe, open_stream};
pub use inbox::LIMIT;
pub use login::{Login, SnapHead};
pub use snap_reader::{SnapReader, SnapStep};
pub use wire_error::WireError;
