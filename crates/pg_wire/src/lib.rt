//! The frames of PostgreSQL's replication connection. `Frames` takes the bytes of the stream in pieces, however they are cut, and gives the frames; `status_update`
//! writes the one frame that a client sends back. The frames are those of `specs/FrameList.antt`, after the PostgreSQL manual, 55.2.7 COPY Operations, 55.4 Streaming
//! Replication Protocol and 55.7 Message Formats.
#![tactic(auto)]

mod content;
mod fields;
mod first;
mod frame;
mod frames;
mod header;
pub mod laws;
mod status;

pub use fields::sqlstate_at;
pub use frame::{Frame, FrameError, LONGEST};
pub use frames::Frames;
pub use status::status_update;
