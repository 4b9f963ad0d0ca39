//! What comes to the core of a server, one event at a time, and what it puts out.
//!
//! There is no code here: these are the words in which a machine over events speaks with those who bring its events and print what it puts out.
#![tactic(auto)]

mod event;
mod options;
mod out;

pub use event::Event;
pub use options::Options;
pub use out::{Out, Outs, StepError, Unfit};
