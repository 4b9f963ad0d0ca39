//! Scripts before they are run and as they are played: the words of a command line, the tables and the events of a list of records, and what their play owes a history.
#![tactic(auto)]

mod cause;
pub mod laws;
mod playing;
mod replaying;
mod settings;
mod steps;
mod stop;
mod tables;

pub use cause::{ScriptCause, cause_for};
pub use playing::{Stage, play_item};
pub use replaying::play;
pub use settings::{are_words, limits_of};
pub use steps::{Step, step_of};
pub use stop::Stop;
pub use tables::{is_declared, options_of};
