//! A lock whose callers know the history of what it keeps.
//!
//! A `FrontLock` keeps a state that stands for a list of events (`Stands`), as a registry for its registrations. A
//! caller has a `Pass`, which `take` turns into a `Held` beside the state, and `give` back into a `Pass`, with one
//! event more or none. So everything between one `take` and its `give` is one step, and each lock has one history
//! of such steps. A pass says which prefix of it the caller has seen, and which of these events are its own.
//! Passes are split among threads, and a `Note` tells one what another has seen.
//!
//! `take` alone waits, as for a `Mutex`: the first that comes when the state is free gets it. A thread that waits looks
//! 100 times at once and 100 times after letting others run, and then sleeps. A `give` wakes one thread where some
//! sleep, by one call of the system, and makes no such call where none does.
#![tactic(auto)]

mod lock;
mod pass;
mod plays;
mod sleepers;
mod stands;
mod steps;
mod view;

pub use lock::{FrontLock, Taken};
pub use pass::{Held, Note, Pass};
pub use stands::{Adds, Stands};
