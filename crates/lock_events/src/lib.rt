//! What is built of a `FrontLock` alone: two ways to give a state back, and lists that one holder alone adds to.
//!
//! `give_with` takes the event as a value that contracts alone read. A `Pen` is the right to add to a list, and a `Trace`
//! says what stood in it at some time. A state under a lock that keeps a trace can say 'these of my events are what the
//! pen has written', and then nobody but the holder of the pen can add such an event. All of it is proofs: a pen is a
//! lock that no other thread knows.
#![tactic(auto)]

mod give;
mod pen;

pub use give::{give_back, give_with};
pub use pen::{Blank, Pen, Trace};
