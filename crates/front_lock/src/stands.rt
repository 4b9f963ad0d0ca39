//! What a caller says of the state under a lock.
ghost use Rattle.std.specs.Prelude.{ℕ, List, Option, None};

use std::marker::Brand;

/// A state that stands for the list of events that led to it.
pub trait Stands: Drop {
    /// One change of the state. No value of it is made.
    type Event;

    /// The data that a lock fixes when it is made and that no event changes. No value of it is made.
    type Fixed;

    // Some data: what a seat that was given up has. No clause asks for them.
    ghost no_data: { Self.Fixed };

    // The data that a first state decides.
    ghost fixed: { Self → Self.Fixed };

    // The state stands for these events, the first of which has the number given, over these data. A lock counts from 0.
    ghost stands: { Self → Self.Fixed → ℕ → List Self.Event → Type 0 };
}

/// The event of the type `E` that a call of `give` adds. A call picks it for `Brand`, in the proof, out of its own
/// arguments; where an event has parts that are not among them, write a function that takes the parts and is generic
/// in `A: Adds<E>`, and require of it that `A.event` is the event with these parts.
pub trait Adds<E> {
    ghost event: { Option E };
}

impl<E> Adds<E> for Brand {
    ghost event = { None };
}
