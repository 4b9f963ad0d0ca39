//! The laws over whole streams, the contracts of functions with nothing to do.
ghost use Rattle.tx_assembler.specs.Stream.{FedIsShown, ShownRise};

/// Over the messages of a stream, with a reopening before each of its stretches, each answer is the due one: a refusal by its name from the first refused message of
/// a stretch on, at each Commit before it a transaction or a repeat, and else nothing. The transactions are those that the stream shows.
pub fn fed_is_shown()
    ensures { FedIsShown }
{}

/// The LSNs of what a stream shows rise strictly, from above 0.
pub fn shown_rise()
    ensures { ShownRise }
{}
