//! What a server and its clients do over events, and what that owes: each reply is lawful, and each block has the shape's rows.
//!
//! There is no machine here: a situation, what one event does to it, and laws over whole lists of events.
#![tactic(auto)]

ghost use Rattle.core_law.specs.Laws.{RepliesAreLawful, RepliesAreFair, RepliesStay, AnsweredAtOnce, DropsExactly, Headline};
ghost use Rattle.core_law.specs.Reached.{RepliesHaveTexts, RepliesSay, ExchangesRise, OthersWait, RolesAreGiven};
ghost use Rattle.core_law.specs.Waiting.{WaitsForOne};

/// Each reply given is lawful.
pub fn replies_are_lawful()
    ensures { RepliesAreLawful }
{}

/// Each reply given is fair, and its body says what was written.
pub fn replies_are_fair()
    ensures { RepliesAreFair }
{}

/// A reply that was given stays as it is, whatever comes later.
pub fn replies_stay()
    ensures { RepliesStay }
{}

/// After each event all exchanges that can be answered are answered.
pub fn answered_at_once()
    ensures { AnsweredAtOnce }
{}

/// An exchange without a reply waits for one number.
pub fn waits_for_one()
    ensures { WaitsForOne }
{}

/// A number is removed exactly where the events of its shape drop it, and for the cause that they say.
pub fn drops_exactly()
    ensures { DropsExactly }
{}

/// Each block has the rows of the table after the client's reach that the shape of its identity selects.
pub fn headline()
    ensures { Headline }
{}

/// Each reply that an exchange gets can be written as a text.
pub fn replies_have_texts()
    ensures { RepliesHaveTexts }
{}

/// The body of each reply that an exchange gets is read back as what was written, where the offsets of the log of each live number have 64 bits.
pub fn replies_say()
    ensures { RepliesSay }
{}

/// The moments of exchanges rise.
pub fn exchanges_rise()
    ensures { ExchangesRise }
{}

/// An exchange gets no reply by an event that changes nothing of the number that it awaits.
pub fn others_wait()
    ensures { OthersWait }
{}

/// The number that an exchange found or registered was registered.
pub fn roles_are_given()
    ensures { RolesAreGiven }
{}
