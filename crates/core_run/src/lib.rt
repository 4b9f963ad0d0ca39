//! What a core over bytes owes: the laws of `core_law` over whole lists of events.
//!
//! There is no machine here: what a list of events leads to, and laws over it. A core that answers each event goes by these definitions and has the laws.
#![tactic(auto)]

ghost use Rattle.core_run.specs.Laws.{LeadsMore, LeadsOn, LeadsToEvents, CommitsAreShown, RepliesAreLawful, OutsAreLawful, Headline};
ghost use Rattle.core_run.specs.Calls.{StandsFirst, StandsMore, CallsLead, AnswersAreRight};

/// One event more leads to the situation after it.
pub fn leads_more()
    ensures { LeadsMore }
{}

/// What events lead to is what the others lead to from where the first ones led.
pub fn leads_on()
    ensures { LeadsOn }
{}

/// Events over bytes come to events of `core_law`, which put out the same and lead to the same.
pub fn leads_to_events()
    ensures { LeadsToEvents }
{}

/// The commits of the server are those that the stream shows.
pub fn commits_are_shown()
    ensures { CommitsAreShown }
{
    tx_assembler::laws::fed_is_shown();
    tx_assembler::laws::shown_rise();
}

/// Each reply given is lawful.
pub fn replies_are_lawful()
    ensures { RepliesAreLawful }
{
    leads_to_events();
    commits_are_shown();
    core_law::replies_are_lawful();
}

/// Each reply that was put out is that of its exchange, and lawful.
pub fn outs_are_lawful()
    ensures { OutsAreLawful }
{
    leads_to_events();
    replies_are_lawful();
}

/// Each block has the rows of the table after the client's reach that the shape of its identity selects.
pub fn headline()
    ensures { Headline }
{
    leads_to_events();
    commits_are_shown();
    core_law::headline();
}

/// A core stands after no events where it stands.
pub fn stands_first()
    ensures { StandsFirst }
{}

/// A core stands after the events so far and one more that it takes.
pub fn stands_more()
    ensures { StandsMore }
{}

/// A core stands after the events that it takes, one after the other.
pub fn calls_lead()
    ensures { CallsLead }
{}

/// All that is put out from the start on is right: each reply is the text of a lawful one, and each block has right rows.
pub fn answers_are_right()
    ensures { AnswersAreRight }
{
    replies_are_lawful();
    headline();
}
