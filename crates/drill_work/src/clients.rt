//! The clients of a drill, and what a round asks of the core.
ghost use Rattle.std.specs.Prelude.{◌≡◌, ◌++◌, ◌∷◌, [], List, IfOk, OnOk, None};
ghost use Rattle.drill_work.specs.Work.{new_client, opening, asked_of, turn_events};

use crate::drill::Turn;
use crate::fields::octets;
use crate::messages::{Events, streamed_events};
use crate::notes::{Exchanges, Notes, given};
use core_events::Event;
use shape_base::{OutOfMemory, Seq};
use std::alloc::Global;

/// Puts a new client of a query last.
fn push_client(alloc: Global, events: &mut Events, query: &str) -> Result<(), OutOfMemory>
    ensures { OnOk result (events.new ≡ events.old ++ new_client query.now ∷ []) }
{
    let pairs = octets(alloc, query.as_bytes())?;
    events.push(Event::NewClient { pairs })?;
    Ok(())
}

/// The four clients, which are made before the first round.
pub fn opening(alloc: Global) -> Result<Events, OutOfMemory>
    ensures { IfOk result (λ events. events ≡ opening) }
{
    let mut events = Seq::new(alloc);
    push_client(alloc, &mut events, "table=items")?;
    push_client(alloc, &mut events, "table=items&where=n+%3C+50")?;
    push_client(alloc, &mut events, "table=items&where=n+%3E%3D+50")?;
    push_client(
        alloc,
        &mut events,
        "table=items&where=n+%3D+7+OR+s+%3D+%27k%27",
    )?;
    Ok(events)
}

/// What a client does: it takes an earlier reply, or it watches.
fn asked_of(client: u32, earlier: Option<u32>) -> Event
    ensures { result ≡ asked_of client earlier }
{
    match earlier {
        None => Event::Watch { client },
        Some(exchange) => Event::Receive { client, exchange },
    }
}

/// The list of one event.
fn only(alloc: Global, event: Event) -> Result<Events, OutOfMemory>
    ensures { IfOk result (λ events. events ≡ event ∷ []) }
{
    let mut events = Seq::new(alloc);
    events.push(event)?;
    Ok(events)
}

/// The events of a round.
///
/// The core tells which exchanges own a snapshot under way, in their order, and which one is the first earlier exchange with a reply to the
/// client's next request.
pub fn turn_events(
    alloc: Global,
    turn: &Turn,
    notes: &Notes,
    under_way: &Exchanges,
    earlier_exchange: Option<u32>,
) -> Result<Events, OutOfMemory>
    ensures { IfOk result (λ events. events ≡ turn_events turn.now notes.now under_way.now earlier_exchange) }
{
    match turn {
        Turn::Streams(commits) => streamed_events(alloc, commits),
        Turn::Asks {
            client,
            earlier: true,
        } => only(alloc, asked_of(*client, earlier_exchange)),
        Turn::Asks {
            client,
            earlier: false,
        } => only(alloc, asked_of(*client, None)),
        Turn::Gives { now } => given(alloc, notes, under_way, *now),
    }
}
