//! One client of a script.
ghost use Rattle.std.specs.Prelude.{◌≡◌, ◌∷◌, [], None, true, is_some, IfOk, OnOk, OnErr};
ghost use Rattle.fold_client.specs.Client.{nothing_held, UpToDate};
ghost use Rattle.fold_client.specs.Taking.{held_by};
ghost use Rattle.core_clients.specs.Placing.{placed_ask};
ghost use Rattle.core_clients.specs.Taking.{IsReceived};
ghost use Rattle.core_clients.specs.Following.{TookIt, LostIt};

use core_events::{Out, Outs};
use fold_client::{Client, Query, TakeError, Taken};
use shape_base::{Ask, Duplicate, Named, OutOfMemory, Reply};
use std::alloc::Global;

/// What comes of a reply that a client takes.
#[derive(Drop)]
pub struct Received {
    /// What is put out.
    pub outs: Outs,
    /// Whether a watch goes on: more pages follow, or the client starts again.
    pub goes_on: bool,
}

/// Nothing is put out.
fn quiet(alloc: Global, goes_on: bool) -> Received
    ensures outs { result.outs ≡ [] }
    ensures goes { result.goes_on ≡ goes_on }
{
    Received {
        outs: Outs::new(alloc),
        goes_on,
    }
}

/// One thing is put out.
fn one(alloc: Global, out: Out, goes_on: bool) -> Result<Received, OutOfMemory>
    ensures outs { IfOk result (λ received. received.outs ≡ out ∷ []) }
    ensures goes { IfOk result (λ received. received.goes_on ≡ goes_on) }
{
    let mut outs = Outs::new(alloc);
    outs.push(out)?;
    Ok(Received { outs, goes_on })
}

/// A client, and the exchange whose reply it waits for.
#[derive(Drop)]
pub struct Follower {
    pub client: Client,
    pub waiting: Option<u32>,
}

impl Follower {
    /// A client that has nothing yet, and waits for nothing.
    pub fn new(alloc: Global, query: Query) -> Follower
        ensures query { result.client.query ≡ query }
        ensures held { held_by result.client ≡ nothing_held }
        ensures waiting { result.waiting ≡ None }
    {
        Follower {
            client: Client::new(alloc, query),
            waiting: None,
        }
    }

    /// What its next target asks for, by what its first one did.
    pub fn placed(&self, alloc: Global, first: &Ask) -> Result<Ask, OutOfMemory>
        ensures { IfOk result (λ ask. ask ≡ placed_ask (held_by self.now.client) first.now) }
    {
        let mut ask = first.copy(alloc)?;
        ask.named = match self.client.handle() {
            Some(handle) => Named::Known(handle.copy(alloc)?),
            None => Named::Absent,
        };
        ask.offset = self.client.offset();
        ask.live = self.client.cursor().is_some();
        ask.cursor = self.client.cursor().unwrap_or(0);
        Ok(ask)
    }

    /// What is put out where it is up to date: the block of its rows. A client that is up to date has a handle.
    fn up_to_date(&self, alloc: Global, number: u32) -> Result<Received, OutOfMemory>
        ensures { IfOk result (λ received. is_some (held_by self.now.client).handle ≡ true → IsReceived number (record { held = held_by self.now.client; outcome = UpToDate }) received) }
    {
        let Some(handle) = self.client.handle() else {
            return Ok(quiet(alloc, false));
        };
        let handle = handle.copy(alloc)?;
        let rows = self.client.rows().rows()?;
        let block = Out::Block {
            client: number,
            handle,
            offset: self.client.offset(),
            rows,
        };
        Ok(one(alloc, block, false)?)
    }

    /// Takes a reply, and gives what comes of it.
    fn receive(
        &mut self,
        alloc: Global,
        number: u32,
        reply: &Reply,
    ) -> Result<Received, OutOfMemory>
        ensures took { IfOk result (λ received. TookIt number (held_by self.old.client) reply.now (held_by self.new.client) received) }
        ensures lost { OnErr result (LostIt (held_by self.old.client) reply.now (held_by self.new.client)) }
        ensures query { self.new.client.query ≡ self.old.client.query }
        ensures waiting { self.new.waiting ≡ self.old.waiting }
    {
        match self.client.take(reply) {
            Ok(Taken::UpToDate) => Ok(self.up_to_date(alloc, number)?),
            Ok(Taken::More) => Ok(quiet(alloc, true)),
            Ok(Taken::Refetch) => Ok(one(alloc, Out::Refetched { client: number }, true)?),
            Err(TakeError::ServerRefused { status }) => {
                let client = number;
                Ok(one(alloc, Out::Refused { client, status }, false)?)
            }
            Err(TakeError::BadReply) => Ok(quiet(alloc, false)),
            Err(TakeError::ForeignHandle { .. }) => Ok(quiet(alloc, false)),
            Err(TakeError::BadFold { .. }) => Ok(quiet(alloc, false)),
            Err(TakeError::OutOfMemory) => Err(OutOfMemory),
        }
    }

    /// Takes a reply, and forgets the exchange that it waited for. Without memory it waits as before.
    pub fn take(
        &mut self,
        alloc: Global,
        number: u32,
        reply: &Reply,
    ) -> Result<Received, OutOfMemory>
        ensures took { IfOk result (λ received. TookIt number (held_by self.old.client) reply.now (held_by self.new.client) received) }
        ensures forgets { OnOk result (self.new.waiting ≡ None) }
        ensures lost { OnErr result (LostIt (held_by self.old.client) reply.now (held_by self.new.client)) }
        ensures waits { OnErr result (self.new.waiting ≡ self.old.waiting) }
        ensures query { self.new.client.query ≡ self.old.client.query }
    {
        let received = self.receive(alloc, number, reply)?;
        self.waiting = None;
        Ok(received)
    }
}
