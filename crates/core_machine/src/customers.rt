//! What clients do: they join, ask and take.
ghost use Rattle.std.specs.Prelude.{◌≡◌, ◌++◌, ◌∷◌, [], true, false, None, Some, IfOk, OnOk, slice_get};
ghost use Rattle.std.specs.Option.{option_copied};
ghost use Rattle.http_edge.specs.Lawful as lawful;
ghost use Rattle.http_edge.specs.declared.error_code.ErrorCode.TheVariants as codes;
ghost use Rattle.core_events.specs.declared.out.StepError.TheVariants as errors;
ghost use Rattle.core_exchanges.specs.Standing.{asked_of, has_space};
ghost use Rattle.core_law.specs.Situation.{Options, Situation};
ghost use Rattle.core_law.specs.Clients.{is_long};
ghost use Rattle.core_law.specs.Run.{Joined, SendNext, Receive};
ghost use Rattle.core_machine.specs.Customers.{is_target, IsNextAsked, ReceivesTurn};
ghost use Rattle.core_machine.specs.Opening.{IsServed, Requests, SparesClients};
ghost use Rattle.core_machine.specs.Standing.{IsSituated, Stands};
ghost use Rattle.core_machine.specs.Firsts.{first_asked, IsServedFirst};
ghost use Rattle.core_machine.specs.Turns.{Takes};

use crate::first::{First, code_of};
use crate::machine::Machine;
use core_clients::{Received, is_long};
use core_events::{Outs, StepError, Unfit};
use core_exchanges::Asked;
use fold_client::Query;
use http_edge::ErrorCode;
use shape_base::{OutOfMemory, Text, are_same_texts};

/// The event does not fit, for this cause.
fn unfit(cause: Unfit) -> StepError
    ensures { result ≡ errors.Unfit cause }
{
    StepError::Unfit { cause }
}

/// What one client more asks for first.
fn put(asks: &mut Vec<First>, first: First) -> Result<(), OutOfMemory>
    ensures { OnOk result (asks.new.items ≡ asks.old.items ++ first ∷ []) }
{
    asks.push(first)?;
    Ok(())
}

/// What a client asks for first; none past the end.
fn first_at(asks: &[First], client: u32) -> Option<&First>
    ensures { option_copied result ≡ slice_get asks.now client }
{
    asks.get(client as usize)
}

/// Whether a request has this target.
fn is_target(target: &Option<Text>, next: &Text) -> bool
    ensures { result ≡ is_target target.now next.now }
{
    match target {
        Some(target) => are_same_texts(target, next),
        None => false,
    }
}

impl Machine {
    /// A client joins, with what its first target asks for.
    pub fn join(&mut self, query: Query, first: First) -> Result<Outs, StepError>
        requires situated { IsSituated self.old }
        requires served { IsServedFirst self.old.server.tables first }
        ensures takes { Takes self.old self.new (Joined query (first_asked first)) result }
        ensures situated { OnOk result (IsSituated self.new) }
    {
        self.clients.join(query)?;
        put(&mut self.asks, first)?;
        Ok(Outs::new(self.alloc))
    }

    /// What a client's next request asks for; none where no client has this number.
    fn next_asked(&self, client: u32) -> Result<Option<Asked>, OutOfMemory>
        ensures { IfOk result (λ asked. (o : Options) (s : Situation) → Stands o s self.now → IsNextAsked self.now asked (slice_get s.customers client)) }
    {
        match first_at(self.asks.as_slice(), client) {
            Some(First::AsksFor(ask)) => match self.clients.placed(client, ask)? {
                Some(ask) => Ok(Some(Asked::AsksFor(ask))),
                None => Ok(None),
            },
            Some(First::Refused(refusal)) => Ok(Some(Asked::Refused(code_of(*refusal)))),
            None => Ok(None),
        }
    }

    /// A client's request: refused where its head is too long, so that it has no target.
    fn send(&mut self, target: Text, asked: Asked, outs: &mut Outs) -> Result<u32, OutOfMemory>
        requires situated { IsSituated self.old }
        requires served { IsServed self.old asked }
        requires room { has_space self.old.exchanges ≡ true }
        ensures long { IfOk result (λ index. is_long target ≡ true → Requests self.old self.new false None (lawful.Refuses codes.HeadTooLong) false outs.old outs.new index) }
        ensures short { IfOk result (λ index. is_long target ≡ false → Requests self.old self.new false (Some target) (asked_of asked) false outs.old outs.new index) }
        ensures spares { OnOk result (SparesClients self.old self.new) }
    {
        if is_long(&target) {
            let asked = Asked::Refused(ErrorCode::HeadTooLong);
            return self.exchange(false, None, asked, false, outs);
        }
        self.exchange(false, Some(target), asked, false, outs)
    }

    /// A client asks for its next part, by an exchange that is then its open one.
    pub fn send_next(&mut self, client: u32) -> Result<Outs, StepError>
        requires { IsSituated self.old }
        ensures takes { Takes self.old self.new (SendNext client) result }
        ensures situated { OnOk result (IsSituated self.new) }
    {
        let Some(target) = self.clients.next_target(client)? else {
            return Err(unfit(Unfit::NoClient));
        };
        let Some(asked) = self.next_asked(client)? else {
            return Err(unfit(Unfit::NoClient));
        };
        if !self.exchanges.has_room() {
            return Err(StepError::TooManyExchanges);
        }
        let mut outs = Outs::new(self.alloc);
        let index = self.send(target, asked, &mut outs)?;
        self.clients.wait(client, index);
        Ok(outs)
    }

    /// A client takes the reply of an exchange whose target is its next one.
    pub(crate) fn take(&mut self, client: u32, exchange: u32) -> Result<Received, StepError>
        ensures { (o : Options) (s : Situation) → Stands o s self.old → ReceivesTurn o s client exchange result self.new }
    {
        let Some(next) = self.clients.next_target(client)? else {
            return Err(unfit(Unfit::NoClient));
        };
        let Some(found) = self.exchanges.get(exchange) else {
            return Err(unfit(Unfit::NoExchange));
        };
        let Some(reply) = &found.given else {
            return Err(unfit(Unfit::NoReply));
        };
        if !is_target(&found.target, &next) {
            return Err(unfit(Unfit::WrongAddress));
        }
        match self.clients.take(client, reply)? {
            Some(received) => Ok(received),
            None => Err(unfit(Unfit::NoClient)),
        }
    }

    /// A client takes the reply of an exchange whose target is its next one, and forgets its open exchange.
    pub fn receive(&mut self, client: u32, exchange: u32) -> Result<Outs, StepError>
        requires { IsSituated self.old }
        ensures takes { Takes self.old self.new (Receive client exchange) result }
        ensures situated { OnOk result (IsSituated self.new) }
    {
        let received = self.take(client, exchange)?;
        Ok(received.outs)
    }
}
