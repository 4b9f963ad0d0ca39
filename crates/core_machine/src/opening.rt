//! Requests that come, and the exchanges that they make.
ghost use Rattle.std.specs.Prelude.{◌≡◌, ◌<◌, length, None, true, IfOk, OnOk};
ghost use Rattle.shape_base.specs.declared.ask.Named.TheVariants.{Absent};
ghost use Rattle.shape_base.specs.RegistryHistory.{live_under};
ghost use Rattle.http_edge.specs.Lawful as lawful;
ghost use Rattle.core_law.specs.Run.{RequestCame, HeadCut};
ghost use Rattle.core_exchanges.specs.Standing.{asked_of, role_of};
ghost use Rattle.core_server.specs.Standing as servers;
ghost use Rattle.core_exchanges.specs.Standing.{has_space};
ghost use Rattle.shape_registry.specs.State.{live_as};
ghost use Rattle.core_law.specs.Situation as law;
ghost use Rattle.core_machine.specs.Opening.{IsServed, IsServedBy, Opens, Requests, SparesClients, unless_refused, first_of, opening_of, noted};
ghost use Rattle.core_machine.specs.Replying.{refusal_of};
ghost use Rattle.core_machine.specs.Standing.{IsSituated};
ghost use Rattle.core_machine.specs.Turns.{Takes};

use crate::answering::{Refusal, answer_one};
use crate::machine::Machine;
use core_events::{Out, Outs, StepError};
use core_exchanges::{Asked, Exchange, Role};
use core_server::snapshot_laws::last_is_taken;
use core_server::{RegisterError, Server};
use http_edge::ErrorCode;
use shape_base::{Ask, Named, OutOfMemory, Text};
use shape_registry::Found;
use std::alloc::Global;

/// What a request comes to: its role, and its refusal where no shape is registered for it.
#[derive(Drop)]
pub struct Opened {
    pub role: Role,
    pub refusal: Option<ErrorCode>,
}

/// It has this role, and no refusal yet.
fn plain(role: Role) -> Opened
    ensures role { result.role ≡ role }
    ensures refusal { result.refusal ≡ None }
{
    Opened {
        role,
        refusal: None,
    }
}

/// The refusal of the exchange in a place, where there is one.
pub(crate) fn refusal_at(index: u32, code: Option<ErrorCode>) -> Option<Refusal>
    ensures { result ≡ refusal_of index code }
{
    match code {
        Some(code) => Some(Refusal { index, code }),
        None => None,
    }
}

/// Registers a shape for a request. It owns the number then, or is refused.
fn register(alloc: Global, server: &mut Server, ask: &Ask) -> Result<Opened, OutOfMemory>
    requires situated { servers.IsSituated server.old }
    requires served { ask.now.table < length server.old.tables }
    requires free { live_as server.old.registry.state ask.now.identity ≡ None }
    ensures { IfOk result (Opens server.old server.new (λ o v. unless_refused o v ask.now (lawful.refusal_to_register (law.known_of o v) v.registry ask.now))) }
{
    match server.register(alloc, ask) {
        Ok(number) => Ok(plain(Role::Owns { number })),
        Err(RegisterError::Refused { code }) => Ok(Opened {
            role: Role::Reads,
            refusal: Some(code),
        }),
        Err(RegisterError::OutOfMemory) => Err(OutOfMemory),
    }
}

/// What a request without a handle comes to: it waits for the live number of its identity, or registers one.
fn open_first(alloc: Global, server: &mut Server, ask: &Ask) -> Result<Opened, OutOfMemory>
    requires situated { servers.IsSituated server.old }
    requires served { ask.now.table < length server.old.tables }
    requires absent { ask.now.named ≡ Absent }
    ensures { IfOk result (Opens server.old server.new (λ o v. first_of o v ask.now (live_under v.registry ask.now.identity))) }
{
    match server.lookup(ask) {
        Found::Ready { number } => Ok(plain(Role::Waits { number })),
        Found::Starting { number } => Ok(plain(Role::Waits { number })),
        Found::Gone { .. } => Ok(plain(Role::Reads)),
        Found::Unregistered => register(alloc, server, ask),
    }
}

/// What a request comes to.
fn open(alloc: Global, server: &mut Server, asked: &Asked) -> Result<Opened, OutOfMemory>
    requires situated { servers.IsSituated server.old }
    requires served { IsServedBy server.old asked.now }
    ensures { IfOk result (Opens server.old server.new (λ o v. opening_of o v (asked_of asked.now))) }
{
    match asked {
        Asked::Refused(_) => Ok(plain(Role::Reads)),
        Asked::AsksFor(ask) => match &ask.named {
            Named::Absent => open_first(alloc, server, ask),
            Named::Known(_) => Ok(plain(Role::Reads)),
            Named::Strange => Ok(plain(Role::Reads)),
        },
    }
}

/// Notes the last commit for a number that was registered.
fn note(lasts: &mut Vec<Option<u32>>, role: Role, last: Option<u32>) -> Result<(), OutOfMemory>
    ensures { OnOk result (lasts.new.items ≡ noted lasts.old.items (role_of role) last) }
{
    match role {
        Role::Owns { .. } => {
            lasts.push(last)?;
            Ok(())
        }
        Role::Waits { .. } => Ok(()),
        Role::Reads => Ok(()),
        Role::HasNone => Ok(()),
    }
}

impl Machine {
    /// One exchange more, which is answered where it can be.
    pub(crate) fn exchange(
        &mut self,
        outside: bool,
        target: Option<Text>,
        asked: Asked,
        close: bool,
        outs: &mut Outs,
    ) -> Result<u32, OutOfMemory>
        requires situated { IsSituated self.old }
        requires served { IsServed self.old asked }
        requires room { has_space self.old.exchanges ≡ true }
        ensures requested { IfOk result (λ index. Requests self.old self.new outside target (asked_of asked) close outs.old outs.new index) }
        ensures spares { OnOk result (SparesClients self.old self.new) }
    {
        last_is_taken();
        let last = self.server.last();
        let opened = open(self.alloc, &mut self.server, &asked)?;
        note(&mut self.lasts, opened.role, last)?;
        let exchange = Exchange {
            outside,
            target,
            asked,
            close,
            moment: self.clock,
            role: opened.role,
            given: None,
        };
        let index = self.exchanges.push(exchange)?;
        let refusal = refusal_at(index, opened.refusal);
        answer_one(
            self.alloc,
            &self.server,
            &mut self.exchanges,
            index,
            false,
            &refusal,
            outs,
        )?;
        Ok(index)
    }

    /// A request comes from outside, with its target where its head has one; its connection ends with the reply or not.
    pub fn request(
        &mut self,
        target: Option<Text>,
        asked: Asked,
        close: bool,
    ) -> Result<Outs, StepError>
        requires situated { IsSituated self.old }
        requires served { IsServed self.old asked }
        ensures takes { Takes self.old self.new (RequestCame target (asked_of asked) close) result }
        ensures situated { OnOk result (IsSituated self.new) }
    {
        if !self.exchanges.has_room() {
            return Err(StepError::TooManyExchanges);
        }
        let mut outs = Outs::new(self.alloc);
        let _index = self.exchange(true, target, asked, close, &mut outs)?;
        Ok(outs)
    }

    /// A head comes that was cut off.
    pub fn cut(&mut self) -> Result<Outs, StepError>
        requires { IsSituated self.old }
        ensures takes { Takes self.old self.new HeadCut result }
        ensures situated { OnOk result (IsSituated self.new) }
    {
        if !self.exchanges.has_room() {
            return Err(StepError::TooManyExchanges);
        }
        let exchange = Exchange {
            outside: true,
            target: None,
            asked: Asked::Refused(ErrorCode::BadHead),
            close: false,
            moment: self.clock,
            role: Role::HasNone,
            given: None,
        };
        let mut outs = Outs::new(self.alloc);
        let index = self.exchanges.push(exchange)?;
        outs.push(Out::Cut { exchange: index })?;
        Ok(outs)
    }
}
