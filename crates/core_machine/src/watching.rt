//! Watches: a client asks and takes until it is up to date, is refused or has to wait.
ghost use Rattle.std.specs.Prelude.{◌≡◌, ◌++◌, List, OnOk};
ghost use Rattle.core_law.specs.Situation.{Options, Situation, Exchange};
ghost use Rattle.core_law.specs.Clients.{watch};
ghost use Rattle.core_law.specs.Run.{Watch};
ghost use Rattle.std.specs.List.{slice_get};
ghost use Rattle.core_exchanges.specs.Standing as kept;
ghost use Rattle.core_machine.specs.Standing.{IsSituated, Stands};
ghost use Rattle.core_machine.specs.Turns.{Takes, TurnsTo};
ghost use Rattle.core_machine.specs.Watching.{has_reply, Rounds};

use crate::machine::Machine;
use core_events::{Out, Outs, StepError};
use core_exchanges::Exchanges;
use shape_base::OutOfMemory;

/// A watch has so many rounds at most: each exchange is asked for and taken once.
const ROUNDS: u32 = 20_002;

/// What comes of one round of a watch.
#[derive(Drop)]
pub struct Round {
    /// What is put out.
    pub outs: Outs,
    /// Whether another round follows.
    pub goes_on: bool,
}

/// Whether the exchange in a place has a reply.
fn has_reply(exchanges: &Exchanges, index: u32) -> bool
    ensures { (xs : List Exchange) → kept.Stands exchanges.now xs → result ≡ has_reply (slice_get xs index) }
{
    match exchanges.get(index) {
        Some(exchange) => exchange.given.is_some(),
        None => false,
    }
}

/// Puts these behind the others.
fn add(all: &mut Vec<Out>, outs: Outs) -> Result<(), OutOfMemory>
    ensures { OnOk result (all.new.items ≡ all.old.items ++ outs) }
{
    let mut more = outs.into_vec();
    all.append(&mut more)?;
    Ok(())
}

impl Machine {
    /// One round of a watch: the client asks where it has no open exchange, and takes its reply where there is one.
    fn watch_round(&mut self, client: u32) -> Result<Round, StepError>
        requires { IsSituated self.old }
        ensures rounds { (o : Options) (s : Situation) → Stands o s self.old → Rounds o s client result self.new }
        ensures situated { OnOk result (IsSituated self.new) }
    {
        let Some(exchange) = self.clients.waiting(client) else {
            let outs = self.send_next(client)?;
            let goes_on = true;
            return Ok(Round { outs, goes_on });
        };
        if !has_reply(&self.exchanges, exchange) {
            let outs = Outs::new(self.alloc);
            let goes_on = false;
            return Ok(Round { outs, goes_on });
        }
        let received = self.take(client, exchange)?;
        Ok(Round {
            outs: received.outs,
            goes_on: received.goes_on,
        })
    }

    /// A watch of at most so many rounds.
    fn watch_for(&mut self, client: u32, rounds: u32) -> Result<Outs, StepError>
        requires { IsSituated self.old }
        ensures watches { (o : Options) (s : Situation) → Stands o s self.old → TurnsTo o (watch o rounds client s) result self.new }
        ensures situated { OnOk result (IsSituated self.new) }
    {
        let mut all: Vec<Out> = Vec::new(self.alloc);
        for _done in 0..rounds {
            let round = self.watch_round(client)?;
            add(&mut all, round.outs)?;
            if !round.goes_on {
                return Ok(Outs::from_vec(all));
            }
        }
        Ok(Outs::from_vec(all))
    }

    /// A client asks and takes until it is up to date, is refused or has to wait.
    ///
    /// Where a round of it is refused, so is the whole watch, though the rounds before it were made: the machine is spent then.
    pub fn watch(&mut self, client: u32) -> Result<Outs, StepError>
        requires { IsSituated self.old }
        ensures takes { Takes self.old self.new (Watch client) result }
        ensures situated { OnOk result (IsSituated self.new) }
    {
        self.watch_for(client, ROUNDS)
    }
}
