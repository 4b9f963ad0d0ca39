//! Commits that come together.
ghost use Rattle.std.specs.Prelude.{◌≡◌, ◌||◌, ℕ, List, IfOk, OnOk};
ghost use Rattle.std.specs.List.Sorted.{IsStrictlySortedBy};
ghost use Rattle.core_law.specs.Situation as law;
ghost use Rattle.core_law.specs.Situation.{Options};
ghost use Rattle.core_law.specs.Run.{Committed};
ghost use Rattle.core_exchanges.specs.Indexing.{is_among};
ghost use Rattle.core_exchanges.specs.Standing as kept;
ghost use Rattle.core_exchanges.specs.Standing.{ArePlaces};
ghost use Rattle.core_server.specs.Standing as servers;
ghost use Rattle.core_machine.specs.Answering.{CanAnswer};
ghost use Rattle.core_machine.specs.Awaiting.{AnswersAny, awaits_any};
ghost use Rattle.core_machine.specs.Committing.{IsTakable, AreTakable, IsTaken, AreTaken};
ghost use Rattle.core_machine.specs.Opening.{SparesClients};
ghost use Rattle.core_machine.specs.Standing.{IsSituated};
ghost use Rattle.core_machine.specs.Turns.{Takes};

use crate::machine::Machine;
use core_events::{Outs, StepError};
use core_exchanges::Exchanges;
use core_server::Server;
use shape_base::{OutOfMemory, Tx};
use std::alloc::Global;
use std::collections::BTreeSet;

/// Adds numbers.
fn add_numbers(told: &mut BTreeSet<u64>, numbers: &[u64]) -> Result<(), OutOfMemory>
    ensures { OnOk result ((n : ℕ) → is_among n told.new.keys ≡ (is_among n told.old.keys || is_among n numbers.now)) }
{
    told.extend(numbers)?;
    Ok(())
}

/// Adds places.
fn add_places(all: &mut BTreeSet<u32>, places: &[u32]) -> Result<(), OutOfMemory>
    ensures { OnOk result ((p : ℕ) → is_among p all.new.keys ≡ (is_among p all.old.keys || is_among p places.now)) }
{
    all.extend(places)?;
    Ok(())
}

/// What is in a set, rising.
fn listed<T: Ord + Copy>(alloc: Global, set: &BTreeSet<T>) -> Result<Vec<T>, OutOfMemory>
    ensures rising { IsStrictlySortedBy T.cmp set.now.keys }
    ensures same { IfOk result (λ items. items.items ≡ set.now.keys) }
{
    Ok(set.iter().copied().collect(alloc)?)
}

/// The server takes a commit, unless it is a repeat. The numbers of which an answer can tell since are added.
fn take_one(
    alloc: Global,
    server: &mut Server,
    tx: &Tx,
    told: &mut BTreeSet<u64>,
) -> Result<(), OutOfMemory>
    requires situated { servers.IsSituated server.old }
    requires takable { IsTakable server.old.tables tx.now }
    ensures taken { OnOk result ((o : Options) (v : law.Server) → servers.Stands o v server.old → IsTaken o v tx.now server.new told.old.keys told.new.keys) }
    ensures tables { OnOk result (server.new.tables ≡ server.old.tables) }
{
    if tx.lsn <= server.last_lsn() {
        return Ok(());
    }
    let numbers = server.commit(alloc, tx)?;
    add_numbers(told, numbers.as_slice())
}

/// The server takes commits, one after the other. The numbers of which an answer can tell since.
fn take_all(alloc: Global, server: &mut Server, txs: &[Tx]) -> Result<Vec<u64>, OutOfMemory>
    requires situated { servers.IsSituated server.old }
    requires takable { AreTakable server.old.tables txs.now }
    ensures { IfOk result (λ told. (o : Options) (v : law.Server) → servers.Stands o v server.old → AreTaken o v txs.now server.new told.items) }
{
    let mut told = BTreeSet::new(alloc);
    for tx in txs {
        take_one(alloc, server, tx, &mut told)?;
    }
    listed(alloc, &told)
}

/// The places of the exchanges that have no reply and await one of these numbers, rising.
fn awaiting_any(
    alloc: Global,
    exchanges: &Exchanges,
    numbers: &[u64],
) -> Result<Vec<u32>, OutOfMemory>
    ensures { IfOk result (λ places. (xs : List law.Exchange) → kept.Stands exchanges.now xs → ArePlaces (awaits_any numbers.now) xs places.items) }
{
    let mut all = BTreeSet::new(alloc);
    for number in numbers {
        let places = exchanges.awaiting(*number)?;
        add_places(&mut all, places.as_slice())?;
    }
    listed(alloc, &all)
}

impl Machine {
    /// The exchanges that await one of these numbers have their replies, where there are any now.
    fn answer_awaiting_any(&mut self, numbers: &[u64]) -> Result<Outs, OutOfMemory>
        requires { CanAnswer self.old.server self.old.exchanges }
        ensures answered { IfOk result (λ outs. AnswersAny self.old self.new numbers.now outs) }
        ensures spares { OnOk result (SparesClients self.old self.new) }
        ensures server { OnOk result (self.new.server ≡ self.old.server) }
        ensures lasts { OnOk result (self.new.lasts ≡ self.old.lasts) }
    {
        let places = awaiting_any(self.alloc, &self.exchanges, numbers)?;
        self.answer_at(places.as_slice(), false, &None)
    }

    /// The stream shows commits, which come together. Each is taken that is no repeat of one before it, and then the exchanges are answered that await a number of which an answer can tell.
    pub fn commit(&mut self, txs: &[Tx]) -> Result<Outs, StepError>
        requires situated { IsSituated self.old }
        requires takable { AreTakable self.old.server.tables txs.now }
        ensures takes { Takes self.old self.new (Committed txs.now) result }
        ensures situated { OnOk result (IsSituated self.new) }
    {
        let told = take_all(self.alloc, &mut self.server, txs)?;
        Ok(self.answer_awaiting_any(told.as_slice())?)
    }
}
