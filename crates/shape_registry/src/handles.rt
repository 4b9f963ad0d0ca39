//! The live handles of a registry by number and by identity, without what is kept for them.
ghost use Rattle.std.specs.Prelude.{◌≡◌, ℕ, ◌+◌, ◌-◌, ◌<◌, ◌^◌, ◌≢◌, [], None, Some, length, slice_get, map, IfOk, OnOk, OnErr, IsSome, IfSome, if◌then◌else◌, ◌&&◌, ◌==◌};
ghost use Rattle.std.specs.Option.{option_map};
ghost use Rattle.std.specs.BTreeMap.{keys};
ghost use Rattle.shape_base.specs.declared.cause.Cause.{Cause};
ghost use Rattle.shape_base.specs.declared.registry_event.RegistryEvent.TheVariants as events;
ghost use Rattle.shape_base.specs.Tables.{same_text};
ghost use Rattle.shape_registry.specs.State.{gone_in, found_named, found_in, refusal_in, live_at, live_as, standing_in, id_in, lsn_in, after};
ghost use Rattle.shape_registry.specs.Entries.{handle_in, live_of};
ghost use Rattle.shape_registry.specs.Names.{found_handle};
ghost use Rattle.shape_registry.specs.declared.found.Found.TheVariants as found;
ghost use Rattle.shape_registry.specs.declared.standing.Standing.TheVariants as standings;

use super::found::Found;
use super::names::{Live, Names};
use super::refusal::Refusal;
use super::standing::Standing;
use shape_base::{Duplicate, Handle, Named, Numbers, OutOfMemory, TableDef, TableDefs, Text};
use std::alloc::Global;
use std::collections::BTreeMap;
use std::marker::Model;

/// What is kept of a live handle beside its number.
#[derive(Drop)]
pub struct LiveEntry {
    pub identity: Text,
    pub table: u32,
    /// How many transactions had been taken when its number was given.
    pub before: u64,
    pub is_ready: bool,
}

/// The last transaction that was taken.
#[derive(Clone, Copy)]
pub struct LastTaken {
    pub lsn: u64,
    pub xid: u32,
}

/// The live handles, the catalogue of definitions, and the counts. Contracts see what a registry keeps.
#[derive(Drop)]
pub struct Handles {
    run: Text,
    limit: u64,
    definitions: TableDefs,
    names: Names,
    entries: BTreeMap<u64, LiveEntry>,
    given: u64,
    taken: u64,
    newest: Option<LastTaken>,
}

impl Model for Handles {
    ghost use Rattle.std.specs.Prelude.{◌≡◌, ◌≤◌, ◌<◌, ◌^◌, map, unwrap_or};
    ghost use Rattle.std.specs.Option.{option_map};
    ghost use Rattle.shape_base.specs.RegistryHistory.{RegistryState};
    ghost use Rattle.shape_registry.specs.Entries.{handle_in, taken_in, AreLinked};
    ghost use Rattle.shape_registry.specs.Names.{name_under};

    ghost Value = { RegistryState };

    ghost view = { λ a. record { run = a.run; limit = a.limit; catalog = a.definitions; live = map handle_in a.entries.entries; given = a.given; taken = a.taken; last = option_map taken_in a.newest } };

    ghost invariant = { λ a. AreLinked (name_under a.names) a.entries.entries a.given × (a.taken ≤ unwrap_or (option_map (λ t. t.lsn) a.newest) 0) };
}

/// The numbers of the entries.
fn numbers_in(alloc: Global, entries: &BTreeMap<u64, LiveEntry>) -> Result<Numbers, OutOfMemory>
    ensures { IfOk result (λ numbers. numbers ≡ keys entries.now) }
{
    let numbers: Vec<u64> = entries.keys().copied().collect(alloc)?;
    Ok(Numbers::from_vec(numbers))
}

/// A live handle is found.
fn found_live(number: u64, is_ready: bool) -> Found
    ensures { result ≡ (if is_ready then found.Ready number else found.Starting number) }
{
    if is_ready {
        Found::Ready { number }
    } else {
        Found::Starting { number }
    }
}

/// The number of a live handle that is ready.
fn ready_number(live: Live) -> Option<u64>
    ensures { result ≡ (if live.is_ready then Some live.number else None) }
{
    if live.is_ready {
        Some(live.number)
    } else {
        None
    }
}

/// The handle is of this run, and has the number of this live one.
fn is_named(run: &Text, handle: &Handle, live: Live) -> bool
    ensures { result ≡ (same_text handle.now.run run.now && (handle.now.number == live.number)) }
{
    handle.run == *run && handle.number == live.number
}

/// What is found for a handle that is named, by the one that is live under its identity.
fn found_handle(run: &Text, handle: &Handle, live: Option<Live>) -> Found
    ensures { result ≡ found_handle run.now handle.now live }
{
    match live {
        Some(live) => {
            if is_named(run, handle, live) {
                found_live(live.number, live.is_ready)
            } else {
                Found::Gone {
                    named: ready_number(live),
                }
            }
        }
        None => Found::Gone { named: None },
    }
}

impl Handles {
    /// No handles.
    pub fn new(
        alloc: Global,
        run: Text,
        limit: u64,
        definitions: TableDefs,
    ) -> Result<Handles, OutOfMemory>
        ensures { IfOk result (λ handles. handles ≡ record { run = run; limit = limit; catalog = definitions; live = []; given = 0; taken = 0; last = None }) }
    {
        let names = Names::new(alloc)?;
        Ok(Handles {
            run,
            limit,
            definitions,
            names,
            entries: BTreeMap::new(alloc),
            given: 0,
            taken: 0,
            newest: None,
        })
    }

    /// The id of the last transaction taken.
    pub fn last(&self) -> Option<u32>
        ensures { result ≡ id_in self.now }
    {
        match self.newest {
            Some(taken) => Some(taken.xid),
            None => None,
        }
    }

    /// The LSN of the last transaction taken; 0 where none was taken.
    pub fn last_lsn(&self) -> u64
        ensures { result ≡ lsn_in self.now }
    {
        match self.newest {
            Some(taken) => taken.lsn,
            None => 0,
        }
    }

    /// How many transactions were taken.
    pub fn taken(&self) -> u64
        ensures { result ≡ self.now.taken }
    {
        self.taken
    }

    /// How many handles are live.
    pub fn live(&self) -> u64
        ensures { result ≡ length self.now.live }
    {
        self.entries.len() as u64
    }

    /// The entry of a live number.
    fn at(&self, number: u64) -> Option<&LiveEntry>
        ensures { option_map (λ e. handle_in (number, e.now)) result ≡ live_at self.now number }
    {
        self.entries.get(&number)
    }

    /// How the handle with a number stands.
    pub fn standing(&self, number: u64) -> Standing
        ensures { result ≡ standing_in self.now number }
    {
        match self.at(number) {
            Some(entry) => {
                if entry.is_ready {
                    Standing::Ready
                } else {
                    Standing::Starting
                }
            }
            None => Standing::NotLive,
        }
    }

    /// How many transactions had been taken when a live number was given.
    pub fn before(&self, number: u64) -> Option<u64>
        ensures { result ≡ option_map (λ l. l.before) (live_at self.now number) }
    {
        match self.at(number) {
            Some(entry) => Some(entry.before),
            None => None,
        }
    }

    /// The definition of a table.
    pub fn definition(&self, table: u32) -> &TableDef
        requires { table < length self.now.catalog }
        ensures { slice_get self.now.catalog table ≡ Some result.now }
    {
        self.definitions.at(table as u64)
    }

    /// The table has this definition from now on.
    pub fn redefine(&mut self, definition: TableDef)
        requires { definition.table < length self.old.catalog }
        ensures { self.new ≡ after self.old (events.Redefined definition) }
    {
        let place = definition.table as u64;
        self.definitions.set(place, definition);
    }

    /// The handle that is live under an identity.
    fn under(&self, identity: &Text) -> Option<Live>
        ensures { result ≡ option_map live_of (live_as self.now identity.now) }
    {
        self.names.get(identity)
    }

    /// The identity is live under no handle of which the request speaks.
    fn gone(&self, identity: &Text) -> Found
        ensures { result ≡ gone_in self.now identity.now }
    {
        match self.under(identity) {
            Some(live) => Found::Gone {
                named: ready_number(live),
            },
            None => Found::Gone { named: None },
        }
    }

    /// What is found for a handle that is named.
    fn found_named(&self, identity: &Text, handle: &Handle) -> Found
        ensures { result ≡ found_named self.now identity.now handle.now (live_at self.now handle.now.number) }
    {
        found_handle(&self.run, handle, self.names.get(identity))
    }

    /// What is found for a request of an identity.
    pub fn found(&self, identity: &Text, named: &Named) -> Found
        ensures { result ≡ found_in self.now identity.now named.now }
    {
        match named {
            Named::Absent => match self.under(identity) {
                Some(live) => found_live(live.number, live.is_ready),
                None => Found::Unregistered,
            },
            Named::Known(handle) => self.found_named(identity, handle),
            Named::Strange => self.gone(identity),
        }
    }

    /// Why no number is given for an identity.
    pub fn refusal(&self, identity: &Text) -> Option<Refusal>
        ensures { result ≡ refusal_in self.now identity.now }
    {
        if let Some(live) = self.under(identity) {
            return Some(Refusal::Exists {
                number: live.number,
            });
        }
        let live = self.live();
        if self.limit <= live {
            return Some(Refusal::TooMany {
                live,
                limit: self.limit,
            });
        }
        if self.given == u64::MAX {
            return Some(Refusal::NumbersSpent);
        }
        None
    }

    /// The live numbers, rising.
    fn live_numbers(&self, alloc: Global) -> Result<Numbers, OutOfMemory>
        ensures { IfOk result (λ numbers. numbers ≡ map (λ l. l.number) self.now.live) }
    {
        numbers_in(alloc, &self.entries)
    }

    /// Takes a transaction, and gives the live numbers, rising.
    pub fn take(&mut self, alloc: Global, lsn: u64, xid: u32) -> Result<Numbers, OutOfMemory>
        requires { lsn_in self.old < lsn }
        ensures ok { IfOk result (λ numbers. (numbers ≡ map (λ l. l.number) self.old.live) × (self.new ≡ after self.old (events.Took lsn xid))) }
        ensures err { OnErr result (self.new ≡ self.old) }
    {
        let numbers = self.live_numbers(alloc)?;
        self.taken += 1;
        self.newest = Some(LastTaken { lsn, xid });
        Ok(numbers)
    }

    /// The next number.
    pub fn next(&self) -> u64
        requires { self.now.given ≢ 2 ^ 64 - 1 }
        ensures next { result ≡ self.now.given + 1 }
        ensures fresh { live_at self.now result ≡ None }
    {
        self.given + 1
    }

    /// Gives the next number.
    pub fn register(
        &mut self,
        alloc: Global,
        identity: Text,
        table: u32,
    ) -> Result<u64, OutOfMemory>
        requires free { live_as self.old identity ≡ None }
        requires room { self.old.given ≢ 2 ^ 64 - 1 }
        ensures ok { IfOk result (λ number. (number ≡ self.old.given + 1) × (self.new ≡ after self.old (events.Registered number identity table (id_in self.old)))) }
        ensures err { OnErr result (self.new ≡ self.old) }
    {
        let number = self.given + 1;
        let twin = identity.copy(alloc)?;
        let entry = LiveEntry {
            identity,
            table,
            before: self.taken,
            is_ready: false,
        };
        let _none = self.entries.insert(number, entry)?;
        let live = Live {
            number,
            is_ready: false,
        };
        match self.names.insert(twin, live) {
            Ok(()) => {
                self.given = number;
                Ok(number)
            }
            Err(_) => {
                let _entry = self.entries.remove(&number);
                Err(OutOfMemory)
            }
        }
    }

    /// A starting handle becomes ready.
    pub fn ready(&mut self, number: u64)
        requires { standing_in self.old number ≡ standings.Starting }
        ensures { self.new ≡ after self.old (events.Ready number) }
    {
        let Some(entry) = self.entries.get_mut(&number) else {
            unreachable!();
        };
        entry.is_ready = true;
        self.names.make_ready(&entry.identity);
    }

    /// The number is live no more.
    pub fn remove(&mut self, number: u64)
        ensures { (cause : Cause) → self.new ≡ after self.old (events.Removed number cause) }
    {
        let Some(entry) = self.entries.remove(&number) else {
            return;
        };
        self.names.remove(&entry.identity);
    }
}
