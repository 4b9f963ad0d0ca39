//! The registry of handles.
ghost use Rattle.std.specs.Prelude.{◌≡◌, ℕ, ◌+◌, ◌<◌, [], map, length, slice_get, Some, None, IfOk, IfErr, OnOk, OnErr, OnSome, IfNone, is_some, true};
ghost use Rattle.std.specs.Option.{option_map, option_copied, option_copied_mut};
ghost use Rattle.std.specs.FinMap as fin;
ghost use Rattle.shape_base.specs.declared.registry_event.RegistryEvent.TheVariants as events;
ghost use Rattle.shape_base.specs.RegistryHistory.{Stands, is_live, live_numbers, live_registrations, last_id, last_lsn, transactions, definition_after};
ghost use Rattle.shape_registry.specs.State.{live_at, standing_in, id_in, lsn_in, found_in, refusal_in, after};
ghost use Rattle.shape_registry.specs.ByHistory.{standing_after, before_after, found_after, refusal_after};
ghost use Rattle.shape_registry.specs.Registry.{ByHistory, Adds, ArePlaced, IsRefused};
ghost use Rattle.shape_registry.specs.declared.standing.Standing.TheVariants as standings;

use super::found::Found;
use super::handles::Handles;
use super::refusal::{Refusal, RegisterError};
use super::standing::Standing;
use shape_base::{Ask, Cause, Numbers, OutOfMemory, TableDef, TableDefs, Text};
use std::alloc::Global;
use std::collections::BTreeMap;
use std::marker::Model;

/// A registry of handles, which keeps a `K` for each live number.
///
/// Contracts see `state`, what the registry keeps of its history, and `kept`, the map from each live number to its `K`.
#[derive(Drop)]
pub struct Registry<K> {
    handles: Handles,
    values: BTreeMap<u64, K>,
}

impl<K> Model for Registry<K> {
    ghost use Rattle.std.specs.Prelude.{◌≡◌, ℕ, is_some};
    ghost use Rattle.std.specs.Ordering.{nat_cmp};
    ghost use Rattle.std.specs.FinMap as fin;
    ghost use Rattle.std.specs.BTreeMap.{get};
    ghost use Rattle.shape_registry.specs.State.{live_at};
    ghost use Rattle.shape_registry.specs.Registry.{WithKept, with_kept_code};

    ghost Value = { WithKept K };

    ghost coded = { with_kept_code K.code };

    ghost view = { λ a. record { state = a.handles; kept = fin.from_entries a.values.entries } };

    ghost invariant = { λ a. (number : ℕ) → is_some (get nat_cmp a.values number) ≡ is_some (live_at a.handles number) };
}

impl<K> Registry<K> {
    ghost use Rattle.std.specs.Borrow.{sem};
    ghost use Rattle.shape_registry.specs.Lends.{lends_kept};

    /// A registry of no handles: the name of its run, how many handles may be live, and the definition of each served
    /// table, in the table's place.
    pub fn new(
        alloc: Global,
        run: Text,
        limit: u64,
        definitions: TableDefs,
    ) -> Result<Registry<K>, OutOfMemory>
        ensures { IfOk result (λ registry. Stands (record { run = run; limit = limit; catalog = definitions }) [] registry.state × (registry.kept ≡ fin.empty)) }
    {
        let handles = Handles::new(alloc, run, limit, definitions)?;
        let values = BTreeMap::new(alloc);
        Ok(Registry { handles, values })
    }

    /// What is found for a request.
    ///
    /// `Gone` comes exactly where the request names a handle that is not live under its identity, and has the number
    /// that is ready under that identity. `Unregistered` comes exactly where it names none and none is live under its
    /// identity.
    pub fn lookup(&self, ask: &Ask) -> Found
        ensures found { result ≡ found_in self.now.state ask.now.identity ask.now.named }
        ensures by_history { ByHistory self.now.state (λ start es. result ≡ found_after start.run es ask.now.identity ask.now.named) }
    {
        self.handles.found(&ask.identity, &ask.named)
    }

    /// How the handle with a number stands.
    pub fn standing(&self, number: u64) -> Standing
        ensures standing { result ≡ standing_in self.now.state number }
        ensures by_history { ByHistory self.now.state (λ start es. result ≡ standing_after es number) }
    {
        self.handles.standing(number)
    }

    /// The id of the last transaction that was taken.
    pub fn last(&self) -> Option<u32>
        ensures last { result ≡ id_in self.now.state }
        ensures by_history { ByHistory self.now.state (λ start es. result ≡ last_id es) }
    {
        self.handles.last()
    }

    /// The LSN of the last transaction that was taken; 0 where none was.
    pub fn last_lsn(&self) -> u64
        ensures last_lsn { result ≡ lsn_in self.now.state }
        ensures by_history { ByHistory self.now.state (λ start es. result ≡ last_lsn es) }
    {
        self.handles.last_lsn()
    }

    /// How many transactions were taken.
    pub fn taken(&self) -> u64
        ensures taken { result ≡ self.now.state.taken }
        ensures by_history { ByHistory self.now.state (λ start es. result ≡ length (transactions es)) }
    {
        self.handles.taken()
    }

    /// How many handles are live.
    pub fn live(&self) -> u64
        ensures live { result ≡ length self.now.state.live }
        ensures by_history { ByHistory self.now.state (λ start es. result ≡ length (live_registrations es)) }
    {
        self.handles.live()
    }

    /// How many transactions had been taken when the number was given. `None` exactly where it is not live.
    pub fn before(&self, number: u64) -> Option<u64>
        ensures before { result ≡ option_map (λ l. l.before) (live_at self.now.state number) }
        ensures by_history { ByHistory self.now.state (λ start es. result ≡ before_after es number) }
    {
        self.handles.before(number)
    }

    /// The present definition of a served table.
    pub fn catalog(&self, table: u32) -> &TableDef
        requires { table < length self.now.state.catalog }
        ensures definition { slice_get self.now.state.catalog table ≡ Some result.now }
        ensures by_history { ByHistory self.now.state (λ start es. definition_after start.catalog es table ≡ Some result.now) }
        ensures placed { ByHistory self.now.state (λ start es. ArePlaced start.catalog → result.now.table ≡ table) }
    {
        self.handles.definition(table)
    }

    /// The value that is kept for a number. `None` exactly where it is not live.
    pub fn kept(&self, number: u64) -> Option<&K>
        ensures kept { option_copied result ≡ fin.get self.now.kept number }
        ensures live { is_some result ≡ is_some (live_at self.now.state number) }
        ensures by_history { ByHistory self.now.state (λ start es. is_some result ≡ is_live es number) }
    {
        self.values.get(&number)
    }

    /// The value that is kept for a number, to write to. `None` exactly where it is not live.
    pub fn kept_mut(&mut self, number: u64) -> Option<&mut K>
        ensures* writes_back { sem 𝓛 (lends_kept K.row self.entry number result) }
        ensures kept { option_copied_mut result ≡ fin.get self.old.kept number }
        ensures live { is_some result ≡ is_some (live_at self.old.state number) }
        ensures by_history { ByHistory self.old.state (λ start es. is_some result ≡ is_live es number) }
    {
        self.values.get_mut(&number)
    }

    /// Notes a transaction that was taken, and gives the live numbers, rising.
    pub fn take(&mut self, alloc: Global, lsn: u64, xid: u32) -> Result<Numbers, OutOfMemory>
        requires { lsn_in self.old.state < lsn }
        ensures ok { IfOk result (λ numbers. (numbers ≡ map (λ l. l.number) self.old.state.live) × (self.new.state ≡ after self.old.state (events.Took lsn xid))) }
        ensures numbers { IfOk result (λ numbers. ByHistory self.old.state (λ start es. numbers ≡ live_numbers es)) }
        ensures took { OnOk result (Adds self.old.state (events.Took lsn xid) self.new.state) }
        ensures kept { self.new.kept ≡ self.old.kept }
        ensures err { OnErr result (self.new ≡ self.old) }
    {
        self.handles.take(alloc, lsn, xid)
    }

    /// The table that the definition names has this definition from now on.
    pub fn redefine(&mut self, definition: TableDef)
        requires { definition.table < length self.old.state.catalog }
        ensures state { self.new.state ≡ after self.old.state (events.Redefined definition) }
        ensures redefined { Adds self.old.state (events.Redefined definition) self.new.state }
        ensures kept { self.new.kept ≡ self.old.kept }
    {
        self.handles.redefine(definition);
    }

    /// A starting number becomes ready.
    pub fn ready(&mut self, number: u64)
        requires { standing_in self.old.state number ≡ standings.Starting }
        ensures state { self.new.state ≡ after self.old.state (events.Ready number) }
        ensures ready { Adds self.old.state (events.Ready number) self.new.state }
        ensures kept { self.new.kept ≡ self.old.kept }
    {
        self.handles.ready(number);
    }
}

/// A refusal with the value that was to be kept.
fn refused<K>(refusal: Refusal, kept: K) -> RegisterError<K>
    ensures { IsRefused (Some refusal) kept result }
{
    match refusal {
        Refusal::Exists { number } => RegisterError::Exists { number, kept },
        Refusal::TooMany { live, limit } => RegisterError::TooMany { live, limit, kept },
        Refusal::NumbersSpent => RegisterError::NumbersSpent { kept },
    }
}

impl<K: Drop> Registry<K> {
    /// Gives the next number to an identity that is not refused.
    fn put(
        &mut self,
        alloc: Global,
        identity: Text,
        table: u32,
        kept: K,
    ) -> Result<u64, RegisterError<K>>
        requires { refusal_in self.old.state identity ≡ None }
        ensures state { IfOk result (λ number. (number ≡ self.old.state.given + 1) × (self.new.state ≡ after self.old.state (events.Registered number identity table (id_in self.old.state)))) }
        ensures kept { IfOk result (λ number. self.new.kept ≡ fin.insert self.old.kept number kept) }
        ensures refused { IfErr result (IsRefused None kept) }
        ensures unchanged { OnErr result (self.new ≡ self.old) }
    {
        let number = self.handles.next();
        let before = match self.values.insert(number, kept) {
            Ok(before) => before,
            Err(failed) => {
                let (_, kept) = failed.value;
                return Err(RegisterError::OutOfMemory { kept });
            }
        };
        let _none = before;
        match self.handles.register(alloc, identity, table) {
            Ok(number) => Ok(number),
            Err(_) => match self.values.remove(&number) {
                Some(kept) => Err(RegisterError::OutOfMemory { kept }),
                None => unreachable!(),
            },
        }
    }

    /// Gives the next number to an identity, and keeps a value for it. Numbers rise by one from 1, and none is given
    /// twice.
    ///
    /// `Exists` comes exactly where the identity is live; otherwise `TooMany` exactly where as many handles are live as
    /// may be; otherwise `NumbersSpent` exactly where 2^64 - 1 was given. After a refusal the registry is unchanged, and
    /// the error has the value.
    pub fn register(
        &mut self,
        alloc: Global,
        identity: Text,
        table: u32,
        kept: K,
    ) -> Result<u64, RegisterError<K>>
        requires { table < length self.old.state.catalog }
        ensures accepted { OnOk result (refusal_in self.old.state identity ≡ None) }
        ensures state { IfOk result (λ number. (number ≡ self.old.state.given + 1) × (self.new.state ≡ after self.old.state (events.Registered number identity table (id_in self.old.state)))) }
        ensures registered { IfOk result (λ number. Adds self.old.state (events.Registered number identity table (id_in self.old.state)) self.new.state) }
        ensures kept { IfOk result (λ number. self.new.kept ≡ fin.insert self.old.kept number kept) }
        ensures refused { IfErr result (IsRefused (refusal_in self.old.state identity) kept) }
        ensures refused_by_history { IfErr result (λ e. ByHistory self.old.state (λ start es. IsRefused (refusal_after start.limit es identity) kept e)) }
        ensures unchanged { OnErr result (self.new ≡ self.old) }
    {
        if let Some(refusal) = self.handles.refusal(&identity) {
            return Err(refused(refusal, kept));
        }
        self.put(alloc, identity, table, kept)
    }

    /// Removes a live number, and gives the value that was kept for it. `None` exactly where the number is not live; the
    /// registry is then unchanged.
    pub fn remove(&mut self, number: u64, cause: Cause) -> Option<K>
        ensures back { result ≡ fin.get self.old.kept number }
        ensures live { is_some result ≡ is_some (live_at self.old.state number) }
        ensures by_history { ByHistory self.old.state (λ start es. is_some result ≡ is_live es number) }
        ensures state { OnSome result (self.new.state ≡ after self.old.state (events.Removed number cause)) }
        ensures removed { OnSome result (Adds self.old.state (events.Removed number cause) self.new.state) }
        ensures kept { self.new.kept ≡ fin.remove self.old.kept number }
        ensures unchanged { IfNone result (self.new ≡ self.old) }
    {
        let _ = cause;
        match self.values.remove(&number) {
            Some(kept) => {
                self.handles.remove(number);
                Some(kept)
            }
            None => None,
        }
    }
}
