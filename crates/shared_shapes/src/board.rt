//! The state under the registry's lock.
ghost use Rattle.std.specs.Prelude.{length, ◌≡◌, ◌+◌, ◌^◌, ◌-◌, ◌++◌, ◌∷◌, [], Some, IsSome, true, IfSome, IfNone, IsSomeAnd, IfOk, IfErr, OnErr};
ghost use Rattle.shape_base.specs.declared.registry_event.RegistryEvent.TheVariants as events;
ghost use Rattle.shape_base.specs.RegistryHistory.{is_live, had_ready, last_id, transactions, taken_before};
ghost use Rattle.shape_json.specs.ShapeHistory.{snapshot_in};
ghost use Rattle.shape_registry.specs.ByHistory.{standing_after, found_after};
ghost use Rattle.shared_shapes.specs.Events.{plain, began, place_in, place_of, events_of};
ghost use Rattle.shared_shapes.specs.Board.{IsBoard};
ghost use Rattle.shared_shapes.specs.Passes.{IsServed, shapes_in, removed_if, ready_if};
ghost use Rattle.shared_shapes.specs.Calls.{IsStartError};
ghost use Rattle.shared_shapes.specs.Reasons.{reason_of};
ghost use Rattle.shared_shapes.specs.Asking.{run_in, IsVisit};

use crate::registry_data::RegistryData;
use crate::seat::Seat;
use crate::slot::Slot;
use crate::started::StartError;
use crate::step::RegistryStep;
use front_lock::{Held, Note, Stands};
use lock_events::{Pen, Trace};
use shape_base::{
    Ask, Cause, Limits, OutOfMemory, RowTest, ServedTables, TableDef, TableDefs, Text,
};
use shape_lock::Locked;
use shape_registry::{Found, RegisterError, Registry, Standing};
use std::alloc::Global;
use std::snapshot::Snapshot;
use std::sync::Wait;

/// A registry under a lock, with what it keeps of each live shape. It stands for the events of its history.
#[derive(Drop)]
pub struct Board<T: RowTest> {
    about: RegistryData,
    registry: Registry<Slot<T>>,
    fed: Trace<u64>,
    given: u64,
}

impl<T: RowTest> Stands for Board<T> {
    ghost use Rattle.std.specs.Prelude.{None, Some};
    ghost use Rattle.shared_shapes.specs.Board.{IsBoard};

    type Event = RegistryStep<T>;

    type Fixed = Option<RegistryData>;

    ghost no_data = { None };

    ghost fixed = { λ b. Some b.about };

    ghost stands = { λ b f _ events. IsBoard b.about b.registry b.fed b.given f events };
}

/// Why no number was given; what was to be kept is let go.
fn reason<K: Drop>(e: RegisterError<K>) -> StartError
    ensures { result ≡ reason_of e }
{
    match e {
        RegisterError::Exists { number, kept: _ } => StartError::Exists { number },
        RegisterError::TooMany {
            live,
            limit,
            kept: _,
        } => StartError::TooMany { live, limit },
        RegisterError::NumbersSpent { kept: _ } => StartError::NumbersSpent,
        RegisterError::OutOfMemory { kept: _ } => StartError::OutOfMemory,
    }
}

impl<T: RowTest> Board<T> {
    /// A registry with no shapes. The list of the trace is going to have the LSNs of the commits that it takes.
    pub(crate) fn new(
        alloc: Global,
        limits: Limits,
        tables: ServedTables,
        definitions: TableDefs,
        run: Text,
        fed: Trace<u64>,
    ) -> Result<Board<T>, OutOfMemory>
        requires { fed.list ≡ [] }
        ensures stands { IfOk result (λ b. IsBoard b.about b.registry b.fed b.given (Some b.about) []) }
        ensures about { IfOk result (λ b. (b.about.limits ≡ limits) × (b.about.run.value ≡ run) × (b.about.tables.value ≡ tables) × (b.about.definitions.value ≡ definitions) × (b.about.feed.value ≡ fed)) }
    {
        let about = RegistryData {
            limits,
            run: Snapshot::of(&run),
            tables: Snapshot::of(&tables),
            definitions: Snapshot::of(&definitions),
            feed: Snapshot::of(&fed),
        };
        let registry = Registry::new(alloc, run, limits.shapes, definitions)?;
        Ok(Board {
            about,
            registry,
            fed,
            given: 0,
        })
    }

    /// How a number stands.
    pub(crate) fn standing(&self, held: &Held<Board<T>>, number: u64) -> Standing
        requires { IsBoard self.now.about self.now.registry self.now.fed self.now.given held.now.fixed held.now.seen }
        ensures { result ≡ standing_after (events_of held.now.seen) number }
    {
        let _ = held;
        self.registry.standing(number)
    }

    /// What is found for a request.
    pub(crate) fn found(&self, held: &Held<Board<T>>, ask: &Ask) -> Found
        requires { IsBoard self.now.about self.now.registry self.now.fed self.now.given held.now.fixed held.now.seen }
        ensures { result ≡ found_after (run_in held.now.fixed) (events_of held.now.seen) ask.now.identity ask.now.named }
    {
        let _ = held;
        self.registry.lookup(ask)
    }

    /// How many transactions were taken.
    pub(crate) fn taken(&self, held: &Held<Board<T>>) -> u64
        requires { IsBoard self.now.about self.now.registry self.now.fed self.now.given held.now.fixed held.now.seen }
        ensures { result ≡ length (transactions (events_of held.now.seen)) }
    {
        let _ = held;
        self.registry.taken()
    }

    /// How many had been taken when a live number was given.
    pub(crate) fn before(&self, held: &Held<Board<T>>, number: u64) -> u64
        requires stands { IsBoard self.now.about self.now.registry self.now.fed self.now.given held.now.fixed held.now.seen }
        requires live { is_live (events_of held.now.seen) number ≡ true }
        ensures { result ≡ taken_before (events_of held.now.seen) number }
    {
        let _ = held;
        let Some(before) = self.registry.before(number) else {
            unreachable!()
        };
        before
    }

    /// A seat of the shape of a ready number, for one who asks.
    pub(crate) fn visit(
        &mut self,
        held: &Held<Board<T>>,
        number: u64,
    ) -> Result<Seat<T>, OutOfMemory>
        requires stands { IsBoard self.old.about self.old.registry self.old.fed self.old.given held.now.fixed held.now.seen }
        requires ready { (is_live (events_of held.now.seen) number ≡ true) × (had_ready (events_of held.now.seen) number ≡ true) }
        ensures stands { IsBoard self.new.about self.new.registry self.new.fed self.new.given held.now.fixed held.now.seen }
        ensures seat { IfOk result (IsVisit held.now.seen number) }
    {
        let _ = held;
        let Some(slot) = self.registry.kept_mut(number) else {
            unreachable!()
        };
        slot.visit()
    }

    /// The id of the last transaction that was taken.
    pub(crate) fn last(&self, held: &Held<Board<T>>) -> Option<u32>
        requires { IsBoard self.now.about self.now.registry self.now.fed self.now.given held.now.fixed held.now.seen }
        ensures { result ≡ last_id (events_of held.now.seen) }
    {
        let _ = held;
        self.registry.last()
    }

    /// The number that comes next. None where 2^64 - 1 was given.
    pub(crate) fn next(&self) -> Option<u64>
        ensures some { IfSome result (λ n. n ≡ self.now.given + 1) }
        ensures none { IfNone result (self.now.given ≡ 2 ^ 64 - 1) }
    {
        self.given.checked_add(1)
    }

    /// A table has a new definition.
    pub(crate) fn redefine(&mut self, held: &Held<Board<T>>, definition: TableDef)
        requires stands { IsBoard self.old.about self.old.registry self.old.fed self.old.given held.now.fixed held.now.seen }
        requires served { IsServed held.now.fixed definition.table }
        ensures { IsBoard self.new.about self.new.registry self.new.fed self.new.given held.now.fixed (held.now.seen ++ plain (events.Redefined definition) ∷ []) }
    {
        let _ = held;
        self.registry.redefine(definition);
    }

    /// A number is live no more. False where it was not live.
    pub(crate) fn remove(&mut self, held: &Held<Board<T>>, number: u64, cause: Cause) -> bool
        requires { IsBoard self.old.about self.old.registry self.old.fed self.old.given held.now.fixed held.now.seen }
        ensures live { result ≡ is_live (events_of held.now.seen) number }
        ensures stands { IsBoard self.new.about self.new.registry self.new.fed self.new.given held.now.fixed (held.now.seen ++ removed_if result number cause) }
    {
        let _ = held;
        let Some(_slot) = self.registry.remove(number, cause) else {
            return false;
        };
        true
    }

    /// A number becomes ready, whose shape has its snapshot, as the note tells. False where it is live no more.
    pub(crate) fn make_ready<R: Wait>(
        &mut self,
        held: &Held<Board<T>>,
        rt: &R,
        number: u64,
        ready: &mut Pen<bool>,
        note: Note<Locked<T>>,
    ) -> bool
        requires stands { IsBoard self.old.about self.old.registry self.old.fed self.old.given held.now.fixed held.now.seen }
        requires place { IsSomeAnd (place_of held.now.seen number) (λ p. (p.lock ≡ note.lock) × (p.ready ≡ ready.old.of)) }
        requires right { ready.old.list ≡ [] }
        requires snapped { IsSome (snapshot_in note.seen) }
        ensures live { result ≡ is_live (events_of held.now.seen) number }
        ensures stands { IsBoard self.new.about self.new.registry self.new.fed self.new.given held.now.fixed (held.now.seen ++ ready_if result number) }
    {
        let _ = held;
        let Some(slot) = self.registry.kept_mut(number) else {
            return false;
        };
        slot.make_ready(rt, ready, note);
        self.registry.ready(number);
        true
    }

    /// Gives the next number to a shape. After a refusal nothing changed.
    pub(crate) fn register(
        &mut self,
        held: &Held<Board<T>>,
        alloc: Global,
        identity: Text,
        table: u32,
        slot: Slot<T>,
    ) -> Result<u64, StartError>
        requires stands { IsBoard self.old.about self.old.registry self.old.fed self.old.given held.now.fixed held.now.seen }
        requires served { IsServed held.now.fixed table }
        ensures number { IfOk result (λ n. n ≡ self.old.given + 1) }
        ensures stands { IfOk result (λ n. IsBoard self.new.about self.new.registry self.new.fed self.new.given held.now.fixed (held.now.seen ++ began (events.Registered n identity table (last_id (events_of held.now.seen))) (place_in slot.pass slot.ready) ∷ [])) }
        ensures refused { IfErr result (IsStartError (shapes_in held.now.fixed) (events_of held.now.seen) identity) }
        ensures same { OnErr result (IsBoard self.new.about self.new.registry self.new.fed self.new.given held.now.fixed held.now.seen) }
    {
        let _ = held;
        match self.registry.register(alloc, identity, table, slot) {
            Ok(number) => {
                self.given = number;
                Ok(number)
            }
            Err(e) => Err(reason(e)),
        }
    }
}
