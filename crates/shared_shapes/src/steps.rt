//! Single steps on the registry's lock.
ghost use Rattle.std.specs.Prelude.{◌≡◌, ◌+◌, ◌++◌, ◌∷◌, [], false, Some, IsSome, IsSomeAnd, IfOk, IfErr, OnErr};
ghost use Rattle.std.specs.FinMap as fin;
ghost use Rattle.shape_base.specs.declared.registry_event.RegistryEvent.TheVariants as events;
ghost use Rattle.shape_base.specs.RegistryHistory.{is_live, last_id};
ghost use Rattle.shape_json.specs.ShapeHistory.{snapshot_in};
ghost use Rattle.shape_registry.specs.ByHistory.{standing_after};
ghost use Rattle.shared_shapes.specs.Events.{plain, began, place_in, place_of, events_of};
ghost use Rattle.shared_shapes.specs.Board.{IsBoard};
ghost use Rattle.shared_shapes.specs.Passes.{StepsOn, IsServed, shapes_in, removed_if, ready_if, settled_if};
ghost use Rattle.shared_shapes.specs.Seats.{AreSeats};
ghost use Rattle.shared_shapes.specs.Calls.{IsStartError, IsUnstarted};

use crate::birth::Birth;
use crate::board::Board;
use crate::lent::Lent;
use crate::numbered::Numbered;
use crate::seat::{Seat, Snapped};
use crate::slot::Slot;
use crate::started::{StartError, Started};
use crate::step::{Change, plain_step, registered};
use front_lock::{FrontLock, Held, Note};
use lock_events::{Pen, give_back, give_with};
use shape_base::{Cause, RowTest, TableDef, Text};
use shape_lock::Locked;
use shape_registry::Standing;
use std::alloc::Global;
use std::snapshot::Snapshot;
use std::sync::Wait;

/// How a number stands.
pub(crate) fn standing<T: RowTest, R: Wait>(
    rt: &R,
    lock: &FrontLock<Board<T>>,
    me: &mut Lent<Board<T>>,
    number: u64,
) -> Standing
    requires { me.old.lock ≡ lock.now }
    ensures on { StepsOn me.old me.new [] }
    ensures standing { result ≡ standing_after (events_of me.new.seen) number }
{
    let Some(pass) = me.pass.take() else {
        unreachable!()
    };
    let (held, state) = lock.take(rt, pass);
    let standing = state.standing(&held, number);
    me.pass = Some(give_back(lock, held, state));
    standing
}

/// A table has a new definition.
pub(crate) fn redefine<T: RowTest, R: Wait>(
    rt: &R,
    lock: &FrontLock<Board<T>>,
    me: &mut Lent<Board<T>>,
    definition: TableDef,
)
    requires lock { me.old.lock ≡ lock.now }
    requires served { IsServed me.old.fixed definition.table }
    ensures { StepsOn me.old me.new (plain (events.Redefined definition) ∷ []) }
{
    let Some(pass) = me.pass.take() else {
        unreachable!()
    };
    let (held, mut state) = lock.take(rt, pass);
    let change = Change::Redefined {
        definition: Snapshot::of(&definition),
    };
    state.redefine(&held, definition);
    let event = plain_step::<T>(change);
    me.pass = Some(give_with(lock, held, state, &Snapshot::of(&event)));
}

/// Removes a number where it is still live, and says whether it was.
pub(crate) fn remove<T: RowTest, R: Wait>(
    rt: &R,
    lock: &FrontLock<Board<T>>,
    me: &mut Lent<Board<T>>,
    number: u64,
    cause: Cause,
) -> bool
    requires { me.old.lock ≡ lock.now }
    ensures on { StepsOn me.old me.new (removed_if result number cause) }
    ensures dead { is_live (events_of me.new.seen) number ≡ false }
{
    let Some(pass) = me.pass.take() else {
        unreachable!()
    };
    let (held, mut state) = lock.take(rt, pass);
    if state.remove(&held, number, cause) {
        let event = plain_step::<T>(Change::Removed { number, cause });
        me.pass = Some(give_with(lock, held, state, &Snapshot::of(&event)));
        return true;
    }
    me.pass = Some(give_back(lock, held, state));
    false
}

/// Makes a number ready where it is still live, and says whether it was. Its shape has its snapshot, as the note tells.
pub(crate) fn make_ready<T: RowTest, R: Wait>(
    rt: &R,
    lock: &FrontLock<Board<T>>,
    me: &mut Lent<Board<T>>,
    number: u64,
    ready: &mut Pen<bool>,
    note: Note<Locked<T>>,
) -> bool
    requires lock { me.old.lock ≡ lock.now }
    requires place { IsSomeAnd (place_of me.old.seen number) (λ p. (p.lock ≡ note.lock) × (p.ready ≡ ready.old.of)) }
    requires right { ready.old.list ≡ [] }
    requires snapped { IsSome (snapshot_in note.seen) }
    ensures on { StepsOn me.old me.new (ready_if result number) }
    ensures left { result ≡ false → is_live (events_of me.new.seen) number ≡ false }
{
    let Some(pass) = me.pass.take() else {
        unreachable!()
    };
    let (held, mut state) = lock.take(rt, pass);
    if state.make_ready(&held, rt, number, ready, note) {
        let event = plain_step::<T>(Change::Ready { number });
        me.pass = Some(give_with(lock, held, state, &Snapshot::of(&event)));
        return true;
    }
    me.pass = Some(give_back(lock, held, state));
    false
}

/// Writes in the registry what became of a shape that got its snapshot, where its number is still live, and says whether it was: the number becomes ready, or is removed where the
/// shape was dropped.
pub(crate) fn settle<T: RowTest, R: Wait>(
    rt: &R,
    lock: &FrontLock<Board<T>>,
    me: &mut Lent<Board<T>>,
    number: u64,
    snapped: Snapped<T>,
) -> bool
    requires lock { me.old.lock ≡ lock.now }
    requires place { IsSomeAnd (place_of me.old.seen number) (λ p. (p.lock ≡ snapped.note.lock) × (p.ready ≡ snapped.ready.of)) }
    requires right { snapped.ready.list ≡ [] }
    requires seen { IsSome (snapshot_in snapped.note.seen) }
    ensures on { StepsOn me.old me.new (settled_if result number snapped.gone) }
    ensures left { result ≡ false → is_live (events_of me.new.seen) number ≡ false }
{
    let Snapped {
        gone,
        mut ready,
        note,
    } = snapped;
    match gone {
        None => make_ready(rt, lock, me, number, &mut ready, note),
        Some(cause) => remove(rt, lock, me, number, cause),
    }
}

/// The shape gets the next number, and its owner the seat. After a refusal nothing changed.
fn enter<T: RowTest>(
    alloc: Global,
    held: &Held<Board<T>>,
    state: &mut Board<T>,
    seats: &mut Numbered<Seat<T>>,
    identity: Text,
    table: u32,
    slot: Slot<T>,
    seat: Seat<T>,
) -> Result<u64, StartError>
    requires stands { IsBoard state.old.about state.old.registry state.old.fed state.old.given held.now.fixed held.now.seen }
    requires served { IsServed held.now.fixed table }
    requires seats { AreSeats held.now.seen seats.old }
    ensures stands { IfOk result (λ n. IsBoard state.new.about state.new.registry state.new.fed state.new.given held.now.fixed (held.now.seen ++ began (events.Registered n identity table (last_id (events_of held.now.seen))) (place_in slot.pass slot.ready) ∷ [])) }
    ensures number { IfOk result (λ n. n ≡ state.old.given + 1) }
    ensures seats { IfOk result (λ n. seats.new ≡ fin.insert seats.old n seat) }
    ensures refused { IfErr result (IsStartError (shapes_in held.now.fixed) (events_of held.now.seen) identity) }
    ensures same { OnErr result (IsBoard state.new.about state.new.registry state.new.fed state.new.given held.now.fixed held.now.seen) }
    ensures same_seats { OnErr result (seats.new ≡ seats.old) }
{
    let Some(next) = state.next() else {
        return match state.register(held, alloc, identity, table, slot) {
            Ok(_) => unreachable!(),
            Err(e) => Err(e),
        };
    };
    if seats.insert(next, seat).is_err() {
        return Err(StartError::OutOfMemory);
    }
    match state.register(held, alloc, identity, table, slot) {
        Ok(number) => Ok(number),
        Err(e) => {
            seats.remove(next);
            Err(e)
        }
    }
}

/// Registers a shape.
pub(crate) fn register<T: RowTest, R: Wait>(
    rt: &R,
    alloc: Global,
    lock: &FrontLock<Board<T>>,
    me: &mut Lent<Board<T>>,
    seats: &mut Numbered<Seat<T>>,
    birth: Birth<T>,
) -> Result<Started, StartError>
    requires lock { me.old.lock ≡ lock.now }
    requires served { IsServed me.old.fixed birth.table }
    requires seats { AreSeats me.old.seen seats.old }
    requires place { place_in birth.slot.pass birth.slot.ready ≡ place_in birth.pass.value birth.ready.value }
    ensures on { IfOk result (λ s. StepsOn me.old me.new (began (events.Registered s.number birth.identity birth.table s.last) (place_in birth.pass.value birth.ready.value) ∷ [])) }
    ensures place { IfOk result (λ s. place_of me.new.seen s.number ≡ Some (place_in birth.pass.value birth.ready.value)) }
    ensures seats { IfOk result (λ s. seats.new ≡ fin.insert seats.old s.number birth.seat) }
    ensures refused { IfErr result (IsUnstarted me.old me.new birth.identity) }
    ensures same { OnErr result (seats.new ≡ seats.old) }
{
    let Birth {
        identity,
        table,
        slot,
        seat,
        pass: born,
        ready,
    } = birth;
    let Some(pass) = me.pass.take() else {
        unreachable!()
    };
    let (held, mut state) = lock.take(rt, pass);
    let last = state.last(&held);
    let name = Snapshot::of(&identity);
    match enter(alloc, &held, &mut state, seats, identity, table, slot, seat) {
        Ok(number) => {
            let event = registered(number, name, table, last, born, ready);
            me.pass = Some(give_with(lock, held, state, &Snapshot::of(&event)));
            Ok(Started { number, last })
        }
        Err(e) => {
            me.pass = Some(give_back(lock, held, state));
            Err(e)
        }
    }
}
