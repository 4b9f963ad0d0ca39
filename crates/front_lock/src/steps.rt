//! The steps on the table. Each is one change of one word, or plain access to a slot that the seat has.
ghost use Rattle.std.specs.Prelude.{◌≡◌, ◌+◌, ◌^◌, ◌<◌, ◌≤◌, true, [], ◌∷◌, ◌++◌, length, IsSome, Some, None, if◌then◌else◌};
ghost use Rattle.front_lock.specs.Rule.{mine_of, added, staged, caught_up, joined, marked, CatchesUp};
ghost use Rattle.front_lock.specs.declared.view.Stage.TheVariants.{Idle, Waits, Served, Noted};

use crate::plays::{Count, Draw, Enter, Leave, Look, Turn, Unite};
use crate::sleepers::Sleepers;
use crate::stands::{Adds, Stands};
use crate::view::{Ticketed, View};
use atomic_table::{Seat, Shared};
use std::hint::spin_loop;
use std::snapshot::Snapshot;
use std::sync::Wait;

// The words of the table: how many events there are, modulo 2^64; the next ticket; and the ticket that is served.
const COUNT: usize = 0;

/// The word of the next ticket.
pub(crate) const TICKET: usize = 1;

/// The word of the ticket that is served.
pub(crate) const SERVING: usize = 2;

/// Waits until no ticket is out, and draws the next one. It is drawn where the word still has the number that was
/// seen, so two threads never draw one ticket. The last number is never drawn: then it waits for ever.
pub(crate) fn draw<S: Stands, R: Wait>(
    rt: &R,
    table: &Shared<Option<S>, View<S::Event, S::Fixed>, Snapshot<S>, Ticketed<S>>,
    sleepers: &Sleepers,
    seat: &mut Seat<Option<S>, View<S::Event, S::Fixed>>,
) -> u64
    requires table { (seat.old.table_id ≡ table.now.table_id) × (table.now.table_id.words ≡ 3) }
    requires idle { seat.old.me ≡ (staged Idle seat.old.me.0, []) }
    requires shares { 0 < seat.old.me.0.part }
    ensures same { (seat.new.table_id ≡ seat.old.table_id) × (seat.new.id ≡ seat.old.id) }
    ensures drawn { seat.new.me ≡ (staged (Waits result) seat.old.me.0, []) }
{
    let mut looks = 0u32;
    for _ in rt.forever() {
        let serving = table.peek(SERVING);
        let ticket = table.peek(TICKET);
        if ticket == serving && ticket < u64::MAX {
            let found = table.compare_exchange::<Draw>(seat, TICKET, ticket, ticket + 1);
            if found == ticket {
                return ticket;
            }
        }
        looks = sleepers.rest(rt, table, looks, serving);
    }
    unreachable!()
}

/// Waits until the seat's ticket is served. After `draw` that is at once, since no ticket before it was out.
pub(crate) fn await_turn<S: Stands, R: Wait>(
    rt: &R,
    table: &Shared<Option<S>, View<S::Event, S::Fixed>, Snapshot<S>, Ticketed<S>>,
    seat: &mut Seat<Option<S>, View<S::Event, S::Fixed>>,
    ticket: u64,
)
    requires table { (seat.old.table_id ≡ table.now.table_id) × (table.now.table_id.words ≡ 3) }
    requires waits { seat.old.me ≡ (staged (Waits ticket) seat.old.me.0, []) }
    ensures same { (seat.new.table_id ≡ seat.old.table_id) × (seat.new.id ≡ seat.old.id) }
    ensures served { seat.new.me ≡ (staged (Served ticket) seat.old.me.0, []) }
{
    for _ in rt.forever() {
        let serving = table.load::<Turn>(seat, SERVING);
        if serving == ticket {
            return;
        }
        spin_loop();
    }
    unreachable!()
}

/// The seat that is served takes the state out of the slot.
pub(crate) fn enter<S: Stands>(
    table: &Shared<Option<S>, View<S::Event, S::Fixed>, Snapshot<S>, Ticketed<S>>,
    seat: &mut Seat<Option<S>, View<S::Event, S::Fixed>>,
    ticket: u64,
) -> S
    requires table { (seat.old.table_id ≡ table.now.table_id) × (table.now.table_id.words ≡ 3) × (table.now.table_id.slots ≡ 1) }
    requires served { seat.old.me ≡ (staged (Served ticket) seat.old.me.0, []) }
    requires shares { 0 < seat.old.me.0.part }
    ensures same { (seat.new.table_id ≡ seat.old.table_id) × (seat.new.id ≡ seat.old.id) }
    ensures catches { CatchesUp seat.old.me.0 seat.new.me.0.seen }
    ensures stands { S.stands result seat.old.me.0.fixed.value 0 seat.new.me.0.seen }
    ensures entered { seat.new.me ≡ (staged (Noted ticket) (caught_up seat.new.me.0.seen seat.old.me.0), (0, None) ∷ []) }
{
    table.load::<Enter<S>>(seat, COUNT);
    let slot = table.exchange(seat, 0, None);
    slot.unwrap()
}

/// The state goes into the slot that the seat has.
pub(crate) fn put<S: Stands>(
    table: &Shared<Option<S>, View<S::Event, S::Fixed>, Snapshot<S>, Ticketed<S>>,
    seat: &mut Seat<Option<S>, View<S::Event, S::Fixed>>,
    ticket: u64,
    state: S,
)
    requires table { seat.old.table_id ≡ table.now.table_id }
    requires noted { seat.old.me ≡ (staged (Noted ticket) seat.old.me.0, (0, None) ∷ []) }
    ensures same { (seat.new.table_id ≡ seat.old.table_id) × (seat.new.id ≡ seat.old.id) }
    ensures put { seat.new.me ≡ (seat.old.me.0, (0, Some state) ∷ []) }
{
    let _ = table.exchange(seat, 0, Some(state));
}

/// Where `adds`, the history gets the event that the call picks, for which the state in the slot stands.
pub(crate) fn count<S: Stands, A: Adds<S::Event>>(
    table: &Shared<Option<S>, View<S::Event, S::Fixed>, Snapshot<S>, Ticketed<S>>,
    seat: &mut Seat<Option<S>, View<S::Event, S::Fixed>>,
    ticket: u64,
    adds: bool,
)
    requires table { (seat.old.table_id ≡ table.now.table_id) × (table.now.table_id.words ≡ 3) }
    requires noted { seat.old.me.0.stage ≡ Noted ticket }
    requires shares { 0 < seat.old.me.0.part }
    requires short { length seat.old.me.0.own ≤ length seat.old.me.0.seen }
    requires event { adds ≡ true → IsSome A.event }
    requires stands { (x : S) × S.stands x seat.old.me.0.fixed.value 0 (seat.old.me.0.seen ++ added adds A.event) }
    ensures same { (seat.new.table_id ≡ seat.old.table_id) × (seat.new.id ≡ seat.old.id) }
    ensures slot { seat.new.me.1 ≡ seat.old.me.1 }
    ensures seen { seat.new.me.0.seen ≡ seat.old.me.0.seen ++ added adds A.event }
    ensures mine { mine_of seat.new.me.0 ≡ mine_of seat.old.me.0 ++ added adds A.event }
    ensures own { seat.new.me.0.own ≡ (if adds then marked seat.old.me.0.own seat.old.me.0.seen else seat.old.me.0.own) }
    ensures short { length seat.new.me.0.own ≤ length seat.new.me.0.seen }
    ensures rest { (seat.new.me.0.stage ≡ seat.old.me.0.stage) × (seat.new.me.0.part ≡ seat.old.me.0.part) × (seat.new.me.0.depth ≡ seat.old.me.0.depth) × (seat.new.me.0.fixed ≡ seat.old.me.0.fixed) }
{
    if adds {
        table.fetch_add::<Count<A>>(seat, COUNT, 1);
    }
}

/// The slot goes home, and the next ticket is served.
pub(crate) fn leave<S: Stands>(
    table: &Shared<Option<S>, View<S::Event, S::Fixed>, Snapshot<S>, Ticketed<S>>,
    seat: &mut Seat<Option<S>, View<S::Event, S::Fixed>>,
    ticket: u64,
)
    requires table { (seat.old.table_id ≡ table.now.table_id) × (table.now.table_id.words ≡ 3) }
    requires noted { seat.old.me.0.stage ≡ Noted ticket }
    requires shares { 0 < seat.old.me.0.part }
    requires stands { (x : S) × (seat.old.me.1 ≡ (0, Some x) ∷ []) × S.stands x seat.old.me.0.fixed.value 0 seat.old.me.0.seen }
    ensures same { (seat.new.table_id ≡ seat.old.table_id) × (seat.new.id ≡ seat.old.id) }
    ensures left { seat.new.me ≡ (staged Idle seat.old.me.0, []) }
{
    table.fetch_add::<Leave>(seat, SERVING, 1);
}

/// The first seat takes in the second, and loads the history, which extends what both had seen.
pub(crate) fn unite<S: Stands>(
    table: &Shared<Option<S>, View<S::Event, S::Fixed>, Snapshot<S>, Ticketed<S>>,
    seat: &mut Seat<Option<S>, View<S::Event, S::Fixed>>,
    other: Seat<Option<S>, View<S::Event, S::Fixed>>,
)
    requires table { (seat.old.table_id ≡ table.now.table_id) × (other.table_id ≡ table.now.table_id) × (table.now.table_id.words ≡ 3) }
    requires idle { (seat.old.me ≡ (staged Idle seat.old.me.0, [])) × (other.me ≡ (staged Idle other.me.0, [])) }
    requires shares { 0 < seat.old.me.0.part }
    requires short { (length seat.old.me.0.own ≤ length seat.old.me.0.seen) × (length other.me.0.own ≤ length other.me.0.seen) }
    ensures same { (seat.new.table_id ≡ seat.old.table_id) × (seat.new.id ≡ seat.old.id) }
    ensures catches { CatchesUp (joined seat.old.me.0 other.me.0) seat.new.me.0.seen }
    ensures stands { (x : S) × S.stands x seat.old.me.0.fixed.value 0 seat.new.me.0.seen }
    ensures united { seat.new.me ≡ (caught_up seat.new.me.0.seen (joined seat.old.me.0 other.me.0), []) }
{
    table.join_seat::<Unite<S>>(seat, other);
    table.load::<Look<S>>(seat, COUNT);
}
