//! The shapes of one caller by their numbers.
ghost use Rattle.std.specs.Prelude.{◌≡◌, [], List, IsSome, IsSomeAnd, IfSome, IfOk, IfErr, OnOk, OnErr, map};
ghost use Rattle.std.specs.FinMap as fin;
ghost use Rattle.shape_json.specs.ShapeHistory.{snapshot_in};
ghost use Rattle.shape_snapshot.specs.Taken.{HasTaken};
ghost use Rattle.shape_state.specs.Reading.{reader_of};
ghost use Rattle.shape_lock.specs.Passes.{Suits, snapshot_of};
ghost use Rattle.shared_shapes.specs.Events.{Noted};
ghost use Rattle.shared_shapes.specs.Seats.{AtSeat, Holds, IsSeat, AreSeats};
ghost use Rattle.shared_shapes.specs.Asking.{AreOn, Admits, Looks, Visits};
ghost use Rattle.shared_shapes.specs.Changing.{Snaps, Refuses, Drops};

use crate::numbered::Numbered;
use crate::seat::{Seat, Snapped};
use shape_base::{Cause, Offset, OutOfMemory, Row, RowTest};
use shape_lock::Looked;
use shape_snapshot::Snap;
use shape_state::ReadyError;
use std::snapshot::Snapshot;
use std::sync::Wait;

/// Gives the shape with that number its snapshot.
pub(crate) fn snap_at<T: RowTest, R: Wait>(
    rt: &R,
    seats: &mut Numbered<Seat<T>>,
    number: u64,
    snap: Snap<T>,
    rows: &Vec<Snapshot<Row>>,
) -> Result<Snapped<T>, ReadyError>
    requires right { IsSomeAnd (fin.get seats.old number) (λ s. IsSome s.right × Suits s.pass.fixed snap.emitter.test snap.kept.log.least) }
    requires taken { HasTaken (reader_of (T.knows snap.emitter.test) (T.unread snap.emitter.test)) snap.limits snap.kept (map (λ r. r.value) rows.now.items) }
    ensures snaps { IfOk result (λ s. AtSeat seats.old seats.new number (Snaps T.knows T.unread (snapshot_of (T.knows snap.emitter.test) snap.vis (map (λ r. r.value) rows.now.items)) s.gone)) }
    ensures note { IfOk result (λ s. IsSomeAnd (fin.get seats.old number) (λ t. Holds t s.note.lock s.ready) × IsSome (snapshot_in s.note.seen)) }
    ensures refused { IfErr result (λ e. AtSeat seats.old seats.new number (Refuses T.knows T.unread e)) }
{
    let Some(seat) = seats.get_mut(number) else {
        unreachable!()
    };
    seat.snap(rt, snap, rows)
}

/// Drops the shape with that number, and says whether this call did.
pub(crate) fn drop_at<T: RowTest, R: Wait>(
    rt: &R,
    seats: &mut Numbered<Seat<T>>,
    number: u64,
    cause: Cause,
) -> bool
    requires { IsSome (fin.get seats.old number) }
    ensures { AtSeat seats.old seats.new number (Drops T.knows T.unread cause result) }
{
    let Some(seat) = seats.get_mut(number) else {
        unreachable!()
    };
    seat.drop_shape(rt, cause)
}

/// The seat of that number has then seen what the visitor's pass has. Where there was none, it is the visitor's.
pub(crate) fn admit<T: RowTest>(
    seats: &mut Numbered<Seat<T>>,
    number: u64,
    visitor: Seat<T>,
) -> Result<(), OutOfMemory>
    requires lock { IfSome (fin.get seats.old number) (λ s. s.pass.lock ≡ visitor.pass.lock) }
    requires own { visitor.pass.own ≡ [] }
    ensures admits { OnOk result (Admits seats.old seats.new number visitor) }
    ensures same { OnErr result (seats.new ≡ seats.old) }
{
    if let Some(seat) = seats.get_mut(number) {
        seat.join(visitor);
        return Ok(());
    }
    seats.insert(number, visitor)
}

/// What the shape with that number answers to a request for a page.
pub(crate) fn look_at<T: RowTest, R: Wait>(
    rt: &R,
    seats: &mut Numbered<Seat<T>>,
    number: u64,
    offset: Offset,
    live: bool,
    late: bool,
) -> Result<Looked, OutOfMemory>
    requires { IsSome (fin.get seats.old number) }
    ensures { AtSeat seats.old seats.new number (Looks T.knows T.unread offset live late result) }
{
    let Some(seat) = seats.get_mut(number) else {
        unreachable!()
    };
    seat.look(rt, offset, live, late)
}

/// Lets a visitor's seat in, and answers what its shape does then.
pub(crate) fn visit_at<T: RowTest, R: Wait>(
    rt: &R,
    seats: &mut Numbered<Seat<T>>,
    number: u64,
    visitor: Seat<T>,
    place: (Offset, bool),
    late: bool,
) -> Result<Looked, OutOfMemory>
    requires lock { IfSome (fin.get seats.old number) (λ s. s.pass.lock ≡ visitor.pass.lock) }
    requires own { visitor.pass.own ≡ [] }
    ensures on { AreOn seats.old seats.new }
    ensures known { (es : List (Noted T)) → AreSeats es seats.old → IsSeat es number visitor → AreSeats es seats.new }
    ensures visits { IfOk result (Visits T.knows T.unread seats.new number visitor place.0 place.1 late) }
{
    admit(seats, number, visitor)?;
    let (offset, live) = place;
    look_at(rt, seats, number, offset, live, late)
}
