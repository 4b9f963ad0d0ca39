//! How a request is answered.
ghost use Rattle.std.specs.Prelude.{◌≡◌, IfSome, IfOk};
ghost use Rattle.shared_shapes.specs.Passes.{IsLegalFor};
ghost use Rattle.shared_shapes.specs.Seats.{AreSeats};
ghost use Rattle.shared_shapes.specs.Asking.{Answers, AsksOn};

use crate::asked::{Asked, Met, place_of, shaped};
use crate::board::Board;
use crate::passes::RegPass;
use crate::seats::visit_at;
use crate::steps::remove;
use crate::visits::meet;
use front_lock::FrontLock;
use shape_base::{Ask, OutOfMemory, RowTest};
use std::sync::Wait;

/// One look. None where the shape was found dropped: its number is then live no more in what the pass has seen.
fn answer_once<T: RowTest, R: Wait>(
    rt: &R,
    lock: &FrontLock<Board<T>>,
    pass: &mut RegPass<T>,
    ask: &Ask,
    late: bool,
) -> Result<Option<(Asked, u64)>, OutOfMemory>
    requires lock { pass.old.reg.lock ≡ lock.now }
    requires known { AreSeats pass.old.reg.seen pass.old.seats }
    ensures answers { IfOk result (λ o. IfSome o (λ a. Answers T.knows T.unread pass.new.reg pass.new.seats ask.now late a.0 a.1)) }
    ensures on { AsksOn T.knows T.unread pass.old.reg pass.new.reg pass.old.seats pass.new.seats }
    ensures legal { IsLegalFor pass.new.reg.fixed pass.new.reg.seen }
    ensures known { AreSeats pass.new.reg.seen pass.new.seats }
{
    match meet(rt, lock, &mut pass.reg, ask) {
        Ok(Met::Told { asked, count }) => Ok(Some((asked, count))),
        Ok(
            Met::Shape {
                number,
                before,
                seat,
            },
        ) => {
            let place = place_of(ask);
            match visit_at(rt, &mut pass.seats, number, seat, place, late) {
                Ok(looked) => match shaped(number, looked.paged) {
                    Ok(asked) => Ok(Some((asked, before.saturating_add(looked.took)))),
                    Err(cause) => {
                        remove(rt, lock, &mut pass.reg, number, cause);
                        Ok(None)
                    }
                },
                Err(e) => Err(e),
            }
        }
        Err(e) => Err(e),
    }
}

/// Looks until there is an answer.
pub(crate) fn answer<T: RowTest, R: Wait>(
    rt: &R,
    lock: &FrontLock<Board<T>>,
    pass: &mut RegPass<T>,
    ask: &Ask,
    late: bool,
) -> Result<(Asked, u64), OutOfMemory>
    requires lock { pass.old.reg.lock ≡ lock.now }
    requires known { AreSeats pass.old.reg.seen pass.old.seats }
    ensures answers { IfOk result (λ a. Answers T.knows T.unread pass.new.reg pass.new.seats ask.now late a.0 a.1) }
    ensures on { AsksOn T.knows T.unread pass.old.reg pass.new.reg pass.old.seats pass.new.seats }
    ensures legal { IsLegalFor pass.new.reg.fixed pass.new.reg.seen }
    ensures known { AreSeats pass.new.reg.seen pass.new.seats }
{
    for _ in rt.forever() {
        match answer_once(rt, lock, pass, ask, late) {
            Ok(Some(answer)) => return Ok(answer),
            Ok(None) => {}
            Err(e) => return Err(e),
        }
    }
    unreachable!()
}
