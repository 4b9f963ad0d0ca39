//! A look at the registry for one who asks.
ghost use Rattle.std.specs.Prelude.{◌≡◌, [], IfOk};
ghost use Rattle.shape_registry.specs.ByHistory.{found_after};
ghost use Rattle.shared_shapes.specs.Events.{events_of};
ghost use Rattle.shared_shapes.specs.Board.{IsBoard};
ghost use Rattle.shared_shapes.specs.Passes.{StepsOn};
ghost use Rattle.shared_shapes.specs.Asking.{run_in, IsMet};

use crate::asked::{Asked, Met};
use crate::board::Board;
use crate::lent::Lent;
use crate::seat::Seat;
use front_lock::{FrontLock, Held};
use lock_events::give_back;
use shape_base::{Ask, OutOfMemory, RowTest};
use shape_registry::Found;
use std::sync::Wait;

/// What is met under the lock.
fn meet_held<T: RowTest>(
    held: &Held<Board<T>>,
    state: &mut Board<T>,
    ask: &Ask,
) -> Result<Met<Seat<T>>, OutOfMemory>
    requires { IsBoard state.old.about state.old.registry state.old.fed state.old.given held.now.fixed held.now.seen }
    ensures stands { IsBoard state.new.about state.new.registry state.new.fed state.new.given held.now.fixed held.now.seen }
    ensures met { IfOk result (IsMet (run_in held.now.fixed) held.now.seen ask.now) }
{
    let count = state.taken(held);
    match state.found(held, ask) {
        Found::Ready { number } => {
            let before = state.before(held, number);
            match state.visit(held, number) {
                Ok(seat) => Ok(Met::Shape {
                    number,
                    before,
                    seat,
                }),
                Err(e) => Err(e),
            }
        }
        Found::Starting { number } => Ok(Met::Told {
            asked: Asked::Starting { number },
            count,
        }),
        Found::Gone { named } => Ok(Met::Told {
            asked: Asked::Gone { named },
            count,
        }),
        Found::Unregistered => Ok(Met::Told {
            asked: Asked::Unregistered,
            count,
        }),
    }
}

/// Looks a request up.
pub(crate) fn meet<T: RowTest, R: Wait>(
    rt: &R,
    lock: &FrontLock<Board<T>>,
    me: &mut Lent<Board<T>>,
    ask: &Ask,
) -> Result<Met<Seat<T>>, OutOfMemory>
    requires { me.old.lock ≡ lock.now }
    ensures on { StepsOn me.old me.new [] }
    ensures met { IfOk result (IsMet (run_in me.new.fixed) me.new.seen ask.now) }
{
    let Some(pass) = me.pass.take() else {
        unreachable!()
    };
    let (held, mut state) = lock.take(rt, pass);
    let met = meet_held(&held, &mut state, ask);
    me.pass = Some(give_back(lock, held, state));
    met
}
