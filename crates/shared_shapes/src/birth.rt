//! A shape that is about to be registered.
ghost use Rattle.std.specs.Prelude.{◌≡◌, IfOk};
ghost use Rattle.std.specs.Arc.{arc_value};
ghost use Rattle.shared_shapes.specs.Calls.{IsBorn};

use crate::lent::Lent;
use crate::seat::Seat;
use crate::slot::Slot;
use front_lock::Pass;
use lock_events::{Pen, Trace};
use shape_base::{Duplicate, Limits, OutOfMemory, RowTest, Text};
use shape_lock::{Locked, begin};
use std::alloc::Global;
use std::snapshot::Snapshot;
use std::sync::Arc;

/// All that a registration takes memory for but its place in the registry: the identity, the place of the table, what the registry keeps, the seat of the owner, and what the
/// event says of the shape.
#[derive(Drop)]
pub(crate) struct Birth<T: RowTest> {
    pub(crate) identity: Text,
    pub(crate) table: u32,
    pub(crate) slot: Slot<T>,
    pub(crate) seat: Seat<T>,
    pub(crate) pass: Snapshot<Pass<Locked<T>>>,
    pub(crate) ready: Snapshot<Trace<bool>>,
}

impl<T: RowTest> Birth<T> {
    /// A shape of this test, which waits for its snapshot.
    pub(crate) fn new(alloc: Global, test: &T, limits: Limits) -> Result<Birth<T>, OutOfMemory>
        ensures identity { IfOk result (λ b. b.identity ≡ T.identity_of test.now) }
        ensures table { IfOk result (λ b. b.table ≡ (T.knows test.now).definition.table) }
        ensures born { IfOk result (λ b. IsBorn test.now limits b.slot b.seat b.pass.value b.ready.value) }
    {
        let identity = test.identity().copy(alloc)?;
        let table = test.definition().table;
        let twin = test.copy(alloc)?;
        let mut feed = Pen::new(alloc)?;
        let mut seal = Pen::new(alloc)?;
        let mut ready = Pen::new(alloc)?;
        let (lock, mut first) = begin(alloc, twin, limits, feed.trace(), seal.trace())?;
        let Ok(second) = lock.split(&mut first) else {
            unreachable!()
        };
        let Ok(lock) = Arc::new(alloc, lock) else {
            return Err(OutOfMemory);
        };
        let other = Arc::try_clone(&lock)?;
        let pass = Snapshot::of(&first);
        let trace = ready.trace();
        let mark = Snapshot::of(&trace);
        let slot = Slot::new(lock, Lent { pass: Some(second) }, trace, feed);
        let seat = Seat::new(other, Lent { pass: Some(first) }, seal, ready);
        Ok(Birth {
            identity,
            table,
            slot,
            seat,
            pass,
            ready: mark,
        })
    }
}
