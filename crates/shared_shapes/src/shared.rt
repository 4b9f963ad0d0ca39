//! The registry's lock, and the calls on it.
ghost use Rattle.std.specs.Prelude.{◌≡◌, ◌∷◌, [], IsSome, IsSomeAnd, IfOk, IfErr, OnOk, OnErr, map};
ghost use Rattle.std.specs.FinMap as fin;
ghost use mathlib.Core.List.{IsPrefix};
ghost use Rattle.front_lock.specs.Passes.{IsSameLock};
ghost use Rattle.shape_base.specs.declared.registry_event.RegistryEvent.TheVariants as events;
ghost use Rattle.shape_snapshot.specs.Taken.{HasTaken};
ghost use Rattle.shape_state.specs.Reading.{reader_of};
ghost use Rattle.shape_lock.specs.Passes.{Suits, snapshot_of};
ghost use Rattle.shape_registry.specs.ByHistory.{standing_after};
ghost use Rattle.shared_shapes.specs.Events.{plain, events_of};
ghost use Rattle.shared_shapes.specs.Sharing.{Halves, IsSame, IsCopy, AreEach, AreBare, AreTold};
ghost use Rattle.shared_shapes.specs.Passes.{StepsOn, IsServed, IsLegalFor};
ghost use Rattle.shared_shapes.specs.Seats.{AreSeats};
ghost use Rattle.shared_shapes.specs.Calls.{Registers, IsUnstarted, IsStartedWith};
ghost use Rattle.shared_shapes.specs.Changing.{Finishes, IsUnfinished, IsDropped};
ghost use Rattle.shared_shapes.specs.Asking.{Answers, AreOn, AsksOn};

use crate::ask::answer;
use crate::asked::Asked;
use crate::birth::Birth;
use crate::board::Board;
use crate::copies::copy_all;
use crate::lent::Lent;
use crate::numbered::Numbered;
use crate::passes::{RegNote, RegPass};
use crate::seats::{drop_at, snap_at};
use crate::started::{StartError, Started};
use crate::steps;
use crate::telling::tell_all;
use front_lock::FrontLock;
use lock_events::Pen;
use shape_base::{
    Ask, Cause, Limits, OutOfMemory, Row, RowTest, ServedTables, TableDef, TableDefs, Text,
};
use shape_registry::Standing;
use shape_snapshot::Snap;
use shape_state::ReadyError;
use std::alloc::Global;
use std::snapshot::Snapshot;
use std::sync::Wait;

/// A registry that threads share, with the shapes that it has. Each call is given a pass of it; contracts see which lock it is and the limits.
#[derive(Drop)]
pub struct Shared<T: RowTest> {
    lock: FrontLock<Board<T>>,
    limits: Limits,
}

impl<T: RowTest> Shared<T> {
    /// A registry with no shapes: its limits, the served tables with their first definitions, each in its table's place, and the name of its run.
    pub fn start(
        alloc: Global,
        limits: Limits,
        tables: ServedTables,
        definitions: TableDefs,
        run: Text,
    ) -> Result<(Shared<T>, RegPass<T>), OutOfMemory>
        ensures shared { IfOk result (λ r. (r.1.reg.lock ≡ r.0.lock) × (r.0.limits ≡ limits)) }
        ensures pass { IfOk result (λ r. IsStartedWith limits tables definitions run r.1.reg.fixed) }
        ensures seen { IfOk result (λ r. (r.1.reg.seen ≡ []) × (r.1.reg.own ≡ []) × (r.1.seats ≡ fin.empty)) }
    {
        let mut pen = Pen::new(alloc)?;
        let board = Board::new(alloc, limits, tables, definitions, run, pen.trace())?;
        let (lock, pass) = FrontLock::new(alloc, board)?;
        let reg = Lent { pass: Some(pass) };
        let seats = Numbered::new(alloc);
        Ok((Shared { lock, limits }, RegPass { reg, seats }))
    }

    /// The limits with which it was started.
    pub fn limits(&self) -> Limits
        ensures { result ≡ self.now.limits }
    {
        self.limits
    }

    /// How the handle with a number stands, by the history that the pass has seen after the call.
    pub fn standing<R: Wait>(&self, rt: &R, pass: &mut RegPass<T>, number: u64) -> Standing
        requires lock { pass.old.reg.lock ≡ self.now.lock }
        requires known { AreSeats pass.old.reg.seen pass.old.seats }
        ensures standing { result ≡ standing_after (events_of pass.new.reg.seen) number }
        ensures on { StepsOn pass.old.reg pass.new.reg [] }
        ensures seats { pass.new.seats ≡ pass.old.seats }
        ensures known { AreSeats pass.new.reg.seen pass.new.seats }
    {
        steps::standing(rt, &self.lock, &mut pass.reg, number)
    }

    /// The table that the definition names has this definition from now on.
    pub fn redefine<R: Wait>(&self, rt: &R, pass: &mut RegPass<T>, definition: TableDef)
        requires lock { pass.old.reg.lock ≡ self.now.lock }
        requires known { AreSeats pass.old.reg.seen pass.old.seats }
        requires served { IsServed pass.old.reg.fixed definition.table }
        ensures on { StepsOn pass.old.reg pass.new.reg (plain (events.Redefined definition) ∷ []) }
        ensures seats { pass.new.seats ≡ pass.old.seats }
        ensures known { AreSeats pass.new.reg.seen pass.new.seats }
    {
        steps::redefine(rt, &self.lock, &mut pass.reg, definition);
    }

    /// A second pass, for another thread. It has seen as much, of the registry and of each shape, and has no events of its own and no rights.
    pub fn split(&self, alloc: Global, pass: &mut RegPass<T>) -> Result<RegPass<T>, OutOfMemory>
        requires lock { pass.old.reg.lock ≡ self.now.lock }
        requires known { AreSeats pass.old.reg.seen pass.old.seats }
        ensures first { IfOk result (λ _. Halves pass.old.reg pass.new.reg pass.old.reg.own) }
        ensures second { IfOk result (λ p. Halves pass.old.reg p.reg [] × AreEach IsCopy pass.old.seats p.seats) }
        ensures refused { OnErr result (pass.new.reg ≡ pass.old.reg) }
        ensures same { AreEach IsSame pass.old.seats pass.new.seats }
        ensures known { AreSeats pass.new.reg.seen pass.new.seats × IfOk result (λ p. AreSeats p.reg.seen p.seats) }
    {
        let seats = copy_all(alloc, &mut pass.seats)?;
        let reg = pass.reg.split(&self.lock);
        Ok(RegPass { reg, seats })
    }

    /// What a pass has seen, of the registry and of each shape, for another to learn.
    pub fn note(&self, alloc: Global, pass: &mut RegPass<T>) -> Result<RegNote<T>, OutOfMemory>
        requires lock { pass.old.reg.lock ≡ self.now.lock }
        requires known { AreSeats pass.old.reg.seen pass.old.seats }
        ensures kept { (pass.new.reg ≡ pass.old.reg) × AreEach IsSame pass.old.seats pass.new.seats }
        ensures note { IfOk result (λ n. IsSameLock pass.old.reg n.reg × (n.reg.seen ≡ pass.old.reg.seen) × AreEach IsCopy pass.old.seats n.seats) }
        ensures known { AreSeats pass.new.reg.seen pass.new.seats × IfOk result (λ n. AreSeats n.reg.seen n.seats × AreBare n.seats) }
    {
        let seats = copy_all(alloc, &mut pass.seats)?;
        let reg = pass.reg.note(&self.lock);
        Ok(RegNote { reg, seats })
    }

    /// The pass has then seen at least what it and the noting pass had, of the registry and of each shape. At Err of the registry and of some shapes.
    pub fn learn(
        &self,
        alloc: Global,
        pass: &mut RegPass<T>,
        note: RegNote<T>,
    ) -> Result<(), OutOfMemory>
        requires lock { (pass.old.reg.lock ≡ self.now.lock) × (note.reg.lock ≡ self.now.lock) }
        requires known { AreSeats pass.old.reg.seen pass.old.seats }
        requires note { AreSeats note.reg.seen note.seats × AreBare note.seats }
        ensures on { StepsOn pass.old.reg pass.new.reg [] }
        ensures told { IsPrefix note.reg.seen pass.new.reg.seen }
        ensures seats { AreOn pass.old.seats pass.new.seats }
        ensures shapes { OnOk result (AreTold note.seats pass.new.seats) }
        ensures known { AreSeats pass.new.reg.seen pass.new.seats }
    {
        let RegNote { reg, seats } = note;
        pass.reg.learn(&self.lock, reg);
        tell_all(alloc, &mut pass.seats, seats)
    }

    /// Registers a shape of this test, which waits for its snapshot. The caller alone may give it that.
    ///
    /// `Exists` comes exactly where the test's identity is live; otherwise `TooMany` exactly where as many shapes live as may; otherwise `NumbersSpent` exactly where
    /// 2^64 - 1 was given. After a refusal the history has no event of this call.
    pub fn register<R: Wait>(
        &self,
        rt: &R,
        alloc: Global,
        pass: &mut RegPass<T>,
        test: &T,
    ) -> Result<Started, StartError>
        requires lock { pass.old.reg.lock ≡ self.now.lock }
        requires known { AreSeats pass.old.reg.seen pass.old.seats }
        requires served { IsServed pass.old.reg.fixed (T.knows test.now).definition.table }
        ensures registered { IfOk result (Registers pass.old.reg pass.new.reg pass.old.seats pass.new.seats (T.identity_of test.now) (T.knows test.now).definition.table test.now self.now.limits) }
        ensures refused { IfErr result (IsUnstarted pass.old.reg pass.new.reg (T.identity_of test.now)) }
        ensures seats { OnErr result (pass.new.seats ≡ pass.old.seats) }
        ensures known { AreSeats pass.new.reg.seen pass.new.seats }
    {
        let Ok(birth) = Birth::new(alloc, test, self.limits) else {
            return Err(StartError::OutOfMemory);
        };
        steps::register(rt, alloc, &self.lock, &mut pass.reg, &mut pass.seats, birth)
    }

    /// Gives the shape with that number its snapshot, which its caller alone may do that registered it. Afterwards the number is ready, or is live no more.
    ///
    /// Ok has the cause where a commit that was buffered drops the shape in the same step. `Gone` comes exactly where it was dropped before.
    pub fn finish<R: Wait>(
        &self,
        rt: &R,
        pass: &mut RegPass<T>,
        number: u64,
        snap: Snap<T>,
        rows: &Vec<Snapshot<Row>>,
    ) -> Result<Option<Cause>, ReadyError>
        requires lock { pass.old.reg.lock ≡ self.now.lock }
        requires known { AreSeats pass.old.reg.seen pass.old.seats }
        requires right { IsSomeAnd (fin.get pass.old.seats number) (λ s. IsSome s.right × Suits s.pass.fixed snap.emitter.test snap.kept.log.least) }
        requires taken { HasTaken (reader_of (T.knows snap.emitter.test) (T.unread snap.emitter.test)) snap.limits snap.kept (map (λ r. r.value) rows.now.items) }
        ensures finished { IfOk result (Finishes T.knows T.unread pass.old.reg pass.new.reg pass.old.seats pass.new.seats number (snapshot_of (T.knows snap.emitter.test) snap.vis (map (λ r. r.value) rows.now.items))) }
        ensures refused { IfErr result (IsUnfinished T.knows T.unread pass.old.reg pass.new.reg pass.old.seats pass.new.seats number) }
        ensures known { AreSeats pass.new.reg.seen pass.new.seats }
    {
        match snap_at(rt, &mut pass.seats, number, snap, rows) {
            Ok(snapped) => {
                let gone = snapped.gone;
                steps::settle(rt, &self.lock, &mut pass.reg, number, snapped);
                Ok(gone)
            }
            Err(e) => Err(e),
        }
    }

    /// Drops the shape with that number, where it is not dropped before, and removes the number, where it is still live.
    pub fn drop_shape<R: Wait>(&self, rt: &R, pass: &mut RegPass<T>, number: u64, cause: Cause)
        requires lock { pass.old.reg.lock ≡ self.now.lock }
        requires known { AreSeats pass.old.reg.seen pass.old.seats }
        requires seat { IsSome (fin.get pass.old.seats number) }
        ensures dropped { IsDropped T.knows T.unread pass.old.reg pass.new.reg pass.old.seats pass.new.seats number cause }
        ensures known { AreSeats pass.new.reg.seen pass.new.seats }
    {
        drop_at(rt, &mut pass.seats, number, cause);
        steps::remove(rt, &self.lock, &mut pass.reg, number, cause);
    }

    /// Answers a request by the histories of the registry and of its shape that the pass has seen after the call, and counts the commits in them. `late` says that it has
    /// waited as long as it may.
    ///
    /// Where the shape is found dropped, its number is removed for the shape's cause, and the request is looked up again.
    pub fn ask<R: Wait>(
        &self,
        rt: &R,
        pass: &mut RegPass<T>,
        ask: &Ask,
        late: bool,
    ) -> Result<(Asked, u64), OutOfMemory>
        requires lock { pass.old.reg.lock ≡ self.now.lock }
        requires known { AreSeats pass.old.reg.seen pass.old.seats }
        ensures answers { IfOk result (λ a. Answers T.knows T.unread pass.new.reg pass.new.seats ask.now late a.0 a.1) }
        ensures on { AsksOn T.knows T.unread pass.old.reg pass.new.reg pass.old.seats pass.new.seats }
        ensures legal { IsLegalFor pass.new.reg.fixed pass.new.reg.seen }
        ensures known { AreSeats pass.new.reg.seen pass.new.seats }
    {
        answer(rt, &self.lock, pass, ask, late)
    }
}
