//! The state under a shape's lock.
ghost use Rattle.std.specs.Prelude.{◌≡◌, ◌<◌, ◌++◌, ◌∷◌, [], ℕ, List, Option, None, Some, length, IfOk, IfErr, OnOk, OnErr};
ghost use Rattle.shape_base.specs.Tables.{Table};
ghost use Rattle.shape_base.specs.Transactions.{IsWhole};
ghost use Rattle.shape_json.specs.Body.{capped};
ghost use Rattle.shape_json.specs.ShapeHistory.{ShapeEvent, Snapped, Dropped, taken};
ghost use Rattle.shape_snapshot.specs.Taken.{HasTaken};
ghost use Rattle.shape_state.specs.Reading.{reader_of};
ghost use Rattle.shape_state.specs.Standing.{Stands, IsUnready};
ghost use Rattle.shape_state.specs.Answers.{IsReadyError, stage_of, log_bytes};
ghost use Rattle.shape_lock.specs.declared.start.ShapeStart.{ShapeStart};
ghost use Rattle.shape_lock.specs.Starts.{state_in, drop_in, IsPagedIn};
ghost use Rattle.shape_lock.specs.Locked.{IsLocked, start_of, kept};
ghost use Rattle.shape_lock.specs.Passes.{snapshot_of};

use crate::marks::Marks;
use crate::start::ShapeStart;
use crate::step::ShapeStep;
use front_lock::Stands;
use lock_events::Trace;
use shape_base::{Cause, Limits, Offset, OutOfMemory, RowTest};
use shape_snapshot::Snap;
use shape_state::{Paged, ReadyError, Shape, Stage};
use std::alloc::Global;
use std::mem;
use std::snapshot::Snapshot;

/// A shape under a lock. It stands for the events of its history.
#[derive(Drop)]
pub struct Locked<T: RowTest> {
    pub(crate) shape: Shape<T>,
    pub(crate) marks: Marks,
}

impl<T: RowTest> Stands for Locked<T> {
    ghost use Rattle.std.specs.Prelude.{None, Some};
    ghost use Rattle.shape_lock.specs.Locked.{IsLocked, start_of};

    type Event = ShapeStep;

    type Fixed = Option<ShapeStart<T>>;

    ghost no_data = { None };

    ghost fixed = { λ s. Some (start_of s.shape.emitter.test s.shape.state.limits s.marks) };

    ghost stands = { λ s f _ events. IsLocked T.knows T.unread s.shape.emitter.test s.shape.state s.marks f events };
}

impl<T: RowTest> Locked<T> {
    /// A shape that waits for its snapshot, of which the second list is going to have a mark.
    pub(crate) fn begin(
        alloc: Global,
        test: T,
        limits: Limits,
        fed: Trace<u64>,
        sealed: Trace<bool>,
    ) -> Result<Locked<T>, OutOfMemory>
        requires { (fed.list ≡ []) × (sealed.list ≡ []) }
        ensures stands { IfOk result (λ s. IsLocked T.knows T.unread s.shape.emitter.test s.shape.state s.marks (Some (start_of s.shape.emitter.test s.shape.state.limits s.marks)) []) }
        ensures about { IfOk result (λ s. start_of s.shape.emitter.test s.shape.state.limits s.marks ≡ record { test = kept test; limits = limits; feed = kept fed; seal = kept sealed }) }
    {
        let marks = Marks {
            feed: Snapshot::of(&fed),
            seal: Snapshot::of(&sealed),
            fed,
            sealed,
        };
        let shape = Shape::begin(alloc, test, limits)?;
        Ok(Locked { shape, marks })
    }

    /// Where the shape is in its life.
    pub(crate) fn stage(&self) -> Stage
        ensures { (f : Option (ShapeStart T)) (es : List ShapeEvent) → IsLocked T.knows T.unread self.now.shape.emitter.test self.now.shape.state self.now.marks f es → result ≡ stage_of (state_in T.knows T.unread f es) }
    {
        self.shape.stage()
    }

    /// What a request for a page is answered, with the number of commits that came.
    pub(crate) fn look(
        &self,
        offset: Offset,
        live: bool,
        late: bool,
    ) -> Result<(Paged, u64), OutOfMemory>
        ensures { (f : Option (ShapeStart T)) (es : List ShapeEvent) → IsLocked T.knows T.unread self.now.shape.emitter.test self.now.shape.state self.now.marks f es → IfOk result (λ r. IsPagedIn T.knows T.unread f es offset live late r.0 × (r.1 ≡ capped (length (taken es)))) }
    {
        let paged = self.shape.page(offset, live, late)?;
        Ok((paged, self.shape.took()))
    }

    /// Drops it.
    pub(crate) fn drop_with(&mut self, cause: Cause)
        ensures { (f : Option (ShapeStart T)) (es : List ShapeEvent) → IsLocked T.knows T.unread self.old.shape.emitter.test self.old.shape.state self.old.marks f es → drop_in T.knows T.unread f es ≡ None → IsLocked T.knows T.unread self.new.shape.emitter.test self.new.shape.state self.new.marks f (es ++ Dropped cause ∷ []) }
    {
        self.shape.drop_with(cause);
    }

    /// Takes another trace of the list that gets a mark with the snapshot.
    pub(crate) fn seal(&mut self, sealed: Trace<bool>) -> Trace<bool>
        ensures was { result ≡ self.old.marks.sealed }
        ensures is { self.new ≡ record self.old { marks = record self.old.marks { sealed = sealed } } }
    {
        mem::replace(&mut self.marks.sealed, sealed)
    }

    /// Takes another trace of the list of the LSNs with which it is fed.
    pub(crate) fn mark(&mut self, fed: Trace<u64>) -> Trace<u64>
        ensures was { result ≡ self.old.marks.fed }
        ensures is { self.new ≡ record self.old { marks = record self.old.marks { fed = fed } } }
    {
        mem::replace(&mut self.marks.fed, fed)
    }

    /// Takes the snapshot.
    pub(crate) fn ready(&mut self, snap: Snap<T>) -> Result<(), ReadyError>
        requires unready { IsUnready self.old.shape.state.kept }
        requires test { snap.emitter.test ≡ self.old.shape.emitter.test }
        requires least { snap.kept.log.least ≡ self.old.shape.state.limits.chunk }
        ensures stands { (f : Option (ShapeStart T)) (es : List ShapeEvent) (rows : Table) → IsLocked T.knows T.unread self.old.shape.emitter.test self.old.shape.state self.old.marks f es → HasTaken (reader_of (T.knows snap.emitter.test) (T.unread snap.emitter.test)) snap.limits snap.kept rows → OnOk result (Stands (reader_of (T.knows self.new.shape.emitter.test) (T.unread self.new.shape.emitter.test)) self.new.shape.state (es ++ Snapped (snapshot_of (T.knows snap.emitter.test) snap.vis rows) ∷ [])) }
        ensures refused { (f : Option (ShapeStart T)) (es : List ShapeEvent) → IsLocked T.knows T.unread self.old.shape.emitter.test self.old.shape.state self.old.marks f es → IfErr result (IsReadyError (drop_in T.knows T.unread f es)) }
        ensures unchanged { OnErr result (self.new.shape.state ≡ self.old.shape.state) }
        ensures test { self.new.shape.emitter.test ≡ self.old.shape.emitter.test }
        ensures limits { self.new.shape.state.limits ≡ self.old.shape.state.limits }
        ensures marks { self.new.marks ≡ self.old.marks }
    {
        self.shape.ready(snap)
    }
}
