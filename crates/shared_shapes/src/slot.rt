//! What the registry keeps for a live number.
ghost use Rattle.std.specs.Prelude.{◌≡◌, [], ◌∷◌, true, None, Some, IfSome, IfOk};
ghost use Rattle.std.specs.Arc.{arc_value};
ghost use mathlib.Core.List.{IsPrefix};
ghost use Rattle.front_lock.specs.Passes.{IsSameLock};
ghost use Rattle.shared_shapes.specs.Board.{IsUnfed};

use crate::lent::Lent;
use crate::seat::Seat;
use front_lock::{FrontLock, Note};
use lock_events::{Pen, Trace};
use shape_base::{OutOfMemory, RowTest};
use shape_lock::Locked;
use std::marker::Model;
use std::mem;
use std::snapshot::Snapshot;
use std::sync::{Arc, Wait};

/// A number's shape: its lock, with a pass from which others are split; what the list of its readiness said, and the right to feed it, until the ingester has that.
#[derive(Drop)]
pub(crate) struct Slot<T: RowTest> {
    lock: Arc<FrontLock<Locked<T>>>,
    pass: Lent<Locked<T>>,
    ready: Trace<bool>,
    feed: Option<Pen<u64>>,
}

impl<T: RowTest> Model for Slot<T> {
    ghost use Rattle.std.specs.Prelude.{◌≡◌, [], IfSome};
    ghost use Rattle.std.specs.Arc.{arc_value};
    ghost use Rattle.shared_shapes.specs.Board.{Kept, IsUnfed};

    ghost Value = { Kept T };

    ghost view = { λ s. record { pass = s.pass; ready = s.ready; feed = s.feed } };

    ghost invariant = { λ s. (s.pass.lock ≡ arc_value s.lock) × (s.pass.own ≡ []) × IfSome s.feed (IsUnfed s.pass) };
}

impl<T: RowTest> Slot<T> {
    /// A slot of a shape that nobody fed yet.
    pub(crate) fn new(
        lock: Arc<FrontLock<Locked<T>>>,
        pass: Lent<Locked<T>>,
        ready: Trace<bool>,
        feed: Pen<u64>,
    ) -> Slot<T>
        requires pass { (pass.lock ≡ arc_value lock) × (pass.own ≡ []) }
        requires feed { IsUnfed pass feed }
        ensures { result ≡ record { pass = pass; ready = ready; feed = Some feed } }
    {
        Slot {
            lock,
            pass,
            ready,
            feed: Some(feed),
        }
    }

    /// The pass has then seen what the note tells.
    fn tell(&mut self, note: Note<Locked<T>>)
        requires { note.lock ≡ self.old.pass.lock }
        ensures lock { IsSameLock self.old.pass self.new.pass }
        ensures seen { IsPrefix note.seen self.new.pass.seen }
        ensures ready { self.new.ready ≡ self.old.ready }
    {
        self.pass.learn(&self.lock, note);
    }

    /// The list of its readiness gets its mark, and had none before.
    fn mark<R: Wait>(&mut self, rt: &R, ready: &mut Pen<bool>)
        requires { (ready.old.of ≡ self.old.ready.of) × (ready.old.list ≡ []) }
        ensures before { self.old.ready.list ≡ [] }
        ensures pass { self.new.pass ≡ self.old.pass }
        ensures after { (self.new.ready.of ≡ self.old.ready.of) × (self.new.ready.list ≡ true ∷ []) }
    {
        let spare = ready.trace();
        ready.compare(mem::replace(&mut self.ready, spare));
        ready.write(rt, &Snapshot::of(&true));
        self.ready = ready.trace();
    }

    /// Its number becomes ready, with the snapshot of which the note tells.
    pub(crate) fn make_ready<R: Wait>(
        &mut self,
        rt: &R,
        ready: &mut Pen<bool>,
        note: Note<Locked<T>>,
    )
        requires note { note.lock ≡ self.old.pass.lock }
        requires right { (ready.old.of ≡ self.old.ready.of) × (ready.old.list ≡ []) }
        ensures before { self.old.ready.list ≡ [] }
        ensures lock { IsSameLock self.old.pass self.new.pass }
        ensures seen { IsPrefix note.seen self.new.pass.seen }
        ensures after { (self.new.ready.of ≡ self.old.ready.of) × (self.new.ready.list ≡ true ∷ []) }
    {
        self.mark(rt, ready);
        self.tell(note);
    }

    /// A seat of its shape for one who asks, whose pass has seen as much as the kept one.
    pub(crate) fn visit(&mut self) -> Result<Seat<T>, OutOfMemory>
        ensures lock { IsSameLock self.old.pass self.new.pass }
        ensures seen { self.new.pass.seen ≡ self.old.pass.seen }
        ensures ready { self.new.ready ≡ self.old.ready }
        ensures seat { IfOk result (λ s. IsSameLock self.old.pass s.pass × (s.pass.seen ≡ self.old.pass.seen) × (s.pass.own ≡ []) × (s.right ≡ None)) }
    {
        let lock = Arc::try_clone(&self.lock)?;
        let pass = self.pass.split(&lock);
        Ok(Seat::visitor(lock, pass))
    }
}
