//! What one caller has of one shape.
ghost use Rattle.std.specs.Prelude.{length, ◌≡◌, ◌∷◌, [], List, Option, None, Some, IsSome, IfOk, IfErr, OnOk, OnErr, map};
ghost use Rattle.std.specs.Arc.{arc_value};
ghost use Rattle.shape_json.specs.Body.{capped};
ghost use Rattle.shape_json.specs.ShapeHistory.{Dropped, snapshot_in, taken};
ghost use Rattle.shape_json.specs.ShapeHistory as history;
ghost use Rattle.shape_snapshot.specs.Taken.{HasTaken};
ghost use Rattle.shape_state.specs.Reading.{reader_of};
ghost use Rattle.shape_state.specs.Answers.{IsReadyError};
ghost use mathlib.Core.List.{IsPrefix};
ghost use Rattle.shape_lock.specs.Starts.{drop_in, IsLegalIn, IsPagedIn};
ghost use Rattle.shape_lock.specs.Passes.{GoesOn, Owes, Suits, made_if, snapshot_of};
ghost use Rattle.shared_shapes.specs.Sharing.{IsSame, IsCopy};
ghost use Rattle.shared_shapes.specs.Changing.{Snaps, Refuses};
ghost use Rattle.shared_shapes.specs.Asking.{Follows};

use crate::lent::Lent;
use crate::rights::Rights;
use front_lock::{FrontLock, Note};
use lock_events::Pen;
use shape_base::{Cause, Offset, OutOfMemory, Row, RowTest};
use shape_lock::{Locked, Looked, drop_shape, finish, look};
use shape_snapshot::Snap;
use shape_state::ReadyError;
use std::marker::Model;
use std::snapshot::Snapshot;
use std::sync::{Arc, Wait};

/// A shape that got its snapshot: why the same step dropped it, if it did; the right to make its number ready; and what its pass has seen.
#[derive(Drop)]
pub(crate) struct Snapped<T: RowTest> {
    pub(crate) gone: Option<Cause>,
    pub(crate) ready: Pen<bool>,
    pub(crate) note: Note<Locked<T>>,
}

/// A pass of a shape, with its lock. The rights are with the caller that registered the shape, until it gave the snapshot.
#[derive(Drop)]
pub(crate) struct Seat<T: RowTest> {
    lock: Arc<FrontLock<Locked<T>>>,
    pass: Lent<Locked<T>>,
    rights: Option<Rights>,
}

impl<T: RowTest> Model for Seat<T> {
    ghost use Rattle.std.specs.Prelude.{length, ◌≡◌, [], IfSome};
    ghost use Rattle.std.specs.Arc.{arc_value};
    ghost use Rattle.shape_lock.specs.Passes.{Owes};
    ghost use Rattle.shared_shapes.specs.Seats.{Seated};
    ghost use Rattle.shared_shapes.specs.Rights.{right_in};

    ghost Value = { Seated T };

    ghost view = { λ s. record { pass = s.pass; right = right_in s.rights } };

    ghost invariant = { λ s. (s.pass.lock ≡ arc_value s.lock) × IfSome s.rights (λ r. Owes s.pass.fixed r.seal × (r.ready.list ≡ [])) };
}

impl<T: RowTest> Seat<T> {
    /// The seat of the caller that registered a shape.
    pub(crate) fn new(
        lock: Arc<FrontLock<Locked<T>>>,
        pass: Lent<Locked<T>>,
        seal: Pen<bool>,
        ready: Pen<bool>,
    ) -> Seat<T>
        requires pass { pass.lock ≡ arc_value lock }
        requires seal { Owes pass.fixed seal }
        requires ready { ready.list ≡ [] }
        ensures { result ≡ record { pass = pass; right = Some ready.of } }
    {
        Seat {
            lock,
            pass,
            rights: Some(Rights { seal, ready }),
        }
    }

    /// The seat of a caller that asks.
    pub(crate) fn visitor(lock: Arc<FrontLock<Locked<T>>>, pass: Lent<Locked<T>>) -> Seat<T>
        requires { pass.lock ≡ arc_value lock }
        ensures { result ≡ record { pass = pass; right = None } }
    {
        Seat {
            lock,
            pass,
            rights: None,
        }
    }

    /// Its pass has then seen what that of a visitor has.
    pub(crate) fn join(&mut self, visitor: Seat<T>)
        requires lock { visitor.pass.lock ≡ self.old.pass.lock }
        requires none { visitor.pass.own ≡ [] }
        ensures on { Follows self.old self.new }
        ensures seen { IsPrefix visitor.pass.seen self.new.pass.seen }
    {
        let Seat {
            lock: _,
            pass,
            rights: _,
        } = visitor;
        self.pass.join(&self.lock, pass);
    }

    /// What its shape answers to a request for a page.
    pub(crate) fn look<R: Wait>(
        &mut self,
        rt: &R,
        offset: Offset,
        live: bool,
        late: bool,
    ) -> Result<Looked, OutOfMemory>
        ensures on { Follows self.old self.new }
        ensures legal { IsLegalIn T.knows T.unread self.new.pass.fixed self.new.pass.seen }
        ensures paged { IfOk result (λ l. IsPagedIn T.knows T.unread self.new.pass.fixed self.new.pass.seen offset live late l.paged) }
        ensures took { IfOk result (λ l. l.took ≡ capped (length (taken self.new.pass.seen))) }
    {
        let Some(pass) = self.pass.pass.take() else {
            unreachable!()
        };
        let (pass, looked) = look(rt, &self.lock, pass, offset, live, late);
        self.pass.pass = Some(pass);
        looked
    }

    /// Drops the shape, and says whether this call did: it does not where the shape was dropped before.
    pub(crate) fn drop_shape<R: Wait>(&mut self, rt: &R, cause: Cause) -> bool
        ensures right { self.new.right ≡ self.old.right }
        ensures on { GoesOn T.knows T.unread self.old.pass self.new.pass (made_if result (Dropped cause)) }
        ensures dropped { IsSome (drop_in T.knows T.unread self.new.pass.fixed self.new.pass.seen) }
    {
        let Some(pass) = self.pass.pass.take() else {
            unreachable!()
        };
        let (pass, did) = drop_shape(rt, &self.lock, pass, cause);
        self.pass.pass = Some(pass);
        did
    }

    /// What its pass has seen.
    pub(crate) fn note(&mut self) -> Note<Locked<T>>
        ensures kept { self.new ≡ self.old }
        ensures note { (result.lock ≡ self.old.pass.lock) × (result.seen ≡ self.old.pass.seen) }
    {
        self.pass.note(&self.lock)
    }

    /// A seat of the same shape that has seen as much, with no events of its own and no right.
    pub(crate) fn copy(&mut self) -> Result<Seat<T>, OutOfMemory>
        ensures same { IsSame self.old self.new }
        ensures copy { IfOk result (IsCopy self.old) }
    {
        let lock = Arc::try_clone(&self.lock)?;
        let pass = self.pass.split(&self.lock);
        Ok(Seat {
            lock,
            pass,
            rights: None,
        })
    }

    /// Gives the shape its snapshot, with the right that the seat has. Ok has the cause where a commit that was buffered drops the shape in the same step, and the right to make
    /// the number ready.
    pub(crate) fn finish<R: Wait>(
        &mut self,
        rt: &R,
        snap: Snap<T>,
        rows: &Vec<Snapshot<Row>>,
    ) -> Result<(Option<Cause>, Pen<bool>), ReadyError>
        requires right { IsSome self.old.right }
        requires suits { Suits self.old.pass.fixed snap.emitter.test snap.kept.log.least }
        requires taken { HasTaken (reader_of (T.knows snap.emitter.test) (T.unread snap.emitter.test)) snap.limits snap.kept (map (λ r. r.value) rows.now.items) }
        ensures on { OnOk result (GoesOn T.knows T.unread self.old.pass self.new.pass (history.Snapped (snapshot_of (T.knows snap.emitter.test) snap.vis (map (λ r. r.value) rows.now.items)) ∷ [])) }
        ensures left { IfOk result (λ r. r.0 ≡ drop_in T.knows T.unread self.new.pass.fixed self.new.pass.seen) }
        ensures right { IfOk result (λ r. (self.old.right ≡ Some r.1.of) × (r.1.list ≡ []) × (self.new.right ≡ None)) }
        ensures same { OnErr result (GoesOn T.knows T.unread self.old.pass self.new.pass [] × (self.new.right ≡ self.old.right)) }
        ensures refused { IfErr result (IsReadyError (drop_in T.knows T.unread self.new.pass.fixed self.new.pass.seen)) }
    {
        let Some(mut rights) = self.rights.take() else {
            unreachable!()
        };
        let Some(pass) = self.pass.pass.take() else {
            unreachable!()
        };
        let (pass, done) = finish(rt, &self.lock, pass, &mut rights.seal, snap, rows);
        self.pass.pass = Some(pass);
        match done {
            Ok(left) => {
                let Rights { seal: _, ready } = rights;
                Ok((left, ready))
            }
            Err(e) => {
                self.rights = Some(rights);
                Err(e)
            }
        }
    }

    /// Gives the shape its snapshot, and notes what the pass has seen then.
    pub(crate) fn snap<R: Wait>(
        &mut self,
        rt: &R,
        snap: Snap<T>,
        rows: &Vec<Snapshot<Row>>,
    ) -> Result<Snapped<T>, ReadyError>
        requires right { IsSome self.old.right }
        requires suits { Suits self.old.pass.fixed snap.emitter.test snap.kept.log.least }
        requires taken { HasTaken (reader_of (T.knows snap.emitter.test) (T.unread snap.emitter.test)) snap.limits snap.kept (map (λ r. r.value) rows.now.items) }
        ensures snaps { IfOk result (λ s. Snaps T.knows T.unread (snapshot_of (T.knows snap.emitter.test) snap.vis (map (λ r. r.value) rows.now.items)) s.gone self.old self.new) }
        ensures ready { IfOk result (λ s. (self.old.right ≡ Some s.ready.of) × (s.ready.list ≡ [])) }
        ensures note { IfOk result (λ s. (s.note.lock ≡ self.old.pass.lock) × IsSome (snapshot_in s.note.seen)) }
        ensures refused { IfErr result (λ e. Refuses T.knows T.unread e self.old self.new) }
    {
        match self.finish(rt, snap, rows) {
            Ok((gone, ready)) => {
                let note = self.note();
                Ok(Snapped { gone, ready, note })
            }
            Err(e) => Err(e),
        }
    }
}
