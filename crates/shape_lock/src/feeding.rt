//! A commit comes to a shape.
ghost use Rattle.std.specs.Prelude.{◌≡◌, ◌<◌, ◌++◌, ◌∷◌, [], ℕ, List, Option, None, Some};
ghost use Rattle.std.specs.List.{AllByRecursion};
ghost use mathlib.Core.List.{IsPrefix};
ghost use Rattle.front_lock.specs.Passes.{Known, mine, IsSameLock, IsSameShare};
ghost use Rattle.shape_base.specs.Transactions.{IsWhole};
ghost use Rattle.shape_json.specs.ShapeHistory.{ShapeEvent, last_lsn};
ghost use Rattle.shape_state.specs.Reading.{reader_of};
ghost use Rattle.shape_state.specs.Standing.{Stands, IsLater};
ghost use Rattle.shape_state.specs.Answers.{log_bytes};
ghost use Rattle.shape_lock.specs.declared.start.ShapeStart.{ShapeStart};
ghost use Rattle.shape_lock.specs.Starts.{state_in, drop_in};
ghost use Rattle.shape_lock.specs.Locked.{IsLocked, lsns};
ghost use Rattle.shape_lock.specs.Fated.{fate_in};
ghost use Rattle.shape_lock.specs.Passes.{GoesOn, IsFedBy, IsFateOf, Feeds, made_by, taken_by, gone_by};

use crate::fate::Fate;
use crate::locked::Locked;
use crate::step::{dropped, took};
use front_lock::{FrontLock, Held, Pass};
use lock_events::{Pen, give_back, give_with};
use shape_base::{Cause, RowTest, Tx};
use shape_state::laws::comes_later;
use shape_state::{Prepared, Stage};
use std::snapshot::Snapshot;
use std::sync::Wait;

/// What becomes of a commit for which this was prepared.
fn fate_of(prepared: &Prepared) -> Fate
    ensures { result ≡ fate_in prepared.now }
{
    match prepared {
        Prepared::Skip => Fate::Appended,
        Prepared::Buffer { .. } => Fate::Buffered,
        Prepared::Append { .. } => Fate::Appended,
        Prepared::Drop { cause } => Fate::Stopped { cause: *cause },
    }
}

impl<T: RowTest> Locked<T> {
    /// Takes a commit into a shape that is not dropped.
    fn commit(&mut self, tx: &Tx, others: u64) -> Fate
        requires whole { IsWhole tx.now }
        requires later { IsLater self.old.shape.state.kept tx.now.lsn }
        ensures fate { (f : Option (ShapeStart T)) (es : List ShapeEvent) → IsLocked T.knows T.unread self.old.shape.emitter.test self.old.shape.state self.old.marks f es → drop_in T.knows T.unread f es ≡ None → IsFateOf T.knows T.unread f es tx.now others result }
        ensures stands { (f : Option (ShapeStart T)) (es : List ShapeEvent) → IsLocked T.knows T.unread self.old.shape.emitter.test self.old.shape.state self.old.marks f es → drop_in T.knows T.unread f es ≡ None → last_lsn es < tx.now.lsn → Stands (reader_of (T.knows self.new.shape.emitter.test) (T.unread self.new.shape.emitter.test)) self.new.shape.state (es ++ made_by result tx.now others) }
        ensures marks { self.new.marks ≡ self.old.marks }
        ensures test { self.new.shape.emitter.test ≡ self.old.shape.emitter.test }
        ensures limits { self.new.shape.state.limits ≡ self.old.shape.state.limits }
    {
        let Ok(prepared) = self.shape.prepare(tx, others) else {
            self.shape.drop_with(Cause::NoMemory);
            return Fate::Starved;
        };
        let fate = fate_of(&prepared);
        self.shape.commit(prepared);
        fate
    }

    /// Takes a commit.
    fn take_in(&mut self, tx: &Tx, others: u64) -> Fate
        requires whole { IsWhole tx.now }
        requires later { IsLater self.old.shape.state.kept tx.now.lsn }
        ensures fate { (f : Option (ShapeStart T)) (es : List ShapeEvent) → IsLocked T.knows T.unread self.old.shape.emitter.test self.old.shape.state self.old.marks f es → IsFateOf T.knows T.unread f es tx.now others result }
        ensures stands { (f : Option (ShapeStart T)) (es : List ShapeEvent) → IsLocked T.knows T.unread self.old.shape.emitter.test self.old.shape.state self.old.marks f es → last_lsn es < tx.now.lsn → Stands (reader_of (T.knows self.new.shape.emitter.test) (T.unread self.new.shape.emitter.test)) self.new.shape.state (es ++ made_by result tx.now others) }
        ensures marks { self.new.marks ≡ self.old.marks }
        ensures test { self.new.shape.emitter.test ≡ self.old.shape.emitter.test }
        ensures limits { self.new.shape.state.limits ≡ self.old.shape.state.limits }
    {
        match self.stage() {
            Stage::Gone { cause } => Fate::Found { cause },
            Stage::Starting => self.commit(tx, others),
            Stage::Ready => self.commit(tx, others),
        }
    }

    /// Takes a trace of the whole list, of which what its trace said was the front.
    fn renew(&mut self, pen: &mut Pen<u64>)
        requires { self.old.marks.fed.of ≡ pen.old.of }
        ensures is { self.new ≡ record self.old { marks = record self.old.marks { fed = pen.old } } }
        ensures pen { pen.new ≡ pen.old }
        ensures front { IsPrefix self.old.marks.fed.list pen.old.list }
    {
        let whole = pen.trace();
        let was = self.mark(whole);
        pen.compare(was);
    }
}

/// Gives the state back with the event of its fate.
fn give_fate<T: RowTest>(
    lock: &FrontLock<Locked<T>>,
    held: Held<Locked<T>>,
    state: Locked<T>,
    fate: Fate,
    tx: &Tx,
    others: u64,
) -> Pass<Locked<T>>
    requires lock { held.lock ≡ lock.now }
    requires stands { IsLocked T.knows T.unread state.shape.emitter.test state.shape.state state.marks held.fixed (held.seen ++ made_by fate tx.now others) }
    ensures lock { IsSameLock held result × IsSameShare held result }
    ensures seen { result.seen ≡ held.seen ++ made_by fate tx.now others }
    ensures mine { mine result ≡ mine held ++ made_by fate tx.now others }
{
    match fate {
        Fate::Found { .. } => give_back(lock, held, state),
        Fate::Starved => {
            let event = dropped(Cause::NoMemory);
            give_with(lock, held, state, &Snapshot::of(&event))
        }
        Fate::Stopped { .. } => {
            let event = took(tx, others);
            give_with(lock, held, state, &Snapshot::of(&event))
        }
        Fate::Appended => {
            let event = took(tx, others);
            give_with(lock, held, state, &Snapshot::of(&event))
        }
        Fate::Buffered => {
            let event = took(tx, others);
            give_with(lock, held, state, &Snapshot::of(&event))
        }
    }
}

/// What a commit came to at a shape, and the bytes of its log afterwards; 0 where it has none.
#[derive(Drop)]
pub struct FedShape {
    pub fate: Fate,
    pub bytes: u64,
}

/// The list gets the LSN of a commit that was taken.
fn write_fate<R: Wait>(rt: &R, pen: &mut Pen<u64>, fate: Fate, lsn: u64)
    ensures of { pen.new.of ≡ pen.old.of }
    ensures list { pen.new.list ≡ pen.old.list ++ taken_by fate lsn }
{
    match fate {
        Fate::Found { .. } => {}
        Fate::Starved => {}
        Fate::Stopped { .. } => pen.write(rt, &Snapshot::of(&lsn)),
        Fate::Appended => pen.write(rt, &Snapshot::of(&lsn)),
        Fate::Buffered => pen.write(rt, &Snapshot::of(&lsn)),
    }
}

/// Feeds a shape with a commit, while all other logs have so many bytes. The caller alone has the pen of the list with which the shape is fed, and its pass has seen
/// what it fed: so nobody else did.
pub fn feed<T: RowTest, R: Wait>(
    rt: &R,
    lock: &FrontLock<Locked<T>>,
    pass: Pass<Locked<T>>,
    pen: &mut Pen<u64>,
    tx: &Tx,
    others: u64,
) -> (Pass<Locked<T>>, FedShape)
    requires lock { pass.lock ≡ lock.now }
    requires whole { IsWhole tx.now }
    requires pen { IsFedBy pass.fixed pen.old }
    requires known { IsPrefix pen.old.list (lsns pass.seen) }
    requires above { (0 < tx.now.lsn) × AllByRecursion (λ k. k < tx.now.lsn) pen.old.list }
    ensures on { GoesOn T.knows T.unread pass result.0 (made_by result.1.fate tx.now others) }
    ensures fate { Feeds T.knows T.unread result.0 tx.now others result.1.fate }
    ensures pen { (pen.new.of ≡ pen.old.of) × (pen.new.list ≡ pen.old.list ++ taken_by result.1.fate tx.now.lsn) }
    ensures told { pen.new.list ≡ lsns result.0.seen }
    ensures gone { drop_in T.knows T.unread result.0.fixed result.0.seen ≡ gone_by result.1.fate }
    ensures bytes { result.1.bytes ≡ log_bytes (state_in T.knows T.unread result.0.fixed result.0.seen) }
{
    comes_later();
    let (held, mut state) = lock.take(rt, pass);
    state.renew(pen);
    let fate = state.take_in(tx, others);
    write_fate(rt, pen, fate, tx.lsn);
    let _was = state.mark(pen.trace());
    let bytes = state.shape.bytes();
    let pass = give_fate(lock, held, state, fate, tx, others);
    (pass, FedShape { fate, bytes })
}
