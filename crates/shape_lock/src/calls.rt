//! Single steps on a shape's lock.
ghost use Rattle.std.specs.Prelude.{◌≡◌, ◌++◌, ◌∷◌, [], ℕ, List, Bool, true, Option, None, Some, IsSome, length, map, IfOk, IfErr, OnOk, OnErr};
ghost use mathlib.Core.List.{IsPrefix};
ghost use Rattle.front_lock.specs.Passes.{Known, mine, IsWhole};
ghost use Rattle.shape_json.specs.Body.{capped};
ghost use Rattle.shape_json.specs.ShapeHistory.{ShapeEvent, Snapped, Dropped, taken, snapshot_in};
ghost use Rattle.shape_snapshot.specs.Taken.{HasTaken};
ghost use Rattle.shape_state.specs.Reading.{reader_of};
ghost use Rattle.shape_state.specs.Answers.{IsReadyError};
ghost use Rattle.shape_lock.specs.Starts.{drop_in, IsPagedIn};
ghost use Rattle.shape_lock.specs.Locked.{IsLocked, kept};
ghost use Rattle.shape_lock.specs.Stages.{cause_in};
ghost use Rattle.shape_lock.specs.Passes.{GoesOn, made_if, Owes, Suits, snapshot_of};

use crate::locked::Locked;
use crate::step::{ShapeStep, dropped};
use front_lock::{Adds, FrontLock, Held, Pass};
use lock_events::{Pen, Trace, give_back, give_with};
use shape_base::{Cause, Limits, Offset, OutOfMemory, Row, RowTest};
use shape_snapshot::Snap;
use shape_state::{Paged, ReadyError, Stage};
use std::alloc::Global;
use std::marker::Brand;
use std::snapshot::Snapshot;
use std::sync::Wait;

/// What a look at a shape found: the page or why there is none, and how many commits came to it; 2^64 - 1 where there were more.
#[derive(Drop)]
pub struct Looked {
    pub paged: Paged,
    pub took: u64,
}

/// Makes a shape's lock, with the pass that has the whole share of it. The shape waits for its snapshot. The list of the trace `fed` is going
/// to have the LSNs with which it is fed, and that of `sealed` a mark with its snapshot.
pub fn begin<T: RowTest>(
    alloc: Global,
    test: T,
    limits: Limits,
    fed: Trace<u64>,
    sealed: Trace<bool>,
) -> Result<(FrontLock<Locked<T>>, Pass<Locked<T>>), OutOfMemory>
    requires { (fed.list ≡ []) × (sealed.list ≡ []) }
    ensures lock { IfOk result (λ r. r.1.lock ≡ r.0) }
    ensures data { IfOk result (λ r. r.1.fixed ≡ Some (record { test = kept test; limits = limits; feed = kept fed; seal = kept sealed })) }
    ensures seen { IfOk result (λ r. (r.1.seen ≡ []) × (r.1.own ≡ [])) }
{
    let state = Locked::begin(alloc, test, limits, fed, sealed)?;
    let made = FrontLock::new(alloc, state)?;
    Ok(made)
}

/// The page of a shape after an offset.
pub fn look<T: RowTest, R: Wait>(
    rt: &R,
    lock: &FrontLock<Locked<T>>,
    pass: Pass<Locked<T>>,
    offset: Offset,
    live: bool,
    late: bool,
) -> (Pass<Locked<T>>, Result<Looked, OutOfMemory>)
    requires { pass.lock ≡ lock.now }
    ensures on { GoesOn T.knows T.unread pass result.0 [] }
    ensures looked { IfOk result.1 (λ l. IsPagedIn T.knows T.unread result.0.fixed result.0.seen offset live late l.paged) }
    ensures took { IfOk result.1 (λ l. l.took ≡ capped (length (taken result.0.seen))) }
{
    let (held, state) = lock.take(rt, pass);
    let looked = state.look(offset, live, late);
    let pass = give_back(lock, held, state);
    match looked {
        Ok((paged, took)) => (pass, Ok(Looked { paged, took })),
        Err(e) => (pass, Err(e)),
    }
}

/// Drops a shape, and says whether this call did: it does not where the shape was dropped before.
pub fn drop_shape<T: RowTest, R: Wait>(
    rt: &R,
    lock: &FrontLock<Locked<T>>,
    pass: Pass<Locked<T>>,
    cause: Cause,
) -> (Pass<Locked<T>>, bool)
    requires { pass.lock ≡ lock.now }
    ensures on { GoesOn T.knows T.unread pass result.0 (made_if result.1 (Dropped cause)) }
    ensures dropped { IsSome (drop_in T.knows T.unread result.0.fixed result.0.seen) }
{
    let (held, mut state) = lock.take(rt, pass);
    match state.stage() {
        Stage::Gone { .. } => (give_back(lock, held, state), false),
        Stage::Starting => {
            state.drop_with(cause);
            let event = dropped(cause);
            (give_with(lock, held, state, &Snapshot::of(&event)), true)
        }
        Stage::Ready => {
            state.drop_with(cause);
            let event = dropped(cause);
            (give_with(lock, held, state, &Snapshot::of(&event)), true)
        }
    }
}

/// Why a shape is dropped, where it is.
fn cause_of(stage: Stage) -> Option<Cause>
    ensures { result ≡ cause_in stage }
{
    match stage {
        Stage::Starting => None,
        Stage::Ready => None,
        Stage::Gone { cause } => Some(cause),
    }
}

/// The event of a snapshot is the one that the call picks.
fn finish_held<T: RowTest, R: Wait, A: Adds<ShapeStep>>(
    rt: &R,
    lock: &FrontLock<Locked<T>>,
    held: Held<Locked<T>>,
    mut state: Locked<T>,
    seal: &mut Pen<bool>,
    snap: Snap<T>,
    rows: &Vec<Snapshot<Row>>,
) -> (Pass<Locked<T>>, Result<Option<Cause>, ReadyError>)
    requires lock { held.lock ≡ lock.now }
    requires stands { IsLocked T.knows T.unread state.shape.emitter.test state.shape.state state.marks held.fixed held.seen }
    requires event { A.event ≡ Some (Snapped (snapshot_of (T.knows snap.emitter.test) snap.vis (map (λ r. r.value) rows.now.items))) }
    requires none { snapshot_in held.seen ≡ None }
    requires owes { Owes held.fixed seal.old }
    requires suits { Suits held.fixed snap.emitter.test snap.kept.log.least }
    requires taken { HasTaken (reader_of (T.knows snap.emitter.test) (T.unread snap.emitter.test)) snap.limits snap.kept (map (λ r. r.value) rows.now.items) }
    ensures on { OnOk result.1 (GoesOn T.knows T.unread held result.0 (Snapped (snapshot_of (T.knows snap.emitter.test) snap.vis (map (λ r. r.value) rows.now.items)) ∷ [])) }
    ensures left { IfOk result.1 (λ o. o ≡ drop_in T.knows T.unread result.0.fixed result.0.seen) }
    ensures same { OnErr result.1 (GoesOn T.knows T.unread held result.0 []) }
    ensures refused { IfErr result.1 (IsReadyError (drop_in T.knows T.unread result.0.fixed result.0.seen)) }
    ensures seal { OnErr result.1 (seal.new ≡ seal.old) }
{
    let _ = rows;
    match state.ready(snap) {
        Err(e) => (give_back(lock, held, state), Err(e)),
        Ok(()) => {
            seal.write(rt, &Snapshot::of(&true));
            let _was = state.seal(seal.trace());
            let left = cause_of(state.stage());
            (lock.give::<A>(held, state, true), Ok(left))
        }
    }
}

/// Gives a shape its snapshot: a `Snap` that took these rows. The list `seal` is the one that the shape was begun with, and nothing was added to it, so that no
/// snapshot came. Ok has the cause where a commit that was buffered drops the shape in the same step.
///
/// Refuses `Gone` exactly where the shape was dropped before. Out of memory the snapshot is lost, and the shape still waits.
pub fn finish<T: RowTest, R: Wait>(
    rt: &R,
    lock: &FrontLock<Locked<T>>,
    pass: Pass<Locked<T>>,
    seal: &mut Pen<bool>,
    snap: Snap<T>,
    rows: &Vec<Snapshot<Row>>,
) -> (Pass<Locked<T>>, Result<Option<Cause>, ReadyError>)
    requires lock { pass.lock ≡ lock.now }
    requires owes { Owes pass.fixed seal.old }
    requires suits { Suits pass.fixed snap.emitter.test snap.kept.log.least }
    requires taken { HasTaken (reader_of (T.knows snap.emitter.test) (T.unread snap.emitter.test)) snap.limits snap.kept (map (λ r. r.value) rows.now.items) }
    ensures on { OnOk result.1 (GoesOn T.knows T.unread pass result.0 (Snapped (snapshot_of (T.knows snap.emitter.test) snap.vis (map (λ r. r.value) rows.now.items)) ∷ [])) }
    ensures left { IfOk result.1 (λ o. o ≡ drop_in T.knows T.unread result.0.fixed result.0.seen) }
    ensures same { OnErr result.1 (GoesOn T.knows T.unread pass result.0 []) }
    ensures refused { IfErr result.1 (IsReadyError (drop_in T.knows T.unread result.0.fixed result.0.seen)) }
    ensures seal { OnErr result.1 (seal.new ≡ seal.old) }
{
    let spare = seal.trace();
    let (held, mut state) = lock.take(rt, pass);
    let was = state.seal(spare);
    seal.compare(was);
    finish_held::<T, R, Brand>(rt, lock, held, state, seal, snap, rows)
}
