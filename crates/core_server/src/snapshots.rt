//! Snapshots of starting numbers.
ghost use Rattle.std.specs.Prelude.{◌≡◌, ℕ, ◌+◌, true, List, ◌++◌, ◌∷◌, [], None, Some, IfOk, IfErr, OnOk, OnErr, IsSomeAnd, is_some};
ghost use Rattle.std.specs.FinMap as fin;
ghost use Rattle.shape_base.specs.declared.cause.Cause.TheVariants as causes;
ghost use Rattle.shape_base.specs.declared.registry_event.RegistryEvent.TheVariants as events;
ghost use Rattle.shape_base.specs.declared.change.Tx.{Tx};
ghost use Rattle.shape_base.specs.Tables.{Table};
ghost use Rattle.shape_base.specs.RegistryHistory.{last_id};
ghost use Rattle.pg_dialogue.specs.declared.login.SnapHead.{SnapHead};
ghost use Rattle.shape_registry.specs.declared.standing.Standing.TheVariants as standings;
ghost use Rattle.shape_registry.specs.State.{live_at, standing_in, after};
ghost use Rattle.shape_registry.specs.Registry.{Adds};
ghost use Rattle.shape_snapshot.specs.declared.faults.SnapError.TheVariants as errors;
ghost use Rattle.shape_snapshot.specs.Refusals.{IsCause};
ghost use Rattle.http_edge.specs.declared.error_code.ErrorCode.TheVariants as codes;
ghost use Rattle.core_law.specs.Situation as law;
ghost use Rattle.core_law.specs.Situation.{Options, shape_at};
ghost use Rattle.core_law.specs.Steps.{id_before, dropped};
ghost use Rattle.core_server.specs.Standing.{Kept, Stands, IsSituated};
ghost use Rattle.core_server.specs.Snapshots.{snapshot_of, refusal_in, code_for, definition_for, IsUnderWay, ReadsAs, IsStarted};
ghost use Rattle.core_server.specs.Readied.{MayReady, IsReadied, event_of, kept_by, IsSettled};

use crate::server::Server;
use http_edge::{Detail, ErrorCode};
use pg_dialogue::SnapHead;
use shape_base::{Cause, OutOfMemory, Row, TableDef};
use shape_def::Def;
use shape_registry::Registry;
use shape_snapshot::{Snap, SnapError};
use shape_state::{Shape, Stage};
use std::alloc::Global;

/// How a refused snapshot ends.
#[derive(Drop)]
pub struct SnapshotRefusal {
    /// What the exchange that owns the number is answered.
    pub code: ErrorCode,
    /// The new definition of its table, where the snapshot came under another one.
    pub definition: Option<TableDef>,
}

/// A refusal whose snapshot has this detail.
fn bad(detail: Detail) -> SnapshotRefusal
    ensures code { result.code ≡ codes.SnapshotRefused detail }
    ensures definition { result.definition ≡ None }
{
    SnapshotRefusal {
        code: ErrorCode::SnapshotRefused { detail },
        definition: None,
    }
}

/// How a snapshot ends that is refused for this.
pub fn refusal_of_snapshot(error: SnapError) -> Result<SnapshotRefusal, OutOfMemory>
    ensures code { IfOk result (λ refusal. refusal.code ≡ code_for error) }
    ensures definition { IfOk result (λ refusal. refusal.definition ≡ definition_for error) }
    ensures memory { OnErr result (error ≡ errors.OutOfMemory) }
{
    match error {
        SnapError::BadSnapshot { .. } => Ok(bad(Detail::BadSnapshot)),
        SnapError::DefinitionChanged { have: _, got } => Ok(SnapshotRefusal {
            code: ErrorCode::DefinitionChanged,
            definition: Some(got),
        }),
        SnapError::Stale { last, xmax } => Ok(SnapshotRefusal {
            code: ErrorCode::SnapshotStale { last, xmax },
            definition: None,
        }),
        SnapError::WrongWidth => Ok(bad(Detail::WrongWidth)),
        SnapError::BadValue { .. } => Ok(bad(Detail::BadValue)),
        SnapError::NullKey { .. } => Ok(bad(Detail::NullKey)),
        SnapError::DuplicateKey { .. } => Ok(bad(Detail::DuplicateKey)),
        SnapError::LogFull { bytes, limit } => Ok(SnapshotRefusal {
            code: ErrorCode::ShapeTooLarge { bytes, limit },
            definition: None,
        }),
        SnapError::OutOfMemory => Err(OutOfMemory),
    }
}

/// Takes the next row of a snapshot that is under way. After a refusal it has the rows that it had.
pub fn take_row(snap: &mut Snap<Def>, row: Row) -> Result<(), SnapError>
    ensures taken { (o : Options) (txs : List Tx) (x : law.Shape) (head : SnapHead) (rows : Table) → IsUnderWay o txs x head rows snap.old → OnOk result (IsUnderWay o txs x head (rows ++ row ∷ []) snap.new) }
    ensures refused { (o : Options) (txs : List Tx) (x : law.Shape) (head : SnapHead) (rows : Table) → IsUnderWay o txs x head rows snap.old → IfErr result (IsCause (refusal_in x.reader o.limits (id_before txs x.before) head (rows ++ row ∷ []))) }
    ensures unchanged { (o : Options) (txs : List Tx) (x : law.Shape) (head : SnapHead) (rows : Table) → IsUnderWay o txs x head rows snap.old → OnErr result (IsUnderWay o txs x head rows snap.new) }
{
    match snap.row(row) {
        Ok(()) => Ok(()),
        Err(error) => Err(error),
    }
}

/// Gives a shape its snapshot: where it is in its life then, and the bytes of its log.
fn ready_shape(shape: &mut Shape<Def>, snap: Snap<Def>) -> Result<(Stage, u64), OutOfMemory>
    requires { MayReady snap shape.old }
    ensures { IfOk result (λ both. IsReadied shape.old snap both.0 both.1 shape.new) }
{
    match shape.ready(snap) {
        Ok(()) => Ok((shape.stage(), shape.bytes())),
        Err(_) => Err(OutOfMemory),
    }
}

/// Gives the shape that is kept for a number its snapshot.
fn ready_kept(
    registry: &mut Registry<Shape<Def>>,
    number: u64,
    snap: Snap<Def>,
) -> Result<(Stage, u64), OutOfMemory>
    requires { IsSomeAnd (fin.get registry.old.kept number) (MayReady snap) }
    ensures state { registry.new.state ≡ registry.old.state }
    ensures others { (other : ℕ) → (number ≡ other → ⊥) → fin.get registry.new.kept other ≡ fin.get registry.old.kept other }
    ensures readied { (k : Kept) → fin.get registry.old.kept number ≡ Some k → IfOk result (λ both. IsSomeAnd (fin.get registry.new.kept number) (IsReadied k snap both.0 both.1)) }
{
    match registry.kept_mut(number) {
        Some(shape) => ready_shape(shape, snap),
        None => unreachable!(),
    }
}

/// A live number is removed, and what was kept for it is let go.
fn forget<K: Drop>(registry: &mut Registry<K>, number: u64, cause: Cause)
    requires { is_some (live_at registry.old.state number) ≡ true }
    ensures state { registry.new.state ≡ after registry.old.state (events.Removed number cause) }
    ensures removed { Adds registry.old.state (events.Removed number cause) registry.new.state }
    ensures kept { registry.new.kept ≡ fin.remove registry.old.kept number }
{
    let _kept = registry.remove(number, cause);
}

/// A starting number whose shape took its snapshot becomes ready, or is removed where its shape is dropped.
fn settle<K: Drop>(registry: &mut Registry<K>, number: u64, stage: Stage)
    requires { standing_in registry.old.state number ≡ standings.Starting }
    ensures settled { Adds registry.old.state (event_of number stage) registry.new.state }
    ensures catalog { registry.new.state.catalog ≡ registry.old.state.catalog }
    ensures kept { registry.new.kept ≡ kept_by registry.old.kept number stage }
{
    match stage {
        Stage::Gone { cause } => forget(registry, number, cause),
        Stage::Starting => registry.ready(number),
        Stage::Ready => registry.ready(number),
    }
}

impl Server {
    /// The id of the last commit. It is what a snapshot of a number has to show that is registered now.
    pub fn last(&self) -> Option<u32>
        ensures { (o : Options) (v : law.Server) → Stands o v self.now → result ≡ last_id v.registry }
    {
        self.registry.last()
    }

    /// Begins the snapshot of a starting number over its dialogue's head. `last` is the id of the last commit before the number was registered.
    ///
    /// Refusals, in the order in which they are tried: `BadSnapshot`, `DefinitionChanged` and `Stale`, each exactly where `Snap::start` has it.
    pub fn begin_snapshot(
        &self,
        alloc: Global,
        number: u64,
        last: Option<u32>,
        head: &SnapHead,
    ) -> Result<Snap<Def>, SnapError>
        requires { standing_in self.now.registry.state number ≡ standings.Starting }
        ensures begun { (o : Options) (v : law.Server) (x : law.Shape) → Stands o v self.now → shape_at v.shapes number ≡ Some x → id_before v.commits x.before ≡ last → IfOk result (IsUnderWay o v.commits x head.now []) }
        ensures refused { (o : Options) (v : law.Server) (x : law.Shape) → Stands o v self.now → shape_at v.shapes number ≡ Some x → id_before v.commits x.before ≡ last → IfErr result (IsCause (refusal_in x.reader o.limits (id_before v.commits x.before) head.now [])) }
    {
        let Some(shape) = self.registry.kept(number) else {
            unreachable!()
        };
        match Snap::start(alloc, shape.test(), last, head, &self.limits) {
            Ok(snap) => Ok(snap),
            Err(error) => Err(error),
        }
    }

    /// A number is removed for want of memory, whatever is kept for it. The bytes of its log are not counted.
    fn lose(&mut self, number: u64)
        requires { is_some (live_at self.old.registry.state number) ≡ true }
        ensures { IsSettled self.old (events.Removed number causes.NoMemory) (fin.remove self.old.registry.kept number) self.old.total self.new }
    {
        forget(&mut self.registry, number, Cause::NoMemory);
    }

    /// A number whose shape took its snapshot becomes ready, or is removed where its shape is dropped. The bytes of its log are counted.
    fn settle(&mut self, number: u64, stage: Stage, bytes: u64) -> Result<(), OutOfMemory>
        requires { standing_in self.old.registry.state number ≡ standings.Starting }
        ensures settled { OnOk result (IsSettled self.old (event_of number stage) (kept_by self.old.registry.kept number stage) (self.old.total + bytes) self.new) }
        ensures lost { OnErr result (IsSettled self.old (events.Removed number causes.NoMemory) (fin.remove self.old.registry.kept number) self.old.total self.new) }
    {
        match self.total.checked_add(bytes) {
            Some(total) => {
                self.total = total;
                settle(&mut self.registry, number, stage);
                Ok(())
            }
            None => {
                self.lose(number);
                Err(OutOfMemory)
            }
        }
    }

    /// The snapshot of a starting number came whole. Its shape takes it, and then the commits that waited for it. The number is ready, unless one of these drops the shape: then it is removed for that
    /// cause.
    ///
    /// Out of memory, or where the bytes of all logs would pass 2^64 - 1, the snapshot is lost, and the number is removed with `NoMemory`.
    pub fn snapshot(&mut self, number: u64, snap: Snap<Def>) -> Result<(), OutOfMemory>
        requires situated { IsSituated self.old }
        requires starting { standing_in self.old.registry.state number ≡ standings.Starting }
        requires reads { IsSomeAnd (fin.get self.old.registry.kept number) (ReadsAs snap) }
        requires least { snap.kept.log.least ≡ self.old.limits.chunk }
        ensures started { (o : Options) (v : law.Server) (x : law.Shape) (head : SnapHead) (rows : Table) → Stands o v self.old → shape_at v.shapes number ≡ Some x → IsUnderWay o v.commits x head rows snap → OnOk result (IsStarted o v number x (snapshot_of head snap.vis rows) self.new) }
        ensures lost { (o : Options) (v : law.Server) → Stands o v self.old → OnErr result (Stands o (dropped v number causes.NoMemory) self.new) }
    {
        match ready_kept(&mut self.registry, number, snap) {
            Ok((stage, bytes)) => self.settle(number, stage, bytes),
            Err(_) => {
                self.lose(number);
                Err(OutOfMemory)
            }
        }
    }
}
