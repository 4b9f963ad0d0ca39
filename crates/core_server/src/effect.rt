//! What a commit does to one shape.
ghost use Rattle.std.specs.Prelude.{◌≡◌, ◌&&◌, ◌==◌, ℕ, [], not, List, IfOk, OnErr, slice_get};
ghost use Rattle.std.specs.Option.{option_copied};
ghost use Rattle.shape_base.specs.Tables.{same_def, own_of, changes_of};
ghost use Rattle.shape_base.specs.Transactions.{IsWhole};
ghost use Rattle.shape_json.specs.ShapeHistory.{ShapeEvent};
ghost use Rattle.shape_state.specs.Standing.{Stands, IsLater};
ghost use Rattle.core_server.specs.Standing.{reader_in};
ghost use Rattle.core_server.specs.Effects.{cause_of, tells_in, is_changed, other_definition, new_definition, MayTake, HasTaken};

use shape_base::{Cause, Change, Duplicate, OutOfMemory, RowTest, TableDef, Tx, are_same_defs};
use shape_def::Def;
use shape_state::{Prepared, Shape};
use std::alloc::Global;

/// What a commit did to a shape.
#[derive(Drop)]
pub(crate) struct Effect {
    /// Why it drops the shape, if it does.
    pub(crate) cause: Option<Cause>,
    /// The new definition of the shape's table, where it is dropped for another one.
    pub(crate) definition: Option<TableDef>,
    /// Whether the shape is dropped or its log has grown, so that an answer can tell.
    pub(crate) tells: bool,
    /// The bytes of all logs with it.
    pub(crate) total: u64,
}

/// Why what was prepared drops the shape, if it does.
fn cause_of(prepared: &Prepared) -> Option<Cause>
    ensures { result ≡ cause_of prepared.now }
{
    match prepared {
        Prepared::Skip => None,
        Prepared::Buffer { .. } => None,
        Prepared::Append { .. } => None,
        Prepared::Drop { cause } => Some(*cause),
    }
}

/// Whether it adds entries to the log or drops the shape.
fn tells(prepared: &Prepared) -> bool
    ensures { result ≡ tells_in prepared.now }
{
    match prepared {
        Prepared::Skip => false,
        Prepared::Buffer { .. } => false,
        Prepared::Append { written } => !(written.len() == 0),
        Prepared::Drop { .. } => true,
    }
}

fn is_changed(cause: Cause) -> bool
    ensures { result ≡ is_changed cause }
{
    match cause {
        Cause::Changed { .. } => true,
        Cause::Truncated { .. } => false,
        Cause::Deleted => false,
        Cause::LogFull { .. } => false,
        Cause::AllLogsFull { .. } => false,
        Cause::PendingFull { .. } => false,
        Cause::BadRow { .. } => false,
        Cause::SnapshotFailed => false,
        Cause::NoMemory => false,
    }
}

/// Whether a definition is another one of the same table.
fn is_other(definition: &TableDef, old: &TableDef) -> bool
    ensures { result ≡ ((definition.now.table == old.now.table) && not (same_def definition.now old.now)) }
{
    definition.table == old.table && !are_same_defs(definition, old)
}

/// The definition under which a change came, where it is another one of the same table.
fn other_of<'a>(old: &TableDef, tx: &'a Tx, change: &Change) -> Option<&'a TableDef>
    ensures { (j : ℕ) → option_copied result ≡ other_definition old.now (own_of old.now.table j change.now.kind (slice_get tx.now.defs change.now.def) []) }
{
    let Some(definition) = tx.defs.as_slice().get(change.def as usize) else {
        return None;
    };
    if is_other(definition, old) {
        Some(definition)
    } else {
        None
    }
}

/// The first definition of a commit's changes that is another one of the same table.
fn other_definition<'a>(old: &TableDef, tx: &'a Tx) -> Option<&'a TableDef>
    ensures { option_copied result ≡ other_definition old.now (changes_of old.now.table tx.now) }
{
    for j in 0..tx.changes.len() {
        let found = other_of(old, tx, tx.changes.at(j));
        if found.is_some() {
            return found;
        }
    }
    None
}

/// A copy of a definition.
fn copied(alloc: Global, definition: Option<&TableDef>) -> Result<Option<TableDef>, OutOfMemory>
    ensures { IfOk result (λ copy. copy ≡ option_copied definition.entry) }
{
    match definition {
        None => Ok(None),
        Some(definition) => Ok(Some(definition.copy(alloc)?)),
    }
}

/// The new definition of a table, by why a commit drops a shape of it.
fn new_definition(
    alloc: Global,
    old: &TableDef,
    tx: &Tx,
    cause: Option<Cause>,
) -> Result<Option<TableDef>, OutOfMemory>
    ensures { IfOk result (λ definition. definition ≡ new_definition old.now tx.now cause) }
{
    let Some(cause) = cause else {
        return Ok(None);
    };
    if is_changed(cause) {
        copied(alloc, other_definition(old, tx))
    } else {
        Ok(None)
    }
}

/// A shape takes a commit, while all logs together have so many bytes. After want of memory it stands for the same events.
pub(crate) fn take_commit(
    shape: &mut Shape<Def>,
    alloc: Global,
    tx: &Tx,
    total: u64,
) -> Result<Effect, OutOfMemory>
    requires whole { IsWhole tx.now }
    requires later { IsLater shape.old.state.kept tx.now.lsn }
    ensures taken { (events : List ShapeEvent) → MayTake shape.old events tx.now total → IfOk result (HasTaken shape.old shape.new events tx.now total) }
    ensures still { (events : List ShapeEvent) → Stands (reader_in shape.old) shape.old.state events → OnErr result (Stands (reader_in shape.old) shape.new.state events) }
    ensures test { shape.new.emitter.test ≡ shape.old.emitter.test }
    ensures limits { shape.new.state.limits ≡ shape.old.state.limits }
{
    let others = total.saturating_sub(shape.bytes());
    let prepared = shape.prepare(tx, others)?;
    let cause = cause_of(&prepared);
    let definition = new_definition(alloc, shape.test().definition(), tx, cause)?;
    let tells = tells(&prepared);
    shape.commit(prepared);
    Ok(Effect {
        cause,
        definition,
        tells,
        total: others.saturating_add(shape.bytes()),
    })
}
