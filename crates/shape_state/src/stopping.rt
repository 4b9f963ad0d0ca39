//! Why a commit stops a shape.
ghost use Rattle.std.specs.Prelude.{◌≡◌, ◌<◌, ◌^◌, [], IfOk, None, slice_get};
ghost use Rattle.std.specs.Option.{option_copied};
ghost use Rattle.shape_base.specs.Tables.{own_of, changes_of};
ghost use Rattle.shape_base.specs.Shape.{is_truncate};
ghost use Rattle.shape_base.specs.Transactions.{IsAsWide, IsUnder, IsWhole};
ghost use Rattle.shape_json.specs.ShapeHistory.{stop_of, first_stop};
ghost use Rattle.shape_state.specs.Reading.{reader_of, own_at};

use change_map::{EmitError, Emitter};
use shape_base::{Cause, Change, ChangeKind, OutOfMemory, RowTest, TableDef, Tx, are_same_defs};
use std::alloc::Global;

fn is_truncate(kind: &ChangeKind) -> bool
    ensures { result ≡ is_truncate kind.now }
{
    match kind {
        ChangeKind::Insert { .. } => false,
        ChangeKind::Update { .. } => false,
        ChangeKind::Delete { .. } => false,
        ChangeKind::Truncate => true,
    }
}

/// Why a change of the shape's table stops it, if it does.
fn stop_of_own<T: RowTest>(
    alloc: Global,
    emitter: &Emitter<T>,
    def: &TableDef,
    change: &Change,
    lsn: u64,
    j: u64,
) -> Result<Option<Cause>, OutOfMemory>
    requires wide { IsAsWide def.now change.now.kind }
    requires small { j < 2 ^ 63 }
    ensures { IfOk result (λ stop. stop ≡ stop_of (reader_of (T.knows emitter.now.test) (T.unread emitter.now.test)) lsn (own_at def.now j change.now.kind)) }
{
    if is_truncate(&change.kind) {
        return Ok(Some(Cause::Truncated { lsn }));
    }
    if !are_same_defs(def, emitter.test().definition()) {
        return Ok(Some(Cause::Changed { lsn }));
    }
    let error = match emitter.emit(alloc, change, lsn, j) {
        Ok(_) => return Ok(None),
        Err(error) => error,
    };
    match error {
        EmitError::BadRow { column } => Ok(Some(Cause::BadRow { lsn, column })),
        EmitError::OutOfMemory => Err(OutOfMemory),
    }
}

/// The definition under which a change came.
fn definition_of<'a>(tx: &'a Tx, change: &Change) -> Option<&'a TableDef>
    ensures { option_copied result ≡ slice_get tx.now.defs change.now.def }
{
    tx.defs.as_slice().get(change.def as usize)
}

/// Why any change stops the shape, if it does.
fn stop_of_change<T: RowTest>(
    alloc: Global,
    emitter: &Emitter<T>,
    tx: &Tx,
    change: &Change,
    j: u64,
) -> Result<Option<Cause>, OutOfMemory>
    requires under { IsUnder tx.now.defs change.now }
    requires small { j < 2 ^ 63 }
    ensures { IfOk result (λ stop. stop ≡ first_stop (reader_of (T.knows emitter.now.test) (T.unread emitter.now.test)) tx.now.lsn (own_of (T.knows emitter.now.test).definition.table j change.now.kind (slice_get tx.now.defs change.now.def) [])) }
{
    match definition_of(tx, change) {
        None => Ok(None),
        Some(def) => {
            if def.table != emitter.test().definition().table {
                return Ok(None);
            }
            stop_of_own(alloc, emitter, def, change, tx.lsn, j)
        }
    }
}

/// Why a commit stops the shape: its first change of the shape's table that is a truncation, comes under another OID or other columns, or has a row that cannot be read.
pub(crate) fn first_stop<T: RowTest>(
    alloc: Global,
    emitter: &Emitter<T>,
    tx: &Tx,
) -> Result<Option<Cause>, OutOfMemory>
    requires { IsWhole tx.now }
    ensures { IfOk result (λ stop. stop ≡ first_stop (reader_of (T.knows emitter.now.test) (T.unread emitter.now.test)) tx.now.lsn (changes_of (T.knows emitter.now.test).definition.table tx.now)) }
{
    for j in 0..tx.changes.len() {
        let stop = stop_of_change(alloc, emitter, tx, tx.changes.at(j), j)?;
        if stop.is_some() {
            return Ok(stop);
        }
    }
    Ok(None)
}
