//! Rows, one by one.
ghost use Rattle.std.specs.Prelude.{◌≡◌, length, IfOk, IfErr, None, Some};
ghost use Rattle.shape_base.specs.declared.change.ChangeKind.TheVariants as kinds;
ghost use Rattle.shape_base.specs.Tables.{Values};
ghost use Rattle.change_map.specs.Emitting.{IsWhole, IsChangeBadAt};
ghost use Rattle.shape_snapshot.specs.Refusals.{reader_of, fault_of, IsCause};
ghost use Rattle.shape_snapshot.specs.OneRow.{IsEntryOf};

use crate::faults::SnapError;
use change_map::{EmitError, Emitted, Emitter};
use shape_base::{Change, ChangeKind, Entry, Offset, Row, RowTest};
use std::alloc::Global;

/// Why the row that is inserted cannot be read, in that column: it has no truth, or else a null key value.
fn bad_row<T: RowTest>(test: &T, kind: &ChangeKind, column: u32) -> SnapError
    requires whole { IsWhole (T.knows test.now).definition kind.now }
    requires bad { IsChangeBadAt (T.knows test.now) (T.unread test.now) kind.now column }
    ensures { (row : Values) → kind.now ≡ kinds.Insert row → fault_of (reader_of (T.knows test.now) (T.unread test.now)) row ≡ Some result }
{
    let ChangeKind::Insert { new } = kind else {
        return SnapError::NullKey { column };
    };
    match test.truth(new) {
        Ok(_) => SnapError::NullKey { column },
        Err(_) => SnapError::BadValue { column },
    }
}

/// The entry of a row that is as wide as the definition, at `0_pos`; none where the row is not selected.
fn inserted<T: RowTest>(
    alloc: Global,
    emitter: &Emitter<T>,
    row: Row,
    pos: u64,
) -> Result<Option<Entry>, SnapError>
    requires { length row ≡ length (T.knows emitter.now.test).definition.columns }
    ensures entry { IfOk result (IsEntryOf (T.knows emitter.now.test) row pos) }
    ensures good { IfOk result (λ entry. fault_of (reader_of (T.knows emitter.now.test) (T.unread emitter.now.test)) row ≡ None) }
    ensures bad { IfErr result (IsCause (fault_of (reader_of (T.knows emitter.now.test) (T.unread emitter.now.test)) row)) }
{
    let change = Change {
        def: 0,
        kind: ChangeKind::Insert { new: row },
    };
    let first = match emitter.emit(alloc, &change, 0, 0) {
        Ok(Emitted { first, second: _ }) => first,
        Err(EmitError::BadRow { column }) => {
            return Err(bad_row(emitter.test(), &change.kind, column));
        }
        Err(EmitError::OutOfMemory) => return Err(SnapError::OutOfMemory),
    };
    let Some(first) = first else {
        return Ok(None);
    };
    Ok(Some(Entry {
        offset: Offset::At { lsn: 0, pos },
        op: first.op,
        key: first.key,
        cells: first.cells,
    }))
}

/// The entry of a row, at `0_pos`; none where the row is not selected. Each row is tested, selected or not: its width, then its truth, then its key.
pub(crate) fn entry_of<T: RowTest>(
    alloc: Global,
    emitter: &Emitter<T>,
    row: Row,
    pos: u64,
) -> Result<Option<Entry>, SnapError>
    ensures entry { IfOk result (IsEntryOf (T.knows emitter.now.test) row pos) }
    ensures good { IfOk result (λ entry. fault_of (reader_of (T.knows emitter.now.test) (T.unread emitter.now.test)) row ≡ None) }
    ensures bad { IfErr result (IsCause (fault_of (reader_of (T.knows emitter.now.test) (T.unread emitter.now.test)) row)) }
{
    if row.len() != emitter.test().definition().columns.len() {
        return Err(SnapError::WrongWidth);
    }
    inserted(alloc, emitter, row, pos)
}
