//! The entries of a snapshot.
ghost use Rattle.std.specs.Prelude.{◌≡◌, ◌+◌, ◌++◌, [], ◌∷◌, true, is_some, length, IfOk, IfSome, OnOk};
ghost use Rattle.shape_base.specs.Shape.{key_text, shown};
ghost use Rattle.shape_base.specs.Log.{start_from};
ghost use Rattle.shape_entries.specs.Start.{is_good_row, are_good};

use change_map::{Emitted, Emitter, KeyError, key_text};
use shape_base::{
    Change, ChangeKind, Entries, Entry, Offset, OutOfMemory, Row, RowTest, Rows, Text,
};
use std::alloc::Global;
use std::collections::BTreeSet;

/// The key text of a row that is as wide as the definition, with a truth and a key.
fn good_key<T: RowTest>(alloc: Global, test: &T, row: &Row) -> Result<Option<Text>, OutOfMemory>
    ensures good { IfOk result (λ key. is_some key ≡ is_good_row (T.knows test.now) row.now) }
    ensures key { IfOk result (λ key. IfSome key (λ text. text ≡ key_text (T.knows test.now) row.now)) }
{
    if row.len() != test.definition().columns.len() {
        return Ok(None);
    }
    if test.truth(row).is_err() {
        return Ok(None);
    }
    match key_text(alloc, test, row) {
        Ok(text) => Ok(Some(text)),
        Err(KeyError::NullKey { .. }) => Ok(None),
        Err(KeyError::OutOfMemory) => Err(OutOfMemory),
    }
}

/// Adds the entry of a good row, where it is selected. Its place is its number among the selected rows, from 1.
fn push_start<T: RowTest>(
    alloc: Global,
    emitter: &Emitter<T>,
    made: &mut Entries,
    row: Row,
) -> Result<(), OutOfMemory>
    requires { is_good_row (T.knows emitter.now.test) row ≡ true }
    ensures { OnOk result (made.new ≡ made.old ++ start_from (length made.old + 1) (shown (T.knows emitter.now.test) (row ∷ []))) }
{
    let change = Change {
        def: 0,
        kind: ChangeKind::Insert { new: row },
    };
    let Ok(emitted) = emitter.emit(alloc, &change, 0, 0) else {
        return Err(OutOfMemory);
    };
    let Emitted { first, second: _ } = emitted;
    let Some(first) = first else {
        return Ok(());
    };
    let pos = made.len().checked_add(1).ok_or(OutOfMemory)?;
    made.push(Entry {
        offset: Offset::At { lsn: 0, pos },
        op: first.op,
        key: first.key,
        cells: first.cells,
    })
}

/// The entries of a snapshot: an insert for each row that is selected, in the snapshot's order, at `0_1`, `0_2` and on; or none exactly where a row is not as wide
/// as the definition, has no truth or a null key value, or has the key of another row.
pub fn start_entries<T: RowTest>(
    alloc: Global,
    emitter: &Emitter<T>,
    rows: Rows,
) -> Result<Option<Entries>, OutOfMemory>
    ensures entries { IfOk result (λ found. IfSome found (λ es. es ≡ start_from 1 (shown (T.knows emitter.now.test) rows))) }
    ensures good { IfOk result (λ found. is_some found ≡ are_good (T.knows emitter.now.test) rows) }
{
    let mut made = Entries::new(alloc);
    let mut seen = BTreeSet::new(alloc);
    for row in rows.into_vec() {
        let Some(key) = good_key(alloc, emitter.test(), &row)? else {
            return Ok(None);
        };
        if !seen.insert(key)? {
            return Ok(None);
        }
        push_start(alloc, emitter, &mut made, row)?;
    }
    Ok(Some(made))
}
