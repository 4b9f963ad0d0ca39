//! The entries of a commit.
ghost use Rattle.std.specs.Prelude.{◌≡◌, List, ◌<◌, ◌^◌, ◌++◌, ◌==◌, [], true, not, is_none, IfOk, IfSome, OnOk, slice_get};
ghost use Rattle.std.specs.List.{list_any, flat_map};
ghost use Rattle.std.specs.Option.{option_copied};
ghost use Rattle.shape_base.specs.declared.change.ChangeKind.{ChangeKind};
ghost use Rattle.shape_base.specs.declared.entry.Entry.{Entry};
ghost use Rattle.shape_base.specs.Tables.{own_of, changes_of};
ghost use Rattle.shape_base.specs.Shape.{emit, stops, is_truncate};
ghost use Rattle.shape_base.specs.Transactions.{IsAsWide, IsUnder, IsWhole};
ghost use Rattle.change_map.specs.Emitting.{in_order};
ghost use Rattle.chunked_log.specs.Chunked.{Writes};
ghost use Rattle.shape_entries.specs.Commit.{own_at};

use change_map::{EmitError, Emitted, Emitter};
use chunked_log::Written;
use shape_base::{Change, ChangeKind, OutOfMemory, RowTest, TableDef, Tx, are_same_defs};
use std::alloc::Global;

fn is_truncate(kind: &ChangeKind) -> bool
    ensures { result ≡ is_truncate kind.now }
{
    match kind {
        ChangeKind::Insert { .. } => false,
        ChangeKind::Update { .. } => false,
        ChangeKind::Delete { .. } => false,
        ChangeKind::Truncate => true,
    }
}

/// Writes the entries of a change behind the others.
fn push_emitted(written: &mut Written, emitted: &Emitted) -> Result<(), OutOfMemory>
    ensures { (entries : List Entry) → Writes written.old entries → OnOk result (Writes written.new (entries ++ in_order emitted.now)) }
{
    if let Some(first) = &emitted.first {
        written.push(first)?;
    }
    if let Some(second) = &emitted.second {
        written.push(second)?;
    }
    Ok(())
}

/// Writes the entries of a change of the shape's table, or answers false where it stops the shape.
fn add_own<T: RowTest>(
    alloc: Global,
    emitter: &Emitter<T>,
    written: &mut Written,
    def: &TableDef,
    change: &Change,
    lsn: u64,
    j: u64,
) -> Result<bool, OutOfMemory>
    requires wide { IsAsWide def.now change.now.kind }
    requires small { j < 2 ^ 63 }
    ensures kept { (entries : List Entry) → Writes written.old entries → IfOk result (λ kept. kept ≡ true → Writes written.new (entries ++ emit (T.knows emitter.now.test) lsn (own_at def.now j change.now.kind))) }
    ensures stops { IfOk result (λ kept. not kept ≡ stops (T.knows emitter.now.test) (own_at def.now j change.now.kind)) }
{
    if is_truncate(&change.kind) {
        return Ok(false);
    }
    if !are_same_defs(def, emitter.test().definition()) {
        return Ok(false);
    }
    match emitter.emit(alloc, change, lsn, j) {
        Ok(emitted) => {
            push_emitted(written, &emitted)?;
            Ok(true)
        }
        Err(EmitError::BadRow { .. }) => Ok(false),
        Err(EmitError::OutOfMemory) => Err(OutOfMemory),
    }
}

/// The definition under which a change came.
fn definition_of<'a>(tx: &'a Tx, change: &Change) -> Option<&'a TableDef>
    ensures { option_copied result ≡ slice_get tx.now.defs change.now.def }
{
    tx.defs.as_slice().get(change.def as usize)
}

/// The same of any change.
fn add_change<T: RowTest>(
    alloc: Global,
    emitter: &Emitter<T>,
    written: &mut Written,
    tx: &Tx,
    change: &Change,
    j: u64,
) -> Result<bool, OutOfMemory>
    requires under { IsUnder tx.now.defs change.now }
    requires small { j < 2 ^ 63 }
    ensures kept { (entries : List Entry) → Writes written.old entries → IfOk result (λ kept. kept ≡ true → Writes written.new (entries ++ flat_map (emit (T.knows emitter.now.test) tx.now.lsn) (own_of (T.knows emitter.now.test).definition.table j change.now.kind (slice_get tx.now.defs change.now.def) []))) }
    ensures stops { IfOk result (λ kept. not kept ≡ list_any (stops (T.knows emitter.now.test)) (own_of (T.knows emitter.now.test).definition.table j change.now.kind (slice_get tx.now.defs change.now.def) [])) }
{
    match definition_of(tx, change) {
        None => Ok(true),
        Some(def) => {
            if def.table != emitter.test().definition().table {
                return Ok(true);
            }
            add_own(alloc, emitter, written, def, change, tx.lsn, j)
        }
    }
}

/// Whether one of the definitions is of a table.
fn names_table(defs: &[TableDef], table: u32) -> bool
    ensures { result ≡ list_any (λ d. d.table == table) defs.now }
{
    defs.iter().any(|def| def.table == table)
}

/// The entries of a commit, written, change by change; or none exactly where one of its changes stops the shape.
fn changes_entries<T: RowTest>(
    alloc: Global,
    emitter: &Emitter<T>,
    tx: &Tx,
) -> Result<Option<Written>, OutOfMemory>
    requires { IsWhole tx.now }
    ensures entries { IfOk result (λ found. IfSome found (λ written. Writes written (flat_map (emit (T.knows emitter.now.test) tx.now.lsn) (changes_of (T.knows emitter.now.test).definition.table tx.now)))) }
    ensures stops { IfOk result (λ found. is_none found ≡ list_any (stops (T.knows emitter.now.test)) (changes_of (T.knows emitter.now.test).definition.table tx.now)) }
{
    let mut written = Written::new(alloc);
    for j in 0..tx.changes.len() {
        if !add_change(alloc, emitter, &mut written, tx, tx.changes.at(j), j)? {
            return Ok(None);
        }
    }
    Ok(Some(written))
}

/// The entries of a commit, written; or none exactly where one of its changes stops the shape: a truncation, a change under another definition, or one with a row that
/// cannot be read. Its changes are gone over only where one of its definitions is of the shape's table.
pub fn commit_entries<T: RowTest>(
    alloc: Global,
    emitter: &Emitter<T>,
    tx: &Tx,
) -> Result<Option<Written>, OutOfMemory>
    requires { IsWhole tx.now }
    ensures entries { IfOk result (λ found. IfSome found (λ written. Writes written (flat_map (emit (T.knows emitter.now.test) tx.now.lsn) (changes_of (T.knows emitter.now.test).definition.table tx.now)))) }
    ensures stops { IfOk result (λ found. is_none found ≡ list_any (stops (T.knows emitter.now.test)) (changes_of (T.knows emitter.now.test).definition.table tx.now)) }
{
    if !names_table(tx.defs.as_slice(), emitter.test().definition().table) {
        return Ok(Some(Written::new(alloc)));
    }
    changes_entries(alloc, emitter, tx)
}
