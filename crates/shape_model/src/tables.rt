//! Tables after steps.
ghost use Rattle.std.specs.Prelude.{◌≡◌, ℕ, suc, ◌<◌, ◌≤◌, ◌++◌, ◌∷◌, [], length, take, drop, IfOk, MatchOption, List, Some, slice_get};
ghost use Rattle.shape_base.specs.Tables.{Values, Table, in_place, changed, changes_of, own_of, after_changes, after_step};
ghost use Rattle.shape_base.specs.Tables as Tables;
ghost use Rattle.shape_base.specs.Tables.{def_step};

use shape_base::{
    Change, ChangeKind, Duplicate, History, OutOfMemory, Row, Rows, Step, TableDef, Tx,
    are_same_rows,
};
use std::alloc::Global;

/// The place of the first row that is equal to `old`.
fn place_of(rows: &Rows, old: &Row) -> Option<u64>
    ensures { MatchOption result ((news : Table) → in_place old.now news rows.now ≡ rows.now)
        (λ p. (p < length rows.now) × ((news : Table) → in_place old.now news rows.now ≡ take p rows.now ++ (news ++ drop (suc p) rows.now))) }
{
    for place in 0..rows.len() {
        if are_same_rows(old, rows.at(place)) {
            return Some(place);
        }
    }
    None
}

fn updated(alloc: Global, old: &Row, new: &Row, mut rows: Rows) -> Result<Rows, OutOfMemory>
    ensures { IfOk result (λ after. after ≡ in_place old.now (new.now ∷ []) rows) }
{
    match place_of(&rows, old) {
        None => Ok(rows),
        Some(place) => {
            rows.set(place, new.copy(alloc)?);
            Ok(rows)
        }
    }
}

fn without(old: &Row, mut rows: Rows) -> Rows
    ensures { result ≡ in_place old.now [] rows }
{
    match place_of(&rows, old) {
        None => rows,
        Some(place) => {
            rows.remove(place);
            rows
        }
    }
}

/// The rows after a change.
pub fn after_change(alloc: Global, kind: &ChangeKind, mut rows: Rows) -> Result<Rows, OutOfMemory>
    ensures { IfOk result (λ after. after ≡ changed kind.now rows) }
{
    match kind {
        ChangeKind::Insert { new } => {
            rows.push(new.copy(alloc)?)?;
            Ok(rows)
        }
        ChangeKind::Update { old, new } => updated(alloc, old, new, rows),
        ChangeKind::Delete { old } => Ok(without(old, rows)),
        ChangeKind::Truncate => Ok(Rows::new(alloc)),
    }
}

/// The rows after a change, where it is one of this table.
fn after_own(
    alloc: Global,
    tx: &Tx,
    change: &Change,
    table: u32,
    rows: Rows,
) -> Result<Rows, OutOfMemory>
    ensures { IfOk result (λ after. after ≡ after_changes (own_of table 0 change.now.kind (slice_get tx.now.defs change.now.def) []) rows) }
{
    match tx.defs.as_slice().get(change.def as usize) {
        None => Ok(rows),
        Some(def) => {
            if def.table == table {
                after_change(alloc, &change.kind, rows)
            } else {
                Ok(rows)
            }
        }
    }
}

fn after_commit(alloc: Global, tx: &Tx, table: u32, mut rows: Rows) -> Result<Rows, OutOfMemory>
    ensures { IfOk result (λ after. after ≡ after_changes (changes_of table tx.now) rows) }
{
    for change in tx.changes.as_slice() {
        rows = after_own(alloc, tx, change, table, rows)?;
    }
    Ok(rows)
}

fn after_one(alloc: Global, step: &Step, table: u32, rows: Rows) -> Result<Rows, OutOfMemory>
    ensures { IfOk result (λ after. after ≡ after_step table step.now rows) }
{
    match step {
        Step::Commit(tx) => after_commit(alloc, tx, table, rows),
        Step::Define { def, rows: new } => {
            if def.table == table {
                new.copy(alloc)
            } else {
                Ok(rows)
            }
        }
    }
}

/// The rows of served table `table` after the first `steps` steps of a history. It copies the base
/// and replays every change; finding an old row is a search from the front.
pub fn table_after(
    alloc: Global,
    history: &History,
    table: u32,
    steps: u64,
) -> Result<Rows, OutOfMemory>
    requires served { table < length history.now.base }
    requires there { steps ≤ length history.now.steps }
    ensures { IfOk result (λ rows. rows ≡ Tables.table_after history.now table steps) }
{
    let mut rows = history.base.at(u64::from(table)).copy(alloc)?;
    for place in 0..steps {
        rows = after_one(alloc, history.steps.at(place), table, rows)?;
    }
    Ok(rows)
}

/// The definition of a table after a step.
fn def_after_one<'a>(step: &'a Step, table: u32, definition: &'a TableDef) -> &'a TableDef
    ensures { result.now ≡ def_step table step.now definition.now }
{
    match step {
        Step::Commit(_) => definition,
        Step::Define { def, rows: _ } => { if def.table == table { def } else { definition } }
    }
}

/// The definition of served table `table` after the first `steps` steps of a history. It takes no
/// memory.
pub fn def_after(history: &History, table: u32, steps: u64) -> &TableDef
    requires defined { table < length history.now.defs }
    requires there { steps ≤ length history.now.steps }
    ensures { Tables.def_after history.now table steps ≡ Some result.now }
{
    let mut definition = history.defs.at(u64::from(table));
    for place in 0..steps {
        definition = def_after_one(history.steps.at(place), table, definition);
    }
    definition
}
