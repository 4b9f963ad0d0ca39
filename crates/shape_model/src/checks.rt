//! Checks of one table of a history, step by step.
ghost use Rattle.std.specs.Prelude.{◌≡◌, ◌+◌, ◌<◌, ◌≤◌, [], ◌∷◌, length, take, IfOk, IfSome, IsSome, None, MatchOption, List, slice_get, true, false, if◌then◌else◌};
ghost use Rattle.std.specs.List.{list_any};
ghost use Rattle.shape_base.specs.declared.definition.TableDef.{TableDef};
ghost use Rattle.shape_base.specs.Tables.{same_row, same_def, changes_of, own_of, since_changes};
ghost use Rattle.shape_model.specs.Checks.{check_change, check_changes, check_define, check_steps};
ghost use Rattle.shape_model.specs.Checks as specs;
ghost use Rattle.shape_base.specs.declared.history.Step.TheVariants.{Commit};

use super::keys::fit_def;
use super::tables::after_change;
use shape_base::{
    Change, ChangeKind, Duplicate, OutOfMemory, Row, Rows, Served, Step, Steps, TableDef,
    TableDefs, Tx, are_same_defs, are_same_rows,
};
use std::alloc::Global;

/// How a table stands: its definition, its rows, and the definitions since its last change.
#[derive(Drop)]
pub struct Standing {
    pub def: TableDef,
    pub rows: Rows,
    pub since: TableDefs,
}

fn is_there(old: &Row, rows: &Rows) -> bool
    ensures { result ≡ list_any (same_row old.now) rows.now }
{
    for row in rows.as_slice() {
        if are_same_rows(old, row) {
            return true;
        }
    }
    false
}

fn is_old_there(kind: &ChangeKind, rows: &Rows) -> bool
    ensures { result ≡ specs.is_old_there kind.now rows.now }
{
    match kind {
        ChangeKind::Insert { new: _ } => true,
        ChangeKind::Update { old, new: _ } => is_there(old, rows),
        ChangeKind::Delete { old } => is_there(old, rows),
        ChangeKind::Truncate => true,
    }
}

/// The rows after a change that came under a definition, where the change is good.
fn good_change(
    alloc: Global,
    served: &Served,
    def: &TableDef,
    came: &TableDef,
    kind: &ChangeKind,
    rows: Rows,
) -> Result<Option<Rows>, OutOfMemory>
    ensures { IfOk result (λ after. after ≡ check_change served.now def.now came.now kind.now rows) }
{
    if !are_same_defs(came, def) {
        return Ok(None);
    }
    if !is_old_there(kind, &rows) {
        return Ok(None);
    }
    let after = after_change(alloc, kind, rows)?;
    if fit_def(alloc, served, def, &after)? {
        return Ok(Some(after));
    }
    Ok(None)
}

/// The same, where the change may be one of another table.
fn good_own(
    alloc: Global,
    served: &Served,
    table: u64,
    def: &TableDef,
    tx: &Tx,
    change: &Change,
    rows: Rows,
) -> Result<Option<Rows>, OutOfMemory>
    ensures { IfOk result (λ after. after ≡ check_changes served.now def.now (own_of table 0 change.now.kind (slice_get tx.now.defs change.now.def) []) rows) }
{
    match tx.defs.as_slice().get(change.def as usize) {
        None => Ok(Some(rows)),
        Some(came) => {
            if u64::from(came.table) == table {
                good_change(alloc, served, def, came, &change.kind, rows)
            } else {
                Ok(Some(rows))
            }
        }
    }
}

fn good_commit(
    alloc: Global,
    served: &Served,
    table: u64,
    def: &TableDef,
    tx: &Tx,
    mut rows: Rows,
) -> Result<Option<Rows>, OutOfMemory>
    ensures { IfOk result (λ after. after ≡ check_changes served.now def.now (changes_of table tx.now) rows) }
{
    for change in tx.changes.as_slice() {
        match good_own(alloc, served, table, def, tx, change, rows)? {
            None => return Ok(None),
            Some(after) => rows = after,
        }
    }
    Ok(Some(rows))
}

fn is_own(table: u64, tx: &Tx, change: &Change) -> bool
    ensures { result ≡ specs.is_own table (slice_get tx.now.defs change.now.def) }
{
    match tx.defs.as_slice().get(change.def as usize) {
        None => false,
        Some(came) => u64::from(came.table) == table,
    }
}

/// Whether a commit has a change of the table.
fn touches(table: u64, tx: &Tx) -> bool
    ensures { result ≡ specs.touches table tx.now }
{
    for change in tx.changes.as_slice() {
        if is_own(table, tx, change) {
            return true;
        }
    }
    false
}

fn is_among(def: &TableDef, since: &TableDefs) -> bool
    ensures { result ≡ list_any (same_def def.now) since.now }
{
    for other in since.as_slice() {
        if are_same_defs(def, other) {
            return true;
        }
    }
    false
}

/// A list of one definition.
pub fn one(alloc: Global, def: &TableDef) -> Result<TableDefs, OutOfMemory>
    ensures { IfOk result (λ made. made ≡ def.now ∷ []) }
{
    let mut made = TableDefs::new(alloc);
    made.push(def.copy(alloc)?)?;
    Ok(made)
}

fn put_first(alloc: Global, def: &TableDef, since: TableDefs) -> Result<TableDefs, OutOfMemory>
    ensures { IfOk result (λ made. made ≡ def.now ∷ since) }
{
    let mut items = since.into_vec();
    items.insert(0, def.copy(alloc)?)?;
    Ok(TableDefs::from_vec(items))
}

fn after_commit(
    alloc: Global,
    served: &Served,
    table: u64,
    tx: &Tx,
    standing: Standing,
) -> Result<Option<Standing>, OutOfMemory>
    ensures { IfOk result (λ after. after ≡ specs.check_step served.now table (Commit tx.now) standing) }
{
    let Standing { def, rows, since } = standing;
    match good_commit(alloc, served, table, &def, tx, rows)? {
        None => Ok(None),
        Some(rows) => {
            if touches(table, tx) {
                let since = one(alloc, &def)?;
                return Ok(Some(Standing { def, rows, since }));
            }
            Ok(Some(Standing { def, rows, since }))
        }
    }
}

fn after_define(
    alloc: Global,
    served: &Served,
    def: &TableDef,
    rows: &Rows,
    standing: Standing,
) -> Result<Option<Standing>, OutOfMemory>
    ensures { IfOk result (λ after. after ≡ check_define served.now def.now rows.now standing) }
{
    if is_among(def, &standing.since) {
        return Ok(None);
    }
    if !fit_def(alloc, served, def, rows)? {
        return Ok(None);
    }
    Ok(Some(Standing {
        def: def.copy(alloc)?,
        rows: rows.copy(alloc)?,
        since: put_first(alloc, def, standing.since)?,
    }))
}

/// How a table stands after a step, where the step is good for it.
fn after_step(
    alloc: Global,
    served: &Served,
    table: u64,
    step: &Step,
    standing: Standing,
) -> Result<Option<Standing>, OutOfMemory>
    ensures { IfOk result (λ after. after ≡ specs.check_step served.now table step.now standing) }
{
    match step {
        Step::Commit(tx) => after_commit(alloc, served, table, tx, standing),
        Step::Define { def, rows } => {
            if u64::from(def.table) == table {
                after_define(alloc, served, def, rows, standing)
            } else {
                Ok(Some(standing))
            }
        }
    }
}

/// How many of the first `most` steps are good for a table that stands so before them.
pub fn good_steps(
    alloc: Global,
    served: &Served,
    table: u64,
    steps: &Steps,
    most: u64,
    start: Standing,
) -> Result<u64, OutOfMemory>
    requires { most ≤ length steps.now }
    ensures bound { IfOk result (λ count. count ≤ most) }
    ensures good { IfOk result (λ count. IsSome (check_steps served.now table (take count steps.now) start)) }
    ensures broken { IfOk result (λ count. count < most → check_steps served.now table (take (count + 1) steps.now) start ≡ None) }
{
    let mut standing = start;
    for place in 0..most {
        match after_step(alloc, served, table, steps.at(place), standing)? {
            None => return Ok(place),
            Some(after) => standing = after,
        }
    }
    Ok(most)
}
