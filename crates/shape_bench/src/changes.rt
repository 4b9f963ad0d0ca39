//! Commits to take.
use cases::definition_of;
use shape_base::{Change, ChangeKind, Changes, OutOfMemory, Row, TableDefs, Text, Tx, Value};
use std::alloc::Global;

/// How many inserts a commit has.
pub(crate) const INSERTS: u64 = 1000;

/// How many updates go to so many inserts: a tenth as many.
pub(crate) fn updates_of(inserts: u64) -> u64 {
    inserts / 10
}

/// The value of column `n` in a row when it is inserted.
fn n_of(id: u64) -> u64 {
    id.saturating_mul(37) % 1000
}

/// The text of column `s`; half of the rows have one that begins with `b`.
fn text_of(alloc: Global, id: u64) -> Result<String, OutOfMemory> {
    let first = if id % 2 == 0 { 'a' } else { 'b' };
    let number = id.saturating_mul(7919) % 1_000_003;
    Ok(format!(in alloc; "{first} text of row {number}")?)
}

fn row(alloc: Global, id: u64, n: u64) -> Result<Row, OutOfMemory> {
    let mut row = Row::new(alloc);
    let words = [
        format!(in alloc; "{id}")?,
        format!(in alloc; "{n}")?,
        text_of(alloc, id)?,
    ];
    for word in words {
        row.push(Value::Words(Text::from_string(word)))?;
    }
    Ok(row)
}

fn insert(alloc: Global, id: u64) -> Result<ChangeKind, OutOfMemory> {
    let new = row(alloc, id, n_of(id))?;
    Ok(ChangeKind::Insert { new })
}

/// The update with this number, of one of so many rows: it changes column `n` alone.
fn update(alloc: Global, number: u64, rows: u64) -> Result<ChangeKind, OutOfMemory> {
    let id = number.saturating_mul(7919) % rows.max(1);
    let old = row(alloc, id, n_of(id))?;
    let new = row(alloc, id, n_of(id).saturating_add(501) % 1000)?;
    Ok(ChangeKind::Update { old, new })
}

/// The commit with this number, from 1.
fn tx_of(alloc: Global, number: u64, changes: Changes) -> Result<Tx, OutOfMemory> {
    let mut defs = TableDefs::new(alloc);
    defs.push(definition_of(alloc, "id 23,n 23,s 25", ',')?)?;
    let lsn = number.saturating_mul(100);
    Ok(Tx {
        xid: (number % 4_000_000_000) as u32,
        lsn,
        end: lsn,
        bytes: changes.len(),
        defs,
        changes,
    })
}

/// The commit with this number that inserts the rows from one id up to below another.
pub(crate) fn inserting(alloc: Global, number: u64, from: u64, to: u64) -> Result<Tx, OutOfMemory> {
    let mut changes = Changes::new(alloc);
    for id in from..to {
        let kind = insert(alloc, id)?;
        changes.push(Change { def: 0, kind })?;
    }
    tx_of(alloc, number, changes)
}

/// The commit with this number that has one update of one of so many rows.
pub(crate) fn updating(
    alloc: Global,
    number: u64,
    update_number: u64,
    rows: u64,
) -> Result<Tx, OutOfMemory> {
    let mut changes = Changes::new(alloc);
    let kind = update(alloc, update_number, rows)?;
    changes.push(Change { def: 0, kind })?;
    tx_of(alloc, number, changes)
}
