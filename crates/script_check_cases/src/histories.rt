//! Histories of one table, written out.
ghost use Rattle.std.specs.Prelude.{◌≡◌, IfOk};

use cases::{columns_of, cut, number_of, row_of, served_of, tables_of};
use shape_base::{
    Change, ChangeKind, Changes, History, OutOfMemory, Rows, Step, Steps, TableDef, TableDefs,
    Tables, Tx,
};
use std::alloc::Global;

pub(crate) fn rows_of(alloc: Global, text: &str) -> Result<Rows, OutOfMemory> {
    let mut rows = Rows::new(alloc);
    if text.is_empty() {
        return Ok(rows);
    }
    for row in text.split(';') {
        rows.push(row_of(alloc, row, ' ')?)?;
    }
    Ok(rows)
}

/// The definition of table 0 with an OID.
pub(crate) fn definition_of(alloc: Global, oid: &str) -> Result<TableDef, OutOfMemory>
    ensures { IfOk result (λ definition. definition.table ≡ 0) }
{
    Ok(TableDef {
        table: 0,
        oid: oid.parse::<u32>().unwrap_or(0),
        columns: columns_of(alloc, "id 23|n 23|s 25", '|')?,
    })
}

fn definitions_of(alloc: Global, oid: &str) -> Result<TableDefs, OutOfMemory> {
    let mut definitions = TableDefs::new(alloc);
    definitions.push(definition_of(alloc, oid)?)?;
    Ok(definitions)
}

fn kind_of(alloc: Global, text: &str) -> Result<ChangeKind, OutOfMemory> {
    let (old, new) = cut(text, '>');
    if old.is_empty() {
        let new = row_of(alloc, new, ' ')?;
        return Ok(ChangeKind::Insert { new });
    }
    let old = row_of(alloc, old, ' ')?;
    if new.is_empty() {
        return Ok(ChangeKind::Delete { old });
    }
    let new = row_of(alloc, new, ' ')?;
    Ok(ChangeKind::Update { old, new })
}

fn changes_of(alloc: Global, text: &str) -> Result<Changes, OutOfMemory> {
    let mut changes = Changes::new(alloc);
    if text.is_empty() {
        return Ok(changes);
    }
    for change in text.split(';') {
        let kind = kind_of(alloc, change)?;
        changes.push(Change { def: 0, kind })?;
    }
    Ok(changes)
}

/// The step of a text such as `commit 5 100 16384:>2 6 b` or `define 7:1 5 a`.
fn step_of(alloc: Global, text: &str) -> Result<Step, OutOfMemory> {
    let (head, body) = cut(text, ':');
    let (word, rest) = cut(head, ' ');
    if word == "define" {
        let def = definition_of(alloc, rest)?;
        let rows = rows_of(alloc, body)?;
        return Ok(Step::Define { def, rows });
    }
    let (xid, rest) = cut(rest, ' ');
    let (lsn, oid) = cut(rest, ' ');
    let lsn = number_of(lsn);
    Ok(Step::Commit(Tx {
        xid: xid.parse::<u32>().unwrap_or(0),
        lsn,
        end: lsn,
        bytes: 0,
        defs: definitions_of(alloc, oid)?,
        changes: changes_of(alloc, body)?,
    }))
}

fn steps_of(alloc: Global, text: &str) -> Result<Steps, OutOfMemory> {
    let mut steps = Steps::new(alloc);
    if text.is_empty() {
        return Ok(steps);
    }
    for step in text.split('|') {
        steps.push(step_of(alloc, step)?)?;
    }
    Ok(steps)
}

/// The history of table `public.items` with key `id`.
pub(crate) fn history_of(alloc: Global, text: &str) -> Result<History, OutOfMemory> {
    let (rows, steps) = cut(text, '|');
    let mut base = Tables::new(alloc);
    base.push(rows_of(alloc, rows)?)?;
    let items = served_of(alloc, "public", "items", "id")?;
    Ok(History {
        tables: tables_of(alloc, items)?,
        defs: definitions_of(alloc, "16384")?,
        base,
        steps: steps_of(alloc, steps)?,
    })
}
