//! Histories of one table, written out.
use cases::{columns_of, cut, number_of, put_row, row_of, served_of, tables_of};
use shape_base::{
    Change, ChangeKind, Changes, History, OutOfMemory, Rows, Step, Steps, TableDef, TableDefs,
    Tables, Tx,
};
use shape_model::{HistoryError, good_history, table_after};
use std::alloc::Global;

fn rows_of(alloc: Global, text: &str) -> Result<Rows, OutOfMemory> {
    let mut rows = Rows::new(alloc);
    if text.is_empty() {
        return Ok(rows);
    }
    for row in text.split(';') {
        rows.push(row_of(alloc, row, ' ')?)?;
    }
    Ok(rows)
}

/// The columns of the definition with an OID: those of OID 9 stand the other way round.
fn column_words(oid: u32) -> &'static str {
    if oid == 9 {
        return "s 25|n 23|id 23";
    }
    "id 23|n 23|s 25"
}

/// The definition with the table and the OID that two words name.
fn definition_of(alloc: Global, words: &str) -> Result<TableDef, OutOfMemory> {
    let (table, oid) = cut(words, ' ');
    let oid = oid.parse::<u32>().unwrap_or(0);
    Ok(TableDef {
        table: table.parse::<u32>().unwrap_or(0),
        oid,
        columns: columns_of(alloc, column_words(oid), '|')?,
    })
}

/// The list of one definition; the empty list for OID 0.
fn definitions_of(alloc: Global, words: &str) -> Result<TableDefs, OutOfMemory> {
    let mut definitions = TableDefs::new(alloc);
    let definition = definition_of(alloc, words)?;
    if definition.oid != 0 {
        definitions.push(definition)?;
    }
    Ok(definitions)
}

fn kind_of(alloc: Global, text: &str) -> Result<ChangeKind, OutOfMemory> {
    if text == "truncate" {
        return Ok(ChangeKind::Truncate);
    }
    let (old, new) = cut(text, '>');
    if old.is_empty() {
        let new = row_of(alloc, new, ' ')?;
        return Ok(ChangeKind::Insert { new });
    }
    let old = row_of(alloc, old, ' ')?;
    if new.is_empty() {
        return Ok(ChangeKind::Delete { old });
    }
    let new = row_of(alloc, new, ' ')?;
    Ok(ChangeKind::Update { old, new })
}

/// Changes under the first definition of their commit.
fn changes_of(alloc: Global, text: &str) -> Result<Changes, OutOfMemory> {
    let mut changes = Changes::new(alloc);
    if text.is_empty() {
        return Ok(changes);
    }
    for change in text.split(';') {
        let kind = kind_of(alloc, change)?;
        changes.push(Change { def: 0, kind })?;
    }
    Ok(changes)
}

/// The step of a text such as `commit 100 0 16384:>2 6 b` or `define 0 7:1 5 a`.
fn step_of(alloc: Global, text: &str) -> Result<Step, OutOfMemory> {
    let (head, body) = cut(text, ':');
    let (word, rest) = cut(head, ' ');
    if word == "define" {
        let def = definition_of(alloc, rest)?;
        let rows = rows_of(alloc, body)?;
        return Ok(Step::Define { def, rows });
    }
    let (lsn, definition) = cut(rest, ' ');
    let lsn = number_of(lsn);
    Ok(Step::Commit(Tx {
        xid: 5,
        lsn,
        end: lsn,
        bytes: 0,
        defs: definitions_of(alloc, definition)?,
        changes: changes_of(alloc, body)?,
    }))
}

fn steps_of(alloc: Global, text: &str) -> Result<Steps, OutOfMemory> {
    let mut steps = Steps::new(alloc);
    if text.is_empty() {
        return Ok(steps);
    }
    for step in text.split('|') {
        steps.push(step_of(alloc, step)?)?;
    }
    Ok(steps)
}

/// The history of table `public.items` with key `id`; without a base it has no rows at first for it.
pub(crate) fn history_of(
    alloc: Global,
    text: &str,
    has_base: bool,
) -> Result<History, OutOfMemory> {
    let (first, steps) = cut(text, '|');
    let (definition, rows) = cut(first, ':');
    let mut base = Tables::new(alloc);
    if has_base {
        base.push(rows_of(alloc, rows)?)?;
    }
    let items = served_of(alloc, "public", "items", "id")?;
    Ok(History {
        tables: tables_of(alloc, items)?,
        defs: definitions_of(alloc, definition)?,
        base,
        steps: steps_of(alloc, steps)?,
    })
}

fn put_rows(out: &mut String, rows: &Rows) -> Result<(), OutOfMemory> {
    let mut first = true;
    for row in rows.as_slice() {
        if !first {
            out.push(';')?;
        }
        first = false;
        put_row(out, row, ' ')?;
    }
    Ok(())
}

/// The rows of the table after all steps.
fn end_line(alloc: Global, history: &History) -> Result<String, OutOfMemory> {
    let mut line = format!(in alloc; "good ")?;
    if history.base.len() > 0 {
        let rows = table_after(alloc, history, 0, history.steps.len())?;
        put_rows(&mut line, &rows)?;
    }
    Ok(line)
}

/// The rows after a history, or the step at which it breaks.
pub(crate) fn history_line(
    alloc: Global,
    text: &str,
    has_base: bool,
) -> Result<String, OutOfMemory> {
    let history = history_of(alloc, text, has_base)?;
    match good_history(alloc, &history) {
        Ok(()) => end_line(alloc, &history),
        Err(HistoryError::BadHistory { step }) => Ok(format!(in alloc; "bad {step}")?),
        Err(HistoryError::OutOfMemory) => Err(OutOfMemory),
    }
}
