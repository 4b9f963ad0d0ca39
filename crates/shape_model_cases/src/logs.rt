//! Logs, written out, and the rows that they fold to.
use cases::{cut, put_value, value_of};
use shape_base::{Cell, Cells, Entries, Entry, KeyedRows, Offset, Op, OutOfMemory, Text};
use shape_model::{ModelError, fold};
use std::alloc::Global;

/// The cells of words such as `id=1`.
fn cells_of(alloc: Global, text: &str) -> Result<Cells, OutOfMemory> {
    let mut cells = Cells::new(alloc);
    if text.is_empty() {
        return Ok(cells);
    }
    for word in text.split(' ') {
        let (name, value) = cut(word, '=');
        let name = Text::of(alloc, name)?;
        let value = value_of(alloc, value)?;
        cells.push(Cell { name, value })?;
    }
    Ok(cells)
}

/// The operation that a sign stands for, and what stands behind the sign.
fn operation_of(text: &str) -> (Op, &str) {
    if let Some(rest) = text.strip_prefix('+') {
        return (Op::Insert, rest);
    }
    if let Some(rest) = text.strip_prefix('-') {
        return (Op::Delete, rest);
    }
    (Op::Update, text)
}

fn entry_of(alloc: Global, text: &str) -> Result<Entry, OutOfMemory> {
    let (op, rest) = operation_of(text);
    let (key, cells) = cut(rest, ' ');
    Ok(Entry {
        offset: Offset::Start,
        op,
        key: Text::of(alloc, key)?,
        cells: cells_of(alloc, cells)?,
    })
}

fn entries_of(alloc: Global, text: &str) -> Result<Entries, OutOfMemory> {
    let mut entries = Entries::new(alloc);
    if text.is_empty() {
        return Ok(entries);
    }
    for entry in text.split(';') {
        entries.push(entry_of(alloc, entry)?)?;
    }
    Ok(entries)
}

/// Rows, each as `key name=value ..;`.
fn rows_line(alloc: Global, rows: &KeyedRows) -> Result<String, OutOfMemory> {
    let mut line = String::new(alloc);
    for row in rows.as_slice() {
        line.push_str(row.key.as_str())?;
        for cell in row.cells.as_slice() {
            line.push(' ')?;
            line.push_str(cell.name.as_str())?;
            line.push('=')?;
            put_value(&mut line, &cell.value)?;
        }
        line.push(';')?;
    }
    Ok(line)
}

/// Rows, or why there are none.
pub(crate) fn answer_line(
    alloc: Global,
    answer: Result<KeyedRows, ModelError>,
) -> Result<String, OutOfMemory> {
    match answer {
        Ok(rows) => rows_line(alloc, &rows),
        Err(ModelError::BadFold { place }) => Ok(format!(in alloc; "bad {place}")?),
        Err(ModelError::BadValue { column }) => Ok(format!(in alloc; "unread {column}")?),
        Err(ModelError::OutOfMemory) => Err(OutOfMemory),
    }
}

/// The rows that a log folds to, or the place of the entry that does not fit.
pub(crate) fn fold_line(alloc: Global, text: &str) -> Result<String, OutOfMemory> {
    let entries = entries_of(alloc, text)?;
    answer_line(alloc, fold(alloc, &entries))
}
