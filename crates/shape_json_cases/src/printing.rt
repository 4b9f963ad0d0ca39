//! Entries and controls in a line.
use cases::put_bytes;
use shape_base::{Cell, Entries, Entry, Op, OutOfMemory, Value};
use shape_json::Control;
use std::alloc::Global;

/// Adds bytes to a line: a backslash and two hexadecimal digits stand for each that is not printable ASCII, and for a
/// backslash.
pub(crate) fn put_text(line: &mut String, bytes: &[u8]) -> Result<(), OutOfMemory> {
    put_bytes(line, bytes)
}

fn put_cell(line: &mut String, cell: &Cell) -> Result<(), OutOfMemory> {
    put_bytes(line, cell.name.as_bytes())?;
    line.push('=')?;
    match &cell.value {
        Value::Null => line.push_str("\\N")?,
        Value::Words(words) => put_bytes(line, words.as_bytes())?,
    }
    Ok(())
}

fn put_cells(line: &mut String, cells: &[Cell]) -> Result<(), OutOfMemory> {
    let Some((first, others)) = cells.split_first() else {
        line.push('-')?;
        return Ok(());
    };
    put_cell(line, first)?;
    for cell in others {
        line.push(',')?;
        put_cell(line, cell)?;
    }
    Ok(())
}

fn word_of(op: Op) -> &'static str {
    match op {
        Op::Insert => "insert",
        Op::Update => "update",
        Op::Delete => "delete",
    }
}

fn put_entry(alloc: Global, line: &mut String, entry: &Entry) -> Result<(), OutOfMemory> {
    line.push_str(word_of(entry.op))?;
    line.push(' ')?;
    put_bytes(line, entry.key.as_bytes())?;
    line.push(' ')?;
    line.push_str(entry.offset.print(alloc)?.as_str())?;
    line.push(' ')?;
    put_cells(line, entry.cells.as_slice())
}

/// The entries of a body and its control.
pub(crate) fn body_line(
    alloc: Global,
    entries: &Entries,
    control: Control,
) -> Result<String, OutOfMemory> {
    let mut line = String::new(alloc);
    for entry in entries.as_slice() {
        put_entry(alloc, &mut line, entry)?;
        line.push_str("; ")?;
    }
    line.push_str(match control {
        Control::Nothing => "nothing",
        Control::UpToDate => "up-to-date",
        Control::MustRefetch => "must-refetch",
    })?;
    Ok(line)
}
