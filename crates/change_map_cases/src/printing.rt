//! What is printed of entries, key texts and their parts.
use cases::put_value;
use change_map::{EmitError, Emitted, KeyError, KeyTextError};
use shape_base::{Entry, Op, OutOfMemory, Text, Texts};
use std::alloc::Global;

fn put_cells(out: &mut String, entry: &Entry) -> Result<(), OutOfMemory> {
    for cell in entry.cells.as_slice() {
        out.push(' ')?;
        out.push_str(cell.name.as_str())?;
        out.push('=')?;
        put_value(out, &cell.value)?;
    }
    Ok(())
}

fn operation(op: Op) -> &'static str {
    match op {
        Op::Insert => "insert",
        Op::Update => "update",
        Op::Delete => "delete",
    }
}

fn put_entry(alloc: Global, out: &mut String, entry: &Entry) -> Result<(), OutOfMemory> {
    let offset = entry.offset.print(alloc)?;
    out.push_str(operation(entry.op))?;
    out.push(' ')?;
    out.push_str(offset.as_str())?;
    out.push(' ')?;
    out.push_str(entry.key.as_str())?;
    put_cells(out, entry)
}

fn put_emitted(alloc: Global, out: &mut String, emitted: &Emitted) -> Result<(), OutOfMemory> {
    let Some(first) = &emitted.first else {
        out.push_str("none")?;
        return Ok(());
    };
    put_entry(alloc, out, first)?;
    if let Some(second) = &emitted.second {
        out.push_str(", ")?;
        put_entry(alloc, out, second)?;
    }
    Ok(())
}

/// The entries of a change, or the column of the row that cannot be read.
pub(crate) fn entries_line(
    alloc: Global,
    answer: Result<Emitted, EmitError>,
) -> Result<String, OutOfMemory> {
    let mut line = String::new(alloc);
    match answer {
        Ok(emitted) => put_emitted(alloc, &mut line, &emitted)?,
        Err(EmitError::BadRow { column }) => {
            let bad = format!(in alloc; "bad {column}")?;
            line.push_str(bad.as_str())?;
        }
        Err(EmitError::OutOfMemory) => return Err(OutOfMemory),
    }
    Ok(line)
}

/// A key text, or the key column that is null.
pub(crate) fn key_line(
    alloc: Global,
    answer: &Result<Text, KeyError>,
) -> Result<String, OutOfMemory> {
    let mut line = String::new(alloc);
    match answer {
        Ok(text) => line.push_str(text.as_str())?,
        Err(KeyError::NullKey { column }) => {
            let null = format!(in alloc; "null {column}")?;
            line.push_str(null.as_str())?;
        }
        Err(KeyError::OutOfMemory) => return Err(OutOfMemory),
    }
    Ok(line)
}

/// The parts of a key text, each in brackets, or the place of the fault.
pub(crate) fn parts_line(
    alloc: Global,
    answer: Result<Texts, KeyTextError>,
) -> Result<String, OutOfMemory> {
    let parts = match answer {
        Ok(parts) => parts,
        Err(KeyTextError::BadKey { place }) => return Ok(format!(in alloc; "bad {place}")?),
        Err(KeyTextError::OutOfMemory) => return Err(OutOfMemory),
    };
    let mut line = String::new(alloc);
    for part in parts.as_slice() {
        line.push('[')?;
        line.push_str(part.as_str())?;
        line.push(']')?;
    }
    Ok(line)
}
