//! Entries and controls as words of a line.
use cases::{bytes_of, cut};
use shape_base::{Cell, Cells, Entries, Entry, Offset, Op, OutOfMemory, Text, Value};
use shape_json::Control;
use std::alloc::Global;

/// The text of a word, in which a backslash and two hexadecimal digits stand for one byte; none where it is not UTF-8.
fn text_of(alloc: Global, word: &str) -> Result<Option<Text>, OutOfMemory> {
    Ok(Text::from_bytes(bytes_of(alloc, word)?).ok())
}

/// The cell of a name and a value.
fn cell_of(alloc: Global, text: &str) -> Result<Option<Cell>, OutOfMemory> {
    let (name, value) = cut(text, '=');
    let Some(name) = text_of(alloc, name)? else {
        return Ok(None);
    };
    if value == "\\N" {
        return Ok(Some(Cell {
            name,
            value: Value::Null,
        }));
    }
    let Some(words) = text_of(alloc, value)? else {
        return Ok(None);
    };
    Ok(Some(Cell {
        name,
        value: Value::Words(words),
    }))
}

/// The cells of a text; none for `-`.
fn cells_of(alloc: Global, text: &str) -> Result<Cells, OutOfMemory> {
    let mut cells = Cells::new(alloc);
    if text == "-" {
        return Ok(cells);
    }
    for part in text.split(',') {
        if let Some(cell) = cell_of(alloc, part)? {
            cells.push(cell)?;
        }
    }
    Ok(cells)
}

fn op_of(word: &str) -> Op {
    match word {
        "insert" => Op::Insert,
        "update" => Op::Update,
        _ => Op::Delete,
    }
}

/// The entry of four words; none where its key is not UTF-8 or its offset is none.
pub(crate) fn entry_of(alloc: Global, text: &str) -> Result<Option<Entry>, OutOfMemory> {
    let (op, rest) = cut(text, ' ');
    let (key, rest) = cut(rest, ' ');
    let (offset, cells) = cut(rest, ' ');
    let Some(key) = text_of(alloc, key)? else {
        return Ok(None);
    };
    let Ok(offset) = Offset::read(offset.as_bytes()) else {
        return Ok(None);
    };
    Ok(Some(Entry {
        offset,
        op: op_of(op),
        key,
        cells: cells_of(alloc, cells)?,
    }))
}

/// The entries of a text, with a semicolon and a blank between them.
pub(crate) fn entries_of(alloc: Global, text: &str) -> Result<Entries, OutOfMemory> {
    let mut entries = Entries::new(alloc);
    for part in text.split("; ") {
        if let Some(entry) = entry_of(alloc, part)? {
            entries.push(entry)?;
        }
    }
    Ok(entries)
}

pub(crate) fn control_of(word: &str) -> Control {
    match word {
        "up-to-date" => Control::UpToDate,
        "must-refetch" => Control::MustRefetch,
        _ => Control::Nothing,
    }
}
