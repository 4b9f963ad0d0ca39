//! Rows, and the pages of a log that has them.
use shape_base::{Cell, Cells, Entries, Entry, KeyedRow, Offset, Op, Text, Value};
use std::alloc::{AllocError, Global};

/// How many rows a page of the snapshot has: with three cells each its body has about 64 KiB.
pub(crate) const PAGE: u64 = 500;

/// By how much the number of each row is above that of the one before it, round the number of rows.
const STEP: u64 = 7919;

fn cell(alloc: Global, name: &str, words: String) -> Result<Cell, AllocError> {
    Ok(Cell {
        name: Text::of(alloc, name).map_err(|_| AllocError)?,
        value: Value::Words(Text::from_string(words)),
    })
}

/// The key text of the row at a place: numbers are far from in order.
fn key_of(alloc: Global, place: u64, rows: u64) -> Result<Text, AllocError> {
    let number = match place.wrapping_mul(STEP).checked_rem(rows) {
        Some(number) => number,
        None => place,
    };
    let key = format!(in alloc; "\"public\".\"items\"/\"{number}\"")?;
    Ok(Text::from_string(key))
}

fn cells_of(alloc: Global, place: u64) -> Result<Cells, AllocError> {
    let mut cells = Cells::new(alloc);
    let cell_of = [
        cell(alloc, "id", format!(in alloc; "{place}")?)?,
        cell(alloc, "n", format!(in alloc; "{}", place % 1000)?)?,
        cell(alloc, "s", format!(in alloc; "a row with \"quotes\"")?)?,
    ];
    for cell in cell_of {
        cells.push(cell).map_err(|_| AllocError)?;
    }
    Ok(cells)
}

/// The row at a place.
pub(crate) fn row_at(alloc: Global, place: u64, rows: u64) -> Result<KeyedRow, AllocError> {
    Ok(KeyedRow {
        key: key_of(alloc, place, rows)?,
        cells: cells_of(alloc, place)?,
    })
}

/// The inserts of the rows from one place up to another, as of one commit.
pub(crate) fn inserts(
    alloc: Global,
    from: u64,
    end: u64,
    rows: u64,
) -> Result<Entries, AllocError> {
    let mut entries = Entries::new(alloc);
    for place in from..end {
        let entry = Entry {
            offset: Offset::At { lsn: 0, pos: place },
            op: Op::Insert,
            key: key_of(alloc, place, rows)?,
            cells: cells_of(alloc, place)?,
        };
        entries.push(entry).map_err(|_| AllocError)?;
    }
    Ok(entries)
}

/// The update of that number, from 0 on, alone: of one cell of one row, as of a commit of its own.
pub(crate) fn update(alloc: Global, number: u64, rows: u64) -> Result<Entries, AllocError> {
    let mut cells = Cells::new(alloc);
    let words = format!(in alloc; "{number}")?;
    cells
        .push(cell(alloc, "n", words)?)
        .map_err(|_| AllocError)?;
    let mut entries = Entries::new(alloc);
    let entry = Entry {
        offset: Offset::At {
            lsn: number.saturating_add(1),
            pos: 0,
        },
        op: Op::Update,
        key: key_of(alloc, number.wrapping_mul(STEP), rows)?,
        cells,
    };
    entries.push(entry).map_err(|_| AllocError)?;
    Ok(entries)
}
