//! Entries to write, and counts of what was written or read.
use shape_base::{Cell, Cells, Entries, Entry, Offset, Op, Text, Value};
use std::alloc::{AllocError, Global};

/// How many bodies there were, with how many entries and bytes. Counts that would not fit end at 2^64 - 1.
#[derive(Drop)]
pub(crate) struct Counts {
    pub(crate) bodies: u64,
    pub(crate) entries: u64,
    pub(crate) bytes: u64,
}

impl Counts {
    pub(crate) fn new() -> Counts {
        Counts {
            bodies: 0,
            entries: 0,
            bytes: 0,
        }
    }

    pub(crate) fn add(&mut self, entries: &Entries, body: &[u8]) {
        self.bodies = self.bodies.saturating_add(1);
        self.entries = self.entries.saturating_add(entries.len());
        self.bytes = self.bytes.saturating_add(body.len() as u64);
    }
}

fn cell(alloc: Global, name: &str, words: String) -> Result<Cell, AllocError> {
    Ok(Cell {
        name: Text::of(alloc, name).map_err(|_| AllocError)?,
        value: Value::Words(Text::from_string(words)),
    })
}

fn cells_of(alloc: Global, number: u64) -> Result<Cells, AllocError> {
    let mut cells = Cells::new(alloc);
    let cell_of = [
        cell(alloc, "id", format!(in alloc; "{number}")?)?,
        cell(alloc, "n", format!(in alloc; "{}", number % 1000)?)?,
        cell(alloc, "s", format!(in alloc; "a row with \"quotes\"")?)?,
    ];
    for cell in cell_of {
        cells.push(cell).map_err(|_| AllocError)?;
    }
    Ok(cells)
}

/// So many inserts, as of one commit.
pub(crate) fn entries_of(alloc: Global, count: u64) -> Result<Entries, AllocError> {
    let mut entries = Entries::new(alloc);
    for number in 0..count {
        let key = format!(in alloc; "\"public\".\"items\"/\"{number}\"")?;
        let entry = Entry {
            offset: Offset::At {
                lsn: 100,
                pos: number,
            },
            op: Op::Insert,
            key: Text::from_string(key),
            cells: cells_of(alloc, number)?,
        };
        entries.push(entry).map_err(|_| AllocError)?;
    }
    Ok(entries)
}
