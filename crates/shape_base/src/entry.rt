//! Entries of logs, and rows by their keys.
ghost use Rattle.std.specs.Prelude.{◌≡◌, IfOk};

use super::memory::{Duplicate, OutOfMemory};
use super::offset::Offset;
use super::seq::Seq;
use super::text::Text;
use super::value::Value;
use std::alloc::Global;

/// What an entry does to the row with its key.
#[derive(Clone, Copy, Debug, PartialEq, Eq)]
pub enum Op {
    Insert,
    Update,
    Delete,
}

/// The value of a row in the column of that name.
#[derive(PartialEq, Eq, Drop)]
pub struct Cell {
    pub name: Text,
    pub value: Value,
}

/// Cells of one row, in byte order of their names.
pub type Cells = Seq<Cell>;

/// The selected cells of a row, with its key text.
#[derive(Drop)]
pub struct KeyedRow {
    pub key: Text,
    pub cells: Cells,
}

/// Rows by their keys; where they are a client's, in byte order of the keys.
pub type KeyedRows = Seq<KeyedRow>;

/// An entry of a log.
#[derive(Drop)]
pub struct Entry {
    /// Its place in the log.
    pub offset: Offset,
    pub op: Op,
    /// The key text of its row.
    pub key: Text,
    /// The cells that an insert has, those that an update changes, none of a delete.
    pub cells: Cells,
}

/// Entries of one log, in order.
pub type Entries = Seq<Entry>;

impl Duplicate for Cell {
    fn copy(&self, alloc: Global) -> Result<Cell, OutOfMemory> {
        Ok(Cell {
            name: self.name.copy(alloc)?,
            value: self.value.copy(alloc)?,
        })
    }
}

impl Duplicate for KeyedRow {
    fn copy(&self, alloc: Global) -> Result<KeyedRow, OutOfMemory> {
        Ok(KeyedRow {
            key: self.key.copy(alloc)?,
            cells: self.cells.copy(alloc)?,
        })
    }
}

impl Duplicate for Entry {
    fn copy(&self, alloc: Global) -> Result<Entry, OutOfMemory> {
        Ok(Entry {
            offset: self.offset,
            op: self.op,
            key: self.key.copy(alloc)?,
            cells: self.cells.copy(alloc)?,
        })
    }
}
