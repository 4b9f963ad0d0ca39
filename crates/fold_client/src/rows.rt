//! Rows by their keys, under the entries of a log.
ghost use Rattle.std.specs.Prelude.{◌≡◌, List, unwrap_or, true, false, Option, Some, None, map, IfOk, OnOk, if◌then◌else◌};
ghost use Rattle.std.specs.Option.{option_copied};
ghost use Rattle.std.specs.FinMap as fin;
ghost use Rattle.shape_base.specs.declared.entry.Cell.{Cell};
ghost use Rattle.shape_base.specs.Log.{replaced, value_in};
ghost use Rattle.shape_base.specs.Maps.{map_in};
ghost use Rattle.fold_client.specs.Rows.{keyed_row, restored, undone, IsFolded, Steps};

use shape_base::{
    Cell, Cells, Duplicate, Entry, KeyedRow, KeyedRows, Offset, Op, OutOfMemory, Text,
    are_same_texts,
};
use std::alloc::Global;
use std::collections::{BTreeMap, HashMap};
use std::marker::Model;

/// An entry that could not be folded: it inserts a key that is there, or updates or deletes one that is not.
#[derive(Drop)]
pub struct Fault {
    pub offset: Offset,
    pub key: Text,
}

/// Rows by their key texts, which are found by their hashes: a contract sees the map from each key text to the row's cells.
#[derive(Drop)]
pub struct FoldedRows {
    alloc: Global,
    rows: HashMap<String, Cells>,
}

impl Model for FoldedRows {
    ghost use Rattle.shape_base.specs.Shape.{Map};
    ghost use Rattle.fold_client.specs.Coded.{rows_code};
    ghost use Rattle.fold_client.specs.Hashed.{rows_in};

    ghost Value = { Map };

    ghost coded = { rows_code };

    ghost view = { λ r. rows_in r.rows };
}

/// What stood under a key before an entry was folded.
#[derive(Drop)]
struct Undo {
    key: Text,
    before: Option<Cells>,
}

/// The value of the first cell of that name, or the cell's own.
fn replaced_cell(alloc: Global, cell: &Cell, news: &Cells) -> Result<Cell, OutOfMemory>
    ensures { IfOk result (λ made. made ≡ record { name = cell.now.name; value = unwrap_or (value_in news.now cell.now.name) cell.now.value }) }
{
    for new in news.as_slice() {
        if are_same_texts(&cell.name, &new.name) {
            return Ok(Cell {
                name: cell.name.copy(alloc)?,
                value: new.value.copy(alloc)?,
            });
        }
    }
    cell.copy(alloc)
}

/// The cells, where those that are named have new values.
fn replaced_cells(alloc: Global, cells: &Cells, news: &Cells) -> Result<Cells, OutOfMemory>
    ensures { IfOk result (λ made. made ≡ replaced news.now cells.now) }
{
    let mut made = Cells::new(alloc);
    for cell in cells.as_slice() {
        made.push(replaced_cell(alloc, cell, news)?)?;
    }
    Ok(made)
}

impl FoldedRows {
    /// No rows.
    pub fn new(alloc: Global) -> FoldedRows
        ensures { result ≡ fin.empty }
    {
        FoldedRows {
            alloc,
            rows: HashMap::new(alloc),
        }
    }

    /// The cells under a key.
    fn get(&self, key: &Text) -> Option<&Cells>
        ensures { option_copied result ≡ fin.get self.now key.now }
    {
        self.rows.get(key.as_str())
    }

    /// Puts cells under a key. It gives what stood there.
    fn put(&mut self, key: &Text, cells: Cells) -> Result<Option<Cells>, OutOfMemory>
        ensures { IfOk result (λ before. (before ≡ fin.get self.old key.now) × (self.new ≡ fin.insert self.old key.now cells)) }
    {
        let key = String::from_str(self.alloc, key.as_str())?;
        Ok(self.rows.insert(key, cells)?)
    }

    /// Takes out what stands under a key.
    fn take_out(&mut self, key: &Text) -> Option<Cells>
        ensures before { result ≡ fin.get self.old key.now }
        ensures after { self.new ≡ fin.remove self.old key.now }
    {
        self.rows.remove(key.as_str())
    }

    /// Puts back what stood under a key.
    fn restore(&mut self, undo: Undo) -> Result<(), OutOfMemory>
        ensures { OnOk result (self.new ≡ restored undo.key undo.before self.old) }
    {
        let Undo { key, before } = undo;
        match before {
            Some(cells) => {
                let _now = self.put(&key, cells)?;
                Ok(())
            }
            None => {
                let _now = self.take_out(&key);
                Ok(())
            }
        }
    }

    fn insert(&mut self, entry: Entry) -> Result<Result<Undo, Fault>, OutOfMemory>
        ensures { IfOk result (Steps Op.Insert entry self.old self.new) }
    {
        let Entry {
            offset,
            key,
            cells,
            ..
        } = entry;
        match self.put(&key, cells)? {
            None => Ok(Ok(Undo { key, before: None })),
            Some(before) => {
                let _cells = self.put(&key, before)?;
                Ok(Err(Fault { offset, key }))
            }
        }
    }

    fn update(&mut self, entry: Entry) -> Result<Result<Undo, Fault>, OutOfMemory>
        ensures { IfOk result (Steps Op.Update entry self.old self.new) }
    {
        let Entry {
            offset,
            key,
            cells,
            ..
        } = entry;
        match self.get(&key) {
            None => Ok(Err(Fault { offset, key })),
            Some(before) => {
                let replaced = replaced_cells(self.alloc, before, &cells)?;
                let stood = self.put(&key, replaced)?;
                Ok(Ok(Undo { key, before: stood }))
            }
        }
    }

    fn delete(&mut self, entry: Entry) -> Result<Undo, Fault>
        ensures { Steps Op.Delete entry self.old self.new result }
    {
        let Entry { offset, key, .. } = entry;
        match self.take_out(&key) {
            None => Err(Fault { offset, key }),
            Some(before) => Ok(Undo {
                key,
                before: Some(before),
            }),
        }
    }

    /// Folds one entry, where it finds what it needs.
    fn fold_one(&mut self, entry: Entry) -> Result<Result<Undo, Fault>, OutOfMemory>
        ensures { IfOk result (Steps entry.op entry self.old self.new) }
    {
        match entry.op {
            Op::Insert => self.insert(entry),
            Op::Update => self.update(entry),
            Op::Delete => Ok(self.delete(entry)),
        }
    }

    /// Undoes what was folded, the last first.
    fn undo(&mut self, mut folded: Vec<Undo>) -> Result<(), OutOfMemory>
        ensures { OnOk result (self.new ≡ undone folded.items self.old) }
    {
        while let Some(last) = folded.pop() {
            self.restore(last)?;
        }
        Ok(())
    }

    /// Folds entries, each of which finds what it needs in the rows after those before it.
    ///
    /// Where one does not, the first such entry is named, and the rows are as they were. After want of memory nothing is said of the rows.
    pub fn fold(&mut self, entries: Vec<Entry>) -> Result<Option<Fault>, OutOfMemory>
        ensures { IfOk result (IsFolded entries.items self.old self.new) }
    {
        let mut folded = Vec::new(self.alloc);
        for entry in entries {
            match self.fold_one(entry)? {
                Ok(undo) => folded.push(undo)?,
                Err(fault) => {
                    self.undo(folded)?;
                    return Ok(Some(fault));
                }
            }
        }
        Ok(None)
    }

    /// Copies of the rows, by their keys in byte order.
    fn in_order(&self) -> Result<BTreeMap<Text, Cells>, OutOfMemory>
        ensures { IfOk result (λ rows. map_in rows ≡ self.now) }
    {
        let mut ordered = BTreeMap::new(self.alloc);
        for (key, cells) in &self.rows {
            let twin = Text::of(self.alloc, key.as_str())?;
            let copied = cells.copy(self.alloc)?;
            let _none = ordered.insert(twin, copied)?;
        }
        Ok(ordered)
    }

    /// The rows in byte order of their keys, copied.
    pub fn rows(&self) -> Result<KeyedRows, OutOfMemory>
        ensures { IfOk result (λ rows. rows ≡ map keyed_row (fin.entries self.now)) }
    {
        let mut made = KeyedRows::new(self.alloc);
        let ordered = self.in_order()?;
        for (key, cells) in ordered {
            made.push(KeyedRow { key, cells })?;
        }
        Ok(made)
    }
}
