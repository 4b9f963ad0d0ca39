//! The fold of a log.
ghost use Rattle.std.specs.Prelude.{◌≡◌, ℕ, ◌<◌, ◌++◌, ◌∷◌, [], length, IfOk, IfErr, None, Some, if◌then◌else◌};
ghost use Rattle.std.specs.Option.{option_copied};
ghost use Rattle.std.specs.FinMap as fin;
ghost use Rattle.shape_base.specs.Log.{fold_op, value_in, replaced};
ghost use Rattle.shape_base.specs.Log as log;
ghost use Rattle.shape_base.specs.declared.entry.Op.TheVariants.{Insert, Update, Delete};
ghost use Rattle.shape_base.specs.Maps.{map_in};
ghost use Rattle.shape_model.specs.Maps.{pairs_of, Folds, FailsAt};

use shape_base::{
    Cell, Cells, Duplicate, Entries, Entry, KeyedRow, KeyedRows, Op, OutOfMemory, Text, Value,
    are_same_texts,
};
use std::alloc::Global;
use std::collections::BTreeMap;

/// What has no value.
#[derive(Debug, Drop)]
pub enum ModelError {
    /// The place of the first entry that does not find what it needs; places count from 0.
    BadFold { place: u64 },
    /// The least column that cannot be read, of the first row without a truth.
    BadValue { column: u32 },
    OutOfMemory,
}

impl From<OutOfMemory> for ModelError {
    ghost use Rattle.std.specs.Prelude.{◌≡◌};
    ghost use Rattle.shape_model.specs.declared.folds.ModelError.TheVariants as errors;

    ghost from_gives = { λ _ e. e ≡ errors.OutOfMemory };

    fn from(_error: OutOfMemory) -> ModelError {
        ModelError::OutOfMemory
    }
}

fn value_of<'a>(cells: &'a Cells, name: &Text) -> Option<&'a Value>
    ensures { option_copied result ≡ value_in cells.now name.now }
{
    for cell in cells.as_slice() {
        if are_same_texts(name, &cell.name) {
            return Some(&cell.value);
        }
    }
    None
}

fn with_value(alloc: Global, news: &Cells, cell: &Cell) -> Result<Cell, OutOfMemory>
    ensures { IfOk result (λ made. replaced news.now (cell.now ∷ []) ≡ made ∷ []) }
{
    let name = cell.name.copy(alloc)?;
    match value_of(news, &cell.name) {
        None => Ok(Cell {
            name,
            value: cell.value.copy(alloc)?,
        }),
        Some(value) => Ok(Cell {
            name,
            value: value.copy(alloc)?,
        }),
    }
}

fn with_values(alloc: Global, news: &Cells, cells: &Cells) -> Result<Cells, OutOfMemory>
    ensures { IfOk result (λ made. made ≡ replaced news.now cells.now) }
{
    let mut made = Cells::new(alloc);
    for cell in cells.as_slice() {
        made.push(with_value(alloc, news, cell)?)?;
    }
    Ok(made)
}

/// Rows by their keys.
pub(crate) type Shown = BTreeMap<Text, Cells>;

fn inserted(alloc: Global, shown: &mut Shown, entry: &Entry) -> Result<bool, OutOfMemory>
    ensures { IfOk result (λ done. fold_op Insert entry.now.key entry.now.cells (map_in shown.old) ≡ (if done then Some (map_in shown.new) else None)) }
{
    if shown.contains_key(&entry.key) {
        return Ok(false);
    }
    let key = entry.key.copy(alloc)?;
    let cells = entry.cells.copy(alloc)?;
    let _before = shown.insert(key, cells)?;
    Ok(true)
}

fn updated(alloc: Global, shown: &mut Shown, entry: &Entry) -> Result<bool, OutOfMemory>
    ensures { IfOk result (λ done. fold_op Update entry.now.key entry.now.cells (map_in shown.old) ≡ (if done then Some (map_in shown.new) else None)) }
{
    let cells = match shown.get(&entry.key) {
        None => return Ok(false),
        Some(cells) => with_values(alloc, &entry.cells, cells)?,
    };
    let key = entry.key.copy(alloc)?;
    let _before = shown.insert(key, cells)?;
    Ok(true)
}

fn deleted(shown: &mut Shown, entry: &Entry) -> bool
    ensures { fold_op Delete entry.now.key entry.now.cells (map_in shown.old) ≡ (if result then Some (map_in shown.new) else None) }
{
    shown.remove(&entry.key).is_some()
}

fn applied(alloc: Global, shown: &mut Shown, entry: &Entry) -> Result<bool, OutOfMemory>
    ensures { IfOk result (λ done. fold_op entry.now.op entry.now.key entry.now.cells (map_in shown.old) ≡ (if done then Some (map_in shown.new) else None)) }
{
    match entry.op {
        Op::Insert => inserted(alloc, shown, entry),
        Op::Update => updated(alloc, shown, entry),
        Op::Delete => Ok(deleted(shown, entry)),
    }
}

fn filled(alloc: Global, entries: &Entries) -> Result<Shown, ModelError>
    ensures folds { IfOk result (λ shown. log.fold entries.now ≡ Some (map_in shown)) }
    ensures fails { IfErr result (FailsAt entries.now) }
{
    let mut shown = Shown::new(alloc);
    for place in 0..entries.len() {
        if !applied(alloc, &mut shown, entries.at(place))? {
            return Err(ModelError::BadFold { place });
        }
    }
    Ok(shown)
}

/// The rows in byte order of their keys.
pub(crate) fn listed(alloc: Global, shown: &Shown) -> Result<KeyedRows, OutOfMemory>
    ensures { IfOk result (λ rows. fin.entries (map_in shown.now) ≡ pairs_of rows) }
{
    let mut rows = KeyedRows::new(alloc);
    for (key, cells) in shown {
        let row = KeyedRow {
            key: key.copy(alloc)?,
            cells: cells.copy(alloc)?,
        };
        rows.push(row)?;
    }
    Ok(rows)
}

/// The rows after the entries in order, in byte order of their keys: an insert adds a key with its
/// cells, an update replaces the named cells, a delete takes the key out.
///
/// Refuses `BadFold` at the first entry that inserts a key that is there, or that updates or
/// deletes one that is not.
pub fn fold(alloc: Global, entries: &Entries) -> Result<KeyedRows, ModelError>
    ensures ok { IfOk result (λ rows. Folds entries.now rows) }
    ensures bad { IfErr result (FailsAt entries.now) }
{
    let shown = filled(alloc, entries)?;
    Ok(listed(alloc, &shown)?)
}
