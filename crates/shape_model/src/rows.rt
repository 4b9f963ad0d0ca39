//! The rows of a shape: the whole table is replayed, and then filtered.
ghost use Rattle.std.specs.Prelude.{◌≡◌, ◌≤◌, ◌++◌, true, false, is_none, length, map, Some, IfOk, IfErr, OnOk, slice_get};
ghost use Rattle.std.specs.Option.{option_map, option_to_list};
ghost use Rattle.std.specs.List.{AllByRecursion};
ghost use Rattle.std.specs.FinMap as fin;
ghost use Rattle.shape_base.specs.Maps.{map_in};
ghost use Rattle.shape_base.specs.Tables.{IsGoodHistory, def_after};
ghost use Rattle.shape_base.specs.Tables as Tables;
ghost use Rattle.shape_base.specs.Shape.{by_name, keyed, pick, shown, have_truths};
ghost use Rattle.shape_model.specs.Maps.{pairs_of};
ghost use Rattle.shape_model.specs.Rows.{AreShapeRows, CannotRead, HasUnread};

use super::folds::{ModelError, Shown, listed};
use super::keyed::{cells_at, in_name_order, key_text};
use super::tables::table_after;
use shape_base::{
    BadValue, History, KeyedRow, KeyedRows, OutOfMemory, Row, RowTest, Rows, is_selected,
};
use std::alloc::Global;

/// A row's key text with its selected cells, whose places stand in byte order of their names.
fn keyed_row<T: RowTest>(
    alloc: Global,
    test: &T,
    order: &[u32],
    row: &Row,
) -> Result<KeyedRow, OutOfMemory>
    requires { order.now ≡ by_name (T.knows test.now).definition (T.knows test.now).selected }
    ensures { IfOk result (λ made. (made.key, made.cells) ≡ keyed (T.knows test.now) row.now) }
{
    Ok(KeyedRow {
        key: key_text(alloc, test, row)?,
        cells: cells_at(alloc, test.definition(), order, row)?,
    })
}

/// Adds a row, where it is selected.
fn push_selected<T: RowTest>(
    alloc: Global,
    test: &T,
    order: &[u32],
    row: &Row,
    made: &mut KeyedRows,
) -> Result<(), ModelError>
    requires order { order.now ≡ by_name (T.knows test.now).definition (T.knows test.now).selected }
    requires wide { length row.now ≡ length (T.knows test.now).definition.columns }
    ensures more { OnOk result (pairs_of made.new ≡ pairs_of made.old ++ option_to_list (pick (T.knows test.now) (Some row.now))) }
    ensures read { OnOk result (is_none ((T.knows test.now).truth row.now) ≡ false) }
    ensures bad { IfErr result (CannotRead (T.knows test.now) (T.unread test.now) row.now) }
{
    match is_selected(test, row) {
        Ok(true) => {
            made.push(keyed_row(alloc, test, order, row)?)?;
            Ok(())
        }
        Ok(false) => Ok(()),
        Err(BadValue { column }) => Err(ModelError::BadValue { column }),
    }
}

/// The selected rows of a table, in its order.
fn selected_rows<T: RowTest>(
    alloc: Global,
    test: &T,
    order: &[u32],
    rows: &Rows,
) -> Result<KeyedRows, ModelError>
    requires order { order.now ≡ by_name (T.knows test.now).definition (T.knows test.now).selected }
    requires wide { AllByRecursion (λ row. length row ≡ length (T.knows test.now).definition.columns) rows.now }
    ensures shown { IfOk result (λ made. pairs_of made ≡ shown (T.knows test.now) rows.now) }
    ensures read { IfOk result (λ made. have_truths (T.knows test.now) rows.now ≡ true) }
    ensures bad { IfErr result (HasUnread (T.knows test.now) (T.unread test.now) rows.now) }
{
    let mut made = KeyedRows::new(alloc);
    for row in rows.as_slice() {
        push_selected(alloc, test, order, row, &mut made)?;
    }
    Ok(made)
}

/// Rows by their keys.
fn by_key(alloc: Global, rows: KeyedRows) -> Result<Shown, OutOfMemory>
    ensures { IfOk result (λ shown. map_in shown ≡ fin.from_entries (pairs_of rows)) }
{
    let mut rows = rows.into_vec();
    let mut shown = Shown::new(alloc);
    while let Some(row) = rows.pop() {
        let _before = shown.insert(row.key, row.cells)?;
    }
    Ok(shown)
}

/// The rows that a shape shows after the first `steps` steps of a history, in byte order of their
/// keys: the selected cells of each row of its table that has the truth true.
///
/// The history is a good one, the test's served table is the history's in that place, and its
/// definition is the table's after these steps. Refuses `BadValue` exactly where a row of the table
/// has no truth, at the first such row, with its least column that cannot be read.
pub fn shape_rows<T: RowTest>(
    alloc: Global,
    history: &History,
    test: &T,
    steps: u64,
) -> Result<KeyedRows, ModelError>
    requires good { IsGoodHistory history.now }
    requires there { steps ≤ length history.now.steps }
    requires served { slice_get history.now.tables (T.knows test.now).definition.table ≡ Some (T.knows test.now).served }
    requires defined { def_after history.now (T.knows test.now).definition.table steps ≡ Some (T.knows test.now).definition }
    ensures ok { IfOk result (AreShapeRows (T.knows test.now) (Tables.table_after history.now (T.knows test.now).definition.table steps)) }
    ensures bad { IfErr result (HasUnread (T.knows test.now) (T.unread test.now) (Tables.table_after history.now (T.knows test.now).definition.table steps)) }
{
    let definition = test.definition();
    let rows = table_after(alloc, history, definition.table, steps)?;
    let order = in_name_order(alloc, definition, test.selected().as_slice())?;
    let selected = selected_rows(alloc, test, order.as_slice(), &rows)?;
    let shown = by_key(alloc, selected)?;
    Ok(listed(alloc, &shown)?)
}
