//! The key text of a row, and its selected cells.
ghost use Rattle.std.specs.Prelude.{◌≡◌, ◌≤◌, ◌++◌, ◌∷◌, length, map, take, drop, IfOk, OnOk, slice_index_or};
ghost use Rattle.std.specs.Str.{IsUtf8};
ghost use Rattle.std.specs.Ordering.{nat_cmp, is_lt};
ghost use Rattle.std.specs.Cmp.Lexicographic.{slice_cmp};
ghost use Rattle.shape_base.specs.declared.value.Value.TheVariants.{Null};
ghost use Rattle.shape_base.specs.Shape.{quoted, name_at, by_name};
ghost use Rattle.shape_base.specs.Shape as shape;
ghost use Rattle.shape_model.specs.Checks.{values_text};

use super::keys::push_value;
use shape_base::{
    Cell, Cells, Duplicate, OutOfMemory, Row, RowTest, Served, TableDef, Text, Value, push_quoted,
};
use std::alloc::Global;

/// The namespace and the name of a table in quotes, joined by a dot.
fn table_text(alloc: Global, served: &Served) -> Result<Vec<u8>, OutOfMemory>
    ensures text { IfOk result (λ text. text.items ≡ quoted served.now.ns ++ 46 ∷ quoted served.now.name) }
    ensures utf8 { IfOk result (λ text. IsUtf8 text.items) }
{
    let mut text = Vec::new(alloc);
    let ns = served.ns.as_bytes();
    let name = served.name.as_bytes();
    push_quoted(&mut text, ns)?;
    text.push(b'.')?;
    push_quoted(&mut text, name)?;
    Ok(text)
}

/// Adds the texts of the values in these places.
fn push_values(out: &mut Vec<u8>, key: &[u32], row: &Row) -> Result<(), OutOfMemory>
    ensures more { OnOk result (out.new.items ≡ out.old.items ++ values_text key.now row.now) }
    ensures utf8 { OnOk result (IsUtf8 out.old.items → IsUtf8 out.new.items) }
{
    for place in key {
        push_value(out, row, u64::from(*place))?;
    }
    Ok(())
}

/// The key text of a row.
pub(crate) fn key_text<T: RowTest>(alloc: Global, test: &T, row: &Row) -> Result<Text, OutOfMemory>
    ensures { IfOk result (λ text. text ≡ shape.key_text (T.knows test.now) row.now) }
{
    let mut text = table_text(alloc, test.served())?;
    push_values(&mut text, test.key().as_slice(), row)?;
    Ok(Text::of_bytes(text))
}

/// The name of the column in a place; an empty one where there is no column.
fn name_of(definition: &TableDef, place: u32) -> &[u8]
    ensures name { result.now ≡ name_at definition.now place }
    ensures utf8 { IsUtf8 result.now }
{
    match definition.columns.as_slice().get(place as usize) {
        Some(column) => column.name.as_bytes(),
        None => b"",
    }
}

/// Whether a column comes before another, in byte order of their names.
fn comes_before(definition: &TableDef, place: u32, other: u32) -> bool
    ensures { result ≡ is_lt (slice_cmp nat_cmp (name_at definition.now place) (name_at definition.now other)) }
{
    let name = name_of(definition, place);
    name.cmp(name_of(definition, other)).is_lt()
}

/// How many of these places stand before one, in byte order of their columns' names.
fn count_before(definition: &TableDef, order: &[u32], place: u32) -> usize
    ensures bound { result ≤ length order.now }
    ensures put { shape.put_place definition.now place order.now ≡ take result order.now ++ place ∷ drop result order.now }
{
    for (index, other) in order.iter().enumerate() {
        if comes_before(definition, place, *other) {
            return index;
        }
    }
    order.len()
}

/// Puts a place among others, in byte order of their columns' names.
fn put_place(definition: &TableDef, order: &mut Vec<u32>, place: u32) -> Result<(), OutOfMemory>
    ensures { OnOk result (order.new.items ≡ shape.put_place definition.now place order.old.items) }
{
    let index = count_before(definition, order.as_slice(), place);
    order.insert(index, place)?;
    Ok(())
}

/// These places, in byte order of their columns' names.
pub(crate) fn in_name_order(
    alloc: Global,
    definition: &TableDef,
    places: &[u32],
) -> Result<Vec<u32>, OutOfMemory>
    ensures { IfOk result (λ order. order.items ≡ by_name definition.now places.now) }
{
    let mut order = Vec::new(alloc);
    let mut left = places.len();
    while left > 0 {
        left -= 1;
        put_place(definition, &mut order, places[left])?;
    }
    Ok(order)
}

/// A copy of the value in a place; null where the row has none.
fn value_at(alloc: Global, row: &Row, place: u32) -> Result<Value, OutOfMemory>
    ensures { IfOk result (λ value. value ≡ slice_index_or row.now place Null) }
{
    match row.as_slice().get(place as usize) {
        Some(value) => value.copy(alloc),
        None => Ok(Value::Null),
    }
}

fn cell_at(alloc: Global, definition: &TableDef, row: &Row, place: u32) -> Result<Cell, OutOfMemory>
    ensures { IfOk result (λ cell. cell ≡ shape.cell_at definition.now row.now place) }
{
    let name = Vec::from_slice(alloc, name_of(definition, place))?;
    let value = value_at(alloc, row, place)?;
    Ok(Cell {
        name: Text::of_bytes(name),
        value,
    })
}

/// A row's cells in these places.
pub(crate) fn cells_at(
    alloc: Global,
    definition: &TableDef,
    order: &[u32],
    row: &Row,
) -> Result<Cells, OutOfMemory>
    ensures { IfOk result (λ cells. cells ≡ map (shape.cell_at definition.now row.now) order.now) }
{
    let mut cells = Cells::new(alloc);
    for place in order {
        cells.push(cell_at(alloc, definition, row, *place)?)?;
    }
    Ok(cells)
}
