//! The cells of a row.
ghost use Rattle.std.specs.Prelude.{◌≡◌, ◌<◌, length, map, IfOk};
ghost use Rattle.std.specs.List.{AllByRecursion};
ghost use Rattle.shape_base.specs.Shape.{cell_at, same_cell, differing};

use crate::order::name_of;
use shape_base::{Cell, Cells, Duplicate, OutOfMemory, Row, Seq, TableDef, are_same_values};
use std::alloc::Global;

fn cell_at(alloc: Global, definition: &TableDef, row: &Row, place: u32) -> Result<Cell, OutOfMemory>
    requires place { place < length definition.now.columns }
    requires wide { length row.now ≡ length definition.now.columns }
    ensures { IfOk result (λ cell. cell ≡ cell_at definition.now row.now place) }
{
    let name = name_of(definition, place).copy(alloc)?;
    let value = row.at(u64::from(place)).copy(alloc)?;
    Ok(Cell { name, value })
}

/// The cells at these places.
pub(crate) fn cells_at(
    alloc: Global,
    definition: &TableDef,
    order: &[u32],
    row: &Row,
) -> Result<Cells, OutOfMemory>
    requires places { AllByRecursion (λ p. p < length definition.now.columns) order.now }
    requires wide { length row.now ≡ length definition.now.columns }
    ensures { IfOk result (λ cells. cells ≡ map (cell_at definition.now row.now) order.now) }
{
    let mut cells = Vec::with_capacity(alloc, order.len())?;
    for place in order {
        cells.push(cell_at(alloc, definition, row, *place)?)?;
    }
    Ok(Seq::from_vec(cells))
}

/// Whether the cells of two rows at a place are equal.
#[tactic(auto, using(crate::proofs::CellLaws::same_cells_at))]
fn have_same_cell(definition: &TableDef, old: &Row, new: &Row, place: u32) -> bool
    requires place { place < length definition.now.columns }
    requires old { length old.now ≡ length definition.now.columns }
    requires new { length new.now ≡ length definition.now.columns }
    ensures { result ≡ same_cell (cell_at definition.now old.now place) (cell_at definition.now new.now place) }
{
    are_same_values(old.at(u64::from(place)), new.at(u64::from(place)))
}

/// The new cells at those of these places where the rows have different values.
pub(crate) fn cells_that_differ(
    alloc: Global,
    definition: &TableDef,
    order: &[u32],
    old: &Row,
    new: &Row,
) -> Result<Cells, OutOfMemory>
    requires places { AllByRecursion (λ p. p < length definition.now.columns) order.now }
    requires old { length old.now ≡ length definition.now.columns }
    requires new { length new.now ≡ length definition.now.columns }
    ensures { IfOk result (λ cells. cells ≡ differing (map (cell_at definition.now old.now) order.now) (map (cell_at definition.now new.now) order.now)) }
{
    let mut cells = Vec::new(alloc);
    for place in order {
        if !have_same_cell(definition, old, new, *place) {
            cells.push(cell_at(alloc, definition, new, *place)?)?;
        }
    }
    Ok(Seq::from_vec(cells))
}
