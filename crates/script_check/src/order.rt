//! Rows that are equal up to their order.
ghost use Rattle.std.specs.Prelude.{◌≡◌, ◌<◌, length, IfOk, MatchBool, MatchOption, false, slice_index_or};
ghost use Rattle.std.specs.List.{list_any};
ghost use Rattle.std.specs.List.Sorted.{IsPermutation};
ghost use Rattle.shape_base.specs.Tables.{same_row};

use shape_base::{Duplicate, OutOfMemory, Row, Rows, are_same_rows};
use std::alloc::Global;

/// The place of the first row that is equal to one.
fn place_of(rows: &Rows, row: &Row) -> Option<u64>
    ensures { MatchOption result (list_any (same_row row.now) rows.now ≡ false) (λ p. (p < length rows.now) × (row.now ≡ slice_index_or rows.now p row.now)) }
{
    for place in 0..rows.len() {
        if are_same_rows(row, rows.at(place)) {
            return Some(place);
        }
    }
    None
}

/// Whether two lists have the same rows, each as many times, in any order.
pub fn are_same_up_to_order(alloc: Global, rows: &Rows, others: &Rows) -> Result<bool, OutOfMemory>
    ensures { IfOk result (λ same. MatchBool same (IsPermutation rows.now others.now) (IsPermutation rows.now others.now → ⊥)) }
{
    let mut left = others.copy(alloc)?;
    for place in 0..rows.len() {
        match place_of(&left, rows.at(place)) {
            None => return Ok(false),
            Some(found) => left.remove(found),
        }
    }
    if left.len() > 0 {
        return Ok(false);
    }
    Ok(true)
}
