//! Columns by their names.
ghost use Rattle.std.specs.Prelude.{◌≡◌, ◌<◌, ◌^◌, length, is_none, IfOk};
ghost use Rattle.std.specs.List.{list_any};
ghost use Rattle.shape_base.specs.Tables.{place_of, places_of};
ghost use Rattle.shape_def.specs.Definition.{has_strange_name};

use column_names::ColumnNames;
use shape_base::{OutOfMemory, Places, Texts};
use std::alloc::Global;

/// The places of the columns of these names, where all of them are there.
pub(crate) fn places_of(
    alloc: Global,
    columns: &ColumnNames,
    names: &Texts,
) -> Result<Option<Places>, OutOfMemory>
    requires { length columns.now < 2 ^ 32 }
    ensures { IfOk result (λ found. found ≡ places_of columns.now names.now) }
{
    let mut found = Places::new(alloc);
    for name in names.as_slice() {
        match columns.place_of(name) {
            None => return Ok(None),
            Some(place) => found.push(place as u32)?,
        }
    }
    Ok(Some(found))
}

/// Whether some chosen name is no column's.
pub(crate) fn has_strange_name(columns: &ColumnNames, names: &Option<Texts>) -> bool
    ensures { result ≡ has_strange_name (place_of columns.now) names.now }
{
    if let Some(names) = names {
        return has_strange(columns, names);
    }
    false
}

fn has_strange(columns: &ColumnNames, names: &Texts) -> bool
    ensures { result ≡ list_any (λ name. is_none (place_of columns.now name)) names.now }
{
    for name in names.as_slice() {
        if columns.place_of(name).is_none() {
            return true;
        }
    }
    false
}
