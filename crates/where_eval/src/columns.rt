//! Kinds of columns.
ghost use Rattle.std.specs.Prelude.{◌≡◌};
ghost use Rattle.where_eval.specs.Kinds.{kind_at as kind_in};

use column_names::ColumnNames;
use pg_values::{Kind, kind_of};

/// The kind of the column in a place.
pub fn kind_at(columns: &ColumnNames, place: u64) -> Kind
    ensures { result ≡ kind_in columns.now place }
{
    match columns.columns().as_slice().get(place as usize) {
        Some(column) => kind_of(column.oid),
        None => Kind::Other,
    }
}
