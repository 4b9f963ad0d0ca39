//! The truth of a row.
ghost use Rattle.std.specs.Prelude.{◌≡◌, ◌≤◌, length, List, false, ℕ, MatchOption, slice_index_or};
ghost use Rattle.shape_base.specs.declared.definition.Column.{Column};
ghost use Rattle.pg_values.specs.declared.kind.Kind.TheVariants.{Other};
ghost use Rattle.where_grammar.specs.Tree.{Tree};
ghost use Rattle.shape_base.specs.Shape.{IsLeast};
ghost use Rattle.where_eval.specs.Truth.{is_unreadable as cannot_be_read};
ghost use Rattle.where_eval.specs.Checked.{width, is_unread, IsChecked, IsTruth};

use crate::checked::Checked;
use crate::eval::value;
use crate::kinds::oid_of;
use crate::read_value::tri_of;
use pg_values::{Kind, has_value};
use shape_base::{BadValue, Row, Tri, Value};

fn is_unreadable(kind: Kind, value: &Value) -> bool
    ensures { result ≡ cannot_be_read kind value.now }
{
    match value {
        Value::Null => false,
        Value::Words(text) => !has_value(text.as_bytes(), oid_of(kind)),
    }
}

/// The kind under which a column is read.
fn kind_in(kinds: &[Kind], place: usize) -> Kind
    ensures { result ≡ slice_index_or kinds.now place Other }
{
    match kinds.get(place) {
        Some(kind) => *kind,
        None => Kind::Other,
    }
}

/// Whether the text in a place has no value.
fn is_unread_at(kinds: &[Kind], row: &[Value], place: usize) -> bool
    ensures { result ≡ is_unread kinds.now row.now place }
{
    match row.get(place) {
        Some(value) => is_unreadable(kind_in(kinds, place), value),
        None => false,
    }
}

/// The place of the first text without a value.
fn first_unread(kinds: &[Kind], row: &[Value]) -> Option<u32>
    requires narrow { length kinds.now ≤ 4294967296 }
    requires wide { length row.now ≡ length kinds.now }
    ensures { MatchOption result ((place : ℕ) → is_unread kinds.now row.now place ≡ false) (λ column. IsLeast (is_unread kinds.now row.now) column) }
{
    let mut place = 0;
    while place < kinds.len() {
        if is_unread_at(kinds, row, place) {
            return Some(place as u32);
        }
        place += 1;
    }
    None
}

/// The truth of a row that is as wide as the columns: for each clause and columns for which it was checked, the truth
/// of the row, or `BadValue` exactly where a column that the clause names holds a text without a value in its type,
/// with the least such column. Takes no memory.
pub fn truth(checked: &Checked, row: &Row) -> Result<Tri, BadValue>
    requires { length row.now ≡ width checked.now }
    ensures { (columns : List Column) (tree : Tree) → IsChecked checked.now columns tree → IsTruth columns tree row.now result }
{
    match first_unread(checked.kinds.as_slice(), row.as_slice()) {
        Some(column) => Err(BadValue { column }),
        None => Ok(tri_of(value(&checked.plan, row))),
    }
}
