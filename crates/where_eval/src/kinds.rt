//! The kinds of a clause's parts.
ghost use Rattle.std.specs.Prelude.{◌≡◌, ◌∷◌, []};
ghost use Rattle.std.specs.List.{list_all};
ghost use Rattle.pg_values.specs.Values.{kind_under};
ghost use Rattle.shape_base.specs.Tables.{place_of as place_in};
ghost use Rattle.where_parser.specs.View.{tree_of, trees_of};
ghost use Rattle.where_eval.specs.Leaves.{listed};
ghost use Rattle.where_eval.specs.Kinds.{kind_of_part, kind_in_place, common, or_kind as or_other, is_of_class as of_class, suits as may_stand, is_bad_literal as bad_literal};

use crate::columns::kind_at;
use column_names::ColumnNames;
use pg_values::{Kind, has_value};
use shape_base::Text;
use where_parser::{Expr, Exprs};

/// An OID of a type of this kind.
pub fn oid_of(kind: Kind) -> u32
    ensures { kind_under result ≡ kind }
{
    match kind {
        Kind::Boolean => 16,
        Kind::BigInt => 20,
        Kind::SmallInt => 21,
        Kind::Integer => 23,
        Kind::Text => 25,
        Kind::Uuid => 2950,
        Kind::Other => 0,
    }
}

/// The kind of a name's column.
fn kind_of_name(columns: &ColumnNames, name: &Text) -> Kind
    ensures { result ≡ kind_in_place columns.now (place_in columns.now name.now) }
{
    match columns.place_of(name) {
        Some(place) => kind_at(columns, place),
        None => Kind::Other,
    }
}

/// The kind of a part; a string and NULL have none of their own.
fn part_kind(columns: &ColumnNames, part: &Expr) -> Option<Kind>
    ensures { result ≡ kind_of_part columns.now (tree_of part.now) }
{
    match part {
        Expr::Name(name) => Some(kind_of_name(columns, name)),
        Expr::Int(_) => Some(Kind::BigInt),
        Expr::Quoted(_) | Expr::Null => None,
        _ => Some(Kind::Boolean),
    }
}

/// The kind, or the other where there is none.
fn or_kind(kind: Option<Kind>, other: Kind) -> Kind
    ensures { result ≡ or_other kind other }
{
    match kind {
        Some(kind) => kind,
        None => other,
    }
}

/// The first kind among the members, or text.
fn list_kind(columns: &ColumnNames, list: &Exprs) -> Kind
    ensures { result ≡ common columns.now (listed (trees_of list.now)) }
{
    let mut left = list;
    while let Exprs::More { first, rest } = left {
        if let Some(kind) = part_kind(columns, first) {
            return kind;
        }
        left = rest;
    }
    Kind::Text
}

/// The kind that two parts are compared under.
pub fn kind_of_two(columns: &ColumnNames, left: &Expr, right: &Expr) -> Kind
    ensures { result ≡ common columns.now (tree_of left.now ∷ tree_of right.now ∷ []) }
{
    or_kind(
        part_kind(columns, left),
        or_kind(part_kind(columns, right), Kind::Text),
    )
}

/// The kind that three parts are compared under.
pub fn kind_of_three(columns: &ColumnNames, left: &Expr, low: &Expr, high: &Expr) -> Kind
    ensures { result ≡ common columns.now (tree_of left.now ∷ tree_of low.now ∷ tree_of high.now ∷ []) }
{
    or_kind(part_kind(columns, left), kind_of_two(columns, low, high))
}

/// The kind that a part is compared under with the members of a list.
pub fn kind_of_list(columns: &ColumnNames, left: &Expr, list: &Exprs) -> Kind
    ensures { result ≡ common columns.now (tree_of left.now ∷ listed (trees_of list.now)) }
{
    or_kind(part_kind(columns, left), list_kind(columns, list))
}

/// Whether two kinds are of one class; the last kind is in none.
fn is_of_class(kind: Kind, other: Kind) -> bool
    ensures { result ≡ of_class kind other }
{
    match kind {
        Kind::Boolean => matches!(other, Kind::Boolean),
        Kind::SmallInt | Kind::Integer | Kind::BigInt => {
            matches!(other, Kind::SmallInt | Kind::Integer | Kind::BigInt)
        }
        Kind::Text => matches!(other, Kind::Text),
        Kind::Uuid => matches!(other, Kind::Uuid),
        Kind::Other => false,
    }
}

/// Whether the part may stand where the kind is asked for.
pub fn suits(columns: &ColumnNames, kind: Kind, part: &Expr) -> bool
    ensures { result ≡ may_stand columns.now kind (tree_of part.now) }
{
    match part_kind(columns, part) {
        Some(other) => is_of_class(kind, other),
        None => true,
    }
}

/// Whether each member may.
pub fn all_suit(columns: &ColumnNames, kind: Kind, list: &Exprs) -> bool
    ensures { result ≡ list_all (may_stand columns.now kind) (listed (trees_of list.now)) }
{
    let mut left = list;
    while let Exprs::More { first, rest } = left {
        if !suits(columns, kind, first) {
            return false;
        }
        left = rest;
    }
    true
}

/// Whether the part is a string without a value under the kind.
pub fn is_bad_literal(kind: Kind, part: &Expr) -> bool
    ensures { result ≡ bad_literal kind (tree_of part.now) }
{
    match part {
        Expr::Quoted(text) => !has_value(text.as_bytes(), oid_of(kind)),
        _ => false,
    }
}
