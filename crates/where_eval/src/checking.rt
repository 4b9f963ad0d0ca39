//! Checking a clause against the columns of a table.
ghost use Rattle.std.specs.Prelude.{◌≡◌, ◌∷◌, [], IfOk, slice_set};
ghost use Rattle.pg_values.specs.declared.kind.Kind.TheVariants.{Boolean};
ghost use Rattle.where_parser.specs.View.{tree_of};
ghost use Rattle.where_eval.specs.Faults.{first_of, fault as fault_in, asked};
ghost use Rattle.where_eval.specs.Passing.{Passes};
ghost use Rattle.where_eval.specs.Checked.{IsCheck, AreRead, IsKnown};

use crate::checked::Checked;
use crate::columns::kind_at;
use crate::compile::compile;
use crate::faults::CheckError;
use crate::leaves::{Leaf, add_leaves, first_unknown};
use crate::typing::{check_part, fault};
use column_names::ColumnNames;
use pg_values::Kind;
use shape_base::{Columns, OutOfMemory};
use std::alloc::Global;
use where_parser::Expr;

/// A kind for each column: the last one.
fn no_kinds(alloc: Global, columns: &ColumnNames) -> Result<Vec<Kind>, OutOfMemory>
    ensures { IfOk result (λ kinds. AreRead columns.now [] kinds.items) }
{
    let mut kinds = Vec::new(alloc);
    while (kinds.len() as u64) < columns.len() {
        kinds.push(Kind::Other)?;
    }
    Ok(kinds)
}

/// Writes down the kind of a column.
fn put_kind(kinds: &mut Vec<Kind>, place: u64, kind: Kind)
    ensures { kinds.new.items ≡ slice_set kinds.old.items place kind }
{
    if place < kinds.len() as u64 {
        kinds[place as usize] = kind;
    }
}

/// For each column the kind under which a leaf reads it.
fn kinds_read(
    alloc: Global,
    columns: &ColumnNames,
    leaves: &[Leaf],
) -> Result<Vec<Kind>, OutOfMemory>
    ensures { IfOk result (λ kinds. AreRead columns.now leaves.now kinds.items) }
{
    let mut kinds = no_kinds(alloc, columns)?;
    let mut left = leaves;
    while let Some((leaf, rest)) = left.split_first() {
        if let Leaf::Column(place) = leaf {
            put_kind(&mut kinds, *place, kind_at(columns, *place));
        }
        left = rest;
    }
    Ok(kinds)
}

/// The leaves of a clause each name of which is a column's.
fn known_leaves(alloc: Global, columns: &ColumnNames, expr: &Expr) -> Result<Vec<Leaf>, CheckError>
    ensures { IsKnown (λ leaves. leaves.items) columns.now (tree_of expr.now) result }
{
    let mut leaves = Vec::new(alloc);
    add_leaves(&mut leaves, columns, expr)?;
    match first_unknown(leaves.as_slice()) {
        Some(atom) => Err(CheckError::UnknownColumn { atom }),
        None => Ok(leaves),
    }
}

/// Looks for the first faulty node, and then asks that the whole is bool.
fn ask(columns: &ColumnNames, expr: &Expr) -> Result<(), CheckError>
    ensures { Passes result (first_of (fault_in columns.now 0 (tree_of expr.now) ∷ asked columns.now Boolean 0 (tree_of expr.now ∷ []) ∷ [])) }
{
    let _ = fault(columns, 0, expr)?;
    check_part(columns, Kind::Boolean, 0, expr)
}

/// Checks a clause against the columns of a table: whether each name is a column's, and whether types and constants
/// fit. The first fault is the answer: the least leaf that names no column; then the first faulty node, parts before
/// the whole and left to right, in a node `TypeMismatch` before `BadLiteral`; then the whole, which must be bool.
pub fn check(alloc: Global, expr: &Expr, columns: &Columns) -> Result<Checked, CheckError>
    ensures { IsCheck columns.now (tree_of expr.now) result }
{
    let index = ColumnNames::new(alloc, columns)?;
    let leaves = known_leaves(alloc, &index, expr)?;
    ask(&index, expr)?;
    if columns.len() > 0x1_0000_0000 {
        return Err(CheckError::OutOfMemory);
    }
    let kinds = kinds_read(alloc, &index, leaves.as_slice())?;
    let plan = compile(alloc, &index, Kind::Boolean, expr)?;
    Ok(Checked { plan, kinds })
}
