//! The leaves of a clause, from the left.
ghost use Rattle.std.specs.Prelude.{◌≡◌, ◌++◌, ◌∷◌, [], OnOk};
ghost use Rattle.shape_base.specs.Tables.{place_of as place_in};
ghost use Rattle.where_parser.specs.View.{tree_of, trees_of};
ghost use Rattle.where_eval.specs.Leaves.{leaves as leaves_of, all_leaves, leaf_at, stepped as stepped_number, unknown_from};

use column_names::ColumnNames;
use shape_base::{OutOfMemory, Text};
use where_parser::{Expr, Exprs};

/// What a leaf is to a table.
#[derive(Clone, Copy, Drop)]
pub enum Leaf {
    /// A name of a column.
    Column(u64),
    /// A name of no column.
    Unknown,
    Constant,
}

/// The number of the next leaf. Numbers stand still at 2^32 - 1.
pub fn stepped(number: u32) -> u32
    ensures { result ≡ stepped_number number }
{
    number.saturating_add(1)
}

/// Adds the leaves of the members.
#[cycle(leaves)]
fn add_members(out: &mut Vec<Leaf>, columns: &ColumnNames, list: &Exprs) -> Result<(), OutOfMemory>
    ensures { OnOk result (out.new.items ≡ out.old.items ++ all_leaves columns.now (trees_of list.now)) }
{
    let mut left = list;
    while let Exprs::More { first, rest } = left {
        add_leaves(out, columns, first)?;
        left = rest;
    }
    Ok(())
}

/// Adds the leaves of a part.
#[cycle(leaves)]
pub fn add_leaves(
    out: &mut Vec<Leaf>,
    columns: &ColumnNames,
    expr: &Expr,
) -> Result<(), OutOfMemory>
    ensures { OnOk result (out.new.items ≡ out.old.items ++ leaves_of columns.now (tree_of expr.now)) }
{
    match expr {
        Expr::Or(list) => add_members(out, columns, list),
        Expr::And(list) => add_members(out, columns, list),
        Expr::Not(inner) => add_leaves(out, columns, inner),
        Expr::Is { left, .. } => add_leaves(out, columns, left),
        Expr::Distinct { left, right, .. } => {
            add_leaves(out, columns, left)?;
            add_leaves(out, columns, right)
        }
        Expr::Cmp { left, right, .. } => {
            add_leaves(out, columns, left)?;
            add_leaves(out, columns, right)
        }
        Expr::Within { left, list, .. } => {
            add_leaves(out, columns, left)?;
            add_members(out, columns, list)
        }
        Expr::Between {
            left,
            low,
            high,
            ..
        } => {
            add_leaves(out, columns, left)?;
            add_leaves(out, columns, low)?;
            add_leaves(out, columns, high)
        }
        Expr::Like { left, .. } => {
            add_leaves(out, columns, left)?;
            add(out, Leaf::Constant)
        }
        Expr::Name(name) => add(out, named(columns, name)),
        Expr::Int(_) | Expr::Quoted(_) | Expr::Bool(_) | Expr::Null => add(out, Leaf::Constant),
    }
}

fn add(out: &mut Vec<Leaf>, leaf: Leaf) -> Result<(), OutOfMemory>
    ensures { OnOk result (out.new.items ≡ out.old.items ++ leaf ∷ []) }
{
    out.push(leaf)?;
    Ok(())
}

fn named(columns: &ColumnNames, name: &Text) -> Leaf
    ensures { result ≡ leaf_at (place_in columns.now name.now) }
{
    match columns.place_of(name) {
        Some(place) => Leaf::Column(place),
        None => Leaf::Unknown,
    }
}

/// The number of the first leaf that names no column.
pub fn first_unknown(leaves: &[Leaf]) -> Option<u32>
    ensures { result ≡ unknown_from 0 leaves.now }
{
    let mut number = 0;
    let mut left = leaves;
    while let Some((leaf, rest)) = left.split_first() {
        if let Leaf::Unknown = leaf {
            return Some(number);
        }
        number = stepped(number);
        left = rest;
    }
    None
}
