//! From the tree of a clause to its plan.
ghost use Rattle.std.specs.Prelude.{◌≡◌, IfOk, map};
ghost use Rattle.shape_base.specs.Tables.{Values};
ghost use Rattle.where_grammar.specs.Tree.{NameOf, IsOf, DistinctOf, Compared, WithinOf, BetweenOf};
ghost use Rattle.pg_values.specs.declared.kind.Kind.{Kind};
ghost use Rattle.where_eval.specs.Scalars.{read_under};
ghost use Rattle.where_eval.specs.Plans.{meaning, meanings, scalar_of};
ghost use Rattle.where_eval.specs.Truth.{values_of};
ghost use Rattle.where_parser.specs.View.{tree_of, trees_of};
ghost use Rattle.where_eval.specs.Compiled.{Compiles, AllCompile};

use crate::columns::kind_at;
use crate::constant::Constant;
use crate::kinds::{kind_of_list, kind_of_three, kind_of_two};
use crate::like::pieces;
use crate::plan::{Plan, Plans};
use crate::read_value::{ReadValue, read};
use column_names::ColumnNames;
use pg_values::Kind;
use shape_base::{Duplicate, OutOfMemory, Text};
use std::alloc::Global;
use where_parser::{CmpOp, Expr, Exprs, IsTest};

/// The constant that a string is under a kind.
fn constant(alloc: Global, text: &Text, kind: Kind) -> Result<Constant, OutOfMemory>
    ensures { IfOk result (λ constant. scalar_of constant ≡ read_under kind text.now) }
{
    match read(text, kind) {
        ReadValue::Null => Ok(Constant::Null),
        ReadValue::Truth(truth) => Ok(Constant::Truth(truth)),
        ReadValue::Number(number) => Ok(Constant::Number(number)),
        ReadValue::Words(text) => Ok(Constant::Words(text.copy(alloc)?)),
        ReadValue::Id(id) => Ok(Constant::Id(id)),
    }
}

fn column(columns: &ColumnNames, kind: Kind, name: &Text) -> Plan
    ensures { Compiles columns.now kind result (NameOf name.now) }
{
    match columns.place_of(name) {
        Some(place) => Plan::Column {
            place,
            kind: kind_at(columns, place),
        },
        None => Plan::Read(Constant::Null),
    }
}

/// The chain of the plans, in their order.
fn chain(alloc: Global, mut members: Vec<Plan>) -> Result<Plans, OutOfMemory>
    ensures { IfOk result (λ chain. (row : Values) → meanings chain row ≡ map (λ p. meaning p row) members.items) }
{
    let mut rest = Plans::End;
    while let Some(member) = members.pop() {
        rest = Plans::More {
            first: Box::new(alloc, member)?,
            rest: Box::new(alloc, rest)?,
        };
    }
    Ok(rest)
}

#[cycle(compile)]
fn members(
    alloc: Global,
    columns: &ColumnNames,
    kind: Kind,
    list: &Exprs,
) -> Result<Vec<Plan>, OutOfMemory>
    ensures { IfOk result (λ members. (row : Values) → map (λ p. meaning p row) members.items ≡ values_of columns.now row kind (trees_of list.now)) }
{
    let mut members = Vec::new(alloc);
    let mut left = list;
    while let Exprs::More { first, rest } = left {
        match compile(alloc, columns, kind, first) {
            Ok(member) => members.push(member)?,
            Err(error) => return Err(error),
        }
        left = rest;
    }
    Ok(members)
}

/// The plans of the members of a list.
#[cycle(compile)]
fn compile_all(
    alloc: Global,
    columns: &ColumnNames,
    kind: Kind,
    list: &Exprs,
) -> Result<Plans, OutOfMemory>
    ensures { IfOk result (λ chain. AllCompile columns.now kind chain (trees_of list.now)) }
{
    chain(alloc, members(alloc, columns, kind, list)?)
}

#[cycle(compile)]
fn boxed(
    alloc: Global,
    columns: &ColumnNames,
    kind: Kind,
    expr: &Expr,
) -> Result<Box<Plan>, OutOfMemory>
    ensures { IfOk result (λ boxed. Compiles columns.now kind boxed.value (tree_of expr.now)) }
{
    Ok(Box::new(alloc, compile(alloc, columns, kind, expr)?)?)
}

/// The plan of IS with a test; a string before IS NULL is text.
#[cycle(compile)]
fn tested(
    alloc: Global,
    columns: &ColumnNames,
    left: &Expr,
    not: bool,
    test: IsTest,
) -> Result<Plan, OutOfMemory>
    ensures { IfOk result (λ plan. (kind : Kind) → Compiles columns.now kind plan (IsOf (tree_of left.now) not test)) }
{
    let kind = match test {
        IsTest::Null => Kind::Text,
        _ => Kind::Boolean,
    };
    Ok(Plan::Is {
        left: boxed(alloc, columns, kind, left)?,
        not,
        test,
    })
}

/// The plan of IS DISTINCT FROM.
#[cycle(compile)]
fn distinct(
    alloc: Global,
    columns: &ColumnNames,
    left: &Expr,
    not: bool,
    right: &Expr,
) -> Result<Plan, OutOfMemory>
    ensures { IfOk result (λ plan. (kind : Kind) → Compiles columns.now kind plan (DistinctOf (tree_of left.now) not (tree_of right.now))) }
{
    let kind = kind_of_two(columns, left, right);
    Ok(Plan::Distinct {
        left: boxed(alloc, columns, kind, left)?,
        not,
        right: boxed(alloc, columns, kind, right)?,
    })
}

/// The plan of a comparison.
#[cycle(compile)]
fn compared(
    alloc: Global,
    columns: &ColumnNames,
    op: CmpOp,
    left: &Expr,
    right: &Expr,
) -> Result<Plan, OutOfMemory>
    ensures { IfOk result (λ plan. (kind : Kind) → Compiles columns.now kind plan (Compared op (tree_of left.now) (tree_of right.now))) }
{
    let kind = kind_of_two(columns, left, right);
    Ok(Plan::Cmp {
        op,
        left: boxed(alloc, columns, kind, left)?,
        right: boxed(alloc, columns, kind, right)?,
    })
}

/// The plan of IN.
#[cycle(compile)]
fn within(
    alloc: Global,
    columns: &ColumnNames,
    left: &Expr,
    not: bool,
    list: &Exprs,
) -> Result<Plan, OutOfMemory>
    ensures { IfOk result (λ plan. (kind : Kind) → Compiles columns.now kind plan (WithinOf (tree_of left.now) not (trees_of list.now))) }
{
    let kind = kind_of_list(columns, left, list);
    Ok(Plan::Within {
        left: boxed(alloc, columns, kind, left)?,
        not,
        list: compile_all(alloc, columns, kind, list)?,
    })
}

/// The plan of BETWEEN.
#[cycle(compile)]
fn between(
    alloc: Global,
    columns: &ColumnNames,
    left: &Expr,
    not: bool,
    low: &Expr,
    high: &Expr,
) -> Result<Plan, OutOfMemory>
    ensures { IfOk result (λ plan. (kind : Kind) → Compiles columns.now kind plan (BetweenOf (tree_of left.now) not (tree_of low.now) (tree_of high.now))) }
{
    let kind = kind_of_three(columns, left, low, high);
    Ok(Plan::Between {
        left: boxed(alloc, columns, kind, left)?,
        not,
        low: boxed(alloc, columns, kind, low)?,
        high: boxed(alloc, columns, kind, high)?,
    })
}

/// The plan of a part; a string is read under the kind.
#[cycle(compile)]
pub fn compile(
    alloc: Global,
    columns: &ColumnNames,
    kind: Kind,
    expr: &Expr,
) -> Result<Plan, OutOfMemory>
    ensures { IfOk result (λ plan. Compiles columns.now kind plan (tree_of expr.now)) }
{
    match expr {
        Expr::Or(list) => Ok(Plan::Any(compile_all(alloc, columns, Kind::Boolean, list)?)),
        Expr::And(list) => Ok(Plan::All(compile_all(alloc, columns, Kind::Boolean, list)?)),
        Expr::Not(inner) => Ok(Plan::Not(boxed(alloc, columns, Kind::Boolean, inner)?)),
        Expr::Is { left, not, test } => tested(alloc, columns, left, *not, *test),
        Expr::Distinct { left, not, right } => distinct(alloc, columns, left, *not, right),
        Expr::Cmp { op, left, right } => compared(alloc, columns, *op, left, right),
        Expr::Within { left, not, list } => within(alloc, columns, left, *not, list),
        Expr::Between {
            left,
            not,
            low,
            high,
        } => between(alloc, columns, left, *not, low, high),
        Expr::Like { left, not, pattern } => Ok(Plan::Like {
            left: boxed(alloc, columns, Kind::Text, left)?,
            not: *not,
            pattern: pieces(alloc, pattern.as_str())?,
        }),
        Expr::Name(name) => Ok(column(columns, kind, name)),
        Expr::Int(number) => Ok(Plan::Read(Constant::Number(*number))),
        Expr::Quoted(text) => Ok(Plan::Read(constant(alloc, text, kind)?)),
        Expr::Bool(truth) => Ok(Plan::Read(Constant::Truth(*truth))),
        Expr::Null => Ok(Plan::Read(Constant::Null)),
    }
}
