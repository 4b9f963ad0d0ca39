//! The value of a plan over a row.
ghost use Rattle.std.specs.Prelude.{◌≡◌, ◌∷◌, [], map, slice_index_or};
ghost use Rattle.where_lexer.specs.declared.token.CmpOp.TheVariants as ops;
ghost use Rattle.where_eval.specs.Logic.{any_of, all_of};
ghost use Rattle.shape_base.specs.declared.value.Value.TheVariants.{Null};
ghost use Rattle.where_eval.specs.Scalars.{read_cell as read_value, tri_of as tri_of_scalar, compared as compared_scalars};
ghost use Rattle.where_eval.specs.Data.{seen, wish};
ghost use Rattle.where_eval.specs.Plans.{meaning, meanings, scalar_of, truth_beside};

use crate::constant::Constant;
use crate::logic::{and_of, negated, not_of, of_bool, or_of};
use crate::plan::{Plan, Plans};
use crate::read_value::{
    ReadValue, compared, is_distinct, like, of_tri, passes, read_cell, tri_of,
};
use pg_values::Kind;
use shape_base::{Row, Tri};
use where_parser::CmpOp;

fn constant(constant: &Constant) -> ReadValue
    ensures { seen result ≡ scalar_of constant.now }
{
    match constant {
        Constant::Null => ReadValue::Null,
        Constant::Truth(truth) => ReadValue::Truth(*truth),
        Constant::Number(number) => ReadValue::Number(*number),
        Constant::Words(text) => ReadValue::Words(text),
        Constant::Id(id) => ReadValue::Id(*id),
    }
}

fn cell(row: &Row, place: u64, kind: Kind) -> ReadValue
    ensures { seen result ≡ read_value kind (slice_index_or row.now place Null) }
{
    match row.as_slice().get(place as usize) {
        Some(value) => read_cell(value, kind),
        None => ReadValue::Null,
    }
}

/// The truth of a member: its own, or whether it equals what is wanted.
fn member(wanted: Option<ReadValue>, given: ReadValue) -> Tri
    ensures { result ≡ truth_beside (wish wanted.entry) (seen given.entry) }
{
    match wanted {
        Some(wanted) => compared(CmpOp::Eq, wanted, given),
        None => tri_of(given),
    }
}

/// The OR of the members, or of the equalities with them.
#[cycle(eval)]
fn any(wanted: Option<ReadValue>, list: &Plans, row: &Row) -> Tri
    ensures { result ≡ any_of (map (truth_beside (wish wanted.entry)) (meanings list.now row.now)) }
{
    let mut found = Tri::False;
    let mut left = list;
    while let Plans::More { first, rest } = left {
        found = or_of(found, member(wanted, value(first, row)));
        if let Tri::True = found {
            return Tri::True;
        }
        left = rest;
    }
    found
}

/// The AND of the members.
#[cycle(eval)]
fn all(list: &Plans, row: &Row) -> Tri
    ensures { result ≡ all_of (map tri_of_scalar (meanings list.now row.now)) }
{
    let mut found = Tri::True;
    let mut left = list;
    while let Plans::More { first, rest } = left {
        found = and_of(found, tri_of(value(first, row)));
        if let Tri::False = found {
            return Tri::False;
        }
        left = rest;
    }
    found
}

/// The AND of two comparisons.
fn between(middle: ReadValue, low: ReadValue, high: ReadValue) -> Tri
    ensures { result ≡ all_of (compared_scalars ops.Ge (seen middle.entry) (seen low.entry) ∷ compared_scalars ops.Le (seen middle.entry) (seen high.entry) ∷ []) }
{
    and_of(
        compared(CmpOp::Ge, middle, low),
        compared(CmpOp::Le, middle, high),
    )
}

/// The value of a plan over a row.
#[cycle(eval)]
pub fn value<'a>(plan: &'a Plan, row: &'a Row) -> ReadValue<'a>
    ensures { seen result ≡ meaning plan.now row.now }
{
    match plan {
        Plan::Any(list) => of_tri(any(None, list, row)),
        Plan::All(list) => of_tri(all(list, row)),
        Plan::Not(inner) => of_tri(not_of(tri_of(value(inner, row)))),
        Plan::Is { left, not, test } => {
            of_tri(negated(*not, of_bool(passes(*test, value(left, row)))))
        }
        Plan::Distinct { left, not, right } => of_tri(negated(
            *not,
            of_bool(is_distinct(value(left, row), value(right, row))),
        )),
        Plan::Cmp { op, left, right } => {
            of_tri(compared(*op, value(left, row), value(right, row)))
        }
        Plan::Within { left, not, list } => {
            of_tri(negated(*not, any(Some(value(left, row)), list, row)))
        }
        Plan::Between {
            left,
            not,
            low,
            high,
        } => of_tri(negated(
            *not,
            between(value(left, row), value(low, row), value(high, row)),
        )),
        Plan::Like { left, not, pattern } => {
            of_tri(negated(*not, like(pattern.as_slice(), value(left, row))))
        }
        Plan::Column { place, kind } => cell(row, *place, *kind),
        Plan::Read(known) => constant(known),
    }
}
