//! The first faulty node of a clause.
ghost use Rattle.std.specs.Prelude.{◌≡◌, ◌∷◌, [], ◌&&◌, Option, false};
ghost use Rattle.pg_values.specs.declared.kind.Kind.TheVariants.{Boolean};
ghost use Rattle.where_grammar.specs.Tree.{NotOf, IsOf, DistinctOf, WithinOf, BetweenOf, LikeOf};
ghost use Rattle.where_parser.specs.View.{tree_of, trees_of};
ghost use Rattle.where_eval.specs.Leaves.{listed, next as next_number, next_all};
ghost use Rattle.where_eval.specs.Kinds.{common, is_bad_literal as is_bad};
ghost use Rattle.where_eval.specs.Faults.{first_of, judged as judgement, asked, bad_literal, asked_by_test, cut_pattern, fault as fault_in, faults as faults_in};
ghost use Rattle.where_eval.specs.MemberFaults.{AreMembers};
ghost use Rattle.where_eval.specs.Passing.{Passes, PassesTo, literal_at, literal_or, literal_if};
ghost use Rattle.where_eval.specs.declared.faults.CheckError.{CheckError};

use crate::faults::CheckError;
use crate::kinds::{all_suit, is_bad_literal, kind_of_list, kind_of_three, kind_of_two, suits};
use crate::leaves::stepped;
use crate::like::is_cut;
use column_names::ColumnNames;
use pg_values::Kind;
use shape_base::Text;
use where_parser::{Expr, Exprs, IsTest};

/// The fault of a node over parts of this kind: a mismatch where they may not be compared or do not all suit, or else
/// the string of this number.
fn judged(kind: Kind, all: bool, number: u32, bad: Option<u32>) -> Result<(), CheckError>
    ensures { Passes result (judgement kind all number (literal_at bad)) }
{
    if kind == Kind::Other || !all {
        return Err(CheckError::TypeMismatch { atom: number });
    }
    match bad {
        Some(atom) => Err(CheckError::BadLiteral { atom }),
        None => Ok(()),
    }
}

/// The number of a part that is a string without a value, or else of such a string behind it.
fn bad_or(kind: Kind, number: u32, part: &Expr, behind: Option<u32>) -> Option<u32>
    ensures { literal_at result ≡ literal_if (is_bad kind (tree_of part.now)) number (literal_at behind) }
{
    if is_bad_literal(kind, part) {
        Some(number)
    } else {
        behind
    }
}

fn both(left: bool, right: bool) -> bool
    ensures { result ≡ (left && right) }
{
    left && right
}

/// What a node asks of its only part.
pub fn check_part(
    columns: &ColumnNames,
    kind: Kind,
    number: u32,
    part: &Expr,
) -> Result<(), CheckError>
    ensures { Passes result (asked columns.now kind number (tree_of part.now ∷ [])) }
{
    let all = both(suits(columns, kind, part), true);
    judged(kind, all, number, bad_or(kind, number, part, None))
}

/// What a test asks of its operand.
fn ask_by_test(
    columns: &ColumnNames,
    number: u32,
    part: &Expr,
    test: IsTest,
) -> Result<(), CheckError>
    ensures { Passes result (asked_by_test columns.now number (tree_of part.now) test) }
{
    match test {
        IsTest::Null => Ok(()),
        IsTest::True => check_part(columns, Kind::Boolean, number, part),
        IsTest::False => check_part(columns, Kind::Boolean, number, part),
        IsTest::Unknown => check_part(columns, Kind::Boolean, number, part),
    }
}

/// What a comparison asks of its sides, the second of which begins at the leaf `second`.
fn ask_two(
    columns: &ColumnNames,
    number: u32,
    left: &Expr,
    second: u32,
    right: &Expr,
) -> Result<(), CheckError>
    requires { second ≡ next_number number (tree_of left.now) }
    ensures { Passes result (asked columns.now (common columns.now (tree_of left.now ∷ tree_of right.now ∷ [])) number (tree_of left.now ∷ tree_of right.now ∷ [])) }
{
    let kind = kind_of_two(columns, left, right);
    let right_suits = both(suits(columns, kind, right), true);
    let all = both(suits(columns, kind, left), right_suits);
    let behind = bad_or(kind, second, right, None);
    judged(kind, all, number, bad_or(kind, number, left, behind))
}

/// What BETWEEN asks of its parts.
fn ask_three(
    columns: &ColumnNames,
    number: u32,
    left: &Expr,
    second: u32,
    low: &Expr,
    third: u32,
    high: &Expr,
) -> Result<(), CheckError>
    requires second { second ≡ next_number number (tree_of left.now) }
    requires third { third ≡ next_number second (tree_of low.now) }
    ensures { Passes result (asked columns.now (common columns.now (tree_of left.now ∷ tree_of low.now ∷ tree_of high.now ∷ [])) number (tree_of left.now ∷ tree_of low.now ∷ tree_of high.now ∷ [])) }
{
    let kind = kind_of_three(columns, left, low, high);
    let high_suits = both(suits(columns, kind, high), true);
    let bounds_suit = both(suits(columns, kind, low), high_suits);
    let all = both(suits(columns, kind, left), bounds_suit);
    let behind = bad_or(kind, third, high, None);
    let behind = bad_or(kind, second, low, behind);
    judged(kind, all, number, bad_or(kind, number, left, behind))
}

/// What OR and AND ask of their members, of which `bad` is the first string without a value.
fn ask_truths(
    columns: &ColumnNames,
    number: u32,
    list: &Exprs,
    bad: Option<u32>,
) -> Result<(), CheckError>
    requires { bad_literal Boolean number (listed (trees_of list.now)) ≡ literal_at bad }
    ensures { Passes result (asked columns.now Boolean number (listed (trees_of list.now))) }
{
    let all = all_suit(columns, Kind::Boolean, list);
    judged(Kind::Boolean, all, number, bad)
}

/// What IN asks of its parts, where `bad` is the first string of the list without a value.
fn ask_list(
    columns: &ColumnNames,
    number: u32,
    left: &Expr,
    list: &Exprs,
    bad: Option<u32>,
) -> Result<(), CheckError>
    requires { bad_literal (common columns.now (tree_of left.now ∷ listed (trees_of list.now))) (next_number number (tree_of left.now)) (listed (trees_of list.now)) ≡ literal_at bad }
    ensures { Passes result (asked columns.now (common columns.now (tree_of left.now ∷ listed (trees_of list.now))) number (tree_of left.now ∷ listed (trees_of list.now))) }
{
    let kind = kind_of_list(columns, left, list);
    let members_suit = all_suit(columns, kind, list);
    let all = both(suits(columns, kind, left), members_suit);
    judged(kind, all, number, bad_or(kind, number, left, bad))
}

/// Refuses a pattern that ends inside an escape.
fn ask_pattern(number: u32, pattern: &Text) -> Result<(), CheckError>
    ensures { Passes result (cut_pattern number pattern.now) }
{
    if is_cut(pattern.as_str()) {
        Err(CheckError::BadLiteral { atom: number })
    } else {
        Ok(())
    }
}

/// The members of a list without faulty nodes.
#[derive(Clone, Copy)]
struct Clean {
    /// The number of the leaf behind them.
    next: u32,
    /// The number of the first string without a value under the kind.
    bad: Option<u32>,
}

/// The first string without a value so far.
fn first_bad(bad: Option<u32>, is_bad: bool, number: u32) -> Option<u32>
    ensures { (other : Option CheckError) → literal_or result other ≡ literal_or bad (literal_if is_bad number other) }
{
    match bad {
        Some(found) => Some(found),
        None => { if is_bad { Some(number) } else { None } }
    }
}

/// Looks for faulty nodes in the members of a list.
#[cycle(typing)]
fn members(
    columns: &ColumnNames,
    kind: Kind,
    number: u32,
    list: &Exprs,
) -> Result<Clean, CheckError>
    ensures { AreMembers result columns.now kind number (trees_of list.now) }
{
    let mut next = number;
    let mut bad = None;
    let mut left = list;
    while let Exprs::More { first, rest } = left {
        bad = first_bad(bad, is_bad_literal(kind, first), next);
        match fault(columns, next, first) {
            Ok(behind) => next = behind,
            Err(error) => return Err(error),
        }
        left = rest;
    }
    Ok(Clean { next, bad })
}

/// The members of OR or AND.
#[cycle(typing)]
fn truths(columns: &ColumnNames, number: u32, list: &Exprs) -> Result<u32, CheckError>
    ensures { PassesTo result (first_of (faults_in columns.now number (trees_of list.now) ∷ asked columns.now Boolean number (listed (trees_of list.now)) ∷ [])) (next_all number (trees_of list.now)) }
{
    let found = members(columns, Kind::Boolean, number, list)?;
    ask_truths(columns, number, list, found.bad)?;
    Ok(found.next)
}

/// The operand of NOT.
#[cycle(typing)]
fn denied(columns: &ColumnNames, number: u32, inner: &Expr) -> Result<u32, CheckError>
    ensures { PassesTo result (fault_in columns.now number (NotOf (tree_of inner.now))) (next_number number (NotOf (tree_of inner.now))) }
{
    let next = fault(columns, number, inner)?;
    check_part(columns, Kind::Boolean, number, inner)?;
    Ok(next)
}

/// The operand of a test with IS and with IS NOT.
#[cycle(typing)]
fn tested(columns: &ColumnNames, number: u32, left: &Expr, test: IsTest) -> Result<u32, CheckError>
    ensures { PassesTo result (fault_in columns.now number (IsOf (tree_of left.now) false test)) (next_number number (IsOf (tree_of left.now) false test)) }
{
    let next = fault(columns, number, left)?;
    ask_by_test(columns, number, left, test)?;
    Ok(next)
}

/// The sides of a comparison, or of IS DISTINCT FROM, which asks the same of them.
#[cycle(typing)]
fn sides(columns: &ColumnNames, number: u32, left: &Expr, right: &Expr) -> Result<u32, CheckError>
    ensures { PassesTo result (fault_in columns.now number (DistinctOf (tree_of left.now) false (tree_of right.now))) (next_number number (DistinctOf (tree_of left.now) false (tree_of right.now))) }
{
    let second = fault(columns, number, left)?;
    let next = fault(columns, second, right)?;
    ask_two(columns, number, left, second, right)?;
    Ok(next)
}

/// The left side and the list of IN and of NOT IN.
#[cycle(typing)]
fn within(columns: &ColumnNames, number: u32, left: &Expr, list: &Exprs) -> Result<u32, CheckError>
    ensures { PassesTo result (fault_in columns.now number (WithinOf (tree_of left.now) false (trees_of list.now))) (next_number number (WithinOf (tree_of left.now) false (trees_of list.now))) }
{
    let second = fault(columns, number, left)?;
    let kind = kind_of_list(columns, left, list);
    let found = members(columns, kind, second, list)?;
    ask_list(columns, number, left, list, found.bad)?;
    Ok(found.next)
}

/// The parts of BETWEEN and of NOT BETWEEN.
#[cycle(typing)]
fn between(
    columns: &ColumnNames,
    number: u32,
    left: &Expr,
    low: &Expr,
    high: &Expr,
) -> Result<u32, CheckError>
    ensures { PassesTo result (fault_in columns.now number (BetweenOf (tree_of left.now) false (tree_of low.now) (tree_of high.now))) (next_number number (BetweenOf (tree_of left.now) false (tree_of low.now) (tree_of high.now))) }
{
    let second = fault(columns, number, left)?;
    let third = fault(columns, second, low)?;
    let next = fault(columns, third, high)?;
    ask_three(columns, number, left, second, low, third, high)?;
    Ok(next)
}

/// The left side of LIKE and of NOT LIKE, and the pattern, which is a leaf.
#[cycle(typing)]
fn like(columns: &ColumnNames, number: u32, left: &Expr, pattern: &Text) -> Result<u32, CheckError>
    ensures { PassesTo result (fault_in columns.now number (LikeOf (tree_of left.now) false pattern.now)) (next_number number (LikeOf (tree_of left.now) false pattern.now)) }
{
    let second = fault(columns, number, left)?;
    check_part(columns, Kind::Text, number, left)?;
    ask_pattern(second, pattern)?;
    Ok(stepped(second))
}

/// Looks for the first faulty node of a tree whose first leaf has this number, parts before the whole and left to
/// right, and answers the number of the leaf behind the tree.
#[cycle(typing)]
pub fn fault(columns: &ColumnNames, number: u32, expr: &Expr) -> Result<u32, CheckError>
    ensures { PassesTo result (fault_in columns.now number (tree_of expr.now)) (next_number number (tree_of expr.now)) }
{
    match expr {
        Expr::Or(list) => truths(columns, number, list),
        Expr::And(list) => truths(columns, number, list),
        Expr::Not(inner) => denied(columns, number, inner),
        Expr::Is { left, test, .. } => tested(columns, number, left, *test),
        Expr::Distinct { left, right, .. } => sides(columns, number, left, right),
        Expr::Cmp { left, right, .. } => sides(columns, number, left, right),
        Expr::Within { left, list, .. } => within(columns, number, left, list),
        Expr::Between {
            left,
            low,
            high,
            ..
        } => between(columns, number, left, low, high),
        Expr::Like { left, pattern, .. } => like(columns, number, left, pattern),
        Expr::Name(_) | Expr::Int(_) | Expr::Quoted(_) | Expr::Bool(_) | Expr::Null => {
            Ok(stepped(number))
        }
    }
}
