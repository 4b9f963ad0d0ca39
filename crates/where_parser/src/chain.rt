//! Nodes of trees, put together from their parts.
ghost use Rattle.std.specs.Prelude.{◌≡◌, List, [], ◌∷◌, map, IfOk};
ghost use Rattle.where_grammar.specs.Tree.{trees, WithinOf, BetweenOf, Compared, DistinctOf, IsOf};
ghost use Rattle.where_grammar.specs.Grammar.{any_of, all_of};
ghost use Rattle.where_parser.specs.View.{tree_of, trees_of};

use super::expr::{Expr, Exprs};
use shape_base::OutOfMemory;
use std::alloc::Global;
use where_grammar::words::IsTest;
use where_lexer::CmpOp;

/// The trees as a chain, in their order.
pub fn chain(alloc: Global, mut members: Vec<Expr>) -> Result<Exprs, OutOfMemory>
    ensures { IfOk result (λ x. trees_of x ≡ trees (map tree_of members.items)) }
{
    let mut rest = Exprs::End;
    while let Some(member) = members.pop() {
        rest = Exprs::More {
            first: Box::new(alloc, member)?,
            rest: Box::new(alloc, rest)?,
        };
    }
    Ok(rest)
}

fn one_chain(alloc: Global, first: Expr, others: Vec<Expr>) -> Result<Exprs, OutOfMemory>
    ensures { IfOk result (λ x. trees_of x ≡ trees (tree_of first ∷ map tree_of others.items)) }
{
    let others = chain(alloc, others)?;
    Ok(Exprs::More {
        first: Box::new(alloc, first)?,
        rest: Box::new(alloc, others)?,
    })
}

/// `left IN (first, others)`, or NOT IN.
pub fn within(
    alloc: Global,
    left: Expr,
    not: bool,
    first: Expr,
    others: Vec<Expr>,
) -> Result<Expr, OutOfMemory>
    ensures { IfOk result (λ x. tree_of x ≡ WithinOf (tree_of left) not (trees (tree_of first ∷ map tree_of others.items))) }
{
    let left = Box::new(alloc, left)?;
    let list = one_chain(alloc, first, others)?;
    Ok(Expr::Within { left, not, list })
}

/// The members joined by AND; one alone is itself.
pub fn all(alloc: Global, first: Expr, others: Vec<Expr>) -> Result<Expr, OutOfMemory>
    ensures { IfOk result (λ x. tree_of x ≡ all_of (tree_of first) (map tree_of others.items)) }
{
    if others.is_empty() {
        return Ok(first);
    }
    let members = one_chain(alloc, first, others)?;
    Ok(Expr::And(members))
}

/// The members joined by OR; one alone is itself.
pub fn any(alloc: Global, first: Expr, others: Vec<Expr>) -> Result<Expr, OutOfMemory>
    ensures { IfOk result (λ x. tree_of x ≡ any_of (tree_of first) (map tree_of others.items)) }
{
    if others.is_empty() {
        return Ok(first);
    }
    let members = one_chain(alloc, first, others)?;
    Ok(Expr::Or(members))
}

/// `left BETWEEN low AND high`, or NOT BETWEEN.
pub fn between(
    alloc: Global,
    left: Expr,
    not: bool,
    low: Expr,
    high: Expr,
) -> Result<Expr, OutOfMemory>
    ensures { IfOk result (λ x. tree_of x ≡ BetweenOf (tree_of left) not (tree_of low) (tree_of high)) }
{
    Ok(Expr::Between {
        left: Box::new(alloc, left)?,
        not,
        low: Box::new(alloc, low)?,
        high: Box::new(alloc, high)?,
    })
}

/// `left op right`.
pub fn compared(alloc: Global, op: CmpOp, left: Expr, right: Expr) -> Result<Expr, OutOfMemory>
    ensures { IfOk result (λ x. tree_of x ≡ Compared op (tree_of left) (tree_of right)) }
{
    Ok(Expr::Cmp {
        op,
        left: Box::new(alloc, left)?,
        right: Box::new(alloc, right)?,
    })
}

/// `left IS DISTINCT FROM right`, or IS NOT DISTINCT FROM.
pub fn distinct(alloc: Global, left: Expr, not: bool, right: Expr) -> Result<Expr, OutOfMemory>
    ensures { IfOk result (λ x. tree_of x ≡ DistinctOf (tree_of left) not (tree_of right)) }
{
    Ok(Expr::Distinct {
        left: Box::new(alloc, left)?,
        not,
        right: Box::new(alloc, right)?,
    })
}

/// `left IS test`, or IS NOT.
pub fn is_test(alloc: Global, left: Expr, not: bool, test: IsTest) -> Result<Expr, OutOfMemory>
    ensures { IfOk result (λ x. tree_of x ≡ IsOf (tree_of left) not test) }
{
    Ok(Expr::Is {
        left: Box::new(alloc, left)?,
        not,
        test,
    })
}
