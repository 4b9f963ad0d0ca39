//! From a tree to its canonical text.

#![tactic(auto, using(where_lexer::proofs::Lemmas::written_append, where_lexer::proofs::Lemmas::written_first, where_lexer::proofs::Lemmas::written_none))]

ghost use Rattle.std.specs.Prelude.{◌≡◌, ◌∷◌, [], ◌++◌, IfOk, OnOk};
ghost use Rattle.where_lexer.specs.declared.token.Token.TheVariants as tokens;
ghost use Rattle.where_grammar.specs.Clause.{canonical_text, IsAgain};
ghost use Rattle.where_lexer.specs.Writing.{with_tokens};
ghost use Rattle.where_grammar.specs.Printing.{level as level_of, part, canonical, members, others, integer, maybe, asked_for};
ghost use Rattle.where_parser.specs.View.{tree_of, trees_of};

use super::expr::{Expr, Exprs};
use shape_base::{OutOfMemory, Text};
use std::alloc::Global;
use where_grammar::words::IsTest;
use where_lexer::{CmpOp, Token, Writer};

/// How tightly the outermost word of the tree binds.
fn level(expr: &Expr) -> u8
    ensures { result ≡ level_of (tree_of expr.now) }
{
    match expr {
        Expr::Or(_) => 0,
        Expr::And(_) => 1,
        Expr::Not(_) => 2,
        Expr::Is { .. } | Expr::Distinct { .. } => 3,
        Expr::Cmp { .. } => 4,
        Expr::Within { .. } | Expr::Between { .. } | Expr::Like { .. } => 5,
        Expr::Name(_) | Expr::Int(_) | Expr::Quoted(_) | Expr::Bool(_) | Expr::Null => 6,
    }
}

fn put_integer(out: &mut Writer, n: i64) -> Result<(), OutOfMemory>
    ensures { OnOk result (out.new ≡ with_tokens out.old (integer n)) }
{
    if n < 0 {
        out.put(&Token::Minus)?;
    }
    out.put_digits(n.unsigned_abs())
}

fn put_negation(out: &mut Writer, negated: bool) -> Result<(), OutOfMemory>
    ensures { OnOk result (out.new ≡ with_tokens out.old (maybe negated)) }
{
    if negated {
        out.put(&Token::Not)
    } else {
        Ok(())
    }
}

fn put_test(out: &mut Writer, test: IsTest) -> Result<(), OutOfMemory>
    ensures { OnOk result (out.new ≡ with_tokens out.old (asked_for test ∷ [])) }
{
    match test {
        IsTest::Null => out.put(&Token::Null),
        IsTest::True => out.put(&Token::True),
        IsTest::False => out.put(&Token::False),
        IsTest::Unknown => out.put(&Token::Unknown),
    }
}

/// Writes a part of a place that needs at least this level, in parentheses exactly where its own is below.
#[cycle(printing)]
fn put_part(out: &mut Writer, expr: &Expr, need: u8) -> Result<(), OutOfMemory>
    ensures { OnOk result (out.new ≡ with_tokens out.old (part need (tree_of expr.now))) }
{
    if level(expr) >= need {
        return put_tree(out, expr);
    }
    out.put(&Token::Open)?;
    put_tree(out, expr)?;
    out.put(&Token::Close)
}

/// Writes the members of a list behind the first, each behind the word.
#[cycle(printing)]
fn put_others(out: &mut Writer, list: &Exprs, word: &Token, need: u8) -> Result<(), OutOfMemory>
    ensures { OnOk result (out.new ≡ with_tokens out.old (others word.now need (trees_of list.now))) }
{
    let mut left = list;
    while let Exprs::More { first, rest } = left {
        out.put(word)?;
        put_part(out, first, need)?;
        left = rest;
    }
    Ok(())
}

/// Writes the members of a list, with the word between them.
#[cycle(printing)]
fn put_members(out: &mut Writer, list: &Exprs, word: &Token, need: u8) -> Result<(), OutOfMemory>
    ensures { OnOk result (out.new ≡ with_tokens out.old (members word.now need (trees_of list.now))) }
{
    match list {
        Exprs::End => Ok(()),
        Exprs::More { first, rest } => {
            put_part(out, first, need)?;
            put_others(out, rest, word, need)
        }
    }
}

/// Writes what stands behind IN.
#[cycle(printing)]
fn put_list(out: &mut Writer, list: &Exprs) -> Result<(), OutOfMemory>
    ensures { OnOk result (out.new ≡ with_tokens out.old (tokens.In ∷ tokens.Open ∷ (members tokens.Comma 6 (trees_of list.now) ++ tokens.Close ∷ []))) }
{
    out.put(&Token::In)?;
    out.put(&Token::Open)?;
    put_members(out, list, &Token::Comma, 6)?;
    out.put(&Token::Close)
}

/// Writes NOT and what is negated.
#[cycle(printing)]
fn put_not(out: &mut Writer, inner: &Expr) -> Result<(), OutOfMemory>
    ensures { OnOk result (out.new ≡ with_tokens out.old (tokens.Not ∷ part 2 (tree_of inner.now))) }
{
    out.put(&Token::Not)?;
    put_part(out, inner, 2)
}

/// Writes a comparison's operator and its right side.
#[cycle(printing)]
fn put_compared(out: &mut Writer, op: CmpOp, right: &Expr) -> Result<(), OutOfMemory>
    ensures { OnOk result (out.new ≡ with_tokens out.old (tokens.Compare op ∷ part 5 (tree_of right.now))) }
{
    out.put(&Token::Compare(op))?;
    put_part(out, right, 5)
}

/// Writes the left side of IN, BETWEEN or LIKE, and NOT where it is negated.
#[cycle(printing)]
fn put_left(out: &mut Writer, left: &Expr, negated: bool) -> Result<(), OutOfMemory>
    ensures { OnOk result (out.new ≡ with_tokens out.old (part 6 (tree_of left.now) ++ maybe negated)) }
{
    put_part(out, left, 6)?;
    put_negation(out, negated)
}

/// Writes BETWEEN, the lower bound and AND.
#[cycle(printing)]
fn put_low(out: &mut Writer, low: &Expr) -> Result<(), OutOfMemory>
    ensures { OnOk result (out.new ≡ with_tokens out.old (tokens.Between ∷ (part 6 (tree_of low.now) ++ tokens.And ∷ []))) }
{
    out.put(&Token::Between)?;
    put_part(out, low, 6)?;
    out.put(&Token::And)
}

/// Writes the left side of an IS, that word, and NOT where it is negated.
#[cycle(printing)]
fn put_is(out: &mut Writer, left: &Expr, negated: bool) -> Result<(), OutOfMemory>
    ensures { OnOk result (out.new ≡ with_tokens out.old (part 4 (tree_of left.now) ++ (tokens.Is ∷ maybe negated))) }
{
    put_part(out, left, 4)?;
    out.put(&Token::Is)?;
    put_negation(out, negated)
}

/// Writes DISTINCT FROM and the right side.
#[cycle(printing)]
fn put_distinct(out: &mut Writer, right: &Expr) -> Result<(), OutOfMemory>
    ensures { OnOk result (out.new ≡ with_tokens out.old (tokens.Distinct ∷ tokens.From ∷ part 4 (tree_of right.now))) }
{
    out.put(&Token::Distinct)?;
    out.put(&Token::From)?;
    put_part(out, right, 4)
}

/// Writes a tree.
#[cycle(printing)]
fn put_tree(out: &mut Writer, expr: &Expr) -> Result<(), OutOfMemory>
    ensures { OnOk result (out.new ≡ with_tokens out.old (canonical (tree_of expr.now))) }
{
    match expr {
        Expr::Or(list) => put_members(out, list, &Token::Or, 1),
        Expr::And(list) => put_members(out, list, &Token::And, 2),
        Expr::Not(inner) => put_not(out, inner),
        Expr::Is { left, not, test } => {
            put_is(out, left, *not)?;
            put_test(out, *test)
        }
        Expr::Distinct { left, not, right } => {
            put_is(out, left, *not)?;
            put_distinct(out, right)
        }
        Expr::Cmp { op, left, right } => {
            put_part(out, left, 5)?;
            put_compared(out, *op, right)
        }
        Expr::Within { left, not, list } => {
            put_left(out, left, *not)?;
            put_list(out, list)
        }
        Expr::Between {
            left,
            not,
            low,
            high,
        } => {
            put_left(out, left, *not)?;
            put_low(out, low)?;
            put_part(out, high, 6)
        }
        Expr::Like { left, not, pattern } => {
            put_left(out, left, *not)?;
            out.put(&Token::Like)?;
            out.put_quoted(pattern)
        }
        Expr::Name(name) => out.put_name(name),
        Expr::Int(n) => put_integer(out, *n),
        Expr::Quoted(text) => out.put_quoted(text),
        Expr::Bool(true) => out.put(&Token::True),
        Expr::Bool(false) => out.put(&Token::False),
        Expr::Null => out.put(&Token::Null),
    }
}

/// The canonical text of a tree: one space between tokens, none inside parentheses, before a comma or after a minus
/// sign; names between quotes, keywords in capitals, `<>` for both spellings; parentheses exactly where a part binds
/// less tightly than its place needs. Parsed again it gives the tree back, if some text is a clause of this tree.
pub fn print(alloc: Global, expr: &Expr) -> Result<Text, OutOfMemory>
    ensures text { IfOk result (λ text. text ≡ canonical_text (tree_of expr.now)) }
    ensures again { IfOk result (λ text. IsAgain (tree_of expr.now) text) }
{
    let mut out = Writer::new(alloc);
    put_tree(&mut out, expr)?;
    Ok(out.into_text())
}
