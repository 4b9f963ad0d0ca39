//! From tokens to their tree.
ghost use Rattle.std.specs.Prelude.{◌≡◌, map};
ghost use Rattle.where_grammar.specs.Meaning.{clause_of};
ghost use Rattle.where_parser.specs.View.{Answered, Gives, tree_of};
ghost use Rattle.where_parser.specs.Parts.{read_predicate, read_right, read_atom, read_member, read_others, read_within, read_between, read_range, read_cmp, read_is, read_not, read_and, read_or};

use super::chain::{all, any, between, compared, distinct, is_test, within};
use super::expr::Expr;
use super::front::{after, after_joint, begins_range, optional_not, skip};
use super::leaves::{like, operator, plain, test};
use super::stop::Stop;
use super::word::{Joint, Word};
use std::alloc::Global;
use where_lexer::Token;

#[cycle(reading)]
#[tactic(auto, unfolding(crate::specs::Parts::read_atom, crate::specs::Parts::read_plain, crate::specs::Parts::read_or, where_grammar::specs::Grammar::atom))]
fn atom(alloc: Global, tokens: &[Token], room: u8) -> Result<(Expr, &[Token]), Stop>
    ensures { Gives (λ x. tree_of x.0) (λ x. x.1.now) result (read_atom room tokens.now) }
{
    let Some(inside) = after(tokens, Word::Open) else {
        return plain(alloc, tokens);
    };
    if room == 0 {
        return Err(Stop::TooDeep(tokens));
    }
    let (tree, rest) = or(alloc, inside, room - 1)?;
    let rest = skip(rest, Word::Close)?;
    Ok((tree, rest))
}

#[cycle(reading)]
#[tactic(auto, unfolding(crate::specs::Parts::read_member, crate::specs::Parts::read_atom, crate::specs::Parts::read_not, crate::specs::Parts::read_and))]
fn member(alloc: Global, joint: Joint, tokens: &[Token], room: u8) -> Result<(Expr, &[Token]), Stop>
    ensures { Gives (λ x. tree_of x.0) (λ x. x.1.now) result (read_member joint room tokens.now) }
{
    match joint {
        Joint::Comma => atom(alloc, tokens, room),
        Joint::And => not(alloc, tokens, room),
        Joint::Or => and(alloc, tokens, room),
    }
}

#[cycle(reading)]
fn others(
    alloc: Global,
    joint: Joint,
    tokens: &[Token],
    room: u8,
) -> Result<(Vec<Expr>, &[Token]), Stop>
    ensures { Gives (λ x. map tree_of x.0.items) (λ x. x.1.now) result (read_others joint room tokens.now) }
{
    let mut members = Vec::new(alloc);
    let mut rest = tokens;
    while let Some(inside) = after_joint(rest, joint) {
        let (tree, left) = match member(alloc, joint, inside, room) {
            Ok(found) => found,
            Err(stop) => return Err(stop),
        };
        members.push(tree)?;
        rest = left;
    }
    Ok((members, rest))
}

#[cycle(reading)]
#[tactic(auto, unfolding(crate::specs::Parts::read_within, crate::specs::Parts::read_atom, crate::specs::Parts::read_others))]
fn listed(
    alloc: Global,
    left: Expr,
    not: bool,
    tokens: &[Token],
    room: u8,
) -> Result<(Expr, &[Token]), Stop>
    ensures { Gives (λ x. tree_of x.0) (λ x. x.1.now) result (read_within room (tree_of left) not tokens.now) }
{
    let rest = skip(tokens, Word::Open)?;
    let (first, rest) = atom(alloc, rest, room)?;
    let (members, rest) = others(alloc, Joint::Comma, rest, room)?;
    let rest = skip(rest, Word::Close)?;
    Ok((within(alloc, left, not, first, members)?, rest))
}

#[cycle(reading)]
#[tactic(auto, unfolding(crate::specs::Parts::read_between, crate::specs::Parts::read_atom))]
fn bounds(
    alloc: Global,
    left: Expr,
    not: bool,
    tokens: &[Token],
    room: u8,
) -> Result<(Expr, &[Token]), Stop>
    ensures { Gives (λ x. tree_of x.0) (λ x. x.1.now) result (read_between room (tree_of left) not tokens.now) }
{
    let (low, rest) = atom(alloc, tokens, room)?;
    let rest = skip(rest, Word::And)?;
    let (high, rest) = atom(alloc, rest, room)?;
    Ok((between(alloc, left, not, low, high)?, rest))
}

#[cycle(reading)]
#[tactic(auto, unfolding(crate::specs::Parts::read_predicate, crate::specs::Parts::read_within, crate::specs::Parts::read_between, crate::specs::Parts::read_like))]
fn predicate(
    alloc: Global,
    left: Expr,
    not: bool,
    tokens: &[Token],
    room: u8,
) -> Result<(Expr, &[Token]), Stop>
    ensures { Gives (λ x. tree_of x.0) (λ x. x.1.now) result (read_predicate room (tree_of left) not tokens.now) }
{
    if let Some(rest) = after(tokens, Word::In) {
        return listed(alloc, left, not, rest, room);
    }
    if let Some(rest) = after(tokens, Word::Between) {
        return bounds(alloc, left, not, rest, room);
    }
    let rest = skip(tokens, Word::Like)?;
    like(alloc, left, not, rest)
}

#[cycle(reading)]
#[tactic(auto, unfolding(crate::specs::Parts::read_range, crate::specs::Parts::read_atom, crate::specs::Parts::read_predicate))]
fn range(alloc: Global, tokens: &[Token], room: u8) -> Result<(Expr, &[Token]), Stop>
    ensures { Gives (λ x. tree_of x.0) (λ x. x.1.now) result (read_range room tokens.now) }
{
    let (left, rest) = atom(alloc, tokens, room)?;
    if !begins_range(rest) {
        return Ok((left, rest));
    }
    let (negated, rest) = optional_not(rest);
    predicate(alloc, left, negated, rest, room)
}

#[cycle(reading)]
#[tactic(auto, unfolding(crate::specs::Parts::read_range, crate::specs::Parts::read_cmp))]
fn cmp(alloc: Global, tokens: &[Token], room: u8) -> Result<(Expr, &[Token]), Stop>
    ensures { Gives (λ x. tree_of x.0) (λ x. x.1.now) result (read_cmp room tokens.now) }
{
    let (left, rest) = range(alloc, tokens, room)?;
    let Some((op, rest)) = operator(rest) else {
        return Ok((left, rest));
    };
    let (right, rest) = range(alloc, rest, room)?;
    Ok((compared(alloc, op, left, right)?, rest))
}

#[cycle(reading)]
#[tactic(auto, unfolding(crate::specs::Parts::read_right, crate::specs::Parts::read_cmp))]
fn is_right(
    alloc: Global,
    left: Expr,
    not: bool,
    tokens: &[Token],
    room: u8,
) -> Result<(Expr, &[Token]), Stop>
    ensures { Gives (λ x. tree_of x.0) (λ x. x.1.now) result (read_right room (tree_of left) not tokens.now) }
{
    let Some(rest) = after(tokens, Word::Distinct) else {
        let (test, rest) = test(tokens)?;
        return Ok((is_test(alloc, left, not, test)?, rest));
    };
    let rest = skip(rest, Word::From)?;
    let (right, rest) = cmp(alloc, rest, room)?;
    Ok((distinct(alloc, left, not, right)?, rest))
}

#[cycle(reading)]
#[tactic(auto, unfolding(crate::specs::Parts::read_right, crate::specs::Parts::read_cmp, crate::specs::Parts::read_is))]
fn is(alloc: Global, tokens: &[Token], room: u8) -> Result<(Expr, &[Token]), Stop>
    ensures { Gives (λ x. tree_of x.0) (λ x. x.1.now) result (read_is room tokens.now) }
{
    let (left, rest) = cmp(alloc, tokens, room)?;
    let Some(rest) = after(rest, Word::Is) else {
        return Ok((left, rest));
    };
    let (negated, rest) = optional_not(rest);
    is_right(alloc, left, negated, rest, room)
}

#[cycle(reading)]
#[tactic(auto, using(crate::proofs::Ranks::not_other, crate::proofs::Ranks::not_barred, crate::proofs::Ranks::not_read, crate::proofs::Ranks::not_refused))]
fn not(alloc: Global, tokens: &[Token], room: u8) -> Result<(Expr, &[Token]), Stop>
    ensures { Gives (λ x. tree_of x.0) (λ x. x.1.now) result (read_not room tokens.now) }
{
    let Some(rest) = after(tokens, Word::Not) else {
        return is(alloc, tokens, room);
    };
    if room == 0 {
        return Err(Stop::TooDeep(tokens));
    }
    let (inner, rest) = not(alloc, rest, room - 1)?;
    Ok((Expr::Not(Box::new(alloc, inner)?), rest))
}

#[cycle(reading)]
#[tactic(auto, unfolding(crate::specs::Parts::read_not, crate::specs::Parts::read_others, crate::specs::Parts::read_and))]
fn and(alloc: Global, tokens: &[Token], room: u8) -> Result<(Expr, &[Token]), Stop>
    ensures { Gives (λ x. tree_of x.0) (λ x. x.1.now) result (read_and room tokens.now) }
{
    let (first, rest) = not(alloc, tokens, room)?;
    let (members, rest) = others(alloc, Joint::And, rest, room)?;
    Ok((all(alloc, first, members)?, rest))
}

#[cycle(reading)]
#[tactic(auto, unfolding(crate::specs::Parts::read_and, crate::specs::Parts::read_others, crate::specs::Parts::read_or))]
fn or(alloc: Global, tokens: &[Token], room: u8) -> Result<(Expr, &[Token]), Stop>
    ensures { Gives (λ x. tree_of x.0) (λ x. x.1.now) result (read_or room tokens.now) }
{
    let (first, rest) = and(alloc, tokens, room)?;
    let (members, rest) = others(alloc, Joint::Or, rest, room)?;
    Ok((any(alloc, first, members)?, rest))
}

#[tactic(auto, unfolding(crate::specs::Parts::read_or, where_grammar::specs::Grammar::clause))]
fn end(alloc: Global, tokens: &[Token], room: u8) -> Result<(Expr, &[Token]), Stop>
    ensures { Gives (λ x. tree_of x.0) (λ x. x.1.now) result (clause_of room tokens.now) }
{
    let (tree, rest) = or(alloc, tokens, room)?;
    if rest.is_empty() {
        Ok((tree, rest))
    } else {
        Err(Stop::Syntax(rest))
    }
}

/// The tree of a clause nested no deeper than `room`.
pub fn read(alloc: Global, tokens: &[Token], room: u8) -> Result<Expr, Stop>
    ensures { Answered result (clause_of room tokens.now) }
{
    match end(alloc, tokens, room) {
        Ok((tree, _)) => Ok(tree),
        Err(stop) => Err(stop),
    }
}
