//! What is read with no clause inside it: values, patterns, tests and operators.
ghost use Rattle.std.specs.Prelude.{◌≡◌, MatchOption, true, false};
ghost use Rattle.ll_rules.specs.Rules.{leads, one_read, Read};
ghost use Rattle.where_grammar.specs.Grammar.{has, an_op, a_test, a_pattern};
ghost use Rattle.where_parser.specs.View.{Gives, tree_of};
ghost use Rattle.where_parser.specs.Parts.{read_plain, read_negative, read_like};

use super::expr::Expr;
use super::front::next;
use super::stop::Stop;
use shape_base::{Duplicate, Text};
use std::alloc::Global;
use where_grammar::words::IsTest;
use where_lexer::{CmpOp, Token};

const SMALLEST: u64 = 1 << 63;

/// A number behind a minus.
#[tactic(auto, unfolding(crate::specs::Parts::read_negative))]
fn negative(tokens: &[Token]) -> Result<(Expr, &[Token]), Stop>
    ensures { Gives (λ x. tree_of x.0) (λ x. x.1.now) result (read_negative tokens.now) }
{
    let Some((token, rest)) = next(tokens) else {
        return Err(Stop::Syntax(tokens));
    };
    match token {
        Token::Digits(n) => {
            if *n > SMALLEST {
                Err(Stop::Syntax(tokens))
            } else if *n == SMALLEST {
                Ok((Expr::Int(i64::MIN), rest))
            } else {
                Ok((Expr::Int(-(*n as i64)), rest))
            }
        }
        _ => Err(Stop::Syntax(tokens)),
    }
}

/// A name, or a literal.
#[tactic(auto, unfolding(crate::specs::Parts::read_plain, crate::specs::Parts::read_negative))]
pub(crate) fn plain(alloc: Global, tokens: &[Token]) -> Result<(Expr, &[Token]), Stop>
    ensures { Gives (λ x. tree_of x.0) (λ x. x.1.now) result (read_plain tokens.now) }
{
    let Some((token, rest)) = next(tokens) else {
        return Err(Stop::Syntax(tokens));
    };
    match token {
        Token::Minus => negative(rest),
        Token::Name(name) => Ok((Expr::Name(name.copy(alloc)?), rest)),
        Token::Quoted(text) => Ok((Expr::Quoted(text.copy(alloc)?), rest)),
        Token::Digits(n) => {
            if *n < SMALLEST {
                Ok((Expr::Int(*n as i64), rest))
            } else {
                Err(Stop::Syntax(tokens))
            }
        }
        Token::True => Ok((Expr::Bool(true), rest)),
        Token::False => Ok((Expr::Bool(false), rest)),
        Token::Null => Ok((Expr::Null, rest)),
        _ => Err(Stop::Syntax(tokens)),
    }
}

/// The pattern of LIKE.
fn pattern(alloc: Global, tokens: &[Token]) -> Result<(Text, &[Token]), Stop>
    ensures { Gives (λ x. x.0) (λ x. x.1.now) result (one_read a_pattern tokens.now) }
{
    let Some((token, rest)) = next(tokens) else {
        return Err(Stop::Syntax(tokens));
    };
    match token {
        Token::Quoted(text) => Ok((text.copy(alloc)?, rest)),
        _ => Err(Stop::Syntax(tokens)),
    }
}

/// What IS tests.
pub(crate) fn test(tokens: &[Token]) -> Result<(IsTest, &[Token]), Stop>
    ensures { Gives (λ x. x.0) (λ x. x.1.now) result (one_read a_test tokens.now) }
{
    let Some((token, rest)) = next(tokens) else {
        return Err(Stop::Syntax(tokens));
    };
    match token {
        Token::Null => Ok((IsTest::Null, rest)),
        Token::True => Ok((IsTest::True, rest)),
        Token::False => Ok((IsTest::False, rest)),
        Token::Unknown => Ok((IsTest::Unknown, rest)),
        _ => Err(Stop::Syntax(tokens)),
    }
}

/// A comparison, where it stands at the front.
pub(crate) fn operator(tokens: &[Token]) -> Option<(CmpOp, &[Token])>
    ensures { MatchOption result (leads (has an_op) tokens.now ≡ false)
        (λ x. (leads (has an_op) tokens.now ≡ true) × (one_read an_op tokens.now ≡ Read x.0 x.1.now)) }
{
    let (token, rest) = next(tokens)?;
    match token {
        Token::Compare(op) => Some((*op, rest)),
        _ => None,
    }
}

/// LIKE, behind its word.
#[tactic(auto, unfolding(crate::specs::Parts::read_like))]
pub(crate) fn like(
    alloc: Global,
    left: Expr,
    not: bool,
    tokens: &[Token],
) -> Result<(Expr, &[Token]), Stop>
    ensures { Gives (λ x. tree_of x.0) (λ x. x.1.now) result (read_like (tree_of left) not tokens.now) }
{
    let (pattern, rest) = pattern(alloc, tokens)?;
    let left = Box::new(alloc, left)?;
    Ok((Expr::Like { left, not, pattern }, rest))
}
