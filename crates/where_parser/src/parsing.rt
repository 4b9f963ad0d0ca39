//! From a text to its tree.
ghost use Rattle.std.specs.Prelude.{◌≡◌, ◌-◌, ℕ, length, slice_index_or, IfOk, IsErrOf, MatchResult};
ghost use Rattle.where_parser.specs.declared.parsing.ParseError.TheVariants as errors;
ghost use Rattle.where_grammar.specs.Clause.{tokens_in, IsClauseText};
ghost use Rattle.where_grammar.specs.Meaning.{clause_of};
ghost use Rattle.where_grammar.specs.Tree.{Tree};
ghost use Rattle.where_parser.specs.View.{tree_of};
ghost use Rattle.where_parser.specs.Whole.{IsTreeOf, IsSyntaxAt, IsDeepAt, Faulty, Gave, answer_of};

use super::expr::Expr;
use super::reading::read;
use super::stop::Stop;
use shape_base::{OutOfMemory, Text};
use std::alloc::Global;
use where_lexer::{Lexed, lex};

/// Why a text is no clause; a place is a number of bytes from its start.
#[derive(Debug, Drop)]
pub enum ParseError {
    OutOfMemory,
    Syntax { place: u64 },
    TooDeep { place: u64 },
}

impl From<OutOfMemory> for ParseError {
    ghost use Rattle.std.specs.Prelude.{◌≡◌};
    ghost use Rattle.where_parser.specs.declared.parsing.ParseError.TheVariants as errors;

    ghost from_gives = { λ _ e. e ≡ errors.OutOfMemory };

    fn from(_error: OutOfMemory) -> ParseError {
        ParseError::OutOfMemory
    }
}

/// How deep groups and NOT words may stand in one another.
pub const NESTING: u8 = 64;

/// How many bytes stand from the last `count` tokens on.
fn left_of(lexed: &Lexed, count: usize) -> usize
    ensures { result ≡ slice_index_or lexed.now.lefts.items (length lexed.now.tokens.items - count) lexed.now.left }
{
    let at = lexed.tokens.len().saturating_sub(count);
    match lexed.lefts.get(at) {
        Some(left) => *left,
        None => lexed.left,
    }
}

/// The answer to the tokens, with its place in the text.
fn answer(alloc: Global, text: &Text) -> Result<Expr, ParseError>
    ensures { Gave result (answer_of text.now (clause_of 64 (tokens_in text.now))) }
{
    let bytes = text.as_bytes();
    let lexed = lex(alloc, bytes)?;
    match read(alloc, lexed.tokens.as_slice(), NESTING) {
        Ok(tree) => {
            if lexed.left == 0 {
                Ok(tree)
            } else {
                Err(ParseError::Syntax {
                    place: bytes.len().saturating_sub(lexed.left) as u64,
                })
            }
        }
        Err(Stop::Memory) => Err(ParseError::OutOfMemory),
        Err(Stop::Syntax(rest)) => Err(ParseError::Syntax {
            place: bytes.len().saturating_sub(left_of(&lexed, rest.len())) as u64,
        }),
        Err(Stop::TooDeep(rest)) => Err(ParseError::TooDeep {
            place: bytes.len().saturating_sub(left_of(&lexed, rest.len())) as u64,
        }),
    }
}

/// The tree of a clause.
///
/// `Syntax` stands at the first token that cannot continue what stands before it, at whatever nesting: the byte
/// where it begins, the length of the text where the text ends too early, the opening quote of an unended string or
/// name, the first digit of an integer out of range, or the byte that begins no token. `TooDeep` stands at the
/// parenthesis or NOT where the nesting first passes 64. The first fault from the left is the answer.
pub fn parse(alloc: Global, text: &Text) -> Result<Expr, ParseError>
    ensures tree { IfOk result (λ e. IsTreeOf text.now (tree_of e)) }
    ensures read { (tree : Tree) → IsClauseText 64 text.now tree → MatchResult result (λ e. tree_of e ≡ tree) (λ error. error ≡ errors.OutOfMemory) }
    ensures syntax { (place : ℕ) → IsErrOf result (errors.Syntax place) → IsSyntaxAt text.now place }
    ensures syntax_found { (place : ℕ) → IsSyntaxAt text.now place → Faulty (errors.Syntax place) result }
    ensures too_deep { (place : ℕ) → IsErrOf result (errors.TooDeep place) → IsDeepAt text.now place }
    ensures too_deep_found { (place : ℕ) → IsDeepAt text.now place → Faulty (errors.TooDeep place) result }
{
    answer(alloc, text)
}
