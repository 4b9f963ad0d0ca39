//! What stands at the front of the tokens: one word, a joint, an optional NOT.
ghost use Rattle.std.specs.Prelude.{◌≡◌, ◌∷◌, [], MatchOption, true, false};
ghost use Rattle.ll_rules.specs.Rules.{leads, one_read, Read, Refuse, Syntax};
ghost use Rattle.where_grammar.specs.Grammar.{has, begins_range, maybe_not, Whatever};
ghost use Rattle.where_parser.specs.View.{Gives};
ghost use Rattle.where_parser.specs.Parts.{mark, joint as joint_passes, IsJoined};

use super::stop::Stop;
use super::word::{Joint, Word};
use where_lexer::Token;

/// The first token, and those after it.
pub(crate) fn next(tokens: &[Token]) -> Option<(&Token, &[Token])>
    ensures { MatchOption result (tokens.now ≡ []) (λ x. tokens.now ≡ x.0.now ∷ x.1.now) }
{
    tokens.split_first()
}

/// Whether the token is that word.
fn is_word(token: &Token, word: Word) -> bool
    ensures { result ≡ has (mark word) token.now }
{
    match word {
        Word::Open => matches!(token, Token::Open),
        Word::Close => matches!(token, Token::Close),
        Word::Comma => matches!(token, Token::Comma),
        Word::Minus => matches!(token, Token::Minus),
        Word::And => matches!(token, Token::And),
        Word::Or => matches!(token, Token::Or),
        Word::Not => matches!(token, Token::Not),
        Word::Is => matches!(token, Token::Is),
        Word::Distinct => matches!(token, Token::Distinct),
        Word::From => matches!(token, Token::From),
        Word::In => matches!(token, Token::In),
        Word::Between => matches!(token, Token::Between),
        Word::Like => matches!(token, Token::Like),
    }
}

/// The tokens after the word, where it stands at the front.
pub(crate) fn after(tokens: &[Token], word: Word) -> Option<&[Token]>
    ensures { MatchOption result
        ((leads (has (mark word)) tokens.now ≡ false) × (one_read (mark word) tokens.now ≡ Refuse Syntax tokens.now))
        (λ rest. (leads (has (mark word)) tokens.now ≡ true) × (one_read (mark word) tokens.now ≡ Read tt rest.now)) }
{
    let (token, rest) = next(tokens)?;
    if is_word(token, word) {
        Some(rest)
    } else {
        None
    }
}

/// The tokens after the word, which has to stand at the front.
pub(crate) fn skip(tokens: &[Token], word: Word) -> Result<&[Token], Stop>
    ensures { Gives (λ x. tt) (λ x. x.now) result (one_read (mark word) tokens.now) }
{
    match after(tokens, word) {
        Some(rest) => Ok(rest),
        None => Err(Stop::Syntax(tokens)),
    }
}

/// The tokens after a joint, where it stands at the front.
pub(crate) fn after_joint(tokens: &[Token], joint: Joint) -> Option<&[Token]>
    ensures { MatchOption result
        (leads (joint_passes joint) tokens.now ≡ false)
        (λ rest. IsJoined joint tokens.now rest.now) }
{
    let (token, rest) = next(tokens)?;
    let found = match joint {
        Joint::Comma => is_word(token, Word::Comma),
        Joint::And => is_word(token, Word::And),
        Joint::Or => is_word(token, Word::Or),
    };
    if found { Some(rest) } else { None }
}

/// Whether NOT stands at the front, and the tokens after it.
pub(crate) fn optional_not(tokens: &[Token]) -> (bool, &[Token])
    ensures { (maybe_not Whatever).read tokens.now ≡ Read result.0 result.1.now }
{
    match after(tokens, Word::Not) {
        Some(rest) => (true, rest),
        None => (false, tokens),
    }
}

/// Whether a range predicate begins here: NOT, IN, BETWEEN or LIKE.
pub(crate) fn begins_range(tokens: &[Token]) -> bool
    ensures { result ≡ leads begins_range tokens.now }
{
    let Some((token, _)) = next(tokens) else {
        return false;
    };
    match token {
        Token::Not => true,
        Token::In => true,
        Token::Between => true,
        Token::Like => true,
        _ => false,
    }
}
