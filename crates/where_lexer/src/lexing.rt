//! From a text to its tokens.
ghost use Rattle.std.specs.Prelude.{◌≡◌, ◌≤◌, ◌<◌, ◌++◌, ◌∷◌, List, [], length, take, drop, IfOk, MatchOption, Option, Some, ℕ, true, false};
ghost use Rattle.std.specs.Str.{IsUtf8, str_to_ascii_lowercase};
ghost use Rattle.std.specs.Char.{is_ascii_digit};
ghost use Rattle.where_lexer.specs.Lexing.{scanned, named, texted, less, greater, word, number, sign, token_at, unquoted, run, past, begins_word, is_space};
ghost use Rattle.where_lexer.specs.Seen.{IsLexed, token_seen, text_seen, RestIsUtf8};
ghost use Rattle.where_lexer.specs.Classes.{passes, besides, PassAll};

use super::class::Class;
use super::token::{CmpOp, Token};
use shape_base::{OutOfMemory, Text};
use std::alloc::Global;

fn is_space(b: u8) -> bool
    ensures { result ≡ is_space b }
{
    b == 32 || b == 9 || b == 10 || b == 13 || b == 12
}

fn begins_word(b: u8) -> bool
    ensures { result ≡ begins_word b }
{
    b.is_ascii_alphabetic() || b == 95 || b >= 128
}

fn passes(class: Class, b: u8) -> bool
    ensures { result ≡ passes class b }
{
    match class {
        Class::Space => is_space(b),
        Class::Word => begins_word(b) || b.is_ascii_digit() || b == 36,
        Class::Digit => b.is_ascii_digit(),
    }
}

/// The longest front of bytes of the class, and the bytes after it.
fn span(bytes: &[u8], class: Class) -> (&[u8], &[u8])
    ensures front { result.0.now ≡ run (passes class) bytes.now }
    ensures rest { result.1.now ≡ past (passes class) bytes.now }
{
    let mut n = 0;
    while n < bytes.len() && passes(class, bytes[n]) {
        n += 1;
    }
    bytes.split_at(n)
}

/// The bytes before the first quote, and those from it on.
pub fn until(bytes: &[u8], quote: u8) -> (&[u8], &[u8])
    ensures front { result.0.now ≡ run (besides quote) bytes.now }
    ensures rest { result.1.now ≡ past (besides quote) bytes.now }
{
    let mut n = 0;
    while n < bytes.len() && bytes[n] != quote {
        n += 1;
    }
    bytes.split_at(n)
}

/// The first byte, and those after it.
pub fn next_byte(bytes: &[u8]) -> Option<(u8, &[u8])>
    ensures { MatchOption result (bytes.now ≡ []) (λ x. bytes.now ≡ x.0 ∷ x.1.now) }
{
    let (first, rest) = bytes.split_first()?;
    Some((*first, rest))
}

/// The text between quotes, and the bytes after the closing one; none where it has no end.
fn quoted(alloc: Global, bytes: &[u8], quote: u8) -> Result<Option<(Text, &[u8])>, OutOfMemory>
    requires utf8 { IsUtf8 bytes.now }
    requires ascii { quote < 128 }
    ensures read { IfOk result (λ o. text_seen o ≡ unquoted quote false bytes.now) }
    ensures rest { IfOk result (λ o. RestIsUtf8 o) }
{
    let mut content = Vec::new(alloc);
    let mut rest = bytes;
    loop {
        let (front, after) = until(rest, quote);
        content.extend_from_slice(front)?;
        let Some((_, tail)) = next_byte(after) else {
            return Ok(None);
        };
        let Some((next, more)) = next_byte(tail) else {
            return Ok(Some((Text::of_bytes(content), tail)));
        };
        if next != quote {
            return Ok(Some((Text::of_bytes(content), tail)));
        }
        content.push(quote)?;
        rest = more;
    }
}

/// The text in lower case.
fn lowered(alloc: Global, bytes: &[u8]) -> Result<Text, OutOfMemory>
    requires { IsUtf8 bytes.now }
    ensures { IfOk result (λ t. t ≡ str_to_ascii_lowercase bytes.now) }
{
    let mut lower = Vec::new(alloc);
    for b in bytes {
        lower.push(b.to_ascii_lowercase())?;
    }
    Ok(Text::of_bytes(lower))
}

#[tactic(auto, unfolding(crate::specs::Lexing::word))]
fn word(alloc: Global, bytes: &[u8]) -> Result<Token, OutOfMemory>
    requires { IsUtf8 bytes.now }
    ensures { IfOk result (λ t. t ≡ word bytes.now) }
{
    if bytes.eq_ignore_ascii_case(b"and") {
        Ok(Token::And)
    } else if bytes.eq_ignore_ascii_case(b"or") {
        Ok(Token::Or)
    } else if bytes.eq_ignore_ascii_case(b"not") {
        Ok(Token::Not)
    } else if bytes.eq_ignore_ascii_case(b"is") {
        Ok(Token::Is)
    } else if bytes.eq_ignore_ascii_case(b"null") {
        Ok(Token::Null)
    } else if bytes.eq_ignore_ascii_case(b"true") {
        Ok(Token::True)
    } else if bytes.eq_ignore_ascii_case(b"false") {
        Ok(Token::False)
    } else if bytes.eq_ignore_ascii_case(b"unknown") {
        Ok(Token::Unknown)
    } else if bytes.eq_ignore_ascii_case(b"distinct") {
        Ok(Token::Distinct)
    } else if bytes.eq_ignore_ascii_case(b"from") {
        Ok(Token::From)
    } else if bytes.eq_ignore_ascii_case(b"in") {
        Ok(Token::In)
    } else if bytes.eq_ignore_ascii_case(b"between") {
        Ok(Token::Between)
    } else if bytes.eq_ignore_ascii_case(b"like") {
        Ok(Token::Like)
    } else {
        Ok(Token::Name(lowered(alloc, bytes)?))
    }
}

fn less(bytes: &[u8]) -> (CmpOp, &[u8])
    ensures read { Some (Token.Compare result.0, result.1.now) ≡ less bytes.now }
    ensures rest { IsUtf8 bytes.now → IsUtf8 result.1.now }
{
    let Some((b, rest)) = next_byte(bytes) else {
        return (CmpOp::Lt, bytes);
    };
    if b == 61 {
        (CmpOp::Le, rest)
    } else if b == 62 {
        (CmpOp::Ne, rest)
    } else {
        (CmpOp::Lt, bytes)
    }
}

fn greater(bytes: &[u8]) -> (CmpOp, &[u8])
    ensures read { Some (Token.Compare result.0, result.1.now) ≡ greater bytes.now }
    ensures rest { IsUtf8 bytes.now → IsUtf8 result.1.now }
{
    let Some((b, rest)) = next_byte(bytes) else {
        return (CmpOp::Gt, bytes);
    };
    if b == 61 {
        (CmpOp::Ge, rest)
    } else {
        (CmpOp::Gt, bytes)
    }
}

#[tactic(auto, unfolding(crate::specs::Lexing::sign))]
fn sign(first: u8, bytes: &[u8]) -> Option<(Token, &[u8])>
    ensures read { token_seen result ≡ sign first bytes.now }
    ensures rest { IsUtf8 bytes.now → RestIsUtf8 result }
{
    if first == 40 {
        Some((Token::Open, bytes))
    } else if first == 41 {
        Some((Token::Close, bytes))
    } else if first == 44 {
        Some((Token::Comma, bytes))
    } else if first == 45 {
        Some((Token::Minus, bytes))
    } else if first == 61 {
        Some((Token::Compare(CmpOp::Eq), bytes))
    } else if first == 60 {
        let (op, rest) = less(bytes);
        Some((Token::Compare(op), rest))
    } else if first == 62 {
        let (op, rest) = greater(bytes);
        Some((Token::Compare(op), rest))
    } else if first == 33 {
        let Some((b, rest)) = next_byte(bytes) else {
            return None;
        };
        if b == 61 {
            Some((Token::Compare(CmpOp::Ne), rest))
        } else {
            None
        }
    } else {
        None
    }
}

fn number(bytes: &[u8]) -> u64
    requires { PassAll is_ascii_digit bytes.now }
    ensures { Token.Digits result ≡ number bytes.now }
{
    let mut n: u64 = 0;
    for b in bytes {
        n = n.saturating_mul(10).saturating_add(u64::from(*b - 48));
    }
    n
}

fn name(alloc: Global, bytes: &[u8]) -> Result<Option<(Token, &[u8])>, OutOfMemory>
    requires { IsUtf8 bytes.now }
    ensures read { IfOk result (λ o. token_seen o ≡ named (unquoted 34 false bytes.now)) }
    ensures rest { IfOk result (λ o. RestIsUtf8 o) }
{
    match quoted(alloc, bytes, 34)? {
        None => Ok(None),
        Some((text, rest)) => {
            if text.as_bytes().is_empty() {
                Ok(None)
            } else {
                Ok(Some((Token::Name(text), rest)))
            }
        }
    }
}

fn string(alloc: Global, bytes: &[u8]) -> Result<Option<(Token, &[u8])>, OutOfMemory>
    requires { IsUtf8 bytes.now }
    ensures read { IfOk result (λ o. token_seen o ≡ texted (unquoted 39 false bytes.now)) }
    ensures rest { IfOk result (λ o. RestIsUtf8 o) }
{
    match quoted(alloc, bytes, 39)? {
        None => Ok(None),
        Some((text, rest)) => Ok(Some((Token::Quoted(text), rest))),
    }
}

/// The token that the bytes begin with, and the bytes after it.
fn token(alloc: Global, bytes: &[u8]) -> Result<Option<(Token, &[u8])>, OutOfMemory>
    requires { IsUtf8 bytes.now }
    ensures read { IfOk result (λ o. token_seen o ≡ token_at bytes.now) }
    ensures rest { IfOk result (λ o. RestIsUtf8 o) }
{
    let Some((first, rest)) = next_byte(bytes) else {
        return Ok(None);
    };
    if begins_word(first) {
        let (front, after) = span(bytes, Class::Word);
        return Ok(Some((word(alloc, front)?, after)));
    }
    if first.is_ascii_digit() {
        let (front, after) = span(bytes, Class::Digit);
        return Ok(Some((Token::Digits(number(front)), after)));
    }
    if first == 34 {
        return name(alloc, rest);
    }
    if first == 39 {
        return string(alloc, rest);
    }
    Ok(sign(first, rest))
}

/// The tokens of a text, up to its end or the first byte that begins none.
#[derive(Drop)]
pub struct Lexed {
    pub tokens: Vec<Token>,
    /// For each token, how many bytes stand from it on.
    pub lefts: Vec<usize>,
    /// How many bytes stand from the end of the tokens on.
    pub left: usize,
}

/// The tokens of a text.
pub fn lex(alloc: Global, text: &[u8]) -> Result<Lexed, OutOfMemory>
    requires { IsUtf8 text.now }
    ensures { IfOk result (λ x. IsLexed (scanned text.now) x.tokens.items x.lefts.items x.left) }
{
    let mut tokens = Vec::new(alloc);
    let mut lefts = Vec::new(alloc);
    let mut rest = text;
    for step in 0..text.len() + 1 {
        let (_, bytes) = span(rest, Class::Space);
        match token(alloc, bytes)? {
            None => {
                return Ok(Lexed {
                    tokens,
                    lefts,
                    left: bytes.len(),
                });
            }
            Some((found, after)) => {
                tokens.push(found)?;
                lefts.push(bytes.len())?;
                rest = after;
            }
        }
    }
    Ok(Lexed {
        tokens,
        lefts,
        left: rest.len(),
    })
}
