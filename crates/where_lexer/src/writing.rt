//! From tokens to their canonical text.
ghost use Rattle.std.specs.Prelude.{◌≡◌, ◌<◌, ◌++◌, ◌∷◌, [], List, cond, OnOk};
ghost use Rattle.std.specs.Str.{IsUtf8};
ghost use Rattle.where_lexer.specs.declared.token.Token.{Token};
ghost use Rattle.where_lexer.specs.declared.token.Token.TheVariants as tokens;
ghost use Rattle.where_lexer.specs.Texts.{doubled, text_of};
ghost use Rattle.where_lexer.specs.Writing.{appended, put, blank, with_tokens, IsRun};

use super::lexing::{next_byte, until};
use super::token::{CmpOp, Token};
use itoa::Buffer;
use shape_base::{OutOfMemory, Text};
use std::alloc::Global;
use std::marker::Model;

/// A canonical text as it is written, token by token: contracts see what is written, and whether the next token
/// stands right behind it.
#[derive(Drop)]
pub struct Writer {
    bytes: Vec<u8>,
    joins: bool,
}

impl Model for Writer {
    ghost use Rattle.std.specs.Str.{IsUtf8};
    ghost use Rattle.where_lexer.specs.Writing.{Written};

    ghost Value = { Written };

    ghost view = { λ w. record { text = w.bytes.items; joins = w.joins } };

    ghost invariant = { λ w. IsUtf8 w.bytes.items };
}

/// Whether a space stands before a piece.
fn gap(joins: bool, left: bool) -> &'static str
    ensures { result.now ≡ cond joins [] (cond left [] (32 ∷ [])) }
{
    if joins || left { "" } else { " " }
}

fn push_text(bytes: &mut Vec<u8>, text: &str) -> Result<(), OutOfMemory>
    ensures written { OnOk result (bytes.new.items ≡ bytes.old.items ++ text.now) }
    ensures utf8 { IsUtf8 bytes.old.items → IsUtf8 bytes.new.items }
{
    bytes.extend_from_slice(text.as_bytes())?;
    Ok(())
}

/// The bytes before the first quote, and those behind it.
fn next_run(rest: &[u8], quote: u8) -> (&[u8], Option<&[u8]>)
    requires utf8 { IsUtf8 rest.now }
    requires ascii { quote < 128 }
    ensures { IsRun quote rest.now result.0.now result.1 }
{
    let (front, after) = until(rest, quote);
    match next_byte(after) {
        None => (front, None),
        Some((_, tail)) => (front, Some(tail)),
    }
}

/// Writes the text with each quote twice.
fn push_doubled(bytes: &mut Vec<u8>, text: &[u8], quote: u8) -> Result<(), OutOfMemory>
    requires utf8 { IsUtf8 text.now }
    requires ascii { quote < 128 }
    ensures written { OnOk result (bytes.new.items ≡ bytes.old.items ++ doubled quote text.now) }
    ensures utf8 { IsUtf8 bytes.old.items → IsUtf8 bytes.new.items }
{
    let mut rest = text;
    loop {
        let (front, after) = next_run(rest, quote);
        bytes.extend_from_slice(front)?;
        let Some(tail) = after else {
            return Ok(());
        };
        bytes.extend_from_slice(&[quote, quote])?;
        rest = tail;
    }
}

impl Writer {
    /// A blank page.
    pub fn new(alloc: Global) -> Writer
        ensures { result ≡ blank }
    {
        Writer {
            bytes: Vec::new(alloc),
            joins: true,
        }
    }

    /// Writes one piece, behind a space where neither side goes without.
    fn piece(&mut self, text: &str, left: bool, right: bool) -> Result<(), OutOfMemory>
        ensures { OnOk result (self.new ≡ appended self.old text.now left right) }
    {
        push_text(&mut self.bytes, gap(self.joins, left))?;
        push_text(&mut self.bytes, text)?;
        self.joins = right;
        Ok(())
    }

    /// Writes the integer in digits.
    pub fn put_digits(&mut self, n: u64) -> Result<(), OutOfMemory>
        ensures { OnOk result (self.new ≡ put self.old (tokens.Digits n)) }
    {
        let mut buffer = Buffer::new();
        self.piece(buffer.format(n), false, false)
    }

    /// Writes the name between quotes.
    pub fn put_name(&mut self, name: &Text) -> Result<(), OutOfMemory>
        ensures { OnOk result (self.new ≡ put self.old (tokens.Name name.now)) }
    {
        self.piece("\"", false, false)?;
        push_doubled(&mut self.bytes, name.as_bytes(), 34)?;
        push_text(&mut self.bytes, "\"")
    }

    /// Writes the string between quotes.
    pub fn put_quoted(&mut self, text: &Text) -> Result<(), OutOfMemory>
        ensures { OnOk result (self.new ≡ put self.old (tokens.Quoted text.now)) }
    {
        self.piece("'", false, false)?;
        push_doubled(&mut self.bytes, text.as_bytes(), 39)?;
        push_text(&mut self.bytes, "'")
    }

    fn put_op(&mut self, op: CmpOp) -> Result<(), OutOfMemory>
        ensures { OnOk result (self.new ≡ put self.old (tokens.Compare op)) }
    {
        match op {
            CmpOp::Eq => self.piece("=", false, false),
            CmpOp::Ne => self.piece("<>", false, false),
            CmpOp::Lt => self.piece("<", false, false),
            CmpOp::Le => self.piece("<=", false, false),
            CmpOp::Gt => self.piece(">", false, false),
            CmpOp::Ge => self.piece(">=", false, false),
        }
    }

    /// Writes one token.
    pub fn put(&mut self, token: &Token) -> Result<(), OutOfMemory>
        ensures { OnOk result (self.new ≡ put self.old token.now) }
    {
        match token {
            Token::Open => self.piece("(", false, true),
            Token::Close => self.piece(")", true, false),
            Token::Comma => self.piece(",", true, false),
            Token::Minus => self.piece("-", false, true),
            Token::Compare(op) => self.put_op(*op),
            Token::And => self.piece("AND", false, false),
            Token::Or => self.piece("OR", false, false),
            Token::Not => self.piece("NOT", false, false),
            Token::Is => self.piece("IS", false, false),
            Token::Null => self.piece("NULL", false, false),
            Token::True => self.piece("TRUE", false, false),
            Token::False => self.piece("FALSE", false, false),
            Token::Unknown => self.piece("UNKNOWN", false, false),
            Token::Distinct => self.piece("DISTINCT", false, false),
            Token::From => self.piece("FROM", false, false),
            Token::In => self.piece("IN", false, false),
            Token::Between => self.piece("BETWEEN", false, false),
            Token::Like => self.piece("LIKE", false, false),
            Token::Name(name) => self.put_name(name),
            Token::Quoted(text) => self.put_quoted(text),
            Token::Digits(n) => self.put_digits(*n),
        }
    }

    /// The text that is written: the canonical text of the tokens that were written on a blank page.
    pub fn into_text(self) -> Text
        ensures text { result ≡ self.text }
        ensures canonical { (written : List Token) → self ≡ with_tokens blank written → result ≡ text_of written }
    {
        Text::of_bytes(self.bytes)
    }
}
