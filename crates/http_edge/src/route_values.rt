//! The values of parameters.
ghost use Rattle.std.specs.Prelude.{◌≡◌, ◌⊎◌, ◌≢◌, ◌<◌, ◌++◌, ◌∷◌, [], ℕ, length, Err, Some, None, IfOk, IfErr, IfSome, IsNone, OnOk, option_map};
ghost use Rattle.std.specs.Str.{IsUtf8};
ghost use Rattle.std.specs.List.{list_any};
ghost use Rattle.form_urlencoded.specs.Form.{split};
ghost use Rattle.shape_base.specs.OffsetText.{IsOffset, offset_text};
ghost use Rattle.shape_def.specs.Clauses.{answer_in};
ghost use Rattle.http_edge.specs.declared.refusal.Refusal.TheVariants as refusals;
ghost use Rattle.http_edge.specs.ReplySeen.{seen};
ghost use Rattle.http_edge.specs.Tried.{Never, of_parse, IsSyntaxRefusal, IsCut};
ghost use Rattle.http_edge.specs.Route.{IsTooLong, place_in, syntax_place, IsTextOf, IsCanonical, ClauseTried, is_value, HasNoOffset, NamedIs, CursorIs, names_of};

use crate::refusal::Refusal;
use shape_base::{
    Handle, HandleError, Named, Offset, OutOfMemory, Text, Texts, read_decimal, split_at_first,
};
use std::alloc::Global;
use where_parser::{ParseError, parse, print};

/// How many bytes a clause may have.
const LONGEST_CLAUSE: usize = 8192;

/// A copy of bytes that are UTF-8.
fn text_of(alloc: Global, bytes: &[u8]) -> Result<Text, OutOfMemory>
    requires { IsUtf8 bytes.now }
    ensures { IfOk result (λ text. text ≡ bytes.now) }
{
    Ok(Text::of_bytes(Vec::from_slice(alloc, bytes)?))
}

fn refusal_of(error: &ParseError) -> Refusal
    ensures { result ≡ of_parse error.now }
{
    match error {
        ParseError::OutOfMemory => Refusal::OutOfMemory,
        ParseError::Syntax { place } => Refusal::WhereSyntax { place: *place },
        ParseError::TooDeep { place } => Refusal::WhereSyntax { place: *place },
    }
}

/// The canonical text of a clause.
fn canonical(alloc: Global, clause: &Text) -> Result<Text, Refusal>
    ensures read { IfOk result (λ text. IsTextOf (answer_in clause.now) text × (place_in (answer_in clause.now) ≡ None)) }
    ensures refused { IfErr result (λ e. (e ≡ refusals.OutOfMemory) ⊎ IsSyntaxRefusal (answer_in clause.now) e) }
{
    match parse(alloc, clause) {
        Ok(tree) => Ok(print(alloc, &tree)?),
        Err(error) => Err(refusal_of(&error)),
    }
}

/// The canonical text of a clause, where there is one.
pub fn clause_in(alloc: Global, value: Option<&[u8]>) -> Result<Option<Text>, Refusal>
    requires { IfSome (option_map seen value) IsUtf8 }
    ensures read { IfOk result (λ clause. IsCanonical (option_map seen value.entry) clause) }
    ensures good { IfOk result (λ clause. (IsTooLong (option_map seen value.entry) → ⊥) × (syntax_place (option_map seen value.entry) ≡ None)) }
    ensures refused { IfErr result (λ e. (e ≡ refusals.OutOfMemory) ⊎ ClauseTried (option_map seen value.entry) Never (Err e)) }
{
    let Some(clause) = value else {
        return Ok(None);
    };
    if clause.len() > LONGEST_CLAUSE {
        return Err(Refusal::WhereTooLong);
    }
    let clause = text_of(alloc, clause)?;
    match canonical(alloc, &clause) {
        Ok(text) => Ok(Some(text)),
        Err(error) => Err(error),
    }
}

/// Whether the value is this text.
pub fn is_value(text: &[u8], value: Option<&[u8]>) -> bool
    ensures { result ≡ is_value text.now (option_map seen value.entry) }
{
    match value {
        Some(value) => value == text,
        None => false,
    }
}

/// The offset that a value names.
pub fn offset_in(value: Option<&[u8]>) -> Option<Offset>
    ensures read { IfSome result (λ offset. IsOffset offset × (option_map seen value.entry ≡ Some (offset_text offset))) }
    ensures refused { IsNone result → HasNoOffset (option_map seen value.entry) }
{
    let value = value?;
    match Offset::read(value) {
        Ok(offset) => Some(offset),
        Err(_) => None,
    }
}

/// The handle that a value names.
pub fn named_in(alloc: Global, value: Option<&[u8]>) -> Result<Named, OutOfMemory>
    ensures { IfOk result (λ named. NamedIs (option_map seen value.entry) named) }
{
    let Some(value) = value else {
        return Ok(Named::Absent);
    };
    match Handle::read(alloc, value) {
        Ok(handle) => Ok(Named::Known(handle)),
        Err(HandleError::BadHandle) => Ok(Named::Strange),
        Err(HandleError::OutOfMemory) => Err(OutOfMemory),
    }
}

/// The cursor that a value names; 0 where it names none.
pub fn cursor_in(value: Option<&[u8]>) -> u64
    ensures { CursorIs (option_map seen value.entry) result }
{
    let Some(value) = value else {
        return 0;
    };
    match read_decimal(value) {
        Some(cursor) => cursor,
        None => 0,
    }
}

/// The bytes before the first comma, and those behind it where there is one.
fn first_name(names: &[u8]) -> (&[u8], Option<&[u8]>)
    requires { IsUtf8 names.now }
    ensures { IsCut names.now result.0.now (option_map seen result.1) }
{
    match split_at_first(names, b',') {
        Some((name, rest)) => (name, Some(rest)),
        None => (names, None),
    }
}

/// The names between commas.
fn names_in(alloc: Global, names: &[u8]) -> Result<Texts, OutOfMemory>
    requires { IsUtf8 names.now }
    ensures { IfOk result (λ out. out ≡ split 44 names.now) }
{
    let mut out = Texts::new(alloc);
    let mut rest = Some(names);
    'names: while let Some(names) = rest {
        let (name, others) = first_name(names);
        out.push(text_of(alloc, name)?)?;
        rest = others;
    }
    Ok(out)
}

/// The names of the chosen columns, where there are such.
pub fn columns_in(alloc: Global, value: Option<&[u8]>) -> Result<Option<Texts>, OutOfMemory>
    requires { IfSome (option_map seen value) IsUtf8 }
    ensures { IfOk result (λ columns. columns ≡ names_of (option_map seen value.entry)) }
{
    match value {
        Some(names) => Ok(Some(names_in(alloc, names)?)),
        None => Ok(None),
    }
}
