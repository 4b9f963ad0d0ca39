//! Parameters of a query: the pairs of a web form (URL Standard, section 5), decoded.
ghost use Rattle.std.specs.Prelude.{◌≡◌, ◌⊎◌, ◌++◌, true, false, Err, IfOk, IfErr, map, option_map};
ghost use Rattle.std.specs.List.{list_all};
ghost use Rattle.std.specs.Str.{IsUtf8};
ghost use Rattle.shape_base.specs.Tables.{same_text};
ghost use Rattle.form_urlencoded.specs.Form.{split_once, plus_to_space, decode, parse};
ghost use Rattle.http_edge.specs.declared.refusal.Refusal.TheVariants as refusals;
ghost use Rattle.http_edge.specs.ReplySeen.{seen};
ghost use Rattle.http_edge.specs.Tried.{Never};
ghost use Rattle.http_edge.specs.Route.{FormTried};
ghost use Rattle.http_edge.specs.Parameters.{is_escaped, has_bad_percent, AreTexts, HasBadEscape, value_under, stands_twice, has_repeated, stands_for_itself, decoded, piece_text, pair_of, pairs_of};

use crate::refusal::Refusal;
use form_urlencoded::raw_pairs;
use percent_encoding::percent_decode;
use shape_base::{OutOfMemory, Text};
use std::alloc::Global;

/// A name or a value: bytes that stand for themselves, or a text that was decoded.
#[derive(Drop)]
pub enum Piece<'a> {
    Plain(&'a [u8]),
    Decoded(Text),
}

/// A name and its value.
#[derive(Drop)]
pub struct Parameter<'a> {
    name: Piece<'a>,
    value: Piece<'a>,
}

impl Piece<'_> {
    fn as_bytes(&self) -> &[u8]
        ensures { result.now ≡ piece_text self.now }
    {
        match self {
            Piece::Plain(bytes) => bytes,
            Piece::Decoded(text) => text.as_bytes(),
        }
    }
}

/// The bytes before the first separator, or all of them, and those after it.
pub fn split_once(bytes: &[u8], separator: u8) -> (&[u8], &[u8])
    ensures before { result.0.now ≡ (split_once separator bytes.now).0 }
    ensures after { result.1.now ≡ (split_once separator bytes.now).1 }
{
    match bytes.iter().position(|&byte| byte == separator) {
        Some(place) => (&bytes[..place], &bytes[place + 1..]),
        None => (bytes, &[]),
    }
}

fn is_digit(byte: u8) -> bool
    ensures { result ≡ Rattle.std.specs.Char.is_digit byte 16 }
{
    byte.is_ascii_hexdigit()
}

/// Whether two hexadecimal digits stand here.
fn is_escaped(text: &[u8]) -> bool
    ensures { result ≡ is_escaped text.now }
{
    match text {
        [first, second, ..] => is_digit(*first) && is_digit(*second),
        _ => false,
    }
}

/// Whether some percent sign of a web form has no two hexadecimal digits after it (URL Standard, section 1.3).
pub fn has_bad_percent(query: &[u8]) -> bool
    ensures { result ≡ has_bad_percent query.now }
{
    let mut rest = query;
    'bytes: while let Some((byte, others)) = rest.split_first() {
        if *byte == b'%' && !is_escaped(others) {
            return true;
        }
        rest = others;
    }
    false
}

fn stands_for_itself(byte: u8) -> bool
    ensures { result ≡ stands_for_itself byte }
{
    byte < 128 && !(byte == b'+' || byte == b'%')
}

fn is_plain(raw: &[u8]) -> bool
    ensures { result ≡ list_all stands_for_itself raw.now }
{
    raw.iter().all(|byte| stands_for_itself(*byte))
}

/// The bytes with a space in the place of each plus sign.
fn with_spaces(alloc: Global, raw: &[u8]) -> Result<Vec<u8>, OutOfMemory>
    ensures { IfOk result (λ out. out.items ≡ map plus_to_space raw.now) }
{
    let spaced = raw
        .iter()
        .map(|&byte| if byte == b'+' { b' ' } else { byte });
    Ok(spaced.collect(alloc)?)
}

/// The bytes that a name or a value of a web form stands for: each plus sign is a space, and each escape its byte (URL
/// Standard, section 5.1).
pub fn decoded(alloc: Global, raw: &[u8]) -> Result<Vec<u8>, OutOfMemory>
    ensures { IfOk result (λ out. out.items ≡ decode raw.now) }
{
    let spaced = with_spaces(alloc, raw)?;
    let mut out = Vec::with_capacity(alloc, spaced.len())?;
    percent_decode(spaced.as_slice()).append_to(&mut out)?;
    Ok(out)
}

/// The text that a name or a value stands for.
fn piece_of(alloc: Global, raw: &[u8]) -> Result<Piece<'_>, Refusal>
    ensures read { IfOk result (λ piece. (piece_text piece ≡ decode raw.now) × IsUtf8 (decode raw.now)) }
    ensures refused { IfErr result (λ e. (e ≡ refusals.OutOfMemory) ⊎ ((e ≡ refusals.BadEscape) × (IsUtf8 (decode raw.now) → ⊥))) }
{
    if is_plain(raw) {
        return Ok(Piece::Plain(raw));
    }
    match Text::from_bytes(decoded(alloc, raw)?) {
        Ok(text) => Ok(Piece::Decoded(text)),
        Err(_) => Err(Refusal::BadEscape),
    }
}

/// The parameter of a name and its value.
fn parameter_of<'a>(
    alloc: Global,
    name: &'a [u8],
    value: &'a [u8],
) -> Result<Parameter<'a>, Refusal>
    ensures read { IfOk result (λ p. (pair_of p ≡ decoded (name.now, value.now)) × (IsUtf8 (decode name.now) × IsUtf8 (decode value.now))) }
    ensures refused { IfErr result (λ e. (e ≡ refusals.OutOfMemory) ⊎ ((e ≡ refusals.BadEscape) × (IsUtf8 (decode name.now) × IsUtf8 (decode value.now) → ⊥))) }
{
    let name = match piece_of(alloc, name) {
        Ok(name) => name,
        Err(error) => return Err(error),
    };
    let value = match piece_of(alloc, value) {
        Ok(value) => value,
        Err(error) => return Err(error),
    };
    Ok(Parameter { name, value })
}

fn is_named(parameter: &Parameter<'_>, name: &[u8]) -> bool
    ensures { result ≡ same_text (pair_of parameter.now).0 name.now }
{
    parameter.name.as_bytes() == name
}

/// The value of the first parameter with this name.
pub fn value_under<'a>(parameters: &'a [Parameter<'_>], name: &[u8]) -> Option<&'a [u8]>
    ensures { option_map seen result ≡ value_under name.now (pairs_of parameters.now) }
{
    for parameter in parameters {
        if is_named(parameter, name) {
            return Some(parameter.value.as_bytes());
        }
    }
    None
}

fn stands_twice(parameters: &[Parameter<'_>], name: &[u8]) -> bool
    ensures { result ≡ stands_twice name.now (pairs_of parameters.now) }
{
    let mut once = false;
    for parameter in parameters {
        if is_named(parameter, name) {
            if once {
                return true;
            }
            once = true;
        }
    }
    false
}

/// Whether a name that is looked at stands there twice.
fn has_repeated(parameters: &[Parameter<'_>]) -> bool
    ensures { result ≡ has_repeated (pairs_of parameters.now) }
{
    stands_twice(parameters, b"table")
        || stands_twice(parameters, b"offset")
        || stands_twice(parameters, b"handle")
        || stands_twice(parameters, b"live")
        || stands_twice(parameters, b"cursor")
        || stands_twice(parameters, b"where")
        || stands_twice(parameters, b"columns")
}

/// The parameters of a query; `BadEscape` where a name or a value is not UTF-8.
fn texts_of(alloc: Global, query: &[u8]) -> Result<Vec<Parameter<'_>>, Refusal>
    ensures read { IfOk result (λ parameters. (pairs_of parameters.items ≡ parse query.now) × AreTexts (parse query.now)) }
    ensures refused { IfErr result (λ e. (e ≡ refusals.OutOfMemory) ⊎ ((e ≡ refusals.BadEscape) × (AreTexts (parse query.now) → ⊥))) }
{
    let mut parameters = Vec::new(alloc);
    let mut pairs = raw_pairs(query);
    'pairs: while let Some((name, value)) = pairs.next() {
        let parameter = match parameter_of(alloc, name, value) {
            Ok(parameter) => parameter,
            Err(error) => return Err(error),
        };
        parameters.push(parameter)?;
    }
    Ok(parameters)
}

/// The parameters of a query.
pub fn form_of(alloc: Global, query: &[u8]) -> Result<Vec<Parameter<'_>>, Refusal>
    ensures read { IfOk result (λ parameters. (pairs_of parameters.items ≡ parse query.now) × AreTexts (parse query.now)) }
    ensures good { IfOk result (λ parameters. (HasBadEscape query.now → ⊥) × (has_repeated (parse query.now) ≡ false)) }
    ensures refused { IfErr result (λ e. (e ≡ refusals.OutOfMemory) ⊎ FormTried query.now Never (Err e)) }
{
    if has_bad_percent(query) {
        return Err(Refusal::BadEscape);
    }
    let parameters = match texts_of(alloc, query) {
        Ok(parameters) => parameters,
        Err(error) => return Err(error),
    };
    if has_repeated(parameters.as_slice()) {
        return Err(Refusal::RepeatedParameter);
    }
    Ok(parameters)
}
