//! Heads of requests, read (RFC 9112, sections 2 to 6).
ghost use Rattle.std.specs.Prelude.{◌≡◌, ◌≢◌, ℕ, ◌≤◌, List, ◌∷◌, ◌++◌, length, IfSome, IfOk, IsNone, MatchBool, Err};
ghost use Rattle.shape_base.specs.Decimal.{IsSplit, LacksByte};
ghost use Rattle.httparse.specs.Grammar.{HasNoRequest, NeverHasRequest, MayBecomeRequest};
ghost use Rattle.httparse.specs.Spans.{IsRequestWithin, RequestOverflows, IsRequestOf as IsHeadOf};
ghost use Rattle.http_edge.specs.Head.{front, HasMore, CanBegin, IsRequestAnswer, IsHeadAnswer};

use crate::head_fields::{have_body, have_close};
use crate::request::{HeadError, Request};
use crate::text_front::begins_text;
use httparse::spans::{EMPTY_HEADER_SPAN, HeaderSpan, RequestSpans, parse_request};
use httparse::{Error, Status};
use shape_base::{OutOfMemory, Text, split_at_first};
use std::alloc::Global;

/// A head has at most this many bytes.
const LONGEST: usize = 16_384;

/// What stands behind the only space of the bytes, or none where they have none or several.
fn behind_only_space(bytes: &[u8]) -> Option<&[u8]>
    ensures found { IfSome result (λ rest. (before : List ℕ) × IsSplit 32 bytes.now before rest.now × LacksByte 32 rest.now) }
    ensures absent { IsNone result → (before rest : List ℕ) → bytes.now ≡ before ++ 32 ∷ rest → LacksByte 32 before → LacksByte 32 rest → ⊥ }
{
    let (_, rest) = split_at_first(bytes, b' ')?;
    match split_at_first(rest, b' ') {
        Some(_) => None,
        None => Some(rest),
    }
}

/// Whether bytes can follow these that make a head. The parser does not tell where they end inside the target, which has
/// to be UTF-8 once it is whole. The method ends at the first space and the target at the second, so such bytes have one.
fn can_begin(bytes: &[u8]) -> bool
    requires { MayBecomeRequest bytes.now }
    ensures { MatchBool result (CanBegin bytes.now) (NeverHasRequest bytes.now) }
{
    match behind_only_space(bytes) {
        Some(target) => begins_text(target),
        None => true,
    }
}

/// Why bytes without a whole head are refused.
fn refusal_of_unfinished(input: &[u8], bytes: &[u8]) -> HeadError
    requires looked_at { bytes.now ≡ front input.now }
    requires none { HasNoRequest bytes.now }
    requires may { MayBecomeRequest bytes.now }
    ensures { IsHeadAnswer input.now (Err result) }
{
    if !can_begin(bytes) {
        return HeadError::BadHead;
    }
    if input.len() > LONGEST {
        return HeadError::HeadTooLong;
    }
    HeadError::Partial
}

/// Why bytes are refused whose head, if they begin with one, has more than 64 fields. They are parsed with room for as
/// many fields as there are bytes.
fn refusal_of_many(alloc: Global, input: &[u8], bytes: &[u8]) -> HeadError
    requires looked_at { bytes.now ≡ front input.now }
    requires many { RequestOverflows 64 bytes.now }
    ensures { IsHeadAnswer input.now (Err result) }
{
    let Ok(mut fields) = vec![in alloc; EMPTY_HEADER_SPAN; bytes.len()] else {
        return HeadError::OutOfMemory;
    };
    match parse_request(bytes, fields.as_mut_slice()) {
        Ok(Status::Complete(_)) => HeadError::HeadTooLong,
        Ok(Status::Partial) => refusal_of_unfinished(input, bytes),
        Err(_) => HeadError::BadHead,
    }
}

/// Why bytes are refused that are no head with at most 64 fields, and begin none.
fn refusal_of_fault(alloc: Global, input: &[u8], bytes: &[u8], fault: Error) -> HeadError
    requires looked_at { bytes.now ≡ front input.now }
    requires many { RequestOverflows 64 bytes.now }
    requires never { fault ≢ Error.TooManyHeaders → NeverHasRequest bytes.now }
    ensures { IsHeadAnswer input.now (Err result) }
{
    match fault {
        Error::TooManyHeaders => refusal_of_many(alloc, input, bytes),
        _ => HeadError::BadHead,
    }
}

/// The request of a whole head of at most 64 fields.
fn request_of(
    alloc: Global,
    bytes: &[u8],
    fields: &[HeaderSpan],
    head: &RequestSpans,
) -> Result<Request, HeadError>
    requires few { length fields.now ≤ 64 }
    requires within { IsRequestWithin bytes.now fields.now head.now }
    requires head_is { IsHeadOf bytes.now fields.now head.now }
    ensures { IsRequestAnswer bytes.now result }
{
    let fields = &fields[..head.headers];
    if have_body(bytes, fields) {
        return Err(HeadError::BodyRefused);
    }
    let Ok(target) = Vec::from_slice(alloc, head.path.of(bytes)) else {
        return Err(HeadError::OutOfMemory);
    };
    Ok(Request {
        length: head.len as u64,
        get: head.method.of(bytes) == b"GET".as_slice(),
        target: Text::of_bytes(target),
        close: head.version == 0 || have_close(bytes, fields),
    })
}

/// Whether more bytes follow the head with which the input begins, however many fields that has. The head is looked for
/// in the first 16,384 bytes of the input.
pub fn has_more(alloc: Global, input: &[u8]) -> Result<bool, OutOfMemory>
    ensures { IfOk result (λ more. MatchBool more (HasMore input.now) (HasMore input.now → ⊥)) }
{
    let bytes = &input[..input.len().min(LONGEST)];
    let mut fields = vec![in alloc; EMPTY_HEADER_SPAN; bytes.len()]?;
    match parse_request(bytes, fields.as_mut_slice()) {
        Ok(Status::Complete(head)) => Ok(head.len < input.len()),
        Ok(Status::Partial) => Ok(false),
        Err(_) => Ok(false),
    }
}

/// The request whose head the input begins with. The first 16,384 bytes of the input are looked at.
///
/// `HeadTooLong` comes exactly where they begin with a head of more than 64 fields, or where the input has more bytes
/// and these are unfinished: they begin with no head, and some continuation of them does. `Partial` comes exactly where
/// the input has no more bytes and is unfinished. `BadHead` comes exactly where no continuation of them begins with a
/// head. `BodyRefused` comes exactly where they begin with a head of at most 64 fields, one of which is a
/// `transfer-encoding`, or a `content-length` other than `0`.
pub fn read_request(alloc: Global, input: &[u8]) -> Result<Request, HeadError>
    ensures { IsHeadAnswer input.now result }
{
    let bytes = &input[..input.len().min(LONGEST)];
    let mut fields = [EMPTY_HEADER_SPAN; 64];
    match parse_request(bytes, &mut fields) {
        Ok(Status::Complete(head)) => request_of(alloc, bytes, &fields, &head),
        Ok(Status::Partial) => Err(refusal_of_unfinished(input, bytes)),
        Err(error) => Err(refusal_of_fault(alloc, input, bytes, error)),
    }
}
