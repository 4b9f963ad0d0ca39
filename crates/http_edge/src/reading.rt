//! Replies, read.
ghost use Rattle.std.specs.Prelude.{◌≡◌, is_some, codes, None, Err};
ghost use Rattle.http_edge.specs.ReplyAnswer.{has_end, Begins, IsReplyAnswer};
ghost use Rattle.http_edge.specs.ReplyLines.{behind, lines_in};

use crate::reply_error::ReplyError;
use crate::reply_head::ReplyHead;
use crate::reply_lines::reply_lines;
use crate::reply_values::{ValueError, head_in};
use crate::scanning::{behind, first_byte};
use shape_base::{Reply, Text, TextError};
use std::alloc::Global;

/// Whether an empty line begins here.
fn is_end(text: &[u8]) -> bool
    ensures { result ≡ is_some (behind (codes "\r\n\r\n") text.now) }
{
    behind(b"\r\n\r\n", text).is_some()
}

/// Whether an empty line stands in the bytes.
#[tactic(auto, unfolding(crate::specs::ReplyAnswer::has_end))]
fn has_end(text: &[u8]) -> bool
    ensures { result ≡ has_end text.now }
{
    let mut rest = text;
    'bytes: while let Some((_, others)) = first_byte(rest) {
        if is_end(rest) {
            return true;
        }
        rest = others;
    }
    false
}

/// Why bytes without the lines of a head are refused.
fn refusal_of(input: &[u8]) -> ReplyError
    requires { None ≡ lines_in input.now }
    ensures { IsReplyAnswer input.now (Err result) }
{
    if has_end(input) {
        return ReplyError::BadReply;
    }
    ReplyError::Partial
}

/// The reply of a head, with this body.
fn with_body(head: ReplyHead, body: Text) -> Reply
    ensures { result ≡ record { status = head.status; handle = head.handle; offset = head.offset; schema = head.schema; cursor = head.cursor; max_age = head.max_age; body = body } }
{
    Reply {
        status: head.status,
        handle: head.handle,
        offset: head.offset,
        schema: head.schema,
        cursor: head.cursor,
        max_age: head.max_age,
        body,
    }
}

/// The reply of a head, whose body stands in front of these bytes.
fn with_rest(
    alloc: Global,
    input: &[u8],
    head: ReplyHead,
    rest: &[u8],
) -> Result<(Reply, u64), ReplyError>
    requires { Begins input.now head rest.now }
    ensures { IsReplyAnswer input.now result }
{
    if (rest.len() as u64) < head.length {
        return Err(ReplyError::Partial);
    }
    let length = head.length as usize;
    let before = input.len() - rest.len();
    match Text::read(alloc, &rest[..length]) {
        Ok(body) => Ok((with_body(head, body), (before + length) as u64)),
        Err(TextError::NotUtf8 { .. }) => Err(ReplyError::BadReply),
        Err(TextError::OutOfMemory) => Err(ReplyError::OutOfMemory),
    }
}

/// The reply that the bytes begin with, and its length (RFC 9112, section 4).
///
/// `Partial` comes exactly where the bytes have no empty line, or where they begin with a head of a reply and fewer
/// bytes follow it than it states. `BadReply` comes exactly where they have an empty line, and begin with no head of
/// a reply, or its whole body is not UTF-8.
pub fn read_reply(alloc: Global, input: &[u8]) -> Result<(Reply, u64), ReplyError>
    ensures { IsReplyAnswer input.now result }
{
    let Some((lines, rest)) = reply_lines(input) else {
        return Err(refusal_of(input));
    };
    match head_in(alloc, &lines) {
        Ok(head) => with_rest(alloc, input, head, rest),
        Err(ValueError::Bad) => Err(ReplyError::BadReply),
        Err(ValueError::OutOfMemory) => Err(ReplyError::OutOfMemory),
    }
}
