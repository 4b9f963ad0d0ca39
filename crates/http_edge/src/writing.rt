//! Replies, written.
ghost use Rattle.std.specs.Prelude.{◌≡◌, ◌++◌, true, IfOk, IfSome, OnOk, codes, length, decimal};
ghost use Rattle.shape_base.specs.Handle.{IsHandle, handle_text};
ghost use Rattle.shape_base.specs.OffsetText.{offset_text};
ghost use Rattle.std.specs.List.{list_all};
ghost use Rattle.std.specs.String.{string_bytes};
ghost use Rattle.http_edge.specs.Status.{is_status};
ghost use Rattle.http_edge.specs.ReplyText.{line, line_if, status_text, cache_text, allow_line, close_line, is_visible, head_of, head_text, reply_text};

use crate::reply_values::are_visible;
use crate::status::{is_status, phrase};
use bytes::Bytes;
use shape_base::{Handle, Offset, OutOfMemory, Reply, Text, is_run};
use std::alloc::Global;

fn put(out: &mut Vec<u8>, text: &[u8]) -> Result<(), OutOfMemory>
    ensures { OnOk result (out.new.items ≡ out.old.items ++ text.now) }
{
    out.extend_from_slice(text)?;
    Ok(())
}

/// Adds the line of a field.
#[tactic(auto, using(crate::proofs::WritingLaws::line_after))]
fn put_line(out: &mut Vec<u8>, name: &[u8], value: &[u8]) -> Result<(), OutOfMemory>
    ensures { OnOk result (out.new.items ≡ out.old.items ++ line name.now value.now) }
{
    put(out, name)?;
    put(out, value)?;
    put(out, b"\r\n")?;
    Ok(())
}

/// The status line.
fn status_line(alloc: Global, capacity: usize, status: u16) -> Result<Vec<u8>, OutOfMemory>
    requires { is_status status ≡ true }
    ensures { IfOk result (λ out. out.items ≡ line (codes "HTTP/1.1 ") (status_text status)) }
{
    let phrase = phrase(status);
    let text = format!(in alloc; "{status} {phrase}")?;
    let mut out = Vec::with_capacity(alloc, capacity)?;
    put_line(&mut out, b"HTTP/1.1 ", text.as_bytes())?;
    Ok(out)
}

fn cache_text(alloc: Global, age: u32) -> Result<String, OutOfMemory>
    ensures { IfOk result (λ text. string_bytes text ≡ cache_text age) }
{
    if age == 0 {
        return Ok(String::from_str(alloc, "no-store")?);
    }
    Ok(format!(in alloc; "public, max-age={age}")?)
}

fn put_handle(alloc: Global, out: &mut Vec<u8>, handle: &Option<Handle>) -> Result<(), OutOfMemory>
    requires { IfSome handle.now IsHandle }
    ensures { OnOk result (out.new.items ≡ out.old.items ++ line_if (codes "electric-handle: ") handle_text handle.now) }
{
    if let Some(handle) = handle {
        let text = handle.print(alloc)?;
        return put_line(out, b"electric-handle: ", text.as_bytes());
    }
    Ok(())
}

fn put_offset(alloc: Global, out: &mut Vec<u8>, offset: &Option<Offset>) -> Result<(), OutOfMemory>
    ensures { OnOk result (out.new.items ≡ out.old.items ++ line_if (codes "electric-offset: ") offset_text offset.now) }
{
    if let Some(offset) = offset {
        let text = offset.print(alloc)?;
        return put_line(out, b"electric-offset: ", text.as_bytes());
    }
    Ok(())
}

fn put_schema(out: &mut Vec<u8>, schema: &Option<Text>) -> Result<(), OutOfMemory>
    ensures { OnOk result (out.new.items ≡ out.old.items ++ line_if (codes "electric-schema: ") (λ schema. schema) schema.now) }
{
    if let Some(schema) = schema {
        let text = schema.as_bytes();
        return put_line(out, b"electric-schema: ", text);
    }
    Ok(())
}

fn put_cursor(alloc: Global, out: &mut Vec<u8>, cursor: &Option<u64>) -> Result<(), OutOfMemory>
    ensures { OnOk result (out.new.items ≡ out.old.items ++ line_if (codes "electric-cursor: ") decimal cursor.now) }
{
    if let Some(cursor) = cursor {
        let text = format!(in alloc; "{cursor}")?;
        return put_line(out, b"electric-cursor: ", text.as_bytes());
    }
    Ok(())
}

fn put_allow(out: &mut Vec<u8>, status: u16) -> Result<(), OutOfMemory>
    ensures { OnOk result (out.new.items ≡ out.old.items ++ allow_line status) }
{
    if status == 405 {
        return put(out, b"allow: GET\r\n");
    }
    Ok(())
}

fn put_close(out: &mut Vec<u8>, close: bool) -> Result<(), OutOfMemory>
    ensures { OnOk result (out.new.items ≡ out.old.items ++ close_line close) }
{
    if close {
        return put(out, b"connection: close\r\n");
    }
    Ok(())
}

fn put_length(alloc: Global, out: &mut Vec<u8>, body: &Text) -> Result<(), OutOfMemory>
    ensures { OnOk result (out.new.items ≡ out.old.items ++ line (codes "content-length: ") (decimal (length body.now))) }
{
    let body = body.as_bytes();
    let length = body.len();
    let text = format!(in alloc; "{length}")?;
    put_line(out, b"content-length: ", text.as_bytes())
}

fn put_cache(alloc: Global, out: &mut Vec<u8>, age: u32) -> Result<(), OutOfMemory>
    ensures { OnOk result (out.new.items ≡ out.old.items ++ line (codes "cache-control: ") (cache_text age)) }
{
    let text = cache_text(alloc, age)?;
    put_line(out, b"cache-control: ", text.as_bytes())
}

/// The lines that each head has.
fn fixed_lines(alloc: Global, capacity: usize, reply: &Reply) -> Result<Vec<u8>, OutOfMemory>
    requires { is_status reply.now.status ≡ true }
    ensures { IfOk result (λ out. out.items ≡ line (codes "HTTP/1.1 ") (status_text reply.now.status) ++ line (codes "content-type: ") (codes "application/json") ++ line (codes "content-length: ") (decimal (length reply.now.body)) ++ line (codes "cache-control: ") (cache_text reply.now.max_age)) }
{
    let mut out = status_line(alloc, capacity, reply.status)?;
    put_line(&mut out, b"content-type: ", b"application/json")?;
    put_length(alloc, &mut out, &reply.body)?;
    put_cache(alloc, &mut out, reply.max_age)?;
    Ok(out)
}

/// The head of a reply, with this capacity.
#[tactic(auto, unfolding(crate::specs::ReplyText::head_text))]
fn head_bytes(
    alloc: Global,
    capacity: usize,
    reply: &Reply,
    close: bool,
) -> Result<Vec<u8>, OutOfMemory>
    requires status { is_status reply.now.status ≡ true }
    requires handle { IfSome reply.now.handle IsHandle }
    ensures { IfOk result (λ out. out.items ≡ head_text (head_of reply.now close)) }
{
    let mut out = fixed_lines(alloc, capacity, reply)?;
    put_handle(alloc, &mut out, &reply.handle)?;
    put_offset(alloc, &mut out, &reply.offset)?;
    put_schema(&mut out, &reply.schema)?;
    put_cursor(alloc, &mut out, &reply.cursor)?;
    put_allow(&mut out, reply.status)?;
    put_close(&mut out, close)?;
    put(&mut out, b"\r\n")?;
    Ok(out)
}

/// How many bytes the lines of a head have at most, but for the schema.
const HEAD_ROOM: usize = 512;

fn capacity_of(reply: &Reply) -> usize {
    let schema = match &reply.schema {
        Some(schema) => schema.as_bytes().len(),
        None => 0,
    };
    HEAD_ROOM
        .saturating_add(schema)
        .saturating_add(reply.body.as_bytes().len())
}

fn is_handle(handle: &Option<Handle>) -> bool
    ensures yes { result ≡ true → IfSome handle.now IsHandle }
    ensures only { IfSome handle.now IsHandle → result ≡ true }
{
    if let Some(handle) = handle {
        return 1 <= handle.number && is_run(handle.run.as_bytes());
    }
    true
}

fn is_schema(schema: &Option<Text>) -> bool
    ensures yes { result ≡ true → IfSome schema.now (λ schema. list_all is_visible schema ≡ true) }
    ensures only { IfSome schema.now (λ schema. list_all is_visible schema ≡ true) → result ≡ true }
{
    if let Some(schema) = schema {
        return are_visible(schema.as_bytes());
    }
    true
}

/// Whether `write_reply` takes the reply: its status is one of those that replies have, its handle has a text, and its
/// schema has visible bytes alone.
pub fn has_text(reply: &Reply) -> bool
    ensures status { result ≡ true → is_status reply.now.status ≡ true }
    ensures handle { result ≡ true → IfSome reply.now.handle IsHandle }
    ensures schema { result ≡ true → IfSome reply.now.schema (λ schema. list_all is_visible schema ≡ true) }
    ensures all { is_status reply.now.status ≡ true → IfSome reply.now.handle IsHandle → IfSome reply.now.schema (λ schema. list_all is_visible schema ≡ true) → result ≡ true }
{
    is_status(reply.status) && is_handle(&reply.handle) && is_schema(&reply.schema)
}

/// The text of a reply (RFC 9112, section 4), behind which the connection is closed or not.
///
/// Its body is copied once.
pub fn write_reply(alloc: Global, reply: &Reply, close: bool) -> Result<Bytes, OutOfMemory>
    requires status { is_status reply.now.status ≡ true }
    requires handle { IfSome reply.now.handle IsHandle }
    requires schema { IfSome reply.now.schema (λ schema. list_all is_visible schema ≡ true) }
    ensures { IfOk result (λ text. text ≡ reply_text reply.now close) }
{
    let mut out = head_bytes(alloc, capacity_of(reply), reply, close)?;
    put(&mut out, reply.body.as_bytes())?;
    Ok(Bytes::from_vec(out)?)
}
