//! Replies in a line.
use cases::put_bytes;
use http_edge::{has_text, write_reply};
use shape_base::{Handle, Offset, OutOfMemory, Reply, Text};
use std::alloc::Global;

fn put_handle(line: &mut String, handle: &Option<Handle>) -> Result<(), OutOfMemory> {
    match handle {
        Some(handle) => {
            let number = handle.number;
            write!(line, " {number}-")?;
            put_bytes(line, handle.run.as_bytes())
        }
        None => Ok(line.push_str(" -")?),
    }
}

fn put_offset(
    alloc: Global,
    line: &mut String,
    offset: &Option<Offset>,
) -> Result<(), OutOfMemory> {
    match offset {
        Some(offset) => {
            line.push(' ')?;
            put_bytes(line, offset.print(alloc)?.as_bytes())
        }
        None => Ok(line.push_str(" -")?),
    }
}

fn put_text(line: &mut String, text: &Option<Text>) -> Result<(), OutOfMemory> {
    match text {
        Some(text) => {
            line.push(' ')?;
            put_bytes(line, text.as_bytes())
        }
        None => Ok(line.push_str(" -")?),
    }
}

fn put_number(line: &mut String, number: &Option<u64>) -> Result<(), OutOfMemory> {
    match number {
        Some(number) => Ok(write!(line, " {number}")?),
        None => Ok(line.push_str(" -")?),
    }
}

/// What a reply says, behind its length.
pub(crate) fn reply_line(alloc: Global, reply: &Reply, length: u64) -> Result<String, OutOfMemory> {
    let status = reply.status;
    let age = reply.max_age;
    let mut line = format!(in alloc; "{length}: {status}")?;
    put_handle(&mut line, &reply.handle)?;
    put_offset(alloc, &mut line, &reply.offset)?;
    put_text(&mut line, &reply.schema)?;
    put_number(&mut line, &reply.cursor)?;
    write!(line, " {age} ")?;
    put_bytes(&mut line, reply.body.as_bytes())?;
    Ok(line)
}

/// The text of a reply, behind its length.
pub(crate) fn written_line(
    alloc: Global,
    reply: &Reply,
    close: bool,
) -> Result<String, OutOfMemory> {
    if !has_text(reply) {
        return Ok(format!(in alloc; "no text")?);
    }
    let text = write_reply(alloc, reply, close)?;
    let bytes = text.as_slice();
    let mut line = format!(in alloc; "{} ", bytes.len())?;
    put_bytes(&mut line, bytes)?;
    Ok(line)
}
