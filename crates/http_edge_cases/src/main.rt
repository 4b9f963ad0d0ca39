//! Reads lines that ask for replies and prints what `http_edge` answers: cases for it.
//!
//! | Line | What is printed |
//! |---|---|
//! | `read BYTES` | the reply that the bytes begin with: its length, status, handle, offset, schema, cursor, age and body, with `-` in the place of what is absent; or `partial` or `bad reply` |
//! | `cuts BYTES` | how many fronts of the bytes, themselves among them, are partial, how many are refused, and how many are read |
//! | `again BYTES` | the reply that the bytes begin with, written again: its length, and its text |
//! | `head BYTES` | the head that the bytes begin with: its length, whether its method is GET, what becomes of the connection, and its target; or why they are refused |
//! | `fronts BYTES` | how many fronts of the bytes, themselves among them, are answered in each way when they are read as a head |
//! | `get TARGET` | what a request with this target asks for, of five served tables: the table's place, its handle, its offset, whether it waits, its cursor, its columns and its identity; or why it asks for nothing |
//! | `post TARGET` | the same of a request whose method is another |
//! | `page NAMED WORD CURSOR` | the reply that is a page of one entry, `current` or `closed`, to a request with that cursor that names a `handle`, a `strange` one or `none`: its length, and its text |
//! | `conflict N` | the conflict that names the handle of that number, or `none`: its length, and its text |
//! | `next N` | the cursor after this one |
//! | `refuse WORD ..` | the reply that refuses with this word and numbers: its length, and its text |
//! | `close WORD ..` | the same, behind which the connection is closed |
//!
//! A backslash and two hexadecimal digits stand for one byte. In heads and targets `~N*BYTES~` stands for N times these bytes.
#![tactic(auto)]

mod codes;
mod heads;
mod pages;
mod printing;
mod targets;

use cases::{Answers, answer_lines, bytes_of, cut};
use codes::code_of;
use heads::{fronts_line, head_line};
use http_edge::{ReplyError, read_reply, refusal_reply};
use pages::{conflict_line, cursor_line, page_line};
use printing::{reply_line, written_line};
use shape_base::OutOfMemory;
use std::alloc::Global;
use std::io;
use targets::target_line;

/// What bytes are read to.
fn read_line(alloc: Global, text: &str) -> Result<String, OutOfMemory> {
    let bytes = bytes_of(alloc, text)?;
    match read_reply(alloc, bytes.as_slice()) {
        Ok((reply, length)) => reply_line(alloc, &reply, length),
        Err(ReplyError::Partial) => Ok(format!(in alloc; "partial")?),
        Err(ReplyError::BadReply) => Ok(format!(in alloc; "bad reply")?),
        Err(ReplyError::OutOfMemory) => Err(OutOfMemory),
    }
}

/// How many fronts of the bytes are partial, are refused and are read.
fn cuts_line(alloc: Global, text: &str) -> Result<String, OutOfMemory> {
    let bytes = bytes_of(alloc, text)?;
    let bytes = bytes.as_slice();
    let mut partial = 0u64;
    let mut refused = 0u64;
    let mut read = 0u64;
    for end in 0..bytes.len() + 1 {
        match read_reply(alloc, &bytes[..end]) {
            Ok(_) => read = read.saturating_add(1),
            Err(ReplyError::Partial) => partial = partial.saturating_add(1),
            Err(ReplyError::BadReply) => refused = refused.saturating_add(1),
            Err(ReplyError::OutOfMemory) => return Err(OutOfMemory),
        }
    }
    Ok(format!(in alloc; "partial {partial} bad {refused} read {read}")?)
}

/// The reply that the bytes begin with, written again.
fn again_line(alloc: Global, text: &str) -> Result<String, OutOfMemory> {
    let bytes = bytes_of(alloc, text)?;
    match read_reply(alloc, bytes.as_slice()) {
        Ok((reply, _)) => written_line(alloc, &reply, false),
        Err(_) => Ok(format!(in alloc; "no reply")?),
    }
}

/// The reply that refuses with these words.
fn refusal_line(alloc: Global, text: &str, close: bool) -> Result<String, OutOfMemory> {
    let Some(code) = code_of(alloc, text)? else {
        return Ok(format!(in alloc; "no such word")?);
    };
    written_line(alloc, &refusal_reply(alloc, &code)?, close)
}

#[derive(Drop)]
struct EdgeCases;

impl Answers for EdgeCases {
    fn answer(&mut self, alloc: Global, line: &str) -> Result<Option<String>, OutOfMemory> {
        let (word, rest) = cut(line, ' ');
        let answer = match word {
            "read" => read_line(alloc, rest)?,
            "cuts" => cuts_line(alloc, rest)?,
            "again" => again_line(alloc, rest)?,
            "head" => head_line(alloc, rest)?,
            "fronts" => fronts_line(alloc, rest)?,
            "get" => target_line(alloc, rest, true)?,
            "post" => target_line(alloc, rest, false)?,
            "page" => page_line(alloc, rest)?,
            "conflict" => conflict_line(alloc, rest)?,
            "next" => cursor_line(alloc, rest)?,
            "refuse" => refusal_line(alloc, rest, false)?,
            "close" => refusal_line(alloc, rest, true)?,
            _ => format!(in alloc; "no such line")?,
        };
        Ok(Some(answer))
    }
}

fn main(rt: HostRuntime) -> io::Result<()> {
    answer_lines(&rt, &mut EdgeCases)
}
