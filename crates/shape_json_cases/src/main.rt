//! Reads lines that ask for the entries of a body, or for the text, the size or the plainness of entries, and prints what
//! `shape_json` answers: cases for it.
//!
//! | Line | What is printed |
//! |---|---|
//! | `read [..]` | the entries and the control that a body is read to, or `bad body`; a backslash and two hexadecimal digits stand for one byte |
//! | `write insert k 0_1 a=1; up-to-date` | the length of the body of these entries and this control, and the body |
//! | `close insert k 0_1 a=1; up-to-date` | the same of one entry, whose text is written before |
//! | `size insert k 0_1 a=1,b=\N` | the length of the entry's text |
//! | `plain insert k 0_1 a=1` | whether the entry is plain |
//!
//! An entry is its operation, its key, its offset and its cells, with blanks between; it has `-` in the place of no cells,
//! and `\N` stands for null. `nothing` stands for no control.
#![tactic(auto)]

mod entries;
mod printing;

use cases::{Answers, answer_lines, bytes_of, cut};
use entries::{control_of, entries_of, entry_of};
use printing::{body_line, put_text};
use shape_base::{Entry, OutOfMemory, Text};
use shape_json::{
    BodyError, Control, close_body, entry_size, is_plain, put_entry, read_body, write_entries,
};
use std::alloc::Global;
use std::io;

/// What a text is read to.
fn read_line(alloc: Global, text: &str) -> Result<String, OutOfMemory> {
    let bytes = bytes_of(alloc, text)?;
    match read_body(alloc, bytes.as_slice()) {
        Ok((entries, control)) => body_line(alloc, &entries, control),
        Err(BodyError::BadBody) => Ok(format!(in alloc; "bad body")?),
        Err(BodyError::OutOfMemory) => Err(OutOfMemory),
    }
}

/// A body that was written, behind its length.
fn text_line(alloc: Global, body: &Text) -> Result<String, OutOfMemory> {
    let bytes = body.as_bytes();
    let mut line = format!(in alloc; "{} ", bytes.len())?;
    put_text(&mut line, bytes)?;
    Ok(line)
}

/// What stands before the last semicolon and a blank, and the control behind them.
fn parts_of(text: &str) -> (&str, Control) {
    match text.rsplit_once("; ") {
        Some((entries, control)) => (entries, control_of(control)),
        None => ("", control_of(text)),
    }
}

/// The body of entries and a control.
fn write_line(alloc: Global, text: &str) -> Result<String, OutOfMemory> {
    let (entries, control) = parts_of(text);
    let entries = entries_of(alloc, entries)?;
    text_line(alloc, &write_entries(alloc, &entries, control)?)
}

/// The body of an entry whose text is written before, and of a control.
fn closed(alloc: Global, entry: &Entry, control: Control) -> Result<Text, OutOfMemory> {
    let size = entry_size(entry);
    if size == u64::MAX {
        return Err(OutOfMemory);
    }
    let mut inner = Vec::with_capacity(alloc, size as usize)?;
    put_entry(&mut inner, entry);
    close_body(alloc, inner.as_slice(), control)
}

/// The same, for a line.
fn close_line(alloc: Global, text: &str) -> Result<String, OutOfMemory> {
    let (entry, control) = parts_of(text);
    let Some(entry) = entry_of(alloc, entry)? else {
        return Ok(format!(in alloc; "no such entry")?);
    };
    text_line(alloc, &closed(alloc, &entry, control)?)
}

/// What is printed of one entry.
fn entry_line(alloc: Global, word: &str, text: &str) -> Result<String, OutOfMemory> {
    let Some(entry) = entry_of(alloc, text)? else {
        return Ok(format!(in alloc; "no such entry")?);
    };
    if word == "size" {
        return Ok(format!(in alloc; "{}", entry_size(&entry))?);
    }
    Ok(format!(in alloc; "{}", is_plain(&entry))?)
}

#[derive(Drop)]
struct BodyCases;

impl Answers for BodyCases {
    fn answer(&mut self, alloc: Global, line: &str) -> Result<Option<String>, OutOfMemory> {
        let (word, rest) = cut(line, ' ');
        let answer = match word {
            "read" => read_line(alloc, rest)?,
            "write" => write_line(alloc, rest)?,
            "close" => close_line(alloc, rest)?,
            "size" | "plain" => entry_line(alloc, word, rest)?,
            _ => format!(in alloc; "no such line")?,
        };
        Ok(Some(answer))
    }
}

fn main(rt: HostRuntime) -> io::Result<()> {
    answer_lines(&rt, &mut BodyCases)
}
