//! Reads lines that hold sizes or texts, and prints what `chunk_cutter` and the log of texts of `shape_log` answer: a table of their cases.
//!
//! | Line | What is printed |
//! |---|---|
//! | `chunks 10 4 6 3` | of sizes under that least size of a chunk: the place behind the chunk of each, `-` while it is open, and the place behind the last closed one |
//! | `inner 1 0 2 TEXT TEXT ..` | of texts at `0_1`, `0_2` and on, sealed up to a place: the end, the sum of lengths, the length of those from a place up to below another, and these |
//! | `bounds 0_1 2` | how many offsets of so many texts are not after this one, or the end that it is ahead of |
#![tactic(auto)]

use cases::{Answers, answer_lines, cut, number_of};
use chunk_cutter::Cutter;
use shape_base::{Offset, OutOfMemory};
use shape_log::{OffsetAhead, TextLog};
use std::alloc::Global;
use std::io;

/// The ends of the chunks of sizes.
fn chunks_line(alloc: Global, least: &str, sizes: &str) -> Result<String, OutOfMemory> {
    let mut out = String::new(alloc);
    let mut cutter = Cutter::new(alloc, number_of(least).max(1));
    for size in sizes.split(' ') {
        cutter.reserve(1)?;
        cutter.push(number_of(size));
    }
    for index in 0..cutter.len() {
        match cutter.chunk_end(index) {
            Some(end) => write!(out, "{end} ")?,
            None => out.push_str("- ")?,
        }
    }
    let closed = cutter.closed();
    write!(out, "closed {closed}")?;
    Ok(out)
}

/// Adds a text, where its offset is after the log's end.
fn add(log: &mut TextLog, offset: Offset, text: &[u8]) -> Result<(), OutOfMemory> {
    let Some(room) = (text.len() as u64).checked_add(1) else {
        return Err(OutOfMemory);
    };
    log.reserve(1, room)?;
    if log.end().before(&offset) {
        log.append(offset, text);
    }
    Ok(())
}

/// A log of texts at `0_1`, `0_2` and on.
fn log_of(alloc: Global, texts: &str) -> Result<TextLog, OutOfMemory> {
    let mut log = TextLog::new(alloc);
    let mut pos = 0u64;
    for text in texts.split(' ') {
        pos = pos.saturating_add(1);
        add(&mut log, Offset::At { lsn: 0, pos }, text.as_bytes())?;
    }
    Ok(log)
}

/// What stands between two places of a log.
fn put_inner(
    alloc: Global,
    out: &mut String,
    log: &TextLog,
    from: u64,
    to: u64,
) -> Result<(), OutOfMemory> {
    if from > to || to > log.len() {
        out.push_str("no such places")?;
        return Ok(());
    }
    let inner = log.inner(from, to)?;
    let end = log.end().print(alloc)?;
    write!(
        out,
        "end {} bytes {} inner {} ",
        end.as_str(),
        log.bytes(),
        inner.len()
    )?;
    cases::put_bytes(out, &inner)
}

fn inner_line(alloc: Global, rest: &str) -> Result<String, OutOfMemory> {
    let (place, rest) = cut(rest, ' ');
    let (from, rest) = cut(rest, ' ');
    let (to, texts) = cut(rest, ' ');
    let mut out = String::new(alloc);
    let mut log = log_of(alloc, texts)?;
    log.seal(number_of(place).min(log.len()))?;
    put_inner(alloc, &mut out, &log, number_of(from), number_of(to))?;
    Ok(out)
}

/// How many offsets are not after one.
fn bounds_line(alloc: Global, offset: &str, count: &str) -> Result<String, OutOfMemory> {
    let Ok(offset) = Offset::read(offset.as_bytes()) else {
        return Ok(format!(in alloc; "no such offset")?);
    };
    let mut log = TextLog::new(alloc);
    let mut pos = 0u64;
    for _ in 0..number_of(count) {
        pos = pos.saturating_add(1);
        add(&mut log, Offset::At { lsn: 0, pos }, b"t")?;
    }
    match log.page_bounds(offset) {
        Ok(place) => Ok(format!(in alloc; "{place}")?),
        Err(OffsetAhead { end }) => {
            let end = end.print(alloc)?;
            Ok(format!(in alloc; "ahead {}", end.as_str())?)
        }
    }
}

#[derive(Drop)]
struct LogCases;

impl Answers for LogCases {
    fn answer(&mut self, alloc: Global, line: &str) -> Result<Option<String>, OutOfMemory> {
        let (word, rest) = cut(line, ' ');
        let (first, others) = cut(rest, ' ');
        let answer = match word {
            "chunks" => chunks_line(alloc, first, others)?,
            "inner" => inner_line(alloc, rest)?,
            "bounds" => bounds_line(alloc, first, others)?,
            _ => format!(in alloc; "no such line")?,
        };
        Ok(Some(answer))
    }
}

fn main(rt: HostRuntime) -> io::Result<()> {
    answer_lines(&rt, &mut LogCases)
}
