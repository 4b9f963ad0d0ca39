//! Reads lines that start snapshots of table `items`, or give one rows, and prints what `shape_snapshot` answers: a table of its cases.
//!
//! The table has the OID 16384 and the columns `id` (int4, the key), `n` (int4) and `s` (text).
//!
//! | Line | What is printed |
//! |---|---|
//! | `start 20:30: 30 16384 id 23,n 23,s 25` | whether a snapshot of that visibility, OID and columns starts, where the last transaction taken had that id (`-`: none was taken) |
//! | `rows - n > 10:1 5 a;1 20 b` | what is answered to each of these rows, under that limit of the log (`-`: none) and that clause (empty: none), and then the log: how many entries it has, its end, and its bytes |
//!
//! The values of a row stand with blanks between, and `\N` stands for null.
#![tactic(auto)]

mod printing;
mod tables;

ghost use Rattle.std.specs.Prelude.{◌<◌, ◌^◌};

use cases::{Answers, answer_lines, columns_of, cut, row_of};
use pg_dialogue::SnapHead;
use printing::{answer_words, log_words};
use shape_base::{Limits, OutOfMemory, Text};
use shape_def::Def;
use shape_snapshot::Snap;
use std::alloc::Global;
use std::io;
use tables::items;

/// A number up to 2^63 - 1, or that where the word is none.
fn limit_of(word: &str) -> u64
    ensures { result < 2 ^ 63 }
{
    word.parse::<u64>()
        .unwrap_or(u64::MAX)
        .min(9_223_372_036_854_775_807)
}

fn limits_of(log: &str) -> Limits {
    Limits {
        chunk: 65_536,
        log: limit_of(log),
        all: 0,
        pending: 0,
        shapes: 0,
        hold: 0,
    }
}

/// What a snapshot says before its rows.
fn head_of(alloc: Global, vis: &str, oid: &str, columns: &str) -> Result<SnapHead, OutOfMemory> {
    Ok(SnapHead {
        vis: Text::of(alloc, vis)?,
        oid: oid.parse::<u32>().unwrap_or(0),
        columns: columns_of(alloc, columns, ',')?,
    })
}

/// How a snapshot starts.
fn start_line(alloc: Global, text: &str) -> Result<String, OutOfMemory> {
    let (vis, rest) = cut(text, ' ');
    let (last, rest) = cut(rest, ' ');
    let (oid, columns) = cut(rest, ' ');
    let test = items(alloc, "")?;
    let head = head_of(alloc, vis, oid, columns)?;
    let last = last.parse::<u32>().ok();
    let answer = match Snap::start(alloc, &test, last, &head, &limits_of("-")) {
        Ok(_) => Ok(()),
        Err(error) => Err(error),
    };
    answer_words(alloc, answer)
}

/// A snapshot of the table that shows no transaction.
fn begun(alloc: Global, clause: &str, log: &str) -> Result<Snap<Def>, OutOfMemory> {
    let test = items(alloc, clause)?;
    let head = head_of(alloc, "1:1:", "16384", "id 23,n 23,s 25")?;
    Snap::start(alloc, &test, None, &head, &limits_of(log)).map_err(|_| OutOfMemory)
}

/// Gives a snapshot a row, and adds what is answered to a line.
fn give(
    alloc: Global,
    out: &mut String,
    snap: &mut Snap<Def>,
    row: &str,
) -> Result<(), OutOfMemory> {
    let answer = snap.row(row_of(alloc, row, ' ')?);
    let words = answer_words(alloc, answer)?;
    out.push_str(words.as_str())?;
    out.push_str("; ")?;
    Ok(())
}

/// Gives a snapshot rows.
fn give_all(
    alloc: Global,
    out: &mut String,
    snap: &mut Snap<Def>,
    rows: &str,
) -> Result<(), OutOfMemory> {
    for row in rows.split(';') {
        give(alloc, out, snap, row)?;
    }
    Ok(())
}

/// Adds what a log has to a line.
fn put_log(alloc: Global, out: &mut String, snap: Snap<Def>) -> Result<(), OutOfMemory> {
    let (_vis, log) = snap.into_parts();
    let words = log_words(alloc, &log)?;
    out.push_str(words.as_str())?;
    Ok(())
}

/// What is answered to rows.
fn rows_line(alloc: Global, text: &str) -> Result<String, OutOfMemory> {
    let (front, rows) = cut(text, ':');
    let (log, clause) = cut(front, ' ');
    let mut snap = begun(alloc, clause, log)?;
    let mut out = String::new(alloc);
    give_all(alloc, &mut out, &mut snap, rows)?;
    put_log(alloc, &mut out, snap)?;
    Ok(out)
}

#[derive(Drop)]
struct SnapCases;

impl Answers for SnapCases {
    fn answer(&mut self, alloc: Global, line: &str) -> Result<Option<String>, OutOfMemory> {
        let (word, rest) = cut(line, ' ');
        let answer = match word {
            "start" => start_line(alloc, rest)?,
            "rows" => rows_line(alloc, rest)?,
            _ => format!(in alloc; "no such line")?,
        };
        Ok(Some(answer))
    }
}

fn main(rt: HostRuntime) -> io::Result<()> {
    answer_lines(&rt, &mut SnapCases)
}
