//! Reads lines that hold the bytes of a server, holds a dialogue with it over a link in memory, and prints what `pg_dialogue` answers: a table of its cases.
//!
//! | Line | What is printed |
//! |---|---|
//! | `snapshot BYTES` | of table `public.items`: the head, the rows and `done`, or why it ended early; then what was written and how many bytes of the server are left |
//! | `describe BYTES`, `stream BYTES` | the same of the description of the table, and of the opening of the stream |
//! | `single TALK BYTES` | the same, where the link gives single bytes |
//! | `quoted TALK BYTES` | the same, with quotes and apostrophes in the names |
//! | `cuts TALK BYTES` | how many of the proper prefixes of the bytes answer `ended` at their length, and what others answer |
//! | `pieces N BYTES` | what a snapshot's dialogue gives whose bytes come in pieces of N, each behind the number of bytes that were fed by then; after a refusal it is asked again at the end |
//! | `reads TALK BYTES`, `writes TALK BYTES` | in how many runs, in each of which one read or write more fails before the first one that does, the answer is `link_fault`; then what it is where none fails |
//!
//! Bytes are written as ASCII, and others with a backslash and two hexadecimal digits.
#![tactic(auto)]

mod link;
mod pieces;
mod runs;
mod talks;

use cases::{Answers, answer_lines, cut};
use pieces::pieces_line;
use runs::{answer_line, cuts_line, faults_line};
use shape_base::OutOfMemory;
use std::alloc::Global;
use std::io;

#[derive(Drop)]
struct DialogueCases;

impl Answers for DialogueCases {
    fn answer(&mut self, alloc: Global, line: &str) -> Result<Option<String>, OutOfMemory> {
        let (word, rest) = cut(line, ' ');
        let (talk, bytes) = cut(rest, ' ');
        let answer = match word {
            "single" => answer_line(alloc, talk, bytes, 1, false)?,
            "quoted" => answer_line(alloc, talk, bytes, 4096, true)?,
            "cuts" => cuts_line(alloc, talk, bytes)?,
            "pieces" => pieces_line(alloc, talk, bytes)?,
            "reads" => faults_line(alloc, talk, bytes, true)?,
            "writes" => faults_line(alloc, talk, bytes, false)?,
            _ => answer_line(alloc, word, rest, 4096, false)?,
        };
        Ok(Some(answer))
    }
}

fn main(rt: HostRuntime) -> io::Result<()> {
    answer_lines(&rt, &mut DialogueCases)
}
