//! Reads lines that hold records of scripts or outs, and prints what `script` reads of them or writes for them, and what
//! `script_writing` writes again: a table of their cases.
//!
//! A backslash and two hexadecimal digits stand for one byte.
//!
//! | Line | What is printed |
//! |---|---|
//! | `read K PAYLOAD` | what a record of kind K with this payload asks for, or why it is refused |
//! | `again K PAYLOAD` | the bytes that are written of what this record asks for, or why it is refused |
//! | `given 3 BYTES`, `cut 3`, `refetched 2`, `refused 2 503`, `stream NAME 7` | the lines of that out |
//! | `block 2 7 replay 100 3 KEY NAME VALUE ..` | the lines of a block of one row with these cells |
//! | `empty 2 7 replay 100 3` | the lines of a block without rows |
//! | `end 12` | the last line |
#![tactic(auto)]

mod outs;
mod records;

use cases::{Answers, answer_lines, cut};
use shape_base::OutOfMemory;
use std::alloc::Global;
use std::io;

/// What answers lines.
#[derive(Drop)]
struct Scripts;

impl Answers for Scripts {
    fn answer(&mut self, alloc: Global, line: &str) -> Result<Option<String>, OutOfMemory> {
        let (word, rest) = cut(line, ' ');
        if word == "read" {
            let (kind, payload) = cut(rest, ' ');
            return Ok(Some(records::record_line(alloc, kind, payload)?));
        }
        if word == "again" {
            let (kind, payload) = cut(rest, ' ');
            return Ok(Some(records::again_line(alloc, kind, payload)?));
        }
        Ok(Some(outs::out_line(alloc, word, rest)?))
    }
}

fn main(rt: HostRuntime) -> io::Result<()> {
    answer_lines(&rt, &mut Scripts)
}
