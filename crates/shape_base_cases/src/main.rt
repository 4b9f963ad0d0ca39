//! Reads lines of texts, bytes and calls, and prints what `shape_base` and `shape_log` answer: cases for them.
//!
//! | Line | What is printed |
//! |---|---|
//! | `offset 1_2` | the offset that the text spells, printed again; `bad` where it spells none |
//! | `before 1_2 1_3` | whether the first offset stands before the second |
//! | `handle 1-replay` | of a copy of the handle its number, its run and its text; `bad` where the text is none |
//! | `text a\c3\b1` | the text of these bytes, or the place at which they stop being UTF-8 |
//! | `ask id,n\|n = 1\|1-replay` | a copy of a request for these columns with this clause and this handle; `-` stands for none |
//! | `source 2 1 abc` | what a source in memory gives that has pieces of 2 bytes and whose call 1 fails: the room of 4 bytes after each call, up to the end, and how many bytes it gave |
//! | `sink 1 ab cd e` | how a sink in memory answers each piece whose call 1 fails, and what it keeps |
//! | `log 100_0,100_1 100_0` | a log that these entries are appended to, each counted as 2 bytes: how many, how many bytes, its end, and the entries past the last offset or `ahead` |
//!
//! A backslash and two hexadecimal digits stand for one byte.
#![tactic(auto)]

mod logs;
mod outside;
mod requests;
mod texts;

use cases::{Answers, answer_lines, cut};
use logs::log_line;
use outside::{sink_line, source_line};
use requests::ask_line;
use shape_base::OutOfMemory;
use std::alloc::Global;
use std::io;
use texts::{before_line, handle_line, offset_line, text_line};

#[derive(Drop)]
struct BaseCases;

impl Answers for BaseCases {
    fn answer(&mut self, alloc: Global, line: &str) -> Result<Option<String>, OutOfMemory> {
        let (word, rest) = cut(line, ' ');
        let answer = match word {
            "offset" => offset_line(alloc, rest)?,
            "before" => before_line(alloc, rest)?,
            "handle" => handle_line(alloc, rest)?,
            "text" => text_line(alloc, rest)?,
            "ask" => ask_line(alloc, rest)?,
            "source" => source_line(alloc, rest)?,
            "sink" => sink_line(alloc, rest)?,
            "log" => log_line(alloc, rest)?,
            _ => format!(in alloc; "no such line")?,
        };
        Ok(Some(answer))
    }
}

fn main(rt: HostRuntime) -> io::Result<()> {
    answer_lines(&rt, &mut BaseCases)
}
