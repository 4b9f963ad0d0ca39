//! Reads lines about clients, and prints what `core_clients` answers: a table of its cases.
//!
//! | Line | What is printed |
//! |---|---|
//! | `query FORM` | the query whose web form this is, its values between brackets, or `bad_payload` |
//! | `take 0 FORM` and replies behind bars | what client 0, which has this query, puts out for each reply, whether its watch goes on, its open exchange and its next target; client 0 is the only one |
//!
//! A backslash and two hexadecimal digits stand for one byte.
#![tactic(auto)]

mod queries;
mod replies;

use cases::{Answers, answer_lines, cut};
use shape_base::OutOfMemory;
use std::alloc::Global;
use std::io;

/// What answers lines.
#[derive(Drop)]
struct ClientCases;

impl Answers for ClientCases {
    fn answer(&mut self, alloc: Global, line: &str) -> Result<Option<String>, OutOfMemory> {
        let (word, rest) = cut(line, ' ');
        if word == "take" {
            return Ok(Some(replies::replies_line(alloc, rest)?));
        }
        Ok(Some(queries::query_line(alloc, rest)?))
    }
}

fn main(rt: HostRuntime) -> io::Result<()> {
    answer_lines(&rt, &mut ClientCases)
}
