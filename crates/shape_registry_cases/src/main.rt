//! Reads scripts of calls on a new registry, and prints what each call answers: cases for `shape_registry`.
//!
//! A line has the number of handles that may be live and then the calls, between bars, as `2|register a 7|ready 1|lookup a`.
//! The registry's run is `r`; it has two tables, with OIDs 16384 and 16385. The answers stand between bars too.
//!
//! | Call | What is printed |
//! |---|---|
//! | `register a 7` | the number that identity `a` is given, with the value 7 to keep; or the refusal, with the value that came back |
//! | `ready 1` | `ready`, or `not starting` where the number does not start and the call is not made |
//! | `remove 1` | the value that was kept, or `not live` |
//! | `lookup a`, `lookup a 1-r` | what is found for a request of identity `a` that names no handle, or this text of one |
//! | `standing 1` | how the number stands |
//! | `kept 1`, `write 1 8` | the value that is kept; it is 8 from now on |
//! | `before 1` | how many transactions had been taken when the number was given |
//! | `take 100 5` | the live numbers, where the transaction with LSN 100 and id 5 is taken; or `not above` where the LSN is not above the last one, and the call is not made |
//! | `last`, `taken` | the id of the last transaction taken; how many were taken |
//! | `catalog 0`, `define 0 16400` | the OID in the table's definition; it is 16400 from now on. `no such table` for others than 0 and 1 |
//!
//! A line such as `lookups 1000 5000` makes a registry of 1,000 ready handles, looks 5,000 times, at each in turn, and prints
//! how many looks found a ready handle.
#![tactic(auto)]

mod board;
mod looking;
mod printing;

use board::Board;
use cases::{Answers, answer_lines, cut, number_of};
use looking::lookups_line;
use shape_base::OutOfMemory;
use std::alloc::Global;
use std::io;

/// What the calls of a line answer.
fn script_line(alloc: Global, line: &str) -> Result<String, OutOfMemory> {
    let (limit, calls) = cut(line, '|');
    let mut board = Board::new(alloc, number_of(limit))?;
    let mut answers = String::new(alloc);
    for call in calls.split('|') {
        if !answers.is_empty() {
            answers.push_str(" | ")?;
        }
        let answer = board.call(alloc, call)?;
        answers.push_str(answer.as_str())?;
    }
    Ok(answers)
}

#[derive(Drop)]
struct RegistryCases;

impl Answers for RegistryCases {
    fn answer(&mut self, alloc: Global, line: &str) -> Result<Option<String>, OutOfMemory> {
        let (word, rest) = cut(line, ' ');
        if word == "lookups" {
            return Ok(Some(lookups_line(alloc, rest)?));
        }
        Ok(Some(script_line(alloc, line)?))
    }
}

fn main(rt: HostRuntime) -> io::Result<()> {
    answer_lines(&rt, &mut RegistryCases)
}
