//! Reads lines with histories and snapshots, and prints what `script_check` answers: cases for it.
//!
//! | Line | What is printed |
//! |---|---|
//! | `honest 1:1: 16384:1 5 a\|1 5 a\|commit 5 100 16384:>2 6 b` | the step after which the snapshot was taken, or why there is none |
//! | `premise 3 1:1: 16384:1 5 a\|1 5 a\|commit 5 100 16384:>2 6 b` | that the premise holds for a snapshot that came after so many commits, or its step |
//! | `kept 1 5 a\|commit 5 100 16384:>2 6 b` | how many of the first steps keep the definitions |
//!
//! A snapshot is its visibility text, the OID of its definition and its rows. Behind it stands a history of table `items`: the rows at first, and steps. `commit` has an id, an LSN, the OID of the definition of its changes, and
//! these; `define` has the OID of a definition, and the rows from then on. The first definition has the OID 16384. A row is its values with blanks between; rows and changes stand with `;` between. A change is its old
//! and its new row with `>` between.
#![tactic(auto)]

mod histories;
mod snapshots;

use cases::{Answers, answer_lines, cut};
use shape_base::OutOfMemory;
use std::alloc::Global;
use std::io;

#[derive(Drop)]
struct CheckCases;

impl Answers for CheckCases {
    fn answer(&mut self, alloc: Global, line: &str) -> Result<Option<String>, OutOfMemory> {
        let (word, rest) = cut(line, ' ');
        let answer = match word {
            "honest" => snapshots::honest_line(alloc, rest)?,
            "premise" => snapshots::premise_line(alloc, rest)?,
            "kept" => snapshots::kept_line(alloc, rest)?,
            _ => format!(in alloc; "no such line")?,
        };
        Ok(Some(answer))
    }
}

fn main(rt: HostRuntime) -> io::Result<()> {
    answer_lines(&rt, &mut CheckCases)
}
