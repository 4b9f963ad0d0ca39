//! Reads lines with histories and logs, and prints what the plain programs of `shape_model` answer: cases for them.
//!
//! | Line | What is printed |
//! |---|---|
//! | `history 0 16384:1 5 a\|commit 100 0 16384:>2 6 b\|define 0 7:1 5 a` | of a history of table `items` its rows after all steps, or the step at which it is no good history |
//! | `bare 0 16384:2 6 b` | the same of a history that has no rows at first for the table |
//! | `rows 1:id,n:n >= 10:0 16384:1 5 a\|commit 100 0 16384:>2 20 b` | what a shape of `items` shows after so many steps, or the column of the first row that it cannot read |
//! | `fold +k2 id=2 n=20;k2 n=21;-k2` | the rows that a log folds to, or the place of the entry that does not fit |
//!
//! The first part of a history has the table and the OID of its definition and the rows at first. `commit` has an LSN, the
//! table and the OID of its one definition (OID 0: it has none) and its changes; `define` has a definition and the rows from
//! then on. A row is its values with blanks between, and `\N` stands for null; rows, changes and entries stand with `;`
//! between. A change is its old and its new row with `>` between, or `truncate`. An entry is its sign, `+` for an insert,
//! `-` for a delete and none for an update, its key and its cells. A shape is its chosen columns and its clause; `-` stands
//! for none. The columns of OID 9 stand the other way round.
#![tactic(auto)]

mod histories;
mod logs;
mod shapes;

use cases::{Answers, answer_lines, cut};
use histories::history_line;
use logs::fold_line;
use shape_base::OutOfMemory;
use shapes::shape_line;
use std::alloc::Global;
use std::io;

#[derive(Drop)]
struct ModelCases;

impl Answers for ModelCases {
    fn answer(&mut self, alloc: Global, line: &str) -> Result<Option<String>, OutOfMemory> {
        let (word, rest) = cut(line, ' ');
        let answer = match word {
            "history" => history_line(alloc, rest, true)?,
            "bare" => history_line(alloc, rest, false)?,
            "rows" => shape_line(alloc, rest)?,
            "fold" => fold_line(alloc, rest)?,
            _ => format!(in alloc; "no such line")?,
        };
        Ok(Some(answer))
    }
}

fn main(rt: HostRuntime) -> io::Result<()> {
    answer_lines(&rt, &mut ModelCases)
}
