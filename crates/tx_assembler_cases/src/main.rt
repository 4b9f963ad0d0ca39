//! Reads lines of words such as `B5 R16384:public:t:ab I16384:xy C5`, feeds the messages that they stand for to one assembler
//! a line, and prints what the last one is answered, of a transaction a copy: cases for `tx_assembler`.
//!
//! | Word | Message |
//! |---|---|
//! | `B5`, `C5` | Begin, Commit with this LSN |
//! | `R16384:public:t:ab` | Relation of OID 16384, with columns `a` and `b` |
//! | `I16384:xy`, `U16384:xy:xz`, `D16384:xy` | Insert, Update and Delete with the whole old row |
//! | `K16384:xy:xz`, `N16384:xz`, `E16384:xy` | Update with a key, Update with no old row, Delete with a key |
//! | `L16384:500` | Insert of one column, a text of 500 bytes, so a message of 513 |
//! | `T16384,16385` | Truncate |
//! | `O`, `Y`, `M` | Origin, Type, a logical message |
//! | `X` | none: the stream begins anew |
//!
//! In a row each character is a column: `-` is null, `?` was not sent, `!` is binary, `^` is a byte that is no UTF-8 (in names too), `~` is `a` and such a byte.
//! A text of more than 16 bytes is printed as the number of its bytes in brackets.
//!
//! A line such as `relations 16384:a 16384:b ?16384 ?2` puts relations with these object identifiers and names into one
//! cache, and prints for each question the name of a copy of the relation, or that it is unknown: cases for `relation_cache`.
#![tactic(auto)]

mod caching;
mod printing;
mod words;

use caching::relations_line;
use cases::{Answers, answer_lines, cut, served_of};
use pgout::read_message;
use printing::{fed_line, refusal_line};
use shape_base::{OutOfMemory, ServedTables};
use std::alloc::Global;
use std::io;
use tx_assembler::Assembler;
use words::bytes_of;

fn assembler(alloc: Global) -> Result<Assembler, OutOfMemory> {
    let mut tables = ServedTables::new(alloc);
    tables.push(served_of(alloc, "public", "t", "a")?)?;
    tables.push(served_of(alloc, "pg_catalog", "c", "a")?)?;
    Assembler::new(alloc, tables)
}

/// What the assembler answers to the message that a word stands for.
fn fed(alloc: Global, assembler: &mut Assembler, word: &str) -> Result<String, OutOfMemory> {
    if word == "X" {
        assembler.reopen();
        return Ok(format!(in alloc; "reopened last {}", assembler.last())?);
    }
    let bytes = bytes_of(alloc, word)?;
    match read_message(alloc, bytes.as_slice()) {
        Ok(message) => match assembler.feed(message) {
            Ok(fed) => fed_line(alloc, &fed),
            Err(error) => refusal_line(alloc, error),
        },
        Err(_) => Ok(format!(in alloc; "no message")?),
    }
}

/// What the last word of a line is answered.
fn last_answer(alloc: Global, line: &str) -> Result<String, OutOfMemory> {
    let mut last = String::new(alloc);
    let mut assembler = assembler(alloc)?;
    for word in line.split(' ') {
        last = fed(alloc, &mut assembler, word)?;
    }
    Ok(last)
}

#[derive(Drop)]
struct StreamCases;

impl Answers for StreamCases {
    fn answer(&mut self, alloc: Global, line: &str) -> Result<Option<String>, OutOfMemory> {
        let (word, rest) = cut(line, ' ');
        if word == "relations" {
            return Ok(Some(relations_line(alloc, rest)?));
        }
        Ok(Some(last_answer(alloc, line)?))
    }
}

fn main(rt: HostRuntime) -> io::Result<()> {
    answer_lines(&rt, &mut StreamCases)
}
