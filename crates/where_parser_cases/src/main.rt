//! Reads where-clauses, one a line, and prints for each its canonical text, or its fault and the fault's place: cases for
//! `where_parser`.
#![tactic(auto)]

use cases::{Answers, answer_lines};
use shape_base::{OutOfMemory, Text};
use std::alloc::Global;
use std::io;
use where_parser::{ParseError, parse, print};

#[derive(Drop)]
struct ClauseCases;

impl Answers for ClauseCases {
    fn answer(&mut self, alloc: Global, line: &str) -> Result<Option<String>, OutOfMemory> {
        let text = Text::of(alloc, line)?;
        match parse(alloc, &text) {
            Ok(tree) => {
                let canonical = print(alloc, &tree)?;
                Ok(Some(String::from_str(alloc, canonical.as_str())?))
            }
            Err(ParseError::Syntax { place }) => Ok(Some(format!(in alloc; "syntax {place}")?)),
            Err(ParseError::TooDeep { place }) => Ok(Some(format!(in alloc; "too deep {place}")?)),
            Err(ParseError::OutOfMemory) => Err(OutOfMemory),
        }
    }
}

fn main(rt: HostRuntime) -> io::Result<()> {
    answer_lines(&rt, &mut ClauseCases)
}
