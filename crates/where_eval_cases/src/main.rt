//! Reads lines that set columns and a row and lines with clauses, and prints the truth of each clause over the row: cases
//! for `where_eval`.
//!
//! | Line | What is printed |
//! |---|---|
//! | `columns id 23\|name 25` | nothing; the columns, each with the OID of its type, of the clauses behind it |
//! | `row 1\|\N` | nothing; the row of the clauses behind it, where `\N` stands for null |
//! | `where id = 1` | the truth of the clause over the row, or its fault and the place or the number of the leaf |
//! | `times 1000 id = 1` | how often the clause is true, asked so often: for bench/clause.sh |
#![tactic(auto)]

ghost use Rattle.std.specs.Prelude.{◌≡◌, length};
ghost use Rattle.where_eval.specs.Checked.{width};

use cases::{Answers, answer_lines, columns_of, cut, number_of, row_of, truth_word};
use shape_base::{BadValue, Columns, OutOfMemory, Row, Text, Tri};
use std::alloc::Global;
use std::io;
use where_eval::{CheckError, Checked, check, truth};
use where_parser::{Expr, ParseError, parse};

fn truth_line(alloc: Global, truth: Result<Tri, BadValue>) -> Result<String, OutOfMemory> {
    match truth {
        Ok(truth) => Ok(format!(in alloc; "{}", truth_word(truth))?),
        Err(BadValue { column }) => Ok(format!(in alloc; "bad value {column}")?),
    }
}

fn check_line(alloc: Global, error: CheckError) -> Result<String, OutOfMemory> {
    match error {
        CheckError::OutOfMemory => Err(OutOfMemory),
        CheckError::UnknownColumn { atom } => Ok(format!(in alloc; "unknown column {atom}")?),
        CheckError::TypeMismatch { atom } => Ok(format!(in alloc; "type mismatch {atom}")?),
        CheckError::BadLiteral { atom } => Ok(format!(in alloc; "bad literal {atom}")?),
    }
}

fn parse_line(alloc: Global, error: ParseError) -> Result<String, OutOfMemory> {
    match error {
        ParseError::OutOfMemory => Err(OutOfMemory),
        ParseError::Syntax { place } => Ok(format!(in alloc; "syntax {place}")?),
        ParseError::TooDeep { place } => Ok(format!(in alloc; "too deep {place}")?),
    }
}

/// How often the clause is true over the row, of so many times.
fn times_true(checked: &Checked, row: &Row, times: u64) -> u64
    requires { length row.now ≡ width checked.now }
{
    let mut found = 0;
    for _ in 0..times {
        if let Ok(Tri::True) = truth(checked, row) {
            found = u64::saturating_add(found, 1);
        }
    }
    found
}

/// The truth of the clause over the row, or how often it is true.
fn asked_line(
    alloc: Global,
    checked: &Checked,
    row: &Row,
    times: Option<u64>,
) -> Result<String, OutOfMemory>
    requires { length row.now ≡ width checked.now }
{
    match times {
        Some(times) => Ok(format!(in alloc; "{}", times_true(checked, row, times))?),
        None => truth_line(alloc, truth(checked, row)),
    }
}

/// The columns and the row that clauses are asked over.
#[derive(Drop)]
struct TruthCases {
    columns: Columns,
    row: Row,
}

impl TruthCases {
    fn tree_line(
        &self,
        alloc: Global,
        tree: &Expr,
        times: Option<u64>,
    ) -> Result<String, OutOfMemory> {
        if self.row.len() != self.columns.len() {
            return Ok(format!(in alloc; "a row of another width")?);
        }
        match check(alloc, tree, &self.columns) {
            Ok(checked) => asked_line(alloc, &checked, &self.row, times),
            Err(error) => check_line(alloc, error),
        }
    }

    fn clause_line(
        &self,
        alloc: Global,
        clause: &str,
        times: Option<u64>,
    ) -> Result<String, OutOfMemory> {
        let text = Text::of(alloc, clause)?;
        match parse(alloc, &text) {
            Ok(tree) => self.tree_line(alloc, &tree, times),
            Err(error) => parse_line(alloc, error),
        }
    }
}

impl Answers for TruthCases {
    fn answer(&mut self, alloc: Global, line: &str) -> Result<Option<String>, OutOfMemory> {
        let (word, rest) = cut(line, ' ');
        match word {
            "columns" => {
                self.columns = columns_of(alloc, rest, '|')?;
                Ok(None)
            }
            "row" => {
                self.row = row_of(alloc, rest, '|')?;
                Ok(None)
            }
            "where" => Ok(Some(self.clause_line(alloc, rest, None)?)),
            "times" => {
                let (times, clause) = cut(rest, ' ');
                Ok(Some(self.clause_line(alloc, clause, Some(number_of(times)))?))
            }
            _ => Ok(Some(format!(in alloc; "no such line")?)),
        }
    }
}

fn main(rt: HostRuntime) -> io::Result<()> {
    let mut cases = TruthCases {
        columns: Columns::new(rt.alloc()),
        row: Row::new(rt.alloc()),
    };
    answer_lines(&rt, &mut cases)
}
