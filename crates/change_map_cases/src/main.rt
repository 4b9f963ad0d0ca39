//! Reads lines that ask for the entries of a change, the key text of a row or the parts of a key text, and prints what
//! `change_map` answers: cases for it.
//!
//! | Line | What is printed |
//! |---|---|
//! | `long 100 0:1 5 a:1 11 a` | the entries of change number 0 of the commit at 100, from the one row to the other, on table `items`, where the rows with an `n` of 10 or more are selected; with no old row it is an insert, and with no new one a delete |
//! | `all 100 0:1 5 a:3 5 a` | the same, where each row is selected |
//! | `tags 7 0:a 2` | the entries of the insert of a row into table `tags` |
//! | `key a 2` | the key text of a row of `tags`, and its parts |
//! | `read "ns"."t"/"1"` | the parts of a key text; a backslash and two hexadecimal digits stand for one byte |
//!
//! The values of a row stand with blanks between, and `\N` stands for null.
#![tactic(auto)]

mod printing;
mod tables;

ghost use Rattle.std.specs.Prelude.{◌≡◌, IfSome};
ghost use Rattle.change_map.specs.Emitting.{IsWhole};

use cases::{Answers, answer_lines, bytes_of, cut, number_of, row_of};
use change_map::{Emitter, key_text, read_key};
use printing::{entries_line, key_line, parts_line};
use shape_base::{Change, ChangeKind, OutOfMemory, Row, RowTest, TableDef};
use shape_def::Def;
use std::alloc::Global;
use std::io;
use tables::{items, tags};

/// The row of a text; none for an empty text.
fn row_in(alloc: Global, text: &str) -> Result<Option<Row>, OutOfMemory> {
    if text.is_empty() {
        return Ok(None);
    }
    Ok(Some(row_of(alloc, text, ' ')?))
}

/// The insert or the update to a row; none where a row is not as wide as the definition.
fn kind_to(old: Option<Row>, new: Row, definition: &TableDef) -> Option<ChangeKind>
    ensures { IfSome result (λ kind. IsWhole definition.now kind) }
{
    if new.len() != definition.columns.len() {
        return None;
    }
    let Some(old) = old else {
        return Some(ChangeKind::Insert { new });
    };
    if old.len() != definition.columns.len() {
        return None;
    }
    Some(ChangeKind::Update { old, new })
}

/// The change from one row to another; none where no row is there, or one is not as wide as the definition.
fn kind_of(old: Option<Row>, new: Option<Row>, definition: &TableDef) -> Option<ChangeKind>
    ensures { IfSome result (λ kind. IsWhole definition.now kind) }
{
    if let Some(new) = new {
        return kind_to(old, new, definition);
    }
    let Some(old) = old else {
        return None;
    };
    if old.len() != definition.columns.len() {
        return None;
    }
    Some(ChangeKind::Delete { old })
}

/// The name of the table, and the entries of a change of it.
fn change_line(alloc: Global, test: Def, text: &str) -> Result<String, OutOfMemory> {
    let (place, rows) = cut(text, ':');
    let (lsn, number) = cut(place, ' ');
    let (old, new) = cut(rows, ':');
    let old = row_in(alloc, old)?;
    let new = row_in(alloc, new)?;
    let Some(kind) = kind_of(old, new, test.definition()) else {
        return Ok(format!(in alloc; "no change of the table")?);
    };
    let change = Change { def: 0, kind };
    let number = number.parse::<u32>().unwrap_or(0);
    let emitter = Emitter::new(alloc, test)?;
    let emitted = emitter.emit(alloc, &change, number_of(lsn), u64::from(number));
    let line = entries_line(alloc, emitted)?;
    Ok(format!(in alloc; "{}: {line}", emitter.test().served().name.as_str())?)
}

/// A row's key text, and the parts that it is read back into.
fn row_line(alloc: Global, test: &Def, text: &str) -> Result<String, OutOfMemory> {
    let row = row_of(alloc, text, ' ')?;
    if row.len() != test.definition().columns.len() {
        return Ok(format!(in alloc; "a row of another width")?);
    }
    let key = key_text(alloc, test, &row);
    let mut line = key_line(alloc, &key)?;
    if let Ok(text) = &key {
        let parts = parts_line(alloc, read_key(alloc, text.as_bytes()))?;
        line.push(' ')?;
        line.push_str(parts.as_str())?;
    }
    Ok(line)
}

#[derive(Drop)]
struct ChangeCases;

impl Answers for ChangeCases {
    fn answer(&mut self, alloc: Global, line: &str) -> Result<Option<String>, OutOfMemory> {
        let (word, rest) = cut(line, ' ');
        let answer = match word {
            "long" => change_line(alloc, items(alloc, Some("n >= 10"))?, rest)?,
            "all" => change_line(alloc, items(alloc, None)?, rest)?,
            "tags" => {
                let (place, row) = cut(rest, ':');
                let insert = format!(in alloc; "{place}::{row}")?;
                change_line(alloc, tags(alloc)?, insert.as_str())?
            }
            "key" => row_line(alloc, &tags(alloc)?, rest)?,
            "read" => {
                let bytes = bytes_of(alloc, rest)?;
                parts_line(alloc, read_key(alloc, bytes.as_slice()))?
            }
            _ => format!(in alloc; "unknown")?,
        };
        Ok(Some(answer))
    }
}

fn main(rt: HostRuntime) -> io::Result<()> {
    answer_lines(&rt, &mut ChangeCases)
}
