//! Reads lines that ask for the identity of a shape, for the definition of a request or for the truth of a row, and prints
//! what `shape_def` answers: cases for it.
//!
//! | Line | What is printed |
//! |---|---|
//! | `identity public\|tags\|name,count\|TRUE` | the text that tells the shape of table `tags` apart, with these chosen columns and this clause |
//! | `define id,title\|title,id\|done` | of a request of table `todos`, whose first two columns have the names before the first bar: the places of the key and of the chosen columns and the identity, or the refusal with its number |
//! | `truth 7,milk,f,\N\|title,id\|done` | the truth of the row for a copy of the request's definition, or the column that cannot be read; `\N` stands for null |
//!
//! `-` stands for no chosen columns and for no clause; nothing in the place of columns is an empty list of them.
#![tactic(auto)]

mod printing;

ghost use Rattle.std.specs.Prelude.{◌≡◌, ◌≤◌, length, IfOk};

use cases::{
    Answers, answer_lines, ask_of, cut, definition_of, row_of, served_of, tables_of, texts_of,
};
use printing::{definition_line, refusal_line, truth_line};
use shape_base::{Duplicate, OutOfMemory, TableDef, Text, Texts};
use shape_def::{Def, DefError, identity};
use std::alloc::Global;
use std::io;

/// The names between commas: none for `-`.
fn names_of(alloc: Global, text: &str) -> Result<Option<Texts>, OutOfMemory> {
    if text == "-" {
        return Ok(None);
    }
    Ok(Some(texts_of(alloc, text, ',')?))
}

/// A clause; none for `-` and for no text.
fn clause_of(alloc: Global, text: &str) -> Result<Option<Text>, OutOfMemory> {
    if text == "-" {
        return Ok(None);
    }
    Ok(Some(Text::of(alloc, text)?))
}

/// The text that tells a shape apart.
fn identity_line(alloc: Global, text: &str) -> Result<String, OutOfMemory> {
    let (ns, rest) = cut(text, '|');
    let (name, rest) = cut(rest, '|');
    let (columns, text) = rest.split_once('|').unwrap_or((rest, "-"));
    let table = served_of(alloc, ns, name, "id")?;
    let columns = names_of(alloc, columns)?;
    let clause = clause_of(alloc, text)?;
    let identity = identity(alloc, &table, columns.as_ref(), clause.as_ref())?;
    Ok(format!(in alloc; "{}", identity.as_str())?)
}

/// The definition of table `todos`, whose first two columns have these names.
fn todos(alloc: Global, first: &str, second: &str) -> Result<TableDef, OutOfMemory>
    ensures table { IfOk result (λ definition. definition.table ≡ 0) }
    ensures few { IfOk result (λ definition. length definition.columns ≤ 1600) }
{
    let columns = format!(in alloc; "{first} 2950|{second} 25|done 16|created 1184")?;
    definition_of(alloc, columns.as_str(), '|')
}

/// The definition of a request of table `todos`, whose first two columns have these names.
fn define(alloc: Global, first_two: &str, columns: &str, text: &str) -> Result<Def, DefError> {
    let (first, second) = cut(first_two, ',');
    let table = served_of(alloc, "public", "todos", "id")?;
    let columns = names_of(alloc, columns)?;
    let clause = clause_of(alloc, text)?;
    let identity = identity(alloc, &table, columns.as_ref(), clause.as_ref())?;
    let ask = ask_of(columns, clause, identity);
    let tables = tables_of(alloc, table)?;
    let definition = todos(alloc, first, second)?;
    Def::from_ask(alloc, &ask, &tables, &definition)
}

/// The definition of a request, or its refusal.
fn define_line(alloc: Global, text: &str) -> Result<String, OutOfMemory> {
    let (first_two, rest) = cut(text, '|');
    let (columns, text) = rest.split_once('|').unwrap_or((rest, "-"));
    match define(alloc, first_two, columns, text) {
        Ok(def) => definition_line(alloc, &def),
        Err(error) => refusal_line(alloc, error),
    }
}

/// The truth of a row for a copy of a request's definition, or the request's refusal.
fn row_line(alloc: Global, text: &str) -> Result<String, OutOfMemory> {
    let (values, rest) = cut(text, '|');
    let (columns, text) = rest.split_once('|').unwrap_or((rest, "-"));
    let row = row_of(alloc, values, ',')?;
    match define(alloc, "id,title", columns, text) {
        Ok(def) => truth_line(alloc, &def.copy(alloc)?, &row),
        Err(error) => refusal_line(alloc, error),
    }
}

#[derive(Drop)]
struct DefinitionCases;

impl Answers for DefinitionCases {
    fn answer(&mut self, alloc: Global, line: &str) -> Result<Option<String>, OutOfMemory> {
        let (word, rest) = cut(line, ' ');
        let answer = match word {
            "identity" => identity_line(alloc, rest)?,
            "define" => define_line(alloc, rest)?,
            "truth" => row_line(alloc, rest)?,
            _ => format!(in alloc; "no such line")?,
        };
        Ok(Some(answer))
    }
}

fn main(rt: HostRuntime) -> io::Result<()> {
    answer_lines(&rt, &mut DefinitionCases)
}
