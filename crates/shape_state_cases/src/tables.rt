//! The tables of the cases, and their limits.
ghost use Rattle.std.specs.Prelude.{◌<◌, ◌≤◌, ◌^◌};

use cases::{ask_of, definition_of, served_of, tables_of, texts_of};
use shape_base::{Limits, OutOfMemory, Text};
use shape_def::{Def, DefError};
use std::alloc::Global;

fn define(
    alloc: Global,
    table: &str,
    columns: &str,
    selected: &str,
    clause: Option<Text>,
) -> Result<Def, DefError> {
    let selected = if selected.is_empty() {
        None
    } else {
        Some(texts_of(alloc, selected, ',')?)
    };
    let ask = ask_of(selected, clause, Text::of(alloc, "")?);
    let tables = tables_of(alloc, served_of(alloc, "public", table, "id")?)?;
    let definition = definition_of(alloc, columns, ',')?;
    Def::from_ask(alloc, &ask, &tables, &definition)
}

/// The definition of a shape of table `items` or `todos`, of which the clause selects rows; each where it is empty.
pub(crate) fn def_of(alloc: Global, table: &str, clause: &str) -> Result<Def, OutOfMemory> {
    let clause = if clause.is_empty() {
        None
    } else {
        Some(Text::of(alloc, clause)?)
    };
    let (columns, selected) = match table {
        "todos" => ("id 2950,title 25,done 16,created 1184", "id,title"),
        _ => ("id 23,n 23,s 25", ""),
    };
    define(alloc, table, columns, selected, clause).map_err(|_| OutOfMemory)
}

/// A number up to 2^63 - 1, or that where the word is none.
fn limit_of(word: &str) -> u64
    ensures { result < 2 ^ 63 }
{
    word.parse::<u64>()
        .unwrap_or(u64::MAX)
        .min(9_223_372_036_854_775_807)
}

/// The limits of the logs' chunks, of one log, of all logs and of a buffer; `-` for none.
pub(crate) fn limits_of(chunk: &str, log: &str, all: &str, pending: &str) -> Limits {
    let chunk = limit_of(chunk).max(1);
    Limits {
        chunk,
        log: limit_of(log),
        all: limit_of(all),
        pending: limit_of(pending),
        shapes: 1,
        hold: 1,
    }
}
