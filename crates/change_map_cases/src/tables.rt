//! The tables of the cases.
use cases::{ask_of, definition_of, served_of, tables_of};
use shape_base::{OutOfMemory, Text};
use shape_def::{Def, DefError};
use std::alloc::Global;

/// The definition of a request for all columns of a table in schema `public`.
fn define(
    alloc: Global,
    name: &str,
    key: &str,
    columns: &str,
    clause: Option<&str>,
) -> Result<Def, DefError> {
    let clause = match clause {
        Some(clause) => Some(Text::of(alloc, clause)?),
        None => None,
    };
    let ask = ask_of(None, clause, Text::of(alloc, "")?);
    let tables = tables_of(alloc, served_of(alloc, "public", name, key)?)?;
    let definition = definition_of(alloc, columns, '|')?;
    Def::from_ask(alloc, &ask, &tables, &definition)
}

/// Table `items` with key `id`, where the rows are selected that the clause, if there is one, selects.
pub(crate) fn items(alloc: Global, clause: Option<&str>) -> Result<Def, OutOfMemory> {
    define(alloc, "items", "id", "id 23|n 23|s 25", clause).map_err(|_| OutOfMemory)
}

/// Table `tags` with key `name`; each row is selected.
pub(crate) fn tags(alloc: Global) -> Result<Def, OutOfMemory> {
    define(alloc, "tags", "name", "name 25|count 23", None).map_err(|_| OutOfMemory)
}
