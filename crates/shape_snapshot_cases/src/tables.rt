//! The table of the cases.
use cases::{ask_of, definition_of, served_of, tables_of};
use shape_base::{OutOfMemory, Text};
use shape_def::{Def, DefError};
use std::alloc::Global;

fn define(alloc: Global, clause: Option<Text>) -> Result<Def, DefError> {
    let ask = ask_of(None, clause, Text::of(alloc, "")?);
    let tables = tables_of(alloc, served_of(alloc, "public", "items", "id")?)?;
    let definition = definition_of(alloc, "id 23,n 23,s 25", ',')?;
    Def::from_ask(alloc, &ask, &tables, &definition)
}

/// Table `items`, of which the rows are selected that the clause selects; each where the clause is empty.
pub(crate) fn items(alloc: Global, clause: &str) -> Result<Def, OutOfMemory> {
    let clause = if clause.is_empty() {
        None
    } else {
        Some(Text::of(alloc, clause)?)
    };
    define(alloc, clause).map_err(|_| OutOfMemory)
}
