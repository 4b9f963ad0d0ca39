//! Tables, columns and requests.
ghost use Rattle.std.specs.Prelude.{◌≡◌, ◌≤◌, length, IfOk};

use shape_base::{
    Ask, Column, Columns, Named, Offset, OutOfMemory, Served, ServedTables, TableDef, Text, Texts,
};
use std::alloc::Global;

/// The texts between marks; none for an empty text.
pub fn texts_of(alloc: Global, text: &str, mark: char) -> Result<Texts, OutOfMemory> {
    let mut texts = Texts::new(alloc);
    if text.is_empty() {
        return Ok(texts);
    }
    for word in text.split(mark) {
        texts.push(Text::of(alloc, word)?)?;
    }
    Ok(texts)
}

/// The column of a word such as `id 23`: its name, and the OID of its type.
fn column_of(alloc: Global, word: &str) -> Result<Column, OutOfMemory> {
    let (name, oid) = word.rsplit_once(' ').unwrap_or((word, ""));
    let name = Text::of(alloc, name)?;
    let oid = oid.parse::<u32>().unwrap_or(0);
    Ok(Column { name, oid })
}

/// The columns between marks, each as `id 23`.
pub fn columns_of(alloc: Global, text: &str, mark: char) -> Result<Columns, OutOfMemory> {
    let mut columns = Columns::new(alloc);
    for word in text.split(mark) {
        columns.push(column_of(alloc, word)?)?;
    }
    Ok(columns)
}

/// A definition of table 0 with the columns between marks, or with none where they are more than the 1,600 that a table
/// may have (PostgreSQL manual, appendix K).
pub fn definition_of(alloc: Global, text: &str, mark: char) -> Result<TableDef, OutOfMemory>
    ensures table { IfOk result (λ definition. definition.table ≡ 0) }
    ensures few { IfOk result (λ definition. length definition.columns ≤ 1600) }
{
    let mut columns = columns_of(alloc, text, mark)?;
    if columns.len() > 1600 {
        columns = Columns::new(alloc);
    }
    Ok(TableDef {
        table: 0,
        oid: 16384,
        columns,
    })
}

/// The served table of this schema and name whose key is one column.
pub fn served_of(alloc: Global, ns: &str, name: &str, key: &str) -> Result<Served, OutOfMemory> {
    let mut columns = Texts::new(alloc);
    columns.push(Text::of(alloc, key)?)?;
    Ok(Served {
        ns: Text::of(alloc, ns)?,
        name: Text::of(alloc, name)?,
        key: columns,
    })
}

/// The list of one served table.
pub fn tables_of(alloc: Global, table: Served) -> Result<ServedTables, OutOfMemory>
    ensures { IfOk result (λ tables. length tables ≡ 1) }
{
    Ok(ServedTables::from_vec(vec![in alloc; table]?))
}

/// The first request for a shape of table 0: it names no handle, and does not wait.
pub fn ask_of(columns: Option<Texts>, clause: Option<Text>, identity: Text) -> Ask
    ensures { result.table ≡ 0 }
{
    Ask {
        table: 0,
        columns,
        clause,
        identity,
        named: Named::Absent,
        offset: Offset::Start,
        live: false,
        cursor: 0,
    }
}
