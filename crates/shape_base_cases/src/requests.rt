//! Copies of requests.
use cases::{ask_of, cut, texts_of};
use shape_base::{Ask, Duplicate, Handle, HandleError, Named, OutOfMemory, Text, Texts};
use std::alloc::Global;

/// The handle that a request names; none for `-`.
fn named(alloc: Global, text: &str) -> Result<Named, OutOfMemory> {
    if text == "-" {
        return Ok(Named::Absent);
    }
    match Handle::read(alloc, text.as_bytes()) {
        Ok(handle) => Ok(Named::Known(handle)),
        Err(HandleError::BadHandle) => Ok(Named::Strange),
        Err(HandleError::OutOfMemory) => Err(OutOfMemory),
    }
}

fn columns_of(alloc: Global, text: &str) -> Result<Option<Texts>, OutOfMemory> {
    if text == "-" {
        return Ok(None);
    }
    Ok(Some(texts_of(alloc, text, ',')?))
}

fn clause_of(alloc: Global, text: &str) -> Result<Option<Text>, OutOfMemory> {
    if text == "-" {
        return Ok(None);
    }
    Ok(Some(Text::of(alloc, text)?))
}

fn put_columns(out: &mut String, columns: &Option<Texts>) -> Result<(), OutOfMemory> {
    match columns {
        Some(columns) => {
            for column in columns.as_slice() {
                out.push(' ')?;
                out.push_str(column.as_str())?;
            }
        }
        None => out.push_str(" all")?,
    }
    Ok(())
}

fn put_named(alloc: Global, out: &mut String, named: &Named) -> Result<(), OutOfMemory> {
    match named {
        Named::Absent => out.push_str(" absent")?,
        Named::Known(handle) => {
            let handle = format!(in alloc; " {}-{}", handle.number, handle.run.as_str())?;
            out.push_str(handle.as_str())?;
        }
        Named::Strange => out.push_str(" strange")?,
    }
    Ok(())
}

fn request_line(alloc: Global, ask: &Ask) -> Result<String, OutOfMemory> {
    let mut line = format!(in alloc; "table {} columns", ask.table)?;
    put_columns(&mut line, &ask.columns)?;
    line.push_str(" where")?;
    match &ask.clause {
        Some(clause) => {
            line.push(' ')?;
            line.push_str(clause.as_str())?;
        }
        None => line.push_str(" none")?,
    }
    line.push_str(" handle")?;
    put_named(alloc, &mut line, &ask.named)?;
    let end = format!(in alloc;
        " identity {} offset {} live {} cursor {}",
        ask.identity.as_str(),
        ask.offset.print(alloc)?.as_str(),
        ask.live,
        ask.cursor
    )?;
    line.push_str(end.as_str())?;
    Ok(line)
}

/// What a copy of a request holds.
pub(crate) fn ask_line(alloc: Global, text: &str) -> Result<String, OutOfMemory> {
    let (columns, rest) = cut(text, '|');
    let (clause, handle) = cut(rest, '|');
    let columns = columns_of(alloc, columns)?;
    let clause = clause_of(alloc, clause)?;
    let mut ask = ask_of(columns, clause, Text::of(alloc, "it")?);
    ask.named = named(alloc, handle)?;
    ask.live = true;
    ask.cursor = 7;
    request_line(alloc, &ask.copy(alloc)?)
}
