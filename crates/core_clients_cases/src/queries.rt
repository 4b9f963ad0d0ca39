//! Queries and their web forms.
use cases::{bytes_of, put_bytes};
use core_clients::{QueryError, read_query};
use fold_client::Query;
use shape_base::{OutOfMemory, Text};
use std::alloc::Global;

/// Adds a value between brackets, behind its name.
fn put_value(out: &mut String, name: &str, value: &Text) -> Result<(), OutOfMemory> {
    out.push_str(name)?;
    out.push_str(" [")?;
    put_bytes(out, value.as_bytes())?;
    out.push(']')?;
    Ok(())
}

/// The line of a query.
fn line_of(alloc: Global, query: &Query) -> Result<String, OutOfMemory> {
    let mut out = String::new(alloc);
    put_value(&mut out, "table", &query.table)?;
    if let Some(columns) = &query.columns {
        put_value(&mut out, " columns", columns)?;
    }
    if let Some(clause) = &query.clause {
        put_value(&mut out, " where", clause)?;
    }
    Ok(out)
}

/// What a web form is read as.
pub fn query_line(alloc: Global, form: &str) -> Result<String, OutOfMemory> {
    let bytes = bytes_of(alloc, form)?;
    match read_query(alloc, bytes.as_slice()) {
        Ok(query) => line_of(alloc, &query),
        Err(QueryError::BadPayload) => Ok(format!(in alloc; "bad_payload")?),
        Err(QueryError::OutOfMemory) => Err(OutOfMemory),
    }
}
