//! What is printed of an answer.
use shape_base::{Change, ChangeKind, Duplicate, OutOfMemory, Row, TableDef, Tx, Value};
use std::alloc::{AllocError, Global};
use tx_assembler::{AssembleError, Fed};

/// A text, or the number of its bytes where it is long.
fn put_text(alloc: Global, out: &mut String, text: &str) -> Result<(), AllocError> {
    if text.len() <= 16 {
        return out.push_str(text);
    }
    let size = format!(in alloc; "({})", text.len())?;
    out.push_str(size.as_str())
}

fn put_row(alloc: Global, out: &mut String, row: &Row) -> Result<(), AllocError> {
    for value in row.as_slice() {
        match value {
            Value::Null => out.push('-')?,
            Value::Words(text) => put_text(alloc, out, text.as_str())?,
        }
    }
    Ok(())
}

fn put_change(alloc: Global, out: &mut String, change: &Change) -> Result<(), AllocError> {
    match &change.kind {
        ChangeKind::Insert { new } => {
            out.push('+')?;
            put_row(alloc, out, new)
        }
        ChangeKind::Update { old, new } => {
            out.push('*')?;
            put_row(alloc, out, old)?;
            out.push('>')?;
            put_row(alloc, out, new)
        }
        ChangeKind::Delete { old } => {
            out.push('-')?;
            put_row(alloc, out, old)
        }
        ChangeKind::Truncate => {
            out.push('0')?;
            Ok(())
        }
    }
}

fn put_definition(alloc: Global, out: &mut String, def: &TableDef) -> Result<(), AllocError> {
    let head = format!(in alloc; " [{} {} ", def.table, def.oid)?;
    out.push_str(head.as_str())?;
    for column in def.columns.as_slice() {
        out.push_str(column.name.as_str())?;
    }
    out.push(']')?;
    Ok(())
}

fn tx_line(alloc: Global, tx: &Tx) -> Result<String, AllocError> {
    let mut line = format!(in alloc;
        "tx {} xid {} end {} bytes {}",
        tx.lsn, tx.xid, tx.end, tx.bytes
    )?;
    for def in tx.defs.as_slice() {
        put_definition(alloc, &mut line, def)?;
    }
    for change in tx.changes.as_slice() {
        let place = format!(in alloc; " {}", change.def)?;
        line.push_str(place.as_str())?;
        put_change(alloc, &mut line, change)?;
    }
    Ok(line)
}

/// The answer to a message; of a transaction a copy is printed.
pub fn fed_line(alloc: Global, fed: &Fed) -> Result<String, OutOfMemory> {
    match fed {
        Fed::Nothing => Ok(format!(in alloc; "nothing")?),
        Fed::Tx(tx) => Ok(tx_line(alloc, &tx.copy(alloc)?)?),
        Fed::Repeat { lsn, last } => Ok(format!(in alloc; "repeat {lsn} last {last}")?),
    }
}

/// A refusal, with its numbers.
pub fn refusal_line(alloc: Global, error: AssembleError) -> Result<String, OutOfMemory> {
    match error {
        AssembleError::OutOfOrder { have, got } => {
            Ok(format!(in alloc; "out_of_order {have} {got}")?)
        }
        AssembleError::LsnMismatch { begin, commit } => {
            Ok(format!(in alloc; "lsn_mismatch {begin} {commit}")?)
        }
        AssembleError::UnknownRelation { oid } => Ok(format!(in alloc; "unknown_relation {oid}")?),
        AssembleError::NoOldRow { oid } => Ok(format!(in alloc; "no_old_row {oid}")?),
        AssembleError::WrongWidth { have, want } => {
            Ok(format!(in alloc; "wrong_width {have} {want}")?)
        }
        AssembleError::BinaryColumn { column } => Ok(format!(in alloc; "binary_column {column}")?),
        AssembleError::UnsentValue { column } => Ok(format!(in alloc; "unsent_value {column}")?),
        AssembleError::NotUtf8 { place } => Ok(format!(in alloc; "not_utf8 {place}")?),
        AssembleError::TxTooLarge { bytes, limit } => {
            Ok(format!(in alloc; "tx_too_large {bytes} {limit}")?)
        }
        AssembleError::OutOfMemory => Err(OutOfMemory),
    }
}
