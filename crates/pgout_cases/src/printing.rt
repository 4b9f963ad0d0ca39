//! What is printed of messages.
use cases::put_bytes;
use pgout::{Before, ColumnSent, Field, Fields, Message};
use shape_base::OutOfMemory;
use std::alloc::Global;

/// The place of a fault, and the message's kind.
pub(crate) fn bad_line(alloc: Global, place: u64, kind: u8) -> Result<String, OutOfMemory> {
    let mut line = format!(in alloc; "bad {place} ")?;
    put_bytes(&mut line, &[kind])?;
    Ok(line)
}

/// Adds a blank and bytes.
fn put_word(out: &mut String, bytes: &[u8]) -> Result<(), OutOfMemory> {
    out.push(' ')?;
    put_bytes(out, bytes)
}

fn put_field(out: &mut String, field: &Field) -> Result<(), OutOfMemory> {
    match field {
        Field::Null => {
            out.push('n')?;
            Ok(())
        }
        Field::Unsent => {
            out.push('u')?;
            Ok(())
        }
        Field::Chars(text) => {
            out.push('t')?;
            put_bytes(out, text.as_slice())
        }
        Field::Binary(bytes) => {
            out.push('b')?;
            put_bytes(out, bytes.as_slice())
        }
    }
}

/// Adds a word and a row.
fn put_row(out: &mut String, word: &str, row: &Fields) -> Result<(), OutOfMemory> {
    out.push_str(word)?;
    let mut first = true;
    for field in row.as_slice() {
        if !first {
            out.push('|')?;
        }
        first = false;
        put_field(out, field)?;
    }
    Ok(())
}

fn put_before(out: &mut String, before: &Before) -> Result<(), OutOfMemory> {
    match before {
        Before::Absent => Ok(()),
        Before::Key(row) => put_row(out, " key ", row),
        Before::Whole(row) => put_row(out, " old ", row),
    }
}

fn put_column(alloc: Global, out: &mut String, column: &ColumnSent) -> Result<(), OutOfMemory> {
    let flags = format!(in alloc; ", {}", column.flags)?;
    out.push_str(flags.as_str())?;
    put_word(out, column.name.as_slice())?;
    let types = format!(in alloc; " {} {:x}", column.oid, column.modifier)?;
    out.push_str(types.as_str())?;
    Ok(())
}

/// A relation, with its columns behind commas: flags, name, type and type modifier.
fn relation_line(
    alloc: Global,
    oid: u32,
    names: (&[u8], &[u8]),
    identity: u8,
    columns: &[ColumnSent],
) -> Result<String, OutOfMemory> {
    let mut line = format!(in alloc; "relation {oid}")?;
    put_word(&mut line, names.0)?;
    put_word(&mut line, names.1)?;
    put_word(&mut line, &[identity])?;
    for column in columns {
        put_column(alloc, &mut line, column)?;
    }
    Ok(line)
}

fn logical_line(
    alloc: Global,
    flags: u8,
    lsn: u64,
    prefix: &[u8],
    content: &[u8],
) -> Result<String, OutOfMemory> {
    let mut line = format!(in alloc; "logical {flags} {lsn:x}")?;
    put_word(&mut line, prefix)?;
    put_word(&mut line, content)?;
    Ok(line)
}

fn truncate_line(alloc: Global, options: u8, oids: &[u32]) -> Result<String, OutOfMemory> {
    let mut line = format!(in alloc; "truncate {options}")?;
    for oid in oids {
        let word = format!(in alloc; " {}", *oid)?;
        line.push_str(word.as_str())?;
    }
    Ok(line)
}

/// A message that is no change of a table.
fn frame_line(alloc: Global, message: &Message) -> Result<String, OutOfMemory> {
    match message {
        Message::Begin { lsn, time, xid } => {
            Ok(format!(in alloc; "begin {lsn:x} {time:x} {xid}")?)
        }
        Message::Commit {
            flags,
            lsn,
            end,
            time,
        } => Ok(format!(in alloc; "commit {flags} {lsn:x} {end:x} {time:x}")?),
        Message::Origin { lsn, name } => {
            let mut line = format!(in alloc; "origin {lsn:x}")?;
            put_word(&mut line, name.as_slice())?;
            Ok(line)
        }
        Message::TypeName { oid, ns, name } => {
            let mut line = format!(in alloc; "type {oid}")?;
            put_word(&mut line, ns.as_slice())?;
            put_word(&mut line, name.as_slice())?;
            Ok(line)
        }
        Message::Logical {
            flags,
            lsn,
            prefix,
            content,
        } => logical_line(alloc, *flags, *lsn, prefix.as_slice(), content.as_slice()),
        _ => Ok(format!(in alloc; "a change")?),
    }
}

/// A message, with its fields.
pub(crate) fn message_line(alloc: Global, message: &Message) -> Result<String, OutOfMemory> {
    match message {
        Message::Relation {
            oid,
            ns,
            name,
            identity,
            columns,
        } => {
            let names = (ns.as_slice(), name.as_slice());
            relation_line(alloc, *oid, names, *identity, columns.as_slice())
        }
        Message::Insert { oid, row } => {
            let mut line = format!(in alloc; "insert {oid}")?;
            put_row(&mut line, " new ", row)?;
            Ok(line)
        }
        Message::Update { oid, before, row } => {
            let mut line = format!(in alloc; "update {oid}")?;
            put_before(&mut line, before)?;
            put_row(&mut line, " new ", row)?;
            Ok(line)
        }
        Message::Delete { oid, before } => {
            let mut line = format!(in alloc; "delete {oid}")?;
            put_before(&mut line, before)?;
            Ok(line)
        }
        Message::Truncate { options, oids } => truncate_line(alloc, *options, oids.as_slice()),
        _ => frame_line(alloc, message),
    }
}
