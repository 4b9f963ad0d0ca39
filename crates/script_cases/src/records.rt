//! Records, and what they ask for.
use cases::{bytes_of, put_bytes, put_row};
use core_events::Event;
use script::{Declaration, Item, Record, RecordError, StartRows, read_record};
use script_writing::{WriteError, write_event, write_record};
use shape_base::{Columns, Octets, OutOfMemory, Rows};
use std::alloc::Global;

fn put_columns(out: &mut String, columns: &Columns) -> Result<(), OutOfMemory> {
    for column in columns.as_slice() {
        out.push(' ')?;
        put_bytes(out, column.name.as_bytes())?;
        let oid = column.oid;
        write!(out, ":{oid}")?;
    }
    Ok(())
}

fn put_rows(out: &mut String, rows: &Rows) -> Result<(), OutOfMemory> {
    for row in rows.as_slice() {
        out.push_str(" [")?;
        put_row(out, row, ',')?;
        out.push(']')?;
    }
    Ok(())
}

fn put_octets(out: &mut String, word: &str, bytes: &Octets) -> Result<(), OutOfMemory> {
    out.push_str(word)?;
    out.push(' ')?;
    put_bytes(out, bytes.as_slice())
}

fn put_table(out: &mut String, table: &Declaration) -> Result<(), OutOfMemory> {
    out.push_str("table ")?;
    put_bytes(out, table.ns.as_bytes())?;
    out.push('.')?;
    put_bytes(out, table.name.as_bytes())?;
    let oid = table.oid;
    write!(out, " {oid}")?;
    put_columns(out, &table.columns)?;
    out.push_str(" key")?;
    put_columns(out, &table.key)
}

fn put_start(out: &mut String, start: &StartRows) -> Result<(), OutOfMemory> {
    let table = start.table;
    write!(out, "start {table}")?;
    put_rows(out, &start.rows)
}

fn put_event(out: &mut String, event: &Event) -> Result<(), OutOfMemory> {
    match event {
        Event::Anew => out.push_str("anew")?,
        Event::Message { bytes } => put_octets(out, "message", bytes)?,
        Event::FrameBytes { bytes } => put_octets(out, "frames", bytes)?,
        Event::RequestHead { bytes } => put_octets(out, "head", bytes)?,
        Event::SnapBytes { exchange, bytes } => {
            write!(out, "{exchange} ")?;
            put_octets(out, "snapshot bytes", bytes)?;
        }
        Event::Snapshot {
            exchange,
            head,
            rows,
        } => {
            let oid = head.oid;
            write!(out, "{exchange} snapshot {} {oid}", head.vis.as_str())?;
            put_columns(out, &head.columns)?;
            put_rows(out, rows)?;
        }
        Event::SnapEnd { exchange, failed } => write!(out, "{exchange} snapshot ends {failed}")?,
        Event::NewClient { pairs } => put_octets(out, "client of", pairs)?,
        Event::SendNext { client } => write!(out, "client {client} sends")?,
        Event::Receive { client, exchange } => write!(out, "client {client} receives {exchange}")?,
        Event::Watch { client } => write!(out, "client {client} watches")?,
        Event::Remove { number } => write!(out, "remove {number}")?,
        Event::Moment { now } => write!(out, "moment {now}")?,
    }
    Ok(())
}

fn put_record(out: &mut String, record: &Record) -> Result<(), OutOfMemory> {
    match record {
        Record::Table(table) => put_table(out, table),
        Record::Start(start) => put_start(out, start),
        Record::Brings(event) => put_event(out, event),
        Record::End => {
            out.push_str("end")?;
            Ok(())
        }
    }
}

/// The record of a kind with a payload that a line spells.
fn item_of(alloc: Global, kind: &str, payload: &str) -> Result<Item, OutOfMemory> {
    let kind = match kind.as_bytes() {
        [kind, ..] => *kind,
        [] => 0,
    };
    let payload = bytes_of(alloc, payload)?;
    Ok(Item { kind, payload })
}

fn put_error(out: &mut String, error: RecordError) -> Result<(), OutOfMemory> {
    match error {
        RecordError::UnknownKind => out.push_str("unknown_kind")?,
        RecordError::BadPayload => out.push_str("bad_payload")?,
        RecordError::OutOfMemory => return Err(OutOfMemory),
    }
    Ok(())
}

/// What a record of a kind with a payload asks for.
pub fn record_line(alloc: Global, kind: &str, payload: &str) -> Result<String, OutOfMemory> {
    let item = item_of(alloc, kind, payload)?;
    let mut out = String::new(alloc);
    match read_record(alloc, item) {
        Ok(record) => put_record(&mut out, &record)?,
        Err(error) => put_error(&mut out, error)?,
    }
    Ok(out)
}

fn put_written(out: &mut String, written: Result<Octets, WriteError>) -> Result<(), OutOfMemory> {
    match written {
        Ok(bytes) => put_bytes(out, bytes.as_slice()),
        Err(WriteError::Unwritable) => {
            out.push_str("unwritable")?;
            Ok(())
        }
        Err(WriteError::OutOfMemory) => Err(OutOfMemory),
    }
}

/// The record as it is written again.
fn written(alloc: Global, record: &Record) -> Result<Octets, WriteError> {
    match record {
        Record::Brings(event) => write_event(alloc, event),
        _ => write_record(alloc, record),
    }
}

/// The bytes that are written of what a record of a kind with a payload asks for.
pub fn again_line(alloc: Global, kind: &str, payload: &str) -> Result<String, OutOfMemory> {
    let item = item_of(alloc, kind, payload)?;
    let mut out = String::new(alloc);
    match read_record(alloc, item) {
        Ok(record) => put_written(&mut out, written(alloc, &record))?,
        Err(error) => put_error(&mut out, error)?,
    }
    Ok(out)
}
