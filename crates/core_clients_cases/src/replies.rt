//! Clients and the replies that they take.
use cases::{bytes_of, cut};
use core_clients::{Clients, QueryError, Received, is_long, read_query};
use core_events::Out;
use fold_client::Query;
use shape_base::{Handle, HandleError, KeyedRows, Offset, OutOfMemory, Reply, Text};
use std::alloc::Global;

fn handle_of(alloc: Global, text: &str) -> Result<Option<Handle>, OutOfMemory> {
    match Handle::read(alloc, text.as_bytes()) {
        Ok(handle) => Ok(Some(handle)),
        Err(HandleError::BadHandle) => Ok(None),
        Err(HandleError::OutOfMemory) => Err(OutOfMemory),
    }
}

/// The reply that a text describes: its status, its handle, its offset, its cursor and its body, with `-` for a part that it lacks.
fn reply_of(alloc: Global, text: &str) -> Result<Reply, OutOfMemory> {
    let (status, rest) = cut(text, ' ');
    let (handle, rest) = cut(rest, ' ');
    let (offset, rest) = cut(rest, ' ');
    let (cursor, body) = cut(rest, ' ');
    Ok(Reply {
        status: status.parse::<u16>().unwrap_or(0),
        handle: handle_of(alloc, handle)?,
        offset: Offset::read(offset.as_bytes()).ok(),
        schema: None,
        cursor: cursor.parse::<u64>().ok(),
        max_age: 0,
        body: Text::of(alloc, body)?,
    })
}

/// The query of a web form; the table `none` where it is none.
fn query_of(alloc: Global, form: &str) -> Result<Query, OutOfMemory> {
    let bytes = bytes_of(alloc, form)?;
    match read_query(alloc, bytes.as_slice()) {
        Ok(query) => Ok(query),
        Err(QueryError::BadPayload) => Ok(Query {
            table: Text::of(alloc, "none")?,
            columns: None,
            clause: None,
        }),
        Err(QueryError::OutOfMemory) => Err(OutOfMemory),
    }
}

/// Adds the keys of rows.
fn put_keys(out: &mut String, rows: &KeyedRows) -> Result<(), OutOfMemory> {
    for row in rows.as_slice() {
        out.push(' ')?;
        out.push_str(row.key.as_str())?;
    }
    Ok(())
}

/// Adds what is put out.
fn put_out(alloc: Global, line: &mut String, out: &Out) -> Result<(), OutOfMemory> {
    match out {
        Out::Block {
            client,
            handle,
            offset,
            rows,
        } => {
            let (number, run) = (handle.number, handle.run.as_str());
            let offset = offset.print(alloc)?;
            let text = format!(in alloc; "block {client} {number}-{run} {}", offset.as_str())?;
            line.push_str(text.as_str())?;
            put_keys(line, rows)?;
        }
        Out::Refetched { client } => {
            let text = format!(in alloc; "refetched {client}")?;
            line.push_str(text.as_str())?;
        }
        Out::Refused { client, status } => {
            let text = format!(in alloc; "refused {client} {status}")?;
            line.push_str(text.as_str())?;
        }
        Out::Given { .. } => line.push_str("given")?,
        Out::Cut { .. } => line.push_str("cut")?,
        Out::StreamRefused { .. } => line.push_str("stream refused")?,
    }
    Ok(())
}

/// Adds what comes of a reply.
fn put_received(alloc: Global, line: &mut String, received: &Received) -> Result<(), OutOfMemory> {
    for out in received.outs.as_slice() {
        put_out(alloc, line, out)?;
        line.push_str(", ")?;
    }
    if received.goes_on {
        line.push_str("goes on")?;
    } else {
        line.push_str("ends")?;
    }
    Ok(())
}

/// Adds what stands behind the table in a target, or how many bytes a great one has.
fn put_target(alloc: Global, line: &mut String, target: &Text) -> Result<(), OutOfMemory> {
    line.push_str(", ")?;
    if is_long(target) {
        line.push_str("long ")?;
    }
    let bytes = target.as_bytes().len();
    if bytes > 200 {
        let text = format!(in alloc; "{bytes} bytes")?;
        line.push_str(text.as_str())?;
        return Ok(());
    }
    let (_table, place) = cut(target.as_str(), '&');
    line.push_str(place)?;
    Ok(())
}

/// Adds a client's open exchange and its next target.
fn put_state(
    alloc: Global,
    line: &mut String,
    clients: &Clients,
    client: u32,
) -> Result<(), OutOfMemory> {
    if let Some(exchange) = clients.waiting(client) {
        let text = format!(in alloc; ", waits for {exchange}")?;
        line.push_str(text.as_str())?;
    }
    match clients.next_target(client)? {
        Some(target) => put_target(alloc, line, &target)?,
        None => line.push_str(", no target")?,
    }
    Ok(())
}

/// What the client of a number puts out for replies, behind its first target, where client 0 is the only one.
pub fn replies_line(alloc: Global, text: &str) -> Result<String, OutOfMemory> {
    let (number, rest) = cut(text, ' ');
    let (form, replies) = cut(rest, '|');
    let client = number.parse::<u32>().unwrap_or(0);
    let mut clients = Clients::new(alloc);
    clients.join(query_of(alloc, form)?)?;
    clients.wait(client, 7);
    let mut line = format!(in alloc; "{} client", clients.len())?;
    put_state(alloc, &mut line, &clients, client)?;
    for reply in replies.split('|') {
        let reply = reply_of(alloc, reply)?;
        line.push_str(" | ")?;
        match clients.take(client, &reply)? {
            Some(received) => put_received(alloc, &mut line, &received)?,
            None => line.push_str("no client")?,
        }
        put_state(alloc, &mut line, &clients, client)?;
    }
    Ok(line)
}
