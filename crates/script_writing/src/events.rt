//! Events as records.
ghost use Rattle.std.specs.Prelude.{◌≡◌};
ghost use Rattle.script_writing.specs.Outcomes.{Puts, Writes};
ghost use Rattle.script_writing.specs.Parts.{raw};
ghost use Rattle.script_writing.specs.Records.{snapshot, piece, end_of, pair, event_kind, event_payload, event_spelling, framed};

use crate::fault::WriteError;
use crate::parts::{put_int32, put_int64, put_raw, put_text};
use crate::rows::{put_columns, put_rows};
use core_events::Event;
use pg_dialogue::SnapHead;
use shape_base::{Octets, Rows};
use std::alloc::Global;

/// A record of this kind with this payload.
pub fn framed(alloc: Global, kind: u8, payload: &[u8]) -> Result<Octets, WriteError>
    ensures { Writes result (framed kind (raw payload.now)) }
{
    let mut out = Vec::new(alloc);
    out.push(kind)?;
    put_int32(&mut out, payload.len() as u64)?;
    put_raw(&mut out, payload)?;
    Ok(Octets::from_vec(out))
}

/// A whole snapshot for the exchange that owns it.
fn put_snapshot(
    out: &mut Vec<u8>,
    exchange: u32,
    head: &SnapHead,
    rows: &Rows,
) -> Result<(), WriteError>
    ensures { Puts result out.old.items out.new.items (snapshot exchange head.now rows.now) }
{
    put_int32(out, u64::from(exchange))?;
    put_text(out, &head.vis)?;
    put_int32(out, u64::from(head.oid))?;
    put_columns(out, &head.columns)?;
    put_rows(out, rows)?;
    Ok(())
}

/// A piece of what a snapshot's connection brings.
fn put_piece(out: &mut Vec<u8>, exchange: u32, bytes: &[u8]) -> Result<(), WriteError>
    ensures { Puts result out.old.items out.new.items (piece exchange bytes.now) }
{
    put_int32(out, u64::from(exchange))?;
    put_raw(out, bytes)?;
    Ok(())
}

/// How a snapshot's connection ended.
fn put_end(out: &mut Vec<u8>, exchange: u32, failed: bool) -> Result<(), WriteError>
    ensures { Puts result out.old.items out.new.items (end_of exchange failed) }
{
    put_int32(out, u64::from(exchange))?;
    if failed {
        put_raw(out, &[1])?;
        return Ok(());
    }
    put_raw(out, &[0])?;
    Ok(())
}

/// A client and an exchange.
fn put_pair(out: &mut Vec<u8>, client: u32, exchange: u32) -> Result<(), WriteError>
    ensures { Puts result out.old.items out.new.items (pair client exchange) }
{
    put_int32(out, u64::from(client))?;
    put_int32(out, u64::from(exchange))?;
    Ok(())
}

/// What an event's record has behind its length.
pub fn put_event(out: &mut Vec<u8>, event: &Event) -> Result<(), WriteError>
    ensures { Puts result out.old.items out.new.items (event_payload event.now) }
{
    match event {
        Event::Anew => Ok(()),
        Event::Message { bytes } => put_raw(out, bytes.as_slice()),
        Event::FrameBytes { bytes } => put_raw(out, bytes.as_slice()),
        Event::RequestHead { bytes } => put_raw(out, bytes.as_slice()),
        Event::SnapBytes { exchange, bytes } => put_piece(out, *exchange, bytes.as_slice()),
        Event::Snapshot {
            exchange,
            head,
            rows,
        } => put_snapshot(out, *exchange, head, rows),
        Event::SnapEnd { exchange, failed } => put_end(out, *exchange, *failed),
        Event::NewClient { pairs } => put_raw(out, pairs.as_slice()),
        Event::SendNext { client } => put_int32(out, u64::from(*client)),
        Event::Receive { client, exchange } => put_pair(out, *client, *exchange),
        Event::Watch { client } => put_int32(out, u64::from(*client)),
        Event::Remove { number } => put_int64(out, *number),
        Event::Moment { now } => put_int64(out, *now),
    }
}

/// The kind byte of an event's record.
pub fn event_kind(event: &Event) -> u8
    ensures { result ≡ event_kind event.now }
{
    match event {
        Event::Anew => b'O',
        Event::Message { .. } => b'M',
        Event::FrameBytes { .. } => b'F',
        Event::RequestHead { .. } => b'Q',
        Event::SnapBytes { .. } => b'D',
        Event::Snapshot { .. } => b'G',
        Event::SnapEnd { .. } => b'X',
        Event::NewClient { .. } => b'N',
        Event::SendNext { .. } => b'S',
        Event::Receive { .. } => b'R',
        Event::Watch { .. } => b'W',
        Event::Remove { .. } => b'U',
        Event::Moment { .. } => b'K',
    }
}

/// The record of an event.
///
/// `Unwritable` exactly where it does not fit: a name has a zero byte, or a count or a length has no room in its field.
pub fn write_event(alloc: Global, event: &Event) -> Result<Octets, WriteError>
    ensures { Writes result (event_spelling event.now) }
{
    let mut payload = Vec::new(alloc);
    put_event(&mut payload, event)?;
    framed(alloc, event_kind(event), &payload)
}
