//! What a record of a script asks for.
ghost use Rattle.std.specs.Prelude.{◌≡◌, Ok};
ghost use Rattle.std.specs.Int.{w32};
ghost use Rattle.std.specs.Option.{option_map, option_and_then};
ghost use Rattle.byte_format.specs.Format.{Gives, number_at};
ghost use Rattle.core_events.specs.declared.event.Event.TheVariants as events;
ghost use Rattle.script.specs.Snapshots.{snapshot_at};
ghost use Rattle.script.specs.declared.record.Record.TheVariants.{End};
ghost use Rattle.script.specs.Records.{Answers, all_of, read_or_bad, number_in, pair_at, pair_in, long_in, piece_by, end_at, end_by, if_empty, table_in, start_in, numbers_of, event_of, record_of};
ghost use Rattle.script.specs.Seen.{item_seen};

use crate::fault::RecordError;
use crate::rows::StartRows;
use crate::snapshot::{snapshot_of, start_of};
use crate::table::{Declaration, declared, placed_of};
use byte_format::{ReadError, u8_at, u32_at, u64_at};
use core_events::Event;
use shape_base::Octets;
use std::alloc::Global;

/// One record of a script: its kind byte and its payload.
#[derive(Debug, Drop)]
pub struct Item {
    pub kind: u8,
    pub payload: Vec<u8>,
}

/// What a record asks for.
#[derive(Drop)]
pub enum Record {
    /// A served table and its first definition.
    Table(Declaration),
    /// Rows of a table at the start.
    Start(StartRows),
    /// An event comes.
    Brings(Event),
    /// The end of the script.
    End,
}

fn number_in(payload: &[u8]) -> Result<u32, RecordError>
    ensures { Answers result (read_or_bad (number_in payload.now)) }
{
    match u32_at(payload) {
        Ok((number, [])) => Ok(number),
        Ok(_) => Err(RecordError::BadPayload),
        Err(ReadError::Wrong { .. }) => Err(RecordError::BadPayload),
        Err(ReadError::OutOfMemory) => Err(RecordError::OutOfMemory),
    }
}

fn long_in(payload: &[u8]) -> Result<u64, RecordError>
    ensures { Answers result (read_or_bad (long_in payload.now)) }
{
    match u64_at(payload) {
        Ok((number, [])) => Ok(number),
        Ok(_) => Err(RecordError::BadPayload),
        Err(ReadError::Wrong { .. }) => Err(RecordError::BadPayload),
        Err(ReadError::OutOfMemory) => Err(RecordError::OutOfMemory),
    }
}

fn pair_at(bytes: &[u8]) -> Result<((u32, u32), &[u8]), ReadError>
    ensures { Gives (λ x. (x.0, x.1.now)) result (pair_at bytes.now) }
{
    let (first, rest) = u32_at(bytes)?;
    let (second, rest) = u32_at(rest)?;
    Ok(((first, second), rest))
}

fn pair_in(payload: &[u8]) -> Result<(u32, u32), RecordError>
    ensures { Answers result (read_or_bad (pair_in payload.now)) }
{
    match pair_at(payload) {
        Ok((pair, [])) => Ok(pair),
        Ok(_) => Err(RecordError::BadPayload),
        Err(ReadError::Wrong { .. }) => Err(RecordError::BadPayload),
        Err(ReadError::OutOfMemory) => Err(RecordError::OutOfMemory),
    }
}

/// A piece of what a snapshot's connection brings.
fn piece_in(alloc: Global, payload: &[u8]) -> Result<Event, RecordError>
    ensures { Answers result (read_or_bad (piece_by (number_at w32 payload.now))) }
{
    match u32_at(payload) {
        Ok((exchange, rest)) => {
            let Ok(bytes) = Vec::from_slice(alloc, rest) else {
                return Err(RecordError::OutOfMemory);
            };
            let bytes = Octets::from_vec(bytes);
            Ok(Event::SnapBytes { exchange, bytes })
        }
        Err(ReadError::Wrong { .. }) => Err(RecordError::BadPayload),
        Err(ReadError::OutOfMemory) => Err(RecordError::OutOfMemory),
    }
}

/// A whole snapshot.
fn snapshot_in(alloc: Global, payload: &[u8]) -> Result<Event, RecordError>
    ensures { Answers result (read_or_bad (all_of (snapshot_at payload.now))) }
{
    match snapshot_of(alloc, payload) {
        Ok((event, [])) => Ok(event),
        Ok(_) => Err(RecordError::BadPayload),
        Err(ReadError::Wrong { .. }) => Err(RecordError::BadPayload),
        Err(ReadError::OutOfMemory) => Err(RecordError::OutOfMemory),
    }
}

fn end_at(bytes: &[u8]) -> Result<((u32, u8), &[u8]), ReadError>
    ensures { Gives (λ x. (x.0, x.1.now)) result (end_at bytes.now) }
{
    let (exchange, rest) = u32_at(bytes)?;
    let (how, rest) = u8_at(rest)?;
    Ok(((exchange, how), rest))
}

/// The end of a snapshot's connection.
fn end_in(payload: &[u8]) -> Result<Event, RecordError>
    ensures { Answers result (read_or_bad (option_and_then end_by (all_of (end_at payload.now)))) }
{
    match end_at(payload) {
        Ok(((exchange, 0), [])) => Ok(Event::SnapEnd {
            exchange,
            failed: false,
        }),
        Ok(((exchange, 1), [])) => Ok(Event::SnapEnd {
            exchange,
            failed: true,
        }),
        Ok(_) => Err(RecordError::BadPayload),
        Err(ReadError::Wrong { .. }) => Err(RecordError::BadPayload),
        Err(ReadError::OutOfMemory) => Err(RecordError::OutOfMemory),
    }
}

/// The stream's beginning anew, which has no payload.
fn anew_in(payload: &[u8]) -> Result<Event, RecordError>
    ensures { Answers result (read_or_bad (if_empty payload.now events.Anew)) }
{
    match payload {
        [] => Ok(Event::Anew),
        _ => Err(RecordError::BadPayload),
    }
}

fn table_in(alloc: Global, payload: &[u8]) -> Result<Record, RecordError>
    ensures { Answers result (read_or_bad (table_in payload.now)) }
{
    match placed_of(alloc, payload) {
        Ok((placed, [])) => match declared(alloc, placed)? {
            None => Err(RecordError::BadPayload),
            Some(declaration) => Ok(Record::Table(declaration)),
        },
        Ok(_) => Err(RecordError::BadPayload),
        Err(ReadError::Wrong { .. }) => Err(RecordError::BadPayload),
        Err(ReadError::OutOfMemory) => Err(RecordError::OutOfMemory),
    }
}

fn start_in(alloc: Global, payload: &[u8]) -> Result<Record, RecordError>
    ensures { Answers result (read_or_bad (start_in payload.now)) }
{
    match start_of(alloc, payload) {
        Ok((start, [])) => Ok(Record::Start(start)),
        Ok(_) => Err(RecordError::BadPayload),
        Err(ReadError::Wrong { .. }) => Err(RecordError::BadPayload),
        Err(ReadError::OutOfMemory) => Err(RecordError::OutOfMemory),
    }
}

/// The script's end, which has no payload.
fn script_end_in(payload: &[u8]) -> Result<Record, RecordError>
    ensures { Answers result (read_or_bad (if_empty payload.now End)) }
{
    match payload {
        [] => Ok(Record::End),
        _ => Err(RecordError::BadPayload),
    }
}

/// The event of a kind that brings one.
#[tactic(auto, unfolding(crate::specs::Records::event_of))]
fn event_of(alloc: Global, item: Item) -> Result<Event, RecordError>
    ensures { Answers result (event_of item.kind item.payload.items) }
{
    let Item { kind, payload } = item;
    match kind {
        b'O' => anew_in(&payload),
        b'M' => Ok(Event::Message {
            bytes: Octets::from_vec(payload),
        }),
        b'F' => Ok(Event::FrameBytes {
            bytes: Octets::from_vec(payload),
        }),
        b'Q' => Ok(Event::RequestHead {
            bytes: Octets::from_vec(payload),
        }),
        b'D' => piece_in(alloc, &payload),
        b'G' => snapshot_in(alloc, &payload),
        b'X' => end_in(&payload),
        b'N' => Ok(Event::NewClient {
            pairs: Octets::from_vec(payload),
        }),
        _ => numbers_of(kind, &payload),
    }
}

/// The event of a kind that brings numbers alone.
#[tactic(auto, unfolding(crate::specs::Records::numbers_of))]
fn numbers_of(kind: u8, payload: &[u8]) -> Result<Event, RecordError>
    ensures { Answers result (numbers_of kind payload.now) }
{
    match kind {
        b'S' => {
            let client = number_in(payload)?;
            Ok(Event::SendNext { client })
        }
        b'R' => {
            let (client, exchange) = pair_in(payload)?;
            Ok(Event::Receive { client, exchange })
        }
        b'W' => {
            let client = number_in(payload)?;
            Ok(Event::Watch { client })
        }
        b'U' => {
            let number = long_in(payload)?;
            Ok(Event::Remove { number })
        }
        b'K' => {
            let now = long_in(payload)?;
            Ok(Event::Moment { now })
        }
        _ => Err(RecordError::UnknownKind),
    }
}

/// What a record asks for.
///
/// `UnknownKind` exactly where no record has its kind, `BadPayload` exactly where the payload is not of the kind's form.
#[tactic(auto, unfolding(crate::specs::Records::record_of))]
pub fn read_record(alloc: Global, item: Item) -> Result<Record, RecordError>
    ensures { Answers result (record_of (item_seen item)) }
{
    match item.kind {
        b'T' => table_in(alloc, &item.payload),
        b'B' => start_in(alloc, &item.payload),
        b'E' => script_end_in(&item.payload),
        _ => Ok(Record::Brings(event_of(alloc, item)?)),
    }
}
