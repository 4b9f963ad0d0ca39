//! Calls on exchanges.
use cases::{cut, number_of};
use core_exchanges::{Asked, Exchange, Exchanges, Role};
use http_edge::ErrorCode;
use shape_base::{Ask, Handle, Named, Offset, OutOfMemory, Reply, Text};
use std::alloc::Global;

/// A reply of a status.
fn reply_of(alloc: Global, status: u16) -> Result<Reply, OutOfMemory> {
    Ok(Reply {
        status,
        handle: None,
        offset: None,
        schema: None,
        cursor: None,
        max_age: 0,
        body: Text::of(alloc, "")?,
    })
}

/// A request that names a handle of a number.
fn ask_of(alloc: Global, number: u64) -> Result<Asked, OutOfMemory> {
    let run = Text::of(alloc, "r")?;
    Ok(Asked::AsksFor(Ask {
        table: 0,
        columns: None,
        clause: None,
        identity: Text::of(alloc, "i")?,
        named: Named::Known(Handle { number, run }),
        offset: Offset::Start,
        live: true,
        cursor: 0,
    }))
}

/// What an exchange was asked.
fn asked_of(alloc: Global, word: &str, number: u64) -> Result<Asked, OutOfMemory> {
    if word == "named" {
        return Ok(ask_of(alloc, number)?);
    }
    Ok(Asked::Refused(ErrorCode::BadHead))
}

/// The role of an exchange.
fn role_of(word: &str, number: u64) -> Role {
    if word == "waits" || word == "answered" {
        return Role::Waits { number };
    }
    if word == "owns" {
        return Role::Owns { number };
    }
    if word == "none" {
        return Role::HasNone;
    }
    Role::Reads
}

/// The reply that an exchange has as it comes.
fn given_of(alloc: Global, word: &str) -> Result<Option<Reply>, OutOfMemory> {
    if word == "answered" {
        return Ok(Some(reply_of(alloc, 503)?));
    }
    Ok(None)
}

/// Adds an exchange, and gives its place.
fn pushed(
    alloc: Global,
    exchanges: &mut Exchanges,
    word: &str,
    rest: &str,
) -> Result<String, OutOfMemory> {
    let (moment, number) = cut(rest, ' ');
    let number = number_of(number);
    let exchange = Exchange {
        outside: true,
        target: None,
        asked: asked_of(alloc, word, number)?,
        close: false,
        moment: number_of(moment),
        role: role_of(word, number),
        given: given_of(alloc, word)?,
    };
    if !exchanges.has_room() {
        return Ok(format!(in alloc; "full")?);
    }
    let place = exchanges.push(exchange)?;
    Ok(format!(in alloc; "{place}")?)
}

/// The status of the reply in a place.
fn got(alloc: Global, exchanges: &Exchanges, place: u32) -> Result<String, OutOfMemory> {
    let Some(exchange) = exchanges.get(place) else {
        return Ok(format!(in alloc; "past")?);
    };
    match &exchange.given {
        Some(reply) => Ok(format!(in alloc; "{}", reply.status)?),
        None => Ok(format!(in alloc; "open")?),
    }
}

/// Places, each behind a space.
fn listed(alloc: Global, places: &[u32]) -> Result<String, OutOfMemory> {
    let mut text = format!(in alloc; "at")?;
    for place in places {
        let one = *place;
        let word = format!(in alloc; " {one}")?;
        text.push_str(word.as_str())?;
    }
    Ok(text)
}

/// What is printed for a call.
fn called(alloc: Global, exchanges: &mut Exchanges, call: &str) -> Result<String, OutOfMemory> {
    let (word, rest) = cut(call, ' ');
    let (first, second) = cut(rest, ' ');
    if word == "len" {
        let count = exchanges.len();
        return Ok(format!(in alloc; "{count}")?);
    }
    if word == "awaiting" {
        let places = exchanges.awaiting(number_of(first))?;
        return Ok(listed(alloc, places.as_slice())?);
    }
    if word == "late" {
        let places = exchanges.late(number_of(first), number_of(second))?;
        return Ok(listed(alloc, places.as_slice())?);
    }
    let place = first.parse::<u32>().unwrap_or(0);
    if word == "get" {
        return Ok(got(alloc, exchanges, place)?);
    }
    if word == "give" {
        let status = second.parse::<u16>().unwrap_or(0);
        exchanges.give(place, reply_of(alloc, status)?);
        return Ok(got(alloc, exchanges, place)?);
    }
    pushed(alloc, exchanges, word, rest)
}

/// What is printed for the calls of a line.
pub fn calls_line(alloc: Global, line: &str) -> Result<String, OutOfMemory> {
    let mut exchanges = Exchanges::new(alloc);
    let mut text = String::new(alloc);
    for call in line.split('|') {
        let word = called(alloc, &mut exchanges, call)?;
        text.push_str(word.as_str())?;
        text.push('|')?;
    }
    Ok(text)
}
