//! Reads replies, and prints what a new client makes of each: cases for `fold_client`.
//!
//! A line has replies between bars. The client's query is the table `items`. A reply is its status, its handle, its offset, its cursor and its body, with `-` for a part that
//! it lacks. What is printed of each stands between bars too: the client's answer, how many rows it has then, and its next target behind `/v1/shape?table=items`.
#![tactic(auto)]

use cases::{Answers, answer_lines, cut};
use fold_client::{Client, Query, TakeError, Taken};
use shape_base::{Handle, HandleError, Offset, OutOfMemory, Reply, Text};
use std::alloc::Global;
use std::io;

fn handle_of(alloc: Global, text: &str) -> Result<Option<Handle>, OutOfMemory> {
    match Handle::read(alloc, text.as_bytes()) {
        Ok(handle) => Ok(Some(handle)),
        Err(HandleError::BadHandle) => Ok(None),
        Err(HandleError::OutOfMemory) => Err(OutOfMemory),
    }
}

/// The reply that a text describes.
fn reply_of(alloc: Global, text: &str) -> Result<Reply, OutOfMemory> {
    let (status, rest) = cut(text, ' ');
    let (handle, rest) = cut(rest, ' ');
    let (offset, rest) = cut(rest, ' ');
    let (cursor, body) = cut(rest, ' ');
    Ok(Reply {
        status: status.parse::<u16>().unwrap_or(0),
        handle: handle_of(alloc, handle)?,
        offset: Offset::read(offset.as_bytes()).ok(),
        schema: None,
        cursor: cursor.parse::<u64>().ok(),
        max_age: 0,
        body: Text::of(alloc, body)?,
    })
}

/// The word for an answer.
fn word_of(alloc: Global, answer: Result<Taken, TakeError>) -> Result<String, OutOfMemory> {
    match answer {
        Ok(Taken::UpToDate) => Ok(format!(in alloc; "up-to-date")?),
        Ok(Taken::More) => Ok(format!(in alloc; "more")?),
        Ok(Taken::Refetch) => Ok(format!(in alloc; "refetch")?),
        Err(TakeError::BadReply) => Ok(format!(in alloc; "bad-reply")?),
        Err(TakeError::ForeignHandle { asked, got }) => {
            let (asked, got) = (asked.number, got.number);
            Ok(format!(in alloc; "foreign-handle {asked} {got}")?)
        }
        Err(TakeError::BadFold { offset, key }) => {
            let offset = offset.print(alloc)?;
            Ok(format!(in alloc; "bad-fold {} {}", offset.as_str(), key.as_str())?)
        }
        Err(TakeError::ServerRefused { status }) => {
            Ok(format!(in alloc; "server-refused {status}")?)
        }
        Err(TakeError::OutOfMemory) => Err(OutOfMemory),
    }
}

#[derive(Drop)]
struct ClientCases;

/// What a new client makes of replies.
fn replies_line(alloc: Global, line: &str) -> Result<String, OutOfMemory> {
    let mut client = Client::new(
        alloc,
        Query {
            table: Text::of(alloc, "items")?,
            columns: None,
            clause: None,
        },
    );
    let mut out = String::new(alloc);
    for text in line.split('|') {
        if !out.is_empty() {
            out.push_str(" | ")?;
        }
        let reply = reply_of(alloc, text)?;
        let word = word_of(alloc, client.take(&reply))?;
        out.push_str(word.as_str())?;
        let rows = client.rows().rows()?;
        let target = client.next_target()?;
        let (_path, place) = cut(target.as_str(), '&');
        let rows = rows.as_slice().len();
        let next = format!(in alloc; " {rows} {place}")?;
        out.push_str(next.as_str())?;
    }
    Ok(out)
}

impl Answers for ClientCases {
    fn answer(&mut self, alloc: Global, line: &str) -> Result<Option<String>, OutOfMemory> {
        Ok(Some(replies_line(alloc, line)?))
    }
}

fn main(rt: HostRuntime) -> io::Result<()> {
    answer_lines(&rt, &mut ClientCases)
}
