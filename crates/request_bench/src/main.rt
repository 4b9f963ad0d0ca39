//! A program for measuring heads of requests, and replies.
//!
//! | Words | What it does and prints |
//! |---|---|
//! | `print 4` | so many heads, one behind the other |
//! | `parse 1000000` | parses as many with `httparse` alone, and prints how many heads there were with how many bytes |
//! | `route 1000000` | reads and routes the same heads, and prints the same, and how many asked for something |
//! | `write 10000` | writes a reply with a body of 64 KiB so often, and prints how many replies there were with how many bytes |
//!
//! Its status is 1 where the first word is another.
#![tactic(auto)]

ghost use Rattle.std.specs.Prelude.{◌<◌, ◌^◌, length};

mod heads;

use heads::{Counts, Heads, heads_of, tables_of};
use http_edge::{has_text, read_request, route, write_reply};
use httparse::Status;
use httparse::spans::{EMPTY_HEADER_SPAN, parse_request};
use shape_base::{OutOfMemory, Reply, ServedTables, Text};
use std::alloc::{AllocError, Global};
use std::io::{BufWriter, Write};
use std::process::ExitCode;
use std::{env, io};

/// How many heads are kept; they are gone through again and again.
const KEPT: u64 = 1000;

fn print_main<R: Print + AllocGlobal>(rt: &R, count: u64) -> io::Result<ExitCode> {
    let alloc = rt.alloc();
    let mut out = BufWriter::new(alloc, io::writer(rt))?;
    for head in &heads_of(alloc, count)? {
        out.write_all(head.as_str().as_bytes())?;
    }
    out.flush()?;
    Ok(ExitCode::SUCCESS)
}

/// Parses each head with `httparse` alone.
fn parse_heads(heads: &Heads, counts: &mut Counts) {
    for head in heads {
        let mut fields = [EMPTY_HEADER_SPAN; 64];
        if let Ok(Status::Complete(spans)) = parse_request(head.as_str().as_bytes(), &mut fields) {
            counts.add(spans.len as u64);
        }
    }
}

/// Reads and routes each head.
fn route_heads(
    alloc: Global,
    heads: &Heads,
    tables: &ServedTables,
    counts: &mut Counts,
) -> Result<(), OutOfMemory>
    requires { length tables.now < 2 ^ 32 }
{
    for head in heads {
        if let Ok(request) = read_request(alloc, head.as_str().as_bytes()) {
            counts.add(request.length);
            if route(alloc, &request, tables).is_ok() {
                counts.ask();
            }
        }
    }
    Ok(())
}

fn parse_main<R: Print + AllocGlobal>(rt: &R, count: u64) -> io::Result<ExitCode> {
    let heads = heads_of(rt.alloc(), KEPT)?;
    let mut counts = Counts::new();
    for _ in 0..count / KEPT {
        parse_heads(&heads, &mut counts);
    }
    println!(rt; "heads {}, bytes {}", counts.heads, counts.bytes)?;
    Ok(ExitCode::SUCCESS)
}

fn route_main<R: Print + AllocGlobal>(rt: &R, count: u64) -> io::Result<ExitCode> {
    let alloc = rt.alloc();
    let heads = heads_of(alloc, KEPT)?;
    let Ok(tables) = tables_of(alloc) else {
        return Err(AllocError.into());
    };
    let mut counts = Counts::new();
    for _ in 0..count / KEPT {
        route_heads(alloc, &heads, &tables, &mut counts).map_err(|_| AllocError)?;
    }
    println!(rt;
        "heads {}, bytes {}, asks {}",
        counts.heads, counts.bytes, counts.asks
    )?;
    Ok(ExitCode::SUCCESS)
}

/// A page whose body has 64 KiB.
fn reply_of(alloc: Global) -> Result<Reply, AllocError> {
    let mut body = String::new(alloc);
    for _ in 0..65_536 {
        body.push('x')?;
    }
    Ok(Reply {
        status: 200,
        handle: None,
        offset: None,
        schema: None,
        cursor: Some(1),
        max_age: 5,
        body: Text::from_string(body),
    })
}

fn write_main<R: Print + AllocGlobal>(rt: &R, count: u64) -> io::Result<ExitCode> {
    let alloc = rt.alloc();
    let reply = reply_of(alloc)?;
    let mut counts = Counts::new();
    for _ in 0..count {
        if has_text(&reply) {
            let text = write_reply(alloc, &reply, false).map_err(|_| AllocError)?;
            counts.add(text.len() as u64);
        }
    }
    println!(rt; "replies {}, bytes {}", counts.heads, counts.bytes)?;
    Ok(ExitCode::SUCCESS)
}

/// The number of the second word, or 0.
fn number_in(words: &[String]) -> u64 {
    match words.get(1) {
        Some(word) => word.as_str().parse::<u64>().unwrap_or(0),
        None => 0,
    }
}

fn main(rt: HostRuntime) -> io::Result<ExitCode> {
    let mut words = Vec::new(rt.alloc());
    for word in env::args(&rt)?.skip(1) {
        words.push(word)?;
    }
    let number = number_in(words.as_slice());
    match words.first() {
        Some(word) if word.as_str() == "print" => print_main(&rt, number),
        Some(word) if word.as_str() == "parse" => parse_main(&rt, number),
        Some(word) if word.as_str() == "route" => route_main(&rt, number),
        Some(word) if word.as_str() == "write" => write_main(&rt, number),
        _ => {
            println!(rt; "neither print nor parse nor route nor write")?;
            Ok(ExitCode::FAILURE)
        }
    }
}
