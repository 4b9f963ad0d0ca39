//! A program for measuring the client that folds.
//!
//! | Words | What it does and prints |
//! |---|---|
//! | `rows 1000000` | so many rows, each in a line |
//! | `pages 1000000 100000` | the pages of a snapshot of the same rows and of so many updates: for each its last offset and its body, each in a line |
//! | `take` | takes the pages of standard input by one client, and prints how many it took |
//! | `fold` | takes them too, and prints the rows that the client has then, each in a line |
//!
//! Its status is 1 where a page is not taken, which ends it, and where the first word is another.
#![tactic(auto)]

mod pages;

use fold_client::{Client, Query};
use pages::{PAGE, inserts, row_at, update};
use shape_base::{Entries, Handle, KeyedRow, Offset, Reply, Text};
use shape_json::{Control, push_row, write_entries};
use std::alloc::{AllocError, Global};
use std::io::{BufRead, BufReader, BufWriter, Write};
use std::process::ExitCode;
use std::{env, io};

fn status_of(all: bool) -> ExitCode {
    if all {
        ExitCode::SUCCESS
    } else {
        ExitCode::FAILURE
    }
}

/// Writes a row as a line.
fn write_row<W: Write>(alloc: Global, out: &mut W, row: &KeyedRow) -> io::Result<()> {
    let mut line = Vec::new(alloc);
    push_row(&mut line, row).map_err(|_| AllocError)?;
    line.push(b'\n')?;
    out.write_all(line.as_slice())
}

fn rows_main<R: Print + AllocGlobal>(rt: &R, count: u64) -> io::Result<ExitCode> {
    let alloc = rt.alloc();
    let mut out = BufWriter::new(alloc, io::writer(rt))?;
    for place in 0..count {
        write_row(alloc, &mut out, &row_at(alloc, place, count)?)?;
    }
    out.flush()?;
    Ok(ExitCode::SUCCESS)
}

/// Writes the last offset of a page, and its body.
fn write_page<W: Write>(
    alloc: Global,
    out: &mut W,
    entries: &Entries,
    control: Control,
) -> io::Result<()> {
    let Some(last) = entries.as_slice().last() else {
        return Ok(());
    };
    let offset = last.offset.print(alloc).map_err(|_| AllocError)?;
    let body = write_entries(alloc, entries, control).map_err(|_| AllocError)?;
    out.write_all(offset.as_bytes())?;
    out.write_all(b"\n")?;
    out.write_all(body.as_bytes())?;
    out.write_all(b"\n")
}

fn pages_main<R: Print + AllocGlobal>(rt: &R, rows: u64, updates: u64) -> io::Result<ExitCode> {
    let alloc = rt.alloc();
    let mut out = BufWriter::new(alloc, io::writer(rt))?;
    for page in 0..rows.div_ceil(PAGE) {
        let from = page.saturating_mul(PAGE);
        let end = from.saturating_add(PAGE).min(rows);
        let entries = inserts(alloc, from, end, rows)?;
        write_page(alloc, &mut out, &entries, Control::Nothing)?;
    }
    for number in 0..updates {
        let entries = update(alloc, number, rows)?;
        write_page(alloc, &mut out, &entries, Control::UpToDate)?;
    }
    out.flush()?;
    Ok(ExitCode::SUCCESS)
}

/// A page as the server answers it.
fn reply_of(alloc: Global, offset: &str, body: String) -> Result<Reply, AllocError> {
    Ok(Reply {
        status: 200,
        handle: Some(Handle {
            number: 1,
            run: Text::of(alloc, "a").map_err(|_| AllocError)?,
        }),
        offset: Offset::read(offset.as_bytes()).ok(),
        schema: None,
        cursor: Some(1),
        max_age: 5,
        body: Text::from_string(body),
    })
}

fn new_client(alloc: Global) -> Result<Client, AllocError> {
    Ok(Client::new(
        alloc,
        Query {
            table: Text::of(alloc, "items").map_err(|_| AllocError)?,
            columns: None,
            clause: None,
        },
    ))
}

/// Takes each page of standard input, up to one that is not taken: how many were taken, and whether all were.
fn take_pages<R: Input + AllocGlobal>(rt: &R, client: &mut Client) -> io::Result<(u64, bool)> {
    let alloc = rt.alloc();
    let mut pages: u64 = 0;
    let mut offset = String::new(alloc);
    for line in BufReader::new(alloc, rt.reader())?.lines(alloc) {
        let line = line?;
        if offset.is_empty() {
            offset = line;
        } else {
            let reply = reply_of(alloc, offset.as_str(), line)?;
            if client.take(&reply).is_err() {
                return Ok((pages, false));
            }
            pages = pages.saturating_add(1);
            offset = String::new(alloc);
        }
    }
    Ok((pages, true))
}

fn take_main<R: Input + Print + AllocGlobal>(rt: &R) -> io::Result<ExitCode> {
    let mut client = new_client(rt.alloc())?;
    let (pages, all) = take_pages(rt, &mut client)?;
    println!(rt; "pages {pages}")?;
    Ok(status_of(all))
}

fn fold_main<R: Input + Print + AllocGlobal>(rt: &R) -> io::Result<ExitCode> {
    let alloc = rt.alloc();
    let mut client = new_client(alloc)?;
    let (_pages, all) = take_pages(rt, &mut client)?;
    let rows = client.rows().rows().map_err(|_| AllocError)?;
    let mut out = BufWriter::new(alloc, io::writer(rt))?;
    for row in rows.as_slice() {
        write_row(alloc, &mut out, row)?;
    }
    out.flush()?;
    Ok(status_of(all))
}

/// The number of the word at a place, or 0.
fn number_in(words: &[String], place: usize) -> u64 {
    match words.get(place) {
        Some(word) => word.as_str().parse::<u64>().unwrap_or(0),
        None => 0,
    }
}

fn main(rt: HostRuntime) -> io::Result<ExitCode> {
    let mut words = Vec::new(rt.alloc());
    for word in env::args(&rt)?.skip(1) {
        words.push(word)?;
    }
    let first = number_in(words.as_slice(), 1);
    let second = number_in(words.as_slice(), 2);
    match words.first() {
        Some(word) if word.as_str() == "rows" => rows_main(&rt, first),
        Some(word) if word.as_str() == "pages" => pages_main(&rt, first, second),
        Some(word) if word.as_str() == "take" => take_main(&rt),
        Some(word) if word.as_str() == "fold" => fold_main(&rt),
        _ => {
            println!(rt; "neither rows nor pages nor take nor fold")?;
            Ok(ExitCode::FAILURE)
        }
    }
}
