//! A program for measuring bodies.
//!
//! | Words | What it does and prints |
//! |---|---|
//! | `print 1000000` | the bodies of so many entries of three cells, at most 540 a body (about 64 KiB), each in a line |
//! | `write 1000000` | writes the same bodies, and prints how many there were with how many bytes |
//! | `read` | reads each line of standard input as a body, and prints how many bodies, entries and bytes there were |
//!
//! Its status is 1 where a line is no body, which ends it, and where the first word is another.
#![tactic(auto)]

mod bodies;

use bodies::{Counts, entries_of};
use shape_base::{Entries, Text};
use shape_json::{BodyError, Control, read_body, write_entries};
use std::alloc::{AllocError, Global};
use std::io::{BufRead, BufReader, BufWriter, Write};
use std::process::ExitCode;
use std::{env, io};

/// How many entries a body has at most.
const PAGE: u64 = 540;

/// The body of entries that may have more behind them.
fn body_of(alloc: Global, entries: &Entries) -> Result<Text, AllocError> {
    write_entries(alloc, entries, Control::Nothing).map_err(|_| AllocError)
}

/// Entries in the number of a whole body, and in that of the last one.
fn pages_of(alloc: Global, count: u64) -> Result<(Entries, Entries), AllocError> {
    let whole = entries_of(alloc, PAGE)?;
    let last = entries_of(alloc, count % PAGE)?;
    Ok((whole, last))
}

fn print_main<R: Print + AllocGlobal>(rt: &R, count: u64) -> io::Result<ExitCode> {
    let alloc = rt.alloc();
    let (whole, last) = pages_of(alloc, count)?;
    let mut out = BufWriter::new(alloc, io::writer(rt))?;
    for _ in 0..count / PAGE {
        out.write_all(body_of(alloc, &whole)?.as_bytes())?;
        out.write_all(b"\n")?;
    }
    out.write_all(body_of(alloc, &last)?.as_bytes())?;
    out.write_all(b"\n")?;
    out.flush()?;
    Ok(ExitCode::SUCCESS)
}

fn write_main<R: Print + AllocGlobal>(rt: &R, count: u64) -> io::Result<ExitCode> {
    let alloc = rt.alloc();
    let (whole, last) = pages_of(alloc, count)?;
    let mut counts = Counts::new();
    for _ in 0..count / PAGE {
        counts.add(&whole, body_of(alloc, &whole)?.as_bytes());
    }
    counts.add(&last, body_of(alloc, &last)?.as_bytes());
    println!(rt;
        "bodies {}, entries {}, bytes {}",
        counts.bodies, counts.entries, counts.bytes
    )?;
    Ok(ExitCode::SUCCESS)
}

fn read_main<R: Input + Print + AllocGlobal>(rt: &R) -> io::Result<ExitCode> {
    let alloc = rt.alloc();
    let mut counts = Counts::new();
    for line in BufReader::new(alloc, rt.reader())?.lines(alloc) {
        let line = line?;
        match read_body(alloc, line.as_str().as_bytes()) {
            Ok((entries, _)) => counts.add(&entries, line.as_str().as_bytes()),
            Err(BodyError::BadBody) => {
                println!(rt; "bad body {}", counts.bodies)?;
                return Ok(ExitCode::FAILURE);
            }
            Err(BodyError::OutOfMemory) => return Err(AllocError.into()),
        }
    }
    println!(rt;
        "bodies {}, entries {}, bytes {}",
        counts.bodies, counts.entries, counts.bytes
    )?;
    Ok(ExitCode::SUCCESS)
}

/// The number of the second word, or 0.
fn number_in(words: &[String]) -> u64 {
    match words.get(1) {
        Some(word) => word.as_str().parse::<u64>().unwrap_or(0),
        None => 0,
    }
}

fn main(rt: HostRuntime) -> io::Result<ExitCode> {
    let mut words = Vec::new(rt.alloc());
    for word in env::args(&rt)?.skip(1) {
        words.push(word)?;
    }
    let number = number_in(words.as_slice());
    match words.first() {
        Some(word) if word.as_str() == "print" => print_main(&rt, number),
        Some(word) if word.as_str() == "write" => write_main(&rt, number),
        Some(word) if word.as_str() == "read" => read_main(&rt),
        _ => {
            println!(rt; "neither print nor write nor read")?;
            Ok(ExitCode::FAILURE)
        }
    }
}
