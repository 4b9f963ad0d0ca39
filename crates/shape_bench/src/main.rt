//! A program for measuring shapes. It makes commits of the table `public.items`, whose columns are `id`, `n` (integer) and `s` (text): inserts, at most 1,000 a commit, and
//! then a tenth as many updates, one a commit.
//!
//! | Words | What it does and prints |
//! |---|---|
//! | `make 1000000` | makes the commits for so many inserts: how many commits there were with how many changes |
//! | `shape 1000000` | besides gives each to a shape that began with an empty snapshot: how many entries its log has with how many bytes, and how many pages end a closed chunk, which are all held at once |
//! | `shape 1000000 5000` | besides asks for so many of these pages, one after the other and again from the first |
//! | `shape 1000000 0 "n > 10"` | the same of a shape with that clause |
//!
//! Its status is 1 where a commit is refused, and where the first word is another.
#![tactic(auto)]

mod changes;
mod pages;
mod shapes;
mod whole;
mod work;

use pages::{ask_again, closed_pages};
use shape_def::Def;
use shape_state::Shape;
use shapes::ready_shape;
use std::alloc::{AllocError, Global};
use std::process::ExitCode;
use std::{env, io};
use work::{Work, take_all};

/// A shape with the clause of the fourth word, or without one.
fn shape_of(alloc: Global, words: &[String]) -> Result<Shape<Def>, AllocError> {
    let clause = match words.get(3) {
        Some(word) => word.as_str(),
        None => "",
    };
    ready_shape(alloc, clause).map_err(|_| AllocError)
}

/// The number of the word in a place, or 0.
fn number_in(words: &[String], place: usize) -> u64 {
    match words.get(place) {
        Some(word) => word.as_str().parse::<u64>().unwrap_or(0),
        None => 0,
    }
}

/// Makes and takes the commits for so many inserts; false where one is refused.
fn take<R: Print + AllocGlobal>(rt: &R, work: &mut Work, inserts: u64) -> io::Result<bool> {
    let alloc = rt.alloc();
    let is_taken = take_all(alloc, work, inserts).map_err(|_| AllocError)?;
    println!(rt;
        "transactions {}, changes {}",
        work.transactions, work.changes
    )?;
    Ok(is_taken)
}

fn make_main<R: Print + AllocGlobal>(rt: &R, words: &[String]) -> io::Result<ExitCode> {
    let mut work = Work::new(None);
    if !take(rt, &mut work, number_in(words, 1))? {
        return Ok(ExitCode::FAILURE);
    }
    Ok(ExitCode::SUCCESS)
}

/// Gives commits to the shape, and asks for the pages of its closed chunks.
fn take_and_ask<R: Print + AllocGlobal>(
    rt: &R,
    words: &[String],
    work: &mut Work,
) -> io::Result<ExitCode> {
    let alloc = rt.alloc();
    if !take(rt, work, number_in(words, 1))? {
        return Ok(ExitCode::FAILURE);
    }
    let Some(shape) = &work.shape else {
        return Ok(ExitCode::FAILURE);
    };
    let held = closed_pages(alloc, shape).map_err(|_| AllocError)?;
    let (entries, bytes, pages) = (work.entries, shape.bytes(), held.len());
    println!(rt; "entries {entries}, bytes {bytes}, closed pages {pages}")?;
    let asked = ask_again(shape, held.as_slice(), number_in(words, 2)).map_err(|_| AllocError)?;
    println!(rt; "bytes of pages {asked}")?;
    Ok(ExitCode::SUCCESS)
}

fn shape_main<R: Print + AllocGlobal>(rt: &R, words: &[String]) -> io::Result<ExitCode> {
    let shape = shape_of(rt.alloc(), words)?;
    let mut work = Work::new(Some(shape));
    take_and_ask(rt, words, &mut work)
}

fn main(rt: HostRuntime) -> io::Result<ExitCode> {
    let mut words = Vec::new(rt.alloc());
    for word in env::args(&rt)?.skip(1) {
        words.push(word)?;
    }
    match words.first() {
        Some(word) if word.as_str() == "make" => make_main(&rt, words.as_slice()),
        Some(word) if word.as_str() == "shape" => shape_main(&rt, words.as_slice()),
        _ => {
            println!(rt; "neither make nor shape")?;
            Ok(ExitCode::FAILURE)
        }
    }
}
