//! A program for measuring the bytes of a replication stream, which it reads from standard input.
//!
//! | Words | What it reads and prints |
//! |---|---|
//! | `frames 100` | the bytes of a replication connection, fed in pieces of 100 bytes, with the frames taken after each: how many frames there were with how many bytes of messages, how many keepalives, and how many bytes were left at the end, or `refused` |
//! | `decode` | the records of a script (each a kind byte, a length of four bytes and that many bytes), each `M` record's bytes as a message of pgoutput: how many messages there were, or the number of the first record that is wrong |
//! | `decode again` | the same, where each message is written too and its bytes are compared |
//! | `decode assemble` | the same, where each message is fed to an assembler that serves the table `public.items`: also how many transactions and changes it gave |
//!
//! Its status is 1 where bytes or a record were refused, which ends it, and where the first word is another.
#![tactic(auto)]

mod assembly;
mod counting;
mod decode;

ghost use Rattle.std.specs.Prelude.{◌<◌};

use assembly::Assembly;
use counting::Counts;
use decode::{Decoded, Work, decode};
use pg_wire::Frames;
use std::alloc::{AllocError, Global};
use std::io::Read;
use std::process::ExitCode;
use std::{env, io};

/// Counts the frames of the input, fed in pieces of this size; false where bytes are refused.
fn count_frames<R: Read>(
    alloc: Global,
    input: &mut R,
    counts: &mut Counts,
    frames: &mut Frames,
    size: usize,
) -> io::Result<bool>
    requires { 0 < size }
{
    let mut room = vec![in alloc; 0; 65536]?;
    for _ in 0..u64::MAX {
        let len = input.read(room.as_mut_slice())?;
        if len == 0 {
            break;
        }
        if !counts.take_pieces(frames, &room.as_slice()[..len], size) {
            return Ok(false);
        }
    }
    Ok(true)
}

/// What the words after the first ask for; other words ask for nothing.
fn work_of(alloc: Global, words: &[String]) -> Result<Work, AllocError> {
    let mut work = Work {
        again: false,
        assembly: None,
    };
    for word in words {
        match word.as_str() {
            "again" => work.again = true,
            "assemble" => work.assembly = Some(Assembly::new(alloc).map_err(|_| AllocError)?),
            _ => {}
        }
    }
    Ok(work)
}

fn frames_main<R: Input + Print + AllocGlobal>(rt: &R, words: &[String]) -> io::Result<ExitCode> {
    let mut size = 65536;
    for word in words {
        size = word.as_str().parse::<usize>().unwrap_or(size);
    }
    let mut frames = Frames::new(rt.alloc());
    let mut counts = Counts::new();
    let mut input = rt.reader();
    if !count_frames(
        rt.alloc(),
        &mut input,
        &mut counts,
        &mut frames,
        size.max(1),
    )? {
        println!(rt; "refused")?;
        return Ok(ExitCode::FAILURE);
    }
    let (wals, bytes, keepalives) = (counts.wals, counts.bytes, counts.keepalives);
    let rest = frames.rest();
    println!(rt; "frames {wals} of {bytes} bytes, keepalives {keepalives}, rest {rest}")?;
    Ok(ExitCode::SUCCESS)
}

fn decode_main<R: Input + Print + AllocGlobal>(rt: &R, words: &[String]) -> io::Result<ExitCode> {
    let mut work = work_of(rt.alloc(), words)?;
    let mut script = Vec::new(rt.alloc());
    rt.reader().read_to_end(&mut script)?;
    match decode(rt.alloc(), script.as_slice(), &mut work) {
        Decoded::Messages(count) => println!(rt; "messages {count}")?,
        Decoded::Wrong(record) => {
            println!(rt; "wrong {record}")?;
            return Ok(ExitCode::FAILURE);
        }
    }
    if let Some(assembly) = &work.assembly {
        println!(rt;
            "transactions {}, changes {}",
            assembly.transactions, assembly.changes
        )?;
    }
    Ok(ExitCode::SUCCESS)
}

fn main(rt: HostRuntime) -> io::Result<ExitCode> {
    let mut words = Vec::new(rt.alloc());
    for word in env::args(&rt)?.skip(1) {
        words.push(word)?;
    }
    match words.as_slice() {
        [first, others @ ..] if first.as_str() == "frames" => frames_main(&rt, others),
        [first, others @ ..] if first.as_str() == "decode" => decode_main(&rt, others),
        _ => {
            println!(rt; "neither frames nor decode")?;
            Ok(ExitCode::FAILURE)
        }
    }
}
