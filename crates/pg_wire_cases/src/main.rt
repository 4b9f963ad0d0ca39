//! Reads lines that hold the bytes of a replication connection, and prints what `pg_wire` answers: a table of its cases.
//!
//! | Line | What is printed |
//! |---|---|
//! | `frames BYTES\|BYTES` | of each piece, once it was fed: how many bytes were not taken, each frame and again how many, to the end or the refusal |
//! | `cuts BYTES` | what comes where the bytes are fed in two pieces, with how many cuts give the same: `w`, `k` and `c` for XLogData, a keepalive and the end, `.` for no frame, `b`, `l` and `e` for a bad frame, one that is too long and an ErrorResponse |
//! | `single BYTES` | the frames, by the same letters, where single bytes are fed |
//! | `status POSITION TIME` | the bytes of a status update |
//!
//! Bytes are written as ASCII, and others with a backslash and two hexadecimal digits.
#![tactic(auto)]

mod streams;

use cases::{Answers, answer_lines, bytes_of, cut, put_bytes};
use pg_wire::status_update;
use shape_base::OutOfMemory;
use std::alloc::Global;
use std::io;
use streams::{cuts_line, frames_line, single_line};

fn status_line(alloc: Global, position: &str, time: &str) -> Result<String, OutOfMemory> {
    let mut out = String::new(alloc);
    match (position.parse::<u64>(), time.parse::<u64>()) {
        (Ok(position), Ok(time)) => {
            let update = status_update(alloc, position, time)?;
            put_bytes(&mut out, update.as_slice())?;
        }
        _ => out.push_str("no such line")?,
    }
    Ok(out)
}

#[derive(Drop)]
struct WireCases;

impl Answers for WireCases {
    fn answer(&mut self, alloc: Global, line: &str) -> Result<Option<String>, OutOfMemory> {
        let (word, rest) = cut(line, ' ');
        let answer = match word {
            "frames" => frames_line(alloc, rest)?,
            "cuts" => cuts_line(alloc, bytes_of(alloc, rest)?.as_slice())?,
            "single" => single_line(alloc, bytes_of(alloc, rest)?.as_slice())?,
            "status" => {
                let (position, time) = cut(rest, ' ');
                status_line(alloc, position, time)?
            }
            _ => format!(in alloc; "no such line")?,
        };
        Ok(Some(answer))
    }
}

fn main(rt: HostRuntime) -> io::Result<()> {
    answer_lines(&rt, &mut WireCases)
}
