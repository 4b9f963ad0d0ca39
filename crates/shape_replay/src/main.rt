//! Replays scripts of a replication stream, requests and clients: `shape_replay replay` reads a script from standard input and writes what it puts out.
#![tactic(auto)]

mod complaint;
mod running;

use shape_base::{Input, Output};
use std::io::BufReader;
use std::process::ExitCode;
use std::{env, io};

fn main(rt: HostRuntime) -> io::Result<ExitCode> {
    let alloc = rt.alloc();
    let mut words = Vec::new(alloc);
    for word in env::args(&rt)?.skip(1) {
        words.push(word)?;
    }
    let mut input = Input::new(BufReader::new(alloc, rt.stdin())?);
    let mut out = Output::new(rt.stdout());
    let mut err = Output::new(rt.stderr());
    let status = running::run(alloc, &words, &mut input, &mut out, &mut err);
    Ok(ExitCode::from(status))
}
