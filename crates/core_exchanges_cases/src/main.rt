//! Reads lines about exchanges, and prints what `core_exchanges` answers: a table of its cases.
//!
//! A line has calls behind bars. They begin with no exchanges, and each is answered behind a bar:
//!
//! | Call | What is printed |
//! |---|---|
//! | `reads M`, `named M N`, `waits M N`, `owns M N`, `none M` | the place of one more, which came at the moment M: it names no handle, or one of number N, waits for N, owns N, or has a head that was cut off |
//! | `answered M N` | the place of one more, which waits for N and has a reply of status 503 |
//! | `give I S` | what `get I` prints, once the exchange in place I was given a reply of status S |
//! | `get I` | the status of its reply, `open` where it has none, or `past` where there is none in this place |
//! | `awaiting N`, `late NOW HOLD` | the places |
//! | `len` | how many there are |
#![tactic(auto)]

mod calls;

use cases::{Answers, answer_lines};
use shape_base::OutOfMemory;
use std::alloc::Global;
use std::io;

/// What answers lines.
#[derive(Drop)]
struct ExchangeCases;

impl Answers for ExchangeCases {
    fn answer(&mut self, alloc: Global, line: &str) -> Result<Option<String>, OutOfMemory> {
        Ok(Some(calls::calls_line(alloc, line)?))
    }
}

fn main(rt: HostRuntime) -> io::Result<()> {
    answer_lines(&rt, &mut ExchangeCases)
}
