//! Holds dialogues with a PostgreSQL database over TCP: `dialogue_run WORD ADDRESS USER DATABASE NAME` with one word of these.
//!
//! | Word | What is printed |
//! |---|---|
//! | `describe` | the OID of table `public.NAME`, and the name and type of each column |
//! | `snapshot` | the rows of the table, as `COPY .. TO STDOUT` prints them |
//! | `count` | how many rows and values there are |
//! | `stream` | `open`, once the stream of slot and publication `NAME` is open |
#![tactic(auto)]

mod link;
mod printing;
mod runs;

use link::TcpLink;
use runs::{Order, run};
use std::io::{BufWriter, Write};
use std::net::TcpStream;
use std::process::ExitCode;
use std::{env, io};

fn main(rt: HostRuntime) -> io::Result<ExitCode> {
    let alloc = rt.alloc();
    let mut words = Vec::new(alloc);
    for word in env::args(&rt)?.skip(1) {
        words.push(word)?;
    }
    let [word, address, user, database, name] = words.as_slice() else {
        println!(rt; "no such words")?;
        return Ok(ExitCode::from(2));
    };
    let stream = TcpStream::connect(&rt, address.as_str())?;
    let mut link = TcpLink::new(alloc, stream)?;
    let mut out = BufWriter::new(alloc, io::writer(&rt))?;
    let order = Order {
        word: word.as_str(),
        user: user.as_str(),
        database: database.as_str(),
        name: name.as_str(),
    };
    let status = run(alloc, &mut link, &mut out, &order)?;
    out.flush()?;
    Ok(ExitCode::from(status))
}
