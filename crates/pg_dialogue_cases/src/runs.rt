//! What is printed for a line.
ghost use Rattle.std.specs.Prelude.{◌≡◌, ◌<◌, ◌^◌, length, IfOk};
ghost use Rattle.pg_dialogue.specs.Queries.{IsShortLogin, IsShortName};

use crate::link::MemoryLink;
use crate::talks::{Talk, hold};
use cases::{bytes_of, put_bytes};
use pg_dialogue::Login;
use shape_base::{MemorySink, MemorySource, OutOfMemory, Seq, Served, Text};
use std::alloc::Global;

fn talk_of(word: &str) -> Option<Talk> {
    match word {
        "snapshot" => Some(Talk::Snapshot),
        "describe" => Some(Talk::Description),
        "stream" => Some(Talk::Stream),
        _ => None,
    }
}

/// A short text.
fn short(alloc: Global, text: &str) -> Result<Text, OutOfMemory>
    requires { length text.now < 1000 }
    ensures { IfOk result (λ t. length t < 2 ^ 29) }
{
    Text::of(alloc, text)
}

fn login(alloc: Global, slot: &str, publication: &str) -> Result<Login, OutOfMemory>
    requires slot { length slot.now < 1000 }
    requires publication { length publication.now < 1000 }
    ensures { IfOk result IsShortLogin }
{
    Ok(Login {
        address: short(alloc, "memory")?,
        user: short(alloc, "ann")?,
        database: short(alloc, "shop")?,
        slot: short(alloc, slot)?,
        publication: short(alloc, publication)?,
    })
}

fn table(alloc: Global, ns: &str, name: &str) -> Result<Served, OutOfMemory>
    requires ns { length ns.now < 1000 }
    requires name { length name.now < 1000 }
    ensures { IfOk result IsShortName }
{
    let ns = short(alloc, ns)?;
    let name = short(alloc, name)?;
    let key = Text::of(alloc, "id")?;
    let key = Seq::from_vec(vec![in alloc; key]?);
    Ok(Served { ns, name, key })
}

fn link_of(
    alloc: Global,
    bytes: Vec<u8>,
    piece: usize,
    reads: Vec<u64>,
    writes: Vec<u64>,
) -> MemoryLink
    requires { 0 < piece }
{
    MemoryLink {
        source: MemorySource::new(bytes, piece, reads),
        sink: MemorySink::new(alloc, writes),
    }
}

/// Holds a dialogue over a link, and adds what it answers to a line.
fn held(
    alloc: Global,
    talk: Talk,
    out: &mut String,
    link: &mut MemoryLink,
    quoted: bool,
) -> Result<(), OutOfMemory> {
    if quoted {
        let login = login(alloc, "s\"1", "p'\"2")?;
        let table = table(alloc, "a\"b", "c\"")?;
        hold(alloc, talk, out, link, &login, &table)?;
    } else {
        let login = login(alloc, "slot", "pub")?;
        let table = table(alloc, "public", "items")?;
        hold(alloc, talk, out, link, &login, &table)?;
    }
    Ok(())
}

/// What a dialogue answers, what it wrote, and how many bytes of the server are left.
pub(crate) fn answer_line(
    alloc: Global,
    word: &str,
    text: &str,
    piece: usize,
    quoted: bool,
) -> Result<String, OutOfMemory>
    requires { 0 < piece }
{
    let mut out = String::new(alloc);
    let Some(talk) = talk_of(word) else {
        out.push_str("no such line")?;
        return Ok(out);
    };
    let bytes = bytes_of(alloc, text)?;
    let size = bytes.len();
    let mut link = link_of(alloc, bytes, piece, Vec::new(alloc), Vec::new(alloc));
    held(alloc, talk, &mut out, &mut link, quoted)?;
    out.push_str("; wrote ")?;
    put_bytes(&mut out, link.sink.bytes())?;
    let left = size.saturating_sub(link.source.count());
    write!(out, "; left {left}")?;
    Ok(out)
}

/// What a dialogue answers over a front of the bytes.
fn answer_of(
    alloc: Global,
    talk: Talk,
    bytes: &[u8],
    reads: Vec<u64>,
    writes: Vec<u64>,
) -> Result<String, OutOfMemory> {
    let mut out = String::new(alloc);
    let mut link = link_of(alloc, Vec::from_slice(alloc, bytes)?, 4096, reads, writes);
    held(alloc, talk, &mut out, &mut link, false)?;
    Ok(out)
}

/// Which proper prefixes end the dialogue at their length.
pub(crate) fn cuts_line(alloc: Global, word: &str, text: &str) -> Result<String, OutOfMemory> {
    let mut out = String::new(alloc);
    let Some(talk) = talk_of(word) else {
        out.push_str("no such line")?;
        return Ok(out);
    };
    let bytes = bytes_of(alloc, text)?;
    let mut ended = 0u64;
    for size in 0..bytes.len() {
        let answer = answer_of(
            alloc,
            talk,
            &bytes.as_slice()[..size],
            Vec::new(alloc),
            Vec::new(alloc),
        )?;
        let wanted = format!(in alloc; "ended {size}")?;
        if answer.as_str().ends_with(wanted.as_str()) {
            ended = ended.saturating_add(1);
        } else {
            write!(out, "{size}: {answer}; ")?;
        }
    }
    let size = bytes.len();
    write!(out, "{ended} of {size}")?;
    Ok(out)
}

/// In how many runs one failed call ends the dialogue.
pub(crate) fn faults_line(
    alloc: Global,
    word: &str,
    text: &str,
    of_reads: bool,
) -> Result<String, OutOfMemory> {
    let mut out = String::new(alloc);
    let Some(talk) = talk_of(word) else {
        out.push_str("no such line")?;
        return Ok(out);
    };
    let bytes = bytes_of(alloc, text)?;
    for call in 0..1000u64 {
        let failing = vec![in alloc; call]?;
        let none = Vec::new(alloc);
        let answer = if of_reads {
            answer_of(alloc, talk, bytes.as_slice(), failing, none)?
        } else {
            answer_of(alloc, talk, bytes.as_slice(), none, failing)?
        };
        if !answer.as_str().ends_with("link_fault") {
            write!(out, "{call} link_fault; {answer}")?;
            return Ok(out);
        }
    }
    Ok(out)
}
