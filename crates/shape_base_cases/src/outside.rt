//! A source and a sink in memory.
use cases::{bytes_of, cut, number_of, put_bytes};
use shape_base::{Failed, MemorySink, MemorySource, OutOfMemory, Sink, Source};
use std::alloc::Global;

/// The calls that fail, with commas between; none for `-`.
fn calls_of(alloc: Global, text: &str) -> Result<Vec<u64>, OutOfMemory> {
    let mut calls = Vec::new(alloc);
    if text == "-" {
        return Ok(calls);
    }
    for call in text.split(',') {
        calls.push(number_of(call))?;
    }
    Ok(calls)
}

/// What a source gives, call by call, up to its end or to the sixteenth call.
pub(crate) fn source_line(alloc: Global, text: &str) -> Result<String, OutOfMemory> {
    let (piece, rest) = cut(text, ' ');
    let (failing, bytes) = cut(rest, ' ');
    let piece = number_of(piece).max(1) as usize;
    let failing = calls_of(alloc, failing)?;
    let mut source = MemorySource::new(bytes_of(alloc, bytes)?, piece, failing);
    let mut line = String::new(alloc);
    let mut room = [0; 4];
    for _ in 0..16 {
        match source.read(&mut room) {
            Ok(0) => break,
            Ok(count) => {
                let count = format!(in alloc; "{count} ")?;
                line.push_str(count.as_str())?;
                put_bytes(&mut line, &room)?;
                line.push_str(", ")?;
            }
            Err(Failed) => line.push_str("failed, ")?,
        }
    }
    let end = format!(in alloc; "end of {}", source.count())?;
    line.push_str(end.as_str())?;
    Ok(line)
}

/// How a sink answers pieces, and what it keeps.
pub(crate) fn sink_line(alloc: Global, text: &str) -> Result<String, OutOfMemory> {
    let (failing, pieces) = cut(text, ' ');
    let mut sink = MemorySink::new(alloc, calls_of(alloc, failing)?);
    let mut line = String::new(alloc);
    for piece in pieces.split(' ') {
        match sink.write_all(piece.as_bytes()) {
            Ok(()) => line.push_str("written, ")?,
            Err(Failed) => line.push_str("failed, ")?,
        }
    }
    put_bytes(&mut line, sink.bytes())?;
    Ok(line)
}
