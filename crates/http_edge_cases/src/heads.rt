//! Heads of requests in a line.
use cases::{bytes_of, cut, number_of, put_bytes};
use http_edge::{HeadError, Request, read_request};
use shape_base::OutOfMemory;
use std::alloc::Global;

/// No bytes are repeated more often.
const MOST: u64 = 100_000;

/// Adds bytes as often as a line says: a number, an asterisk, and the bytes.
fn put_repeated(alloc: Global, bytes: &mut Vec<u8>, text: &str) -> Result<(), OutOfMemory> {
    let (count, piece) = cut(text, '*');
    let piece = bytes_of(alloc, piece)?;
    for _ in 0..number_of(count).min(MOST) {
        bytes.extend_from_slice(piece.as_slice())?;
    }
    Ok(())
}

/// The bytes of a line, in which every other piece between tildes is repeated.
pub(crate) fn long_bytes_of(alloc: Global, text: &str) -> Result<Vec<u8>, OutOfMemory> {
    let mut bytes = Vec::new(alloc);
    let mut repeated = false;
    for piece in text.split('~') {
        if repeated {
            put_repeated(alloc, &mut bytes, piece)?;
        } else {
            bytes.extend_from_slice(bytes_of(alloc, piece)?.as_slice())?;
        }
        repeated = !repeated;
    }
    Ok(bytes)
}

/// What a head says.
fn request_line(alloc: Global, request: &Request) -> Result<String, OutOfMemory> {
    let length = request.length;
    let method = if request.get { "get" } else { "other" };
    let after = if request.close { "close" } else { "keep" };
    let mut line = format!(in alloc; "{length}: {method} {after} ")?;
    put_bytes(&mut line, request.target.as_bytes())?;
    Ok(line)
}

/// The head that bytes begin with.
pub(crate) fn head_line(alloc: Global, text: &str) -> Result<String, OutOfMemory> {
    let bytes = long_bytes_of(alloc, text)?;
    let word = match read_request(alloc, bytes.as_slice()) {
        Ok(request) => return request_line(alloc, &request),
        Err(HeadError::Partial) => "partial",
        Err(HeadError::HeadTooLong) => "too long",
        Err(HeadError::BadHead) => "bad head",
        Err(HeadError::BodyRefused) => "body refused",
        Err(HeadError::OutOfMemory) => return Err(OutOfMemory),
    };
    Ok(format!(in alloc; "{word}")?)
}

/// How many fronts of bytes are answered in each way.
#[derive(Drop)]
struct Counts {
    partial: u64,
    long: u64,
    bad: u64,
    body: u64,
    read: u64,
}

impl Counts {
    fn count(&mut self, alloc: Global, front: &[u8]) -> Result<(), OutOfMemory> {
        let counter = match read_request(alloc, front) {
            Ok(_) => &mut self.read,
            Err(HeadError::Partial) => &mut self.partial,
            Err(HeadError::HeadTooLong) => &mut self.long,
            Err(HeadError::BadHead) => &mut self.bad,
            Err(HeadError::BodyRefused) => &mut self.body,
            Err(HeadError::OutOfMemory) => return Err(OutOfMemory),
        };
        *counter = counter.saturating_add(1);
        Ok(())
    }
}

/// How many fronts of the bytes, themselves among them, are answered in each way.
pub(crate) fn fronts_line(alloc: Global, text: &str) -> Result<String, OutOfMemory> {
    let bytes = long_bytes_of(alloc, text)?;
    let bytes = bytes.as_slice();
    let mut counts = Counts {
        partial: 0,
        long: 0,
        bad: 0,
        body: 0,
        read: 0,
    };
    for end in 0..bytes.len() + 1 {
        counts.count(alloc, &bytes[..end])?;
    }
    let Counts {
        partial,
        long,
        bad,
        body,
        read,
    } = counts;
    Ok(format!(in alloc; "partial {partial} long {long} bad {bad} body {body} read {read}")?)
}
