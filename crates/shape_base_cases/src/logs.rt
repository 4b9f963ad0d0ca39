//! A log that entries are appended to.
use cases::cut;
use shape_base::{Cells, Entry, Offset, Op, OutOfMemory, Text};
use shape_log::{Log, OffsetAhead};
use std::alloc::Global;

/// Whether an entry with this offset was appended, which is where it stands behind the end.
fn is_appended(alloc: Global, log: &mut Log, offset: Offset) -> Result<bool, OutOfMemory> {
    log.reserve(1)?;
    if !log.end().before(&offset) || log.bytes() > 1000 {
        return Ok(false);
    }
    let key = offset.print(alloc)?;
    let entry = Entry {
        offset,
        op: Op::Insert,
        key,
        cells: Cells::new(alloc),
    };
    log.append(entry, 2);
    Ok(true)
}

/// Whether the entries of these offsets were all appended.
fn are_appended(alloc: Global, log: &mut Log, offsets: &str) -> Result<bool, OutOfMemory> {
    for offset in offsets.split(',') {
        let Ok(offset) = Offset::read(offset.as_bytes()) else {
            return Ok(false);
        };
        if !is_appended(alloc, log, offset)? {
            return Ok(false);
        }
    }
    Ok(true)
}

/// Adds the keys and the offsets of the entries from a place on.
fn put_entries(alloc: Global, out: &mut String, log: &Log, from: u64) -> Result<(), OutOfMemory> {
    for place in from..log.len() {
        let entry = log.at(place);
        let offset = entry.offset.print(alloc)?;
        let text = format!(in alloc; " {}={}", entry.key.as_str(), offset.as_str())?;
        out.push_str(text.as_str())?;
    }
    Ok(())
}

/// A log of entries, and those past an offset.
pub(crate) fn log_line(alloc: Global, text: &str) -> Result<String, OutOfMemory> {
    let (offsets, asked) = cut(text, ' ');
    let mut log = Log::new(alloc);
    if offsets != "-" && !are_appended(alloc, &mut log, offsets)? {
        return Ok(format!(in alloc; "not appended")?);
    }
    let end = log.end().print(alloc)?;
    let mut line = format!(in alloc;
        "{} entries, {} bytes, end {},",
        log.len(),
        log.bytes(),
        end.as_str()
    )?;
    let Ok(asked) = Offset::read(asked.as_bytes()) else {
        return Ok(line);
    };
    match log.page_bounds(asked) {
        Ok(from) => {
            line.push_str(" past it")?;
            put_entries(alloc, &mut line, &log, from)?;
        }
        Err(OffsetAhead { end }) => {
            let end = format!(in alloc; " ahead of {}", end.print(alloc)?.as_str())?;
            line.push_str(end.as_str())?;
        }
    }
    Ok(line)
}
