//! Outs, and the lines that are written for them.
use bytes::Bytes;
use cases::{bytes_of, cut, number_of, put_bytes, value_of};
use core_events::{Out, Outs};
use script::{push_end, push_outs};
use shape_base::{Cell, Cells, Handle, KeyedRow, KeyedRows, Offset, OutOfMemory, Text};
use std::alloc::Global;

/// The number of 32 bits that a word spells, or 0 where it spells none.
fn small_of(word: &str) -> u32 {
    word.parse::<u32>().unwrap_or(0)
}

/// The cells of names and values that follow one another.
fn cells_of(alloc: Global, text: &str) -> Result<Cells, OutOfMemory> {
    let mut cells = Cells::new(alloc);
    let mut name = None;
    for word in text.split(' ') {
        match name {
            None => name = Some(Text::of(alloc, word)?),
            Some(found) => {
                let value = value_of(alloc, word)?;
                cells.push(Cell { name: found, value })?;
                name = None;
            }
        }
    }
    Ok(cells)
}

/// The rows of a block: none, or one with a key and cells.
fn rows_of(alloc: Global, text: &str) -> Result<KeyedRows, OutOfMemory> {
    let mut rows = KeyedRows::new(alloc);
    if text.is_empty() {
        return Ok(rows);
    }
    let (key, cells) = cut(text, ' ');
    let key = Text::of(alloc, key)?;
    let cells = cells_of(alloc, cells)?;
    rows.push(KeyedRow { key, cells })?;
    Ok(rows)
}

/// A block of words: the client, the handle's number and run, the offset's LSN and position, and the rows.
fn block_of(alloc: Global, text: &str) -> Result<Out, OutOfMemory> {
    let (client, rest) = cut(text, ' ');
    let (number, rest) = cut(rest, ' ');
    let (run, rest) = cut(rest, ' ');
    let (lsn, rest) = cut(rest, ' ');
    let (pos, rest) = cut(rest, ' ');
    let handle = Handle {
        number: number_of(number),
        run: Text::of(alloc, run)?,
    };
    let offset = Offset::At {
        lsn: number_of(lsn),
        pos: number_of(pos),
    };
    let rows = rows_of(alloc, rest)?;
    Ok(Out::Block {
        client: small_of(client),
        handle,
        offset,
        rows,
    })
}

fn given_of(alloc: Global, exchange: &str, bytes: &str) -> Result<Out, OutOfMemory> {
    Ok(Out::Given {
        exchange: small_of(exchange),
        bytes: Bytes::from_vec(bytes_of(alloc, bytes)?)?,
    })
}

/// The out of a line, or none where it is another line.
fn out_of(alloc: Global, word: &str, rest: &str) -> Result<Option<Out>, OutOfMemory> {
    let (first, others) = cut(rest, ' ');
    let number = small_of(first);
    let out = match word {
        "given" => given_of(alloc, first, others)?,
        "cut" => Out::Cut { exchange: number },
        "block" | "empty" => block_of(alloc, rest)?,
        "refetched" => Out::Refetched { client: number },
        "refused" => Out::Refused {
            client: number,
            status: others.parse::<u16>().unwrap_or(0),
        },
        "stream" => Out::StreamRefused {
            name: Text::of(alloc, first)?,
            place: number_of(others),
        },
        _ => return Ok(None),
    };
    Ok(Some(out))
}

/// What is written for the out of a line.
pub fn out_line(alloc: Global, word: &str, rest: &str) -> Result<String, OutOfMemory> {
    let mut bytes = Vec::new(alloc);
    if word == "end" {
        push_end(&mut bytes, number_of(rest))?;
    }
    let mut outs = Outs::new(alloc);
    if let Some(out) = out_of(alloc, word, rest)? {
        outs.push(out)?;
    }
    push_outs(alloc, &mut bytes, &outs)?;
    let mut line = String::new(alloc);
    put_bytes(&mut line, &bytes)?;
    Ok(line)
}
