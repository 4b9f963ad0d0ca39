//! Dialogues of snapshots whose bytes come in pieces, and what is printed of them.
ghost use Rattle.std.specs.Prelude.{◌<◌};

use crate::talks::{put_error, put_head, put_row};
use cases::bytes_of;
use pg_dialogue::{SnapReader, SnapStep};
use shape_base::OutOfMemory;
use std::alloc::Global;

fn put_step(out: &mut String, step: &SnapStep) -> Result<(), OutOfMemory> {
    match step {
        SnapStep::Head(head) => put_head(out, head)?,
        SnapStep::Row(row) => put_row(out, row)?,
        SnapStep::Done => out.push_str("done; ")?,
    }
    Ok(())
}

/// Adds what the dialogue gives now to a line, behind the number of bytes that were fed; whether it is refused.
fn put_steps(out: &mut String, reader: &mut SnapReader, fed: usize) -> Result<bool, OutOfMemory> {
    for _ in 0..u32::MAX {
        match reader.next() {
            Ok(Some(step)) => {
                write!(out, "{fed}: ")?;
                put_step(out, &step)?;
            }
            Ok(None) => return Ok(false),
            Err(error) => {
                write!(out, "{fed}: ")?;
                put_error(out, error)?;
                out.push_str("; ")?;
                return Ok(true);
            }
        }
    }
    Ok(false)
}

/// What comes of bytes in pieces of this size. After a refusal the rest is fed, and what comes then is asked once more.
fn steps_of(alloc: Global, bytes: &[u8], size: usize) -> Result<String, OutOfMemory>
    requires { 0 < size }
{
    let mut out = String::new(alloc);
    let mut reader = SnapReader::new(alloc);
    let mut fed = 0usize;
    let mut refused = false;
    for piece in bytes.chunks(size) {
        reader.feed(piece)?;
        fed = fed.saturating_add(piece.len());
        if !refused {
            refused = put_steps(&mut out, &mut reader, fed)?;
        }
    }
    let _refused = put_steps(&mut out, &mut reader, fed)?;
    write!(out, "end {fed}")?;
    Ok(out)
}

pub(crate) fn pieces_line(alloc: Global, size: &str, text: &str) -> Result<String, OutOfMemory> {
    let bytes = bytes_of(alloc, text)?;
    match size.parse::<usize>() {
        Ok(size) if size > 0 => steps_of(alloc, bytes.as_slice(), size),
        _ => Ok(format!(in alloc; "no such line")?),
    }
}
