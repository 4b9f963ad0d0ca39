//! Rows as `COPY .. TO STDOUT` prints them (PostgreSQL manual, COPY, Text Format).
use shape_base::{Row, Value};
use std::io;
use std::io::Write;

/// What stands for a byte that is not printed as it is.
fn escape(byte: u8) -> Option<&'static [u8]> {
    match byte {
        b'\\' => Some(b"\\\\"),
        b'\t' => Some(b"\\t"),
        b'\n' => Some(b"\\n"),
        b'\r' => Some(b"\\r"),
        8 => Some(b"\\b"),
        11 => Some(b"\\v"),
        12 => Some(b"\\f"),
        _ => None,
    }
}

fn put_text<W: Write>(out: &mut W, text: &[u8]) -> io::Result<()> {
    let mut from = 0;
    for (place, byte) in text.iter().enumerate() {
        if let Some(escaped) = escape(*byte) {
            if from <= place {
                out.write_all(&text[from..place])?;
            }
            out.write_all(escaped)?;
            from = place + 1;
        }
    }
    if from <= text.len() {
        out.write_all(&text[from..])?;
    }
    Ok(())
}

/// Writes a row on a line of its own.
pub(crate) fn put_row<W: Write>(out: &mut W, row: &Row) -> io::Result<()> {
    for (place, value) in row.as_slice().iter().enumerate() {
        if place > 0 {
            out.write_all(b"\t")?;
        }
        match value {
            Value::Null => out.write_all(b"\\N")?,
            Value::Words(text) => put_text(out, text.as_bytes())?,
        }
    }
    out.write_all(b"\n")
}
