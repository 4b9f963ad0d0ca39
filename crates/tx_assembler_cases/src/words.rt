//! The bytes of the messages that words stand for.
use std::alloc::{AllocError, Global};

fn put_u8(out: &mut Vec<u8>, byte: u8) -> Result<(), AllocError> {
    out.push(byte)?;
    Ok(())
}

fn put_u16(out: &mut Vec<u8>, number: u16) -> Result<(), AllocError> {
    out.extend_from_slice(&number.to_be_bytes())
}

fn put_u32(out: &mut Vec<u8>, number: u32) -> Result<(), AllocError> {
    out.extend_from_slice(&number.to_be_bytes())
}

fn put_u64(out: &mut Vec<u8>, number: u64) -> Result<(), AllocError> {
    out.extend_from_slice(&number.to_be_bytes())
}

/// A name and its zero byte, where `^` stands for a byte that is no UTF-8.
fn put_name(out: &mut Vec<u8>, name: &str) -> Result<(), AllocError> {
    for byte in name.as_bytes() {
        if *byte == b'^' {
            out.push(0xff)?;
        } else {
            out.push(*byte)?;
        }
    }
    put_u8(out, 0)
}

/// A column of a row.
fn put_field(out: &mut Vec<u8>, column: u8) -> Result<(), AllocError> {
    match column {
        b'-' => put_u8(out, b'n'),
        b'?' => put_u8(out, b'u'),
        b'!' => out.extend_from_slice(b"b\x00\x00\x00\x01\x05"),
        b'^' => out.extend_from_slice(b"t\x00\x00\x00\x01\xff"),
        b'~' => out.extend_from_slice(b"t\x00\x00\x00\x02a\xff"),
        byte => {
            out.extend_from_slice(b"t\x00\x00\x00\x01")?;
            put_u8(out, byte)
        }
    }
}

fn put_row(out: &mut Vec<u8>, tag: u8, row: &str) -> Result<(), AllocError> {
    out.push(tag)?;
    put_u16(out, u16::try_from(row.len()).unwrap_or(u16::MAX))?;
    for column in row.as_bytes() {
        put_field(out, *column)?;
    }
    Ok(())
}

fn put_relation(out: &mut Vec<u8>, oid: u32, rest: &str) -> Result<(), AllocError> {
    let (ns, rest) = rest.split_once(':').unwrap_or((rest, ""));
    let (name, columns) = rest.split_once(':').unwrap_or((rest, ""));
    out.push(b'R')?;
    put_u32(out, oid)?;
    put_name(out, ns)?;
    put_name(out, name)?;
    out.push(b'f')?;
    put_u16(out, u16::try_from(columns.len()).unwrap_or(u16::MAX))?;
    for column in columns.as_bytes() {
        out.push(1)?;
        put_column_name(out, *column)?;
        put_u32(out, 25)?;
        put_u32(out, 0xffff_ffff)?;
    }
    Ok(())
}

fn put_column_name(out: &mut Vec<u8>, column: u8) -> Result<(), AllocError> {
    if column == b'^' {
        out.push(0xff)?;
    } else {
        out.push(column)?;
    }
    put_u8(out, 0)
}

/// A message's first byte and a table's object identifier.
fn put_head(out: &mut Vec<u8>, kind: u8, oid: u32) -> Result<(), AllocError> {
    out.push(kind)?;
    put_u32(out, oid)
}

/// A change of a table with one row.
fn put_one(out: &mut Vec<u8>, kind: u8, oid: u32, tag: u8, row: &str) -> Result<(), AllocError> {
    put_head(out, kind, oid)?;
    put_row(out, tag, row)
}

/// An Update with two rows, between which a `:` stands.
fn put_two(out: &mut Vec<u8>, oid: u32, tag: u8, rows: &str) -> Result<(), AllocError> {
    let (old, new) = rows.split_once(':').unwrap_or((rows, rows));
    put_head(out, b'U', oid)?;
    put_row(out, tag, old)?;
    put_row(out, b'N', new)
}

/// An Insert of one column, a text of so many bytes.
fn put_large(out: &mut Vec<u8>, oid: u32, size: &str) -> Result<(), AllocError> {
    let size = size.parse::<u32>().unwrap_or(0);
    put_head(out, b'I', oid)?;
    out.extend_from_slice(b"N\x00\x01t")?;
    put_u32(out, size)?;
    for _ in 0..size {
        out.push(b'x')?;
    }
    Ok(())
}

/// A change of a table, by its letter.
fn put_change(out: &mut Vec<u8>, letter: &str, oid: u32, rest: &str) -> Result<(), AllocError> {
    match letter {
        "I" => put_one(out, b'I', oid, b'N', rest),
        "N" => put_one(out, b'U', oid, b'N', rest),
        "U" => put_two(out, oid, b'O', rest),
        "K" => put_two(out, oid, b'K', rest),
        "D" => put_one(out, b'D', oid, b'O', rest),
        "E" => put_one(out, b'D', oid, b'K', rest),
        "L" => put_large(out, oid, rest),
        _ => Ok(()),
    }
}

fn put_truncate(out: &mut Vec<u8>, list: &str) -> Result<(), AllocError> {
    let mut count = 0;
    for _ in list.split(',') {
        count = u32::saturating_add(count, 1);
    }
    out.push(b'T')?;
    put_u32(out, count)?;
    out.push(0)?;
    for oid in list.split(',') {
        put_u32(out, oid.parse::<u32>().unwrap_or(0))?;
    }
    Ok(())
}

fn put_commit(out: &mut Vec<u8>, lsn: u64) -> Result<(), AllocError> {
    out.push(b'C')?;
    out.push(0)?;
    put_u64(out, lsn)?;
    put_u64(out, lsn.saturating_add(8))?;
    put_u64(out, 0)
}

fn put_begin(out: &mut Vec<u8>, lsn: u64) -> Result<(), AllocError> {
    out.push(b'B')?;
    put_u64(out, lsn)?;
    put_u64(out, 0)?;
    put_u32(out, 77)
}

/// A message of a table, by its letter.
fn put_of_table(out: &mut Vec<u8>, letter: &str, rest: &str) -> Result<(), AllocError> {
    let (oid, rest) = rest.split_once(':').unwrap_or((rest, ""));
    let oid = oid.parse::<u32>().unwrap_or(0);
    match letter {
        "R" => put_relation(out, oid, rest),
        _ => put_change(out, letter, oid, rest),
    }
}

fn put_message(out: &mut Vec<u8>, letter: &str, rest: &str) -> Result<(), AllocError> {
    match letter {
        "B" => put_begin(out, rest.parse::<u64>().unwrap_or(0)),
        "C" => put_commit(out, rest.parse::<u64>().unwrap_or(0)),
        "T" => put_truncate(out, rest),
        "O" => out.extend_from_slice(b"O\x00\x00\x00\x00\x00\x00\x00\x05far\x00"),
        "Y" => out.extend_from_slice(b"Y\x00\x00\x00\x09public\x00mood\x00"),
        "M" => out.extend_from_slice(
            b"M\x00\x00\x00\x00\x00\x00\x00\x00\x05p\x00\x00\x00\x00\x01x",
        ),
        _ => put_of_table(out, letter, rest),
    }
}

/// The bytes of the message that a word stands for; none where it stands for no message.
pub fn bytes_of(alloc: Global, word: &str) -> Result<Vec<u8>, AllocError> {
    let mut out = Vec::new(alloc);
    if let Some((letter, rest)) = word.split_at_checked(1) {
        put_message(&mut out, letter, rest)?;
    }
    Ok(out)
}
