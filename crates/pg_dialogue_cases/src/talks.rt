//! Dialogues over links in memory, and what is printed of them.
ghost use Rattle.std.specs.Prelude.{◌≡◌, ◌<◌, ◌^◌, length, IfOk};
ghost use Rattle.pg_dialogue.specs.Queries.{IsShortLogin, IsShortName};

use crate::link::MemoryLink;
use cases::put_bytes;
use pg_dialogue::{Dialogue, Login, SnapHead, WireError, describe, open_stream};
use shape_base::{OutOfMemory, Row, Served, Value};
use std::alloc::Global;

/// Which dialogue is held.
#[derive(Clone, Copy)]
pub(crate) enum Talk {
    Snapshot,
    Description,
    Stream,
}

pub(crate) fn put_head(out: &mut String, head: &SnapHead) -> Result<(), OutOfMemory> {
    out.push_str("shown ")?;
    put_bytes(out, head.vis.as_bytes())?;
    let oid = head.oid;
    write!(out, "; table {oid}")?;
    for column in head.columns.as_slice() {
        out.push_str(", ")?;
        put_bytes(out, column.name.as_bytes())?;
        let oid = column.oid;
        write!(out, " {oid}")?;
    }
    out.push_str("; ")?;
    Ok(())
}

pub(crate) fn put_row(out: &mut String, row: &Row) -> Result<(), OutOfMemory> {
    out.push_str("row")?;
    for value in row.as_slice() {
        match value {
            Value::Null => out.push_str(" null")?,
            Value::Words(text) => {
                out.push_str(" '")?;
                put_bytes(out, text.as_bytes())?;
                out.push('\'')?;
            }
        }
    }
    out.push_str("; ")?;
    Ok(())
}

pub(crate) fn put_error(out: &mut String, error: WireError) -> Result<(), OutOfMemory> {
    match error {
        WireError::OutOfMemory => out.push_str("out_of_memory")?,
        WireError::LinkFault => out.push_str("link_fault")?,
        WireError::Ended { place } => write!(out, "ended {place}")?,
        WireError::ErrorResponse { sqlstate } => {
            out.push_str("error_response ")?;
            put_bytes(out, sqlstate.as_bytes())?;
        }
        WireError::BadReply { place } => write!(out, "bad_reply {place}")?,
        WireError::AuthWanted { code } => write!(out, "auth_wanted {code}")?,
        WireError::NotUtf8 { place } => write!(out, "not_utf8 {place}")?,
        WireError::TooLong { limit } => write!(out, "too_long {limit}")?,
    }
    Ok(())
}

fn put_done(out: &mut String) -> Result<(), OutOfMemory> {
    out.push_str("done")?;
    Ok(())
}

/// Reads the rows, and whether they ended.
fn rows(
    out: &mut String,
    link: &mut MemoryLink,
    dialogue: &mut Dialogue,
) -> Result<bool, OutOfMemory> {
    for _ in 0..u32::MAX {
        match dialogue.next_row(link) {
            Ok(Some(row)) => put_row(out, &row)?,
            Ok(None) => return Ok(true),
            Err(error) => {
                put_error(out, error)?;
                return Ok(false);
            }
        }
    }
    Ok(false)
}

fn finish(out: &mut String, link: &mut MemoryLink, dialogue: Dialogue) -> Result<(), OutOfMemory> {
    match dialogue.finish(link) {
        Ok(()) => put_done(out),
        Err(error) => put_error(out, error),
    }
}

fn snapshot(
    alloc: Global,
    out: &mut String,
    link: &mut MemoryLink,
    login: &Login,
    table: &Served,
) -> Result<(), OutOfMemory>
    requires login { IsShortLogin login.now }
    requires table { IsShortName table.now }
{
    match Dialogue::begin(alloc, link, login, table) {
        Ok((mut dialogue, head)) => {
            put_head(out, &head)?;
            if rows(out, link, &mut dialogue)? {
                finish(out, link, dialogue)?;
            }
            Ok(())
        }
        Err(error) => put_error(out, error),
    }
}

fn description(
    alloc: Global,
    out: &mut String,
    link: &mut MemoryLink,
    login: &Login,
    table: &Served,
) -> Result<(), OutOfMemory>
    requires login { IsShortLogin login.now }
    requires table { IsShortName table.now }
{
    match describe(alloc, link, login, table) {
        Ok(head) => {
            put_head(out, &head)?;
            put_done(out)
        }
        Err(error) => put_error(out, error),
    }
}

fn stream(
    alloc: Global,
    out: &mut String,
    link: &mut MemoryLink,
    login: &Login,
) -> Result<(), OutOfMemory>
    requires { IsShortLogin login.now }
{
    match open_stream(alloc, link, login) {
        Ok(()) => put_done(out),
        Err(error) => put_error(out, error),
    }
}

/// Holds a dialogue, and adds what it answers to a line.
pub(crate) fn hold(
    alloc: Global,
    talk: Talk,
    out: &mut String,
    link: &mut MemoryLink,
    login: &Login,
    table: &Served,
) -> Result<(), OutOfMemory>
    requires login { IsShortLogin login.now }
    requires table { IsShortName table.now }
{
    match talk {
        Talk::Snapshot => snapshot(alloc, out, link, login, table),
        Talk::Description => description(alloc, out, link, login, table),
        Talk::Stream => stream(alloc, out, link, login),
    }
}
