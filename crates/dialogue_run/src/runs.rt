//! The dialogues, and what is printed of them.
ghost use Rattle.std.specs.Prelude.{◌≡◌, ◌<◌, ◌^◌, length, IfOk};
ghost use Rattle.pg_dialogue.specs.Queries.{IsShortLogin, IsShortName};

use crate::printing::put_row;
use pg_dialogue::{Dialogue, Login, SnapHead, WireError, describe, open_stream};
use shape_base::{OutOfMemory, Seq, Served, Sink, Source, Text};
use std::alloc::Global;
use std::io;
use std::io::Write;

/// What a run is asked for.
#[derive(Drop)]
pub(crate) struct Order<'a> {
    pub word: &'a str,
    pub user: &'a str,
    pub database: &'a str,
    pub name: &'a str,
}

/// A text of a word; a long one is cut to nothing.
fn short(alloc: Global, text: &str) -> Result<Text, OutOfMemory>
    ensures { IfOk result (λ t. length t < 2 ^ 29) }
{
    if text.len() < 1000 {
        Text::of(alloc, text)
    } else {
        Text::of(alloc, "")
    }
}

fn login_of(alloc: Global, order: &Order) -> Result<Login, OutOfMemory>
    ensures { IfOk result IsShortLogin }
{
    Ok(Login {
        address: short(alloc, "")?,
        user: short(alloc, order.user)?,
        database: short(alloc, order.database)?,
        slot: short(alloc, order.name)?,
        publication: short(alloc, order.name)?,
    })
}

fn table_of(alloc: Global, order: &Order) -> Result<Served, OutOfMemory>
    ensures { IfOk result IsShortName }
{
    let ns = short(alloc, "public")?;
    let name = short(alloc, order.name)?;
    let key = Text::of(alloc, "id")?;
    let key = Seq::from_vec(vec![in alloc; key]?);
    Ok(Served { ns, name, key })
}

/// Writes why a dialogue ended early, and gives a status.
fn refuse<W: Write>(out: &mut W, error: WireError) -> io::Result<u8> {
    match error {
        WireError::OutOfMemory => out.write_all(b"out_of_memory\n")?,
        WireError::LinkFault => out.write_all(b"link_fault\n")?,
        WireError::Ended { place } => writeln!(out, "ended {place}")?,
        WireError::ErrorResponse { sqlstate } => writeln!(
            out,
            "error_response {}",
            sqlstate.as_str()
        )?,
        WireError::BadReply { place } => writeln!(out, "bad_reply {place}")?,
        WireError::AuthWanted { code } => writeln!(out, "auth_wanted {code}")?,
        WireError::NotUtf8 { place } => writeln!(out, "not_utf8 {place}")?,
        WireError::TooLong { limit } => writeln!(out, "too_long {limit}")?,
    }
    Ok(1)
}

fn put_head<W: Write>(out: &mut W, head: &SnapHead) -> io::Result<u8> {
    let oid = head.oid;
    writeln!(out, "table {oid}")?;
    for column in head.columns.as_slice() {
        writeln!(out, "{} {}", column.name.as_str(), column.oid)?;
    }
    Ok(0)
}

/// Reads the rows to their end, writes them where that is asked for, and counts them.
fn rows<P: Source, W: Write>(
    dialogue: &mut Dialogue,
    link: &mut P,
    out: &mut W,
    printed: bool,
) -> io::Result<Result<(u64, u64), WireError>> {
    let mut rows = 0u64;
    let mut values = 0u64;
    for _ in 0..u64::MAX {
        match dialogue.next_row(link) {
            Ok(Some(row)) => {
                rows = rows.saturating_add(1);
                values = values.saturating_add(row.len());
                if printed {
                    put_row(out, &row)?;
                }
            }
            Ok(None) => return Ok(Ok((rows, values))),
            Err(error) => return Ok(Err(error)),
        }
    }
    Ok(Ok((rows, values)))
}

fn snapshot<P: Source + Sink, W: Write>(
    alloc: Global,
    link: &mut P,
    out: &mut W,
    login: &Login,
    table: &Served,
    printed: bool,
) -> io::Result<u8>
    requires login { IsShortLogin login.now }
    requires table { IsShortName table.now }
{
    let mut dialogue = match Dialogue::begin(alloc, link, login, table) {
        Ok((dialogue, _)) => dialogue,
        Err(error) => return refuse(out, error),
    };
    let counts = match rows(&mut dialogue, link, out, printed)? {
        Ok(counts) => counts,
        Err(error) => return refuse(out, error),
    };
    match dialogue.finish(link) {
        Ok(()) => {
            if !printed {
                writeln!(out, "{} rows {} values", counts.0, counts.1)?;
            }
            Ok(0)
        }
        Err(error) => refuse(out, error),
    }
}

/// Holds the dialogue that is asked for, and gives a status.
pub(crate) fn run<P: Source + Sink, W: Write>(
    alloc: Global,
    link: &mut P,
    out: &mut W,
    order: &Order,
) -> io::Result<u8> {
    let (Ok(login), Ok(table)) = (login_of(alloc, order), table_of(alloc, order)) else {
        return refuse(out, WireError::OutOfMemory);
    };
    match order.word {
        "describe" => match describe(alloc, link, &login, &table) {
            Ok(head) => put_head(out, &head),
            Err(error) => refuse(out, error),
        },
        "snapshot" => snapshot(alloc, link, out, &login, &table, true),
        "count" => snapshot(alloc, link, out, &login, &table, false),
        "stream" => match open_stream(alloc, link, &login) {
            Ok(()) => {
                out.write_all(b"open\n")?;
                Ok(0)
            }
            Err(error) => refuse(out, error),
        },
        _ => {
            out.write_all(b"no such word\n")?;
            Ok(2)
        }
    }
}
