//! Targets of requests in a line.
ghost use Rattle.std.specs.Prelude.{◌≡◌, length, IfOk};

use crate::heads::long_bytes_of;
use cases::{put_bytes, served_of};
use http_edge::{Refusal, Request, route};
use shape_base::{Ask, Named, OutOfMemory, ServedTables, Text, TextError, Texts};
use std::alloc::Global;

/// The served tables: `public.items`, `app.items`, the table `b.c` of the schema `a`, and two of the schema `public` with
/// a letter and a quote that requests escape.
fn served_tables(alloc: Global) -> Result<ServedTables, OutOfMemory>
    ensures { IfOk result (λ tables. length tables ≡ 5) }
{
    let items = served_of(alloc, "public", "items", "id")?;
    let others = served_of(alloc, "app", "items", "id")?;
    let dotted = served_of(alloc, "a", "b.c", "id")?;
    let letter = served_of(alloc, "public", "\u{c4}", "id")?;
    let quote = served_of(alloc, "public", "q\"x", "id")?;
    let tables = vec![in alloc; items, others, dotted, letter, quote]?;
    Ok(ServedTables::from_vec(tables))
}

fn put_named(alloc: Global, line: &mut String, named: &Named) -> Result<(), OutOfMemory> {
    match named {
        Named::Absent => Ok(line.push_str(" -")?),
        Named::Strange => Ok(line.push_str(" ?")?),
        Named::Known(handle) => {
            let number = handle.number;
            write!(line, " {number}-")?;
            put_bytes(line, handle.run.as_bytes())
        }
    }
}

fn put_columns(line: &mut String, columns: &Option<Texts>) -> Result<(), OutOfMemory> {
    let Some(columns) = columns else {
        return Ok(line.push_str(" -")?);
    };
    line.push_str(" [")?;
    let mut first = true;
    for name in columns.as_slice() {
        if !first {
            line.push(',')?;
        }
        put_bytes(line, name.as_bytes())?;
        first = false;
    }
    Ok(line.push(']')?)
}

/// What is asked for.
fn ask_line(alloc: Global, ask: &Ask) -> Result<String, OutOfMemory> {
    let mut line = format!(in alloc; "ask {}", ask.table)?;
    put_named(alloc, &mut line, &ask.named)?;
    line.push(' ')?;
    put_bytes(&mut line, ask.offset.print(alloc)?.as_bytes())?;
    line.push_str(if ask.live { " live" } else { " now" })?;
    write!(line, " {}", ask.cursor)?;
    put_columns(&mut line, &ask.columns)?;
    line.push(' ')?;
    put_bytes(&mut line, ask.identity.as_bytes())?;
    Ok(line)
}

fn refusal_line(alloc: Global, refusal: Refusal) -> Result<String, OutOfMemory> {
    let word = match refusal {
        Refusal::MethodRefused => "method_refused",
        Refusal::PathUnknown => "path_unknown",
        Refusal::BadEscape => "bad_escape",
        Refusal::RepeatedParameter => "repeated_parameter",
        Refusal::MissingTable => "missing_table",
        Refusal::TableNotServed => "table_not_served",
        Refusal::WhereTooLong => "where_too_long",
        Refusal::WhereSyntax { place } => {
            return Ok(format!(in alloc; "where_syntax {place}")?);
        }
        Refusal::BadOffset => "bad_offset",
        Refusal::HandleNeeded => "handle_needed",
        Refusal::LiveAtStart => "live_at_start",
        Refusal::OutOfMemory => return Err(OutOfMemory),
    };
    Ok(format!(in alloc; "{word}")?)
}

/// What a request with this target asks for.
pub(crate) fn target_line(alloc: Global, text: &str, get: bool) -> Result<String, OutOfMemory> {
    let bytes = long_bytes_of(alloc, text)?;
    let target = match Text::read(alloc, bytes.as_slice()) {
        Ok(target) => target,
        Err(TextError::NotUtf8 { .. }) => return Ok(format!(in alloc; "no text")?),
        Err(TextError::OutOfMemory) => return Err(OutOfMemory),
    };
    let request = Request {
        length: 0,
        get,
        target,
        close: false,
    };
    let tables = served_tables(alloc)?;
    match route(alloc, &request, &tables) {
        Ok(ask) => ask_line(alloc, &ask),
        Err(refusal) => refusal_line(alloc, refusal),
    }
}
