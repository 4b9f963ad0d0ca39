//! Pages, conflicts and cursors in a line.
ghost use Rattle.std.specs.Prelude.{IfOk};
ghost use Rattle.shape_json.specs.Body.{IsInner};

use crate::printing::written_line;
use bytes::Bytes;
use cases::{cut, number_of};
use http_edge::{conflict_reply, next_cursor, page_reply};
use shape_base::{
    Ask, Cell, Cells, Entry, Handle, Named, Offset, Op, OutOfMemory, Page, Text, Value,
};
use shape_json::{entry_size, put_entry};
use std::alloc::Global;

/// The handle of that number in the run `replay`.
fn handle_of(alloc: Global, number: u64) -> Result<Handle, OutOfMemory> {
    Ok(Handle {
        number,
        run: Text::of(alloc, "replay")?,
    })
}

fn cell(alloc: Global, name: &str, value: &str) -> Result<Cell, OutOfMemory> {
    Ok(Cell {
        name: Text::of(alloc, name)?,
        value: Value::Words(Text::of(alloc, value)?),
    })
}

/// The first entry of a snapshot with one row.
fn entry_of(alloc: Global) -> Result<Entry, OutOfMemory> {
    let mut cells = Cells::new(alloc);
    cells.push(cell(alloc, "id", "1")?)?;
    cells.push(cell(alloc, "n", "5")?)?;
    cells.push(cell(alloc, "s", "a")?)?;
    Ok(Entry {
        offset: Offset::At { lsn: 0, pos: 1 },
        op: Op::Insert,
        key: Text::of(alloc, "\"public\".\"items\"/\"1\"")?,
        cells,
    })
}

/// The text of an entry.
fn inner_of(alloc: Global, entry: &Entry) -> Result<Vec<u8>, OutOfMemory>
    ensures { IfOk result (λ out. IsInner out.items) }
{
    let size = entry_size(entry);
    if size == u64::MAX {
        return Err(OutOfMemory);
    }
    let mut out = Vec::with_capacity(alloc, size as usize)?;
    put_entry(&mut out, entry);
    Ok(out)
}

/// A page that ends at `0_1`, of that entry.
fn page_of(alloc: Global, up_to_date: bool) -> Result<Page, OutOfMemory>
    ensures { IfOk result (λ page. IsInner page.inner) }
{
    let inner = inner_of(alloc, &entry_of(alloc)?)?;
    Ok(Page {
        inner: Bytes::from_vec(inner)?,
        count: 1,
        end: Offset::At { lsn: 0, pos: 1 },
        up_to_date,
    })
}

/// A request that names a handle, a text that is none, or nothing.
fn ask_of(alloc: Global, named: &str, cursor: u64) -> Result<Ask, OutOfMemory> {
    let named = match named {
        "handle" => Named::Known(handle_of(alloc, 1)?),
        "strange" => Named::Strange,
        _ => Named::Absent,
    };
    Ok(Ask {
        table: 0,
        columns: None,
        clause: None,
        identity: Text::of(alloc, "\"public\".\"items\"")?,
        named,
        offset: Offset::Start,
        live: false,
        cursor,
    })
}

/// The reply that is a page of the log `1-replay`.
pub(crate) fn page_line(alloc: Global, text: &str) -> Result<String, OutOfMemory> {
    let (named, rest) = cut(text, ' ');
    let (word, cursor) = cut(rest, ' ');
    let ask = ask_of(alloc, named, number_of(cursor))?;
    let page = page_of(alloc, word == "current")?;
    let handle = handle_of(alloc, 1)?;
    let schema = Text::of(alloc, "id:23,n:23,s:25")?;
    let reply = page_reply(alloc, &ask, &handle, &schema, &page)?;
    written_line(alloc, &reply, false)
}

/// The conflict that names the handle of that number, or none.
pub(crate) fn conflict_line(alloc: Global, text: &str) -> Result<String, OutOfMemory> {
    let named = match text {
        "none" => None,
        number => Some(handle_of(alloc, number_of(number))?),
    };
    written_line(alloc, &conflict_reply(alloc, named)?, false)
}

/// The cursor after one.
pub(crate) fn cursor_line(alloc: Global, text: &str) -> Result<String, OutOfMemory> {
    Ok(format!(in alloc; "{}", next_cursor(number_of(text)))?)
}
