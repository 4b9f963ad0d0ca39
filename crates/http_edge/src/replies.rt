//! Replies that are pages and conflicts.
ghost use Rattle.std.specs.Prelude.{◌≡◌, Some, None, IfOk, not, ◌&&◌, if◌then◌else◌};
ghost use Rattle.shape_json.specs.Body.{inner_text, body_text, IsInner};
ghost use Rattle.shape_json.specs.Page.{Part};
ghost use Rattle.http_edge.specs.Lawful.{next_cursor, names_handle, control_of, page_reply, conflict_reply};

use shape_base::{Ask, Duplicate, Entries, Handle, Named, Offset, OutOfMemory, Page, Reply, Text};
use shape_json::{Control, close_body, write_entries};
use std::alloc::Global;

/// For how many seconds a cache may keep a page that ends a closed chunk: a week.
const CLOSED_AGE: u32 = 604_800;

/// For how many seconds a cache may keep any other page, and a conflict.
const OPEN_AGE: u32 = 5;

/// The cursor after one; after 2^64 - 1 comes 0.
pub fn next_cursor(cursor: u64) -> u64
    ensures { result ≡ next_cursor cursor }
{
    match cursor.checked_add(1) {
        Some(next) => next,
        None => 0,
    }
}

/// Whether the request names a handle, or a text that is none.
fn names_handle(named: &Named) -> bool
    ensures { result ≡ names_handle named.now }
{
    match named {
        Named::Absent => false,
        Named::Known(_) => true,
        Named::Strange => true,
    }
}

/// For how many seconds a cache may keep a page.
fn age_of(ask: &Ask, up_to_date: bool) -> u32
    ensures { result ≡ (if not up_to_date && names_handle ask.now.named then 604800 else 5) }
{
    if !up_to_date && names_handle(&ask.named) {
        CLOSED_AGE
    } else {
        OPEN_AGE
    }
}

/// The control that ends a page's body.
fn control_of(up_to_date: bool) -> Control
    ensures { result ≡ control_of up_to_date }
{
    if up_to_date {
        Control::UpToDate
    } else {
        Control::Nothing
    }
}

/// The cursor of a page's reply.
fn cursor_of(ask: &Ask, up_to_date: bool) -> Option<u64>
    ensures { result ≡ (if up_to_date then Some (next_cursor ask.now.cursor) else None) }
{
    if up_to_date {
        Some(next_cursor(ask.cursor))
    } else {
        None
    }
}

/// The reply that is a page of a handle's log: 200, with the handle, the page's end, the schema, and where it is up to
/// date the cursor after the request's. A cache may keep it for a week where the page ends a closed chunk and the request
/// names a handle, and else for 5 seconds.
pub fn page_reply(
    alloc: Global,
    ask: &Ask,
    handle: &Handle,
    schema: &Text,
    page: &Page,
) -> Result<Reply, OutOfMemory>
    requires { IsInner page.now.inner }
    ensures { (part : Part) → page.now.inner ≡ inner_text part.entries → page.now.end ≡ part.end → page.now.up_to_date ≡ part.up_to_date → IfOk result (λ reply. reply ≡ page_reply ask.now handle.now (Some schema.now) part) }
{
    let up_to_date = page.up_to_date;
    let body = close_body(alloc, page.inner.as_slice(), control_of(up_to_date))?;
    Ok(Reply {
        status: 200,
        handle: Some(handle.copy(alloc)?),
        offset: Some(page.end),
        schema: Some(schema.copy(alloc)?),
        cursor: cursor_of(ask, up_to_date),
        max_age: age_of(ask, up_to_date),
        body,
    })
}

/// The reply where the handle of a request is not live: 409, which names the handle that is ready in its place, where
/// there is one. A client that takes it fetches anew.
pub fn conflict_reply(alloc: Global, named: Option<Handle>) -> Result<Reply, OutOfMemory>
    ensures { IfOk result (λ reply. reply ≡ conflict_reply named) }
{
    let body = write_entries(alloc, &Entries::new(alloc), Control::MustRefetch)?;
    Ok(Reply {
        status: 409,
        handle: named,
        offset: None,
        schema: None,
        cursor: None,
        max_age: OPEN_AGE,
        body,
    })
}
