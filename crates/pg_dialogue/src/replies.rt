//! What each message tells the client that waits for one.
ghost use Rattle.std.specs.Prelude.{◌≡◌, ◌⊎◌, length, Ok, IsTrue};
ghost use Rattle.std.specs.List.{list_all};
ghost use Rattle.byte_format.specs.Whole.{whole};
ghost use Rattle.pg_dialogue.specs.Answers.{Answers};
ghost use Rattle.pg_dialogue.specs.Contents.{data_row};
ghost use Rattle.pg_dialogue.specs.Replies.{acknowledged_if, authentication, ready, started, completed, one_column, snapshot_column, of_table, table_of, described, table_columns, row_with, table_row, text_with, snapshot_text, error_response, reply_to, reply};
ghost use Rattle.pg_dialogue.specs.Columns.{text_at, columns_of, value_at, values_of};

use crate::contents::{Field, Sent, data_row_of, is_copy_both, row_description_of, text_of};
use crate::wanted::{News, Wanted};
use crate::wire_error::WireError;
use byte_format::{ReadError, u32_at};
use pg_wire::sqlstate_at;
use shape_base::{Column, Columns, Octets, Row, Text, TextError, Value};
use std::alloc::Global;

/// What a message tells, none where it is passed over; or why it is refused.
type Reply = Result<Option<News>, WireError>;

fn acknowledged_if(place: u64, right: bool) -> Reply
    ensures { result ≡ acknowledged_if right place }
{
    if right {
        Ok(Some(News::Acknowledged))
    } else {
        Err(WireError::BadReply { place })
    }
}

fn authentication(place: u64, kind: u8, payload: &[u8]) -> Reply
    ensures { Answers result (authentication place kind payload.now) }
{
    if kind != b'R' {
        return Err(WireError::BadReply { place });
    }
    match u32_at(payload) {
        Ok((0, rest)) => acknowledged_if(place, rest.is_empty()),
        Ok((code, _)) => Err(WireError::AuthWanted { code }),
        Err(ReadError::OutOfMemory) => Err(WireError::OutOfMemory),
        Err(ReadError::Wrong { left: _ }) => Err(WireError::BadReply { place }),
    }
}

fn ready(place: u64, kind: u8, payload: &[u8]) -> Reply
    ensures { Answers result (ready place kind payload.now) }
{
    acknowledged_if(place, kind == b'Z' && payload.len() == 1)
}

fn started(place: u64, kind: u8, payload: &[u8]) -> Reply
    ensures { Answers result (started place kind payload.now) }
{
    match kind {
        b'K' => Ok(None),
        _ => ready(place, kind, payload),
    }
}

fn completed(alloc: Global, place: u64, kind: u8, payload: &[u8]) -> Reply
    ensures { Answers result (completed place kind payload.now) }
{
    if kind != b'C' {
        return Err(WireError::BadReply { place });
    }
    match text_of(alloc, payload) {
        Ok(_) => Ok(Some(News::Acknowledged)),
        Err(ReadError::OutOfMemory) => Err(WireError::OutOfMemory),
        Err(ReadError::Wrong { left: _ }) => Err(WireError::BadReply { place }),
    }
}

/// The bytes as a text.
fn text_in(place: u64, bytes: Octets) -> Result<Text, WireError>
    ensures { Answers result (text_at place bytes) }
{
    match Text::from_bytes(bytes.into_vec()) {
        Ok(text) => Ok(text),
        Err(_) => Err(WireError::NotUtf8 { place }),
    }
}

/// The columns that fields describe.
fn columns_of(alloc: Global, place: u64, fields: Vec<Field>) -> Result<Columns, WireError>
    ensures { Answers result (columns_of place fields.items) }
{
    let mut columns = Columns::new(alloc);
    for field in fields {
        let name = text_in(place, field.name)?;
        let oid = field.oid;
        columns.push(Column { name, oid })?;
    }
    Ok(columns)
}

fn one_column(alloc: Global, place: u64, fields: Vec<Field>) -> Reply
    ensures { Answers result (one_column place fields.items) }
{
    if fields.as_slice().len() != 1 {
        return Err(WireError::BadReply { place });
    }
    match columns_of(alloc, place, fields) {
        Ok(_) => Ok(Some(News::Acknowledged)),
        Err(error) => Err(error),
    }
}

fn snapshot_column(alloc: Global, place: u64, kind: u8, payload: &[u8]) -> Reply
    ensures { Answers result (snapshot_column place kind payload.now) }
{
    if kind != b'T' {
        return Err(WireError::BadReply { place });
    }
    match row_description_of(alloc, payload) {
        Ok(fields) => one_column(alloc, place, fields),
        Err(ReadError::OutOfMemory) => Err(WireError::OutOfMemory),
        Err(ReadError::Wrong { left: _ }) => Err(WireError::BadReply { place }),
    }
}

fn are_of_table(table: u32, fields: &[Field]) -> bool
    ensures { result ≡ list_all (of_table table) fields.now }
{
    fields.iter().all(|f| f.table == table && f.format == 0)
}

/// The table's OID, where there is a field, and all fields are of one table and in the format for text.
fn table_of(fields: &[Field]) -> Option<u32>
    ensures { result ≡ table_of fields.now }
{
    match fields {
        [] => None,
        [first, ..] => {
            let table = first.table;
            if table != 0 && are_of_table(table, fields) {
                Some(table)
            } else {
                None
            }
        }
    }
}

fn described(alloc: Global, place: u64, fields: Vec<Field>) -> Reply
    ensures { Answers result (described place fields.items) }
{
    let Some(oid) = table_of(fields.as_slice()) else {
        return Err(WireError::BadReply { place });
    };
    match columns_of(alloc, place, fields) {
        Ok(columns) => Ok(Some(News::Described { oid, columns })),
        Err(error) => Err(error),
    }
}

fn table_columns(alloc: Global, place: u64, kind: u8, payload: &[u8]) -> Reply
    ensures { Answers result (table_columns place kind payload.now) }
{
    if kind != b'T' {
        return Err(WireError::BadReply { place });
    }
    match row_description_of(alloc, payload) {
        Ok(fields) => described(alloc, place, fields),
        Err(ReadError::OutOfMemory) => Err(WireError::OutOfMemory),
        Err(ReadError::Wrong { left: _ }) => Err(WireError::BadReply { place }),
    }
}

fn value_of(place: u64, sent: Sent) -> Result<Value, WireError>
    ensures { Answers result (value_at place sent) }
{
    match sent {
        Sent::Null => Ok(Value::Null),
        Sent::Chars(bytes) => Ok(Value::Words(text_in(place, bytes)?)),
    }
}

/// The row of these values.
fn row_of(alloc: Global, place: u64, values: Vec<Sent>) -> Result<Row, WireError>
    ensures { Answers result (values_of place values.items) }
{
    let mut row = Row::new(alloc);
    for sent in values {
        row.push(value_of(place, sent)?)?;
    }
    Ok(row)
}

fn row_with(alloc: Global, place: u64, values: Vec<Sent>) -> Reply
    ensures { Answers result (row_with place (Ok values.items)) }
{
    match row_of(alloc, place, values) {
        Ok(row) => Ok(Some(News::Row(row))),
        Err(error) => Err(error),
    }
}

fn data_row_reply(alloc: Global, place: u64, payload: &[u8]) -> Reply
    ensures { Answers result (row_with place (whole data_row payload.now)) }
{
    match data_row_of(alloc, payload) {
        Ok(values) => row_with(alloc, place, values),
        Err(ReadError::OutOfMemory) => Err(WireError::OutOfMemory),
        Err(ReadError::Wrong { left: _ }) => Err(WireError::BadReply { place }),
    }
}

fn table_row(alloc: Global, place: u64, kind: u8, payload: &[u8]) -> Reply
    ensures { Answers result (table_row place kind payload.now) }
{
    match kind {
        b'D' => data_row_reply(alloc, place, payload),
        _ => completed(alloc, place, kind, payload),
    }
}

/// The text of the one value, which is not null.
fn shown(place: u64, mut values: Vec<Sent>) -> Reply
    ensures { Answers result (text_with place (Ok values.items)) }
{
    if values.len() != 1 {
        return Err(WireError::BadReply { place });
    }
    match values.pop() {
        Some(Sent::Chars(bytes)) => match text_in(place, bytes) {
            Ok(text) => Ok(Some(News::Shown(text))),
            Err(error) => Err(error),
        },
        _ => Err(WireError::BadReply { place }),
    }
}

fn snapshot_text(alloc: Global, place: u64, kind: u8, payload: &[u8]) -> Reply
    ensures { Answers result (snapshot_text place kind payload.now) }
{
    if kind != b'D' {
        return Err(WireError::BadReply { place });
    }
    match data_row_of(alloc, payload) {
        Ok(values) => shown(place, values),
        Err(ReadError::OutOfMemory) => Err(WireError::OutOfMemory),
        Err(ReadError::Wrong { left: _ }) => Err(WireError::BadReply { place }),
    }
}

fn error_response(alloc: Global, place: u64, payload: &[u8]) -> WireError
    ensures { (result ≡ WireError.OutOfMemory) ⊎ (result ≡ error_response place payload.now) }
{
    let Some(code) = sqlstate_at(payload) else {
        return WireError::BadReply { place };
    };
    match Text::read(alloc, code) {
        Ok(sqlstate) => WireError::ErrorResponse { sqlstate },
        Err(TextError::NotUtf8 { place: _ }) => WireError::BadReply { place },
        Err(TextError::OutOfMemory) => WireError::OutOfMemory,
    }
}

/// What the message tells the client that waits for this one.
fn reply_to(alloc: Global, wanted: Wanted, place: u64, kind: u8, payload: &[u8]) -> Reply
    ensures { Answers result (reply_to wanted place kind payload.now) }
{
    match wanted {
        Wanted::Authentication => authentication(place, kind, payload),
        Wanted::Started => started(place, kind, payload),
        Wanted::Completed => completed(alloc, place, kind, payload),
        Wanted::Ready => ready(place, kind, payload),
        Wanted::SnapshotColumn => snapshot_column(alloc, place, kind, payload),
        Wanted::SnapshotText => snapshot_text(alloc, place, kind, payload),
        Wanted::TableColumns => table_columns(alloc, place, kind, payload),
        Wanted::TableRow => table_row(alloc, place, kind, payload),
        Wanted::CopyBoth => acknowledged_if(place, kind == b'W' && is_copy_both(payload)),
    }
}

/// What a message tells the client that waits for this one, none where it is passed over.
#[tactic(auto, unfolding(crate::specs::Replies::reply))]
pub(crate) fn reply(alloc: Global, wanted: Wanted, place: u64, kind: u8, payload: &[u8]) -> Reply
    ensures { Answers result (reply wanted place kind payload.now) }
{
    match kind {
        b'S' | b'N' => Ok(None),
        b'E' => Err(error_response(alloc, place, payload)),
        _ => reply_to(alloc, wanted, place, kind, payload),
    }
}
