//! The writing of messages.
ghost use Rattle.std.specs.Prelude.{◌≡◌, ◌++◌, ◌∷◌, IfOk, OnOk};
ghost use Rattle.byte_format.specs.Format.{chunk, counted, after, ◌&◌};
ghost use Rattle.pgout.specs.Grammar.{Fits, spelled, tuple, column, begin, logical, commit, origin, relation, type_name, insert, truncate};

use crate::message::{Before, ColumnSent, Field, Message};
use byte_format::{put_chunk, put_list, put_string, put_u16, put_u32, put_u64};
use bytes::Bytes;
use shape_base::OutOfMemory;
use std::alloc::{AllocError, Global};

/// A byte that says which row it is, and the row.
fn put_row(out: &mut Vec<u8>, tag: u8, row: &[Field]) -> Result<(), AllocError>
    requires { tuple.Fits row.now }
    ensures { OnOk result (out.new.items ≡ out.old.items ++ tag ∷ tuple.spell row.now) }
{
    out.push(tag)?;
    put_u16(out, row.len() as u16)?;
    put_list(out, row)
}

/// The old row behind its tag, and the new one behind `N`.
fn put_rows(out: &mut Vec<u8>, tag: u8, old: &[Field], row: &[Field]) -> Result<(), AllocError>
    requires { (tuple & after 78 tuple).Fits (old.now, row.now) }
    ensures { OnOk result (out.new.items ≡ out.old.items ++ tag ∷ (tuple & after 78 tuple).spell (old.now, row.now)) }
{
    put_row(out, tag, old)?;
    put_row(out, b'N', row)
}

fn put_columns(out: &mut Vec<u8>, columns: &[ColumnSent]) -> Result<(), AllocError>
    requires { (counted column).Fits columns.now }
    ensures { OnOk result (out.new.items ≡ out.old.items ++ (counted column).spell columns.now) }
{
    put_u16(out, columns.len() as u16)?;
    put_list(out, columns)
}

fn put_begin(out: &mut Vec<u8>, lsn: u64, time: u64, xid: u32) -> Result<(), AllocError>
    ensures { OnOk result (out.new.items ≡ out.old.items ++ 66 ∷ begin.spell (lsn, (time, xid))) }
{
    out.push(b'B')?;
    put_u64(out, lsn)?;
    put_u64(out, time)?;
    put_u32(out, xid)
}

fn put_logical(
    out: &mut Vec<u8>,
    flags: u8,
    lsn: u64,
    prefix: &[u8],
    content: &[u8],
) -> Result<(), AllocError>
    requires { chunk.Fits content.now }
    ensures { OnOk result (out.new.items ≡ out.old.items ++ 77 ∷ logical.spell (flags, (lsn, (prefix.now, content.now)))) }
{
    out.push(b'M')?;
    out.push(flags)?;
    put_u64(out, lsn)?;
    put_string(out, prefix)?;
    put_chunk(out, content)
}

fn put_commit(out: &mut Vec<u8>, flags: u8, lsn: u64, end: u64, time: u64) -> Result<(), AllocError>
    ensures { OnOk result (out.new.items ≡ out.old.items ++ 67 ∷ commit.spell (flags, (lsn, (end, time)))) }
{
    out.push(b'C')?;
    out.push(flags)?;
    put_u64(out, lsn)?;
    put_u64(out, end)?;
    put_u64(out, time)
}

fn put_origin(out: &mut Vec<u8>, lsn: u64, name: &[u8]) -> Result<(), AllocError>
    ensures { OnOk result (out.new.items ≡ out.old.items ++ 79 ∷ origin.spell (lsn, name.now)) }
{
    out.push(b'O')?;
    put_u64(out, lsn)?;
    put_string(out, name)
}

fn put_relation(
    out: &mut Vec<u8>,
    oid: u32,
    ns: &[u8],
    name: &[u8],
    identity: u8,
    columns: &[ColumnSent],
) -> Result<(), AllocError>
    requires { (counted column).Fits columns.now }
    ensures { OnOk result (out.new.items ≡ out.old.items ++ 82 ∷ relation.spell (oid, (ns.now, (name.now, (identity, columns.now))))) }
{
    out.push(b'R')?;
    put_u32(out, oid)?;
    put_string(out, ns)?;
    put_string(out, name)?;
    out.push(identity)?;
    put_columns(out, columns)
}

fn put_type_name(out: &mut Vec<u8>, oid: u32, ns: &[u8], name: &[u8]) -> Result<(), AllocError>
    ensures { OnOk result (out.new.items ≡ out.old.items ++ 89 ∷ type_name.spell (oid, (ns.now, name.now))) }
{
    out.push(b'Y')?;
    put_u32(out, oid)?;
    put_string(out, ns)?;
    put_string(out, name)
}

fn put_insert(out: &mut Vec<u8>, oid: u32, row: &[Field]) -> Result<(), AllocError>
    requires { tuple.Fits row.now }
    ensures { OnOk result (out.new.items ≡ out.old.items ++ 73 ∷ insert.spell (oid, row.now)) }
{
    out.push(b'I')?;
    put_u32(out, oid)?;
    put_row(out, b'N', row)
}

fn put_update(out: &mut Vec<u8>, oid: u32, before: &Before, row: &[Field]) -> Result<(), AllocError>
    requires { Fits (Message.Update oid before.now row.now) }
    ensures { OnOk result (out.new.items ≡ out.old.items ++ spelled (Message.Update oid before.now row.now)) }
{
    out.push(b'U')?;
    put_u32(out, oid)?;
    match before {
        Before::Absent => put_row(out, b'N', row),
        Before::Key(old) => put_rows(out, b'K', old.as_slice(), row),
        Before::Whole(old) => put_rows(out, b'O', old.as_slice(), row),
    }
}

fn put_delete(out: &mut Vec<u8>, oid: u32, before: &Before) -> Result<(), AllocError>
    requires { Fits (Message.Delete oid before.now) }
    ensures { OnOk result (out.new.items ≡ out.old.items ++ spelled (Message.Delete oid before.now)) }
{
    out.push(b'D')?;
    put_u32(out, oid)?;
    match before {
        // It has no bytes, so the condition of this function rules it out.
        Before::Absent => Ok(()),
        Before::Key(old) => put_row(out, b'K', old.as_slice()),
        Before::Whole(old) => put_row(out, b'O', old.as_slice()),
    }
}

fn put_truncate(out: &mut Vec<u8>, options: u8, oids: &[u32]) -> Result<(), AllocError>
    requires { truncate.Fits (options, oids.now) }
    ensures { OnOk result (out.new.items ≡ out.old.items ++ 84 ∷ truncate.spell (options, oids.now)) }
{
    out.push(b'T')?;
    put_u32(out, oids.len() as u32)?;
    out.push(options)?;
    put_list(out, oids)
}

fn put_message(out: &mut Vec<u8>, message: &Message) -> Result<(), AllocError>
    requires { Fits message.now }
    ensures { OnOk result (out.new.items ≡ out.old.items ++ spelled message.now) }
{
    match message {
        Message::Begin { lsn, time, xid } => put_begin(out, *lsn, *time, *xid),
        Message::Logical {
            flags,
            lsn,
            prefix,
            content,
        } => put_logical(out, *flags, *lsn, prefix.as_slice(), content.as_slice()),
        Message::Commit {
            flags,
            lsn,
            end,
            time,
        } => put_commit(out, *flags, *lsn, *end, *time),
        Message::Origin { lsn, name } => put_origin(out, *lsn, name.as_slice()),
        Message::Relation {
            oid,
            ns,
            name,
            identity,
            columns,
        } => put_relation(
            out,
            *oid,
            ns.as_slice(),
            name.as_slice(),
            *identity,
            columns.as_slice(),
        ),
        Message::TypeName { oid, ns, name } => {
            put_type_name(out, *oid, ns.as_slice(), name.as_slice())
        }
        Message::Insert { oid, row } => put_insert(out, *oid, row.as_slice()),
        Message::Update { oid, before, row } => put_update(out, *oid, before, row.as_slice()),
        Message::Delete { oid, before } => put_delete(out, *oid, before),
        Message::Truncate { options, oids } => put_truncate(out, *options, oids.as_slice()),
    }
}

/// The one spelling of a message, which `read_message` reads as this message. Each message that `read_message` gives may be written.
pub fn write_message(alloc: Global, message: &Message) -> Result<Bytes, OutOfMemory>
    requires { Fits message.now }
    ensures { IfOk result (λ bytes. bytes ≡ spelled message.now) }
{
    let mut out = Vec::new(alloc);
    put_message(&mut out, message)?;
    Ok(Bytes::from_vec(out)?)
}
