//! Readers of what follows the first byte of a message, one for each kind.
ghost use Rattle.byte_format.specs.Format.{Gives, mapped, counted, after, ◌&◌};
ghost use Rattle.pgout.specs.Grammar.{tuple, column, begin, logical, commit, origin, relation, type_name, insert, update, delete, truncate, made_begin, made_logical, made_commit, made_origin, made_relation, made_type_name, made_insert, made_update, made_delete, made_truncate};

use crate::message::{Before, ColumnSent, ColumnsSent, Field, Fields, Message};
use byte_format::{ReadError, after, chunk_of, list_of, string_of, u8_at, u16_at, u32_at, u64_at};
use shape_base::{Octets, Oids};
use std::alloc::Global;

pub(crate) fn begin_of(bytes: &[u8]) -> Result<(Message, &[u8]), ReadError>
    ensures { Gives (λ x. (x.0, x.1.now)) result (mapped made_begin (begin.read bytes.now)) }
{
    let (lsn, rest) = u64_at(bytes)?;
    let (time, rest) = u64_at(rest)?;
    let (xid, rest) = u32_at(rest)?;
    Ok((Message::Begin { lsn, time, xid }, rest))
}

pub(crate) fn logical_of(alloc: Global, bytes: &[u8]) -> Result<(Message, &[u8]), ReadError>
    ensures { Gives (λ x. (x.0, x.1.now)) result (mapped made_logical (logical.read bytes.now)) }
{
    let (flags, rest) = u8_at(bytes)?;
    let (lsn, rest) = u64_at(rest)?;
    let (prefix, rest) = string_of(alloc, rest)?;
    let (content, rest) = chunk_of(alloc, rest)?;
    let logical = Message::Logical {
        flags,
        lsn,
        prefix: Octets::from_vec(prefix),
        content: Octets::from_vec(content),
    };
    Ok((logical, rest))
}

pub(crate) fn commit_of(bytes: &[u8]) -> Result<(Message, &[u8]), ReadError>
    ensures { Gives (λ x. (x.0, x.1.now)) result (mapped made_commit (commit.read bytes.now)) }
{
    let (flags, rest) = u8_at(bytes)?;
    let (lsn, rest) = u64_at(rest)?;
    let (end, rest) = u64_at(rest)?;
    let (time, rest) = u64_at(rest)?;
    let commit = Message::Commit {
        flags,
        lsn,
        end,
        time,
    };
    Ok((commit, rest))
}

pub(crate) fn origin_of(alloc: Global, bytes: &[u8]) -> Result<(Message, &[u8]), ReadError>
    ensures { Gives (λ x. (x.0, x.1.now)) result (mapped made_origin (origin.read bytes.now)) }
{
    let (lsn, rest) = u64_at(bytes)?;
    let (name, rest) = string_of(alloc, rest)?;
    let name = Octets::from_vec(name);
    Ok((Message::Origin { lsn, name }, rest))
}

fn columns_of(alloc: Global, bytes: &[u8]) -> Result<(ColumnsSent, &[u8]), ReadError>
    ensures { Gives (λ x. (x.0, x.1.now)) result ((counted column).read bytes.now) }
{
    let (count, rest) = u16_at(bytes)?;
    let (columns, rest) = list_of::<ColumnSent>(alloc, count as u64, rest)?;
    Ok((ColumnsSent::from_vec(columns), rest))
}

pub(crate) fn relation_of(alloc: Global, bytes: &[u8]) -> Result<(Message, &[u8]), ReadError>
    ensures { Gives (λ x. (x.0, x.1.now)) result (mapped made_relation (relation.read bytes.now)) }
{
    let (oid, rest) = u32_at(bytes)?;
    let (ns, rest) = string_of(alloc, rest)?;
    let (name, rest) = string_of(alloc, rest)?;
    let (identity, rest) = u8_at(rest)?;
    let (columns, rest) = columns_of(alloc, rest)?;
    let relation = Message::Relation {
        oid,
        ns: Octets::from_vec(ns),
        name: Octets::from_vec(name),
        identity,
        columns,
    };
    Ok((relation, rest))
}

pub(crate) fn type_name_of(alloc: Global, bytes: &[u8]) -> Result<(Message, &[u8]), ReadError>
    ensures { Gives (λ x. (x.0, x.1.now)) result (mapped made_type_name (type_name.read bytes.now)) }
{
    let (oid, rest) = u32_at(bytes)?;
    let (ns, rest) = string_of(alloc, rest)?;
    let (name, rest) = string_of(alloc, rest)?;
    let ns = Octets::from_vec(ns);
    let name = Octets::from_vec(name);
    Ok((Message::TypeName { oid, ns, name }, rest))
}

fn fields_of(alloc: Global, bytes: &[u8]) -> Result<(Fields, &[u8]), ReadError>
    ensures { Gives (λ x. (x.0, x.1.now)) result (tuple.read bytes.now) }
{
    let (count, rest) = u16_at(bytes)?;
    let (fields, rest) = list_of::<Field>(alloc, count as u64, rest)?;
    Ok((Fields::from_vec(fields), rest))
}

pub(crate) fn insert_of(alloc: Global, bytes: &[u8]) -> Result<(Message, &[u8]), ReadError>
    ensures { Gives (λ x. (x.0, x.1.now)) result (mapped made_insert (insert.read bytes.now)) }
{
    let (oid, rest) = u32_at(bytes)?;
    let rest = after(b'N', rest)?;
    let (row, rest) = fields_of(alloc, rest)?;
    Ok((Message::Insert { oid, row }, rest))
}

/// The old row and, behind `N`, the new one.
fn rows_of(alloc: Global, bytes: &[u8]) -> Result<((Fields, Fields), &[u8]), ReadError>
    ensures { Gives (λ x. ((x.0.0, x.0.1), x.1.now)) result ((tuple & after 78 tuple).read bytes.now) }
{
    let (old, rest) = fields_of(alloc, bytes)?;
    let rest = after(b'N', rest)?;
    let (row, rest) = fields_of(alloc, rest)?;
    Ok(((old, row), rest))
}

pub(crate) fn update_of(alloc: Global, bytes: &[u8]) -> Result<(Message, &[u8]), ReadError>
    ensures { Gives (λ x. (x.0, x.1.now)) result (mapped made_update (update.read bytes.now)) }
{
    let (oid, rest) = u32_at(bytes)?;
    match rest {
        [b'K', rest @ ..] => {
            let ((old, row), rest) = rows_of(alloc, rest)?;
            let before = Before::Key(old);
            Ok((Message::Update { oid, before, row }, rest))
        }
        [b'O', rest @ ..] => {
            let ((old, row), rest) = rows_of(alloc, rest)?;
            let before = Before::Whole(old);
            Ok((Message::Update { oid, before, row }, rest))
        }
        [b'N', rest @ ..] => {
            let (row, rest) = fields_of(alloc, rest)?;
            let before = Before::Absent;
            Ok((Message::Update { oid, before, row }, rest))
        }
        _ => Err(ReadError::Wrong { left: rest.len() }),
    }
}

pub(crate) fn delete_of(alloc: Global, bytes: &[u8]) -> Result<(Message, &[u8]), ReadError>
    ensures { Gives (λ x. (x.0, x.1.now)) result (mapped made_delete (delete.read bytes.now)) }
{
    let (oid, rest) = u32_at(bytes)?;
    match rest {
        [b'K', rest @ ..] => {
            let (old, rest) = fields_of(alloc, rest)?;
            let before = Before::Key(old);
            Ok((Message::Delete { oid, before }, rest))
        }
        [b'O', rest @ ..] => {
            let (old, rest) = fields_of(alloc, rest)?;
            let before = Before::Whole(old);
            Ok((Message::Delete { oid, before }, rest))
        }
        _ => Err(ReadError::Wrong { left: rest.len() }),
    }
}

pub(crate) fn truncate_of(alloc: Global, bytes: &[u8]) -> Result<(Message, &[u8]), ReadError>
    ensures { Gives (λ x. (x.0, x.1.now)) result (mapped made_truncate (truncate.read bytes.now)) }
{
    let (count, rest) = u32_at(bytes)?;
    let (options, rest) = u8_at(rest)?;
    let (oids, rest) = list_of::<u32>(alloc, count as u64, rest)?;
    let oids = Oids::from_vec(oids);
    Ok((Message::Truncate { options, oids }, rest))
}
