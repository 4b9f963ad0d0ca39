//! The messages.
use shape_base::{Octets, Oids, Seq};

/// A column of a relation, as a Relation message sends it.
#[derive(PartialEq, Eq, Drop)]
pub struct ColumnSent {
    /// 1 where the column is part of the key, else 0. Any value is kept.
    pub flags: u8,
    /// The name, without its zero byte.
    pub name: Octets,
    /// The object identifier of the column's type.
    pub oid: u32,
    /// The type modifier, as its 32 bits.
    pub modifier: u32,
}

/// The columns of a relation, from left to right.
pub type ColumnsSent = Seq<ColumnSent>;

/// A column of a row, as TupleData sends it.
#[derive(PartialEq, Eq, Drop)]
pub enum Field {
    /// The value is null.
    Null,
    /// The value is stored out of line and did not change, so it was not sent.
    Unsent,
    /// The value in text format.
    Chars(Octets),
    /// The value in binary format.
    Binary(Octets),
}

/// The columns of a row, from left to right.
pub type Fields = Seq<Field>;

/// What an Update or a Delete sends of the row as it was.
#[derive(PartialEq, Eq, Drop)]
pub enum Before {
    /// Nothing.
    Absent,
    /// The old key; the other columns are null.
    Key(Fields),
    /// The whole old row, under replica identity full.
    Whole(Fields),
}

/// A message of the stream.
#[derive(PartialEq, Eq, Drop)]
pub enum Message {
    /// A transaction begins.
    Begin {
        /// The final LSN of the transaction, which is the LSN of its Commit.
        lsn: u64,
        /// When it was committed, in microseconds since 2000-01-01, as its 64 bits.
        time: u64,
        /// The transaction's id.
        xid: u32,
    },
    /// A logical decoding message.
    Logical {
        /// 1 where the message is transactional, else 0. Any value is kept.
        flags: u8,
        /// The LSN of the message.
        lsn: u64,
        /// The prefix, without its zero byte.
        prefix: Octets,
        /// The content.
        content: Octets,
    },
    /// A transaction ends.
    Commit {
        /// Unused; any value is kept.
        flags: u8,
        /// The LSN of the commit.
        lsn: u64,
        /// The end LSN of the transaction.
        end: u64,
        /// When it was committed, in microseconds since 2000-01-01, as its 64 bits.
        time: u64,
    },
    /// The transaction came from another server.
    Origin {
        /// The LSN of the commit on the origin server.
        lsn: u64,
        /// The origin's name, without its zero byte.
        name: Octets,
    },
    /// The definition of a table, which stands before its first change.
    Relation {
        /// The table's object identifier.
        oid: u32,
        /// The namespace, empty for `pg_catalog`.
        ns: Octets,
        /// The table's name.
        name: Octets,
        /// The replica identity, as `relreplident` of `pg_class`. Any value is kept.
        identity: u8,
        /// The columns.
        columns: ColumnsSent,
    },
    /// The name of a data type, which stands before the first Relation that uses it.
    TypeName {
        /// The type's object identifier.
        oid: u32,
        /// The namespace, empty for `pg_catalog`.
        ns: Octets,
        /// The type's name.
        name: Octets,
    },
    /// A row was inserted.
    Insert {
        /// The table's object identifier.
        oid: u32,
        /// The new row.
        row: Fields,
    },
    /// A row was updated.
    Update {
        /// The table's object identifier.
        oid: u32,
        /// What is sent of the old row.
        before: Before,
        /// The new row.
        row: Fields,
    },
    /// A row was deleted.
    Delete {
        /// The table's object identifier.
        oid: u32,
        /// What is sent of the old row. A Delete without it has no bytes.
        before: Before,
    },
    /// Tables were truncated.
    Truncate {
        /// 1 for CASCADE, 2 for RESTART IDENTITY. Any value is kept.
        options: u8,
        /// The tables' object identifiers.
        oids: Oids,
    },
}
