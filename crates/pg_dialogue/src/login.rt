//! Who asks, and what a snapshot begins with.
use shape_base::{Columns, Text};

/// Who asks the database for what.
#[derive(Drop)]
pub struct Login {
    /// Where the database listens. It is for the dialer alone.
    pub address: Text,
    /// The user's name.
    pub user: Text,
    /// The name of the database.
    pub database: Text,
    /// The name of the replication slot.
    pub slot: Text,
    /// The name of the publication.
    pub publication: Text,
}

/// What a snapshot says before its rows.
#[derive(Drop)]
pub struct SnapHead {
    /// Which transactions it shows, as the text of `pg_current_snapshot()`; empty where only the table was described.
    pub vis: Text,
    /// The table's OID.
    pub oid: u32,
    /// The names and types of its columns, in the table's order.
    pub columns: Columns,
}
