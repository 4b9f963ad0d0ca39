//! What the client waits for, and what a message tells.
use crate::login::SnapHead;
use shape_base::{Columns, Row, Text};

/// The message that the client waits for.
#[derive(Clone, Copy, PartialEq, Eq)]
pub(crate) enum Wanted {
    /// AuthenticationOk.
    Authentication,
    /// ReadyForQuery after the startup: BackendKeyData may stand before it.
    Started,
    /// CommandComplete.
    Completed,
    /// ReadyForQuery.
    Ready,
    /// RowDescription with the one column of `pg_current_snapshot()`.
    SnapshotColumn,
    /// DataRow with the text of `pg_current_snapshot()`.
    SnapshotText,
    /// RowDescription of a table.
    TableColumns,
    /// DataRow of the table, or CommandComplete after its last row.
    TableRow,
    /// CopyBothResponse.
    CopyBoth,
}

/// What a message tells that the client waited for.
#[derive(Drop)]
pub(crate) enum News {
    /// That it is done, and nothing besides.
    Acknowledged,
    /// Which transactions the snapshot shows.
    Shown(Text),
    /// The table's OID and columns.
    Described { oid: u32, columns: Columns },
    /// A row of the table.
    Row(Row),
}

/// What the messages told so far.
#[derive(Drop)]
pub(crate) struct Told {
    /// What the snapshot says before its rows.
    pub head: SnapHead,
    /// The last row.
    pub row: Option<Row>,
}
