//! Snapshots of served tables.
use shape_base::{Rows, TableDef};
use snapshot_merge::Vis;

/// A snapshot of a served table: which transactions it shows, and the table's definition and rows in it.
#[derive(Drop)]
pub struct Snapshot {
    pub visibility: Vis,
    pub definition: TableDef,
    pub rows: Rows,
}
