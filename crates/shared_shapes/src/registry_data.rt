//! What a registry's lock is made with.
use lock_events::Trace;
use shape_base::{Limits, ServedTables, TableDefs, Text};
use std::snapshot::Snapshot;

/// What no event of a registry changes: the limits, the name of its run, the served tables and their first definitions, and the list of the LSNs of the commits that it
/// takes. No program reads a value of it.
#[derive(Drop)]
pub struct RegistryData {
    pub limits: Limits,
    pub run: Snapshot<Text>,
    pub tables: Snapshot<ServedTables>,
    pub definitions: Snapshot<TableDefs>,
    pub feed: Snapshot<Trace<u64>>,
}
