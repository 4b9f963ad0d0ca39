//! What a core is started with.
use shape_base::{Limits, ServedTables, TableDefs, Text};

/// The limits of a server, its run's name, its served tables, and their definitions, each in its table's place.
#[derive(Drop)]
pub struct Options {
    pub limits: Limits,
    pub run: Text,
    pub tables: ServedTables,
    pub defs: TableDefs,
}
