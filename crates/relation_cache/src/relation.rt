//! A relation.
use shape_base::{Columns, Duplicate, OutOfMemory, Text};
use std::alloc::Global;

/// A table as the stream describes it (PostgreSQL manual 55.9, message Relation).
#[derive(PartialEq, Eq, Drop)]
pub struct Relation {
    /// The table's object identifier.
    pub oid: u32,
    /// The namespace.
    pub ns: Text,
    /// The table's name.
    pub name: Text,
    /// The columns, from left to right.
    pub columns: Columns,
}

impl Duplicate for Relation {
    fn copy(&self, alloc: Global) -> Result<Relation, OutOfMemory> {
        Ok(Relation {
            oid: self.oid,
            ns: self.ns.copy(alloc)?,
            name: self.name.copy(alloc)?,
            columns: self.columns.copy(alloc)?,
        })
    }
}
