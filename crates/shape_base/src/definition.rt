//! Definitions of tables.
ghost use Rattle.std.specs.Prelude.{◌≡◌, IfOk};

use super::memory::{Duplicate, OutOfMemory};
use super::seq::Seq;
use super::text::Text;
use std::alloc::Global;

/// A column: its name, and the OID of its type (PostgreSQL manual, 53.64 pg_type).
#[derive(PartialEq, Eq, Drop)]
pub struct Column {
    pub name: Text,
    pub oid: u32,
}

/// Columns in the order of their table.
pub type Columns = Seq<Column>;

/// A table as it is defined at some moment.
#[derive(PartialEq, Eq, Drop)]
pub struct TableDef {
    /// The place of the table among the served ones, from 0.
    pub table: u32,
    /// The OID of the table (PostgreSQL manual, 53.11 pg_class).
    pub oid: u32,
    pub columns: Columns,
}

/// Definitions; where they are the catalogue of the served tables, each stands in its table's place.
pub type TableDefs = Seq<TableDef>;

impl Duplicate for Column {
    fn copy(&self, alloc: Global) -> Result<Column, OutOfMemory> {
        Ok(Column {
            name: self.name.copy(alloc)?,
            oid: self.oid,
        })
    }
}

impl Duplicate for TableDef {
    fn copy(&self, alloc: Global) -> Result<TableDef, OutOfMemory> {
        Ok(TableDef {
            table: self.table,
            oid: self.oid,
            columns: self.columns.copy(alloc)?,
        })
    }
}
