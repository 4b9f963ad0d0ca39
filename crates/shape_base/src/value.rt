//! Values, rows and lists of rows.
ghost use Rattle.std.specs.Prelude.{◌≡◌, IfOk};

use super::memory::{Duplicate, OutOfMemory};
use super::seq::Seq;
use super::text::Text;
use std::alloc::Global;

/// A value of a column, in PostgreSQL's text format.
#[derive(PartialEq, Eq, Drop)]
pub enum Value {
    Null,
    Words(Text),
}

/// The values of a row, in the order of its definition's columns.
pub type Row = Seq<Value>;

/// Rows of one table.
pub type Rows = Seq<Row>;

/// The rows of each served table, in the order of the served tables.
pub type Tables = Seq<Rows>;

impl Duplicate for Value {
    fn copy(&self, alloc: Global) -> Result<Value, OutOfMemory> {
        match self {
            Value::Null => Ok(Value::Null),
            Value::Words(text) => Ok(Value::Words(text.copy(alloc)?)),
        }
    }
}
