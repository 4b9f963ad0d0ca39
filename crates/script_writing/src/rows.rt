//! Columns and rows.
ghost use Rattle.script_writing.specs.Outcomes.{Puts};
ghost use Rattle.script_writing.specs.Parts.{column, value, row, rows, short_list};

use crate::fault::WriteError;
use crate::parts::{
    Part, put_int32, put_long_list, put_long_text, put_raw, put_short_list, put_text,
};
use shape_base::{Column, Columns, Row, Rows, Value};

impl Part for Column {
    ghost spelling = { column };

    fn put(&self, out: &mut Vec<u8>) -> Result<(), WriteError> {
        put_text(out, &self.name)?;
        put_int32(out, u64::from(self.oid))?;
        Ok(())
    }
}

impl Part for Value {
    ghost spelling = { value };

    fn put(&self, out: &mut Vec<u8>) -> Result<(), WriteError> {
        match self {
            Value::Null => {
                put_raw(out, b"n")?;
                Ok(())
            }
            Value::Words(words) => {
                put_raw(out, b"t")?;
                put_long_text(out, words)?;
                Ok(())
            }
        }
    }
}

impl Part for Row {
    ghost spelling = { row };

    fn put(&self, out: &mut Vec<u8>) -> Result<(), WriteError> {
        put_short_list(out, self.as_slice())
    }
}

/// A count of two bytes, and the columns.
pub fn put_columns(out: &mut Vec<u8>, columns: &Columns) -> Result<(), WriteError>
    ensures { Puts result out.old.items out.new.items (short_list column columns.now) }
{
    put_short_list(out, columns.as_slice())
}

/// A count of four bytes, and the rows.
pub fn put_rows(out: &mut Vec<u8>, table: &Rows) -> Result<(), WriteError>
    ensures { Puts result out.old.items out.new.items (rows table.now) }
{
    put_long_list(out, table.as_slice())
}
