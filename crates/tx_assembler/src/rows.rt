//! Rows from the fields of a message.
ghost use Rattle.std.specs.Prelude.{◌≡◌, ◌<◌, length, slice_get};
ghost use Rattle.tx_assembler.specs.Answers.{Gives};
ghost use Rattle.tx_assembler.specs.Rows.{text_of, value_before, value_of, values_of, row_of};

use super::answer::AssembleError;
use pgout::{Field, Fields};
use shape_base::{Duplicate, Octets, OutOfMemory, Row, Text, Value};
use std::alloc::Global;

/// The text of bytes, which are taken over and not copied.
pub(crate) fn text_of(bytes: Octets) -> Result<Text, AssembleError>
    ensures { Gives result (text_of bytes) }
{
    match Text::from_bytes(bytes.into_vec()) {
        Ok(text) => Ok(text),
        Err(error) => Err(AssembleError::NotUtf8 { place: error.place }),
    }
}

/// The value that a row had before in this column.
fn value_before(alloc: Global, before: &[Value], column: u32) -> Result<Value, AssembleError>
    ensures { Gives result (value_before column (slice_get before.now column)) }
{
    match before.get(column as usize) {
        Some(value) => Ok(value.copy(alloc)?),
        None => Err(AssembleError::UnsentValue { column }),
    }
}

/// The value of a field, where the row before it had these values.
fn value_of(
    alloc: Global,
    before: &[Value],
    column: u32,
    field: Field,
) -> Result<Value, AssembleError>
    ensures { Gives result (value_of before.now column field) }
{
    match field {
        Field::Null => Ok(Value::Null),
        Field::Unsent => value_before(alloc, before, column),
        Field::Chars(bytes) => Ok(Value::Words(text_of(bytes)?)),
        Field::Binary(_) => Err(AssembleError::BinaryColumn { column }),
    }
}

/// The values of fields, column by column.
fn values_of(alloc: Global, before: &[Value], fields: Fields) -> Result<Row, AssembleError>
    requires { length fields < 65536 }
    ensures { Gives result (values_of before.now 0 fields) }
{
    let mut row = Row::new(alloc);
    let mut column = 0;
    for field in fields.into_vec() {
        row.push(value_of(alloc, before, column, field)?)?;
        column += 1;
    }
    Ok(row)
}

/// The row of these fields under a relation of so many columns, where the row before it had these values: none for an inserted or an old row.
pub(crate) fn row_of(
    alloc: Global,
    width: u64,
    before: &[Value],
    fields: Fields,
) -> Result<Row, AssembleError>
    requires { length fields < 65536 }
    ensures { Gives result (row_of width before.now fields) }
{
    if fields.len() != width {
        let have = fields.len() as u16;
        let want = u16::try_from(width).map_err(|_| OutOfMemory)?;
        return Err(AssembleError::WrongWidth { have, want });
    }
    values_of(alloc, before, fields)
}
