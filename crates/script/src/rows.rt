//! Rows.
ghost use Rattle.byte_format.specs.Format.{Gives};
ghost use Rattle.script.specs.Rows.{value_at, row_at, rows_at};

use crate::lists::{Part, parts_at};
use crate::texts::long_text_of;
use byte_format::{ReadError, u16_at, u32_at};
use shape_base::{Row, Rows, Seq, Value};
use std::alloc::Global;

/// The rows of a served table at the start.
#[derive(Drop)]
pub struct StartRows {
    /// The place of the table among the declared ones.
    pub table: u16,
    pub rows: Rows,
}

impl Part for Value {
    ghost read = { value_at };

    fn part_at(alloc: Global, bytes: &[u8]) -> Result<(Value, &[u8]), ReadError> {
        match bytes {
            [b'n', rest @ ..] => Ok((Value::Null, rest)),
            [b't', rest @ ..] => {
                let (words, rest) = long_text_of(alloc, rest)?;
                Ok((Value::Words(words), rest))
            }
            _ => Err(ReadError::Wrong { left: 0 }),
        }
    }
}

impl Part for Row {
    ghost read = { row_at };

    fn part_at(alloc: Global, bytes: &[u8]) -> Result<(Row, &[u8]), ReadError> {
        let (count, rest) = u16_at(bytes)?;
        let (values, rest) = parts_at::<Value>(alloc, u64::from(count), rest)?;
        Ok((Seq::from_vec(values), rest))
    }
}

/// A count and that many rows, and the bytes after them.
pub fn rows_of(alloc: Global, bytes: &[u8]) -> Result<(Rows, &[u8]), ReadError>
    ensures { Gives (λ x. (x.0, x.1.now)) result (rows_at bytes.now) }
{
    let (count, rest) = u32_at(bytes)?;
    let (rows, rest) = parts_at::<Row>(alloc, u64::from(count), rest)?;
    Ok((Seq::from_vec(rows), rest))
}
