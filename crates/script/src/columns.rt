//! Columns.
ghost use Rattle.byte_format.specs.Format.{Gives};
ghost use Rattle.script.specs.Rows.{column_at, columns_at};

use crate::lists::{Part, parts_at};
use crate::texts::text_of;
use byte_format::{ReadError, u16_at, u32_at};
use shape_base::{Column, Columns, Seq};
use std::alloc::Global;

impl Part for Column {
    ghost read = { column_at };

    fn part_at(alloc: Global, bytes: &[u8]) -> Result<(Column, &[u8]), ReadError> {
        let (name, rest) = text_of(alloc, bytes)?;
        let (oid, rest) = u32_at(rest)?;
        Ok((Column { name, oid }, rest))
    }
}

/// A count and that many columns, and the bytes after them.
pub fn columns_of(alloc: Global, bytes: &[u8]) -> Result<(Columns, &[u8]), ReadError>
    ensures { Gives (λ x. (x.0, x.1.now)) result (columns_at bytes.now) }
{
    let (count, rest) = u16_at(bytes)?;
    let (columns, rest) = parts_at::<Column>(alloc, u64::from(count), rest)?;
    Ok((Seq::from_vec(columns), rest))
}
