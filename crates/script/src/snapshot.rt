//! Whole snapshots, and rows at the start.
ghost use Rattle.byte_format.specs.Format.{Gives};
ghost use Rattle.script.specs.Snapshots.{snapshot_at, start_at};

use crate::columns::columns_of;
use crate::rows::{StartRows, rows_of};
use crate::texts::text_of;
use byte_format::{ReadError, u16_at, u32_at};
use core_events::Event;
use pg_dialogue::SnapHead;
use std::alloc::Global;

/// A whole snapshot, and the bytes after it.
pub fn snapshot_of(alloc: Global, bytes: &[u8]) -> Result<(Event, &[u8]), ReadError>
    ensures { Gives (λ x. (x.0, x.1.now)) result (snapshot_at bytes.now) }
{
    let (exchange, rest) = u32_at(bytes)?;
    let (vis, rest) = text_of(alloc, rest)?;
    let (oid, rest) = u32_at(rest)?;
    let (columns, rest) = columns_of(alloc, rest)?;
    let (rows, rest) = rows_of(alloc, rest)?;
    let head = SnapHead { vis, oid, columns };
    let event = Event::Snapshot {
        exchange,
        head,
        rows,
    };
    Ok((event, rest))
}

/// The rows of a table at the start, and the bytes after them.
pub fn start_of(alloc: Global, bytes: &[u8]) -> Result<(StartRows, &[u8]), ReadError>
    ensures { Gives (λ x. (x.0, x.1.now)) result (start_at bytes.now) }
{
    let (table, rest) = u16_at(bytes)?;
    let (rows, rest) = rows_of(alloc, rest)?;
    Ok((StartRows { table, rows }, rest))
}
