//! The end of a log, and what stands past an offset.
ghost use Rattle.std.specs.Prelude.{◌≡◌, ◌<◌, ◌++◌, true, false, IfOk, OnOk};
ghost use Rattle.shape_base.specs.Offsets.{is_before, rises_after, past};
ghost use Rattle.shape_base.specs.Log.{end_of};
ghost use Rattle.shape_entries.specs.Joining.{IsPast};

use shape_base::{Duplicate, Entries, Offset, OutOfMemory};
use shape_log::Log;
use std::alloc::Global;

/// Adds entries at the end of a log, with no size.
pub fn join(log: &mut Log, joins: Entries) -> Result<(), OutOfMemory>
    requires rises { rises_after (end_of log.old.entries) joins ≡ true }
    requires bytes { log.old.bytes ≡ 0 }
    ensures joined { OnOk result (log.new.entries ≡ log.old.entries ++ joins) }
    ensures bytes { log.new.bytes ≡ 0 }
{
    log.reserve(joins.len())?;
    for entry in joins.into_vec() {
        log.append(entry, 0);
    }
    Ok(())
}

/// What stands in a log past an offset.
#[derive(Drop)]
pub enum Past {
    /// These entries.
    Entries(Entries),
    /// The offset is after the end of the log.
    Ahead,
}

/// The entries of a log past an offset, copied; `Ahead` exactly where the offset is after the log's end.
pub fn entries_past(alloc: Global, log: &Log, offset: Offset) -> Result<Past, OutOfMemory>
    ensures { IfOk result (IsPast log.now.entries offset) }
{
    let Ok(from) = log.page_bounds(offset) else {
        return Ok(Past::Ahead);
    };
    let mut made = Entries::new(alloc);
    for place in from..log.len() {
        made.push(log.at(place).copy(alloc)?)?;
    }
    Ok(Past::Entries(made))
}
