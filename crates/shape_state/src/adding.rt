//! What a commit adds to the log of a shape, or why it drops the shape.
ghost use Rattle.std.specs.Prelude.{◌≡◌, ◌<◌, ℕ, List, true, IfOk};
ghost use Rattle.std.specs.List.{list_any};
ghost use Rattle.shape_base.specs.declared.limits.Limits.{Limits};
ghost use Rattle.shape_base.specs.declared.entry.Entry.{Entry};
ghost use Rattle.shape_base.specs.Tables.{changes_of};
ghost use Rattle.shape_base.specs.Shape.{stops};
ghost use Rattle.shape_base.specs.Transactions.{IsWhole};
ghost use Rattle.shape_json.specs.ShapeHistory.{Reader};
ghost use Rattle.chunked_log.specs.Chunked.{Writes};
ghost use Rattle.shape_state.specs.Reading.{reader_of};
ghost use Rattle.shape_state.specs.Additions.{IsWeighed, IsAddition};

use crate::stopping::first_stop;
use change_map::Emitter;
use chunked_log::Written;
use shape_base::{Cause, Limits, OutOfMemory, RowTest, Tx};
use shape_entries::commit_entries;
use std::alloc::Global;

/// What a commit does that the snapshot does not show.
#[derive(Drop)]
pub(crate) enum Addition {
    /// It adds these entries.
    Fits { written: Written },
    /// It drops the shape.
    Drops { cause: Cause },
}

/// What written entries do to a log of so many bytes: they are for it where it may have them.
fn weighed(limits: &Limits, bytes: u64, written: Written) -> Addition
    ensures { (entries : List Entry) → Writes written entries → IsWeighed limits.now bytes entries result }
{
    let bytes = bytes.saturating_add(written.bytes());
    let limit = limits.log;
    if bytes > limit {
        let cause = Cause::LogFull { bytes, limit };
        return Addition::Drops { cause };
    }
    Addition::Fits { written }
}

/// What a commit does that stops the shape.
fn stopped<T: RowTest>(
    alloc: Global,
    emitter: &Emitter<T>,
    tx: &Tx,
) -> Result<Addition, OutOfMemory>
    requires whole { IsWhole tx.now }
    requires stops { list_any (stops (T.knows emitter.now.test)) (changes_of (T.knows emitter.now.test).definition.table tx.now) ≡ true }
    ensures { (limits : Limits) (bytes : ℕ) → IfOk result (IsAddition (reader_of (T.knows emitter.now.test) (T.unread emitter.now.test)) limits bytes tx.now) }
{
    match first_stop(alloc, emitter, tx)? {
        Some(cause) => Ok(Addition::Drops { cause }),
        None => unreachable!(),
    }
}

/// What a commit does to a shape whose log has so many bytes.
pub(crate) fn added_by<T: RowTest>(
    alloc: Global,
    emitter: &Emitter<T>,
    limits: &Limits,
    bytes: u64,
    tx: &Tx,
) -> Result<Addition, OutOfMemory>
    requires { IsWhole tx.now }
    ensures { IfOk result (IsAddition (reader_of (T.knows emitter.now.test) (T.unread emitter.now.test)) limits.now bytes tx.now) }
{
    match commit_entries(alloc, emitter, tx)? {
        Some(written) => Ok(weighed(limits, bytes, written)),
        None => stopped(alloc, emitter, tx),
    }
}
