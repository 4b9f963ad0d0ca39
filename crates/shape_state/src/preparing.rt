//! What is prepared for a commit.
ghost use Rattle.std.specs.Prelude.{◌≡◌, ◌<◌, ◌+◌, ◌&&◌, ℕ, List, None, IfOk};
ghost use Rattle.shape_base.specs.declared.entry.Entry.{Entry};
ghost use Rattle.shape_base.specs.Transactions.{IsWhole};
ghost use Rattle.shape_base.specs.Visibility.{is_visible};
ghost use Rattle.shape_log.specs.Texts.{end_of};
ghost use Rattle.shape_json.specs.ShapeHistory.{Reader, ShapeEvent, bytes_of, all_full};
ghost use Rattle.chunked_log.specs.Chunked.{Writes, Holds, HasRoom};
ghost use Rattle.shape_state.specs.Reading.{reader_of};
ghost use Rattle.shape_state.specs.Later.{lsn_in, last_of};
ghost use Rattle.shape_state.specs.Standing.{IsWaiting, IsLogging, Fits};
ghost use Rattle.shape_state.specs.Answers.{IsPreparedBy};
ghost use Rattle.shape_state.specs.declared.state.Kept.TheVariants as kept;

use crate::adding::{Addition, added_by};
use crate::commits::Commits;
use crate::prepared::Prepared;
use crate::state::Logging;
use change_map::Emitter;
use chunked_log::{ChunkedLog, Written};
use shape_base::{Cause, Duplicate, Limits, OutOfMemory, RowTest, Tx};
use std::alloc::Global;

/// Makes room for written entries in a log, or says why all logs together may not have them.
fn make_room(
    limits: &Limits,
    log: &mut ChunkedLog,
    written: &Written,
    others: u64,
) -> Result<Option<Cause>, OutOfMemory>
    ensures found { (entries more : List Entry) → Holds log.old entries → Writes written.now more → IfOk result (λ cause. cause ≡ all_full limits.now ((bytes_of entries + bytes_of more) + others)) }
    ensures room { IfOk result (λ cause. cause ≡ None → HasRoom log.new written.now) }
    ensures offsets { log.new.offsets ≡ log.old.offsets }
    ensures least { log.new.least ≡ log.old.least }
    ensures held { (entries : List Entry) → Holds log.old entries → Holds log.new entries }
{
    let sum = log.bytes().saturating_add(written.bytes());
    let bytes = sum.saturating_add(others);
    let limit = limits.all;
    if bytes > limit {
        return Ok(Some(Cause::AllLogsFull { bytes, limit }));
    }
    log.reserve(written)?;
    Ok(None)
}

/// Whether a commit is passed over: the snapshot shows it and all before it.
fn is_passed(logging: &Logging, xid: u32) -> bool
    ensures { result ≡ (logging.now.all_shown && is_visible logging.now.vis xid) }
{
    logging.all_shown && logging.vis.visible(xid)
}

/// What a shape that waits for its snapshot prepares for a commit.
pub(crate) fn prepare_waiting(
    alloc: Global,
    limits: &Limits,
    commits: &mut Commits,
    tx: &Tx,
) -> Result<Prepared, OutOfMemory>
    requires whole { IsWhole tx.now }
    requires later { last_of commits.old.txs < tx.now.lsn }
    ensures prepared { (r : Reader) (events : List ShapeEvent) (others : ℕ) → IsWaiting r limits.now events commits.old → IfOk result (IsPreparedBy r limits.now events tx.now others) }
    ensures fits { IfOk result (Fits (kept.Waiting commits.new)) }
    ensures txs { commits.new.txs ≡ commits.old.txs }
{
    let bytes = commits.bytes().saturating_add(tx.bytes);
    let limit = limits.pending;
    if bytes > limit {
        let cause = Cause::PendingFull { bytes, limit };
        return Ok(Prepared::Drop { cause });
    }
    commits.reserve()?;
    let tx = tx.copy(alloc)?;
    Ok(Prepared::Buffer { tx })
}

/// What a shape that has a log prepares for a commit.
pub(crate) fn prepare_logging<T: RowTest>(
    alloc: Global,
    emitter: &Emitter<T>,
    limits: &Limits,
    logging: &mut Logging,
    tx: &Tx,
    others: u64,
) -> Result<Prepared, OutOfMemory>
    requires whole { IsWhole tx.now }
    requires later { lsn_in (end_of logging.old.log.offsets) < tx.now.lsn }
    ensures prepared { (events : List ShapeEvent) → IsLogging (reader_of (T.knows emitter.now.test) (T.unread emitter.now.test)) limits.now events logging.old → IfOk result (IsPreparedBy (reader_of (T.knows emitter.now.test) (T.unread emitter.now.test)) limits.now events tx.now others) }
    ensures fits { IfOk result (Fits (kept.Logging logging.new)) }
    ensures still { (r : Reader) (events : List ShapeEvent) → IsLogging r limits.now events logging.old → IsLogging r limits.now events logging.new }
{
    if is_passed(logging, tx.xid) {
        return Ok(Prepared::Skip);
    }
    let written = match added_by(alloc, emitter, limits, logging.log.bytes(), tx)? {
        Addition::Fits { written } => written,
        Addition::Drops { cause } => return Ok(Prepared::Drop { cause }),
    };
    match make_room(limits, &mut logging.log, &written, others)? {
        Some(cause) => Ok(Prepared::Drop { cause }),
        None => Ok(Prepared::Append { written }),
    }
}
