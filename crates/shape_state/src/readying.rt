//! What the snapshot does to the commits that waited for it.
ghost use Rattle.std.specs.Prelude.{◌≡◌, ◌<◌, ◌≤◌, ◌++◌, List, None, IfOk};
ghost use Rattle.std.specs.List.{AllByRecursion};
ghost use Rattle.shape_base.specs.declared.entry.Entry.{Entry};
ghost use Rattle.shape_base.specs.Transactions.{IsWhole, LsnsRise};
ghost use Rattle.shape_base.specs.Log.{unseen, entries_past};
ghost use Rattle.shape_log.specs.Texts.{end_of};
ghost use Rattle.shape_json.specs.ShapeHistory.{bytes_of, entries_in, drop_by, drop_among};
ghost use Rattle.chunked_log.specs.Chunked.{Holds};
ghost use Rattle.shape_state.specs.Reading.{reader_of};
ghost use Rattle.shape_state.specs.Later.{lsn_in};

use crate::adding::{Addition, added_by};
use change_map::Emitter;
use chunked_log::ChunkedLog;
use shape_base::{Cause, Limits, OutOfMemory, RowTest, Tx};
use snapshot_merge::Vis;
use std::alloc::Global;

/// The commits from the first on that the snapshot does not show.
pub(crate) fn unseen<'a>(vis: &Vis, txs: &'a [Tx]) -> &'a [Tx]
    ensures { result.now ≡ unseen vis.now txs.now }
{
    for place in 0..txs.len() {
        if !vis.visible(txs[place].xid) {
            return &txs[place..];
        }
    }
    &txs[txs.len()..]
}

/// Adds the entries of a commit to a log, or says why it drops the shape.
fn add<T: RowTest>(
    alloc: Global,
    emitter: &Emitter<T>,
    limits: &Limits,
    log: &mut ChunkedLog,
    tx: &Tx,
) -> Result<Option<Cause>, OutOfMemory>
    requires whole { IsWhole tx.now }
    requires later { lsn_in (end_of log.old.offsets) < tx.now.lsn }
    ensures found { (entries : List Entry) → Holds log.old entries → IfOk result (λ cause. cause ≡ drop_by (reader_of (T.knows emitter.now.test) (T.unread emitter.now.test)) limits.now (bytes_of entries) tx.now) }
    ensures held { (entries : List Entry) → Holds log.old entries → IfOk result (λ cause. cause ≡ None → Holds log.new (entries ++ entries_in (T.knows emitter.now.test) tx.now)) }
    ensures end { IfOk result (λ cause. cause ≡ None → lsn_in (end_of log.new.offsets) ≤ tx.now.lsn) }
    ensures least { log.new.least ≡ log.old.least }
{
    let written = match added_by(alloc, emitter, limits, log.bytes(), tx)? {
        Addition::Fits { written } => written,
        Addition::Drops { cause } => return Ok(Some(cause)),
    };
    log.reserve(&written)?;
    log.append(written);
    Ok(None)
}

/// Adds the entries of commits to a log, one commit after the other, or says why the first that does drops the shape.
pub(crate) fn add_all<T: RowTest>(
    alloc: Global,
    emitter: &Emitter<T>,
    limits: &Limits,
    log: &mut ChunkedLog,
    txs: &[Tx],
) -> Result<Option<Cause>, OutOfMemory>
    requires whole { AllByRecursion IsWhole txs.now }
    requires rise { LsnsRise (lsn_in (end_of log.old.offsets)) txs.now }
    ensures found { (entries : List Entry) → Holds log.old entries → IfOk result (λ cause. cause ≡ drop_among (reader_of (T.knows emitter.now.test) (T.unread emitter.now.test)) limits.now (bytes_of entries) txs.now) }
    ensures held { (entries : List Entry) → Holds log.old entries → IfOk result (λ cause. cause ≡ None → Holds log.new (entries ++ entries_past (T.knows emitter.now.test) txs.now)) }
    ensures least { log.new.least ≡ log.old.least }
{
    for tx in txs {
        let cause = add(alloc, emitter, limits, log, tx)?;
        if cause.is_some() {
            return Ok(cause);
        }
    }
    Ok(None)
}
