//! What is done with the commits.
ghost use Rattle.shape_base.specs.Transactions.{IsWhole};

use crate::changes::{INSERTS, inserting, updates_of, updating};
use crate::whole::is_whole;
use shape_base::{OutOfMemory, Tx};
use shape_def::Def;
use shape_state::{Prepared, Shape};
use std::alloc::Global;

/// A shape that takes the commits, where there is one, and counts. Counts that would not fit end at 2^64 - 1.
#[derive(Drop)]
pub(crate) struct Work {
    pub(crate) shape: Option<Shape<Def>>,
    /// How many commits there were.
    pub(crate) transactions: u64,
    /// How many changes in them.
    pub(crate) changes: u64,
    /// How many entries were added to the shape's log.
    pub(crate) entries: u64,
}

/// How many entries are prepared.
fn entries_in(prepared: &Prepared) -> u64 {
    match prepared {
        Prepared::Append { written } => written.len(),
        Prepared::Skip => 0,
        Prepared::Buffer { .. } => 0,
        Prepared::Drop { .. } => 0,
    }
}

/// Gives a shape a commit, and answers how many entries it adds; none where the commit is not after the others.
fn give(shape: &mut Shape<Def>, tx: &Tx) -> Result<Option<u64>, OutOfMemory>
    requires { IsWhole tx.now }
{
    if !shape.is_later(tx.lsn) {
        return Ok(None);
    }
    let prepared = shape.prepare(tx, 0)?;
    let entries = entries_in(&prepared);
    shape.commit(prepared);
    Ok(Some(entries))
}

impl Work {
    /// Before the first commit.
    pub(crate) fn new(shape: Option<Shape<Def>>) -> Work {
        Work {
            shape,
            transactions: 0,
            changes: 0,
            entries: 0,
        }
    }

    /// Counts a commit, and gives it to the shape. Whether it was not refused.
    fn take(&mut self, tx: &Tx) -> Result<bool, OutOfMemory> {
        if !is_whole(tx) {
            return Ok(false);
        }
        self.transactions = self.transactions.saturating_add(1);
        self.changes = self.changes.saturating_add(tx.changes.len());
        let Some(shape) = &mut self.shape else {
            return Ok(true);
        };
        match give(shape, tx)? {
            Some(entries) => {
                self.entries = self.entries.saturating_add(entries);
                Ok(true)
            }
            None => Ok(false),
        }
    }

    /// The number of the next commit.
    fn next(&self) -> u64 {
        self.transactions.saturating_add(1)
    }
}

/// Takes the inserts; false where one of their commits is refused.
fn take_inserts(alloc: Global, work: &mut Work, inserts: u64) -> Result<bool, OutOfMemory> {
    let mut from = 0;
    for _ in 0..inserts / INSERTS {
        let to = work.changes.saturating_add(INSERTS);
        let tx = inserting(alloc, work.next(), from, to)?;
        if !work.take(&tx)? {
            return Ok(false);
        }
        from = to;
    }
    Ok(true)
}

/// Takes the commits for so many inserts, in whole thousands, and then the updates; false where one is refused.
pub(crate) fn take_all(alloc: Global, work: &mut Work, inserts: u64) -> Result<bool, OutOfMemory> {
    if !take_inserts(alloc, work, inserts)? {
        return Ok(false);
    }
    for number in 0..updates_of(inserts) {
        let tx = updating(alloc, work.next(), number, inserts)?;
        if !work.take(&tx)? {
            return Ok(false);
        }
    }
    Ok(true)
}
