//! Commits that wait for the snapshot.
ghost use Rattle.std.specs.Prelude.{◌≡◌, ◌<◌, ◌≤◌, ◌+◌, [], ◌∷◌, ◌++◌, OnOk};
ghost use Rattle.std.specs.List.{AllByRecursion};
ghost use Rattle.shape_base.specs.Transactions.{IsWhole, LsnsRise};
ghost use Rattle.shape_json.specs.Body.{capped};
ghost use Rattle.shape_json.specs.ShapeHistory.{pending_bytes};
ghost use Rattle.shape_state.specs.Later.{last_of};

use shape_base::{OutOfMemory, Tx};
use std::alloc::Global;
use std::marker::Model;

/// Commits that wait, whole and in rising order of their LSNs. Contracts see them, and how many more take no memory.
#[derive(Drop)]
pub(crate) struct Commits {
    txs: Vec<Tx>,
    /// The sum of their bytes; 2^64 - 1 where that is less.
    bytes: u64,
}

impl Model for Commits {
    ghost use Rattle.std.specs.Prelude.{◌-◌, vec_len, vec_capacity};
    ghost use Rattle.shape_state.specs.Buffered.{Buffered};

    ghost Value = { Buffered };

    ghost use Rattle.shape_state.specs.Inside.{IsBuffer};

    ghost view = { λ c. record { txs = c.txs.items; spare = vec_capacity c.txs - vec_len c.txs } };

    ghost invariant = { IsBuffer };
}

impl Commits {
    pub(crate) fn new(alloc: Global) -> Commits
        ensures { result.txs ≡ [] }
    {
        Commits {
            txs: Vec::new(alloc),
            bytes: 0,
        }
    }

    /// The sum of their bytes; 2^64 - 1 where that is less.
    pub(crate) fn bytes(&self) -> u64
        ensures { result ≡ capped (pending_bytes self.now.txs) }
    {
        self.bytes
    }

    /// The commits.
    pub(crate) fn as_slice(&self) -> &[Tx]
        ensures txs { result.now ≡ self.now.txs }
        ensures whole { AllByRecursion IsWhole self.now.txs }
        ensures rise { LsnsRise 0 self.now.txs }
    {
        self.txs.as_slice()
    }

    /// The LSN of the last one; 0 where there is none.
    pub(crate) fn last(&self) -> u64
        ensures { result ≡ last_of self.now.txs }
    {
        match self.txs.last() {
            None => 0,
            Some(tx) => tx.lsn,
        }
    }

    /// Makes room for one more.
    pub(crate) fn reserve(&mut self) -> Result<(), OutOfMemory>
        ensures spare { OnOk result (1 ≤ self.new.spare) }
        ensures txs { self.new.txs ≡ self.old.txs }
    {
        self.txs.reserve(1)?;
        Ok(())
    }

    /// Adds one behind the others. It takes no memory.
    pub(crate) fn push(&mut self, tx: Tx)
        requires spare { 1 ≤ self.old.spare }
        requires whole { IsWhole tx }
        requires later { last_of self.old.txs < tx.lsn }
        ensures { self.new.txs ≡ self.old.txs ++ tx ∷ [] }
    {
        self.bytes = self.bytes.saturating_add(tx.bytes);
        self.txs.push(tx).unwrap();
    }
}
