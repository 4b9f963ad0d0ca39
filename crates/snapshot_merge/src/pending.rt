//! Transactions that wait for a snapshot.
ghost use Rattle.std.specs.Prelude.{◌≡◌, ◌⊎◌, ◌++◌, ◌∷◌, ◌<◌, [], Err, OnOk, OnErr, IfErr};
ghost use Rattle.snapshot_merge.specs.Buffer.{bytes_of, capped};
ghost use Rattle.snapshot_merge.specs.declared.pending.PendingError.TheVariants as errors;

use shape_base::{Duplicate, OutOfMemory, Tx, Txs};
use std::alloc::Global;

/// Why a transaction is not kept.
#[derive(Debug, PartialEq, Eq, Drop)]
pub enum PendingError {
    /// An allocation failed.
    OutOfMemory,
    /// The bytes of the kept change messages would pass the limit.
    PendingFull {
        /// The bytes that there would be; 2^64 - 1 where there would be more.
        bytes: u64,
        /// The most that there may be.
        limit: u64,
    },
}

impl From<OutOfMemory> for PendingError {
    ghost from_gives = { λ _ e. e ≡ errors.OutOfMemory };

    fn from(_error: OutOfMemory) -> PendingError {
        PendingError::OutOfMemory
    }
}

/// Transactions that wait for a snapshot, whole and in order. A contract sees them as `txs`.
#[derive(Drop)]
pub struct Pending {
    limit: u64,
    bytes: u64,
    txs: Txs,
    alloc: Global,
    ghost counted: { bytes ≡ capped (bytes_of txs) },
}

impl Pending {
    /// No transaction waits. The bytes of their kept change messages may be at most `limit`.
    pub fn new(alloc: Global, limit: u64) -> Pending
        ensures none { result.txs ≡ [] }
        ensures limit { result.limit ≡ limit }
    {
        Pending {
            limit,
            bytes: 0,
            txs: Txs::new(alloc),
            alloc,
        }
    }

    /// Keeps a copy of the whole transaction behind the others.
    ///
    /// `PendingFull` exactly where the bytes would pass the limit. After a refusal nothing is changed.
    pub fn push(&mut self, tx: &Tx) -> Result<(), PendingError>
        ensures ok { OnOk result (self.new.txs ≡ self.old.txs ++ tx.now ∷ []) }
        ensures err { OnErr result (self.new.txs ≡ self.old.txs) }
        ensures limit { self.new.limit ≡ self.old.limit }
        ensures fits { self.old.limit < capped (bytes_of (self.old.txs ++ tx.now ∷ [])) → result ≡ Err (errors.PendingFull (capped (bytes_of (self.old.txs ++ tx.now ∷ []))) self.old.limit) }
        ensures full { IfErr result (λ e. (e ≡ errors.OutOfMemory) ⊎ ((self.old.limit < capped (bytes_of (self.old.txs ++ tx.now ∷ []))) × (e ≡ errors.PendingFull (capped (bytes_of (self.old.txs ++ tx.now ∷ []))) self.old.limit))) }
    {
        let bytes = self.bytes.saturating_add(tx.bytes);
        if bytes > self.limit {
            let limit = self.limit;
            return Err(PendingError::PendingFull { bytes, limit });
        }
        let twin = tx.copy(self.alloc)?;
        self.txs.push(twin)?;
        self.bytes = bytes;
        Ok(())
    }

    /// The transactions, in the order in which they came.
    pub fn drain(self) -> Txs
        ensures { result ≡ self.txs }
    {
        let Pending {
            limit: _,
            bytes: _,
            txs,
            alloc: _,
        } = self;
        txs
    }
}
