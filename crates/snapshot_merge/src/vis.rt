//! Which transactions a snapshot shows.
ghost use Rattle.std.specs.Prelude.{◌≡◌, ◌<◌, Some, ◌==◌};
ghost use Rattle.std.specs.List.{list_any};
ghost use Rattle.shape_base.specs.Visibility.{is_visible, is_visible_id};
ghost use Rattle.snapshot_merge.specs.VisText.{visibility_of};
ghost use Rattle.snapshot_merge.specs.Answers.{Reads};

use crate::reading::{Fault, parts};
use std::alloc::Global;
use std::marker::Model;

/// Which transactions a snapshot shows. A contract sees its parts.
#[derive(Drop)]
pub struct Vis {
    xmin: u64,
    xmax: u64,
    listed: Vec<u64>,
}

impl Model for Vis {
    ghost use Rattle.shape_base.specs.Visibility.{Visibility, IsVisibility};

    ghost Value = { Visibility };

    ghost view = { λ v. record { xmin = v.xmin; xmax = v.xmax; listed = v.listed.items } };

    ghost invariant = { λ v. IsVisibility (record { xmin = v.xmin; xmax = v.xmax; listed = v.listed.items }) };
}

/// Why a text is not read.
#[derive(Clone, Copy, Debug, PartialEq, Eq, Drop)]
pub enum VisError {
    /// An allocation failed.
    OutOfMemory,
    /// A text that PostgreSQL does not write.
    BadSnapshot {
        /// The place of the first byte that cannot stand there, or of the first byte of the number that breaks a bound.
        place: u64,
    },
}

impl Vis {
    /// Reads the text of `pg_current_snapshot()`: `xmin:xmax:list` (PostgreSQL manual, 9.27.8 Transaction ID and Snapshot Information Functions).
    ///
    /// `BadSnapshot` exactly where the text is none.
    pub fn read(alloc: Global, text: &[u8]) -> Result<Vis, VisError>
        ensures { Reads result text.now (visibility_of text.now) }
    {
        match parts(alloc, text) {
            Ok((xmin, xmax, listed)) => Ok(Vis { xmin, xmax, listed }),
            Err(Fault::OutOfMemory) => Err(VisError::OutOfMemory),
            Err(Fault::Wrong { left }) => {
                let place = text.len().saturating_sub(left) as u64;
                Err(VisError::BadSnapshot { place })
            }
        }
    }

    /// Whether a transaction is visible, by the low 32 bits of its id: those of the id of 64 bits that lies from `xmax - 2^31` up to below `xmax + 2^31`.
    /// It takes no memory.
    pub fn visible(&self, xid: u32) -> bool
        ensures { result ≡ is_visible self.now xid }
    {
        let ahead = (xid as u64 + 6_442_450_944 - self.xmax % 4_294_967_296) % 4_294_967_296;
        if ahead >= 2_147_483_648 {
            return false;
        }
        let behind = 2_147_483_648 - ahead;
        if self.xmax < behind {
            return true;
        }
        self.shows(self.xmax - behind)
    }

    /// Whether this id is listed, in the logarithm of their number.
    fn is_listed(&self, id: u64) -> bool
        ensures { result ≡ list_any (λ l. id == l) self.now.listed }
    {
        self.listed.binary_search(&id).is_ok()
    }

    /// Whether a transaction with this id of 64 bits, which is below `xmax`, is visible.
    fn shows(&self, id: u64) -> bool
        requires { id < self.now.xmax }
        ensures { result ≡ is_visible_id self.now (Some id) }
    {
        id < self.xmin || !self.is_listed(id)
    }

    /// The first id of a transaction that may be under way: those below it are finished. It takes no memory.
    pub fn xmin(&self) -> u64
        ensures { result ≡ self.now.xmin }
    {
        self.xmin
    }

    /// The ids of the transactions that were under way. It takes no memory.
    pub fn listed(&self) -> &[u64]
        ensures { result.now ≡ self.now.listed }
    {
        self.listed.as_slice()
    }

    /// The first id that was not given yet. It takes no memory.
    pub fn xmax(&self) -> u64
        ensures { result ≡ self.now.xmax }
    {
        self.xmax
    }
}
