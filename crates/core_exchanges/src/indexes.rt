//! The places of the exchanges that have no reply.
ghost use Rattle.std.specs.Prelude.{◌≡◌, ℕ, IfOk, OnOk, OnErr, true, false, Some, None};
ghost use Rattle.std.specs.Ordering.{nat_cmp};
ghost use Rattle.std.specs.List.Sorted.{IsStrictlySortedBy};
ghost use Rattle.core_exchanges.specs.Indexing.{is_open_in, awaits_in, has_at, is_among, Marks, Spares, AwaitsAt};

use shape_base::OutOfMemory;
use std::alloc::Global;
use std::collections::{BTreeMap, BTreeSet};

/// The places of the exchanges that have no reply: of all of them, and of those that await a number.
#[derive(Drop)]
pub struct Indexes {
    pub alloc: Global,
    pub unanswered: BTreeSet<u32>,
    pub awaiting: BTreeMap<u64, BTreeSet<u32>>,
}

/// Marks a place under a number. Without memory all is as it was.
fn mark(
    alloc: Global,
    awaiting: &mut BTreeMap<u64, BTreeSet<u32>>,
    number: u64,
    index: u32,
) -> Result<(), OutOfMemory>
    ensures marked { OnOk result (AwaitsAt awaiting.old awaiting.new (Some number) index true) }
    ensures err { OnErr result ((n p : ℕ) → has_at awaiting.new n p ≡ has_at awaiting.old n p) }
{
    if let Some(places) = awaiting.get_mut(&number) {
        places.insert(index)?;
        return Ok(());
    }
    let mut places = BTreeSet::new(alloc);
    places.insert(index)?;
    awaiting.insert(number, places)?;
    Ok(())
}

/// A place is no longer under a number.
fn unmark(awaiting: &mut BTreeMap<u64, BTreeSet<u32>>, number: u64, index: u32)
    ensures { AwaitsAt awaiting.old awaiting.new (Some number) index false }
{
    if let Some(places) = awaiting.get_mut(&number) {
        let _was = places.remove(&index);
    }
}

impl Indexes {
    /// No places.
    pub fn new(alloc: Global) -> Indexes
        ensures unanswered { (p : ℕ) → is_open_in result p ≡ false }
        ensures awaits { (n p : ℕ) → awaits_in result n p ≡ false }
    {
        Indexes {
            alloc,
            unanswered: BTreeSet::new(alloc),
            awaiting: BTreeMap::new(alloc),
        }
    }

    /// A place more, whose exchange awaits a number or none. Without memory all is as it was.
    pub fn add(&mut self, index: u32, number: Option<u64>) -> Result<(), OutOfMemory>
        ensures added { OnOk result (Marks self.old self.new number index true) }
        ensures err { OnErr result (is_open_in self.old index ≡ false → Spares self.old self.new) }
    {
        self.unanswered.insert(index)?;
        let Some(number) = number else {
            return Ok(());
        };
        match mark(self.alloc, &mut self.awaiting, number, index) {
            Ok(()) => Ok(()),
            Err(error) => {
                let _was = self.unanswered.remove(&index);
                Err(error)
            }
        }
    }

    /// A place goes out, whose exchange awaits a number or none.
    pub fn remove(&mut self, index: u32, number: Option<u64>)
        ensures { Marks self.old self.new number index false }
    {
        let _was = self.unanswered.remove(&index);
        if let Some(number) = number {
            unmark(&mut self.awaiting, number, index);
        }
    }

    /// The places of those that await a number, rising.
    pub fn awaiting(&self, number: u64) -> Result<Vec<u32>, OutOfMemory>
        ensures rising { IfOk result (λ places. IsStrictlySortedBy nat_cmp places.items) }
        ensures exact { IfOk result (λ places. (p : ℕ) → is_among p places.items ≡ awaits_in self.now number p) }
    {
        match self.awaiting.get(&number) {
            Some(places) => Ok(places.iter().copied().collect(self.alloc)?),
            None => Ok(Vec::new(self.alloc)),
        }
    }
}
