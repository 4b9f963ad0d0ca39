//! The log.
ghost use Rattle.std.specs.Prelude.{◌≡◌, ◌↔◌, ℕ, ◌+◌, ◌-◌, ◌<◌, ◌≤◌, ◌^◌, true, [], ◌∷◌, ◌++◌, length, max, IsOk, IsErr, IfOk, IfErr, OnOk, OnErr, slice_get, Some};
ghost use Rattle.shape_base.specs.Offsets.{is_before};
ghost use Rattle.shape_base.specs.Log.{end_of};
ghost use Rattle.shape_log.specs.Logged.{IsBound};

use shape_base::{Entry, Offset, OutOfMemory};
use std::alloc::Global;
use std::marker::Model;

/// An offset is after the end of a log.
#[derive(Clone, Copy, Debug, PartialEq, Eq)]
pub struct OffsetAhead {
    /// The end of the log.
    pub end: Offset,
}

/// A log: entries whose offsets rise strictly, from after `0_0`.
#[derive(Drop)]
pub struct Log {
    entries: Vec<Entry>,
    bytes: u64,
    /// How many entries may still be appended; the vector has room for them.
    spare: u64,
}

impl Model for Log {
    ghost use Rattle.shape_log.specs.Logged.{Logged};

    ghost Value = { Logged };

    ghost use Rattle.shape_log.specs.Log.{IsLog};

    ghost view = { λ l. record { entries = l.entries.items; bytes = l.bytes; spare = l.spare } };

    ghost invariant = { IsLog };
}

impl Log {
    /// A log with no entry.
    pub fn new(alloc: Global) -> Log
        ensures entries { result.entries ≡ [] }
        ensures bytes { result.bytes ≡ 0 }
        ensures spare { result.spare ≡ 0 }
    {
        Log {
            entries: Vec::new(alloc),
            bytes: 0,
            spare: 0,
        }
    }

    /// Makes room for at least so many entries more. On want of memory the log is unchanged.
    pub fn reserve(&mut self, count: u64) -> Result<(), OutOfMemory>
        ensures ok { OnOk result (self.new.spare ≡ max self.old.spare count) }
        ensures room { count ≤ self.old.spare → IsOk result }
        ensures err { OnErr result (self.new ≡ self.old) }
        ensures entries { self.new.entries ≡ self.old.entries }
        ensures bytes { self.new.bytes ≡ self.old.bytes }
    {
        if count > self.spare {
            self.entries.reserve(count as usize)?;
            self.spare = count;
        }
        Ok(())
    }

    /// Adds an entry at the end. It takes no memory.
    ///
    /// `size` is the number of bytes that the entry counts for.
    pub fn append(&mut self, entry: Entry, size: u64)
        requires room { 1 ≤ self.old.spare }
        requires after { is_before (end_of self.old.entries) entry.offset ≡ true }
        requires small { self.old.bytes + size < 2 ^ 64 }
        ensures entries { self.new.entries ≡ self.old.entries ++ entry ∷ [] }
        ensures bytes { self.new.bytes ≡ self.old.bytes + size }
        ensures spare { self.new.spare + 1 ≡ self.old.spare }
    {
        self.bytes += size;
        self.spare -= 1;
        self.entries.push(entry).unwrap();
    }

    /// The offset of the last entry, or `0_0` where there is none.
    pub fn end(&self) -> Offset
        ensures { result ≡ end_of self.now.entries }
    {
        match self.entries.last() {
            None => Offset::At { lsn: 0, pos: 0 },
            Some(entry) => entry.offset,
        }
    }

    /// The sum of the sizes of the entries.
    pub fn bytes(&self) -> u64
        ensures { result ≡ self.now.bytes }
    {
        self.bytes
    }

    /// How many entries there are.
    pub fn len(&self) -> u64
        ensures { result ≡ length self.now.entries }
    {
        self.entries.len() as u64
    }

    /// The entry at a place, counted from 0.
    pub fn at(&self, place: u64) -> &Entry
        requires { place < length self.now.entries }
        ensures { slice_get self.now.entries place ≡ Some result.now }
    {
        &self.entries[place as usize]
    }

    /// The number of entries that are not after the offset, by a binary search.
    ///
    /// `OffsetAhead` exactly where the offset is after the end.
    pub fn page_bounds(&self, offset: Offset) -> Result<u64, OffsetAhead>
        ensures found { IfOk result (λ n. IsBound self.now.entries offset n) }
        ensures ahead { IsErr result ↔ (is_before (end_of self.now.entries) offset ≡ true) }
        ensures end { IfErr result (λ e. e.end ≡ end_of self.now.entries) }
    {
        let end = self.end();
        if end.before(&offset) {
            return Err(OffsetAhead { end });
        }
        let entries = self.entries.as_slice();
        let place = entries.partition_point(|entry| !offset.before(&entry.offset));
        Ok(place as u64)
    }
}
