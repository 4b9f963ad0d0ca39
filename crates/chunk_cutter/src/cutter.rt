//! The cutter.
ghost use Rattle.std.specs.Prelude.{◌≡◌, ℕ, ◌+◌, ◌-◌, ◌<◌, ◌≤◌, ◌^◌, List, [], ◌∷◌, ◌++◌, length, max, IsOk, OnOk, OnErr, slice_get};
ghost use Rattle.std.specs.List.{sum};
ghost use Rattle.shape_base.specs.Chunks.{open_chunk};
ghost use Rattle.chunk_cutter.specs.Ends.{chunk_end};
ghost use Rattle.chunk_cutter.specs.Cut.{HasCut};

use shape_base::OutOfMemory;
use std::alloc::Global;
use std::marker::Model;

/// A cutter of sizes into chunks. Contracts see where the closed chunks end.
#[derive(Drop)]
pub struct Cutter {
    /// A chunk closes at the size with which it comes to at least this.
    least: u64,
    /// The places behind the closed chunks.
    ends: Vec<u64>,
    /// The sum of the sizes of the open chunk.
    rest: u64,
    /// How many sizes there were.
    count: u64,
    /// How many sizes may still be counted; the vector has room for an end at each.
    spare: u64,
}

impl Model for Cutter {
    ghost use Rattle.chunk_cutter.specs.Cut.{Cut};

    ghost Value = { Cut };

    ghost use Rattle.chunk_cutter.specs.Cutter.{IsCutter};

    ghost view = { λ c. record { least = c.least; ends = c.ends.items; rest = c.rest; count = c.count; spare = c.spare } };

    ghost invariant = { IsCutter };
}

/// The end in a place, where there is one.
fn end_at(ends: &[u64], place: usize) -> Option<u64>
    ensures { result ≡ slice_get ends.now place }
{
    ends.get(place).copied()
}

impl Cutter {
    /// A cutter that has counted nothing. A chunk closes at the size with which it comes to at least `chunk`.
    pub fn new(alloc: Global, chunk: u64) -> Cutter
        requires { 1 ≤ chunk }
        ensures nothing { HasCut result [] }
        ensures least { result.least ≡ chunk }
        ensures spare { result.spare ≡ 0 }
    {
        Cutter {
            least: chunk,
            ends: Vec::new(alloc),
            rest: 0,
            count: 0,
            spare: 0,
        }
    }

    /// Makes room for at least so many sizes more. On want of memory the cutter is unchanged.
    pub fn reserve(&mut self, count: u64) -> Result<(), OutOfMemory>
        ensures ok { OnOk result (self.new.spare ≡ max self.old.spare count) }
        ensures room { count ≤ self.old.spare → IsOk result }
        ensures err { OnErr result (self.new ≡ self.old) }
        ensures kept { (sizes : List ℕ) → HasCut self.old sizes → HasCut self.new sizes }
        ensures least { self.new.least ≡ self.old.least }
    {
        if count <= self.spare {
            return Ok(());
        }
        if self.count.checked_add(count).is_none() {
            return Err(OutOfMemory);
        }
        self.ends.reserve(count as usize)?;
        self.spare = count;
        Ok(())
    }

    /// Counts one size more. It takes no memory.
    pub fn push(&mut self, size: u64)
        requires { 1 ≤ self.old.spare }
        ensures pushed { (sizes : List ℕ) → HasCut self.old sizes → HasCut self.new (sizes ++ size ∷ []) }
        ensures least { self.new.least ≡ self.old.least }
        ensures spare { self.new.spare + 1 ≡ self.old.spare }
    {
        self.count += 1;
        self.spare -= 1;
        let sum = self.rest.saturating_add(size);
        if sum >= self.least {
            self.ends.push(self.count).unwrap();
            self.rest = 0;
        } else {
            self.rest = sum;
        }
    }

    /// How many sizes were counted.
    pub fn len(&self) -> u64
        ensures { (sizes : List ℕ) → HasCut self.now sizes → result ≡ length sizes }
    {
        self.count
    }

    /// The place behind the last closed chunk, or 0 where none is closed.
    pub fn closed(&self) -> u64
        ensures { (sizes : List ℕ) → HasCut self.now sizes → result + length (open_chunk self.now.least sizes) ≡ length sizes }
    {
        match self.ends.last() {
            None => 0,
            Some(end) => *end,
        }
    }

    /// The place behind the chunk of the size in a place, by a binary search. `None` exactly where that chunk is still open.
    pub fn chunk_end(&self, index: u64) -> Option<u64>
        ensures { (sizes : List ℕ) → HasCut self.now sizes → result ≡ chunk_end self.now.least sizes index }
    {
        let ends = self.ends.as_slice();
        let place = ends.partition_point(|end| *end <= index);
        end_at(ends, place)
    }
}
