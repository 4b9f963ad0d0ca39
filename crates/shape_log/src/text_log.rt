//! The log of texts.
ghost use Rattle.std.specs.Prelude.{◌≡◌, ◌↔◌, ℕ, zero, suc, ◌+◌, ◌-◌, ◌<◌, ◌≤◌, ◌^◌, true, [], ◌∷◌, ◌++◌, length, map, max, IsOk, IsErr, IfOk, IfErr, OnOk, OnErr, slice_range, slice_get, Some};
ghost use Rattle.std.specs.List.{sum};
ghost use Rattle.shape_base.specs.Offsets.{is_before};
ghost use Rattle.shape_log.specs.Texts.{joined, end_of, count_upto, position};

use crate::log::OffsetAhead;
use crate::rope::Rope;
use bytes::Bytes;
use shape_base::{Offset, OutOfMemory};
use std::alloc::Global;
use std::marker::Model;

/// A log of texts, each at its offset; the offsets rise strictly, from after `0_0`.
#[derive(Drop)]
pub struct TextLog {
    offsets: Vec<Offset>,
    /// The place behind each text and its comma.
    ends: Vec<u64>,
    /// The texts, each with a comma behind it.
    rope: Rope,
    /// How many texts may still be appended; both vectors have room for them.
    spare: u64,
}

impl Model for TextLog {
    ghost use Rattle.shape_log.specs.Texts.{TextLogged};

    ghost Value = { TextLogged };

    ghost use Rattle.shape_log.specs.Inside.{IsTextLog, texts_in};

    ghost view = { λ l. record { offsets = l.offsets.items; texts = texts_in l; spare = l.spare; room = l.rope.room } };

    ghost invariant = { IsTextLog };
}

/// The place behind the first so many texts and their commas.
fn position(ends: &[u64], count: u64) -> u64
    requires { count ≤ length ends.now }
    ensures { result ≡ position ends.now count }
{
    if count == 0 {
        return 0;
    }
    ends[(count - 1) as usize]
}

/// For how many more a list of so many makes room, where it needs so many: an eighth of what it has more.
fn growth(len: usize, count: u64) -> usize
    ensures { count ≤ result }
{
    (count as usize).saturating_add(len / 8)
}

impl TextLog {
    /// A log with no text.
    pub fn new(alloc: Global) -> TextLog
        ensures offsets { result.offsets ≡ [] }
        ensures texts { result.texts ≡ [] }
        ensures spare { result.spare ≡ 0 }
        ensures room { result.room ≡ 0 }
    {
        TextLog {
            offsets: Vec::new(alloc),
            ends: Vec::new(alloc),
            rope: Rope::new(alloc),
            spare: 0,
        }
    }

    /// Makes room for at least so many texts more, and for so many bytes of them, a comma for each included. On want of memory the log has the room
    /// that it had, or more.
    pub fn reserve(&mut self, count: u64, bytes: u64) -> Result<(), OutOfMemory>
        ensures spare { OnOk result (count ≤ self.new.spare) }
        ensures room { OnOk result (bytes ≤ self.new.room) }
        ensures enough { count ≤ self.old.spare → bytes ≤ self.old.room → IsOk result }
        ensures kept { (self.old.spare ≤ self.new.spare) × (self.old.room ≤ self.new.room) }
        ensures offsets { self.new.offsets ≡ self.old.offsets }
        ensures texts { self.new.texts ≡ self.old.texts }
    {
        self.rope.reserve(bytes)?;
        if count > self.spare {
            let more = growth(self.offsets.len(), count);
            if more > self.offsets.capacity() - self.offsets.len() {
                self.offsets.reserve_exact(more)?;
            }
            if more > self.ends.capacity() - self.ends.len() {
                self.ends.reserve_exact(more)?;
            }
            self.spare = count;
        }
        Ok(())
    }

    /// Adds a text at the end. It takes no memory.
    pub fn append(&mut self, offset: Offset, text: &[u8])
        requires spare { 1 ≤ self.old.spare }
        requires room { length text.now + 1 ≤ self.old.room }
        requires after { is_before (end_of self.old.offsets) offset ≡ true }
        ensures offsets { self.new.offsets ≡ self.old.offsets ++ offset ∷ [] }
        ensures texts { self.new.texts ≡ self.old.texts ++ text.now ∷ [] }
        ensures spare { self.new.spare + 1 ≡ self.old.spare }
        ensures room { self.new.room + length text.now + 1 ≡ self.old.room }
    {
        self.rope.put(text);
        self.rope.put(b",");
        self.spare -= 1;
        self.offsets.push(offset).unwrap();
        let end = self.rope.len();
        self.ends.push(end).unwrap();
    }

    /// Freezes the texts before a place: from then on `inner` shares them. Nothing else changes, also on want of memory.
    pub fn seal(&mut self, place: u64) -> Result<(), OutOfMemory>
        requires { place ≤ length self.old.texts }
        ensures same { self.new ≡ self.old }
    {
        let end = position(self.ends.as_slice(), place);
        self.rope.freeze(end)
    }

    /// The texts from one place up to below the other, joined by commas. Those of one sealed stretch are shared, and not copied.
    pub fn inner(&self, from: u64, to: u64) -> Result<Bytes, OutOfMemory>
        requires order { from ≤ to }
        requires within { to ≤ length self.now.texts }
        ensures { IfOk result (λ b. b ≡ joined (slice_range self.now.texts from to)) }
    {
        if from == to {
            return Ok(Bytes::new());
        }
        let ends = self.ends.as_slice();
        let (start, end) = (position(ends, from), position(ends, to));
        let bytes = self.rope.cut(start, end - 1)?;
        Ok(bytes)
    }

    /// The offset of the last text, or `0_0` where there is none.
    pub fn end(&self) -> Offset
        ensures { result ≡ end_of self.now.offsets }
    {
        match self.offsets.last() {
            None => Offset::At { lsn: 0, pos: 0 },
            Some(offset) => *offset,
        }
    }

    /// The sum of the lengths of the texts.
    pub fn bytes(&self) -> u64
        ensures { result ≡ sum (map length self.now.texts) }
    {
        self.rope.len() - self.ends.as_slice().len() as u64
    }

    /// How many texts there are.
    pub fn len(&self) -> u64
        ensures texts { result ≡ length self.now.texts }
        ensures offsets { result ≡ length self.now.offsets }
    {
        self.offsets.as_slice().len() as u64
    }

    /// The offset of the text in a place, from 0.
    pub fn offset(&self, place: u64) -> Offset
        requires { place < length self.now.offsets }
        ensures { slice_get self.now.offsets place ≡ Some result }
    {
        self.offsets[place as usize]
    }

    /// How many offsets are not after this one, by a binary search.
    ///
    /// `OffsetAhead` exactly where the offset is after the end.
    pub fn page_bounds(&self, offset: Offset) -> Result<u64, OffsetAhead>
        ensures found { IfOk result (λ n. n ≡ count_upto offset self.now.offsets) }
        ensures ahead { IsErr result ↔ (is_before (end_of self.now.offsets) offset ≡ true) }
        ensures end { IfErr result (λ e. e.end ≡ end_of self.now.offsets) }
    {
        let end = self.end();
        if end.before(&offset) {
            return Err(OffsetAhead { end });
        }
        let offsets = self.offsets.as_slice();
        let place = offsets.partition_point(|other| !offset.before(other));
        Ok(place as u64)
    }
}
