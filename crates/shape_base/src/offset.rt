//! Offsets: places in logs.
ghost use Rattle.std.specs.Prelude.{◌≡◌, IfOk, OnErr};
ghost use Rattle.shape_base.specs.declared.offset.Offset.{Offset};
ghost use Rattle.shape_base.specs.Offsets.{is_before};
ghost use Rattle.shape_base.specs.OffsetText.{offset_text, IsOffset};

use super::decimal::{read_decimal, split_at_first};
use super::memory::OutOfMemory;
use super::text::Text;
use std::alloc::Global;

/// A place in a log: behind the entry that has this offset, or before all entries.
#[derive(Clone, Copy, Debug, PartialEq, Eq)]
pub enum Offset {
    /// Before the snapshot.
    Start,
    /// Entry `pos` of the commit with that LSN; LSN 0 stands for the snapshot, whose entries count from 1.
    At { lsn: u64, pos: u64 },
}

/// A text that is no offset's.
#[derive(Clone, Copy, Debug, PartialEq, Eq)]
pub struct BadOffset;

impl Offset {
    /// The offset with this text: `-1`, or two canonical decimals of 64 bits that `_` joins.
    ///
    /// Any other text is `BadOffset`. It takes no memory.
    pub fn read(text: &[u8]) -> Result<Offset, BadOffset>
        ensures read { IfOk result (λ offset. text.now ≡ offset_text offset) }
        ensures refused { OnErr result ((offset : Offset) → IsOffset offset → text.now ≡ offset_text offset → ⊥) }
    {
        if text == b"-1".as_slice() {
            return Ok(Offset::Start);
        }
        let Some((lsn, pos)) = split_at_first(text, b'_') else {
            return Err(BadOffset);
        };
        let Some(lsn) = read_decimal(lsn) else {
            return Err(BadOffset);
        };
        let Some(pos) = read_decimal(pos) else {
            return Err(BadOffset);
        };
        Ok(Offset::At { lsn, pos })
    }

    /// The one text that reads as it.
    pub fn print(&self, alloc: Global) -> Result<Text, OutOfMemory>
        ensures { IfOk result (λ text. text ≡ offset_text self.now) }
    {
        match self {
            Offset::Start => Text::of(alloc, "-1"),
            Offset::At { lsn, pos } => Ok(Text::from_string(format!(in alloc; "{lsn}_{pos}")?)),
        }
    }

    /// Whether it is before another: `Start` is before every other, and the others go by `lsn` and then by `pos`.
    ///
    /// It takes no memory.
    pub fn before(&self, other: &Offset) -> bool
        ensures { result ≡ is_before self.now other.now }
    {
        match (self, other) {
            (Offset::Start, Offset::Start) => false,
            (Offset::Start, Offset::At { .. }) => true,
            (Offset::At { .. }, Offset::Start) => false,
            (Offset::At { lsn: a, pos: i }, Offset::At { lsn: b, pos: j }) => {
                *a < *b || (*a == *b && *i < *j)
            }
        }
    }
}
