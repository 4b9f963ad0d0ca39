//! Entries, written.
ghost use Rattle.std.specs.Prelude.{◌≡◌, ℕ, ◌+◌, ◌<◌, ◌≤◌, ◌^◌, ◌∷◌, ◌++◌, [], IfOk, OnOk, OnErr, List, length, map};
ghost use Rattle.std.specs.List.{sum};
ghost use Rattle.shape_base.specs.declared.entry.Entry.{Entry};
ghost use Rattle.shape_base.specs.OffsetText.{IsOffset};
ghost use Rattle.shape_json.specs.ShapeHistory.{bytes_of};
ghost use Rattle.chunked_log.specs.Chunked.{Writes};

use shape_base::{Entries, Entry, Offset, OutOfMemory};
use shape_json::{entry_size, put_entry};
use std::alloc::Global;
use std::marker::Model;

/// The place and the size of a text.
#[derive(Clone, Copy, Drop)]
pub(crate) struct Line {
    pub(crate) offset: Offset,
    pub(crate) size: u64,
}

/// The JSON texts of entries, in one buffer, with their offsets. Contracts see the offsets and the texts.
#[derive(Drop)]
pub struct Written {
    pub(crate) lines: Vec<Line>,
    /// The texts, one behind the other.
    pub(crate) buffer: Vec<u8>,
}

impl Model for Written {
    ghost use Rattle.chunked_log.specs.Chunked.{Texts};

    ghost Value = { Texts };

    ghost use Rattle.chunked_log.specs.Lines.{offsets_in, texts_in};
    ghost use Rattle.chunked_log.specs.Inside.{IsWritten};

    ghost view = { λ w. record { offsets = offsets_in w.lines.items; texts = texts_in w.lines.items w.buffer.items } };

    ghost invariant = { IsWritten };
}

/// A number of 64 bits is one.
fn number_fits(number: u64)
    ensures { number < 2 ^ 64 }
{}

/// The numbers of an offset have 64 bits.
fn offset_fits(offset: &Offset)
    ensures { IsOffset offset.now }
{
    match offset {
        Offset::Start => {}
        Offset::At { lsn, pos } => {
            number_fits(*lsn);
            number_fits(*pos);
        }
    }
}

impl Written {
    /// No text.
    pub fn new(alloc: Global) -> Written
        ensures { Writes result [] }
    {
        Written {
            lines: Vec::new(alloc),
            buffer: Vec::new(alloc),
        }
    }

    /// Adds the text of an entry. After want of memory the texts are as they were.
    pub fn push(&mut self, entry: &Entry) -> Result<(), OutOfMemory>
        ensures ok { (entries : List Entry) → Writes self.old entries → OnOk result (Writes self.new (entries ++ entry.now ∷ [])) }
        ensures err { OnErr result (self.new ≡ self.old) }
    {
        let size = entry_size(entry);
        if size == u64::MAX {
            return Err(OutOfMemory);
        }
        self.buffer.reserve(size as usize)?;
        self.lines.reserve(1)?;
        put_entry(&mut self.buffer, entry);
        offset_fits(&entry.offset);
        let offset = entry.offset;
        self.lines.push(Line { offset, size }).unwrap();
        Ok(())
    }

    /// The texts of these entries. It takes all the memory that appending them would need beside the log's.
    pub fn of(alloc: Global, entries: &Entries) -> Result<Written, OutOfMemory>
        ensures { IfOk result (λ written. Writes written entries.now) }
    {
        let mut written = Written::new(alloc);
        for entry in entries.as_slice() {
            written.push(entry)?;
        }
        Ok(written)
    }

    /// How many texts there are.
    pub fn len(&self) -> u64
        ensures texts { result ≡ length self.now.texts }
        ensures offsets { result ≡ length self.now.offsets }
        ensures writes { (entries : List Entry) → Writes self.now entries → result ≡ length entries }
    {
        self.lines.len() as u64
    }

    /// The sum of the lengths of the texts.
    pub fn bytes(&self) -> u64
        ensures texts { result ≡ sum (map length self.now.texts) }
        ensures writes { (entries : List Entry) → Writes self.now entries → result ≡ bytes_of entries }
    {
        self.buffer.len() as u64
    }
}
