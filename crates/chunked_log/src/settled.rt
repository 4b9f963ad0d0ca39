//! Pages that stay as they are for good, each found by the offset that it comes after.
ghost use Rattle.std.specs.Prelude.{◌≡◌, ℕ, List, ◌++◌, ◌∷◌, [], IfSome, OnOk, OnErr};
ghost use Rattle.shape_base.specs.declared.offset.Offset.{Offset};
ghost use Rattle.chunked_log.specs.Settled.{IsSettled, AreSettled};

use shape_base::{Offset, OutOfMemory, Page};
use std::alloc::Global;
use std::marker::Model;

/// A page, and the offset that it comes after.
#[derive(Drop)]
pub(crate) struct SettledPage {
    after: Offset,
    page: Page,
}

/// Pages. Contracts see them in the order in which they were put.
#[derive(Drop)]
pub(crate) struct SettledPages {
    pages: Vec<SettledPage>,
    /// Where a page may stand in the list, by its offset. Each is tried before it is believed.
    guesses: Vec<u32>,
    /// How many entries the pages have.
    entries: u64,
}

impl Model for SettledPages {
    ghost use Rattle.std.specs.Prelude.{List};
    ghost use Rattle.chunked_log.specs.declared.settled.SettledPage.{SettledPage};

    ghost Value = { List SettledPage };

    ghost view = { λ s. s.pages.items };
}

/// How many slots are tried for an offset.
const TRIES: u64 = 4;

/// A slot in which no place stands.
const EMPTY: u32 = 4_294_967_295;

/// The slot that is tried for an offset at a step, of so many, a power of two: the bits of its two numbers, mixed by multiplication.
fn slot_of(after: Offset, step: u64, slots: usize) -> usize {
    let (lsn, pos) = match after {
        Offset::Start => (0, 0),
        Offset::At { lsn, pos } => (lsn, pos),
    };
    let mixed = lsn
        .wrapping_mul(0x9E37_79B9_7F4A_7C15)
        .wrapping_add(pos.wrapping_mul(0xD6E8_FEB8_6659_FD93));
    (mixed >> 32).wrapping_add(step) as usize & slots.wrapping_sub(1)
}

/// Notes where the page after an offset stands, in the first slot of those tried that is empty.
fn note(guesses: &mut [u32], after: Offset, place: usize) {
    let Ok(place) = u32::try_from(place) else {
        return;
    };
    for step in 0..TRIES {
        let slot = slot_of(after, step, guesses.len());
        if slot < guesses.len() && guesses[slot] == EMPTY {
            guesses[slot] = place;
            return;
        }
    }
}

/// The page in a place, where it comes after this offset.
fn page_in(pages: &[SettledPage], place: usize, after: Offset) -> Option<&Page>
    ensures { (offsets : List Offset) (texts : List (List ℕ)) (least : ℕ) → AreSettled offsets texts least pages.now → IfSome result (λ page. IsSettled offsets texts least after page.now) }
{
    let settled = pages.get(place)?;
    if settled.after != after {
        return None;
    }
    Some(&settled.page)
}

impl SettledPages {
    /// No page.
    pub(crate) fn new(alloc: Global) -> SettledPages
        ensures { result ≡ [] }
    {
        SettledPages {
            pages: Vec::new(alloc),
            guesses: Vec::new(alloc),
            entries: 0,
        }
    }

    /// How many entries the pages have.
    pub(crate) fn entries(&self) -> u64 {
        self.entries
    }

    /// The end of the last page.
    pub(crate) fn end(&self) -> Offset {
        match self.pages.last() {
            None => Offset::Start,
            Some(settled) => settled.page.end,
        }
    }

    /// The page after an offset, where it is found at one of a few slots.
    pub(crate) fn find(&self, after: Offset) -> Option<&Page>
        ensures { (offsets : List Offset) (texts : List (List ℕ)) (least : ℕ) → AreSettled offsets texts least self.now → IfSome result (λ page. IsSettled offsets texts least after page.now) }
    {
        let guesses = self.guesses.as_slice();
        for step in 0..TRIES {
            let guess = guesses.get(slot_of(after, step, guesses.len()))?;
            let found = page_in(self.pages.as_slice(), *guess as usize, after);
            if found.is_some() {
                return found;
            }
        }
        None
    }

    /// Makes slots for so many pages, four for each at least.
    fn make_slots(&mut self, count: usize) -> Result<(), OutOfMemory>
        ensures { self.new ≡ self.old }
    {
        if count <= self.guesses.len() / 4 {
            return Ok(());
        }
        let slots = self.guesses.len().saturating_mul(2).max(64);
        let mut guesses = vec![in *self.pages.allocator(); EMPTY; slots]?;
        for (place, settled) in self.pages.iter().enumerate() {
            note(&mut guesses, settled.after, place);
        }
        self.guesses = guesses;
        Ok(())
    }

    /// Puts a page behind the others.
    pub(crate) fn push(&mut self, after: Offset, page: Page) -> Result<(), OutOfMemory>
        ensures ok { OnOk result (self.new ≡ self.old ++ record { after = after; page = page } ∷ []) }
        ensures err { OnErr result (self.new ≡ self.old) }
    {
        let place = self.pages.len();
        self.make_slots(place.saturating_add(1))?;
        let count = page.count;
        self.pages.push(SettledPage { after, page })?;
        self.entries = self.entries.saturating_add(count);
        note(&mut self.guesses, after, place);
        Ok(())
    }
}
