//! The log.
ghost use Rattle.std.specs.Prelude.{◌≡◌, ◌↔◌, ℕ, ◌+◌, ◌-◌, ◌<◌, ◌≤◌, ◌^◌, Bool, true, false, List, [], ◌∷◌, ◌++◌, length, map, slice_range, IsOk, IsErr, IfOk, IfErr, OnOk, OnErr};
ghost use Rattle.std.specs.List.{sum};
ghost use Rattle.std.specs.Str.{IsUtf8};
ghost use Rattle.shape_base.specs.declared.offset.Offset.{Offset};
ghost use Rattle.shape_base.specs.declared.entry.Entry.{Entry};
ghost use Rattle.shape_base.specs.Offsets.{is_before, end_from, past};
ghost use Rattle.shape_base.specs.Log as logs;
ghost use Rattle.shape_log.specs.Texts.{rise_after, end_of, last_from};
ghost use Rattle.chunk_cutter.specs.Cut.{HasCut};
ghost use Rattle.chunk_cutter.specs.Ends.{chunk_end};
ghost use Rattle.shape_json.specs.Page.{page_of};
ghost use Rattle.shape_json.specs.ShapeHistory.{bytes_of};
ghost use Rattle.chunked_log.specs.Lines.{offsets_in, sizes_in, size_in, texts_in};
ghost use Rattle.chunked_log.specs.Chunked.{Writes, Holds, HasRoom, Carries};
ghost use Rattle.chunked_log.specs.Paging.{IsNoPage, StopsAt};

use crate::settled::SettledPages;
use crate::written::{Line, Written};
use chunk_cutter::Cutter;
use shape_base::{Offset, OutOfMemory, Page};
use shape_log::{OffsetAhead, TextLog};
use std::alloc::Global;
use std::marker::Model;

/// Why there is no page after an offset.
#[derive(Clone, Copy, Debug, PartialEq, Eq)]
pub enum PageError {
    /// The offset is after the end of the log, which this is.
    OffsetAhead { end: Offset },
    OutOfMemory,
}

impl From<OutOfMemory> for PageError {
    ghost use Rattle.std.specs.Prelude.{◌≡◌};
    ghost use Rattle.chunked_log.specs.declared.log.PageError.TheVariants as errors;

    ghost from_gives = { λ _ e. e ≡ errors.OutOfMemory };

    fn from(_error: OutOfMemory) -> PageError {
        PageError::OutOfMemory
    }
}

/// A log of entries as JSON texts, which is cut into chunks by their lengths. Contracts see the offsets and the texts.
#[derive(Drop)]
pub struct ChunkedLog {
    log: TextLog,
    cutter: Cutter,
    /// The pages of the chunks that were closed when room was last made.
    settled: SettledPages,
}

impl Model for ChunkedLog {
    ghost use Rattle.std.specs.Prelude.{min};
    ghost use Rattle.chunked_log.specs.Chunked.{Chunked};

    ghost Value = { Chunked };

    ghost use Rattle.chunked_log.specs.Inside.{IsChunked};

    ghost view = { λ l. record { offsets = l.log.offsets; texts = l.log.texts; least = l.cutter.least; spare = min l.log.spare l.cutter.spare; room = l.log.room } };

    ghost invariant = { IsChunked };
}

/// Adds texts of these lines, which stand one behind the other, and counts their sizes.
fn append_lines(log: &mut TextLog, cutter: &mut Cutter, lines: &[Line], texts: &[u8])
    requires sizes { size_in lines.now ≡ length texts.now }
    requires spare { length lines.now ≤ log.old.spare }
    requires counted { length lines.now ≤ cutter.old.spare }
    requires room { length texts.now + length lines.now ≤ log.old.room }
    requires after { rise_after (end_of log.old.offsets) (offsets_in lines.now) ≡ true }
    ensures offsets { log.new.offsets ≡ log.old.offsets ++ offsets_in lines.now }
    ensures texts { log.new.texts ≡ log.old.texts ++ texts_in lines.now texts.now }
    ensures cut { (sizes : List ℕ) → HasCut cutter.old sizes → HasCut cutter.new (sizes ++ sizes_in lines.now) }
    ensures least { cutter.new.least ≡ cutter.old.least }
{
    let mut rest = texts;
    for line in lines {
        let (text, others) = rest.split_at(line.size as usize);
        log.append(line.offset, text);
        cutter.push(line.size);
        rest = others;
    }
}

/// Where a page from a place on ends, and whether it is up to date.
fn stop(log: &TextLog, cutter: &Cutter, from: u64) -> (u64, bool)
    requires cut { HasCut cutter.now (map length log.now.texts) }
    requires within { from ≤ length log.now.texts }
    ensures stops { StopsAt (chunk_end cutter.now.least (map length log.now.texts) from) (length log.now.texts) result }
    ensures order { from ≤ result.0 }
    ensures inside { result.0 ≤ length log.now.texts }
{
    match cutter.chunk_end(from) {
        Some(end) => (end, false),
        None => (log.len(), true),
    }
}

/// The end of a page after an offset, whose entries stand from one place up to below the other.
fn end_of_page(log: &TextLog, offset: Offset, from: u64, to: u64) -> Offset
    requires order { from ≤ to }
    requires within { to ≤ length log.now.offsets }
    ensures { result ≡ last_from (end_from offset) (slice_range log.now.offsets from to) }
{
    if from < to {
        return log.offset(to - 1);
    }
    match offset {
        Offset::Start => Offset::At { lsn: 0, pos: 0 },
        Offset::At { lsn, pos } => Offset::At { lsn, pos },
    }
}

/// A copy of a page, which shares its texts.
fn twin(page: &Page) -> Result<Page, OutOfMemory>
    ensures { IfOk result (λ twin. twin ≡ page.now) }
{
    Ok(Page {
        inner: page.inner.clone()?,
        count: page.count,
        end: page.end,
        up_to_date: page.up_to_date,
    })
}

impl ChunkedLog {
    /// A log with no entry. A chunk closes at the entry with which its texts come to at least so many bytes.
    pub fn new(alloc: Global, chunk: u64) -> ChunkedLog
        requires { 1 ≤ chunk }
        ensures empty { Holds result [] }
        ensures least { result.least ≡ chunk }
    {
        ChunkedLog {
            log: TextLog::new(alloc),
            cutter: Cutter::new(alloc, chunk),
            settled: SettledPages::new(alloc),
        }
    }

    /// Keeps the page of the first closed chunk of which none is kept. False where there is no such chunk.
    fn settle_next(&mut self) -> Result<bool, OutOfMemory>
        ensures same { self.new ≡ self.old }
    {
        if self.cutter.closed() <= self.settled.entries() {
            return Ok(false);
        }
        let after = self.settled.end();
        let page = match self.cut_page(after) {
            Ok(page) => page,
            Err(PageError::OffsetAhead { .. }) => return Ok(false),
            Err(PageError::OutOfMemory) => return Err(OutOfMemory),
        };
        if page.up_to_date || page.count == 0 {
            return Ok(false);
        }
        self.settled.push(after, page)?;
        Ok(true)
    }

    /// Keeps the pages of the closed chunks.
    fn settle(&mut self) -> Result<(), OutOfMemory>
        ensures same { self.new ≡ self.old }
    {
        for _ in 0..u64::MAX {
            if !self.settle_next()? {
                break;
            }
        }
        Ok(())
    }

    /// Makes room for written entries, and lets the pages of the chunks that are closed share their bytes from now on. The entries stay as they are.
    pub fn reserve(&mut self, written: &Written) -> Result<(), OutOfMemory>
        ensures room { OnOk result (HasRoom self.new written.now) }
        ensures offsets { self.new.offsets ≡ self.old.offsets }
        ensures texts { self.new.texts ≡ self.old.texts }
        ensures least { self.new.least ≡ self.old.least }
        ensures held { (entries : List Entry) → Holds self.old entries → Holds self.new entries }
    {
        let count = written.len();
        let Some(bytes) = written.bytes().checked_add(count) else {
            return Err(OutOfMemory);
        };
        self.log.seal(self.cutter.closed())?;
        self.settle()?;
        self.log.reserve(count, bytes)?;
        self.cutter.reserve(count)
    }

    /// Adds written entries at the end. It takes no memory.
    pub fn append(&mut self, written: Written)
        requires room { HasRoom self.old written }
        requires after { rise_after (end_of self.old.offsets) written.offsets ≡ true }
        ensures offsets { self.new.offsets ≡ self.old.offsets ++ written.offsets }
        ensures texts { self.new.texts ≡ self.old.texts ++ written.texts }
        ensures least { self.new.least ≡ self.old.least }
        ensures held { (entries more : List Entry) → Holds self.old entries → Writes written more → Holds self.new (entries ++ more) }
    {
        let Written { lines, buffer } = written;
        append_lines(&mut self.log, &mut self.cutter, &lines, &buffer);
    }

    /// The offset of the last entry, or `0_0` where there is none.
    pub fn end(&self) -> Offset
        ensures offsets { result ≡ end_of self.now.offsets }
        ensures held { (entries : List Entry) → Holds self.now entries → result ≡ logs.end_of entries }
    {
        self.log.end()
    }

    /// The sum of the lengths of the texts, without commas.
    pub fn bytes(&self) -> u64
        ensures texts { result ≡ sum (map length self.now.texts) }
        ensures held { (entries : List Entry) → Holds self.now entries → result ≡ bytes_of entries }
    {
        self.log.bytes()
    }

    /// How many entries there are.
    pub fn len(&self) -> u64
        ensures texts { result ≡ length self.now.texts }
        ensures held { (entries : List Entry) → Holds self.now entries → result ≡ length entries }
    {
        self.log.len()
    }

    /// The page after an offset, by a search in the log.
    fn cut_page(&self, offset: Offset) -> Result<Page, PageError>
        ensures page { (entries : List Entry) → Holds self.now entries → IfOk result (λ page. Carries page (page_of self.now.least entries offset)) }
        ensures settles { (entries more : List Entry) → Holds self.now entries → IfOk result (λ page. page.up_to_date ≡ false → Carries page (page_of self.now.least (entries ++ more) offset)) }
        ensures filled { (entries : List Entry) → Holds self.now entries → IfOk result (λ page. page.count ≡ 0 → past offset entries ≡ []) }
        ensures utf8 { IfOk result (λ page. IsUtf8 page.inner) }
        ensures within { OnOk result (is_before (end_of self.now.offsets) offset ≡ false) }
        ensures refused { IfErr result (IsNoPage (end_of self.now.offsets) offset) }
    {
        let from = match self.log.page_bounds(offset) {
            Ok(from) => from,
            Err(OffsetAhead { end }) => return Err(PageError::OffsetAhead { end }),
        };
        let (to, up_to_date) = stop(&self.log, &self.cutter, from);
        let inner = self.log.inner(from, to)?;
        let end = end_of_page(&self.log, offset, from, to);
        let count = to - from;
        Ok(Page {
            inner,
            count,
            end,
            up_to_date,
        })
    }

    /// The page after an offset: the entries past it up to the end of the first one's chunk, where that chunk is closed, and else all of them. The texts of a closed
    /// chunk are shared with the log once room was made after it closed, and others are copied.
    ///
    /// `OffsetAhead` exactly where the offset is after the end.
    pub fn page(&self, offset: Offset) -> Result<Page, PageError>
        ensures page { (entries : List Entry) → Holds self.now entries → IfOk result (λ page. Carries page (page_of self.now.least entries offset)) }
        ensures settles { (entries more : List Entry) → Holds self.now entries → IfOk result (λ page. page.up_to_date ≡ false → Carries page (page_of self.now.least (entries ++ more) offset)) }
        ensures filled { (entries : List Entry) → Holds self.now entries → IfOk result (λ page. page.count ≡ 0 → past offset entries ≡ []) }
        ensures utf8 { IfOk result (λ page. IsUtf8 page.inner) }
        ensures within { OnOk result (is_before (end_of self.now.offsets) offset ≡ false) }
        ensures refused { IfErr result (IsNoPage (end_of self.now.offsets) offset) }
    {
        let end = self.log.end();
        if end.before(&offset) {
            return Err(PageError::OffsetAhead { end });
        }
        match self.settled.find(offset) {
            Some(page) => Ok(twin(page)?),
            None => self.cut_page(offset),
        }
    }
}
