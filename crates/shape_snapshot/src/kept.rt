//! What stays of rows: their keys, and the log of their entries.
ghost use Rattle.std.specs.Prelude.{◌≡◌, ◌⊎◌, ◌+◌, ◌||◌, ◌≤◌, ℕ, false, List, [], ◌∷◌, ◌++◌, length, IfOk, IfErr, OnOk, OnErr, None};
ghost use Rattle.std.specs.BTreeSet.{contains};
ghost use Rattle.std.specs.Ordering.{nat_cmp};
ghost use Rattle.std.specs.Cmp.Lexicographic.{slice_cmp};
ghost use Rattle.shape_base.specs.declared.entry.Entry.{Entry};
ghost use Rattle.shape_base.specs.declared.offset.Offset.TheVariants.{At};
ghost use Rattle.shape_base.specs.Tables.{same_text};
ghost use Rattle.shape_log.specs.Texts.{end_of};
ghost use Rattle.shape_json.specs.ShapeHistory.{bytes_of};
ghost use Rattle.chunked_log.specs.Chunked.{Holds};
ghost use Rattle.shape_snapshot.specs.Refusals.{refusal_by, IsCause};

use crate::faults::SnapError;
use chunked_log::{ChunkedLog, Written};
use shape_base::{Duplicate, Entries, Entry, Limits, OutOfMemory, Text};
use shape_json::entry_size;
use std::alloc::Global;
use std::collections::BTreeSet;

/// The keys of the entries that were put, and their log. The entries stand at `0_1`, `0_2` and on.
#[derive(Drop)]
pub(crate) struct Kept {
    alloc: Global,
    keys: BTreeSet<Text>,
    log: ChunkedLog,
    ghost numbered: { end_of log.offsets ≡ At 0 (length log.texts) },
}

impl Kept {
    /// Nothing was put. A chunk of the log closes at the entry with which its texts come to at least so many bytes.
    pub(crate) fn new(alloc: Global, chunk: u64) -> Kept
        requires { 1 ≤ chunk }
        ensures keys { (key : List ℕ) → contains (slice_cmp nat_cmp) result.keys key ≡ false }
        ensures log { Holds result.log [] }
        ensures least { result.log.least ≡ chunk }
    {
        Kept {
            alloc,
            keys: BTreeSet::new(alloc),
            log: ChunkedLog::new(alloc, chunk),
        }
    }

    /// The place of the next entry.
    pub(crate) fn next_place(&self) -> Result<u64, OutOfMemory>
        ensures { IfOk result (λ pos. pos ≡ length self.now.log.texts + 1) }
    {
        self.log.len().checked_add(1).ok_or(OutOfMemory)
    }

    /// Puts an entry behind the others, where its key is new and the log keeps to its limit. After a refusal nothing is changed but the room of the log.
    pub(crate) fn put(&mut self, entry: Entry, limits: &Limits) -> Result<(), SnapError>
        requires { entry.offset ≡ At 0 (length self.old.log.texts + 1) }
        ensures ok { (entries : List Entry) → Holds self.old.log entries → OnOk result (refusal_by limits.now (contains (slice_cmp nat_cmp) self.old.keys entry.key) entry.key (bytes_of (entries ++ entry ∷ [])) ≡ None) }
        ensures err { (entries : List Entry) → Holds self.old.log entries → IfErr result (IsCause (refusal_by limits.now (contains (slice_cmp nat_cmp) self.old.keys entry.key) entry.key (bytes_of (entries ++ entry ∷ [])))) }
        ensures log { (entries : List Entry) → Holds self.old.log entries → OnOk result (Holds self.new.log (entries ++ entry ∷ [])) }
        ensures log_kept { (entries : List Entry) → Holds self.old.log entries → OnErr result (Holds self.new.log entries) }
        ensures keys { OnOk result ((key : List ℕ) → contains (slice_cmp nat_cmp) self.new.keys key ≡ (same_text key entry.key || contains (slice_cmp nat_cmp) self.old.keys key)) }
        ensures keys_kept { OnErr result ((key : List ℕ) → contains (slice_cmp nat_cmp) self.new.keys key ≡ contains (slice_cmp nat_cmp) self.old.keys key) }
        ensures least { self.new.log.least ≡ self.old.log.least }
    {
        if self.keys.contains(&entry.key) {
            let Entry { key, .. } = entry;
            return Err(SnapError::DuplicateKey { key });
        }
        let bytes = self.log.bytes().saturating_add(entry_size(&entry));
        let limit = limits.log;
        if bytes > limit {
            return Err(SnapError::LogFull { bytes, limit });
        }
        Ok(self.add(entry)?)
    }

    /// Adds an entry behind the others, whatever its key.
    fn add(&mut self, entry: Entry) -> Result<(), OutOfMemory>
        requires { entry.offset ≡ At 0 (length self.old.log.texts + 1) }
        ensures log { (entries : List Entry) → Holds self.old.log entries → OnOk result (Holds self.new.log (entries ++ entry ∷ [])) }
        ensures log_kept { (entries : List Entry) → Holds self.old.log entries → OnErr result (Holds self.new.log entries) }
        ensures keys { OnOk result ((key : List ℕ) → contains (slice_cmp nat_cmp) self.new.keys key ≡ (same_text key entry.key || contains (slice_cmp nat_cmp) self.old.keys key)) }
        ensures keys_kept { OnErr result ((key : List ℕ) → contains (slice_cmp nat_cmp) self.new.keys key ≡ contains (slice_cmp nat_cmp) self.old.keys key) }
        ensures least { self.new.log.least ≡ self.old.log.least }
    {
        let alloc = self.alloc;
        let key = entry.key.copy(alloc)?;
        let entries = Entries::from_vec(vec![in alloc; entry]?);
        let written = Written::of(alloc, &entries)?;
        self.log.reserve(&written)?;
        let _is_new = self.keys.insert(key)?;
        self.log.append(written);
        Ok(())
    }

    /// The log, handed over.
    pub(crate) fn into_log(self) -> ChunkedLog
        ensures { result ≡ self.log }
    {
        let Kept {
            alloc: _,
            keys: _,
            log,
        } = self;
        log
    }
}
