//! What a shape keeps, apart from its test.
ghost use Rattle.std.specs.Prelude.{◌≡◌, ◌<◌, ◌+◌, ◌&&◌, ◌==◌, ℕ, Bool, List, [], ◌∷◌, ◌++◌, IfOk, None};
ghost use Rattle.shape_base.specs.declared.change.Tx.{Tx};
ghost use Rattle.shape_base.specs.declared.cause.Cause.{Cause};
ghost use Rattle.shape_json.specs.ShapeHistory.{Reader, ShapeEvent, Took, Dropped, last_lsn, taken, state_after};
ghost use Rattle.shape_json.specs.Body.{capped};
ghost use Rattle.shape_base.specs.declared.entry.Entry.{Entry};
ghost use Rattle.chunked_log.specs.Chunked.{Holds};
ghost use Rattle.shape_state.specs.Standing.{Stands, Fits, after, is_gone_in};
ghost use Rattle.shape_state.specs.Answers.{IsPrepared, IsPaged, IsPagedOf, HasUtf8, waits, stage_of, log_bytes};
ghost use Rattle.shape_state.specs.declared.prepared.Prepared.TheVariants as prepared;

use crate::commits::Commits;
use crate::paged::{Paged, Stage};
use crate::prepared::Prepared;
use chunked_log::{ChunkedLog, PageError, Written};
use shape_base::{Cause, Limits, Offset, OutOfMemory, Tx};
use snapshot_merge::Vis;
use std::alloc::Global;

/// What a shape keeps from its snapshot on.
#[derive(Drop)]
pub(crate) struct Logging {
    pub(crate) log: ChunkedLog,
    /// Which transactions its snapshot shows.
    pub(crate) vis: Vis,
    /// Whether the snapshot shows all commits that came so far.
    pub(crate) all_shown: bool,
}

/// What a shape keeps.
#[derive(Drop)]
pub(crate) enum Kept {
    /// The commits that wait for its snapshot.
    Waiting { commits: Commits },
    /// Its log.
    Logging { logging: Logging },
    /// Why it was dropped.
    Gone { cause: Cause },
}

/// What a shape keeps, its limits, and how many commits came to it.
#[derive(Drop)]
pub(crate) struct State {
    pub(crate) limits: Limits,
    pub(crate) kept: Kept,
    pub(crate) took: u64,
}

impl State {
    /// A shape that waits for its snapshot; nothing came.
    pub(crate) fn new(alloc: Global, limits: Limits) -> State
        ensures stands { (r : Reader) → Stands r result [] }
        ensures limits { result.limits ≡ limits }
    {
        State {
            limits,
            kept: Kept::Waiting {
                commits: Commits::new(alloc),
            },
            took: 0,
        }
    }

    fn is_gone(&self) -> bool
        ensures { result ≡ is_gone_in self.now.kept }
    {
        match &self.kept {
            Kept::Waiting { .. } => false,
            Kept::Logging { .. } => false,
            Kept::Gone { .. } => true,
        }
    }

    /// One commit more came.
    fn count(&mut self)
        ensures took { self.new.took ≡ capped (self.old.took + 1) }
        ensures kept { self.new.kept ≡ self.old.kept }
        ensures limits { self.new.limits ≡ self.old.limits }
    {
        self.took = self.took.saturating_add(1);
    }

    /// The commit is passed over.
    fn pass(&mut self)
        requires { Fits self.old.kept prepared.Skip }
        ensures stands { (r : Reader) (events : List ShapeEvent) (tx : Tx) (others : ℕ) → Stands r self.old events → last_lsn events < tx.lsn → IsPrepared r self.old.limits events tx others prepared.Skip → Stands r self.new (after r self.old.limits events (Took tx others)) }
        ensures limits { self.new.limits ≡ self.old.limits }
    {
        match &self.kept {
            Kept::Waiting { .. } => return,
            Kept::Logging { .. } => {}
            Kept::Gone { .. } => return,
        }
        self.count();
    }

    /// The commit waits for the snapshot.
    fn keep(&mut self, tx: Tx)
        requires { Fits self.old.kept (prepared.Buffer tx) }
        ensures stands { (r : Reader) (events : List ShapeEvent) (came : Tx) (others : ℕ) → Stands r self.old events → last_lsn events < came.lsn → IsPrepared r self.old.limits events came others (prepared.Buffer tx) → Stands r self.new (after r self.old.limits events (Took came others)) }
        ensures limits { self.new.limits ≡ self.old.limits }
    {
        match &mut self.kept {
            Kept::Waiting { commits } => commits.push(tx),
            Kept::Logging { .. } => return,
            Kept::Gone { .. } => return,
        }
        self.count();
    }

    /// The entries of the commit go to the log.
    fn append(&mut self, written: Written)
        requires { Fits self.old.kept (prepared.Append written) }
        ensures stands { (r : Reader) (events : List ShapeEvent) (tx : Tx) (others : ℕ) → Stands r self.old events → last_lsn events < tx.lsn → IsPrepared r self.old.limits events tx others (prepared.Append written) → Stands r self.new (after r self.old.limits events (Took tx others)) }
        ensures limits { self.new.limits ≡ self.old.limits }
    {
        match &mut self.kept {
            Kept::Waiting { .. } => return,
            Kept::Logging { logging } => {
                logging.log.append(written);
                logging.all_shown = false;
            }
            Kept::Gone { .. } => return,
        }
        self.count();
    }

    /// The commit drops the shape.
    fn stop(&mut self, cause: Cause)
        requires { Fits self.old.kept (prepared.Drop cause) }
        ensures stands { (r : Reader) (events : List ShapeEvent) (tx : Tx) (others : ℕ) → Stands r self.old events → last_lsn events < tx.lsn → IsPrepared r self.old.limits events tx others (prepared.Drop cause) → Stands r self.new (after r self.old.limits events (Took tx others)) }
        ensures limits { self.new.limits ≡ self.old.limits }
    {
        self.kept = Kept::Gone { cause };
        self.count();
    }

    /// Does what was prepared for a commit.
    pub(crate) fn commit(&mut self, prepared: Prepared)
        requires { Fits self.old.kept prepared }
        ensures stands { (r : Reader) (events : List ShapeEvent) (tx : Tx) (others : ℕ) → Stands r self.old events → last_lsn events < tx.lsn → IsPrepared r self.old.limits events tx others prepared → Stands r self.new (after r self.old.limits events (Took tx others)) }
        ensures limits { self.new.limits ≡ self.old.limits }
    {
        match prepared {
            Prepared::Skip => self.pass(),
            Prepared::Buffer { tx } => self.keep(tx),
            Prepared::Append { written } => self.append(written),
            Prepared::Drop { cause } => self.stop(cause),
        }
    }

    /// Drops the shape, where it is not dropped.
    pub(crate) fn drop_with(&mut self, cause: Cause)
        ensures stands { (r : Reader) (events : List ShapeEvent) → Stands r self.old events → Stands r self.new (after r self.old.limits events (Dropped cause)) }
        ensures limits { self.new.limits ≡ self.old.limits }
    {
        if self.is_gone() {
            return;
        }
        self.kept = Kept::Gone { cause };
    }

    /// Where the shape is in its life.
    pub(crate) fn stage(&self) -> Stage
        ensures { (r : Reader) (events : List ShapeEvent) → Stands r self.now events → result ≡ stage_of (state_after r self.now.limits events) }
    {
        match &self.kept {
            Kept::Waiting { .. } => Stage::Starting,
            Kept::Logging { .. } => Stage::Ready,
            Kept::Gone { cause } => Stage::Gone { cause: *cause },
        }
    }

    /// The bytes of the log.
    pub(crate) fn bytes(&self) -> u64
        ensures { (r : Reader) (events : List ShapeEvent) → Stands r self.now events → result ≡ log_bytes (state_after r self.now.limits events) }
    {
        match &self.kept {
            Kept::Waiting { .. } => 0,
            Kept::Logging { logging } => logging.log.bytes(),
            Kept::Gone { .. } => 0,
        }
    }

    /// The page of the log after an offset.
    pub(crate) fn page(&self, offset: Offset, live: bool, late: bool) -> Result<Paged, OutOfMemory>
        ensures paged { (r : Reader) (events : List ShapeEvent) → Stands r self.now events → IfOk result (IsPaged self.now.limits.chunk (state_after r self.now.limits events) offset live late) }
        ensures utf8 { IfOk result HasUtf8 }
    {
        match &self.kept {
            Kept::Waiting { .. } => Ok(Paged::Starting),
            Kept::Logging { logging } => page_of(&logging.log, offset, live, late),
            Kept::Gone { cause } => Ok(Paged::Gone { cause: *cause }),
        }
    }
}

/// Whether a request waits for more than a page of so many entries.
fn is_nothing_yet(live: bool, late: bool, count: u64) -> bool
    ensures { result ≡ (waits live late && (count == 0)) }
{
    live && !late && count == 0
}

/// What a request for a page of a log is answered.
fn page_of(log: &ChunkedLog, offset: Offset, live: bool, late: bool) -> Result<Paged, OutOfMemory>
    ensures paged { (entries : List Entry) → Holds log.now entries → IfOk result (IsPagedOf log.now.least entries offset live late) }
    ensures utf8 { IfOk result HasUtf8 }
{
    let page = match log.page(offset) {
        Ok(page) => page,
        Err(PageError::OffsetAhead { end }) => return Ok(Paged::OffsetAhead { end }),
        Err(PageError::OutOfMemory) => return Err(OutOfMemory),
    };
    if is_nothing_yet(live, late, page.count) {
        return Ok(Paged::NotYet);
    }
    Ok(Paged::Page(page))
}
