//! The shape.
ghost use Rattle.std.specs.Prelude.{◌≡◌, ◌<◌, ℕ, Bool, true, false, List, [], ◌∷◌, ◌++◌, Some, None, length, IfOk, IfErr, OnOk, OnErr};
ghost use Rattle.shape_base.specs.declared.cause.Cause.{Cause};
ghost use Rattle.shape_base.specs.declared.change.Tx.{Tx};
ghost use Rattle.shape_base.specs.Snapshot.{Snapshot};
ghost use Rattle.shape_base.specs.Shape.{shown};
ghost use Rattle.shape_base.specs.Log.{start_from};
ghost use Rattle.shape_base.specs.Transactions.{IsWhole};
ghost use Rattle.shape_log.specs.Texts.{end_of};
ghost use Rattle.chunked_log.specs.Chunked.{Holds};
ghost use Rattle.shape_json.specs.Body.{capped};
ghost use Rattle.shape_json.specs.ShapeHistory.{Reader, ShapeEvent, Snapped, Took, Dropped, last_lsn, taken, drop_of, state_after};
ghost use Rattle.shape_snapshot.specs.Taken.{HasTaken};
ghost use Rattle.shape_state.specs.Reading.{reader_of};
ghost use Rattle.shape_state.specs.Later.{lsn_in};
ghost use Rattle.shape_state.specs.Standing.{Keeps, Stands, Fits, IsLater, IsUnready, after};
ghost use Rattle.shape_state.specs.Answers.{IsPrepared, IsPaged, HasUtf8, IsReadyError, stage_of, log_bytes};

use crate::paged::{Paged, Stage};
use crate::prepared::Prepared;
use crate::preparing::{prepare_logging, prepare_waiting};
use crate::readying::{add_all, unseen};
use crate::state::{Kept, Logging, State};
use change_map::Emitter;
use chunked_log::ChunkedLog;
use shape_base::{Cause, Limits, Offset, OutOfMemory, RowTest, Tx};
use shape_snapshot::Snap;
use snapshot_merge::Vis;
use std::alloc::Global;

/// Why a snapshot is not taken.
#[derive(Clone, Copy, Debug, PartialEq, Eq)]
pub enum ReadyError {
    /// The shape was dropped before.
    Gone { cause: Cause },
    /// An allocation failed. The snapshot is lost, and the shape still waits.
    OutOfMemory,
}

impl From<OutOfMemory> for ReadyError {
    ghost use Rattle.std.specs.Prelude.{◌≡◌};
    ghost use Rattle.shape_state.specs.declared.shape.ReadyError.TheVariants as errors;

    ghost from_gives = { λ _ e. e ≡ errors.OutOfMemory };

    fn from(_error: OutOfMemory) -> ReadyError {
        ReadyError::OutOfMemory
    }
}

/// One shape: the test of its rows, and what it keeps.
#[derive(Drop)]
pub struct Shape<T: RowTest> {
    emitter: Emitter<T>,
    state: State,
    alloc: Global,
}

fn lsn_of(offset: Offset) -> u64
    ensures { result ≡ lsn_in offset }
{
    match offset {
        Offset::Start => 0,
        Offset::At { lsn, pos: _ } => lsn,
    }
}

/// What is prepared for a commit, by what a shape keeps.
fn prepare_kept<T: RowTest>(
    alloc: Global,
    emitter: &Emitter<T>,
    limits: &Limits,
    kept: &mut Kept,
    tx: &Tx,
    others: u64,
) -> Result<Prepared, OutOfMemory>
    requires whole { IsWhole tx.now }
    requires later { IsLater kept.old tx.now.lsn }
    ensures prepared { (events : List ShapeEvent) → Keeps (reader_of (T.knows emitter.now.test) (T.unread emitter.now.test)) limits.now events kept.old → IfOk result (IsPrepared (reader_of (T.knows emitter.now.test) (T.unread emitter.now.test)) limits.now events tx.now others) }
    ensures fits { IfOk result (Fits kept.new) }
    ensures still { (r : Reader) (events : List ShapeEvent) → Keeps r limits.now events kept.old → Keeps r limits.now events kept.new }
{
    match kept {
        Kept::Waiting { commits } => prepare_waiting(alloc, limits, commits, tx),
        Kept::Logging { logging } => {
            prepare_logging(alloc, emitter, limits, logging, tx, others)
        }
        Kept::Gone { .. } => Ok(Prepared::Skip),
    }
}

impl<T: RowTest> Shape<T> {
    /// A shape that waits for its snapshot. Until it comes, commits are buffered.
    pub fn begin(alloc: Global, test: T, limits: Limits) -> Result<Shape<T>, OutOfMemory>
        ensures stands { (r : Reader) → IfOk result (λ shape. Stands r shape.state []) }
        ensures test { IfOk result (λ shape. shape.emitter.test ≡ test) }
        ensures limits { IfOk result (λ shape. shape.state.limits ≡ limits) }
    {
        let emitter = Emitter::new(alloc, test)?;
        Ok(Shape {
            emitter,
            state: State::new(alloc, limits),
            alloc,
        })
    }

    /// The test of its rows.
    pub fn test(&self) -> &T
        ensures { result.now ≡ self.now.emitter.test }
    {
        self.emitter.test()
    }

    /// The limits that it keeps to.
    pub fn limits(&self) -> Limits
        ensures { result ≡ self.now.state.limits }
    {
        self.state.limits
    }

    /// Whether it has taken no snapshot: `ready` may be called.
    pub fn is_unready(&self) -> bool
        ensures yes { result ≡ true → IsUnready self.now.state.kept }
        ensures no { result ≡ false → IsUnready self.now.state.kept → ⊥ }
    {
        match &self.state.kept {
            Kept::Waiting { .. } => true,
            Kept::Logging { .. } => false,
            Kept::Gone { .. } => true,
        }
    }

    /// Whether a commit with that LSN comes after all that it has: `prepare` may be called.
    pub fn is_later(&self, lsn: u64) -> bool
        ensures yes { result ≡ true → IsLater self.now.state.kept lsn }
        ensures no { result ≡ false → IsLater self.now.state.kept lsn → ⊥ }
    {
        match &self.state.kept {
            Kept::Waiting { commits } => commits.last() < lsn,
            Kept::Logging { logging } => lsn_of(logging.log.end()) < lsn,
            Kept::Gone { .. } => true,
        }
    }

    /// Takes a log that begins with the rows of a snapshot, and adds the commits that waited from the first on that the snapshot does not show.
    fn begin_log(&mut self, vis: Vis, mut log: ChunkedLog) -> Result<(), ReadyError>
        requires unready { IsUnready self.old.state.kept }
        requires start { lsn_in (end_of log.offsets) ≡ 0 }
        requires least { log.least ≡ self.old.state.limits.chunk }
        ensures stands { (events : List ShapeEvent) (snapshot : Snapshot) → Stands (reader_of (T.knows self.old.emitter.test) (T.unread self.old.emitter.test)) self.old.state events → snapshot.visibility ≡ vis → Holds log (start_from 1 (shown (T.knows self.old.emitter.test) snapshot.rows)) → OnOk result (Stands (reader_of (T.knows self.old.emitter.test) (T.unread self.old.emitter.test)) self.new.state (after (reader_of (T.knows self.old.emitter.test) (T.unread self.old.emitter.test)) self.old.state.limits events (Snapped snapshot))) }
        ensures went { (r : Reader) (events : List ShapeEvent) → Stands r self.old.state events → OnOk result (drop_of r self.old.state.limits events ≡ None) }
        ensures refused { (r : Reader) (events : List ShapeEvent) → Stands r self.old.state events → IfErr result (IsReadyError (drop_of r self.old.state.limits events)) }
        ensures unchanged { OnErr result (self.new.state ≡ self.old.state) }
        ensures test { self.new.emitter.test ≡ self.old.emitter.test }
        ensures limits { self.new.state.limits ≡ self.old.state.limits }
    {
        let commits = match &self.state.kept {
            Kept::Waiting { commits } => commits,
            Kept::Logging { .. } => return Ok(()),
            Kept::Gone { cause } => return Err(ReadyError::Gone { cause: *cause }),
        };
        let txs = unseen(&vis, commits.as_slice());
        let all_shown = txs.is_empty();
        let stop = add_all(self.alloc, &self.emitter, &self.state.limits, &mut log, txs)?;
        match stop {
            Some(cause) => {
                self.state.kept = Kept::Gone { cause };
                Ok(())
            }
            None => {
                let logging = Logging {
                    log,
                    vis,
                    all_shown,
                };
                self.state.kept = Kept::Logging { logging };
                Ok(())
            }
        }
    }

    /// Takes the snapshot, and then the buffered commits from the first on that it does not show, in their order. One of these may drop the shape, and the answer is still Ok.
    /// The limit of all logs together is not tried.
    ///
    /// The shape has taken no snapshot before, and this one was started over a test that knows the same and the same limits. Refuses `Gone` exactly where the shape was dropped before. Out of memory the
    /// snapshot is lost, and the shape still waits.
    pub fn ready(&mut self, snap: Snap<T>) -> Result<(), ReadyError>
        requires unready { IsUnready self.old.state.kept }
        requires test { T.knows snap.emitter.test ≡ T.knows self.old.emitter.test }
        requires least { snap.kept.log.least ≡ self.old.state.limits.chunk }
        ensures stands { (events : List ShapeEvent) (snapshot : Snapshot) → Stands (reader_of (T.knows self.old.emitter.test) (T.unread self.old.emitter.test)) self.old.state events → snapshot.visibility ≡ snap.vis → HasTaken (reader_of (T.knows snap.emitter.test) (T.unread snap.emitter.test)) snap.limits snap.kept snapshot.rows → OnOk result (Stands (reader_of (T.knows self.old.emitter.test) (T.unread self.old.emitter.test)) self.new.state (after (reader_of (T.knows self.old.emitter.test) (T.unread self.old.emitter.test)) self.old.state.limits events (Snapped snapshot))) }
        ensures went { (r : Reader) (events : List ShapeEvent) → Stands r self.old.state events → OnOk result (drop_of r self.old.state.limits events ≡ None) }
        ensures refused { (r : Reader) (events : List ShapeEvent) → Stands r self.old.state events → IfErr result (IsReadyError (drop_of r self.old.state.limits events)) }
        ensures unchanged { OnErr result (self.new.state ≡ self.old.state) }
        ensures test { self.new.emitter.test ≡ self.old.emitter.test }
        ensures limits { self.new.state.limits ≡ self.old.state.limits }
    {
        let (vis, log) = snap.into_parts();
        self.begin_log(vis, log)
    }

    /// Prepares what a commit does, and takes all memory for it. `others` is the bytes of all other logs.
    ///
    /// The commit is whole, and its LSN is above 0 and, where the shape is not dropped, above that of the log's end and of each buffered commit.
    pub fn prepare(&mut self, tx: &Tx, others: u64) -> Result<Prepared, OutOfMemory>
        requires whole { IsWhole tx.now }
        requires later { IsLater self.old.state.kept tx.now.lsn }
        ensures prepared { (events : List ShapeEvent) → Stands (reader_of (T.knows self.old.emitter.test) (T.unread self.old.emitter.test)) self.old.state events → IfOk result (IsPrepared (reader_of (T.knows self.old.emitter.test) (T.unread self.old.emitter.test)) self.old.state.limits events tx.now others) }
        ensures fits { IfOk result (Fits self.new.state.kept) }
        ensures still { (r : Reader) (events : List ShapeEvent) → Stands r self.old.state events → Stands r self.new.state events }
        ensures test { self.new.emitter.test ≡ self.old.emitter.test }
        ensures limits { self.new.state.limits ≡ self.old.state.limits }
    {
        let limits = self.state.limits;
        prepare_kept(
            self.alloc,
            &self.emitter,
            &limits,
            &mut self.state.kept,
            tx,
            others,
        )
    }

    /// Does what `prepare` prepared for a commit. It takes no memory. Nothing else may be done to the shape between the two calls.
    pub fn commit(&mut self, prepared: Prepared)
        requires { Fits self.old.state.kept prepared }
        ensures stands { (events : List ShapeEvent) (tx : Tx) (others : ℕ) → Stands (reader_of (T.knows self.old.emitter.test) (T.unread self.old.emitter.test)) self.old.state events → last_lsn events < tx.lsn → IsPrepared (reader_of (T.knows self.old.emitter.test) (T.unread self.old.emitter.test)) self.old.state.limits events tx others prepared → Stands (reader_of (T.knows self.old.emitter.test) (T.unread self.old.emitter.test)) self.new.state (after (reader_of (T.knows self.old.emitter.test) (T.unread self.old.emitter.test)) self.old.state.limits events (Took tx others)) }
        ensures test { self.new.emitter.test ≡ self.old.emitter.test }
        ensures limits { self.new.state.limits ≡ self.old.state.limits }
    {
        self.state.commit(prepared);
    }

    /// Drops the shape; nothing where it is dropped. It takes no memory.
    pub fn drop_with(&mut self, cause: Cause)
        ensures stands { (r : Reader) (events : List ShapeEvent) → Stands r self.old.state events → Stands r self.new.state (after r self.old.state.limits events (Dropped cause)) }
        ensures test { self.new.emitter.test ≡ self.old.emitter.test }
        ensures limits { self.new.state.limits ≡ self.old.state.limits }
    {
        self.state.drop_with(cause);
    }

    /// What a request for the page after an offset is answered. A request that is live and not late waits where nothing stands past the offset.
    pub fn page(&self, offset: Offset, live: bool, late: bool) -> Result<Paged, OutOfMemory>
        ensures paged { (events : List ShapeEvent) → Stands (reader_of (T.knows self.now.emitter.test) (T.unread self.now.emitter.test)) self.now.state events → IfOk result (IsPaged self.now.state.limits.chunk (state_after (reader_of (T.knows self.now.emitter.test) (T.unread self.now.emitter.test)) self.now.state.limits events) offset live late) }
        ensures utf8 { IfOk result HasUtf8 }
    {
        self.state.page(offset, live, late)
    }

    /// The bytes of its log, without commas; 0 where it has none. It takes no memory.
    pub fn bytes(&self) -> u64
        ensures { (events : List ShapeEvent) → Stands (reader_of (T.knows self.now.emitter.test) (T.unread self.now.emitter.test)) self.now.state events → result ≡ log_bytes (state_after (reader_of (T.knows self.now.emitter.test) (T.unread self.now.emitter.test)) self.now.state.limits events) }
    {
        self.state.bytes()
    }

    /// How many commits came to it; 2^64 - 1 where there were more. It takes no memory.
    pub fn took(&self) -> u64
        ensures { (r : Reader) (events : List ShapeEvent) → Stands r self.now.state events → result ≡ capped (length (taken events)) }
    {
        self.state.took
    }

    /// Where it is in its life. It takes no memory.
    pub fn stage(&self) -> Stage
        ensures { (events : List ShapeEvent) → Stands (reader_of (T.knows self.now.emitter.test) (T.unread self.now.emitter.test)) self.now.state events → result ≡ stage_of (state_after (reader_of (T.knows self.now.emitter.test) (T.unread self.now.emitter.test)) self.now.state.limits events) }
    {
        self.state.stage()
    }
}
