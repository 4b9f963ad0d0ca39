//! The snapshot under way.
ghost use Rattle.std.specs.Prelude.{◌≡◌, ◌++◌, ◌∷◌, [], IfOk, IfErr, OnOk, OnErr, None, Ok};
ghost use Rattle.shape_base.specs.Tables.{Table};
ghost use Rattle.shape_snapshot.specs.Refusals.{reader_of, start_of, refusal_of, IsRefusal, IsCause};
ghost use Rattle.shape_snapshot.specs.Taken.{HasTaken};

use crate::faults::SnapError;
use crate::head::{check_definition, check_last, read_visibility};
use crate::kept::Kept;
use crate::rows::entry_of;
use change_map::Emitter;
use chunked_log::ChunkedLog;
use pg_dialogue::SnapHead;
use shape_base::{Duplicate, Limits, Row, RowTest};
use snapshot_merge::Vis;
use std::alloc::Global;

/// A snapshot of a shape's table, of which rows are taken. Contracts see the test of its rows, the limits, which transactions it shows, and what stays of the rows.
#[derive(Drop)]
pub struct Snap<T: RowTest> {
    alloc: Global,
    emitter: Emitter<T>,
    limits: Limits,
    vis: Vis,
    kept: Kept,
}

impl<T: RowTest> Snap<T> {
    /// A snapshot that has taken no row, of the shape with this test. `last` has the low 32 bits of the id of the last transaction that was taken before the shape
    /// was registered.
    ///
    /// Refusals, in the order in which they are tried: `BadSnapshot` exactly where the text of its visibility cannot be read, `DefinitionChanged` exactly where its OID
    /// or its columns are not those of the test's definition, and `Stale` exactly where `last` is there and the snapshot does not show it.
    pub fn start(
        alloc: Global,
        test: &T,
        last: Option<u32>,
        head: &SnapHead,
        limits: &Limits,
    ) -> Result<Snap<T>, SnapError>
        ensures started { IfOk result (λ snap. start_of (T.knows test.now).definition last head.now ≡ Ok snap.vis) }
        ensures refused { IfErr result (IsRefusal (start_of (T.knows test.now).definition last head.now)) }
        ensures taken { IfOk result (λ snap. HasTaken (reader_of (T.knows test.now) (T.unread test.now)) limits.now snap.kept []) }
        ensures test { IfOk result (λ snap. snap.emitter.test ≡ test.now) }
        ensures limits { IfOk result (λ snap. snap.limits ≡ limits.now) }
        ensures least { IfOk result (λ snap. snap.kept.log.least ≡ limits.now.chunk) }
    {
        let vis = read_visibility(alloc, head)?;
        check_definition(alloc, test.definition(), head)?;
        check_last(&vis, last)?;
        let emitter = Emitter::new(alloc, test.copy(alloc)?)?;
        Ok(Snap {
            alloc,
            emitter,
            limits: *limits,
            vis,
            kept: Kept::new(alloc, limits.chunk),
        })
    }

    /// Takes the next row. It is not kept: where it is selected, its key and the text of its entry are.
    ///
    /// Refusals, in the order in which they are tried: `WrongWidth`, `BadValue` where the row has no truth, `NullKey` where a key value is null, and of a row that is
    /// selected `DuplicateKey` where its key came before, and `LogFull` where the log would pass its limit. Each comes exactly there. After a refusal the snapshot
    /// has the rows that it had.
    pub fn row(&mut self, row: Row) -> Result<(), SnapError>
        // Whatever rows were taken, the next is taken only where there is no cause to refuse it.
        ensures came { (rows : Table) → HasTaken (reader_of (T.knows self.old.emitter.test) (T.unread self.old.emitter.test)) self.old.limits self.old.kept rows → OnOk result (refusal_of (reader_of (T.knows self.old.emitter.test) (T.unread self.old.emitter.test)) self.old.limits rows row ≡ None) }
        ensures refused { (rows : Table) → HasTaken (reader_of (T.knows self.old.emitter.test) (T.unread self.old.emitter.test)) self.old.limits self.old.kept rows → IfErr result (IsCause (refusal_of (reader_of (T.knows self.old.emitter.test) (T.unread self.old.emitter.test)) self.old.limits rows row)) }
        ensures taken { (rows : Table) → HasTaken (reader_of (T.knows self.old.emitter.test) (T.unread self.old.emitter.test)) self.old.limits self.old.kept rows → OnOk result (HasTaken (reader_of (T.knows self.new.emitter.test) (T.unread self.new.emitter.test)) self.new.limits self.new.kept (rows ++ row ∷ [])) }
        ensures unchanged { (rows : Table) → HasTaken (reader_of (T.knows self.old.emitter.test) (T.unread self.old.emitter.test)) self.old.limits self.old.kept rows → OnErr result (HasTaken (reader_of (T.knows self.new.emitter.test) (T.unread self.new.emitter.test)) self.new.limits self.new.kept rows) }
        ensures test { self.new.emitter.test ≡ self.old.emitter.test }
        ensures limits { self.new.limits ≡ self.old.limits }
        ensures visibility { self.new.vis ≡ self.old.vis }
        ensures least { self.new.kept.log.least ≡ self.old.kept.log.least }
    {
        let pos = self.kept.next_place()?;
        let Some(entry) = entry_of(self.alloc, &self.emitter, row, pos)? else {
            return Ok(());
        };
        self.kept.put(entry, &self.limits)
    }

    /// The test of its rows.
    pub fn test(&self) -> &T
        ensures { result.now ≡ self.now.emitter.test }
    {
        self.emitter.test()
    }

    /// The limits that it keeps to.
    pub fn limits(&self) -> &Limits
        ensures { result.now ≡ self.now.limits }
    {
        &self.limits
    }

    /// Which transactions it shows, and the log of the rows that were taken. They are handed over, and not copied.
    pub fn into_parts(self) -> (Vis, ChunkedLog)
        ensures visibility { result.0 ≡ self.vis }
        ensures log { result.1 ≡ self.kept.log }
    {
        let Snap {
            alloc: _,
            emitter: _,
            limits: _,
            vis,
            kept,
        } = self;
        (vis, kept.into_log())
    }
}
