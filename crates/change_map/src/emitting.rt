//! The entries of a change.
ghost use Rattle.std.proofs.Props.{props};
ghost use Rattle.std.specs.Prelude.{◌≡◌, ◌*◌, ◌+◌, ◌<◌, ◌^◌, ℕ, false, true, length, None, Some, IfOk, IsNone, IsErrOf, MatchResult, MatchBool};
ghost use Rattle.shape_base.specs.Tables.{lacks_key};
ghost use Rattle.shape_base.specs.Shape.{emit, entries_of, keyed, insert_at, delete_at, by_name, picks, pick, is_bad, old_of, new_of};
ghost use Rattle.change_map.specs.Emitting.{in_order, own, IsWhole, IsBadAt, IsChangeBadAt, LeadsOver};

use crate::cells::{cells_at, cells_that_differ};
use crate::key::{have_same_key, null_key, write_key};
use crate::order::in_name_order;
use shape_base::{
    Cells, Change, ChangeKind, Entry, Offset, Op, OutOfMemory, Places, Row, RowTest, is_selected,
};
use std::alloc::Global;

/// The entries of one change: none, one, or a delete and then an insert.
#[derive(Drop)]
pub struct Emitted {
    pub first: Option<Entry>,
    pub second: Option<Entry>,
}

/// Why a change has no entries.
#[derive(Clone, Copy, Debug, PartialEq, Eq)]
pub enum EmitError {
    /// The old row or the new one has no truth or a null key value. The column is that of the
    /// first that fails of: the truth of the old row, its key, the truth of the new row, its key.
    BadRow { column: u32 },
    OutOfMemory,
}

impl From<OutOfMemory> for EmitError {
    ghost use Rattle.std.specs.Prelude.{◌≡◌};
    ghost use Rattle.change_map.specs.declared.emitting.EmitError.TheVariants as errors;

    ghost from_gives = { λ _ e. e ≡ errors.OutOfMemory };

    fn from(_error: OutOfMemory) -> EmitError {
        EmitError::OutOfMemory
    }
}

/// A row that has no truth or a null key value.
#[derive(Drop)]
struct Unreadable {
    column: u32,
}

impl From<Unreadable> for EmitError {
    ghost use Rattle.std.specs.Prelude.{◌≡◌};
    ghost use Rattle.change_map.specs.declared.emitting.EmitError.TheVariants as errors;

    ghost from_gives = { λ x e. e ≡ errors.BadRow x.column };

    fn from(row: Unreadable) -> EmitError {
        EmitError::BadRow { column: row.column }
    }
}

/// Whether a row is selected, where it can be read.
fn is_picked<T: RowTest>(test: &T, row: &Row) -> Result<bool, Unreadable>
    requires { length row.now ≡ length (T.knows test.now).definition.columns }
    ensures { MatchResult result (λ b. (b ≡ picks (T.knows test.now) row.now) × (is_bad (T.knows test.now) (Some row.now) ≡ false)) (λ e. (is_bad (T.knows test.now) (Some row.now) ≡ true) × IsBadAt (T.knows test.now) (T.unread test.now) row.now e.column) }
{
    let selected = match is_selected(test, row) {
        Ok(selected) => selected,
        Err(error) => {
            return Err(Unreadable {
                column: error.column,
            });
        }
    };
    if let Some(column) = null_key(test.key().as_slice(), row) {
        return Err(Unreadable { column });
    }
    Ok(selected)
}

impl Emitted {
    fn none() -> Emitted
        ensures { result ≡ record { first = None; second = None } }
    {
        Emitted {
            first: None,
            second: None,
        }
    }

    fn one(entry: Entry) -> Emitted
        ensures { result ≡ record { first = Some entry; second = None } }
    {
        Emitted {
            first: Some(entry),
            second: None,
        }
    }
}

/// A shape's test, and the order of its cells, which is worked out once.
#[derive(Drop)]
pub struct Emitter<T: RowTest> {
    test: T,
    /// The selected places, in byte order of their columns' names.
    order: Places,
    ghost ordered: { order ≡ by_name (T.knows test).definition (T.knows test).selected } by { Prim.hlevel props },
}

impl<T: RowTest> Emitter<T> {
    /// The emitter of a test, which is taken over and not copied.
    pub fn new(alloc: Global, test: T) -> Result<Emitter<T>, OutOfMemory>
        ensures { IfOk result (λ made. made.test ≡ test) }
    {
        let order = in_name_order(alloc, test.definition(), test.selected().as_slice())?;
        Ok(Emitter { test, order })
    }

    /// The test.
    pub fn test(&self) -> &T
        ensures { result.now ≡ self.now.test }
    {
        &self.test
    }

    fn delete(&self, alloc: Global, old: &Row, lsn: u64, pos: u64) -> Result<Entry, OutOfMemory>
        requires { length old.now ≡ length (T.knows self.now.test).definition.columns }
        ensures { IfOk result (λ entry. entry ≡ delete_at lsn pos (keyed (T.knows self.now.test) old.now)) }
    {
        let test = &self.test;
        Ok(Entry {
            offset: Offset::At { lsn, pos },
            op: Op::Delete,
            key: write_key(alloc, test, old)?,
            cells: Cells::new(alloc),
        })
    }

    fn insert(&self, alloc: Global, new: &Row, lsn: u64, pos: u64) -> Result<Entry, OutOfMemory>
        requires { length new.now ≡ length (T.knows self.now.test).definition.columns }
        ensures { IfOk result (λ entry. entry ≡ insert_at lsn pos (keyed (T.knows self.now.test) new.now)) }
    {
        let test = &self.test;
        Ok(Entry {
            offset: Offset::At { lsn, pos },
            op: Op::Insert,
            key: write_key(alloc, test, new)?,
            cells: cells_at(alloc, test.definition(), self.order.as_slice(), new)?,
        })
    }

    /// The entries where both rows are selected.
    fn both(
        &self,
        alloc: Global,
        old: &Row,
        new: &Row,
        lsn: u64,
        j: u64,
    ) -> Result<Emitted, OutOfMemory>
        requires old { length old.now ≡ length (T.knows self.now.test).definition.columns }
        requires new { length new.now ≡ length (T.knows self.now.test).definition.columns }
        requires old_key { lacks_key (T.knows self.now.test).key old.now ≡ false }
        requires new_key { lacks_key (T.knows self.now.test).key new.now ≡ false }
        requires small { j < 2 ^ 63 }
        ensures entries { IfOk result (λ e. in_order e ≡ entries_of lsn j (Some (keyed (T.knows self.now.test) old.now)) (Some (keyed (T.knows self.now.test) new.now))) }
        ensures filled { IfOk result (λ e. IsNone e.first → IsNone e.second) }
    {
        let test = &self.test;
        if !have_same_key(test, old, new) {
            let first = self.delete(alloc, old, lsn, 2 * j)?;
            let second = self.insert(alloc, new, lsn, 2 * j + 1)?;
            return Ok(Emitted {
                first: Some(first),
                second: Some(second),
            });
        }
        let order = self.order.as_slice();
        let cells = cells_that_differ(alloc, test.definition(), order, old, new)?;
        if cells.len() == 0 {
            return Ok(Emitted::none());
        }
        Ok(Emitted::one(Entry {
            offset: Offset::At { lsn, pos: 2 * j },
            op: Op::Update,
            key: write_key(alloc, test, new)?,
            cells,
        }))
    }

    fn inserted(&self, alloc: Global, new: &Row, lsn: u64, j: u64) -> Result<Emitted, EmitError>
        requires new { length new.now ≡ length (T.knows self.now.test).definition.columns }
        requires small { j < 2 ^ 63 }
        ensures entries { IfOk result (λ e. in_order e ≡ entries_of lsn j None (pick (T.knows self.now.test) (Some new.now))) }
        ensures readable { IfOk result (λ e. is_bad (T.knows self.now.test) (Some new.now) ≡ false) }
        ensures filled { IfOk result (λ e. IsNone e.first → IsNone e.second) }
        ensures bad { (column : ℕ) → IsErrOf result (EmitError.BadRow column) → IsBadAt (T.knows self.now.test) (T.unread self.now.test) new.now column }
    {
        if !is_picked(&self.test, new)? {
            return Ok(Emitted::none());
        }
        Ok(Emitted::one(self.insert(alloc, new, lsn, 2 * j)?))
    }

    fn deleted(&self, alloc: Global, old: &Row, lsn: u64, j: u64) -> Result<Emitted, EmitError>
        requires old { length old.now ≡ length (T.knows self.now.test).definition.columns }
        requires small { j < 2 ^ 63 }
        ensures entries { IfOk result (λ e. in_order e ≡ entries_of lsn j (pick (T.knows self.now.test) (Some old.now)) None) }
        ensures readable { IfOk result (λ e. is_bad (T.knows self.now.test) (Some old.now) ≡ false) }
        ensures filled { IfOk result (λ e. IsNone e.first → IsNone e.second) }
        ensures bad { (column : ℕ) → IsErrOf result (EmitError.BadRow column) → (is_bad (T.knows self.now.test) (Some old.now) ≡ true) × IsBadAt (T.knows self.now.test) (T.unread self.now.test) old.now column }
    {
        if !is_picked(&self.test, old)? {
            return Ok(Emitted::none());
        }
        Ok(Emitted::one(self.delete(alloc, old, lsn, 2 * j)?))
    }

    fn updated(
        &self,
        alloc: Global,
        old: &Row,
        new: &Row,
        lsn: u64,
        j: u64,
    ) -> Result<Emitted, EmitError>
        requires old { length old.now ≡ length (T.knows self.now.test).definition.columns }
        requires new { length new.now ≡ length (T.knows self.now.test).definition.columns }
        requires small { j < 2 ^ 63 }
        ensures entries { IfOk result (λ e. in_order e ≡ entries_of lsn j (pick (T.knows self.now.test) (Some old.now)) (pick (T.knows self.now.test) (Some new.now))) }
        ensures readable { IfOk result (λ e. (is_bad (T.knows self.now.test) (Some old.now) ≡ false) × (is_bad (T.knows self.now.test) (Some new.now) ≡ false)) }
        ensures filled { IfOk result (λ e. IsNone e.first → IsNone e.second) }
        ensures bad { (column : ℕ) → IsErrOf result (EmitError.BadRow column) → MatchBool (is_bad (T.knows self.now.test) (Some old.now)) (IsBadAt (T.knows self.now.test) (T.unread self.now.test) old.now column) (IsBadAt (T.knows self.now.test) (T.unread self.now.test) new.now column) }
    {
        let was = is_picked(&self.test, old)?;
        let is = is_picked(&self.test, new)?;
        if was && is {
            return Ok(self.both(alloc, old, new, lsn, j)?);
        }
        if was {
            return Ok(Emitted::one(self.delete(alloc, old, lsn, 2 * j)?));
        }
        if is {
            return Ok(Emitted::one(self.insert(alloc, new, lsn, 2 * j)?));
        }
        Ok(Emitted::none())
    }

    fn of_kind(
        &self,
        alloc: Global,
        kind: &ChangeKind,
        lsn: u64,
        j: u64,
    ) -> Result<Emitted, EmitError>
        requires whole { IsWhole (T.knows self.now.test).definition kind.now }
        requires small { j < 2 ^ 63 }
        ensures entries { IfOk result (λ e. in_order e ≡ emit (T.knows self.now.test) lsn (own (T.knows self.now.test) j kind.now)) }
        ensures filled { IfOk result (λ e. IsNone e.first → IsNone e.second) }
        ensures readable { IfOk result (λ e. (is_bad (T.knows self.now.test) (old_of kind.now) ≡ false) × (is_bad (T.knows self.now.test) (new_of kind.now) ≡ false)) }
        ensures bad { (column : ℕ) → IsErrOf result (EmitError.BadRow column) → IsChangeBadAt (T.knows self.now.test) (T.unread self.now.test) kind.now column }
    {
        match kind {
            ChangeKind::Insert { new } => Ok(self.inserted(alloc, new, lsn, j)?),
            ChangeKind::Update { old, new } => Ok(self.updated(alloc, old, new, lsn, j)?),
            ChangeKind::Delete { old } => Ok(self.deleted(alloc, old, lsn, j)?),
            ChangeKind::Truncate => Ok(Emitted::none()),
        }
    }

    /// The entries of change number `j` of the commit at `lsn`.
    ///
    /// | Old row | New row | Entries |
    /// |---|---|---|
    /// | not selected or absent | not selected or absent | none |
    /// | not selected or absent | selected | an insert at `2j`, with all selected cells |
    /// | selected | not selected or absent | a delete at `2j`, with no cells |
    /// | selected | selected, same key | an update at `2j` with the selected cells that differ; none where no cell differs |
    /// | selected | selected, another key | a delete at `2j`, and then an insert at `2j + 1` |
    ///
    /// The change is no truncation, and its rows are as wide as the definition. Cells stand in byte
    /// order of their names. Refuses `BadRow` exactly where a row has no truth or a null key value.
    pub fn emit(
        &self,
        alloc: Global,
        change: &Change,
        lsn: u64,
        j: u64,
    ) -> Result<Emitted, EmitError>
        requires whole { IsWhole (T.knows self.now.test).definition change.now.kind }
        requires small { j < 2 ^ 63 }
        ensures entries { IfOk result (λ e. in_order e ≡ emit (T.knows self.now.test) lsn (own (T.knows self.now.test) j change.now.kind)) }
        ensures filled { IfOk result (λ e. IsNone e.first → IsNone e.second) }
        ensures readable { IfOk result (λ e. (is_bad (T.knows self.now.test) (old_of change.now.kind) ≡ false) × (is_bad (T.knows self.now.test) (new_of change.now.kind) ≡ false)) }
        ensures bad { (column : ℕ) → IsErrOf result (EmitError.BadRow column) → IsChangeBadAt (T.knows self.now.test) (T.unread self.now.test) change.now.kind column }
        ensures leads { IfOk result (λ e. LeadsOver (T.knows self.now.test) change.now.kind (in_order e)) }
    {
        Ok(self.of_kind(alloc, &change.kind, lsn, j)?)
    }
}
