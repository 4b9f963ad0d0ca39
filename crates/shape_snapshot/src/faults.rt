//! Why a snapshot is refused.
use shape_base::{OutOfMemory, TableDef, Text};

/// Why a snapshot, or a row of it, is refused. Of several that stand together the first in this order is answered, but want of memory may stand in the place of
/// any.
#[derive(Drop)]
pub enum SnapError {
    /// The text of its visibility is none that PostgreSQL writes (manual, 9.27.8 Transaction ID and Snapshot Information Functions).
    BadSnapshot {
        /// The place of the first byte that cannot stand there, or of the first byte of the number that breaks a bound.
        place: u64,
    },
    /// The OID or the columns of its table are not those of the shape's definition.
    DefinitionChanged {
        /// The definition of the shape.
        have: TableDef,
        /// That of the snapshot.
        got: TableDef,
    },
    /// It does not show the last transaction that was taken before.
    Stale {
        /// The low 32 bits of that transaction's id.
        last: u32,
        /// The first id of 64 bits that had not been given when the snapshot was taken.
        xmax: u64,
    },
    /// A row is not as wide as the definition.
    WrongWidth,
    /// The where-clause cannot read a value of a row.
    BadValue {
        /// The place of the least such column, from 0.
        column: u32,
    },
    /// A key value of a row is null. It is tested on each row, selected or not.
    NullKey {
        /// The place of the least such column, from 0.
        column: u32,
    },
    /// The key of a selected row is that of a selected row before it.
    DuplicateKey {
        /// The key's text.
        key: Text,
    },
    /// The texts of the entries would pass the limit of a log.
    LogFull {
        /// The bytes that there would be, without commas; 2^64 - 1 where there would be more.
        bytes: u64,
        /// The most that there may be.
        limit: u64,
    },
    /// An allocation failed.
    OutOfMemory,
}

impl From<OutOfMemory> for SnapError {
    ghost use Rattle.std.specs.Prelude.{◌≡◌};
    ghost use Rattle.shape_snapshot.specs.declared.faults.SnapError.TheVariants as errors;

    ghost from_gives = { λ _ e. e ≡ errors.OutOfMemory };

    fn from(_error: OutOfMemory) -> SnapError {
        SnapError::OutOfMemory
    }
}
