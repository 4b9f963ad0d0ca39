//! Changes of rows, and the transactions that make them.
ghost use Rattle.std.specs.Prelude.{◌≡◌, IfOk};

use super::definition::TableDefs;
use super::memory::{Duplicate, OutOfMemory};
use super::seq::Seq;
use super::value::Row;
use std::alloc::Global;

/// What a change does to its table. Rows are whole, the old ones too.
#[derive(Drop)]
pub enum ChangeKind {
    Insert { new: Row },
    Update { old: Row, new: Row },
    Delete { old: Row },
    Truncate,
}

/// A change of one served table.
#[derive(Drop)]
pub struct Change {
    /// The place, in its transaction's `defs`, of the definition under which it came.
    pub def: u32,
    pub kind: ChangeKind,
}

/// The changes of a transaction, in order.
pub type Changes = Seq<Change>;

/// A committed transaction, with its changes of served tables.
#[derive(Drop)]
pub struct Tx {
    /// Its id, the low 32 bits of PostgreSQL's (manual, 9.27.8).
    pub xid: u32,
    /// The LSN of its commit.
    pub lsn: u64,
    /// The LSN behind its commit record.
    pub end: u64,
    /// The sum of the lengths of its kept change messages, in bytes.
    pub bytes: u64,
    /// The definitions under which its changes came.
    pub defs: TableDefs,
    pub changes: Changes,
}

/// Transactions in the order of their commits.
pub type Txs = Seq<Tx>;

impl Duplicate for ChangeKind {
    fn copy(&self, alloc: Global) -> Result<ChangeKind, OutOfMemory> {
        match self {
            ChangeKind::Insert { new } => Ok(ChangeKind::Insert {
                new: new.copy(alloc)?,
            }),
            ChangeKind::Update { old, new } => Ok(ChangeKind::Update {
                old: old.copy(alloc)?,
                new: new.copy(alloc)?,
            }),
            ChangeKind::Delete { old } => Ok(ChangeKind::Delete {
                old: old.copy(alloc)?,
            }),
            ChangeKind::Truncate => Ok(ChangeKind::Truncate),
        }
    }
}

impl Duplicate for Change {
    fn copy(&self, alloc: Global) -> Result<Change, OutOfMemory> {
        Ok(Change {
            def: self.def,
            kind: self.kind.copy(alloc)?,
        })
    }
}

impl Duplicate for Tx {
    fn copy(&self, alloc: Global) -> Result<Tx, OutOfMemory> {
        Ok(Tx {
            xid: self.xid,
            lsn: self.lsn,
            end: self.end,
            bytes: self.bytes,
            defs: self.defs.copy(alloc)?,
            changes: self.changes.copy(alloc)?,
        })
    }
}
