//! What a request asks for.
ghost use Rattle.std.specs.Prelude.{◌≡◌, IfOk};

use super::handle::Handle;
use super::memory::{Duplicate, OutOfMemory};
use super::offset::Offset;
use super::text::{Text, Texts};
use std::alloc::Global;

/// The handle that a request names.
#[derive(Drop)]
pub enum Named {
    /// None.
    Absent,
    Known(Handle),
    /// A text that is no handle.
    Strange,
}

/// A request for a part of one table.
#[derive(Drop)]
pub struct Ask {
    /// The place of the table among the served ones.
    pub table: u32,
    /// The names of the chosen columns as the request has them; all columns where it has none.
    pub columns: Option<Texts>,
    /// The canonical text of the where-clause.
    pub clause: Option<Text>,
    /// The text that tells the shape apart from others.
    pub identity: Text,
    pub named: Named,
    /// Where the page begins.
    pub offset: Offset,
    /// Whether the request waits for what is new.
    pub live: bool,
    pub cursor: u64,
}

impl Duplicate for Named {
    fn copy(&self, alloc: Global) -> Result<Named, OutOfMemory> {
        match self {
            Named::Absent => Ok(Named::Absent),
            Named::Known(handle) => Ok(Named::Known(handle.copy(alloc)?)),
            Named::Strange => Ok(Named::Strange),
        }
    }
}

impl Duplicate for Ask {
    fn copy(&self, alloc: Global) -> Result<Ask, OutOfMemory> {
        Ok(Ask {
            table: self.table,
            columns: self.columns.copy(alloc)?,
            clause: self.clause.copy(alloc)?,
            identity: self.identity.copy(alloc)?,
            named: self.named.copy(alloc)?,
            offset: self.offset,
            live: self.live,
            cursor: self.cursor,
        })
    }
}
