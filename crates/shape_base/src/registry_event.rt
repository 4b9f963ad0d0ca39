//! What happens to a registry of handles.

use super::cause::Cause;
use super::definition::TableDef;
use super::text::Text;

/// One change of a registry. `specs/RegistryHistory.antt` says when a list of them is legal, and what it leaves.
/// Contracts speak of these events; no program keeps a list of them.
#[derive(Drop)]
pub enum RegistryEvent {
    /// A number was given to a shape: its identity, the place of its table among the served ones, and the id of the
    /// last transaction taken before, if there was one.
    Registered {
        number: u64,
        identity: Text,
        table: u32,
        last: Option<u32>,
    },
    /// The shape with that number has its snapshot.
    Ready {
        number: u64,
    },
    /// The number is no longer live.
    Removed {
        number: u64,
        cause: Cause,
    },
    /// A transaction of the stream was taken.
    Took {
        lsn: u64,
        xid: u32,
    },
    /// A table has a new definition.
    Redefined {
        definition: TableDef,
    },
}
