//! Why a shape is dropped.

/// Why a shape is dropped, or its handle removed from the registry.
///
/// Sums that are compared with a limit end at 2^64 - 1.
#[derive(Clone, Copy, Debug, PartialEq, Eq)]
pub enum Cause {
    /// The commit with that LSN truncates the table.
    Truncated { lsn: u64 },
    /// The commit with that LSN has a change of the table under another OID or other columns.
    Changed { lsn: u64 },
    /// Its removal was asked for.
    Deleted,
    /// The shape's log would have that many bytes, more than its limit.
    LogFull { bytes: u64, limit: u64 },
    /// The logs of all shapes together would have that many bytes, more than their limit.
    AllLogsFull { bytes: u64, limit: u64 },
    /// The transactions that wait for the shape's snapshot would have that many bytes, more than their limit.
    PendingFull { bytes: u64, limit: u64 },
    /// The commit with that LSN has a row that cannot be read: the where-clause has no value on it, or a key value is
    /// null. The column is the place of the first that cannot be read.
    BadRow { lsn: u64, column: u32 },
    /// Its snapshot was refused.
    SnapshotFailed,
    /// Memory was wanted for it.
    NoMemory,
}
