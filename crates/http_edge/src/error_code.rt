//! Refusals, as replies name them.
use shape_base::Text;

/// What was wrong with a snapshot.
#[derive(Drop)]
pub enum Detail {
    /// The database answered with an error (PostgreSQL manual, Appendix A).
    ErrorResponse { sqlstate: Text },
    BadReply,
    AuthWanted,
    Ended,
    NotUtf8,
    TooLong,
    BadSnapshot,
    WrongWidth,
    BadValue,
    NullKey,
    DuplicateKey,
    /// The definition lacks a key column, or two of its columns have one name.
    KeyMissing,
}

/// Why a request is refused.
#[derive(Drop)]
pub enum ErrorCode {
    HeadTooLong,
    BadHead,
    BodyRefused,
    MethodRefused,
    PathUnknown,
    BadEscape,
    RepeatedParameter,
    MissingTable,
    TableNotServed,
    WhereTooLong,
    /// The text is no clause; the place is a number of bytes from its start.
    WhereSyntax { place: u64 },
    BadOffset,
    HandleNeeded,
    LiveAtStart,
    /// The offset is past the end of the log.
    OffsetAhead,
    UnknownColumn,
    KeyNotSelected,
    /// The types of the clause do not fit from this leaf on.
    WhereType { atom: u32 },
    SnapshotRefused { detail: Detail },
    /// The connection to the database had a fault.
    SnapshotLink,
    /// The handle was removed while the request waited for its snapshot.
    SnapshotLost,
    DefinitionChanged,
    /// The snapshot does not show the last transaction taken before it.
    SnapshotStale { last: u32, xmax: u64 },
    TooManyShapes { limit: u64, live: u64 },
    ShapeTooLarge { bytes: u64, limit: u64 },
    OutOfMemory,
}
