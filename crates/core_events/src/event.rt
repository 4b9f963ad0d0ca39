//! Events.
use pg_dialogue::SnapHead;
use shape_base::{Octets, Rows};

/// One thing that comes: from the stream of the database, from a snapshot's connection, by HTTP, or to a client of the core.
///
/// Exchanges and clients are numbered from 0 in the order of their making.
#[derive(Drop)]
pub enum Event {
    /// The stream begins anew: its frames, relations and half-built transaction are emptied.
    Anew,
    /// One message of the stream (PostgreSQL manual, 55.9 Logical Replication Message Formats).
    Message {
        bytes: Octets,
    },
    /// The next bytes of the stream's frames (PostgreSQL manual, 55.4 Streaming Replication Protocol).
    FrameBytes {
        bytes: Octets,
    },
    /// The head of a request (RFC 9112), whole or cut. It makes an exchange.
    RequestHead {
        bytes: Octets,
    },
    /// The next bytes of a snapshot's connection, for the exchange that owns the snapshot.
    SnapBytes {
        exchange: u32,
        bytes: Octets,
    },
    /// A whole snapshot for the exchange that owns it.
    Snapshot {
        exchange: u32,
        head: SnapHead,
        rows: Rows,
    },
    /// A snapshot's connection ended, or failed.
    SnapEnd {
        exchange: u32,
        failed: bool,
    },
    /// A new client. Its query is form-encoded: `table`, and optionally `columns` and `where`.
    NewClient {
        pairs: Octets,
    },
    /// The client sends its next request. It makes an exchange, which is then the client's open one.
    SendNext {
        client: u32,
    },
    /// The client takes the reply of an exchange, and forgets its open one.
    Receive {
        client: u32,
        exchange: u32,
    },
    /// The client asks and takes until it is up to date, is refused or has to wait.
    Watch {
        client: u32,
    },
    /// The shape of this handle number is dropped.
    Remove {
        number: u64,
    },
    /// The clock shows so many milliseconds.
    Moment {
        now: u64,
    },
}
