//! What a registry finds for a request.

/// What a registry finds for a request.
#[derive(Clone, Copy, Debug, PartialEq, Eq)]
pub enum Found {
    /// The handle that the request names, or that is live under its identity, is ready.
    Ready { number: u64 },
    /// That handle waits for its snapshot.
    Starting { number: u64 },
    /// The request names a handle that is not live under its identity. Has the number that is ready under it.
    Gone { named: Option<u64> },
    /// The request names no handle, and none is live under its identity.
    Unregistered,
}
