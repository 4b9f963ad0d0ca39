//! What a server keeps at most.
ghost use Rattle.std.specs.Prelude.{◌<◌, ◌≤◌, ◌^◌};

/// The limits of a server. Each is below 2^63.
#[derive(Clone, Copy, Debug)]
pub struct Limits {
    /// A chunk closes at the entry with which its texts have at least this many bytes; at least 1.
    pub chunk: u64,
    /// The most bytes of one shape's log.
    pub log: u64,
    /// The most bytes of all logs together.
    pub all: u64,
    /// The most bytes of the transactions that one shape keeps until its snapshot comes.
    pub pending: u64,
    /// The most shapes that live.
    pub shapes: u64,
    /// How long a live request is held, in milliseconds.
    pub hold: u64,
    pub ghost some: { 1 ≤ chunk },
    pub ghost chunk_fits: { chunk < 2 ^ 63 },
    pub ghost log_fits: { log < 2 ^ 63 },
    pub ghost all_fit: { all < 2 ^ 63 },
    pub ghost pending_fits: { pending < 2 ^ 63 },
    pub ghost shapes_fit: { shapes < 2 ^ 63 },
    pub ghost hold_fits: { hold < 2 ^ 63 },
}
