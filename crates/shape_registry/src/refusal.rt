//! Why a registry gives no number.

/// Why a registry gives no number, memory aside.
#[derive(Clone, Copy, Debug, PartialEq, Eq)]
pub enum Refusal {
    /// The identity is live, with that number.
    Exists { number: u64 },
    /// That many handles are live, and no more may be.
    TooMany { live: u64, limit: u64 },
    /// 2^64 - 1 was given, the last number.
    NumbersSpent,
}

/// Why `Registry::register` gave no number. Each has what was to be kept.
#[derive(Drop)]
pub enum RegisterError<K> {
    /// The identity is live, with that number.
    Exists { number: u64, kept: K },
    /// That many handles are live, and no more may be.
    TooMany { live: u64, limit: u64, kept: K },
    /// 2^64 - 1 was given, the last number.
    NumbersSpent { kept: K },
    OutOfMemory { kept: K },
}
