//! Pages of logs.

use super::offset::Offset;
use bytes::Bytes;

/// The part of a log that one reply carries.
#[derive(Drop)]
pub struct Page {
    /// The JSON texts of its entries, joined by commas.
    pub inner: Bytes,
    /// How many entries it has.
    pub count: u64,
    /// The offset of its last entry; without entries the one that was asked for, `0_0` in the place of `-1`.
    pub end: Offset,
    /// Whether nothing stands behind it in the log. A page that ends a closed chunk never says so.
    pub up_to_date: bool,
}
