//! What the head of a reply says.
use shape_base::{Handle, Offset, Text};

/// What the head of a reply says.
#[derive(Drop)]
pub struct ReplyHead {
    /// The status code (RFC 9110, section 15).
    pub status: u16,
    /// How many bytes the body has.
    pub length: u64,
    /// For how many seconds a cache may keep the reply; 0 where it may not.
    pub max_age: u32,
    pub handle: Option<Handle>,
    pub offset: Option<Offset>,
    pub schema: Option<Text>,
    pub cursor: Option<u64>,
    /// Whether the connection is closed after the reply.
    pub close: bool,
}
