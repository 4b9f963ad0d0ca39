//! Replies to requests for shapes.

use super::handle::Handle;
use super::offset::Offset;
use super::text::Text;

/// A reply of the server, as HTTP carries it.
#[derive(Drop)]
pub struct Reply {
    /// The status code (RFC 9110, section 15).
    pub status: u16,
    /// The log that it speaks of.
    pub handle: Option<Handle>,
    /// The offset of the page's end.
    pub offset: Option<Offset>,
    /// The selected columns with the OIDs of their types.
    pub schema: Option<Text>,
    /// The cursor that the next live request is to send.
    pub cursor: Option<u64>,
    /// For how many seconds a cache may keep it; 0 where it may not.
    pub max_age: u32,
    pub body: Text,
}
