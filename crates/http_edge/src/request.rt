//! Requests.
use shape_base::Text;

/// What the head of a request says.
#[derive(Drop)]
pub struct Request {
    /// How many bytes the head has, with the empty line that ends it.
    pub length: u64,
    /// Whether its method is GET.
    pub get: bool,
    /// The request target (RFC 9112, section 3.2).
    pub target: Text,
    /// Whether the connection is closed after the reply.
    pub close: bool,
}

/// Why bytes were not read as a request.
#[derive(Clone, Copy, Debug, PartialEq, Eq)]
pub enum HeadError {
    /// The head is not whole, and bytes can follow that make it whole.
    Partial,
    /// The head has more than 64 fields or more than 16,384 bytes.
    HeadTooLong,
    /// The bytes begin no head, whatever follows.
    BadHead,
    /// The head says that a body follows it.
    BodyRefused,
    OutOfMemory,
}
