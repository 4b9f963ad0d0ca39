//! Why bytes are no message.

/// Why a message could not be read.
#[derive(Clone, Copy, Debug, PartialEq, Eq, Drop)]
pub enum MessageError {
    /// The bytes are no whole message with nothing left over.
    BadMessage {
        /// The index of the first byte that no message of this kind has there, or the length where the bytes end too early.
        place: u64,
        /// The first byte, or 0 where there is none.
        kind: u8,
    },
    /// An allocation failed.
    OutOfMemory,
}
