//! How a handle stands.

/// How the handle with a number stands.
#[derive(Clone, Copy, Debug, PartialEq, Eq)]
pub enum Standing {
    /// It is live and waits for its snapshot.
    Starting,
    /// It is live and has its snapshot.
    Ready,
    /// It was never given, or was removed.
    NotLive,
}
