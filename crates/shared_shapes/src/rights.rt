//! What the caller that registered a shape may do.
use lock_events::Pen;

/// The right to give a shape its snapshot, and the right to make its number ready. Each is a list that gets one mark.
#[derive(Drop)]
pub(crate) struct Rights {
    pub(crate) seal: Pen<bool>,
    pub(crate) ready: Pen<bool>,
}
