//! What a shape's state has beside the shape: two lists that others alone add to.
use lock_events::Trace;
use std::snapshot::Snapshot;

/// The list of the LSNs with which the ingester fed the shape, and the list that gets a mark with its snapshot: which they are, and what they said when the state
/// last had them.
#[derive(Drop)]
pub(crate) struct Marks {
    pub(crate) feed: Snapshot<Trace<u64>>,
    pub(crate) seal: Snapshot<Trace<bool>>,
    pub(crate) fed: Trace<u64>,
    pub(crate) sealed: Trace<bool>,
}
