//! What a shape's lock is made with.
use lock_events::Trace;
use shape_base::Limits;
use std::snapshot::Snapshot;

/// What no event of a shape changes: its test, its limits, the list of the LSNs with which it is fed, and the list that gets a mark with its snapshot. No program
/// reads a value of it.
#[derive(Drop)]
pub struct ShapeStart<T> {
    pub test: Snapshot<T>,
    pub limits: Limits,
    pub feed: Snapshot<Trace<u64>>,
    pub seal: Snapshot<Trace<bool>>,
}
