//! What a shape answers.
use shape_base::{Cause, Offset, Page};

/// What a request for a page is answered.
#[derive(Drop)]
pub enum Paged {
    /// This page.
    Page(Page),
    /// Nothing yet: the request is live and not late, and nothing stands past its offset.
    NotYet,
    /// Nothing yet: the snapshot has not come.
    Starting,
    /// The shape is dropped.
    Gone { cause: Cause },
    /// The offset is after the end of the log, which this is.
    OffsetAhead { end: Offset },
}

/// Where a shape is in its life.
#[derive(Clone, Copy, Debug, PartialEq, Eq)]
pub enum Stage {
    /// It waits for its snapshot.
    Starting,
    /// It has a log.
    Ready,
    /// It is dropped.
    Gone { cause: Cause },
}
