//! The laws over the definitions, each the contract of a function with nothing to do.
ghost use Rattle.shape_state.specs.Growing.{LogGrows, PageSettles, ComesLater, LogIsShort};

/// Each event that does not drop a shape which has a log leaves its log as it is, or adds entries behind it.
pub fn log_grows()
    ensures { LogGrows }
{}

/// A page that ends a closed chunk is the same for every later history in which the shape is not dropped.
pub fn page_settles()
    ensures { PageSettles }
{}

/// Where a shape stands for events, a commit whose LSN is above that of the last commit among them comes after what it has: it may be prepared.
pub fn comes_later()
    ensures { ComesLater }
{}

/// Where a shape stands for events that do not drop it, the offsets of its log have 64 bits.
pub fn log_is_short()
    ensures { LogIsShort }
{}
