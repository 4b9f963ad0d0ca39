//! What an ask is answered.
ghost use Rattle.std.specs.Prelude.{◌≡◌, IfOk, IfErr};
ghost use Rattle.shape_state.specs.declared.paged.Paged.TheVariants as pages;
ghost use Rattle.shared_shapes.specs.Asking.{IsShaped, start_of, waits_of};

use shape_base::{Ask, Cause, Named, Offset, Page};
use shape_state::Paged;

/// What an ask is answered. A handle is given by its number in the registry's run.
#[derive(Drop)]
pub enum Asked {
    /// This page of the log of that number.
    Page { number: u64, page: Page },
    /// Nothing yet: the request is live and not late, and nothing new stands in the log of that number.
    NotYet { number: u64 },
    /// Nothing yet: the shape with that number waits for its snapshot.
    Starting { number: u64 },
    /// The request names a handle that is not live under its identity; another one is ready under it, or none.
    Gone { named: Option<u64> },
    /// The offset is after the end of the log of that number, which this is.
    OffsetAhead { number: u64, end: Offset },
    /// The request names no handle, and none is live under its identity.
    Unregistered,
}

/// What is met in the registry for a request: a ready number with the count of transactions before it and a seat of its shape, or what the caller is told, with the count of all.
#[derive(Drop)]
pub(crate) enum Met<S: Drop> {
    Shape { number: u64, before: u64, seat: S },
    Told { asked: Asked, count: u64 },
}

/// From where a request is answered, and whether it waits for what is new.
pub(crate) fn place_of(ask: &Ask) -> (Offset, bool)
    ensures offset { result.0 ≡ start_of ask.now.named ask.now.offset }
    ensures live { result.1 ≡ waits_of ask.now.named ask.now.live }
{
    match &ask.named {
        Named::Absent => (Offset::Start, false),
        Named::Known(_) => (ask.offset, ask.live),
        Named::Strange => (ask.offset, ask.live),
    }
}

/// What the caller is told of a shape's answer. Err where it is dropped.
pub(crate) fn shaped(number: u64, paged: Paged) -> Result<Asked, Cause>
    requires { paged ≡ pages.Starting → ⊥ }
    ensures told { IfOk result (IsShaped number paged) }
    ensures dropped { IfErr result (λ cause. paged ≡ pages.Gone cause) }
{
    match paged {
        Paged::Page(page) => Ok(Asked::Page { number, page }),
        Paged::NotYet => Ok(Asked::NotYet { number }),
        Paged::Starting => unreachable!(),
        Paged::Gone { cause } => Err(cause),
        Paged::OffsetAhead { end } => Ok(Asked::OffsetAhead { number, end }),
    }
}
