//! What is put out.
use bytes::Bytes;
use shape_base::{Handle, KeyedRows, Offset, OutOfMemory, Seq, Text};

/// One thing that an event leads to.
#[derive(Drop)]
pub enum Out {
    /// An exchange that a request's head made was given its reply, these bytes.
    Given {
        exchange: u32,
        bytes: Bytes,
    },
    /// The exchange had no whole head, and more bytes could have completed it.
    Cut {
        exchange: u32,
    },
    /// A client is up to date with this log up to this offset. Its rows stand in byte order of their keys.
    Block {
        client: u32,
        handle: Handle,
        offset: Offset,
        rows: KeyedRows,
    },
    /// A client took a reply by which it has to fetch anew.
    Refetched {
        client: u32,
    },
    /// A client took a reply of another status.
    Refused {
        client: u32,
        status: u16,
    },
    /// The stream was refused: why, and at which byte or message since it began.
    StreamRefused {
        name: Text,
        place: u64,
    },
}

/// What one event leads to, in order.
pub type Outs = Seq<Out>;

/// Why an event does not fit.
#[derive(Clone, Copy, Debug, PartialEq, Eq)]
pub enum Unfit {
    /// Bytes follow a request's head, or a client's query cannot be read.
    BadPayload,
    /// The exchange owns no snapshot under way.
    NotASnapshot,
    /// No client has this number.
    NoClient,
    /// No exchange has this number.
    NoExchange,
    /// The exchange has no reply.
    NoReply,
    /// The exchange's target is not the client's next one.
    WrongAddress,
    /// The moment is before the clock.
    ClockBack,
}

/// Why a step was not taken. After `TooManyExchanges` and after want of memory no further step may be asked for.
#[derive(Clone, Copy, Debug, PartialEq, Eq)]
pub enum StepError {
    /// The event does not fit; the core is as it was.
    Unfit { cause: Unfit },
    /// The event would make exchange number 10,000, counted from 0.
    TooManyExchanges,
    /// An allocation failed.
    OutOfMemory,
}

impl From<OutOfMemory> for StepError {
    ghost use Rattle.std.specs.Prelude.{◌≡◌};
    ghost use Rattle.core_events.specs.declared.out.StepError.TheVariants as errors;

    ghost from_gives = { λ _ e. e ≡ errors.OutOfMemory };

    fn from(_error: OutOfMemory) -> StepError {
        StepError::OutOfMemory
    }
}
