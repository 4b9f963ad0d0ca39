//! One exchange.
ghost use Rattle.std.specs.Prelude.{◌≡◌, ◌+◌, nat_le};
ghost use Rattle.core_law.specs.Waiting as waiting;
ghost use Rattle.fold_client.specs.Following.{Heard};
ghost use Rattle.core_law.specs.Situation as law;
ghost use Rattle.core_exchanges.specs.Standing.{asked_of, role_of, StandsFor};
ghost use Rattle.core_exchanges.specs.Giving.{given_to, HearsAs};

use http_edge::ErrorCode;
use shape_base::{Ask, Named, Reply, Text};

/// What a request comes to before its handle is looked at.
#[derive(Drop)]
pub enum Asked {
    /// It is refused.
    Refused(ErrorCode),
    /// It asks for a part of a table.
    AsksFor(Ask),
}

/// What the reply of an exchange comes from.
#[derive(Clone, Copy)]
pub enum Role {
    /// Its request alone.
    Reads,
    /// A number that it found starting.
    Waits { number: u64 },
    /// A number that it registered, and whose snapshot it owns.
    Owns { number: u64 },
    /// Nothing: its head was cut off, so it never has one.
    HasNone,
}

/// An exchange: a request and its reply.
#[derive(Drop)]
pub struct Exchange {
    /// Whether it came from outside, so that its reply is put out, or is a client's.
    pub outside: bool,
    /// Its target, where its head has one.
    pub target: Option<Text>,
    pub asked: Asked,
    /// Whether its connection ends with the reply.
    pub close: bool,
    /// The moment at which it came, in milliseconds.
    pub moment: u64,
    pub role: Role,
    /// Its reply, where it was given one.
    pub given: Option<Reply>,
}

/// The number of the handle that a request names.
fn number_named(named: &Named) -> Option<u64>
    ensures { result ≡ waiting.number_named named.now }
{
    match named {
        Named::Known(handle) => Some(handle.number),
        Named::Absent => None,
        Named::Strange => None,
    }
}

/// The number of the handle that a request names, where it is not refused.
fn number_asked(asked: &Asked) -> Option<u64>
    ensures { result ≡ waiting.number_asked (asked_of asked.now) }
{
    match asked {
        Asked::AsksFor(ask) => number_named(&ask.named),
        Asked::Refused(_) => None,
    }
}

impl Exchange {
    /// The number whose log, snapshot or removal gives it its reply.
    pub fn awaited(&self) -> Option<u64>
        ensures { result ≡ waiting.awaited (asked_of self.now.asked) (role_of self.now.role) }
    {
        match self.role {
            Role::Reads => number_asked(&self.asked),
            Role::Waits { number } => Some(number),
            Role::Owns { number } => Some(number),
            Role::HasNone => None,
        }
    }

    /// Whether it was held for as long as it may be, `hold` milliseconds, at the moment `now`.
    pub fn is_late(&self, now: u64, hold: u64) -> bool
        ensures { result ≡ nat_le (self.now.moment + hold) now }
    {
        self.moment <= now && hold <= now - self.moment
    }

    /// It has this reply, unless it has one.
    pub fn hear(&mut self, reply: Reply)
        ensures { (x : law.Exchange) (heard : law.Exchange → Heard) → HearsAs heard reply → StandsFor self.old x → StandsFor self.new (given_to heard x) }
    {
        if self.given.is_none() {
            self.given = Some(reply);
        }
    }
}
