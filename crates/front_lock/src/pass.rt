//! The tokens of a lock: what a caller has seen of it. None has bytes, and clauses alone read them.
ghost use Rattle.std.specs.Prelude.{◌≡◌};

use crate::stands::Stands;
use crate::view::View;
use atomic_table::Seat;
use std::marker::Model;

/// What one caller knows of one lock. Contracts see it as a `Known`:
///
/// - `lock` and `fixed`: which lock it is of, and the lock's data;
/// - `seen`: the events that it has seen, a prefix of the lock's history. It never grows shorter;
/// - `own`: which places of `seen` are the caller's own events. `mine` is the list of these, in order;
/// - `part` and `depth`: its share of the lock, `part / 2^depth`. All shares of a lock add up to 1, so a pass with
///   the whole share is the only one, and each event of the lock is its own.
///
/// A pass may go to another thread. One that is let go takes its share with it: no other is whole any more.
#[derive(Drop)]
pub struct Pass<S: Stands> {
    pub(crate) seat: Seat<Option<S>, View<S::Event, S::Fixed>>,
}

impl<S: Stands> Model for Pass<S> {
    ghost use Rattle.front_lock.specs.Passes.{Known, known, IsPass};

    ghost Value = { Known S.Event S.Fixed };

    ghost view = { λ p. known p.seat };

    ghost invariant = { λ p. IsPass p.seat };
}

/// The pass of a caller that has the state, until it gives the state back.
///
/// Where it is let go, the lock is lost: every `take` from then on waits for ever, and `close` answers `Taken`.
/// So take the memory that a change needs before `take`, and leave no path from `take` that has no `give`.
#[derive(Drop)]
pub struct Held<S: Stands> {
    pub(crate) seat: Seat<Option<S>, View<S::Event, S::Fixed>>,
    pub(crate) ticket: u64,
}

impl<S: Stands> Model for Held<S> {
    ghost use Rattle.front_lock.specs.Passes.{Known, known, IsHeld};

    ghost Value = { Known S.Event S.Fixed };

    ghost view = { λ p. known p.seat };

    ghost invariant = { λ p. IsHeld p.seat p.ticket };
}

/// What a pass had seen when the note was made, for the holder of another pass to learn. It has no share and no
/// own events.
#[derive(Drop)]
pub struct Note<S: Stands> {
    pub(crate) seat: Seat<Option<S>, View<S::Event, S::Fixed>>,
}

impl<S: Stands> Model for Note<S> {
    ghost use Rattle.front_lock.specs.Passes.{Known, known, IsNote};

    ghost Value = { Known S.Event S.Fixed };

    ghost view = { λ p. known p.seat };

    ghost invariant = { λ p. IsNote p.seat };
}
