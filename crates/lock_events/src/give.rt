//! Two ways to give a state back: as it stood, or with one event more.
ghost use Rattle.std.specs.Prelude.{◌≡◌, [], ◌∷◌, ◌++◌, Some};
ghost use Rattle.front_lock.specs.Passes.{mine, IsSameLock, IsSameShare};

use front_lock::{Adds, FrontLock, Held, Pass, Stands};
use std::marker::Brand;
use std::snapshot::Snapshot;

/// Gives the state back as it stood.
pub fn give_back<S: Stands>(lock: &FrontLock<S>, held: Held<S>, state: S) -> Pass<S>
    requires lock { held.lock ≡ lock.now }
    requires stands { S.stands state held.fixed 0 held.seen }
    ensures lock { IsSameLock held result × IsSameShare held result }
    ensures seen { result.seen ≡ held.seen }
    ensures mine { (result.own ≡ held.own) × (mine result ≡ mine held) }
{
    lock.give::<Brand>(held, state, false)
}

/// Gives the state back with one event more.
pub fn give_with<S: Stands>(
    lock: &FrontLock<S>,
    held: Held<S>,
    state: S,
    event: &Snapshot<S::Event>,
) -> Pass<S>
    requires lock { held.lock ≡ lock.now }
    requires stands { S.stands state held.fixed 0 (held.seen ++ event.now.value ∷ []) }
    ensures lock { IsSameLock held result × IsSameShare held result }
    ensures seen { result.seen ≡ held.seen ++ event.now.value ∷ [] }
    ensures mine { mine result ≡ mine held ++ event.now.value ∷ [] }
{
    give_as::<S, Brand>(lock, held, state, event)
}

fn give_as<S: Stands, A: Adds<S::Event>>(
    lock: &FrontLock<S>,
    held: Held<S>,
    state: S,
    event: &Snapshot<S::Event>,
) -> Pass<S>
    requires lock { held.lock ≡ lock.now }
    requires event { A.event ≡ Some event.now.value }
    requires stands { S.stands state held.fixed 0 (held.seen ++ event.now.value ∷ []) }
    ensures lock { IsSameLock held result × IsSameShare held result }
    ensures seen { result.seen ≡ held.seen ++ event.now.value ∷ [] }
    ensures mine { mine result ≡ mine held ++ event.now.value ∷ [] }
{
    lock.give::<A>(held, state, true)
}
