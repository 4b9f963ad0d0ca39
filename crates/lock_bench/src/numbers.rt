//! A list of numbers under a lock, and a caller that adds to it.
ghost use Rattle.std.specs.Prelude.{◌≡◌, ◌+◌, ◌^◌, ◌<◌, [], ◌∷◌, ◌++◌, length, IfOk};
ghost use Rattle.front_lock.specs.Passes.{mine, IsSameShare, IsSameLock};
ghost use Rattle.lock_bench.specs.Numbers.{numbers};

use front_lock::{FrontLock, Pass, Stands};
use std::alloc::AllocError;
use std::marker::Brand;
use std::sync::Wait;

/// A list that stands for the numbers that were added, in their order.
#[derive(Drop)]
pub struct Numbers {
    pub items: Vec<u64>,
}

impl Stands for Numbers {
    type Event = u64;

    type Fixed = ();

    ghost no_data = { tt };

    ghost fixed = { λ _. tt };

    ghost stands = { λ s _ _ events. s.items.items ≡ events };
}

/// Adds a number. At `AllocError` the list is as it was and the pass is let go.
pub fn add<R: Wait>(
    rt: &R,
    lock: &FrontLock<Numbers>,
    pass: Pass<Numbers>,
    number: u64,
) -> Result<Pass<Numbers>, AllocError>
    requires lock { pass.lock ≡ lock.now }
    requires data { pass.fixed ≡ tt }
    ensures mine { IfOk result (λ p. mine p ≡ mine pass ++ number ∷ []) }
    ensures lock { IfOk result (λ p. IsSameLock pass p × IsSameShare pass p) }
{
    let (held, mut state) = lock.take(rt, pass);
    if state.items.push(number).is_err() {
        drop(lock.give::<Brand>(held, state, false));
        return Err(AllocError);
    }
    Ok(lock.give::<Brand>(held, state, true))
}

/// Adds `many` numbers that follow one another, from `first` on.
pub fn add_all<R: Wait>(
    rt: &R,
    lock: &FrontLock<Numbers>,
    pass: Pass<Numbers>,
    first: u64,
    many: u64,
) -> Result<Pass<Numbers>, AllocError>
    requires lock { pass.lock ≡ lock.now }
    requires data { pass.fixed ≡ tt }
    requires small { first + many < 2 ^ 64 }
    ensures mine { IfOk result (λ p. mine p ≡ mine pass ++ numbers first many) }
    ensures count { IfOk result (λ p. length (mine p) ≡ length (mine pass) + many) }
    ensures lock { IfOk result (λ p. IsSameLock pass p × IsSameShare pass p) }
{
    let mut pass = pass;
    for k in 0..many {
        pass = add(rt, lock, pass, first + k)?;
    }
    Ok(pass)
}
