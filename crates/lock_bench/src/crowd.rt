//! Four threads, and eight, on one list.
ghost use Rattle.std.specs.Prelude.{◌≡◌, ◌+◌, ◌*◌, ◌^◌, ◌<◌, length, IfOk};
ghost use Rattle.front_lock.specs.Passes.{mine, IsWhole, IsSameShare, IsSameLock};

use crate::numbers::{Numbers, add_all};
use front_lock::{FrontLock, Pass};
use std::alloc::{AllocError, Global};
use std::sync::Wait;
use std::thread;
use std::thread::Threads;

// Two threads add `each` numbers each, from `first` and from `first + each` on. The pass has both shares back.
fn by_two<R: Threads + Wait + Sync>(
    rt: &R,
    lock: &FrontLock<Numbers>,
    pass: Pass<Numbers>,
    first: u64,
    each: u64,
) -> Result<Pass<Numbers>, AllocError>
    requires lock { pass.lock ≡ lock.now }
    requires data { pass.fixed ≡ tt }
    requires small { first + 2 * each < 2 ^ 64 }
    ensures count { IfOk result (λ p. length (mine p) ≡ length (mine pass) + 2 * each) }
    ensures lock { IfOk result (λ p. IsSameLock pass p × (p.part ≡ 2 * pass.part) × (p.depth ≡ pass.depth + 1)) }
{
    let mut one = pass;
    let two = lock.split(&mut one)?;
    let (one, two) = thread::join(
        rt,
        move ||
            requires { (lock.now ≡ one.lock) × (one.fixed ≡ tt) × (first + each < 2 ^ 64) }
            ensures { IfOk result (λ p. IsSameLock one p × IsSameShare one p × (length (mine p) ≡ length (mine one) + each)) }
        { add_all(rt, lock, one, first, each) },
        move ||
            requires { (lock.now ≡ two.lock) × (two.fixed ≡ tt) × (first + 2 * each < 2 ^ 64) }
            ensures { IfOk result (λ p. IsSameLock two p × IsSameShare two p × (length (mine p) ≡ length (mine two) + each)) }
        { add_all(rt, lock, two, first + each, each) },
    );
    let one = one?;
    let two = two?;
    Ok(lock.join(one, two))
}

// The same with four threads.
fn by_four<R: Threads + Wait + Sync>(
    rt: &R,
    lock: &FrontLock<Numbers>,
    pass: Pass<Numbers>,
    first: u64,
    each: u64,
) -> Result<Pass<Numbers>, AllocError>
    requires lock { pass.lock ≡ lock.now }
    requires data { pass.fixed ≡ tt }
    requires small { first + 4 * each < 2 ^ 64 }
    ensures count { IfOk result (λ p. length (mine p) ≡ length (mine pass) + 4 * each) }
    ensures lock { IfOk result (λ p. IsSameLock pass p × (p.part ≡ 4 * pass.part) × (p.depth ≡ pass.depth + 2)) }
    ensures whole { IfOk result (λ p. IsWhole p → mine p ≡ p.seen) }
{
    let mut one = pass;
    let two = lock.split(&mut one)?;
    let (one, two) = thread::join(
        rt,
        move ||
            requires { (lock.now ≡ one.lock) × (one.fixed ≡ tt) × (first + 2 * each < 2 ^ 64) }
            ensures { IfOk result (λ p. IsSameLock one p × (p.part ≡ 2 * one.part) × (p.depth ≡ one.depth + 1) × (length (mine p) ≡ length (mine one) + 2 * each)) }
        { by_two(rt, lock, one, first, each) },
        move ||
            requires { (lock.now ≡ two.lock) × (two.fixed ≡ tt) × (first + 4 * each < 2 ^ 64) }
            ensures { IfOk result (λ p. IsSameLock two p × (p.part ≡ 2 * two.part) × (p.depth ≡ two.depth + 1) × (length (mine p) ≡ length (mine two) + 2 * each)) }
        { by_two(rt, lock, two, first + 2 * each, each) },
    );
    let one = one?;
    let two = two?;
    Ok(lock.join(one, two))
}

// The same with eight threads.
fn by_eight<R: Threads + Wait + Sync>(
    rt: &R,
    lock: &FrontLock<Numbers>,
    pass: Pass<Numbers>,
    first: u64,
    each: u64,
) -> Result<Pass<Numbers>, AllocError>
    requires lock { pass.lock ≡ lock.now }
    requires data { pass.fixed ≡ tt }
    requires small { first + 8 * each < 2 ^ 64 }
    ensures count { IfOk result (λ p. length (mine p) ≡ length (mine pass) + 8 * each) }
    ensures lock { IfOk result (λ p. IsSameLock pass p × (p.part ≡ 8 * pass.part) × (p.depth ≡ pass.depth + 3)) }
    ensures whole { IfOk result (λ p. IsWhole p → mine p ≡ p.seen) }
{
    let mut one = pass;
    let two = lock.split(&mut one)?;
    let (one, two) = thread::join(
        rt,
        move ||
            requires { (lock.now ≡ one.lock) × (one.fixed ≡ tt) × (first + 4 * each < 2 ^ 64) }
            ensures { IfOk result (λ p. IsSameLock one p × (p.part ≡ 4 * one.part) × (p.depth ≡ one.depth + 2) × (length (mine p) ≡ length (mine one) + 4 * each)) }
        { by_four(rt, lock, one, first, each) },
        move ||
            requires { (lock.now ≡ two.lock) × (two.fixed ≡ tt) × (first + 8 * each < 2 ^ 64) }
            ensures { IfOk result (λ p. IsSameLock two p × (p.part ≡ 4 * two.part) × (p.depth ≡ two.depth + 2) × (length (mine p) ≡ length (mine two) + 4 * each)) }
        { by_four(rt, lock, two, first + 4 * each, each) },
    );
    let one = one?;
    let two = two?;
    Ok(lock.join(one, two))
}

/// The list after four threads have added `each` numbers each, the k-th from `k * each` on.
pub fn added_by_four<R: Threads + Wait + Sync>(
    rt: &R,
    alloc: Global,
    each: u64,
) -> Result<Vec<u64>, AllocError>
    requires { each < 2 ^ 32 }
    ensures { IfOk result (λ v. length v.items ≡ 4 * each) }
{
    let items = Vec::new(alloc);
    match FrontLock::new(alloc, Numbers { items }) {
        Ok((lock, pass)) => match by_four(rt, &lock, pass, 0, each) {
            Ok(whole) => Ok(list_of(lock, whole)),
            Err(e) => Err(e),
        },
        Err(e) => Err(e),
    }
}

/// The same with eight threads.
pub fn added_by_eight<R: Threads + Wait + Sync>(
    rt: &R,
    alloc: Global,
    each: u64,
) -> Result<Vec<u64>, AllocError>
    requires { each < 2 ^ 32 }
    ensures { IfOk result (λ v. length v.items ≡ 8 * each) }
{
    let items = Vec::new(alloc);
    match FrontLock::new(alloc, Numbers { items }) {
        Ok((lock, pass)) => match by_eight(rt, &lock, pass, 0, each) {
            Ok(whole) => Ok(list_of(lock, whole)),
            Err(e) => Err(e),
        },
        Err(e) => Err(e),
    }
}

// What the pass with the whole share has added.
fn list_of(lock: FrontLock<Numbers>, whole: Pass<Numbers>) -> Vec<u64>
    requires lock { whole.lock ≡ lock }
    requires data { whole.fixed ≡ tt }
    requires whole { IsWhole whole × (mine whole ≡ whole.seen) }
    ensures { result.items ≡ mine whole }
{
    match lock.close(whole) {
        Ok(Numbers { items }) => items,
        Err(_) => unreachable!(),
    }
}
