//! Two threads, of which one tells the other in the middle what it has seen.
ghost use Rattle.std.specs.Prelude.{◌≡◌, ◌+◌, ◌*◌, ◌^◌, ◌<◌, Bool, List, [], ◌++◌, length, IfOk};
ghost use Rattle.front_lock.specs.Rule.{doubled, picked};
ghost use Rattle.front_lock.specs.Passes.{mine, IsWhole, IsSameShare, IsSameLock};
ghost use Rattle.lock_bench.specs.Numbers.{numbers};

use crate::numbers::{Numbers, add_all};
use crossbeam_channel::{Receiver, Sender};
use front_lock::{FrontLock, Note, Pass};
use std::alloc::{AllocError, Global};
use std::marker::{Brand, PhantomData};
use std::sync::Wait;
use std::thread;
use std::thread::Threads;

/// Names the lock, for the type of a letter.
pub trait Room {
    ghost use Rattle.atomic_table.specs.Seated.{TableId};

    ghost table: { TableId };
}

impl Room for Brand {
    ghost use Rattle.lock_bench.specs.Numbers.{no_table};

    ghost table = { no_table };
}

/// A note on its way, of the lock that `B` names.
#[derive(Drop)]
pub struct Letter<B: Room> {
    note: Note<Numbers>,
    of: PhantomData<B>,
    ghost from: { note.lock ≡ B.table },
}

// Adds, tells the other, and adds.
fn tell<B: Room, R: Wait>(
    rt: &R,
    lock: &FrontLock<Numbers>,
    pass: Pass<Numbers>,
    half: u64,
    to: &Sender<Letter<B>>,
) -> Result<Pass<Numbers>, AllocError>
    requires room { lock.now ≡ B.table }
    requires lock { pass.lock ≡ B.table }
    requires data { pass.fixed ≡ tt }
    requires small { half < 2 ^ 32 }
    ensures lock { IfOk result (λ p. IsSameLock pass p × IsSameShare pass p) }
    ensures mine { IfOk result (λ p. mine p ≡ (mine pass ++ numbers 0 half) ++ numbers half half) }
    ensures count { IfOk result (λ p. length (mine p) ≡ length (mine pass) + 2 * half) }
{
    let mut pass = add_all(rt, lock, pass, 0, half)?;
    let note = lock.note(&mut pass)?;
    let _ = to.send(
        rt,
        Letter {
            note,
            of: PhantomData,
        },
    );
    let pass = add_all(rt, lock, pass, half, half)?;
    Ok(pass)
}

// Adds, learns what the other has seen, and adds.
fn hear<B: Room, R: Wait>(
    rt: &R,
    lock: &FrontLock<Numbers>,
    pass: Pass<Numbers>,
    half: u64,
    from: &Receiver<Letter<B>>,
) -> Result<Pass<Numbers>, AllocError>
    requires room { lock.now ≡ B.table }
    requires lock { pass.lock ≡ B.table }
    requires data { pass.fixed ≡ tt }
    requires small { half < 2 ^ 32 }
    ensures lock { IfOk result (λ p. IsSameLock pass p × IsSameShare pass p) }
    ensures mine { IfOk result (λ p. mine p ≡ (mine pass ++ numbers (2 * half) half) ++ numbers (3 * half) half) }
    ensures count { IfOk result (λ p. length (mine p) ≡ length (mine pass) + 2 * half) }
{
    let pass = add_all(rt, lock, pass, 2 * half, half)?;
    let pass = match from.recv(rt) {
        Ok(Letter { note, of: _ }) => lock.learn(pass, note),
        Err(_) => pass,
    };
    let pass = add_all(rt, lock, pass, 3 * half, half)?;
    Ok(pass)
}

// Two halves of the whole share: the list has the own numbers of both passes, each pass's in order, and no others.
fn ended(lock: FrontLock<Numbers>, one: Pass<Numbers>, two: Pass<Numbers>, half: u64) -> Vec<u64>
    requires one { one.lock ≡ lock }
    requires two { two.lock ≡ lock }
    requires data { one.fixed ≡ tt }
    requires halves { IsSameShare one two × (2 * one.part ≡ doubled one.depth 1) }
    requires counts { (length (mine one) ≡ 2 * half) × (length (mine two) ≡ 2 * half) }
    ensures one { picked one.own result.items ≡ mine one }
    ensures two { picked two.own result.items ≡ mine two }
    ensures all { length result.items ≡ 4 * half }
{
    let whole = lock.join(one, two);
    match lock.close(whole) {
        Ok(Numbers { items }) => items,
        Err(_) => unreachable!(),
    }
}

// Each thread adds its numbers. All of them are then in the list, each thread's in order, and no others.
fn race<B: Room + Send + Sync, R: Threads + Wait + Sync>(
    rt: &R,
    alloc: Global,
    lock: FrontLock<Numbers>,
    pass: Pass<Numbers>,
    half: u64,
) -> Result<Vec<u64>, AllocError>
    requires room { lock ≡ B.table }
    requires lock { pass.lock ≡ B.table }
    requires data { pass.fixed ≡ tt }
    requires new { (mine pass ≡ []) × IsWhole pass }
    requires small { half < 2 ^ 32 }
    ensures all { IfOk result (λ v. length v.items ≡ 4 * half) }
    ensures each { IfOk result (λ v. (one : List Bool) × (two : List Bool) × (picked one v.items ≡ numbers 0 half ++ numbers half half) × (picked two v.items ≡ numbers (2 * half) half ++ numbers (3 * half) half)) }
{
    let Ok((to, from)) = crossbeam_channel::unbounded::<Letter<B>, Global>(alloc) else {
        return Err(AllocError);
    };
    let mut first = pass;
    let Ok(second) = lock.split(&mut first) else {
        return Err(AllocError);
    };
    let shared = &lock;
    let (one, two) = thread::join(
        rt,
        move ||
            requires { (shared.now ≡ B.table) × (first.lock ≡ B.table) × (first.fixed ≡ tt) × (half < 2 ^ 32) }
            ensures { IfOk result (λ p. IsSameLock first p × IsSameShare first p × (mine p ≡ (mine first ++ numbers 0 half) ++ numbers half half) × (length (mine p) ≡ length (mine first) + 2 * half)) }
        { tell(rt, shared, first, half, &to) },
        move ||
            requires { (shared.now ≡ B.table) × (second.lock ≡ B.table) × (second.fixed ≡ tt) × (half < 2 ^ 32) }
            ensures { IfOk result (λ p. IsSameLock second p × IsSameShare second p × (mine p ≡ (mine second ++ numbers (2 * half) half) ++ numbers (3 * half) half) × (length (mine p) ≡ length (mine second) + 2 * half)) }
        { hear(rt, shared, second, half, &from) },
    );
    let one = one?;
    let two = two?;
    Ok(ended(lock, one, two, half))
}

/// The list after two threads have added four halves of numbers to it: the first those from 0 on, the second those from
/// `2 * half` on.
pub fn raced<R: Threads + Wait + Sync>(
    rt: &R,
    alloc: Global,
    half: u64,
) -> Result<Vec<u64>, AllocError>
    requires { half < 2 ^ 32 }
    ensures all { IfOk result (λ v. length v.items ≡ 4 * half) }
    ensures each { IfOk result (λ v. (one : List Bool) × (two : List Bool) × (picked one v.items ≡ numbers 0 half ++ numbers half half) × (picked two v.items ≡ numbers (2 * half) half ++ numbers (3 * half) half)) }
{
    let items = Vec::new(alloc);
    let Ok((lock, pass)) = FrontLock::new(alloc, Numbers { items }) else {
        return Err(AllocError);
    };
    race::<Brand, R>(rt, alloc, lock, pass, half)
}
