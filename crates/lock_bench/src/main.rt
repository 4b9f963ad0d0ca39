//! Threads that add numbers to one list under a `FrontLock`: what the lock promises, used whole, and how fast it is.
//!
//! | Line | What is printed |
//! |---|---|
//! | `lock 250000` | how long the list is after four threads have added so many numbers each |
//! | `mutex 250000` | the same under std's `Mutex`, the yardstick of bench/lock.sh |
//! | `four 100`, `eight 250` | so many threads: the same, and whether each thread's numbers stand in the order in which it added them |
//! | `race 500` | two threads add twice so many numbers each, and in the middle the first tells the other what it has seen: the same |
//! | `taken 7` | a number is added and the state is taken and not given back: the ticket that another pass waits for, and the one that is served |
#![tactic(auto)]

mod crowd;
mod mutex;
mod numbers;
mod order;
mod race;

ghost use Rattle.std.specs.Prelude.{◌<◌, ◌^◌};

use crowd::{added_by_eight, added_by_four};
use front_lock::{FrontLock, Taken};
use mutex::added_under_mutex;
use numbers::{Numbers, add};
use order::is_in_order;
use race::raced;
use std::alloc::{AllocError, Global};
use std::io;
use std::sync::Wait;
use std::thread::Threads;

/// The most numbers that a thread is asked to add.
const MOST: u64 = 1 << 24;

/// The length of the list, and whether each thread's numbers stand in their order.
fn order_line(alloc: Global, items: &[u64], threads: u64, each: u64) -> Result<String, AllocError> {
    let length = items.len();
    if is_in_order(alloc, items, threads, each)? {
        format!(in alloc; "{length} in order")
    } else {
        format!(in alloc; "{length} not in order")
    }
}

/// Adds a number, takes the state and does not give it back. What a pass that closes is told.
fn taken_line<R: Wait>(rt: &R, alloc: Global, number: u64) -> Result<String, AllocError> {
    let items = Vec::new(alloc);
    let (lock, mut pass) = FrontLock::new(alloc, Numbers { items })?;
    let other = lock.split(&mut pass)?;
    let pass = add(rt, &lock, pass, number)?;
    let (held, state) = lock.take(rt, pass);
    let length = state.items.len();
    drop(held);
    match lock.close(other) {
        Ok(_) => format!(in alloc; "{length} and not taken"),
        Err(Taken { ticket, serving }) => format!(in alloc;
            "{length} ticket {ticket} serving {serving}"
        ),
    }
}

/// What is printed of a line, behind its first word.
fn answer<R: Threads + Wait + Sync>(
    rt: &R,
    alloc: Global,
    word: &str,
    number: u64,
) -> Result<String, AllocError>
    requires { number < 2 ^ 32 }
{
    match word {
        "lock" => format!(in alloc; "{}", added_by_four(rt, alloc, number)?.len()),
        "mutex" => format!(in alloc; "{}", added_under_mutex(rt, alloc, number)?.len()),
        "four" => order_line(
            alloc,
            added_by_four(rt, alloc, number)?.as_slice(),
            4,
            number,
        ),
        "eight" => order_line(
            alloc,
            added_by_eight(rt, alloc, number)?.as_slice(),
            8,
            number,
        ),
        "race" => order_line(alloc, raced(rt, alloc, number)?.as_slice(), 2, 2 * number),
        "taken" => taken_line(rt, alloc, number),
        _ => format!(in alloc; "no such line"),
    }
}

fn main(rt: HostRuntime) -> io::Result<()> {
    for line in rt.lines(rt.alloc()) {
        let line = line?;
        let (word, number) = line.as_str().split_once(' ').unwrap_or((line.as_str(), ""));
        let number = number.parse::<u64>().unwrap_or(0).min(MOST);
        println!(rt; "{word} {}", answer(&rt, rt.alloc(), word, number)?)?;
    }
    Ok(())
}
