//! Four threads that add numbers to one list under std's `Mutex`, the yardstick.
ghost use Rattle.std.specs.Prelude.{◌+◌, ◌*◌, ◌^◌, ◌<◌};

use std::alloc::{AllocError, Global};
use std::sync::{Mutex, Wait};
use std::thread::{Threads, join};

fn add_all<R: Wait>(
    rt: &R,
    mutex: &Mutex<Vec<u64>>,
    first: u64,
    many: u64,
) -> Result<(), AllocError>
    requires { first + many < 2 ^ 64 }
{
    for k in 0..many {
        mutex.lock(rt).push(first + k)?;
    }
    Ok(())
}

fn by_two<R: Threads + Wait + Sync>(
    rt: &R,
    mutex: &Mutex<Vec<u64>>,
    first: u64,
    each: u64,
) -> Result<(), AllocError>
    requires { first + 2 * each < 2 ^ 64 }
{
    let (one, two) = join(
        rt,
        move ||
            requires { first + each < 2 ^ 64 }
        { add_all(rt, mutex, first, each) },
        move ||
            requires { first + 2 * each < 2 ^ 64 }
        { add_all(rt, mutex, first + each, each) },
    );
    one?;
    two
}

/// The list after four threads have added `each` numbers each, the k-th from `k * each` on.
pub fn added_under_mutex<R: Threads + Wait + Sync>(
    rt: &R,
    alloc: Global,
    each: u64,
) -> Result<Vec<u64>, AllocError>
    requires { each < 2 ^ 32 }
{
    let mutex = Mutex::new(Vec::new(alloc));
    let shared = &mutex;
    let (one, two) = join(
        rt,
        move ||
            requires { each < 2 ^ 32 }
        { by_two(rt, shared, 0, each) },
        move ||
            requires { each < 2 ^ 32 }
        { by_two(rt, shared, 2 * each, each) },
    );
    one?;
    two?;
    Ok(mutex.into_inner())
}
