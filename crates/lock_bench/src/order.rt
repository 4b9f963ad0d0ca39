//! Whether a list has the numbers of each thread in their order.
ghost use Rattle.std.specs.Prelude.{◌<◌};

use std::alloc::{AllocError, Global};

/// Whether the number is the next one of its thread, the k-th of which adds `each` numbers from `k * each` on.
fn is_next(number: u64, each: u64, next: &mut [u64]) -> bool
    requires { 0 < each }
{
    let thread = number / each;
    if thread >= next.len() as u64 {
        return false;
    }
    let wanted = next[thread as usize];
    next[thread as usize] = wanted.saturating_add(1);
    number == wanted
}

/// Whether the list has the numbers that so many threads add, each thread's in the order in which it added them, and no
/// others: the k-th thread adds `each` numbers from `k * each` on.
pub fn is_in_order(
    alloc: Global,
    items: &[u64],
    threads: u64,
    each: u64,
) -> Result<bool, AllocError> {
    let mut next = Vec::new(alloc);
    for thread in 0..threads {
        next.push(each.saturating_mul(thread))?;
    }
    for number in items {
        if !is_next(*number, each.max(1), next.as_mut_slice()) {
            return Ok(false);
        }
    }
    Ok(items.len() as u64 == each.saturating_mul(threads))
}
