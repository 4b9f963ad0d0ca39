//! The records of a script, one after the other from a source.
ghost use Rattle.std.specs.Prelude.{◌≡◌, ◌+◌, ◌<◌, ◌≤◌, ◌^◌, ◌++◌, None, ◌∷◌, true, false, take, drop, length, [], IfOk, OnOk, OnErr, IsErrOf, IfErr, IfSome};
ghost use Rattle.std.specs.Vec.{vec_len};
ghost use Rattle.shape_base.specs.Outside.{Rose};
ghost use Rattle.script.specs.Reading.{Consumes, since, IsNext};
ghost use Rattle.script.specs.Items.{item_at};
ghost use Rattle.script.specs.declared.reading.ReadStop.TheVariants as stops;

use crate::record::Item;
use shape_base::Source;
use std::alloc::{AllocError, AllocFailed, Global};

/// Why no further record was read.
#[derive(Clone, Copy, Debug, PartialEq, Eq)]
pub enum ReadStop {
    /// An allocation failed.
    OutOfMemory,
    /// The source failed.
    ReadFault,
}

impl From<AllocError> for ReadStop {
    ghost from_gives = { λ _ e. e ≡ stops.OutOfMemory };

    fn from(_error: AllocError) -> ReadStop {
        ReadStop::OutOfMemory
    }
}

impl<T: Drop> From<AllocFailed<T>> for ReadStop {
    ghost from_gives = { λ _ e. e ≡ stops.OutOfMemory };

    fn from(_error: AllocFailed<T>) -> ReadStop {
        ReadStop::OutOfMemory
    }
}

/// Reads until the buffer has that many bytes, or no more can be had. The budget is how many may still be read; `room` is where a read puts its bytes.
fn fill<S: Source>(
    source: &mut S,
    room: &mut [u8],
    budget: &mut usize,
    buffer: &mut Vec<u8>,
    want: usize,
) -> Result<bool, ReadStop>
    requires room { 0 < length room.old }
    requires within { vec_len buffer.old ≤ want }
    ensures took { S.tells ≡ true → Consumes (S.given source.old) (S.left source.old) budget.old (S.given source.new) (S.left source.new) budget.new }
    ensures filled { S.tells ≡ true → OnOk result (buffer.new.items ≡ buffer.old.items ++ since (S.given source.old) (S.given source.new)) }
    ensures part { S.tells ≡ true → IsErrOf result ReadStop.ReadFault → vec_len buffer.old + length (since (S.given source.old) (S.given source.new)) < want }
    ensures full { IfOk result (λ full. full ≡ true → vec_len buffer.new ≡ want) }
    ensures short { IfOk result (λ full. full ≡ false → vec_len buffer.new < want) }
    ensures end { S.tells ≡ true → IfOk result (λ full. full ≡ false → take budget.new (S.left source.new) ≡ []) }
    ensures taken { OnOk result (vec_len buffer.new + budget.new ≡ vec_len buffer.old + budget.old) }
    ensures later { S.failed_reads source.old ≤ S.failed_reads source.new }
    ensures fault { IsErrOf result ReadStop.ReadFault → Rose (S.failed_reads source.old) (S.failed_reads source.new) }
{
    while buffer.len() < want {
        let most = (want - buffer.len()).min(*budget).min(room.len());
        if most == 0 {
            return Ok(false);
        }
        let count = match source.read(&mut room[..most]) {
            Ok(count) => count,
            Err(_) => return Err(ReadStop::ReadFault),
        };
        if count == 0 {
            return Ok(false);
        }
        *budget -= count;
        buffer.extend_from_slice(&room[..count])?;
    }
    Ok(true)
}

/// The next whole record, or that there is none before the end or the limit.
pub fn next_item<S: Source>(
    alloc: Global,
    source: &mut S,
    room: &mut [u8],
    budget: &mut usize,
) -> Result<Option<Item>, ReadStop>
    requires { 0 < length room.old }
    ensures took { S.tells ≡ true → Consumes (S.given source.old) (S.left source.old) budget.old (S.given source.new) (S.left source.new) budget.new }
    ensures next { S.tells ≡ true → IfOk result (λ next. IsNext next (since (S.given source.old) (S.given source.new)) (take budget.new (S.left source.new))) }
    ensures part { S.tells ≡ true → IsErrOf result ReadStop.ReadFault → item_at (since (S.given source.old) (S.given source.new)) ≡ None }
    ensures size { IfOk result (λ next. IfSome next (λ r. budget.new + (5 + length r.payload.items) ≡ budget.old)) }
    ensures later { S.failed_reads source.old ≤ S.failed_reads source.new }
    ensures fault { IsErrOf result ReadStop.ReadFault → Rose (S.failed_reads source.old) (S.failed_reads source.new) }
{
    let mut head = Vec::new(alloc);
    if !fill(source, room, budget, &mut head, 5)? {
        return Ok(None);
    }
    let (kind, size) = match head.as_slice() {
        [kind, a, b, c, d] => (*kind, u32::from_be_bytes([*a, *b, *c, *d])),
        _ => return Ok(None),
    };
    let mut payload = Vec::new(alloc);
    if !fill(source, room, budget, &mut payload, size as usize)? {
        return Ok(None);
    }
    Ok(Some(Item { kind, payload }))
}
