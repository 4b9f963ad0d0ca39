//! Lists of parts that are all of one form.
ghost use Rattle.std.specs.Prelude.{◌≡◌, ℕ, List, IfOk};
ghost use Rattle.byte_format.specs.Format.{Gives, Read, times};

use byte_format::ReadError;
use std::alloc::Global;

/// A part that is read from the front of bytes.
pub trait Part: Sized + Drop {
    /// The part and the bytes after it.
    ghost read: { List ℕ → Read Self };

    /// Takes one part from the front of bytes.
    fn part_at(alloc: Global, bytes: &[u8]) -> Result<(Self, &[u8]), ReadError>
        ensures { Gives (λ x. (x.0, x.1.now)) result (read bytes.now) };
}

/// So many parts, one after the other. The count takes no memory before the parts are seen to be there.
pub fn parts_at<T: Part>(
    alloc: Global,
    count: u64,
    bytes: &[u8],
) -> Result<(Vec<T>, &[u8]), ReadError>
    ensures { Gives (λ x. (x.0.items, x.1.now)) result (times T.read count bytes.now) }
{
    let mut parts = Vec::new(alloc);
    let mut rest = bytes;
    for _ in 0..count {
        let (part, after) = T::part_at(alloc, rest)?;
        parts.push(part)?;
        rest = after;
    }
    Ok((parts, rest))
}
