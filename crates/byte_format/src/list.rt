//! Lists of parts that are all of one format.
ghost use Rattle.std.specs.Prelude.{◌≡◌, ◌++◌, OnOk};
ghost use Rattle.std.specs.List.{flat_map, AllByRecursion};
ghost use Rattle.byte_format.specs.Format.{Gives, Format, int32, times};

use crate::fault::ReadError;
use crate::reading::u32_at;
use crate::writing::put_u32;
use std::alloc::{AllocError, Global};

/// A value with a format of its own.
pub trait Part: Sized + Drop {
    /// How values are spelled and read.
    ghost format: { Format Self };

    /// Takes one value from the front of bytes.
    fn read_part(alloc: Global, bytes: &[u8]) -> Result<(Self, &[u8]), ReadError>
        ensures { Gives (λ x. (x.0, x.1.now)) result (format.read bytes.now) };

    /// Adds the spelling at the end.
    fn put_part(&self, out: &mut Vec<u8>) -> Result<(), AllocError>
        requires { format.Fits self.now }
        ensures { OnOk result (out.new.items ≡ out.old.items ++ format.spell self.now) };
}

/// So many values, one after the other. The count takes no memory before the values are seen to be there.
///
/// `Wrong` where a value is wrong, as its reader has it.
pub fn list_of<T: Part>(
    alloc: Global,
    count: u64,
    bytes: &[u8],
) -> Result<(Vec<T>, &[u8]), ReadError>
    ensures { Gives (λ x. (x.0.items, x.1.now)) result (times T.format.read count bytes.now) }
{
    let mut items = Vec::new(alloc);
    let mut rest = bytes;
    for _ in 0..count {
        let (item, after) = T::read_part(alloc, rest)?;
        items.push(item)?;
        rest = after;
    }
    Ok((items, rest))
}

/// The values, one after the other.
pub fn put_list<T: Part>(out: &mut Vec<u8>, items: &[T]) -> Result<(), AllocError>
    requires { AllByRecursion T.format.Fits items.now }
    ensures { OnOk result (out.new.items ≡ out.old.items ++ flat_map T.format.spell items.now) }
{
    for item in items {
        item.put_part(out)?;
    }
    Ok(())
}

impl Part for u32 {
    ghost format = { int32 };

    fn read_part(_alloc: Global, bytes: &[u8]) -> Result<(u32, &[u8]), ReadError> {
        u32_at(bytes)
    }

    fn put_part(&self, out: &mut Vec<u8>) -> Result<(), AllocError> {
        put_u32(out, *self)
    }
}
