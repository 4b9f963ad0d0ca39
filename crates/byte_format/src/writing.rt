//! Writers of single parts. Each adds the part at the end of what is there.
ghost use Rattle.std.specs.Prelude.{◌≡◌, ◌<◌, ◌^◌, ◌++◌, length, OnOk};
ghost use Rattle.byte_format.specs.Format.{int16, int32, int64, string, chunk};

use std::alloc::AllocError;

/// A number of two bytes, the high one first.
pub fn put_u16(out: &mut Vec<u8>, number: u16) -> Result<(), AllocError>
    ensures { OnOk result (out.new.items ≡ out.old.items ++ int16.spell number) }
{
    out.extend_from_slice(&number.to_be_bytes())?;
    Ok(())
}

/// A number of four bytes, the high one first.
pub fn put_u32(out: &mut Vec<u8>, number: u32) -> Result<(), AllocError>
    ensures { OnOk result (out.new.items ≡ out.old.items ++ int32.spell number) }
{
    out.extend_from_slice(&number.to_be_bytes())?;
    Ok(())
}

/// A number of eight bytes, the high one first.
pub fn put_u64(out: &mut Vec<u8>, number: u64) -> Result<(), AllocError>
    ensures { OnOk result (out.new.items ≡ out.old.items ++ int64.spell number) }
{
    out.extend_from_slice(&number.to_be_bytes())?;
    Ok(())
}

/// The bytes and a zero byte. A reader finds them again only if none of them is zero.
pub fn put_string(out: &mut Vec<u8>, text: &[u8]) -> Result<(), AllocError>
    ensures { OnOk result (out.new.items ≡ out.old.items ++ string.spell text.now) }
{
    out.extend_from_slice(text)?;
    out.push(0)?;
    Ok(())
}

/// The length, in four bytes, and the bytes.
pub fn put_chunk(out: &mut Vec<u8>, text: &[u8]) -> Result<(), AllocError>
    requires { length text.now < 2 ^ 32 }
    ensures { OnOk result (out.new.items ≡ out.old.items ++ chunk.spell text.now) }
{
    put_u32(out, text.len() as u32)?;
    out.extend_from_slice(text)?;
    Ok(())
}
