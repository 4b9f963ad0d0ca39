//! Texts in quotes.
ghost use Rattle.std.specs.Prelude.{◌≡◌, ◌++◌, OnOk};
ghost use Rattle.std.specs.List.{flat_map};
ghost use Rattle.shape_base.specs.Shape.{doubled, quoted};

use super::memory::OutOfMemory;

fn push_doubled(out: &mut Vec<u8>, part: &[u8]) -> Result<(), OutOfMemory>
    ensures { OnOk result (out.new.items ≡ out.old.items ++ flat_map doubled part.now) }
{
    for byte in part {
        if *byte == b'"' {
            out.push(b'"')?;
        }
        out.push(*byte)?;
    }
    Ok(())
}

/// Adds a part in quotes at the end; each quote inside it is doubled.
pub fn push_quoted(out: &mut Vec<u8>, part: &[u8]) -> Result<(), OutOfMemory>
    ensures { OnOk result (out.new.items ≡ out.old.items ++ quoted part.now) }
{
    out.push(b'"')?;
    push_doubled(out, part)?;
    out.push(b'"')?;
    Ok(())
}
