//! What the body of a reply says.
ghost use Rattle.std.specs.Prelude.{◌≡◌, ◌<◌, ◌^◌, Option, IfOk};
ghost use Rattle.shape_base.specs.OffsetText.{IsOffset};
ghost use Rattle.shape_json.specs.Reading.{HaveOffsets};
ghost use Rattle.fold_client.specs.declared.body.Body.{Body};
ghost use Rattle.fold_client.specs.Client.{Says};

use shape_base::{Entries, Entry, Offset, OutOfMemory, Text};
use shape_json::{BodyError, Control, read_body};
use std::alloc::Global;

/// Entries and the control behind them.
#[derive(Drop)]
pub struct Body {
    pub entries: Entries,
    pub control: Control,
}

/// A number of 64 bits is one.
fn number_fits(number: u64)
    ensures { number < 2 ^ 64 }
{}

fn offset_fits(offset: &Offset)
    ensures { IsOffset offset.now }
{
    match offset {
        Offset::Start => {}
        Offset::At { lsn, pos } => {
            number_fits(*lsn);
            number_fits(*pos);
        }
    }
}

/// The offsets of entries have 64 bits.
fn offsets_fit(entries: &[Entry])
    ensures { HaveOffsets entries.now }
{
    for entry in entries {
        offset_fits(&entry.offset);
    }
}

/// What the text of a body says; none where it is none.
pub fn body_in(alloc: Global, text: &Text) -> Result<Option<Body>, OutOfMemory>
    ensures { IfOk result (λ found. (body : Option Body) → Says text.now body → body ≡ found) }
{
    match read_body(alloc, text.as_bytes()) {
        Ok((entries, control)) => {
            offsets_fit(entries.as_slice());
            Ok(Some(Body { entries, control }))
        }
        Err(BodyError::BadBody) => Ok(None),
        Err(BodyError::OutOfMemory) => Err(OutOfMemory),
    }
}
