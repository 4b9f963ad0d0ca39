//! The pages of closed chunks.
ghost use Rattle.std.specs.Prelude.{◌<◌};

use shape_base::{Offset, OutOfMemory, Page};
use shape_def::Def;
use shape_state::{Paged, Shape};
use std::alloc::Global;

/// A page that ends a closed chunk, and the offset that it comes after.
#[derive(Drop)]
pub(crate) struct Held {
    after: Offset,
    page: Page,
}

/// The page after an offset, where it ends a closed chunk.
fn closed_page(shape: &Shape<Def>, after: Offset) -> Result<Option<Page>, OutOfMemory> {
    match shape.page(after, false, false)? {
        Paged::Page(page) => {
            if page.up_to_date {
                return Ok(None);
            }
            Ok(Some(page))
        }
        _ => Ok(None),
    }
}

/// The pages of all closed chunks.
pub(crate) fn closed_pages(alloc: Global, shape: &Shape<Def>) -> Result<Vec<Held>, OutOfMemory> {
    let mut held = Vec::new(alloc);
    let mut after = Offset::Start;
    for _ in 0..u64::MAX {
        let Some(page) = closed_page(shape, after)? else {
            break;
        };
        let end = page.end;
        held.push(Held { after, page })?;
        after = end;
    }
    Ok(held)
}

/// Asks again for so many of the pages, one after the other and again from the first, and answers the sum of the lengths of their texts, up to 2^64 - 1.
pub(crate) fn ask_again(shape: &Shape<Def>, held: &[Held], count: u64) -> Result<u64, OutOfMemory> {
    let mut bytes = 0u64;
    let mut place = 0;
    for _ in 0..count {
        if place >= held.len() {
            place = 0;
        }
        let Some(one) = held.get(place) else {
            break;
        };
        let Some(page) = closed_page(shape, one.after)? else {
            break;
        };
        if page.inner.len() == one.page.inner.len() {
            bytes = bytes.saturating_add(page.inner.len() as u64);
        }
        place = place.saturating_add(1);
    }
    Ok(bytes)
}
