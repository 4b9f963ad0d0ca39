//! The tests by which a client takes a reply.
ghost use Rattle.std.specs.Prelude.{◌≡◌, IfOk};
ghost use Rattle.std.specs.Option.{option_copied};
ghost use Rattle.shape_base.specs.Offsets as offsets;
ghost use Rattle.shape_base.specs.Log as logs;
ghost use Rattle.fold_client.specs.Client as law;

use super::body::Body;
use shape_base::{Duplicate, Entry, Handle, Offset, OutOfMemory, are_same_texts};
use shape_json::Control;
use std::alloc::Global;

fn is_same_offset(a: Offset, b: Offset) -> bool
    ensures { result ≡ law.same_offset a b }
{
    match (a, b) {
        (Offset::Start, Offset::Start) => true,
        (Offset::Start, Offset::At { .. }) => false,
        (Offset::At { .. }, Offset::Start) => false,
        (Offset::At { lsn: a, pos: i }, Offset::At { lsn: b, pos: j }) => a == b && i == j,
    }
}

/// An asked offset as the end of a page without entries.
fn end_from(asked: Offset) -> Offset
    ensures { result ≡ offsets.end_from asked }
{
    match asked {
        Offset::Start => Offset::At { lsn: 0, pos: 0 },
        Offset::At { lsn, pos } => Offset::At { lsn, pos },
    }
}

/// Whether the offsets of entries rise from the one that was asked for.
fn rises_after(asked: Offset, entries: &[Entry]) -> bool
    ensures { result ≡ offsets.rises_after asked entries.now }
{
    let mut last = asked;
    for entry in entries {
        if !last.before(&entry.offset) {
            return false;
        }
        last = entry.offset;
    }
    true
}

fn last_offset(from: Offset, entries: &[Entry]) -> Offset
    ensures { result ≡ logs.last_offset from entries.now }
{
    let mut last = from;
    for entry in entries {
        last = entry.offset;
    }
    last
}

fn is_refetch(control: Control) -> bool
    ensures { result ≡ law.is_refetch control }
{
    match control {
        Control::Nothing => false,
        Control::UpToDate => false,
        Control::MustRefetch => true,
    }
}

/// Whether a body ends up to date.
pub fn is_current(control: Control) -> bool
    ensures { result ≡ law.is_current control }
{
    match control {
        Control::Nothing => false,
        Control::UpToDate => true,
        Control::MustRefetch => false,
    }
}

/// Whether a page does not fit what was asked: must-refetch, up to date without a cursor, offsets that do not rise from the asked one, or another end than the last
/// entry's.
pub fn is_bad(asked: Offset, end: Offset, cursor: Option<u64>, body: &Body) -> bool
    ensures { result ≡ law.is_bad asked end cursor body.now }
{
    let entries = body.entries.as_slice();
    is_refetch(body.control)
        || ((is_current(body.control) && cursor.is_none())
            || (!rises_after(asked, entries)
                || !is_same_offset(end, last_offset(end_from(asked), entries))))
}

/// Whether two handles are one.
pub fn is_same_handle(a: &Handle, b: &Handle) -> bool
    ensures { result ≡ law.same_handle a.now b.now }
{
    a.number == b.number && are_same_texts(&a.run, &b.run)
}

/// Whether a handle is above one that was left: of another run, or with a greater number.
fn is_above(left: &Handle, handle: &Handle) -> bool
    ensures { result ≡ law.is_above left.now handle.now }
{
    !are_same_texts(&handle.run, &left.run) || left.number < handle.number
}

/// Whether a client without a handle gets the one that it left, or one before it.
pub fn comes_back(present: Option<&Handle>, left: Option<&Handle>, got: Option<&Handle>) -> bool
    ensures { result ≡ law.comes_back (option_copied present.entry) (option_copied left.entry) (option_copied got.entry) }
{
    match present {
        Some(_) => false,
        None => match left {
            None => false,
            Some(left) => match got {
                None => false,
                Some(handle) => !is_above(left, handle),
            },
        },
    }
}

/// The handle that a conflict leads to.
pub fn next_handle(
    alloc: Global,
    left: Option<&Handle>,
    named: Option<&Handle>,
) -> Result<Option<Handle>, OutOfMemory>
    ensures { IfOk result (λ next. next ≡ law.next_handle (option_copied left.entry) (option_copied named.entry)) }
{
    match named {
        None => Ok(None),
        Some(handle) => match left {
            None => Ok(Some(handle.copy(alloc)?)),
            Some(left) => {
                if is_above(left, handle) {
                    Ok(Some(handle.copy(alloc)?))
                } else {
                    Ok(None)
                }
            }
        },
    }
}
