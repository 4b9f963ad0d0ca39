//! Bodies, written.
ghost use Rattle.std.specs.Prelude.{◌≡◌, ◌+◌, ◌≤◌, ◌++◌, ◌∷◌, List, [], length, map, Bool, IfOk, vec_len};
ghost use Rattle.std.specs.List.{flat_map};
ghost use Rattle.std.specs.Str.{IsUtf8};
ghost use Rattle.shape_base.specs.declared.entry.Entry.{Entry};
ghost use Rattle.shape_json.specs.Body.{entry_text, inner_text, body_text, IsInner};
ghost use Rattle.shape_json.specs.Buffer.{HasRoom, Adds, ending};

use crate::control::Control;
use crate::size::inner_size;
use crate::writer::{put, put_bytes, put_entry};
use shape_base::{Entries, Entry, OutOfMemory, Text};
use std::alloc::Global;

/// Adds entries, each behind a comma.
fn put_more_entries(out: &mut Vec<u8>, entries: &[Entry])
    requires { HasRoom out.old (length (flat_map (λ text. 44 ∷ text) (map entry_text entries.now))) }
    ensures { Adds out.old out.new (flat_map (λ text. 44 ∷ text) (map entry_text entries.now)) }
{
    for entry in entries {
        put(out, ",");
        put_entry(out, entry);
    }
}

/// Adds entries, joined by commas.
pub fn put_entries(out: &mut Vec<u8>, entries: &[Entry])
    requires { HasRoom out.old (length (inner_text entries.now)) }
    ensures { Adds out.old out.new (inner_text entries.now) }
{
    let Some((first, others)) = entries.split_first() else {
        return;
    };
    put_entry(out, first);
    put_more_entries(out, others);
}

/// What stands behind the entries of a body. The control has a comma before it, unless it is alone.
fn ending(alone: bool, control: Control) -> &'static str
    ensures { result.now ≡ ending alone control }
{
    match (control, alone) {
        (Control::Nothing, _) => "]",
        (Control::UpToDate, true) => "{\"headers\":{\"control\":\"up-to-date\"}}]",
        (Control::UpToDate, false) => ",{\"headers\":{\"control\":\"up-to-date\"}}]",
        (Control::MustRefetch, true) => "{\"headers\":{\"control\":\"must-refetch\"}}]",
        (Control::MustRefetch, false) => ",{\"headers\":{\"control\":\"must-refetch\"}}]",
    }
}

/// The body of entries and a control.
pub fn write_entries(
    alloc: Global,
    entries: &Entries,
    control: Control,
) -> Result<Text, OutOfMemory>
    ensures { IfOk result (λ text. text ≡ body_text entries.now control) }
{
    let entries = entries.as_slice();
    let ending = ending(entries.is_empty(), control);
    let size = inner_size(entries).saturating_add(1 + ending.len() as u64);
    if size == u64::MAX {
        return Err(OutOfMemory);
    }
    let mut out = Vec::with_capacity(alloc, size as usize)?;
    put(&mut out, "[");
    put_entries(&mut out, entries);
    put(&mut out, ending);
    Ok(Text::of_bytes(out))
}

/// The body of entries whose texts, joined by commas, are given, and of a control.
pub fn close_body(alloc: Global, inner: &[u8], control: Control) -> Result<Text, OutOfMemory>
    requires { IsInner inner.now }
    ensures { (entries : List Entry) → inner.now ≡ inner_text entries → IfOk result (λ text. text ≡ body_text entries control) }
{
    let ending = ending(inner.is_empty(), control);
    let mut out = Vec::with_capacity(alloc, 1 + inner.len() + ending.len())?;
    put(&mut out, "[");
    put_bytes(&mut out, inner);
    put(&mut out, ending);
    Ok(Text::of_bytes(out))
}
