//! Bodies, read. `serde_json` reads the text; what was read is accepted where writing it gives the
//! same bytes again. So the steps between take what they find and look for nothing else.
ghost use Rattle.std.specs.Prelude.{◌≡◌, ◌∷◌, List, [], codes, Option, Some, None, IfOk, IsOk, IsErrOf, IsTrue, ◌↔◌, MatchResult, ◌++◌, option_map, option_and_then};
ghost use Rattle.std.specs.List.{list_all};
ghost use Rattle.std.specs.Str.{IsUtf8};
ghost use Rattle.serde_json.specs.Read.{read};
ghost use Rattle.serde_json.specs.Data.{Data, string, object};
ghost use Rattle.serde_json.specs.Find.{get, as_str, as_object};
ghost use Rattle.serde_json.specs.View.{view, items_view, members_view};
ghost use Rattle.shape_base.specs.declared.value.Value.{Value as Word};
ghost use Rattle.shape_base.specs.declared.entry.Op.{Op};
ghost use Rattle.shape_base.specs.declared.offset.Offset.{Offset};
ghost use Rattle.shape_base.specs.declared.entry.Cell.{Cell};
ghost use Rattle.shape_base.specs.declared.entry.Entry.{Entry};
ghost use Rattle.shape_base.specs.OffsetText.{offset_text, IsOffset};
ghost use Rattle.shape_json.specs.declared.control.Control.{Control};
ghost use Rattle.shape_json.specs.Body.{body_text};
ghost use Rattle.shape_json.specs.Plain.{is_plain, ArePlain};
ghost use Rattle.shape_json.specs.Reading.{value_data, cells_data, headers_data, entry_data, items_data, body_data, said_data, Reads, HaveOffsets};

use crate::body::write_entries;
use crate::control::Control;
use crate::plain::is_plain;
use serde_json::{Map, Value};
use shape_base::{Cell, Cells, Entries, Entry, Offset, Op, OutOfMemory, Text, Value as CellValue};
use std::alloc::{AllocError, AllocFailed, Global};

/// Why a text is not read as a body.
#[derive(Clone, Copy, Debug, PartialEq, Eq)]
pub enum BodyError {
    /// The text is not one that `write_entries` writes of plain entries.
    BadBody,
    OutOfMemory,
}

impl From<OutOfMemory> for BodyError {
    ghost use Rattle.std.specs.Prelude.{◌≡◌};
    ghost use Rattle.shape_json.specs.declared.read.BodyError.TheVariants as errors;

    ghost from_gives = { λ _ e. e ≡ errors.OutOfMemory };

    fn from(_error: OutOfMemory) -> BodyError {
        BodyError::OutOfMemory
    }
}

impl From<AllocError> for BodyError {
    ghost use Rattle.std.specs.Prelude.{◌≡◌};
    ghost use Rattle.shape_json.specs.declared.read.BodyError.TheVariants as errors;

    ghost from_gives = { λ _ e. e ≡ errors.OutOfMemory };

    fn from(_error: AllocError) -> BodyError {
        BodyError::OutOfMemory
    }
}

impl<T: Drop> From<AllocFailed<T>> for BodyError {
    ghost use Rattle.std.specs.Prelude.{◌≡◌};
    ghost use Rattle.shape_json.specs.declared.read.BodyError.TheVariants as errors;

    ghost from_gives = { λ _ e. e ≡ errors.OutOfMemory };

    fn from(_error: AllocFailed<T>) -> BodyError {
        BodyError::OutOfMemory
    }
}

/// The string that is the member of that name.
fn string_in<'a>(value: &'a Value, name: &str) -> Option<&'a str>
    ensures { option_map (λ s. s.now) result ≡ option_and_then as_str (get name.now (view value.now)) }
{
    match value.get(name) {
        Some(member) => member.as_str(),
        None => None,
    }
}

/// The members of the object that is the member of that name.
fn members_in<'a>(value: &'a Value, name: &str) -> Option<&'a Map<String, Value>>
    ensures { option_map (λ m. members_view m.now.entries) result ≡ option_and_then as_object (get name.now (view value.now)) }
{
    match value.get(name) {
        Some(member) => member.as_object(),
        None => None,
    }
}

/// What the headers say under a name.
fn header_in<'a>(value: &'a Value, name: &str) -> Option<&'a str>
    ensures { option_map (λ s. s.now) result ≡ option_and_then (λ headers. option_and_then as_str (get name.now headers)) (get (codes "headers") (view value.now)) }
{
    match value.get("headers") {
        Some(headers) => string_in(headers, name),
        None => None,
    }
}

fn op_in(value: &Value) -> Option<Op>
    ensures { (op : Op) → get (codes "headers") (view value.now) ≡ Some (headers_data op) → result ≡ Some op }
{
    match header_in(value, "operation")? {
        "insert" => Some(Op::Insert),
        "update" => Some(Op::Update),
        "delete" => Some(Op::Delete),
        _ => None,
    }
}

fn control_in(value: &Value) -> Option<Control>
    ensures up_to_date { view value.now ≡ said_data (codes "up-to-date") → result ≡ Some Control.UpToDate }
    ensures must_refetch { view value.now ≡ said_data (codes "must-refetch") → result ≡ Some Control.MustRefetch }
    ensures entry { (e : Entry) → view value.now ≡ entry_data e → result ≡ None }
{
    match header_in(value, "control")? {
        "up-to-date" => Some(Control::UpToDate),
        "must-refetch" => Some(Control::MustRefetch),
        _ => None,
    }
}

fn position(lsn: u64, pos: u64) -> Offset
    ensures at { result ≡ Offset.At lsn pos }
    ensures bits { IsOffset (Offset.At lsn pos) }
{
    Offset::At { lsn, pos }
}

fn offset_in(value: &Value) -> Option<Offset>
    ensures { (offset : Offset) → IsOffset offset → get (codes "offset") (view value.now) ≡ Some (string (offset_text offset)) → result ≡ Some offset }
{
    match Offset::read(string_in(value, "offset")?.as_bytes()) {
        Ok(Offset::Start) => Some(Offset::Start),
        Ok(Offset::At { lsn, pos }) => Some(position(lsn, pos)),
        Err(_) => None,
    }
}

fn value_of(alloc: Global, value: &Value) -> Result<CellValue, BodyError>
    ensures { (word : Word) → view value.now ≡ value_data word → Reads result word }
{
    if value.is_null() {
        return Ok(CellValue::Null);
    }
    match value.as_str() {
        Some(words) => Ok(CellValue::Words(Text::of(alloc, words)?)),
        None => Err(BodyError::BadBody),
    }
}

fn cell_of(alloc: Global, name: &str, value: &Value) -> Result<Cell, BodyError>
    ensures { (cell : Cell) → name.now ≡ cell.name → view value.now ≡ value_data cell.value → Reads result cell }
{
    let name = Text::of(alloc, name)?;
    let value = value_of(alloc, value)?;
    Ok(Cell { name, value })
}

fn cells_of(alloc: Global, members: &Map<String, Value>) -> Result<Cells, BodyError>
    ensures { (cells : List Cell) → members_view members.now.entries ≡ cells_data cells → Reads result cells }
{
    let mut cells = Vec::with_capacity(alloc, members.len())?;
    for (name, value) in members.iter() {
        match cell_of(alloc, name.as_str(), value) {
            Ok(cell) => cells.push(cell)?,
            Err(error) => return Err(error),
        }
    }
    Ok(Cells::from_vec(cells))
}

fn entry_of(alloc: Global, value: &Value) -> Result<Entry, BodyError>
    ensures { (e : Entry) → IsOffset e.offset → view value.now ≡ entry_data e → Reads result e }
{
    let Some(op) = op_in(value) else {
        return Err(BodyError::BadBody);
    };
    let Some(key) = string_in(value, "key") else {
        return Err(BodyError::BadBody);
    };
    let Some(offset) = offset_in(value) else {
        return Err(BodyError::BadBody);
    };
    let Some(cells) = members_in(value, "value") else {
        return Err(BodyError::BadBody);
    };
    let key = Text::of(alloc, key)?;
    let cells = cells_of(alloc, cells)?;
    Ok(Entry {
        offset,
        op,
        key,
        cells,
    })
}

/// Takes one item of a body: an entry goes behind the others, a control takes the place of the last one.
fn take_item(
    alloc: Global,
    item: &Value,
    entries: &mut Vec<Entry>,
    control: &mut Control,
) -> Result<(), BodyError>
    ensures entry { (e : Entry) → IsOffset e.offset → view item.now ≡ entry_data e → MatchResult result (λ _. (entries.new.items ≡ entries.old.items ++ e ∷ []) × (control.new ≡ control.old)) (λ x. x ≡ BodyError.OutOfMemory) }
    ensures up_to_date { view item.now ≡ said_data (codes "up-to-date") → IsOk result × (entries.new.items ≡ entries.old.items) × (control.new ≡ Control.UpToDate) }
    ensures must_refetch { view item.now ≡ said_data (codes "must-refetch") → IsOk result × (entries.new.items ≡ entries.old.items) × (control.new ≡ Control.MustRefetch) }
{
    if let Some(found) = control_in(item) {
        *control = found;
        return Ok(());
    }
    match entry_of(alloc, item) {
        Ok(entry) => {
            entries.push(entry)?;
            Ok(())
        }
        Err(error) => Err(error),
    }
}

/// The entries and the control of a body.
fn body_of(alloc: Global, value: &Value) -> Result<(Entries, Control), BodyError>
    ensures { (es : List Entry) (said : Control) → HaveOffsets es → view value.now ≡ body_data es said → Reads result (es, said) }
{
    let Some(items) = value.as_array() else {
        return Err(BodyError::BadBody);
    };
    let mut entries = Vec::with_capacity(alloc, items.len())?;
    let mut control = Control::Nothing;
    for item in items.as_slice() {
        match take_item(alloc, item, &mut entries, &mut control) {
            Ok(()) => {}
            Err(error) => return Err(error),
        }
    }
    Ok((Entries::from_vec(entries), control))
}

fn are_plain(entries: &[Entry]) -> bool
    ensures { result ≡ list_all is_plain entries.now }
{
    entries.iter().all(|entry| is_plain(entry))
}

/// Whether a text is the body of entries and a control.
fn is_body(
    alloc: Global,
    text: &[u8],
    entries: &Entries,
    control: Control,
) -> Result<bool, OutOfMemory>
    ensures { IfOk result (λ b. IsTrue b ↔ (text.now ≡ body_text entries.now control)) }
{
    let written = write_entries(alloc, entries, control)?;
    Ok(text == written.as_bytes())
}

/// The JSON value of a text.
fn value_in(alloc: Global, text: &[u8]) -> Result<Value, BodyError>
    ensures { (data_read : Data) → IsUtf8 text.now → read text.now ≡ Some data_read → MatchResult result (λ value. view value ≡ data_read) (λ e. e ≡ BodyError.OutOfMemory) }
{
    match Value::from_slice(alloc, text) {
        Ok(value) => Ok(value),
        Err(error) => {
            if error.is_memory() {
                return Err(BodyError::OutOfMemory);
            }
            Err(BodyError::BadBody)
        }
    }
}

/// The entries and the control that a body has.
///
/// `BadBody` exactly where the text is not one that `write_entries` writes of plain entries.
pub fn read_body(alloc: Global, text: &[u8]) -> Result<(Entries, Control), BodyError>
    ensures read { IfOk result (λ body. (text.now ≡ body_text body.0 body.1) × ArePlain body.0) }
    ensures back { (entries : List Entry) (control : Control) → ArePlain entries → HaveOffsets entries → IsUtf8 text.now → text.now ≡ body_text entries control → Reads result (entries, control) }
{
    let value = match value_in(alloc, text) {
        Ok(value) => value,
        Err(error) => return Err(error),
    };
    let (entries, control) = match body_of(alloc, &value) {
        Ok(body) => body,
        Err(error) => return Err(error),
    };
    if !are_plain(entries.as_slice()) {
        return Err(BodyError::BadBody);
    }
    if !is_body(alloc, text, &entries, control)? {
        return Err(BodyError::BadBody);
    }
    Ok((entries, control))
}
