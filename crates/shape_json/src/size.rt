//! The sizes of texts before they are written. Sums end at 2^64 - 1, and nothing takes memory.
ghost use Rattle.std.specs.Prelude.{◌≡◌, ◌≤◌, ◌∷◌, length, map, decimal};
ghost use Rattle.std.specs.List.{flat_map};
ghost use Rattle.json.specs.Print.{quoted, escape_byte};
ghost use Rattle.shape_base.specs.OffsetText.{offset_text};
ghost use Rattle.shape_json.specs.Body.{value_text, cell_text, cells_text, entry_text, inner_text, size_of};
ghost use Rattle.shape_json.specs.Body.{capped};

use crate::writer::{is_plain_byte, spelling};
use shape_base::{Cell, Entry, Offset, Value};

/// What an entry's text has beside its key, its offset and its cells; all operations have six letters.
const FRAME: u64 = 60;

/// How many bytes stand for a byte in a JSON string.
fn spelled_size(byte: u8) -> u64
    ensures { result ≡ length (escape_byte byte) }
{
    if is_plain_byte(byte) {
        return 1;
    }
    spelling(byte).1 as u64
}

pub(crate) fn string_size(text: &[u8]) -> u64
    ensures { result ≡ capped (length (quoted text.now)) }
{
    let mut size = 2u64;
    for byte in text {
        size = size.saturating_add(spelled_size(*byte));
    }
    size
}

fn decimal_size(number: u64) -> u64
    ensures size { result ≡ length (decimal number) }
    ensures small { result ≤ 20 }
{
    itoa::Buffer::new().format(number).len() as u64
}

fn offset_size(offset: Offset) -> u64
    ensures size { result ≡ length (quoted (offset_text offset)) }
    ensures small { result ≤ 43 }
{
    match offset {
        Offset::Start => 4,
        Offset::At { lsn, pos } => position_size(lsn, pos),
    }
}

fn position_size(lsn: u64, pos: u64) -> u64
    ensures size { result ≡ length (quoted (offset_text (Offset.At lsn pos))) }
    ensures small { result ≤ 43 }
{
    decimal_size(lsn) + decimal_size(pos) + 3
}

fn value_size(value: &Value) -> u64
    ensures { result ≡ capped (length (value_text value.now)) }
{
    match value {
        Value::Null => 4,
        Value::Words(words) => string_size(words.as_bytes()),
    }
}

fn cell_size(cell: &Cell) -> u64
    ensures { result ≡ capped (length (cell_text cell.now)) }
{
    string_size(cell.name.as_bytes())
        .saturating_add(1)
        .saturating_add(value_size(&cell.value))
}

/// The size of cells, each behind a comma.
fn more_cells_size(cells: &[Cell]) -> u64
    ensures { result ≡ capped (length (flat_map (λ text. 44 ∷ text) (map cell_text cells.now))) }
{
    let mut size = 0u64;
    for cell in cells {
        size = size.saturating_add(1).saturating_add(cell_size(cell));
    }
    size
}

pub(crate) fn cells_size(cells: &[Cell]) -> u64
    ensures { result ≡ capped (length (cells_text cells.now)) }
{
    let Some((first, others)) = cells.split_first() else {
        return 2;
    };
    cell_size(first)
        .saturating_add(more_cells_size(others))
        .saturating_add(2)
}

/// The length of an entry's text in bytes, or 2^64 - 1 where that is less. It takes no memory.
pub fn entry_size(entry: &Entry) -> u64
    ensures { result ≡ size_of entry.now }
{
    string_size(entry.key.as_bytes())
        .saturating_add(offset_size(entry.offset) + FRAME)
        .saturating_add(cells_size(entry.cells.as_slice()))
}

/// The size of entries, each behind a comma.
fn more_entries_size(entries: &[Entry]) -> u64
    ensures { result ≡ capped (length (flat_map (λ text. 44 ∷ text) (map entry_text entries.now))) }
{
    let mut size = 0u64;
    for entry in entries {
        size = size.saturating_add(1).saturating_add(entry_size(entry));
    }
    size
}

/// The size of entries that commas join.
pub(crate) fn inner_size(entries: &[Entry]) -> u64
    ensures { result ≡ capped (length (inner_text entries.now)) }
{
    let Some((first, others)) = entries.split_first() else {
        return 0;
    };
    entry_size(first).saturating_add(more_entries_size(others))
}
