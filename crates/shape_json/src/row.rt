//! The lines of rows.
ghost use Rattle.std.specs.Prelude.{◌≡◌, ◌++◌, OnOk, OnErr};
ghost use Rattle.shape_json.specs.Body.{row_text};

use crate::size::{cells_size, string_size};
use crate::writer::{put, put_cells, put_string};
use shape_base::{Cells, KeyedRow, OutOfMemory, Text};

/// Adds the row of these cells by this key: the key as a JSON string, a space, and the cells as a JSON object. Without
/// memory nothing is added.
pub fn push_keyed(out: &mut Vec<u8>, key: &Text, cells: &Cells) -> Result<(), OutOfMemory>
    ensures ok { OnOk result (out.new.items ≡ out.old.items ++ row_text (record { key = key.now; cells = cells.now })) }
    ensures err { OnErr result (out.new.items ≡ out.old.items) }
{
    let size = cells_size(cells.as_slice())
        .saturating_add(string_size(key.as_bytes()))
        .saturating_add(1);
    if size == u64::MAX {
        return Err(OutOfMemory);
    }
    out.reserve(size as usize)?;
    put_string(out, key.as_str());
    put(out, " ");
    put_cells(out, cells);
    Ok(())
}

/// Adds a row, as `push_keyed` does.
pub fn push_row(out: &mut Vec<u8>, row: &KeyedRow) -> Result<(), OutOfMemory>
    ensures ok { OnOk result (out.new.items ≡ out.old.items ++ row_text row.now) }
    ensures err { OnErr result (out.new.items ≡ out.old.items) }
{
    push_keyed(out, &row.key, &row.cells)
}
