//! The test of plain entries.
ghost use Rattle.std.specs.Prelude.{◌≡◌};
ghost use Rattle.shape_json.specs.Plain.{rise_by_name, is_plain};

use shape_base::{Cell, Entry, Offset, Op};

/// Whether the names of cells rise in byte order.
fn rise_by_name(cells: &[Cell]) -> bool
    ensures { result ≡ rise_by_name cells.now }
{
    let Some((mut last, others)) = cells.split_first() else {
        return true;
    };
    for cell in others {
        if last.name < cell.name {
            last = cell;
        } else {
            return false;
        }
    }
    true
}

/// Whether an entry is plain: its offset is not the start, its cells stand in byte order of their
/// names, the names differ, and a delete has no cells.
pub fn is_plain(entry: &Entry) -> bool
    ensures { result ≡ is_plain entry.now }
{
    let cells = entry.cells.as_slice();
    if let Offset::Start = entry.offset {
        return false;
    }
    if let Op::Delete = entry.op {
        return cells.is_empty();
    }
    rise_by_name(cells)
}
