//! The rows of blocks.
ghost use Rattle.std.specs.Prelude.{◌≡◌, ◌≤◌, length, Some, IfOk, IfErr, slice_get};
ghost use Rattle.shape_base.specs.Tables.{IsGoodHistory};
ghost use Rattle.shape_base.specs.Tables as Tables;
ghost use Rattle.shape_model.specs.Rows.{AreShapeRows, HasUnread};
ghost use Rattle.script_check.specs.Definitions.{IsKeptTo};

use shape_base::{History, KeyedRows, RowTest};
use shape_model::{ModelError, shape_rows};
use std::alloc::Global;

/// The rows of a block: what a shape shows after the first `steps` steps of a good history, in byte order of their keys. The steps
/// leave the definitions as they were declared, and the shape's is the declared one.
///
/// Refuses `BadValue` exactly where a row of the table has no truth, at the first such row.
pub fn block_rows<T: RowTest>(
    alloc: Global,
    history: &History,
    test: &T,
    steps: u64,
) -> Result<KeyedRows, ModelError>
    requires good { IsGoodHistory history.now }
    requires there { steps ≤ length history.now.steps }
    requires kept { IsKeptTo history.now steps }
    requires served { slice_get history.now.tables (T.knows test.now).definition.table ≡ Some (T.knows test.now).served }
    requires declared { slice_get history.now.defs (T.knows test.now).definition.table ≡ Some (T.knows test.now).definition }
    ensures ok { IfOk result (AreShapeRows (T.knows test.now) (Tables.table_after history.now (T.knows test.now).definition.table steps)) }
    ensures bad { IfErr result (HasUnread (T.knows test.now) (T.unread test.now) (Tables.table_after history.now (T.knows test.now).definition.table steps)) }
{
    shape_rows(alloc, history, test, steps)
}
