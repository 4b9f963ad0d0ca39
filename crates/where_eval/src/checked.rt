//! A clause that was checked.
ghost use Rattle.std.specs.Prelude.{◌≤◌, length};

use crate::plan::Plan;
use pg_values::Kind;

/// A clause that was checked against columns.
#[derive(Drop)]
pub struct Checked {
    pub(crate) plan: Plan,
    /// For each column the kind under which the clause reads it, or `Other` where the clause does not name it.
    pub(crate) kinds: Vec<Kind>,
    pub(crate) ghost narrow: { length kinds.items ≤ 4294967296 },
}
