//! The test of whole commits.
ghost use Rattle.std.specs.Prelude.{◌≡◌, true, length};
ghost use Rattle.shape_base.specs.Transactions.{IsAsWide, IsUnder, IsWhole};

use shape_base::{Change, ChangeKind, Row, TableDef, Tx};

fn is_wide(definition: &TableDef, row: &Row) -> bool
    ensures { result ≡ true → length row.now ≡ length definition.now.columns }
{
    row.len() == definition.columns.len()
}

fn is_as_wide(definition: &TableDef, kind: &ChangeKind) -> bool
    ensures { result ≡ true → IsAsWide definition.now kind.now }
{
    match kind {
        ChangeKind::Insert { new } => is_wide(definition, new),
        ChangeKind::Update { old, new } => is_wide(definition, old) && is_wide(definition, new),
        ChangeKind::Delete { old } => is_wide(definition, old),
        ChangeKind::Truncate => true,
    }
}

fn is_under(tx: &Tx, change: &Change) -> bool
    ensures { result ≡ true → IsUnder tx.now.defs change.now }
{
    match tx.defs.as_slice().get(change.def as usize) {
        Some(definition) => is_as_wide(definition, &change.kind),
        None => false,
    }
}

/// Whether each change of a commit is under one of its definitions and as wide as it, and there are fewer than 2^63.
pub(crate) fn is_whole(tx: &Tx) -> bool
    ensures { result ≡ true → IsWhole tx.now }
{
    for change in tx.changes.as_slice() {
        if !is_under(tx, change) {
            return false;
        }
    }
    tx.changes.len() < 9_223_372_036_854_775_808
}
