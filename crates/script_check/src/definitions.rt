//! Whether definitions change.
ghost use Rattle.std.specs.Prelude.{◌≡◌, ◌<◌, ◌≤◌, ◌+◌, length, false, Some, slice_get, slice_index_or};
ghost use Rattle.std.specs.List.{list_all};
ghost use Rattle.std.specs.Option.{option_copied};
ghost use Rattle.shape_base.specs.declared.change.Change.{Change};
ghost use Rattle.shape_base.specs.declared.history.Step.{Step};
ghost use Rattle.script_check.specs.Definitions.{IsKeptTo};
ghost use Rattle.script_check.specs.Definitions as specs;

use shape_base::{Change, History, Step, TableDef, TableDefs, Tx, are_same_defs};

/// Whether a definition is the one that was declared of its table.
fn is_declared(defs: &TableDefs, definition: &TableDef) -> bool
    ensures { result ≡ specs.is_declared defs.now (Some definition.now) }
{
    match defs.as_slice().get(definition.table as usize) {
        None => false,
        Some(declared) => are_same_defs(declared, definition),
    }
}

/// Whether a change came under the declared definition of its table.
fn keeps_change(defs: &TableDefs, tx: &Tx, change: &Change) -> bool
    ensures { result ≡ specs.is_declared defs.now (slice_get tx.now.defs change.now.def) }
{
    match tx.defs.as_slice().get(change.def as usize) {
        None => true,
        Some(definition) => is_declared(defs, definition),
    }
}

/// Whether each change of a commit came under the declared definition of its table.
fn keeps_commit(defs: &TableDefs, tx: &Tx) -> bool
    ensures { result ≡ list_all (λ (c : Change). specs.is_declared defs.now (slice_get tx.now.defs c.def)) tx.now.changes }
{
    for change in tx.changes.as_slice() {
        if !keeps_change(defs, tx, change) {
            return false;
        }
    }
    true
}

/// Whether a step leaves each table's definition as it was declared.
fn keeps(defs: &TableDefs, step: &Step) -> bool
    ensures { result ≡ specs.keeps defs.now step.now }
{
    match step {
        Step::Commit(tx) => keeps_commit(defs, tx),
        Step::Define { def, rows: _ } => is_declared(defs, def),
    }
}

/// How many of the first steps leave each table's definition as it was declared. Where these are not all, the next one changes a
/// definition: a change came under another one, or another one was defined.
pub fn kept_steps(history: &History) -> u64
    ensures bound { result ≤ length history.now.steps }
    ensures kept { IsKeptTo history.now result }
    ensures changed { (step : Step) → slice_get history.now.steps result ≡ Some step → specs.keeps history.now.defs step ≡ false }
{
    for place in 0..history.steps.len() {
        if !keeps(&history.defs, history.steps.at(place)) {
            return place;
        }
    }
    history.steps.len()
}
