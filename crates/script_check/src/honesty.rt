//! Whether a snapshot is honest.
ghost use Rattle.std.specs.Prelude.{◌≡◌, ◌<◌, ◌≤◌, ℕ, length, IfOk, IfErr, MatchBool, MatchOption};
ghost use Rattle.std.specs.List.Sorted.{IsPermutation};
ghost use Rattle.shape_base.specs.Tables as Tables;
ghost use Rattle.script_check.specs.Honest.{IsDefinedAt, IsHonestAt};
ghost use Rattle.script_check.specs.Causes.{IsDishonest};

use super::order::are_same_up_to_order;
use super::shown::{count_at, shown_prefix, xids_of};
use super::snapshot::Snapshot;
use shape_base::{History, OutOfMemory, TableDef, are_same_defs};
use shape_model::{def_after, table_after};
use std::alloc::Global;

/// Why a snapshot is not honest.
#[derive(Debug, Drop)]
pub enum SnapshotError {
    /// It shows this commit, counted from 0, and does not show one before it; it is the first such.
    OutOfTurn { commit: u64 },
    /// After the commits that it shows the table never has its definition.
    OtherDefinition,
    /// After the commits that it shows, where the table has its definition, it never has its rows.
    OtherRows,
    OutOfMemory,
}

impl From<OutOfMemory> for SnapshotError {
    ghost use Rattle.std.specs.Prelude.{◌≡◌};
    ghost use Rattle.script_check.specs.declared.honesty.SnapshotError.TheVariants as errors;

    ghost from_gives = { λ _ e. e ≡ errors.OutOfMemory };

    fn from(_error: OutOfMemory) -> SnapshotError {
        SnapshotError::OutOfMemory
    }
}

/// Whether there were so many commits after the first `step` steps, and the table had this definition.
fn is_defined_at(history: &History, definition: &TableDef, count: u64, step: u64) -> bool
    requires defined { definition.now.table < length history.now.defs }
    requires there { step ≤ length history.now.steps }
    ensures { MatchBool result (IsDefinedAt history.now definition.now count step) (IsDefinedAt history.now definition.now count step → ⊥) }
{
    if count_at(history, step) != count {
        return false;
    }
    if !are_same_defs(def_after(history, definition.table, step), definition) {
        return false;
    }
    true
}

/// The first step, after so many commits, at which the table had this definition.
fn first_defined(history: &History, definition: &TableDef, count: u64) -> Option<u64>
    requires { definition.now.table < length history.now.defs }
    ensures { MatchOption result ((k : ℕ) → IsDefinedAt history.now definition.now count k → ⊥) (IsDefinedAt history.now definition.now count) }
{
    let steps = history.steps.as_slice().len() as u64;
    for step in 0..steps + 1 {
        if is_defined_at(history, definition, count, step) {
            return Some(step);
        }
    }
    None
}

/// Whether the table had the snapshot's rows after the first `step` steps, and its definition after so many commits.
fn is_taken_at(
    alloc: Global,
    history: &History,
    snapshot: &Snapshot,
    count: u64,
    step: u64,
) -> Result<bool, OutOfMemory>
    requires based { snapshot.now.definition.table < length history.now.base }
    requires defined { snapshot.now.definition.table < length history.now.defs }
    requires there { step ≤ length history.now.steps }
    ensures { IfOk result (λ taken. MatchBool taken (IsDefinedAt history.now snapshot.now.definition count step × IsPermutation (Tables.table_after history.now snapshot.now.definition.table step) snapshot.now.rows)
        (IsDefinedAt history.now snapshot.now.definition count step → IsPermutation (Tables.table_after history.now snapshot.now.definition.table step) snapshot.now.rows → ⊥)) }
{
    if !is_defined_at(history, &snapshot.definition, count, step) {
        return Ok(false);
    }
    let rows = table_after(alloc, history, snapshot.definition.table, step)?;
    are_same_up_to_order(alloc, &rows, &snapshot.rows)
}

/// The first step, after so many commits, at which the table had the snapshot's definition and rows.
fn first_taken(
    alloc: Global,
    history: &History,
    snapshot: &Snapshot,
    count: u64,
) -> Result<Option<u64>, OutOfMemory>
    requires based { snapshot.now.definition.table < length history.now.base }
    requires defined { snapshot.now.definition.table < length history.now.defs }
    ensures { IfOk result (λ found. MatchOption found ((k : ℕ) → IsDefinedAt history.now snapshot.now.definition count k → IsPermutation (Tables.table_after history.now snapshot.now.definition.table k) snapshot.now.rows → ⊥)
        (λ k. IsDefinedAt history.now snapshot.now.definition count k × IsPermutation (Tables.table_after history.now snapshot.now.definition.table k) snapshot.now.rows)) }
{
    let steps = history.steps.as_slice().len() as u64;
    for step in 0..steps + 1 {
        if is_taken_at(alloc, history, snapshot, count, step)? {
            return Ok(Some(step));
        }
    }
    Ok(None)
}

/// A step of the history after which the snapshot was taken; it shows each commit before that step, and none after it.
///
/// Refuses a snapshot that is honest for no step, by the first cause: the commits that it shows are not the first ones; after these
/// commits the table has another definition; it has other rows.
pub fn honest_step(
    alloc: Global,
    history: &History,
    snapshot: &Snapshot,
) -> Result<u64, SnapshotError>
    requires based { snapshot.now.definition.table < length history.now.base }
    requires defined { snapshot.now.definition.table < length history.now.defs }
    ensures ok { IfOk result (IsHonestAt history.now snapshot.now) }
    ensures err { IfErr result (IsDishonest history.now snapshot.now) }
{
    let xids = xids_of(alloc, &history.steps)?;
    let count = match shown_prefix(&snapshot.visibility, xids.as_slice()) {
        Ok(count) => count as u64,
        Err(place) => {
            let commit = place as u64;
            return Err(SnapshotError::OutOfTurn { commit });
        }
    };
    if first_defined(history, &snapshot.definition, count).is_none() {
        return Err(SnapshotError::OtherDefinition);
    }
    match first_taken(alloc, history, snapshot, count)? {
        None => Err(SnapshotError::OtherRows),
        Some(step) => Ok(step),
    }
}
