//! The test of a good history.
ghost use Rattle.std.specs.Prelude.{◌≡◌, ◌<◌, ◌≤◌, ◌+◌, OnOk, IfOk, IfErr, IsSome, None, MatchOption, length, take, slice_get};
ghost use Rattle.std.specs.List.{list_all};
ghost use Rattle.shape_base.specs.Tables.{IsGoodHistory};
ghost use Rattle.shape_base.specs.declared.change.Change.{Change};
ghost use Rattle.shape_model.specs.Breaks.{BreaksAt, IsGoodTo, IsGoodAt};
ghost use Rattle.shape_model.specs.Order as order;
ghost use Rattle.shape_model.specs.Order.{check_orders};

use super::checks::{Standing, good_steps, one};
use super::keys::fit_def;
use shape_base::{Change, Duplicate, History, OutOfMemory, Step, Steps, TableDefs, Tx};
use std::alloc::Global;

/// A history that is not good.
#[derive(Debug, Drop)]
pub enum HistoryError {
    /// The first step that breaks the definition; steps count from 1, and 0 is the base.
    BadHistory { step: u64 },
    OutOfMemory,
}

impl From<OutOfMemory> for HistoryError {
    ghost use Rattle.std.specs.Prelude.{◌≡◌};
    ghost use Rattle.shape_model.specs.declared.good.HistoryError.TheVariants as errors;

    ghost from_gives = { λ _ e. e ≡ errors.OutOfMemory };

    fn from(_error: OutOfMemory) -> HistoryError {
        HistoryError::OutOfMemory
    }
}

fn are_placed(defs: &TableDefs) -> bool
    ensures { result ≡ order.are_placed 0 defs.now }
{
    for place in 0..defs.len() {
        if u64::from(defs.at(place).table) != place {
            return false;
        }
    }
    true
}

/// Whether there is a base and a definition for each served table, in their places.
fn is_whole(history: &History) -> bool
    ensures { result ≡ order.is_whole history.now }
{
    let tables = history.tables.len();
    if history.base.len() != tables {
        return false;
    }
    if history.defs.len() != tables {
        return false;
    }
    are_placed(&history.defs)
}

fn is_served(tables: u64, tx: &Tx, change: &Change) -> bool
    ensures { result ≡ order.is_served tables (slice_get tx.now.defs change.now.def) }
{
    match tx.defs.as_slice().get(change.def as usize) {
        None => false,
        Some(def) => u64::from(def.table) < tables,
    }
}

fn are_served(tables: u64, tx: &Tx) -> bool
    ensures { result ≡ list_all (λ (c : Change). order.is_served tables (slice_get tx.now.defs c.def)) tx.now.changes }
{
    for change in tx.changes.as_slice() {
        if !is_served(tables, tx, change) {
            return false;
        }
    }
    true
}

/// The last LSN after a step, where the step is in order.
fn after_order(tables: u64, step: &Step, low: u64) -> Option<u64>
    ensures { result ≡ order.check_order tables step.now low }
{
    match step {
        Step::Commit(tx) => {
            if tx.lsn <= low {
                return None;
            }
            if !are_served(tables, tx) {
                return None;
            }
            Some(tx.lsn)
        }
        Step::Define { def, rows: _ } => {
            if u64::from(def.table) < tables {
                return Some(low);
            }
            None
        }
    }
}

/// How many of the first steps are in order.
fn ordered_steps(tables: u64, steps: &Steps) -> u64
    ensures bound { result ≤ length steps.now }
    ensures good { IsSome (check_orders tables (take result steps.now) 0) }
    ensures broken { result < length steps.now → check_orders tables (take (result + 1) steps.now) 0 ≡ None }
{
    let mut low = 0;
    for place in 0..steps.len() {
        match after_order(tables, steps.at(place), low) {
            None => return place,
            Some(next) => low = next,
        }
    }
    steps.len()
}

/// How many of the first `most` steps are good for a table; none where its base is not.
fn good_table(
    alloc: Global,
    history: &History,
    table: u64,
    most: u64,
) -> Result<Option<u64>, OutOfMemory>
    requires served { table < length history.now.tables }
    requires base { table < length history.now.base }
    requires defined { table < length history.now.defs }
    requires there { most ≤ length history.now.steps }
    ensures { IfOk result (λ count. MatchOption count (IsGoodAt history.now table 0 → ⊥) (IsGoodTo history.now table most)) }
{
    let served = history.tables.at(table);
    let def = history.defs.at(table);
    let base = history.base.at(table);
    if !fit_def(alloc, served, def, base)? {
        return Ok(None);
    }
    let start = Standing {
        def: def.copy(alloc)?,
        rows: base.copy(alloc)?,
        since: one(alloc, def)?,
    };
    let count = good_steps(alloc, served, table, &history.steps, most, start)?;
    Ok(Some(count))
}

/// Tests the whole definition of a good history. It goes over the steps once for each table.
///
/// Refuses `BadHistory` at the first step that breaks the definition.
pub fn good_history(alloc: Global, history: &History) -> Result<(), HistoryError>
    ensures good { OnOk result (IsGoodHistory history.now) }
    ensures bad { IfErr result (BreaksAt history.now) }
{
    if !is_whole(history) {
        return Err(HistoryError::BadHistory { step: 0 });
    }
    let tables = history.tables.len();
    let mut good = ordered_steps(tables, &history.steps);
    for table in 0..tables {
        match good_table(alloc, history, table, good)? {
            None => return Err(HistoryError::BadHistory { step: 0 }),
            Some(count) => good = count,
        }
    }
    if good < history.steps.len() {
        return Err(HistoryError::BadHistory { step: good + 1 });
    }
    Ok(())
}
