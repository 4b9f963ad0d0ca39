//! Which commits of a history a snapshot shows.
ghost use Rattle.std.specs.Prelude.{◌≡◌, ◌<◌, ◌≤◌, ◌+◌, ◌∷◌, [], ℕ, length, map, true, false, IfOk, MatchOption, MatchResult, take};
ghost use Rattle.shape_base.specs.Tables.{commits_of};
ghost use Rattle.script_check.specs.Honest.{xids_of, shows, IsPrefixShown, IsOutOfTurn};
ghost use Rattle.shape_base.specs.Snapshot as base;

use shape_base::{History, OutOfMemory, Step, Steps};
use snapshot_merge::Vis;
use std::alloc::Global;

/// The ids of the transactions among steps, in order.
pub fn xids_of(alloc: Global, steps: &Steps) -> Result<Vec<u32>, OutOfMemory>
    ensures { IfOk result (λ xids. xids.items ≡ xids_of steps.now) }
{
    let mut xids = Vec::new(alloc);
    for step in steps.as_slice() {
        match step {
            Step::Commit(tx) => xids.push(tx.xid)?,
            Step::Define { .. } => {}
        }
    }
    Ok(xids)
}

/// 1 for a commit, 0 for a definition.
fn commits_in(step: &Step) -> u64
    ensures is { result ≡ length (commits_of (step.now ∷ [])) }
    ensures bound { result ≤ 1 }
{
    match step {
        Step::Commit(_) => 1,
        Step::Define { .. } => 0,
    }
}

/// How many of the first `steps` steps are commits.
pub fn count_at(history: &History, steps: u64) -> u64
    requires { steps ≤ length history.now.steps }
    ensures { result ≡ base.count_at history.now steps }
{
    let mut count = 0;
    for place in 0..steps {
        count += commits_in(history.steps.at(place));
    }
    count
}

/// How many of the first transactions are visible, up to the first one that is not.
fn shown_first(visibility: &Vis, xids: &[u32]) -> usize
    ensures bound { result ≤ length xids.now }
    ensures shown { (i : ℕ) → i < result → shows visibility.now xids.now i ≡ true }
    ensures ended { result < length xids.now → shows visibility.now xids.now result ≡ false }
{
    for place in 0..xids.len() {
        if !visibility.visible(xids[place]) {
            return place;
        }
    }
    xids.len()
}

/// The place of the first transaction that is visible, from one place on.
fn shown_from(visibility: &Vis, xids: &[u32], from: usize) -> Option<usize>
    ensures { MatchOption result ((i : ℕ) → from ≤ i → i < length xids.now → shows visibility.now xids.now i ≡ false)
        (λ p. (from ≤ p) × (p < length xids.now) × (shows visibility.now xids.now p ≡ true) × ((i : ℕ) → from ≤ i → i < p → shows visibility.now xids.now i ≡ false)) }
{
    for place in from..xids.len() {
        if visibility.visible(xids[place]) {
            return Some(place);
        }
    }
    None
}

/// How many transactions are visible, where these are the first ones; else the place of the first one that is visible although one
/// before it is not.
pub fn shown_prefix(visibility: &Vis, xids: &[u32]) -> Result<usize, usize>
    ensures { MatchResult result (IsPrefixShown visibility.now xids.now) (IsOutOfTurn visibility.now xids.now) }
{
    let count = shown_first(visibility, xids);
    match shown_from(visibility, xids, count) {
        None => Ok(count),
        Some(place) => Err(place),
    }
}
