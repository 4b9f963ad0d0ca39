//! Snapshots, and what is answered of them.
ghost use Rattle.std.specs.Prelude.{◌≡◌, IfOk, IfSome};

use crate::histories::{definition_of, history_of, rows_of};
use cases::{cut, number_of};
use script_check::{
    Claim, Claims, PremiseError, Snapshot, SnapshotError, check_premise, honest_step, kept_steps,
};
use shape_base::OutOfMemory;
use snapshot_merge::{Vis, VisError};
use std::alloc::Global;

/// The snapshot of a text such as `1:1: 16384:1 5 a`; none where the first word is no visibility text.
fn snapshot_of(alloc: Global, text: &str) -> Result<Option<Snapshot>, OutOfMemory>
    ensures { IfOk result (λ found. IfSome found (λ s. s.definition.table ≡ 0)) }
{
    let (visibility, rest) = cut(text, ' ');
    let (oid, rows) = cut(rest, ':');
    let visibility = match Vis::read(alloc, visibility.as_bytes()) {
        Ok(visibility) => visibility,
        Err(VisError::OutOfMemory) => return Err(OutOfMemory),
        Err(VisError::BadSnapshot { place: _ }) => return Ok(None),
    };
    Ok(Some(Snapshot {
        visibility,
        definition: definition_of(alloc, oid)?,
        rows: rows_of(alloc, rows)?,
    }))
}

/// The step after which a snapshot was taken.
pub(crate) fn honest_line(alloc: Global, text: &str) -> Result<String, OutOfMemory> {
    let (snapshot, history) = cut(text, '|');
    let history = history_of(alloc, history)?;
    let Some(snapshot) = snapshot_of(alloc, snapshot)? else {
        return Ok(format!(in alloc; "no such snapshot")?);
    };
    if history.base.len() == 0 || history.defs.len() == 0 {
        return Ok(format!(in alloc; "no table")?);
    }
    match honest_step(alloc, &history, &snapshot) {
        Ok(step) => Ok(format!(in alloc; "step {step}")?),
        Err(SnapshotError::OutOfTurn { commit }) => Ok(format!(in alloc; "out_of_turn {commit}")?),
        Err(SnapshotError::OtherDefinition) => Ok(format!(in alloc; "other_definition")?),
        Err(SnapshotError::OtherRows) => Ok(format!(in alloc; "other_rows")?),
        Err(SnapshotError::OutOfMemory) => Err(OutOfMemory),
    }
}

/// Whether the premise holds.
pub(crate) fn premise_line(alloc: Global, text: &str) -> Result<String, OutOfMemory> {
    let (commits, rest) = cut(text, ' ');
    let (snapshot, history) = cut(rest, '|');
    let history = history_of(alloc, history)?;
    let Some(snapshot) = snapshot_of(alloc, snapshot)? else {
        return Ok(format!(in alloc; "no such snapshot")?);
    };
    if history.tables.len() == 0 {
        return Ok(format!(in alloc; "no table")?);
    }
    let commits = number_of(commits);
    let claims = Claims::from_vec(vec![in alloc; Claim { commits, snapshot }]?);
    match check_premise(alloc, &history, &claims) {
        Ok(()) => Ok(format!(in alloc; "holds")?),
        Err(PremiseError::Premise { step }) => Ok(format!(in alloc; "premise {step}")?),
        Err(PremiseError::OutOfMemory) => Err(OutOfMemory),
    }
}

/// How many steps keep the definitions.
pub(crate) fn kept_line(alloc: Global, text: &str) -> Result<String, OutOfMemory> {
    let history = history_of(alloc, text)?;
    let kept = kept_steps(&history);
    Ok(format!(in alloc; "kept {kept}")?)
}
