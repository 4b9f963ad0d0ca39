//! The premise of a check: a good history, and honest snapshots.
ghost use Rattle.std.specs.Prelude.{◌≡◌, IfErr, OnOk, IfOk, MatchBool, MatchOption};
ghost use Rattle.std.specs.List.{AllByRecursion};
ghost use Rattle.shape_base.specs.Tables.{IsGoodHistory};
ghost use Rattle.script_check.specs.Premise.{IsHonestClaim, IsServedClaim, IsFirstDishonest, IsPremise, BreaksPremise};

use super::honesty::{SnapshotError, honest_step};
use super::snapshot::Snapshot;
use shape_base::{History, OutOfMemory, Seq};
use shape_model::{HistoryError, good_history};
use std::alloc::Global;

/// A snapshot, and how many commits stood in the script before the record that made it ready.
#[derive(Drop)]
pub struct Claim {
    pub commits: u64,
    pub snapshot: Snapshot,
}

/// Snapshots in the order of their records.
pub type Claims = Seq<Claim>;

/// A premise that does not hold.
#[derive(Debug, Drop)]
pub enum PremiseError {
    /// The first step that breaks the history, counted from 1, where 0 is the base; or, of a good history, how many commits stood before
    /// the first snapshot that is not honest.
    Premise { step: u64 },
    OutOfMemory,
}

impl From<OutOfMemory> for PremiseError {
    ghost use Rattle.std.specs.Prelude.{◌≡◌};
    ghost use Rattle.script_check.specs.declared.premise.PremiseError.TheVariants as errors;

    ghost from_gives = { λ _ e. e ≡ errors.OutOfMemory };

    fn from(_error: OutOfMemory) -> PremiseError {
        PremiseError::OutOfMemory
    }
}

/// Whether a snapshot is honest for a good history.
fn is_honest(alloc: Global, history: &History, claim: &Claim) -> Result<bool, OutOfMemory>
    requires good { IsGoodHistory history.now }
    requires served { IsServedClaim history.now claim.now }
    ensures { IfOk result (λ honest. MatchBool honest (IsHonestClaim history.now claim.now) (IsHonestClaim history.now claim.now → ⊥)) }
{
    match honest_step(alloc, history, &claim.snapshot) {
        Ok(_) => Ok(true),
        Err(SnapshotError::OutOfMemory) => Err(OutOfMemory),
        Err(SnapshotError::OutOfTurn { commit: _ }) => Ok(false),
        Err(SnapshotError::OtherDefinition) => Ok(false),
        Err(SnapshotError::OtherRows) => Ok(false),
    }
}

/// How many commits came before the first snapshot that is not honest, where there is one.
fn first_dishonest(
    alloc: Global,
    history: &History,
    claims: &Claims,
) -> Result<Option<u64>, OutOfMemory>
    requires good { IsGoodHistory history.now }
    requires served { AllByRecursion (IsServedClaim history.now) claims.now }
    ensures { IfOk result (λ found. MatchOption found (AllByRecursion (IsHonestClaim history.now) claims.now) (IsFirstDishonest history.now claims.now)) }
{
    for claim in claims.as_slice() {
        if !is_honest(alloc, history, claim)? {
            return Ok(Some(claim.commits));
        }
    }
    Ok(None)
}

/// Tests the premise of a check: first the whole history, then each snapshot in its order.
///
/// Refuses `Premise` exactly where the history is not good or a snapshot is honest for no step of it.
pub fn check_premise(alloc: Global, history: &History, claims: &Claims) -> Result<(), PremiseError>
    requires { AllByRecursion (IsServedClaim history.now) claims.now }
    ensures holds { OnOk result (IsPremise history.now claims.now) }
    ensures breaks { IfErr result (BreaksPremise history.now claims.now) }
{
    match good_history(alloc, history) {
        Ok(()) => {}
        Err(HistoryError::OutOfMemory) => return Err(PremiseError::OutOfMemory),
        Err(HistoryError::BadHistory { step }) => return Err(PremiseError::Premise { step }),
    }
    match first_dishonest(alloc, history, claims)? {
        None => Ok(()),
        Some(step) => Err(PremiseError::Premise { step }),
    }
}
