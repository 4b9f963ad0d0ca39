//! What happens to a shape, as its lock's history has it.
ghost use Rattle.std.specs.Prelude.{◌≡◌};
ghost use Rattle.shape_json.specs.ShapeHistory.{Took, Dropped};

use shape_base::{Cause, Tx};
use std::marker::Model;
use std::snapshot::Snapshot;

/// What a step is made of. That of a snapshot is never made: a contract picks it.
#[derive(Drop)]
pub(crate) enum Change {
    Took { tx: Snapshot<Tx>, others: u64 },
    Dropped { cause: Cause },
}

/// One event of a shape. Contracts see it as the `ShapeEvent` of its history; no program keeps a list of them.
#[derive(Drop)]
pub struct ShapeStep {
    change: Change,
}

impl Model for ShapeStep {
    ghost use Rattle.shape_json.specs.ShapeHistory.{ShapeEvent};
    ghost use Rattle.shape_lock.specs.Steps.{event_of};

    ghost Value = { ShapeEvent };

    ghost view = { λ s. event_of s.change };
}

/// A commit came, while the other logs had so many bytes.
pub(crate) fn took(tx: &Tx, others: u64) -> ShapeStep
    ensures { result ≡ Took tx.now others }
{
    let tx = Snapshot::of(tx);
    ShapeStep {
        change: Change::Took { tx, others },
    }
}

/// It is dropped from outside.
pub(crate) fn dropped(cause: Cause) -> ShapeStep
    ensures { result ≡ Dropped cause }
{
    ShapeStep {
        change: Change::Dropped { cause },
    }
}
