//! What happens to the registry, as its lock's history has it.
ghost use Rattle.std.specs.Prelude.{◌≡◌, Option};
ghost use Rattle.shape_base.specs.declared.registry_event.RegistryEvent.TheVariants as events;
ghost use Rattle.shared_shapes.specs.Events.{plain, began, place_in};
ghost use Rattle.shared_shapes.specs.Changes.{event_of};

use front_lock::Pass;
use lock_events::Trace;
use shape_base::{Cause, RowTest, TableDef, Text};
use shape_lock::Locked;
use std::marker::Model;
use std::snapshot::Snapshot;

/// What a step of the registry is made of.
#[derive(Drop)]
pub(crate) enum Change {
    Registered {
        number: u64,
        identity: Snapshot<Text>,
        table: u32,
        last: Option<u32>,
    },
    Ready {
        number: u64,
    },
    Removed {
        number: u64,
        cause: Cause,
    },
    Redefined {
        definition: Snapshot<TableDef>,
    },
}

/// One event of the registry. Contracts see it as the `RegistryEvent`, with the lock of the shape that a registration brings; no program keeps a list of them.
#[derive(Drop)]
pub struct RegistryStep<T: RowTest> {
    change: Change,
    shape: Option<(Snapshot<Pass<Locked<T>>>, Snapshot<Trace<bool>>)>,
}

impl<T: RowTest> Model for RegistryStep<T> {
    ghost use Rattle.shared_shapes.specs.Events.{Noted};
    ghost use Rattle.shared_shapes.specs.Changes.{noted};

    ghost Value = { Noted T };

    ghost view = { λ s. noted s.change s.shape };
}

/// A step that brings no shape.
pub(crate) fn plain_step<T: RowTest>(change: Change) -> RegistryStep<T>
    ensures { result ≡ plain (event_of change) }
{
    RegistryStep {
        change,
        shape: None,
    }
}

/// A number was given to a shape, which lives under the lock of this pass; the trace is of the list that gets a mark when the number becomes ready.
pub(crate) fn registered<T: RowTest>(
    number: u64,
    identity: Snapshot<Text>,
    table: u32,
    last: Option<u32>,
    pass: Snapshot<Pass<Locked<T>>>,
    ready: Snapshot<Trace<bool>>,
) -> RegistryStep<T>
    ensures { result ≡ began (events.Registered number identity.value table last) (place_in pass.value ready.value) }
{
    let change = Change::Registered {
        number,
        identity,
        table,
        last,
    };
    RegistryStep {
        change,
        shape: Some((pass, ready)),
    }
}
