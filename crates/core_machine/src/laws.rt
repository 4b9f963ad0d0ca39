//! The laws of snapshots under way, as the contracts of functions with nothing to do.
ghost use Rattle.core_machine.specs.Snapshots.{SnapshotsStay, RefusalsStay, UnderWayIsKnown, SnapshotsEndOnce, ExchangesStay};

use core_server::snapshot_laws::stays_under_way;

/// A snapshot that has begun for an exchange stays so, whatever happens.
pub fn snapshots_stay()
    ensures { SnapshotsStay }
{
    stays_under_way();
}

/// What a head and rows are refused for stays so, whatever happens.
pub fn refusals_stay()
    ensures { RefusalsStay }
{}

/// Whoever owns a snapshot under way after an event owned it before, or is a new exchange.
pub fn owners_are_known()
    ensures { UnderWayIsKnown }
{}

/// Once the event that ends an exchange's snapshot is taken, none is under way for it.
pub fn snapshots_end_once()
    ensures { SnapshotsEndOnce }
{}

/// No event takes an exchange away.
pub fn exchanges_stay()
    ensures { ExchangesStay }
{}
