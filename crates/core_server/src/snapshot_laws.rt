//! How the course of a snapshot's dialogue is an event of the core: laws over definitions, as the contracts of functions with nothing to do.
ghost use Rattle.core_server.specs.SnapshotLaws.{HeadsAreRefused, SnapshotsCome, SnapshotsEnd, LastIsTaken, StaysUnderWay};

/// A head is refused exactly where the core refuses a snapshot that shows what it shows, and with that code.
pub fn heads_are_refused()
    ensures { HeadsAreRefused }
{}

/// A snapshot that nothing refuses makes its number ready, or drops it.
pub fn snapshots_come()
    ensures { SnapshotsCome }
{}

/// A refused one ends, with the code of its refusal.
pub fn snapshots_end()
    ensures { SnapshotsEnd }
{}

/// The id of the last commit is that of the last transaction that the registry took.
pub fn last_is_taken()
    ensures { LastIsTaken }
{}

/// A snapshot stays under way, whatever happens.
pub fn stays_under_way()
    ensures { StaysUnderWay }
{}
