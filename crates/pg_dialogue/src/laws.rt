//! The laws over the course of a snapshot's dialogue, each the contract of a function with nothing to do.
ghost use Rattle.pg_dialogue.specs.Course.{SnapshotWants, TalkIsHeard, CoursesGrow};

/// The messages that a client waits for in the dialogue of a snapshot depend on no login and on no table.
pub fn snapshot_wants()
    ensures { SnapshotWants }
{}

/// A client hears the same whether it writes or only listens.
pub fn talk_is_heard()
    ensures { TalkIsHeard }
{}

/// What later bytes bring comes behind what was there; a refusal stays, and so does the end.
pub fn courses_grow()
    ensures { CoursesGrow }
{}
