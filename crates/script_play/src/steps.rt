//! What a record is for a script, whatever the core makes of it.
ghost use Rattle.std.specs.Prelude.{◌≡◌, length, IfOk};
ghost use Rattle.script.specs.Seen.{item_seen};
ghost use Rattle.script_play.specs.Script.{declares, passes_over, step_of};
ghost use Rattle.script_play.specs.Tables.{HasKey, StepHasKey};

use crate::cause::ScriptCause;
use crate::tables::is_declared;
use core_events::Event;
use script::{Declaration, Item, Record, RecordError, StartRows, read_record};
use shape_base::OutOfMemory;
use std::alloc::Global;

/// What a record is for a script.
#[derive(Drop)]
pub enum Step {
    /// A table is declared.
    Declares(Declaration),
    /// It is passed over.
    Passes,
    /// An event comes.
    Brings(Event),
    /// The end.
    Ends,
    /// It is refused, for this cause.
    Refused(ScriptCause),
}

/// A declaration: of a table that was not declared yet, before any record of another kind.
fn declares(declared: &[Declaration], late: bool, table: Declaration) -> Step
    ensures step { result ≡ declares declared.now late table }
    ensures key { HasKey table → StepHasKey result }
{
    if is_declared(declared, &table) {
        return Step::Refused(ScriptCause::BadPayload);
    }
    if late {
        return Step::Refused(ScriptCause::LateTable);
    }
    Step::Declares(table)
}

/// Rows at the start, which a replay passes over: of a table that was declared.
fn passes_over(declared: &[Declaration], rows: &StartRows) -> Step
    ensures { result ≡ passes_over declared.now rows.now }
{
    if usize::from(rows.table) < declared.len() {
        return Step::Passes;
    }
    Step::Refused(ScriptCause::NoTable)
}

/// What a record is for a script: by the tables that were declared, and whether a record of another kind came.
#[tactic(auto, unfolding(crate::specs::Script::step_of))]
pub fn step_of(
    alloc: Global,
    declared: &[Declaration],
    late: bool,
    item: Item,
) -> Result<Step, OutOfMemory>
    ensures step { IfOk result (λ step. step ≡ step_of declared.now late (item_seen item)) }
    ensures key { IfOk result StepHasKey }
{
    match read_record(alloc, item) {
        Ok(Record::Table(table)) => Ok(declares(declared, late, table)),
        Ok(Record::Start(rows)) => Ok(passes_over(declared, &rows)),
        Ok(Record::Brings(event)) => Ok(Step::Brings(event)),
        Ok(Record::End) => Ok(Step::Ends),
        Err(RecordError::UnknownKind) => Ok(Step::Refused(ScriptCause::UnknownKind)),
        Err(RecordError::BadPayload) => Ok(Step::Refused(ScriptCause::BadPayload)),
        Err(RecordError::OutOfMemory) => Err(OutOfMemory),
    }
}
