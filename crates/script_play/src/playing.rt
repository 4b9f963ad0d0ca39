//! A script on its stage: one record after the other.
ghost use Rattle.std.specs.Prelude.{is_some, ◌∷◌, Some, ◌≡◌, ◌+◌, ◌≤◌, ◌++◌, true, take, drop, length, nat_lt, map, [], ℕ, List, Err, IfOk, IfErr, IfSome, OnOk, OnErr, IsErrOf};
ghost use Rattle.std.specs.List.{AllByRecursion};
ghost use Rattle.shape_base.specs.Outside.{Rose, AddsFront};
ghost use Rattle.core_events.specs.declared.out.Out.{Out};
ghost use Rattle.script.specs.Records as records;
ghost use Rattle.script.specs.Seen.{item_seen};
ghost use Rattle.script.specs.Lines.{outs_text, end_text};
ghost use Rattle.sync_core.specs.Core.{IsSituated, Stands};
ghost use Rattle.sync_core.specs.Run.{at_start};
ghost use Rattle.script_play.specs.Settings.{AreLimits};
ghost use Rattle.script_play.specs.Tables.{HasKey};
ghost use Rattle.script_play.specs.Playing.{Wrote, IsOfTurn, IsBrought, IsBroughtIn, IsGoing, IsGoingIn, IsStaged, IsTurn, IsSome, IsSound, IsCount};

use crate::cause::cause_for;
use crate::steps::{Step, step_of};
use crate::stop::Stop;
use crate::tables::options_of;
use core_events::{Event, Outs, StepError};
use script::{Declaration, Item, push_end, push_outs};
use shape_base::{Limits, Sink};
use std::alloc::Global;
use sync_core::Core;

/// What is kept between records: the tables that were declared, and the core once a record of another kind came.
#[derive(Drop)]
pub struct Stage {
    declared: Vec<Declaration>,
    core: Option<Core>,
}

impl Stage {
    /// No table was declared, and no other record came.
    pub fn new(alloc: Global) -> Stage
        ensures staged { (words : List (List ℕ)) → IsStaged words result.declared.items result.core 0 [] [] }
        ensures sound { IsSound result }
    {
        Stage {
            declared: Vec::new(alloc),
            core: None,
        }
    }
}

/// The core, which the first record that is no declaration starts.
fn started(
    alloc: Global,
    limits: Limits,
    declared: &[Declaration],
    core: Option<Core>,
) -> Result<Core, Stop>
    requires keys { AllByRecursion HasKey declared.now }
    requires core { IsSome core }
    ensures situated { IfOk result IsSituated }
    ensures staged { (words : List (List ℕ)) (place : ℕ) (first : List records.Item) (outs : List Out) → AreLimits words limits → IsStaged words declared.now core place first outs → IfOk result (λ c. IsGoing words declared.now (is_some core) c place first outs) }
    ensures causes { IfErr result (λ e. e ≡ Stop.OutOfMemory) }
{
    match core {
        Some(core) => Ok(core),
        None => Ok(Core::new(alloc, options_of(alloc, limits, declared)?)?),
    }
}

/// Writes a piece.
fn write<K: Sink>(out: &mut K, bytes: &[u8]) -> Result<(), Stop>
    ensures wrote { K.tells ≡ true → OnOk result (K.written out.new ≡ K.written out.old ++ bytes.now) }
    ensures part { K.tells ≡ true → OnErr result (AddsFront (K.written out.old) (K.written out.new) bytes.now) }
    ensures later { K.failed_writes out.old ≤ K.failed_writes out.new }
    ensures fault { OnErr result (Rose (K.failed_writes out.old) (K.failed_writes out.new)) }
    ensures causes { IfErr result (λ e. e ≡ Stop.WriteFault) }
{
    match out.write_all(bytes) {
        Ok(()) => Ok(()),
        Err(_) => Err(Stop::WriteFault),
    }
}

/// Writes the lines of outs.
fn write_outs<K: Sink>(alloc: Global, out: &mut K, outs: &Outs) -> Result<(), Stop>
    ensures wrote { Wrote result (outs_text outs.now) (λ text. K.tells ≡ true → K.written out.new ≡ K.written out.old ++ text) (λ text. K.tells ≡ true → AddsFront (K.written out.old) (K.written out.new) text) }
    ensures later { K.failed_writes out.old ≤ K.failed_writes out.new }
    ensures fault { IsErrOf result Stop.WriteFault → Rose (K.failed_writes out.old) (K.failed_writes out.new) }
{
    let mut bytes = Vec::new(alloc);
    push_outs(alloc, &mut bytes, outs)?;
    write(out, &bytes)
}

/// Writes the last line.
fn write_end<K: Sink>(alloc: Global, out: &mut K, exchanges: u64) -> Result<(), Stop>
    ensures wrote { Wrote result (end_text exchanges) (λ text. K.tells ≡ true → K.written out.new ≡ K.written out.old ++ text) (λ text. K.tells ≡ true → AddsFront (K.written out.old) (K.written out.new) text) }
    ensures later { K.failed_writes out.old ≤ K.failed_writes out.new }
    ensures fault { IsErrOf result Stop.WriteFault → Rose (K.failed_writes out.old) (K.failed_writes out.new) }
{
    let mut bytes = Vec::new(alloc);
    push_end(&mut bytes, exchanges)?;
    write(out, &bytes)
}

/// Brings an event to the core, and writes what it puts out. Its record stands in that place.
fn bring<K: Sink>(
    alloc: Global,
    out: &mut K,
    core: &mut Core,
    place: u64,
    event: Event,
) -> Result<(), Stop>
    requires { IsSituated core.old }
    ensures brought { IsBrought core.old core.new event place (λ text. K.tells ≡ true → K.written out.new ≡ K.written out.old ++ text) (λ text. K.tells ≡ true → AddsFront (K.written out.old) (K.written out.new) text) result }
    ensures situated { OnOk result (IsSituated core.new) }
    ensures later { K.failed_writes out.old ≤ K.failed_writes out.new }
    ensures fault { IsErrOf result Stop.WriteFault → Rose (K.failed_writes out.old) (K.failed_writes out.new) }
{
    match core.step(event) {
        Ok(outs) => write_outs(alloc, out, &outs),
        Err(StepError::Unfit { cause }) => Err(Stop::BadScript {
            place,
            cause: cause_for(cause),
        }),
        Err(StepError::TooManyExchanges) => Err(Stop::TooManyExchanges),
        Err(StepError::OutOfMemory) => Err(Stop::OutOfMemory),
    }
}

/// A table is declared.
fn declare(stage: &mut Stage, table: Declaration) -> Result<(), Stop>
    requires sound { IsSound stage.old }
    requires key { HasKey table }
    ensures declared { OnOk result (stage.new.declared.items ≡ stage.old.declared.items ++ table ∷ []) }
    ensures core { OnOk result (stage.new.core ≡ stage.old.core) }
    ensures sound { OnOk result (IsSound stage.new) }
    ensures causes { IfErr result (λ e. e ≡ Stop.OutOfMemory) }
{
    stage.declared.push(table)?;
    Ok(())
}

/// The core is started, if no record of another kind came before.
fn start(alloc: Global, limits: Limits, stage: &mut Stage) -> Result<(), Stop>
    requires { IsSound stage.old }
    ensures started { OnOk result (is_some stage.new.core ≡ true) }
    ensures declared { OnOk result (stage.new.declared ≡ stage.old.declared) }
    ensures going { (words : List (List ℕ)) (place : ℕ) (first : List records.Item) (outs : List Out) → AreLimits words limits → IsStaged words stage.old.declared.items stage.old.core place first outs
        → OnOk result (IsGoingIn words stage.old.declared.items (is_some stage.old.core) stage.new.core place first outs) }
    ensures sound { OnOk result (IsSound stage.new) }
    ensures causes { IfErr result (λ e. e ≡ Stop.OutOfMemory) }
{
    let before = stage.core.take();
    let core = started(alloc, limits, &stage.declared, before)?;
    stage.core = Some(core);
    Ok(())
}

/// Brings an event to the core that was started, and writes what it puts out. Its record stands in that place.
fn bring_on<K: Sink>(
    alloc: Global,
    out: &mut K,
    stage: &mut Stage,
    place: u64,
    event: Event,
) -> Result<(), Stop>
    requires sound { IsSound stage.old }
    requires started { is_some stage.old.core ≡ true }
    ensures declared { stage.new.declared ≡ stage.old.declared }
    ensures brought { IsBroughtIn stage.old.core stage.new.core event place (λ text. K.tells ≡ true → K.written out.new ≡ K.written out.old ++ text) (λ text. K.tells ≡ true → AddsFront (K.written out.old) (K.written out.new) text) result }
    ensures sound { OnOk result (IsSound stage.new) }
    ensures later { K.failed_writes out.old ≤ K.failed_writes out.new }
    ensures fault { IsErrOf result Stop.WriteFault → Rose (K.failed_writes out.old) (K.failed_writes out.new) }
{
    match &mut stage.core {
        Some(core) => bring(alloc, out, core, place, event),
        None => Err(Stop::OutOfMemory),
    }
}

/// How many exchanges were made.
fn exchanges_in(core: &Option<Core>) -> u64
    ensures { (c : Core) → core.now ≡ Some c → IsCount c result }
{
    match core {
        Some(core) => core.exchanges(),
        None => 0,
    }
}

/// Plays the record in a place, and writes what it prints. It says whether the script goes on.
pub fn play_item<K: Sink>(
    alloc: Global,
    out: &mut K,
    limits: Limits,
    stage: &mut Stage,
    place: u64,
    item: Item,
) -> Result<bool, Stop>
    requires { IsSound stage.old }
    ensures turn { (words : List (List ℕ)) (first : List records.Item) (outs : List Out) → AreLimits words limits → IsStaged words stage.old.declared.items stage.old.core place first outs
        → IsTurn words place first (item_seen item) outs (λ text. K.tells ≡ true → K.written out.new ≡ K.written out.old ++ text) (λ text. K.tells ≡ true → AddsFront (K.written out.old) (K.written out.new) text) stage.new result }
    ensures sound { OnOk result (IsSound stage.new) }
    ensures causes { IfErr result IsOfTurn }
    ensures later { K.failed_writes out.old ≤ K.failed_writes out.new }
    ensures fault { IsErrOf result Stop.WriteFault → Rose (K.failed_writes out.old) (K.failed_writes out.new) }
{
    match step_of(alloc, &stage.declared, stage.core.is_some(), item)? {
        Step::Declares(table) => {
            declare(stage, table)?;
            Ok(true)
        }
        Step::Passes => {
            start(alloc, limits, stage)?;
            Ok(true)
        }
        Step::Brings(event) => {
            start(alloc, limits, stage)?;
            bring_on(alloc, out, stage, place, event)?;
            Ok(true)
        }
        Step::Ends => {
            start(alloc, limits, stage)?;
            write_end(alloc, out, exchanges_in(&stage.core))?;
            Ok(false)
        }
        Step::Refused(cause) => Err(Stop::BadScript { place, cause }),
    }
}
