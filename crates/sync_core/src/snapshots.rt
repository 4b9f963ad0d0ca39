//! Snapshots under way, whose bytes come in pieces.
ghost use Rattle.std.specs.Prelude.{◌≡◌, ◌<◌, ℕ, List, [], ◌∷◌, ◌++◌, length, None, Some, Ok, IfOk, OnOk};
ghost use Rattle.shape_base.specs.Tables.{Table};
ghost use Rattle.pg_dialogue.specs.Course.{course_of};
ghost use Rattle.pg_dialogue.specs.Pieces.{Given, MayCome};
ghost use Rattle.core_law.specs.Situation.{Options, Situation};
ghost use Rattle.core_machine.specs.Faults as faults;
ghost use Rattle.core_machine.specs.Standing.{Stands, IsSituated};
ghost use Rattle.core_machine.specs.Snapshots.{OwnsSnapshot};
ghost use Rattle.sync_core.specs.Run.{fault_for};
ghost use Rattle.sync_core.specs.UnderWay.{IsTaken, TakenFor, IsUnderWay, ComesTo, Stood, Stepped, GoesOn};
ghost use Rattle.sync_core.specs.Finishing.{HasStood, TakesStood};

use core_events::{Outs, StepError};
use core_machine::{Fault, Machine};
use core_server::snapshot_laws::snapshots_end;
use core_server::take_row;
use http_edge::Detail;
use pg_dialogue::{SnapHead, SnapReader, SnapStep, WireError};
use shape_base::{OutOfMemory, Row, Rows};
use shape_def::Def;
use shape_snapshot::{Snap, SnapError};
use std::alloc::Global;
use std::mem;

/// What was taken of a snapshot.
#[derive(Drop)]
enum Taken {
    /// Its head did not come yet.
    Nothing,
    /// Its head and these rows, none of which is refused.
    Rows(Snap<Def>),
    /// Its head or a row is refused. That is told once its dialogue is whole.
    Refused(SnapError),
}

/// A snapshot under way: how far its bytes were read, and what was taken of it.
#[derive(Drop)]
pub struct UnderWay {
    reader: SnapReader,
    taken: Taken,
}

/// How a snapshot stands once all that came was read.
#[derive(Drop)]
pub enum Progress {
    /// More is to come.
    Waits,
    /// Its head or a row is refused.
    Refused(SnapError),
    /// Its database says something else than a snapshot.
    Ended(Fault),
    /// It is whole.
    Whole(Snap<Def>),
}

/// What came was wrong.
fn bad(detail: Detail) -> Fault
    ensures { result ≡ Fault.IsBad detail }
{
    Fault::IsBad { detail }
}

/// How a snapshot ends whose database says something else than a snapshot; want of memory ends none.
fn fault_of(error: WireError) -> Result<Fault, OutOfMemory>
    ensures fault { IfOk result (λ fault. faults.fault_of fault ≡ fault_for error) }
    ensures memory { IfOk result (λ _. error ≡ WireError.OutOfMemory → ⊥) }
{
    match error {
        WireError::OutOfMemory => Err(OutOfMemory),
        WireError::LinkFault => Ok(Fault::LinkFailed),
        WireError::Ended { .. } => Ok(bad(Detail::Ended)),
        WireError::ErrorResponse { sqlstate } => Ok(bad(Detail::ErrorResponse { sqlstate })),
        WireError::BadReply { .. } => Ok(bad(Detail::BadReply)),
        WireError::AuthWanted { .. } => Ok(bad(Detail::AuthWanted)),
        WireError::NotUtf8 { .. } => Ok(bad(Detail::NotUtf8)),
        WireError::TooLong { .. } => Ok(bad(Detail::TooLong)),
    }
}

/// A refusal of a snapshot; want of memory is none.
fn refused(error: SnapError) -> Result<Taken, OutOfMemory>
    ensures taken { IfOk result (λ taken. taken ≡ Taken.Refused error) }
    ensures memory { IfOk result (λ _. error ≡ SnapError.OutOfMemory → ⊥) }
{
    if let SnapError::OutOfMemory = error {
        return Err(OutOfMemory);
    }
    Ok(Taken::Refused(error))
}

/// What is taken of a snapshot once its head is there. There is no memory for 2^32 columns.
fn begun(machine: &Machine, exchange: u32, head: &SnapHead) -> Result<Taken, OutOfMemory>
    requires { OwnsSnapshot machine.now exchange }
    ensures { (o : Options) (s : Situation) → Stands o s machine.now → IfOk result (IsTaken o s exchange head.now []) }
{
    if head.columns.len() > u32::MAX as u64 {
        return Err(OutOfMemory);
    }
    match machine.begin_snapshot(exchange, head) {
        Ok(snap) => Ok(Taken::Rows(snap)),
        Err(error) => refused(error),
    }
}

impl Taken {
    /// With the next row; rows behind a refusal are passed over.
    fn with_row(self, row: Row) -> Result<Taken, OutOfMemory>
        ensures { (o : Options) (s : Situation) (e : ℕ) (head : SnapHead) (rows : Table) → IsTaken o s e head rows self → IfOk result (IsTaken o s e head (rows ++ row ∷ [])) }
    {
        match self {
            Taken::Nothing => Ok(Taken::Nothing),
            Taken::Rows(mut snap) => match take_row(&mut snap, row) {
                Ok(()) => Ok(Taken::Rows(snap)),
                Err(error) => refused(error),
            },
            Taken::Refused(error) => Ok(Taken::Refused(error)),
        }
    }

    /// How the snapshot stands once its dialogue is whole.
    fn whole(self) -> Progress
        ensures { (o : Options) (s : Situation) (e : ℕ) (head : SnapHead) (rows : Table) → IsTaken o s e head rows self → ComesTo o s e head rows result }
    {
        match self {
            Taken::Nothing => Progress::Waits,
            Taken::Rows(snap) => Progress::Whole(snap),
            Taken::Refused(error) => Progress::Refused(error),
        }
    }
}

impl UnderWay {
    /// Nothing of it came.
    pub fn new(alloc: Global) -> UnderWay
        ensures { (o : Options) (s : Situation) (e : ℕ) → IsUnderWay o s e [] result }
    {
        UnderWay {
            reader: SnapReader::new(alloc),
            taken: Taken::Nothing,
        }
    }

    /// The next bytes of its dialogue came.
    pub fn feed(&mut self, bytes: &[u8]) -> Result<(), OutOfMemory>
        ensures { (o : Options) (s : Situation) (e : ℕ) (fed : List ℕ) → IsUnderWay o s e fed self.old → OnOk result (IsUnderWay o s e (fed ++ bytes.now) self.new) }
    {
        self.reader.feed(bytes)
    }

    /// What is taken of it is taken out.
    fn take(&mut self) -> Taken
        ensures taken { result ≡ self.old.taken }
        ensures reader { self.new.reader ≡ self.old.reader }
    {
        mem::replace(&mut self.taken, Taken::Nothing)
    }

    /// What its dialogue gives next, and how it stands, where that ends it.
    fn step(
        &mut self,
        machine: &Machine,
        exchange: u32,
        step: SnapStep,
    ) -> Result<Option<Progress>, OutOfMemory>
        requires { OwnsSnapshot machine.now exchange }
        ensures reader { self.new.reader ≡ self.old.reader }
        ensures stepped { (o : Options) (s : Situation) (given : Given) → Stands o s machine.now → MayCome given (Some step) → (given.head ≡ None → given.rows ≡ []) → TakenFor o s exchange given self.old.taken → IfOk result (λ progress. Stepped o s exchange given step progress self.new.taken) }
    {
        match step {
            SnapStep::Head(head) => {
                self.taken = begun(machine, exchange, &head)?;
                Ok(None)
            }
            SnapStep::Row(row) => {
                self.taken = self.take().with_row(row)?;
                Ok(None)
            }
            SnapStep::Done => Ok(Some(self.take().whole())),
        }
    }

    /// Reads the next of what came, and how it stands, where it goes on no further.
    fn advance(&mut self, machine: &Machine, exchange: u32) -> Result<Option<Progress>, OutOfMemory>
        requires { OwnsSnapshot machine.now exchange }
        ensures { (o : Options) (s : Situation) (fed : List ℕ) → Stands o s machine.now → IsUnderWay o s exchange fed self.old → IfOk result (λ progress. GoesOn o s exchange fed progress self.new) }
    {
        match self.reader.next() {
            Ok(Some(step)) => self.step(machine, exchange, step),
            Ok(None) => Ok(Some(Progress::Waits)),
            Err(error) => {
                let fault = fault_of(error)?;
                Ok(Some(Progress::Ended(fault)))
            }
        }
    }

    /// Reads all that came.
    pub fn go_on(&mut self, machine: &Machine, exchange: u32) -> Result<Progress, OutOfMemory>
        requires { OwnsSnapshot machine.now exchange }
        // However its bytes were cut, it stands as the course of all that came says.
        ensures stood { (o : Options) (s : Situation) (fed : List ℕ) → Stands o s machine.now → IsUnderWay o s exchange fed self.old → IfOk result (Stood o s exchange (course_of fed)) }
        ensures waits { (o : Options) (s : Situation) (fed : List ℕ) → Stands o s machine.now → IsUnderWay o s exchange fed self.old → result ≡ Ok Progress.Waits → IsUnderWay o s exchange fed self.new }
    {
        'steps: for _ in 0..u64::MAX {
            if let Some(progress) = self.advance(machine, exchange)? {
                return Ok(progress);
            }
        }
        Err(OutOfMemory)
    }
}

/// What a snapshot comes to that came at once, with this head and these rows. There is no memory for 2^32 columns.
pub(crate) fn gather(
    machine: &Machine,
    exchange: u32,
    head: &SnapHead,
    rows: Rows,
) -> Result<Progress, OutOfMemory>
    requires { OwnsSnapshot machine.now exchange }
    ensures { (o : Options) (s : Situation) → Stands o s machine.now → IfOk result (ComesTo o s exchange head.now rows) }
{
    let mut taken = begun(machine, exchange, head)?;
    for row in rows.into_vec() {
        taken = taken.with_row(row)?;
    }
    Ok(taken.whole())
}

/// What a snapshot came to is taken, for the exchange that owns it. Where more is to come, nothing happens.
pub(crate) fn finish(
    alloc: Global,
    machine: &mut Machine,
    exchange: u32,
    progress: Progress,
) -> Result<Outs, StepError>
    requires { HasStood machine.old exchange progress }
    ensures takes { TakesStood machine.old machine.new exchange progress result }
    ensures situated { OnOk result (IsSituated machine.new) }
{
    match progress {
        Progress::Waits => Ok(Outs::new(alloc)),
        Progress::Refused(error) => {
            snapshots_end();
            machine.snapshot_refused(exchange, error)
        }
        Progress::Ended(fault) => machine.snapshot_ended(exchange, fault),
        Progress::Whole(snap) => machine.snapshot(exchange, snap),
    }
}
