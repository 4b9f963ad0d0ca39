//! Snapshots of the numbers that exchanges own.
ghost use Rattle.std.specs.Prelude.{◌≡◌, ◌⊎◌, [], is_some, IfOk, IfErr, OnOk};
ghost use Rattle.shape_snapshot.specs.declared.faults.SnapError.TheVariants as errors;
ghost use Rattle.core_law.specs.Situation.{Options, Situation};
ghost use Rattle.core_law.specs.Run.{SnapshotEnded};
ghost use Rattle.core_machine.specs.Faults.{fault_of, under_way};
ghost use Rattle.core_machine.specs.Snapshots.{last_at, OwnsSnapshot, HasBegun, IsRefusedFor, IsOwn, IsRefusal, TakesSnapshot, TakesRefusal};
ghost use Rattle.core_machine.specs.Standing.{IsSituated, Stands};
ghost use Rattle.core_machine.specs.Turns.{Takes};

use crate::answering::Refusal;
use crate::fault::{Fault, code_of};
use crate::machine::Machine;
use crate::opening::refusal_at;
use core_events::{Outs, StepError, Unfit};
use core_exchanges::Role;
use core_server::refusal_of_snapshot;
use core_server::snapshot_laws::{snapshots_come, snapshots_end};
use pg_dialogue::SnapHead;
use shape_def::Def;
use shape_snapshot::{Snap, SnapError};

/// The id of the last commit before a number was registered, by the numbers in order.
fn last_at(lasts: &[Option<u32>], number: u64) -> Option<u32>
    ensures { result ≡ last_at lasts.now number }
{
    let Some(place) = number.checked_sub(1) else {
        return None;
    };
    match lasts.get(place as usize) {
        Some(last) => *last,
        None => None,
    }
}

impl Machine {
    /// The number whose snapshot an exchange owns, where it is starting.
    fn under_way(&self, exchange: u32) -> Option<u64>
        ensures { (o : Options) (s : Situation) → Stands o s self.now → result ≡ under_way s exchange }
    {
        let Some(found) = self.exchanges.get(exchange) else {
            return None;
        };
        let Role::Owns { number } = found.role else {
            return None;
        };
        if self.server.is_starting(number) {
            return Some(number);
        }
        None
    }

    /// Whether an exchange owns a snapshot under way.
    pub fn owns_snapshot(&self, exchange: u32) -> bool
        ensures { (o : Options) (s : Situation) → Stands o s self.now → result ≡ is_some (under_way s exchange) }
    {
        self.under_way(exchange).is_some()
    }

    /// Begins the snapshot that an exchange owns over its dialogue's head. Its rows are taken by `core_server::take_row`.
    ///
    /// Refusals, in the order in which they are tried: `BadSnapshot`, `DefinitionChanged` and `Stale`.
    pub fn begin_snapshot(&self, exchange: u32, head: &SnapHead) -> Result<Snap<Def>, SnapError>
        requires { OwnsSnapshot self.now exchange }
        ensures begun { (o : Options) (s : Situation) → Stands o s self.now → IfOk result (HasBegun o s exchange head.now []) }
        ensures refused { (o : Options) (s : Situation) → Stands o s self.now → IfErr result (λ error. (error ≡ errors.OutOfMemory) ⊎ IsRefusedFor o s exchange head.now [] error) }
    {
        let Some(number) = self.under_way(exchange) else {
            unreachable!()
        };
        let last = last_at(self.lasts.as_slice(), number);
        match self.server.begin_snapshot(self.alloc, number, last, head) {
            Ok(snap) => Ok(snap),
            Err(error) => Err(error),
        }
    }

    /// The snapshot that an exchange owns came whole. Its number is ready, unless a commit that waited for it drops the shape.
    pub fn snapshot(&mut self, exchange: u32, snap: Snap<Def>) -> Result<Outs, StepError>
        requires { IsOwn self.old exchange snap }
        ensures takes { TakesSnapshot self.old self.new exchange snap result }
        ensures situated { OnOk result (IsSituated self.new) }
    {
        let Some(number) = self.under_way(exchange) else {
            let cause = Unfit::NotASnapshot;
            return Err(StepError::Unfit { cause });
        };
        snapshots_come();
        self.server.snapshot(number, snap)?;
        Ok(self.answer_awaiting(number, &None)?)
    }

    /// The snapshot that an exchange owns is refused: by its head, or by its next row. The exchange has the code of the refusal, and its number is dropped. Where the snapshot came under another
    /// definition, that is its table's from now on.
    pub fn snapshot_refused(&mut self, exchange: u32, error: SnapError) -> Result<Outs, StepError>
        requires { IsRefusal self.old exchange error }
        ensures takes { TakesRefusal self.old self.new exchange error result }
        ensures situated { OnOk result (IsSituated self.new) }
    {
        let Some(number) = self.under_way(exchange) else {
            let cause = Unfit::NotASnapshot;
            return Err(StepError::Unfit { cause });
        };
        snapshots_end();
        let refused = refusal_of_snapshot(error)?;
        self.server.refuse(number, refused.definition);
        let refusal = refusal_at(exchange, Some(refused.code));
        Ok(self.answer_awaiting(number, &refusal)?)
    }

    /// The snapshot that an exchange owns ended without being taken. The exchange is refused with the code of the fault, and its number is dropped.
    pub fn snapshot_ended(&mut self, exchange: u32, fault: Fault) -> Result<Outs, StepError>
        requires { IsSituated self.old }
        ensures takes { Takes self.old self.new (SnapshotEnded exchange (fault_of fault)) result }
        ensures situated { OnOk result (IsSituated self.new) }
    {
        let Some(number) = self.under_way(exchange) else {
            let cause = Unfit::NotASnapshot;
            return Err(StepError::Unfit { cause });
        };
        self.server.refuse(number, None);
        let code = code_of(fault);
        let refusal = Refusal {
            index: exchange,
            code,
        };
        Ok(self.answer_awaiting(number, &Some(refusal))?)
    }
}
