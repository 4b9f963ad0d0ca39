//! The dialogues of snapshots whose bytes come in pieces.
ghost use Rattle.std.specs.Prelude.{◌≡◌, ℕ, List, true, None, is_some, IfOk};
ghost use Rattle.core_law.specs.Situation.{Options, Situation};
ghost use Rattle.core_machine.specs.Faults.{under_way};
ghost use Rattle.core_machine.specs.Snapshots.{OwnsSnapshot};
ghost use Rattle.core_machine.specs.Standing.{Stands};
ghost use Rattle.sync_core.specs.UnderWay.{IsUnderWay};
ghost use Rattle.sync_core.specs.Kept.{kept_for, IsKept, AreKept, IsReceived, KeepsOthers, KeptStays};

use crate::snapshots::{Progress, UnderWay};
use core_machine::Machine;
use core_machine::laws::{exchanges_stay, owners_are_known, refusals_stay, snapshots_stay};
use shape_base::OutOfMemory;
use std::alloc::Global;
use std::collections::BTreeMap;

/// The snapshots under way, by the exchanges that own them: how far the bytes of each were read, and what was taken of it.
#[derive(Drop)]
pub(crate) struct Dialogues {
    alloc: Global,
    kept: BTreeMap<u32, UnderWay>,
}

/// What is kept stands for what came, whatever happens to the server and its clients.
pub(crate) fn kept_stays()
    ensures { KeptStays }
{
    snapshots_stay();
    refusals_stay();
    owners_are_known();
    exchanges_stay();
}

impl Dialogues {
    /// Nothing came.
    pub(crate) fn new(alloc: Global) -> Dialogues
        ensures { (e : ℕ) → kept_for result.kept e ≡ None }
    {
        Dialogues {
            alloc,
            kept: BTreeMap::new(alloc),
        }
    }

    /// What is kept for an exchange is taken out. Where nothing is, nothing came for it.
    fn take(&mut self, exchange: u32) -> UnderWay
        ensures taken { (o : Options) (s : Situation) (said : List ℕ) → IsKept o s exchange said (kept_for self.old.kept exchange) → IsUnderWay o s exchange said result }
        ensures none { kept_for self.new.kept exchange ≡ None }
        ensures others { KeepsOthers exchange self.old.kept self.new.kept }
    {
        match self.kept.remove(&exchange) {
            Some(under) => under,
            None => UnderWay::new(self.alloc),
        }
    }

    /// The next bytes of the snapshot that an exchange owns came. It is kept where more is to come.
    pub(crate) fn receive(
        &mut self,
        machine: &Machine,
        exchange: u32,
        bytes: &[u8],
    ) -> Result<Progress, OutOfMemory>
        requires { OwnsSnapshot machine.now exchange }
        ensures received { (o : Options) (s : Situation) (pieces : List (ℕ × List ℕ)) → Stands o s machine.now → is_some (under_way s exchange) ≡ true → AreKept o s pieces self.old.kept → IfOk result (IsReceived o s pieces exchange bytes.now self.new.kept) }
        ensures none { IfOk result (λ progress. (progress ≡ Progress.Waits → ⊥) → kept_for self.new.kept exchange ≡ None) }
        ensures others { KeepsOthers exchange self.old.kept self.new.kept }
    {
        let mut under = self.take(exchange);
        under.feed(bytes)?;
        let progress = under.go_on(machine, exchange)?;
        if let Progress::Waits = progress {
            self.kept.insert(exchange, under)?;
            return Ok(Progress::Waits);
        }
        Ok(progress)
    }

    /// Nothing more comes for an exchange: what is kept for it is let go.
    pub(crate) fn let_go(&mut self, exchange: u32)
        ensures none { kept_for self.new.kept exchange ≡ None }
        ensures others { KeepsOthers exchange self.old.kept self.new.kept }
    {
        let _was = self.kept.remove(&exchange);
    }
}
