//! How a server takes a commit.
ghost use Rattle.std.specs.Prelude.{◌≡◌, ◌<◌, ◌∷◌, ◌++◌, [], ℕ, List, length, true, false, if◌then◌else◌, IfOk, IfSome, OnOk, OnErr};
ghost use Rattle.std.specs.List.{AllByRecursion};
ghost use Rattle.std.specs.FinMap as fin;
ghost use Rattle.shape_base.specs.declared.registry_event.RegistryEvent.{RegistryEvent};
ghost use Rattle.shape_base.specs.declared.registry_event.RegistryEvent.TheVariants as events;
ghost use Rattle.shape_base.specs.RegistryHistory as histories;
ghost use Rattle.shape_base.specs.RegistryHistory.{RegistryStart, is_live, live_numbers};
ghost use Rattle.shape_base.specs.Transactions.{IsWhole};
ghost use Rattle.shape_registry.specs.State.{lsn_in};
ghost use Rattle.core_law.specs.Situation as law;
ghost use Rattle.core_law.specs.Situation.{Options};
ghost use Rattle.core_law.specs.Steps.{redefined, after_commit};
ghost use Rattle.core_law.specs.Waiting.{IsAsBefore};
ghost use Rattle.core_server.specs.Standing.{Stands, IsNew, IsSituated, Moves};
ghost use Rattle.core_server.specs.Committing.{noted, reached, IsNewTo, IsTold, IsTakenUp, IsDue, AreApart, IsNoted, HasReached};

use crate::effect::{Effect, take_commit};
use crate::server::Server;
use shape_base::{Cause, Numbers, OutOfMemory, TableDef, Tx};
use shape_registry::Registry;
use shape_state::laws::comes_later;
use std::alloc::Global;

/// Removes a live number, and lets go what was kept for it.
fn remove_from<K: Drop>(registry: &mut Registry<K>, number: u64, cause: Cause)
    ensures removed { (start : RegistryStart) (es : List RegistryEvent) → histories.Stands start es registry.old.state → is_live es number ≡ true → histories.Stands start (es ++ events.Removed number cause ∷ []) registry.new.state }
    ensures catalog { registry.new.state.catalog ≡ registry.old.state.catalog }
    ensures kept { registry.new.kept ≡ fin.remove registry.old.kept number }
{
    let _gone = registry.remove(number, cause);
}

/// Adds a number of which an answer can tell.
fn note_told(told: &mut Numbers, number: u64, tells: bool) -> Result<(), OutOfMemory>
    ensures { OnOk result (told.new ≡ (if tells then told.old ++ number ∷ [] else told.old)) }
{
    if tells {
        told.push(number)?;
    }
    Ok(())
}

impl Server {
    /// The LSN of the last commit that was taken; 0 where none was.
    pub fn last_lsn(&self) -> u64
        ensures last_lsn { result ≡ lsn_in self.now.registry.state }
        ensures by_situation { (o : Options) (v : law.Server) → Stands o v self.now → result ≡ histories.last_lsn v.registry }
    {
        self.registry.last_lsn()
    }

    /// The shape of a number takes a commit; nothing where the number is not live.
    fn take_up(
        &mut self,
        alloc: Global,
        tx: &Tx,
        number: u64,
    ) -> Result<Option<Effect>, OutOfMemory>
        requires whole { IsWhole tx.now }
        requires due { IsDue self.old tx.now number }
        ensures taken { (o : Options) (v : law.Server) → Stands o v self.old → IsNewTo v tx.now number → IfOk result (IsTakenUp o v tx.now number self.old self.new) }
        ensures still { (o : Options) (v : law.Server) → Stands o v self.old → OnErr result (Stands o v self.new) }
        ensures tables { self.new.tables ≡ self.old.tables }
    {
        let Some(shape) = self.registry.kept_mut(number) else {
            return Ok(None);
        };
        comes_later();
        let effect = take_commit(shape, alloc, tx, self.total)?;
        self.total = effect.total;
        Ok(Some(effect))
    }

    /// A table has a new definition, where there is one.
    fn redefine_by(&mut self, definition: Option<TableDef>)
        requires situated { IsSituated self.old }
        requires new { IfSome definition (IsNew self.old.tables) }
        ensures stands { Moves self.old (λ o v. redefined v definition) self.new }
        ensures tables { self.new.tables ≡ self.old.tables }
    {
        if let Some(definition) = definition {
            self.redefine(definition);
        }
    }

    /// The commit reaches a number. Whether an answer can tell.
    fn reach(&mut self, alloc: Global, tx: &Tx, number: u64) -> Result<bool, OutOfMemory>
        requires whole { IsWhole tx.now }
        requires new { AllByRecursion (IsNew self.old.tables) tx.now.defs }
        requires due { IsDue self.old tx.now number }
        ensures reached { (o : Options) (v : law.Server) → Stands o v self.old → IsNewTo v tx.now number → OnOk result (Stands o (reached o tx.now v number) self.new) }
        ensures told { (o : Options) (v : law.Server) → Stands o v self.old → IsNewTo v tx.now number → IfOk result (λ told. told ≡ false → IsAsBefore v (reached o tx.now v number) number) }
        ensures only { (o : Options) (v : law.Server) → Stands o v self.old → IsNewTo v tx.now number → IfOk result (λ told. told ≡ true → IsAsBefore v (reached o tx.now v number) number → ⊥) }
        ensures still { (o : Options) (v : law.Server) → Stands o v self.old → OnErr result (Stands o v self.new) }
        ensures tables { self.new.tables ≡ self.old.tables }
    {
        let Some(effect) = self.take_up(alloc, tx, number)? else {
            return Ok(false);
        };
        let Effect {
            cause,
            definition,
            tells,
            total: _,
        } = effect;
        match cause {
            None => Ok(tells),
            Some(cause) => {
                remove_from(&mut self.registry, number, cause);
                self.redefine_by(definition);
                Ok(tells)
            }
        }
    }

    /// The commit reaches these numbers, one after the other. Those of which an answer can tell, in their order.
    fn reach_all(&mut self, alloc: Global, tx: &Tx, numbers: &[u64]) -> Result<Numbers, OutOfMemory>
        requires whole { IsWhole tx.now }
        requires new { AllByRecursion (IsNew self.old.tables) tx.now.defs }
        requires noted { IsNoted self.old tx.now }
        requires apart { AreApart numbers.now }
        ensures reached { (o : Options) (v : law.Server) → Stands o v self.old → ((n : ℕ) → IsNewTo v tx.now n) → IfOk result (HasReached o v tx.now numbers.now self.new) }
        ensures situated { IsSituated self.new }
    {
        let mut told = Numbers::new(alloc);
        for number in numbers {
            let tells = self.reach(alloc, tx, *number)?;
            note_told(&mut told, *number, tells)?;
        }
        Ok(told)
    }

    /// Notes a commit in the registry. The live numbers, rising.
    fn note(&mut self, alloc: Global, tx: &Tx) -> Result<Numbers, OutOfMemory>
        requires { lsn_in self.old.registry.state < tx.now.lsn }
        ensures noted { (o : Options) (v : law.Server) → Stands o v self.old → OnOk result (Stands o (noted v tx.now) self.new) }
        ensures later { (o : Options) (v : law.Server) → Stands o v self.old → (n : ℕ) → IsNewTo (noted v tx.now) tx.now n }
        ensures numbers { (o : Options) (v : law.Server) → Stands o v self.old → IfOk result (λ numbers. numbers ≡ live_numbers v.registry) }
        ensures unchanged { OnErr result (self.new ≡ self.old) }
        ensures tables { self.new.tables ≡ self.old.tables }
    {
        self.registry.take(alloc, tx.lsn, tx.xid)
    }

    /// Takes a commit: the shape of each live number has it, one after the other in rising order. Each that it drops is removed, and where it came under another definition, that is its table's
    /// from now on. The numbers of which an answer can tell: those that were removed, and those whose log has grown.
    ///
    /// The commit is whole, its LSN is above `last_lsn`, and each of its definitions is of a served table. After want of memory some numbers may have the commit and others not.
    pub fn commit(&mut self, alloc: Global, tx: &Tx) -> Result<Numbers, OutOfMemory>
        requires situated { IsSituated self.old }
        requires later { lsn_in self.old.registry.state < tx.now.lsn }
        requires whole { IsWhole tx.now }
        requires new { AllByRecursion (IsNew self.old.tables) tx.now.defs }
        ensures stands { (o : Options) (v : law.Server) → Stands o v self.old → OnOk result (Stands o (after_commit o v tx.now) self.new) }
        ensures told { (o : Options) (v : law.Server) → Stands o v self.old → IfOk result (IsTold v (after_commit o v tx.now)) }
        ensures situated { IsSituated self.new }
    {
        let numbers = self.note(alloc, tx)?;
        self.reach_all(alloc, tx, numbers.as_slice())
    }
}
