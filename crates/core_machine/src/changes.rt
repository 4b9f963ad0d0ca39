//! What happens to numbers and to the clock.
ghost use Rattle.std.specs.Prelude.{◌≡◌, IfOk, OnOk};
ghost use Rattle.core_law.specs.Run.{Remove, Moment};
ghost use Rattle.core_machine.specs.Answering.{CanAnswer};
ghost use Rattle.core_machine.specs.Awaiting.{AnswersAt, AnswersAwaiting};
ghost use Rattle.core_machine.specs.Opening.{SparesClients};
ghost use Rattle.core_machine.specs.Standing.{IsSituated};
ghost use Rattle.core_machine.specs.Turns.{Takes};

use crate::answering::{Refusal, answer_all};
use crate::machine::Machine;
use core_events::{Outs, StepError, Unfit};
use shape_base::OutOfMemory;

impl Machine {
    /// The exchanges in these places have their replies, late or not, where there are any now.
    pub(crate) fn answer_at(
        &mut self,
        places: &[u32],
        late: bool,
        refusal: &Option<Refusal>,
    ) -> Result<Outs, OutOfMemory>
        requires { CanAnswer self.old.server self.old.exchanges }
        ensures answered { IfOk result (λ outs. AnswersAt self.old self.new places.now late refusal.now outs) }
        ensures spares { OnOk result (SparesClients self.old self.new) }
        ensures server { OnOk result (self.new.server ≡ self.old.server) }
        ensures lasts { OnOk result (self.new.lasts ≡ self.old.lasts) }
    {
        let mut outs = Outs::new(self.alloc);
        answer_all(
            self.alloc,
            &self.server,
            &mut self.exchanges,
            places,
            late,
            refusal,
            &mut outs,
        )?;
        Ok(outs)
    }

    /// The exchanges that await a number have their replies, where there are any now.
    pub(crate) fn answer_awaiting(
        &mut self,
        number: u64,
        refusal: &Option<Refusal>,
    ) -> Result<Outs, OutOfMemory>
        requires { CanAnswer self.old.server self.old.exchanges }
        ensures answered { IfOk result (λ outs. AnswersAwaiting self.old self.new number refusal.now outs) }
        ensures spares { OnOk result (SparesClients self.old self.new) }
        ensures server { OnOk result (self.new.server ≡ self.old.server) }
        ensures lasts { OnOk result (self.new.lasts ≡ self.old.lasts) }
    {
        let places = self.exchanges.awaiting(number)?;
        self.answer_at(places.as_slice(), false, refusal)
    }

    /// A number is dropped, where it is live.
    pub fn remove(&mut self, number: u64) -> Result<Outs, StepError>
        requires { IsSituated self.old }
        ensures takes { Takes self.old self.new (Remove number) result }
        ensures situated { OnOk result (IsSituated self.new) }
    {
        if !self.server.is_live(number) {
            return Ok(Outs::new(self.alloc));
        }
        self.server.remove(number);
        Ok(self.answer_awaiting(number, &None)?)
    }

    /// The clock shows so many milliseconds. Each live request that was held for as long as it may be is answered.
    pub fn moment(&mut self, now: u64) -> Result<Outs, StepError>
        requires { IsSituated self.old }
        ensures takes { Takes self.old self.new (Moment now) result }
        ensures situated { OnOk result (IsSituated self.new) }
    {
        if now < self.clock {
            let cause = Unfit::ClockBack;
            return Err(StepError::Unfit { cause });
        }
        self.clock = now;
        let places = self.exchanges.late(now, self.hold)?;
        Ok(self.answer_at(places.as_slice(), true, &None)?)
    }
}
