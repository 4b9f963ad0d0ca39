//! What a request is answered.
ghost use Rattle.std.specs.Prelude.{◌≡◌, ℕ, true, Some, IfOk};
ghost use Rattle.std.specs.Option.{option_map};
ghost use Rattle.shape_base.specs.RegistryHistory.{had_ready, is_live};
ghost use Rattle.shape_registry.specs.State.{found_in};
ghost use Rattle.shape_registry.specs.ByHistory.{found_after};
ghost use Rattle.shape_json.specs.Body.{IsInner};
ghost use Rattle.shape_json.specs.Page.{Part};
ghost use Rattle.shape_json.specs.Answer.{in_run};
ghost use Rattle.chunked_log.specs.Chunked.{Carries};
ghost use Rattle.http_edge.specs.Schema.{schema_text};
ghost use Rattle.http_edge.specs.Lawful.{page_reply, conflict_reply, reply_of};
ghost use Rattle.core_law.specs.Situation as law;
ghost use Rattle.core_law.specs.Situation.{Options, answers_from, known_of};
ghost use Rattle.core_server.specs.Standing.{Stands, IsSituated, knows_in};
ghost use Rattle.core_server.specs.Replies.{reply_to, start_of, waits_of, ready_answer, HasInner, IsReplyTo};

use crate::schema::schema_of;
use crate::server::Server;
use http_edge::{ErrorCode, conflict_reply, page_reply, refusal_reply};
use shape_base::{Ask, Duplicate, Handle, Named, Offset, OutOfMemory, Page, Reply, RowTest};
use shape_def::Def;
use shape_registry::Found;
use shape_state::Paged;
use std::alloc::Global;

/// From where a request is answered, and whether it waits for what is new.
fn place_of(ask: &Ask) -> (Offset, bool)
    ensures offset { result.0 ≡ start_of ask.now.named ask.now.offset }
    ensures live { result.1 ≡ waits_of ask.now.named ask.now.live }
{
    match &ask.named {
        Named::Absent => (Offset::Start, false),
        Named::Known(_) => (ask.offset, ask.live),
        Named::Strange => (ask.offset, ask.live),
    }
}

impl Server {
    /// What is found for a request: its handle or the one that is live under its identity, ready or starting; that it names one that is not live; or that none is named and none is live.
    pub fn lookup(&self, ask: &Ask) -> Found
        ensures found { result ≡ found_in self.now.registry.state ask.now.identity ask.now.named }
        ensures by_situation { (o : Options) (v : law.Server) → Stands o v self.now → result ≡ found_after o.run v.registry ask.now.identity ask.now.named }
    {
        self.registry.lookup(ask)
    }

    /// The handle of a number of this run.
    fn handle(&self, alloc: Global, number: u64) -> Result<Handle, OutOfMemory>
        ensures { IfOk result (λ handle. handle ≡ in_run self.now.run number) }
    {
        Ok(Handle {
            number,
            run: self.run.copy(alloc)?,
        })
    }

    /// The reply that names a number in the place of one that is not live.
    fn conflict(&self, alloc: Global, named: Option<u64>) -> Result<Reply, OutOfMemory>
        ensures { IfOk result (λ reply. reply ≡ conflict_reply (option_map (in_run self.now.run) named)) }
    {
        match named {
            None => conflict_reply(alloc, None),
            Some(number) => {
                let handle = self.handle(alloc, number)?;
                conflict_reply(alloc, Some(handle))
            }
        }
    }

    /// The reply that is a page of a number's log.
    fn page_reply(
        &self,
        alloc: Global,
        ask: &Ask,
        number: u64,
        test: &Def,
        page: &Page,
    ) -> Result<Reply, OutOfMemory>
        requires { IsInner page.now.inner }
        ensures { IfOk result (λ reply. (part : Part) → Carries page.now part → reply ≡ page_reply ask.now (in_run self.now.run number) (Some (schema_text (knows_in test.now))) part) }
    {
        let handle = self.handle(alloc, number)?;
        let schema = schema_of(alloc, &test.definition().columns, test.selected())?;
        Ok(page_reply(alloc, ask, &handle, &schema, page)?)
    }

    /// The reply that is what a shape answers.
    fn paged_reply(
        &self,
        alloc: Global,
        ask: &Ask,
        number: u64,
        test: &Def,
        paged: &Paged,
    ) -> Result<Option<Reply>, OutOfMemory>
        requires { HasInner paged.now }
        ensures { IfOk result (IsReplyTo ask.now (in_run self.now.run number) (knows_in test.now) paged.now) }
    {
        match paged {
            Paged::Page(page) => Ok(Some(self.page_reply(alloc, ask, number, test, page)?)),
            Paged::OffsetAhead { .. } => {
                Ok(Some(refusal_reply(alloc, &ErrorCode::OffsetAhead)?))
            }
            Paged::NotYet => Ok(None),
            Paged::Starting => Ok(None),
            Paged::Gone { .. } => Ok(None),
        }
    }

    /// The reply from the log of a ready number.
    fn ready_reply(
        &self,
        alloc: Global,
        ask: &Ask,
        number: u64,
        late: bool,
    ) -> Result<Option<Reply>, OutOfMemory>
        requires { IsSituated self.now }
        ensures { (o : Options) (v : law.Server) → Stands o v self.now → is_live v.registry number ≡ true → had_ready v.registry number ≡ true → IfOk result (λ reply. reply ≡ reply_of (known_of o v) ask.now (ready_answer (answers_from o v late) ask.now number)) }
    {
        let Some(shape) = self.registry.kept(number) else {
            return Ok(None);
        };
        let (offset, live) = place_of(ask);
        let paged = shape.page(offset, live, late)?;
        self.paged_reply(alloc, ask, number, shape.test(), &paged)
    }

    /// The reply to a request, late or not, where there is one yet.
    pub fn answer(&self, alloc: Global, ask: &Ask, late: bool) -> Result<Option<Reply>, OutOfMemory>
        requires { IsSituated self.now }
        ensures { (o : Options) (v : law.Server) → Stands o v self.now → IfOk result (λ reply. reply ≡ reply_to o v late ask.now) }
    {
        match self.registry.lookup(ask) {
            Found::Ready { number } => self.ready_reply(alloc, ask, number, late),
            Found::Gone { named } => Ok(Some(self.conflict(alloc, named)?)),
            Found::Starting { .. } => Ok(None),
            Found::Unregistered => Ok(None),
        }
    }
}
