//! The core of a server: one machine over events.
ghost use Rattle.std.specs.Prelude.{◌≡◌, ◌++◌, ◌<◌, true, length, Err, IfOk, OnOk};
ghost use Rattle.shape_base.specs.Handle.{is_run};
ghost use Rattle.core_server.specs.Standing.{IsCatalog, options_of};
ghost use Rattle.core_events.specs.declared.event.Event.TheVariants as events;
ghost use Rattle.core_events.specs.declared.out.StepError.TheVariants as errors;
ghost use Rattle.core_law.specs.Situation.{Options as Started};
ghost use Rattle.core_machine.specs.Faults.{fault_of};
ghost use Rattle.core_machine.specs.Standing as machines;
ghost use Rattle.core_machine.specs.Committing.{AreTakable};
ghost use Rattle.sync_core.specs.Streaming.{fault_in};
ghost use Rattle.sync_core.specs.Run.{at_start, end_for, Situation};
ghost use Rattle.sync_core.specs.Core.{Stands, IsSituated, Takes, refusal_out, HasBrought};

use crate::dialogues::{Dialogues, kept_stays};
use crate::reading::{Coming, Joining, read_client, read_head};
use crate::snapshots::{finish, gather};
use crate::stream::{Brought, Refusal, Stream};
use core_events::{Event, Options, Out, Outs, StepError, Unfit};
use core_machine::laws::{exchanges_stay, snapshots_end_once};
use core_machine::{Fault, Machine};
use core_server::snapshot_laws::snapshots_end;
use http_edge::Detail;
use pg_dialogue::SnapHead;
use shape_base::{Duplicate, OutOfMemory, Rows, ServedTables};
use std::alloc::Global;
use tx_assembler::Assembler;

/// A server with its exchanges, its clients and the stream of its database. For contracts it stands for a situation.
#[derive(Drop)]
pub struct Core {
    alloc: Global,
    machine: Machine,
    stream: Stream,
    dialogues: Dialogues,
    /// The served tables, by which targets are read.
    tables: ServedTables,
}

/// The event does not fit, for this cause.
fn unfit(cause: Unfit) -> Result<Outs, StepError>
    ensures { result ≡ Err (errors.Unfit cause) }
{
    Err(StepError::Unfit { cause })
}

/// How a snapshot ends whose connection ended, or failed.
fn end_of(failed: bool) -> Fault
    ensures { fault_of result ≡ end_for failed }
{
    if failed {
        return Fault::LinkFailed;
    }
    Fault::IsBad {
        detail: Detail::Ended,
    }
}

/// The refusal of the stream, where there is one, before the replies.
fn with_refusal(alloc: Global, refusal: Option<Refusal>, replies: Outs) -> Result<Outs, OutOfMemory>
    ensures { IfOk result (λ outs. outs ≡ refusal_out (fault_in refusal) ++ replies) }
{
    let Some(refusal) = refusal else {
        return Ok(replies);
    };
    let Refusal { name, place } = refusal;
    let mut all: Vec<Out> = Vec::new(alloc);
    all.push(Out::StreamRefused { name, place })?;
    let mut more = replies.into_vec();
    all.append(&mut more)?;
    Ok(Outs::from_vec(all))
}

impl Core {
    /// A core to which nothing has come: its limits, its run's name, the served tables, and the definition of each in the table's place.
    pub fn new(alloc: Global, options: Options) -> Result<Core, OutOfMemory>
        requires catalog { IsCatalog options.tables options.defs }
        requires run { is_run options.run ≡ true }
        requires few { length options.tables < 4294967296 }
        ensures { IfOk result (Stands (options_of options.limits options.tables options.defs options.run) at_start) }
    {
        let Options {
            limits,
            run,
            tables,
            defs,
        } = options;
        let assembler = Assembler::new(alloc, tables.copy(alloc)?)?;
        let own = tables.copy(alloc)?;
        Ok(Core {
            alloc,
            machine: Machine::new(alloc, limits, tables, defs, run)?,
            stream: Stream::new(alloc, assembler),
            dialogues: Dialogues::new(alloc),
            tables: own,
        })
    }

    /// How many exchanges were made so far.
    pub fn exchanges(&self) -> u64
        ensures { (o : Started) (s : Situation) → Stands o s self.now → result ≡ length s.core.exchanges }
    {
        self.machine.exchanges()
    }

    /// The stream begins anew.
    pub fn begin_anew(&mut self) -> Result<Outs, StepError>
        requires { IsSituated self.old }
        ensures takes { Takes self.old self.new events.Anew result }
        ensures situated { OnOk result (IsSituated self.new) }
    {
        self.stream.begin_anew(self.alloc);
        Ok(Outs::new(self.alloc))
    }

    /// What a record of the stream brought: its refusal is put out, and then the replies to which its commits lead.
    fn bring(&mut self, brought: Brought) -> Result<Outs, StepError>
        requires situated { machines.IsSituated self.old.machine }
        requires takable { AreTakable self.old.machine.server.tables brought.txs }
        ensures takes { HasBrought self.old.machine self.new.machine brought result }
        ensures stream { self.new.stream ≡ self.old.stream }
        ensures dialogues { self.new.dialogues ≡ self.old.dialogues }
        ensures tables { self.new.tables ≡ self.old.tables }
    {
        let Brought { txs, refusal } = brought;
        let replies = self.machine.commit(txs.as_slice())?;
        Ok(with_refusal(self.alloc, refusal, replies)?)
    }

    /// A message of the stream came.
    pub fn message(&mut self, bytes: &[u8]) -> Result<Outs, StepError>
        requires { IsSituated self.old }
        ensures takes { Takes self.old self.new (events.Message bytes.now) result }
        ensures situated { OnOk result (IsSituated self.new) }
    {
        kept_stays();
        let brought = self.stream.receive_message(self.alloc, bytes)?;
        self.bring(brought)
    }

    /// The next bytes of the stream's frames came.
    pub fn frame_bytes(&mut self, bytes: &[u8]) -> Result<Outs, StepError>
        requires { IsSituated self.old }
        ensures takes { Takes self.old self.new (events.FrameBytes bytes.now) result }
        ensures situated { OnOk result (IsSituated self.new) }
    {
        kept_stays();
        let brought = self.stream.receive_frames(self.alloc, bytes)?;
        self.bring(brought)
    }

    /// The head of a request came, whole or cut. It makes an exchange.
    pub fn request_head(&mut self, bytes: &[u8]) -> Result<Outs, StepError>
        requires { IsSituated self.old }
        ensures takes { Takes self.old self.new (events.RequestHead bytes.now) result }
        ensures situated { OnOk result (IsSituated self.new) }
    {
        kept_stays();
        match read_head(self.alloc, &self.tables, bytes)? {
            Coming::Request {
                target,
                asked,
                close,
            } => self.machine.request(target, asked, close),
            Coming::Cut => self.machine.cut(),
            Coming::More => unfit(Unfit::BadPayload),
        }
    }

    /// A client came, with the web form of its query.
    pub fn new_client(&mut self, pairs: &[u8]) -> Result<Outs, StepError>
        requires { IsSituated self.old }
        ensures takes { Takes self.old self.new (events.NewClient pairs.now) result }
        ensures situated { OnOk result (IsSituated self.new) }
    {
        kept_stays();
        match read_client(self.alloc, &self.tables, pairs)? {
            Joining::Query { query, first } => self.machine.join(query, first),
            Joining::Unread => unfit(Unfit::BadPayload),
        }
    }

    /// The next bytes of a snapshot's connection came.
    pub fn snap_bytes(&mut self, exchange: u32, bytes: &[u8]) -> Result<Outs, StepError>
        requires { IsSituated self.old }
        ensures takes { Takes self.old self.new (events.SnapBytes exchange bytes.now) result }
        ensures situated { OnOk result (IsSituated self.new) }
    {
        kept_stays();
        exchanges_stay();
        snapshots_end();
        snapshots_end_once();
        if !self.machine.owns_snapshot(exchange) {
            return unfit(Unfit::NotASnapshot);
        }
        let progress = self.dialogues.receive(&self.machine, exchange, bytes)?;
        finish(self.alloc, &mut self.machine, exchange, progress)
    }

    /// A whole snapshot came, for the exchange that owns it. Pieces of it that came before are let go.
    pub fn snapshot(
        &mut self,
        exchange: u32,
        head: &SnapHead,
        rows: Rows,
    ) -> Result<Outs, StepError>
        requires { IsSituated self.old }
        ensures takes { Takes self.old self.new (events.Snapshot exchange head.now rows) result }
        ensures situated { OnOk result (IsSituated self.new) }
    {
        kept_stays();
        snapshots_end();
        snapshots_end_once();
        if !self.machine.owns_snapshot(exchange) {
            return unfit(Unfit::NotASnapshot);
        }
        let progress = gather(&self.machine, exchange, head, rows)?;
        self.dialogues.let_go(exchange);
        finish(self.alloc, &mut self.machine, exchange, progress)
    }

    /// A snapshot's connection ended, or failed.
    pub fn snap_end(&mut self, exchange: u32, failed: bool) -> Result<Outs, StepError>
        requires { IsSituated self.old }
        ensures takes { Takes self.old self.new (events.SnapEnd exchange failed) result }
        ensures situated { OnOk result (IsSituated self.new) }
    {
        kept_stays();
        snapshots_end_once();
        self.dialogues.let_go(exchange);
        self.machine.snapshot_ended(exchange, end_of(failed))
    }

    /// A client sends its next request. It makes an exchange, which is then the client's open one.
    pub fn send_next(&mut self, client: u32) -> Result<Outs, StepError>
        requires { IsSituated self.old }
        ensures takes { Takes self.old self.new (events.SendNext client) result }
        ensures situated { OnOk result (IsSituated self.new) }
    {
        kept_stays();
        self.machine.send_next(client)
    }

    /// A client takes the reply of an exchange, and forgets its open one.
    pub fn receive(&mut self, client: u32, exchange: u32) -> Result<Outs, StepError>
        requires { IsSituated self.old }
        ensures takes { Takes self.old self.new (events.Receive client exchange) result }
        ensures situated { OnOk result (IsSituated self.new) }
    {
        kept_stays();
        self.machine.receive(client, exchange)
    }

    /// A client asks and takes until it is up to date, is refused or has to wait.
    pub fn watch(&mut self, client: u32) -> Result<Outs, StepError>
        requires { IsSituated self.old }
        ensures takes { Takes self.old self.new (events.Watch client) result }
        ensures situated { OnOk result (IsSituated self.new) }
    {
        kept_stays();
        self.machine.watch(client)
    }

    /// The shape of a handle's number is dropped; nothing happens where it is not live.
    pub fn remove(&mut self, number: u64) -> Result<Outs, StepError>
        requires { IsSituated self.old }
        ensures takes { Takes self.old self.new (events.Remove number) result }
        ensures situated { OnOk result (IsSituated self.new) }
    {
        kept_stays();
        self.machine.remove(number)
    }

    /// The clock shows so many milliseconds.
    pub fn moment(&mut self, now: u64) -> Result<Outs, StepError>
        requires { IsSituated self.old }
        ensures takes { Takes self.old self.new (events.Moment now) result }
        ensures situated { OnOk result (IsSituated self.new) }
    {
        kept_stays();
        self.machine.moment(now)
    }

    /// Takes one event.
    ///
    /// Refusals: `Unfit` where it does not fit, with its cause; `TooManyExchanges` where it would make one exchange too many; and want of memory.
    pub fn step(&mut self, event: Event) -> Result<Outs, StepError>
        requires { IsSituated self.old }
        ensures takes { Takes self.old self.new event result }
        ensures situated { OnOk result (IsSituated self.new) }
    {
        match event {
            Event::Anew => self.begin_anew(),
            Event::Message { bytes } => self.message(bytes.as_slice()),
            Event::FrameBytes { bytes } => self.frame_bytes(bytes.as_slice()),
            Event::RequestHead { bytes } => self.request_head(bytes.as_slice()),
            Event::SnapBytes { exchange, bytes } => self.snap_bytes(exchange, bytes.as_slice()),
            Event::Snapshot {
                exchange,
                head,
                rows,
            } => self.snapshot(exchange, &head, rows),
            Event::SnapEnd { exchange, failed } => self.snap_end(exchange, failed),
            Event::NewClient { pairs } => self.new_client(pairs.as_slice()),
            Event::SendNext { client } => self.send_next(client),
            Event::Receive { client, exchange } => self.receive(client, exchange),
            Event::Watch { client } => self.watch(client),
            Event::Remove { number } => self.remove(number),
            Event::Moment { now } => self.moment(now),
        }
    }
}
