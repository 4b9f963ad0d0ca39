//! Writing to the server and waiting for its answers.
ghost use Rattle.std.specs.Prelude.{◌≡◌, ◌⊎◌, ◌+◌, ◌<◌, ◌≤◌, ◌++◌, true, length, map, OnOk, IfErr, IsErrOf};
ghost use Rattle.shape_base.specs.Outside.{Rose};
ghost use Rattle.pg_dialogue.specs.Dialogue.{noted, met, answered, talk};
ghost use Rattle.pg_dialogue.specs.Dialogues.{nothing_told};
ghost use Rattle.pg_dialogue.specs.Links.{to_come, Takes, Reads, Writes};
ghost use Rattle.pg_dialogue.specs.Exchanges.{exchange_of};

use crate::inbox::Inbox;
use crate::login::SnapHead;
use crate::replies::reply;
use crate::wanted::{News, Told, Wanted};
use crate::wire_error::WireError;
use shape_base::{Columns, Sink, Source, Text};
use std::alloc::Global;

/// What the client writes, and the messages by which the server answers.
#[derive(Clone, Copy)]
pub(crate) struct Exchange<'a> {
    pub sent: &'a [u8],
    pub wanted: &'a [Wanted],
}

impl Told {
    /// Nothing was told yet.
    pub fn nothing(alloc: Global) -> Told
        ensures { result ≡ nothing_told }
    {
        let vis = Text::of_bytes(Vec::new(alloc));
        let head = SnapHead {
            vis,
            oid: 0,
            columns: Columns::new(alloc),
        };
        Told { head, row: None }
    }

    /// Keeps what a message told.
    pub fn note(&mut self, news: News)
        ensures { self.new ≡ noted self.old news }
    {
        match news {
            News::Acknowledged => {}
            News::Shown(vis) => self.head.vis = vis,
            News::Described { oid, columns } => {
                self.head.oid = oid;
                self.head.columns = columns;
            }
            News::Row(row) => self.row = Some(row),
        }
    }
}

impl Inbox {
    /// Waits for one message.
    pub fn meet<P: Source>(
        &mut self,
        link: &mut P,
        wanted: Wanted,
        told: &mut Told,
    ) -> Result<(), WireError>
        ensures took { P.tells ≡ true → Takes (P.given link.old) (P.left link.old) self.old.place (P.given link.new) (P.left link.new) self.new.place }
        ensures read { P.tells ≡ true → Reads result (met (to_come self.old.place (P.left link.old)) wanted told.old) told.new self.new.place (to_come self.new.place (P.left link.new)) }
        ensures size { OnOk result (self.old.place + 5 ≤ self.new.place) }
        ensures later { P.failed_reads link.old ≤ P.failed_reads link.new }
        ensures fault { IsErrOf result WireError.LinkFault → Rose (P.failed_reads link.old) (P.failed_reads link.new) }
        ensures written { P.written link.new ≡ P.written link.old }
        ensures writes { P.failed_writes link.new ≡ P.failed_writes link.old }
    {
        let alloc = *self.payload.allocator();
        'messages: loop {
            let place = self.place;
            let kind = self.message(link)?;
            match reply(alloc, wanted, place, kind, self.payload.as_slice()) {
                Ok(None) => {}
                Ok(Some(news)) => {
                    told.note(news);
                    return Ok(());
                }
                Err(error) => return Err(error),
            }
        }
    }

    /// Waits for these messages, one after the other.
    fn hear<P: Source>(
        &mut self,
        link: &mut P,
        wanted: &[Wanted],
        told: &mut Told,
    ) -> Result<(), WireError>
        ensures took { P.tells ≡ true → Takes (P.given link.old) (P.left link.old) self.old.place (P.given link.new) (P.left link.new) self.new.place }
        ensures read { P.tells ≡ true → Reads result (answered wanted.now told.old self.old.place (to_come self.old.place (P.left link.old))) told.new self.new.place (to_come self.new.place (P.left link.new)) }
        ensures later { P.failed_reads link.old ≤ P.failed_reads link.new }
        ensures fault { IsErrOf result WireError.LinkFault → Rose (P.failed_reads link.old) (P.failed_reads link.new) }
        ensures written { P.written link.new ≡ P.written link.old }
        ensures writes { P.failed_writes link.new ≡ P.failed_writes link.old }
    {
        'wanted: for next in wanted {
            self.meet(link, *next, told)?;
        }
        Ok(())
    }

    /// Writes a piece and waits for its answers.
    fn exchange<P: Source + Sink>(
        &mut self,
        link: &mut P,
        sent: &[u8],
        wanted: &[Wanted],
        told: &mut Told,
    ) -> Result<(), WireError>
        ensures took { P.Source.tells ≡ true → Takes (P.Source.given link.old) (P.Source.left link.old) self.old.place (P.Source.given link.new) (P.Source.left link.new) self.new.place }
        ensures read { P.Source.tells ≡ true → Reads result (answered wanted.now told.old self.old.place (to_come self.old.place (P.Source.left link.old))) told.new self.new.place (to_come self.new.place (P.Source.left link.new)) }
        ensures wrote { P.Source.tells ≡ true → Writes result (P.Source.written link.old) (P.Source.written link.new) sent.now }
        ensures later { (P.Source.failed_reads link.old ≤ P.Source.failed_reads link.new) × (P.Source.failed_writes link.old ≤ P.Source.failed_writes link.new) }
        ensures fault { IsErrOf result WireError.LinkFault → Rose (P.Source.failed_reads link.old) (P.Source.failed_reads link.new) ⊎ Rose (P.Source.failed_writes link.old) (P.Source.failed_writes link.new) }
    {
        match link.write_all(sent) {
            Ok(()) => self.hear(link, wanted, told),
            Err(_) => Err(WireError::LinkFault),
        }
    }

    /// Writes each piece once the answers before it were read.
    pub fn talk<P: Source + Sink>(
        &mut self,
        link: &mut P,
        exchanges: &[Exchange],
        told: &mut Told,
    ) -> Result<(), WireError>
        ensures took { P.Source.tells ≡ true → Takes (P.Source.given link.old) (P.Source.left link.old) self.old.place (P.Source.given link.new) (P.Source.left link.new) self.new.place }
        ensures read { P.Source.tells ≡ true → Reads result (talk (map exchange_of exchanges.now) told.old self.old.place (to_come self.old.place (P.Source.left link.old))).heard told.new self.new.place (to_come self.new.place (P.Source.left link.new)) }
        ensures wrote { P.Source.tells ≡ true → Writes result (P.Source.written link.old) (P.Source.written link.new) (talk (map exchange_of exchanges.now) told.old self.old.place (to_come self.old.place (P.Source.left link.old))).written }
        ensures later { (P.Source.failed_reads link.old ≤ P.Source.failed_reads link.new) × (P.Source.failed_writes link.old ≤ P.Source.failed_writes link.new) }
        ensures fault { IsErrOf result WireError.LinkFault → Rose (P.Source.failed_reads link.old) (P.Source.failed_reads link.new) ⊎ Rose (P.Source.failed_writes link.old) (P.Source.failed_writes link.new) }
    {
        'exchanges: for exchange in exchanges {
            self.exchange(link, exchange.sent, exchange.wanted, told)?;
        }
        Ok(())
    }
}
