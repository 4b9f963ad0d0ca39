//! The dialogues: a snapshot of a table, its description, and the opening of the replication stream.
ghost use Rattle.std.specs.Prelude.{◌≡◌, ◌⊎◌, ◌+◌, ◌<◌, ◌≤◌, ◌++◌, true, IfOk, IfErr, OnOk, IsErrOf};
ghost use Rattle.shape_base.specs.Outside.{Rose};
ghost use Rattle.pg_dialogue.specs.Dialogue.{talk};
ghost use Rattle.pg_dialogue.specs.Dialogues.{nothing_told, opening, closing, streaming, all_rows, describing, describe_talk};
ghost use Rattle.pg_dialogue.specs.Links.{to_come, Takes, Writes};
ghost use Rattle.pg_dialogue.specs.Outcomes.{Begins, Continues, Finishes, Describes, RunsOut};
ghost use Rattle.pg_dialogue.specs.Queries.{IsShortLogin, IsShortName};

use crate::inbox::Inbox;
use crate::login::{Login, SnapHead};
use crate::queries;
use crate::talk::Exchange;
use crate::wanted::{Told, Wanted};
use crate::wire_error::WireError;
use shape_base::{Row, Served, Sink, Source};
use std::alloc::Global;
use std::marker::Model;

/// A snapshot under way. A contract sees how many bytes the link gave in this dialogue.
#[derive(Drop)]
pub struct Dialogue {
    alloc: Global,
    inbox: Inbox,
}

impl Model for Dialogue {
    ghost use Rattle.std.specs.Prelude.{ℕ};

    ghost Value = { ℕ };

    ghost view = { λ d. d.inbox.place };
}

impl Dialogue {
    /// Begins a snapshot of the table: logs in, opens a transaction whose queries all see one state of the database, asks which transactions that state shows, and
    /// asks for the table's rows (PostgreSQL manual, 55.2 Message Flow). It takes no byte of the link behind the description of the rows.
    pub fn begin<P: Source + Sink>(
        alloc: Global,
        link: &mut P,
        login: &Login,
        table: &Served,
    ) -> Result<(Dialogue, SnapHead), WireError>
        requires login { IsShortLogin login.now }
        requires table { IsShortName table.now }
        // What is answered: by the bytes that the link will give.
        ensures read { P.Source.tells ≡ true → Begins result (talk (opening login.now table.now) nothing_told 0 (to_come 0 (P.Source.left link.old))).heard (P.Source.left link.new) }
        // What is written: each query once the answer before it was read.
        ensures wrote { P.Source.tells ≡ true → Writes result (P.Source.written link.old) (P.Source.written link.new) (talk (opening login.now table.now) nothing_told 0 (to_come 0 (P.Source.left link.old))).written }
        ensures took { P.Source.tells ≡ true → IfOk result (λ x. Takes (P.Source.given link.old) (P.Source.left link.old) 0 (P.Source.given link.new) (P.Source.left link.new) x.0) }
        ensures later { (P.Source.failed_reads link.old ≤ P.Source.failed_reads link.new) × (P.Source.failed_writes link.old ≤ P.Source.failed_writes link.new) }
        ensures fault { IsErrOf result WireError.LinkFault → Rose (P.Source.failed_reads link.old) (P.Source.failed_reads link.new) ⊎ Rose (P.Source.failed_writes link.old) (P.Source.failed_writes link.new) }
    {
        let pieces = queries::opening(alloc, login, table)?;
        let exchanges = [
            Exchange {
                sent: pieces.startup.as_slice(),
                wanted: &[Wanted::Authentication, Wanted::Started],
            },
            Exchange {
                sent: pieces.begin.as_slice(),
                wanted: &[Wanted::Completed, Wanted::Ready],
            },
            Exchange {
                sent: pieces.snapshot.as_slice(),
                wanted: &[
                    Wanted::SnapshotColumn,
                    Wanted::SnapshotText,
                    Wanted::Completed,
                    Wanted::Ready,
                ],
            },
            Exchange {
                sent: pieces.select.as_slice(),
                wanted: &[Wanted::TableColumns],
            },
        ];
        let mut inbox = Inbox::new(alloc);
        let mut told = Told::nothing(alloc);
        inbox.talk(link, &exchanges, &mut told)?;
        let Told { head, row: _ } = told;
        Ok((Dialogue { alloc, inbox }, head))
    }

    /// The next row of the table; `None` once its rows ended.
    pub fn next_row<P: Source>(&mut self, link: &mut P) -> Result<Option<Row>, WireError>
        ensures read { P.tells ≡ true → Continues result (to_come self.old (P.left link.old)) self.new (P.left link.new) }
        ensures took { P.tells ≡ true → Takes (P.given link.old) (P.left link.old) self.old (P.given link.new) (P.left link.new) self.new }
        ensures size { OnOk result (self.old + 5 ≤ self.new) }
        ensures limit { self.new ≤ 68719476736 }
        ensures later { P.failed_reads link.old ≤ P.failed_reads link.new }
        ensures fault { IsErrOf result WireError.LinkFault → Rose (P.failed_reads link.old) (P.failed_reads link.new) }
        ensures written { P.written link.new ≡ P.written link.old }
        ensures writes { P.failed_writes link.new ≡ P.failed_writes link.old }
    {
        let mut told = Told::nothing(self.alloc);
        self.inbox.meet(link, Wanted::TableRow, &mut told)?;
        let Told { head, row } = told;
        match row {
            Some(row) => Ok(Some(row)),
            None => {
                let mut told = Told { head, row: None };
                self.inbox.meet(link, Wanted::Ready, &mut told)?;
                Ok(None)
            }
        }
    }

    /// Ends the snapshot's transaction, once its rows ended.
    pub fn finish<P: Source + Sink>(self, link: &mut P) -> Result<(), WireError>
        ensures read { P.Source.tells ≡ true → Finishes result (talk closing nothing_told self (to_come self (P.Source.left link.old))).heard (P.Source.given link.old) (P.Source.left link.old) self (P.Source.given link.new) (P.Source.left link.new) }
        ensures wrote { P.Source.tells ≡ true → Writes result (P.Source.written link.old) (P.Source.written link.new) (talk closing nothing_told self (to_come self (P.Source.left link.old))).written }
        ensures later { (P.Source.failed_reads link.old ≤ P.Source.failed_reads link.new) × (P.Source.failed_writes link.old ≤ P.Source.failed_writes link.new) }
        ensures fault { IsErrOf result WireError.LinkFault → Rose (P.Source.failed_reads link.old) (P.Source.failed_reads link.new) ⊎ Rose (P.Source.failed_writes link.old) (P.Source.failed_writes link.new) }
    {
        let Dialogue { alloc, mut inbox } = self;
        let commit = queries::closing(alloc)?;
        let exchanges = [Exchange {
            sent: commit.as_slice(),
            wanted: &[Wanted::Completed, Wanted::Ready],
        }];
        let mut told = Told::nothing(alloc);
        inbox.talk(link, &exchanges, &mut told)
    }

    /// Reads to the end of the rows.
    fn pass_rows<P: Source>(&mut self, link: &mut P) -> Result<(), WireError>
        ensures read { P.tells ≡ true → RunsOut result (all_rows (to_come self.old (P.left link.old))).end self.new (P.left link.new) }
        ensures took { P.tells ≡ true → Takes (P.given link.old) (P.left link.old) self.old (P.given link.new) (P.left link.new) self.new }
        ensures later { P.failed_reads link.old ≤ P.failed_reads link.new }
        ensures fault { IsErrOf result WireError.LinkFault → Rose (P.failed_reads link.old) (P.failed_reads link.new) }
        ensures written { P.written link.new ≡ P.written link.old }
        ensures writes { P.failed_writes link.new ≡ P.failed_writes link.old }
    {
        'rows: loop {
            match self.next_row(link) {
                Ok(Some(_)) => {}
                Ok(None) => return Ok(()),
                Err(error) => return Err(error),
            }
        }
    }
}

/// Asks for the OID and the columns of a table, and reads them.
fn begin_description<P: Source + Sink>(
    alloc: Global,
    link: &mut P,
    login: &Login,
    table: &Served,
) -> Result<(Dialogue, SnapHead), WireError>
    requires login { IsShortLogin login.now }
    requires table { IsShortName table.now }
    ensures read { P.Source.tells ≡ true → Begins result (talk (describing login.now table.now) nothing_told 0 (to_come 0 (P.Source.left link.old))).heard (P.Source.left link.new) }
    ensures wrote { P.Source.tells ≡ true → Writes result (P.Source.written link.old) (P.Source.written link.new) (talk (describing login.now table.now) nothing_told 0 (to_come 0 (P.Source.left link.old))).written }
    ensures took { P.Source.tells ≡ true → IfOk result (λ x. Takes (P.Source.given link.old) (P.Source.left link.old) 0 (P.Source.given link.new) (P.Source.left link.new) x.0) }
    ensures later { (P.Source.failed_reads link.old ≤ P.Source.failed_reads link.new) × (P.Source.failed_writes link.old ≤ P.Source.failed_writes link.new) }
    ensures fault { IsErrOf result WireError.LinkFault → Rose (P.Source.failed_reads link.old) (P.Source.failed_reads link.new) ⊎ Rose (P.Source.failed_writes link.old) (P.Source.failed_writes link.new) }
{
    let pieces = queries::describing(alloc, login, table)?;
    let exchanges = [
        Exchange {
            sent: pieces.startup.as_slice(),
            wanted: &[Wanted::Authentication, Wanted::Started],
        },
        Exchange {
            sent: pieces.query.as_slice(),
            wanted: &[Wanted::TableColumns],
        },
    ];
    let mut inbox = Inbox::new(alloc);
    let mut told = Told::nothing(alloc);
    inbox.talk(link, &exchanges, &mut told)?;
    let Told { head, row: _ } = told;
    Ok((Dialogue { alloc, inbox }, head))
}

/// Asks for the OID and the columns of a table, and goes to the end of that dialogue: the visibility that is answered is empty.
pub fn describe<P: Source + Sink>(
    alloc: Global,
    link: &mut P,
    login: &Login,
    table: &Served,
) -> Result<SnapHead, WireError>
    requires login { IsShortLogin login.now }
    requires table { IsShortName table.now }
    ensures read { P.Source.tells ≡ true → Describes result (describe_talk login.now table.now (to_come 0 (P.Source.left link.old))).heard (P.Source.given link.old) (P.Source.left link.old) (P.Source.given link.new) (P.Source.left link.new) }
    ensures wrote { P.Source.tells ≡ true → Writes result (P.Source.written link.old) (P.Source.written link.new) (describe_talk login.now table.now (to_come 0 (P.Source.left link.old))).written }
    ensures later { (P.Source.failed_reads link.old ≤ P.Source.failed_reads link.new) × (P.Source.failed_writes link.old ≤ P.Source.failed_writes link.new) }
    ensures fault { IsErrOf result WireError.LinkFault → Rose (P.Source.failed_reads link.old) (P.Source.failed_reads link.new) ⊎ Rose (P.Source.failed_writes link.old) (P.Source.failed_writes link.new) }
{
    let (mut dialogue, head) = begin_description(alloc, link, login, table)?;
    dialogue.pass_rows(link)?;
    Ok(head)
}

/// Opens the replication stream of the slot: up to CopyBothResponse (PostgreSQL manual, 55.4 Streaming Replication Protocol), and takes no byte behind it.
pub fn open_stream<P: Source + Sink>(
    alloc: Global,
    link: &mut P,
    login: &Login,
) -> Result<(), WireError>
    requires { IsShortLogin login.now }
    ensures read { P.Source.tells ≡ true → Finishes result (talk (streaming login.now) nothing_told 0 (to_come 0 (P.Source.left link.old))).heard (P.Source.given link.old) (P.Source.left link.old) 0 (P.Source.given link.new) (P.Source.left link.new) }
    ensures wrote { P.Source.tells ≡ true → Writes result (P.Source.written link.old) (P.Source.written link.new) (talk (streaming login.now) nothing_told 0 (to_come 0 (P.Source.left link.old))).written }
    ensures later { (P.Source.failed_reads link.old ≤ P.Source.failed_reads link.new) × (P.Source.failed_writes link.old ≤ P.Source.failed_writes link.new) }
    ensures fault { IsErrOf result WireError.LinkFault → Rose (P.Source.failed_reads link.old) (P.Source.failed_reads link.new) ⊎ Rose (P.Source.failed_writes link.old) (P.Source.failed_writes link.new) }
{
    let pieces = queries::streaming(alloc, login)?;
    let exchanges = [
        Exchange {
            sent: pieces.startup.as_slice(),
            wanted: &[Wanted::Authentication, Wanted::Started],
        },
        Exchange {
            sent: pieces.query.as_slice(),
            wanted: &[Wanted::CopyBoth],
        },
    ];
    let mut inbox = Inbox::new(alloc);
    let mut told = Told::nothing(alloc);
    inbox.talk(link, &exchanges, &mut told)
}
