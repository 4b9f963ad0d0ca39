//! The assembler.
ghost use Rattle.std.specs.Prelude.{◌≡◌, ◌<◌, length, IfOk, IfErr, Some, None, true, []};
ghost use Rattle.std.specs.FinMap as map;
ghost use Rattle.pgout.specs.declared.message.Message.TheVariants as messages;
ghost use Rattle.pgout.specs.Grammar.{Fits};
ghost use Rattle.relation_cache.specs.Relations.{ByOid};
ghost use Rattle.tx_assembler.specs.declared.stage.Stage.TheVariants as stages;
ghost use Rattle.tx_assembler.specs.Answers.{Gives, next};
ghost use Rattle.tx_assembler.specs.Rows.{relation_of};
ghost use Rattle.tx_assembler.specs.Whole.{GivesAssembled};
ghost use Rattle.tx_assembler.specs.Served.{GivesServed};
ghost use Rattle.tx_assembler.specs.Stream.{at_start, reopened, HasTaken, TakesOn, BeginsOn, IsLastTaken};
ghost use Rattle.tx_assembler.specs.Feeding.{opened, begun, committed, changed, related, received, turn_of, may_begin, may_end, same_lsn, IsTurned, IsFed};

use super::answer::{AssembleError, Fed};
use super::described::relation_of;
use super::kept::take;
use super::stage::Stage;
use pgout::{ColumnsSent, Message};
use relation_cache::Relations;
use shape_base::{Changes, Octets, OutOfMemory, ServedTables, TableDefs, Tx};
use std::alloc::Global;
use std::marker::Model;
use std::mem;

/// Puts the messages of a replication stream together into transactions.
#[derive(Drop)]
pub struct Assembler {
    alloc: Global,
    tables: ServedTables,
    relations: Relations,
    last: u64,
    stage: Stage,
}

impl Model for Assembler {
    ghost use Rattle.tx_assembler.specs.Situation.{Situation, IsSound};
    ghost use Rattle.std.specs.Coded.{codes};
    ghost use Rattle.relation_cache.specs.Relations.{by_oid_code};

    ghost Value = { Situation };

    ghost coded = { Prim.hlevel (codes, by_oid_code) };

    ghost view = { λ a. record { tables = a.tables; relations = a.relations; last = a.last; stage = a.stage } };

    ghost invariant = { λ a. IsSound a.tables a.relations a.stage };
}

impl Assembler {
    /// An assembler before a stream, for these served tables.
    #[tactic(auto, using(crate::proofs::Served::narrow_none))]
    pub fn new(alloc: Global, tables: ServedTables) -> Result<Assembler, OutOfMemory>
        requires { length tables < 4294967296 }
        ensures start { IfOk result (λ assembler. assembler ≡ at_start tables 0) }
        ensures taken { IfOk result (λ assembler. HasTaken tables [] [] assembler) }
    {
        Ok(Assembler {
            alloc,
            tables,
            relations: Relations::new(alloc),
            last: 0,
            stage: Stage::Outside,
        })
    }

    /// The stream begins anew: relations and a half-built transaction are gone, and the LSN of the last transaction stays.
    #[tactic(auto, using(crate::proofs::Taken::begins_on, crate::proofs::Served::narrow_none))]
    pub fn reopen(&mut self)
        ensures start { self.new ≡ reopened self.old }
        ensures taken { BeginsOn self.old self.new }
    {
        self.relations = Relations::new(self.alloc);
        self.stage = Stage::Outside;
    }

    /// The LSN of the last transaction that was given, or 0.
    #[tactic(auto, using(crate::proofs::Taken::last_taken))]
    pub fn last(&self) -> u64
        ensures last { result ≡ self.now.last }
        ensures taken { IsLastTaken self.now result }
    {
        self.last
    }

    /// Takes the next message of the stream.
    ///
    /// A refusal but want of memory ends the transaction and stands until `reopen`; want of memory leaves the assembler as it was.
    #[tactic(auto, using(crate::proofs::Taken::takes_on))]
    pub fn feed(&mut self, message: Message) -> Result<Fed, AssembleError>
        requires { Fits message }
        // Whatever was taken before, the answer is the due one, and the transactions given are those that the stream shows.
        ensures taken { TakesOn self.old message result self.new }
        ensures fed { IsFed self.old message result self.new }
        ensures whole { IfOk result GivesAssembled }
        ensures served { IfOk result (GivesServed self.old.tables) }
    {
        self.answer(message)
    }

    fn answer(&mut self, message: Message) -> Result<Fed, AssembleError>
        requires { Fits message }
        ensures fed { IsFed self.old message result self.new }
        ensures whole { IfOk result GivesAssembled }
        ensures served { IfOk result (GivesServed self.old.tables) }
    {
        match self.receive(message) {
            Ok(fed) => Ok(fed),
            Err(error) => {
                if error != AssembleError::OutOfMemory {
                    self.stage = Stage::Refused(error);
                }
                Err(error)
            }
        }
    }

    fn receive(&mut self, message: Message) -> Result<Fed, AssembleError>
        requires { Fits message }
        ensures turned { IsTurned self.old (turn_of self.old message) result self.new }
        ensures whole { IfOk result GivesAssembled }
        ensures served { IfOk result (GivesServed self.old.tables) }
    {
        if let Stage::Refused(error) = self.stage {
            return Err(error);
        }
        match message {
            Message::Begin { lsn, xid, .. } => self.begin(lsn, xid),
            Message::Commit { lsn, end, .. } => self.commit(lsn, end),
            Message::Relation {
                oid,
                ns,
                name,
                columns,
                ..
            } => self.relate(oid, ns, name, columns),
            Message::Origin { .. } => Ok(Fed::Nothing),
            Message::TypeName { .. } => Ok(Fed::Nothing),
            Message::Logical { .. } => Ok(Fed::Nothing),
            Message::Insert { oid, row } => self.change(b'I', Message::Insert { oid, row }),
            Message::Update { oid, before, row } => {
                self.change(b'U', Message::Update { oid, before, row })
            }
            Message::Delete { oid, before } => self.change(b'D', Message::Delete { oid, before }),
            Message::Truncate { options, oids } => {
                self.change(b'T', Message::Truncate { options, oids })
            }
        }
    }

    fn begin(&mut self, lsn: u64, xid: u32) -> Result<Fed, AssembleError>
        ensures turned { IsTurned self.old (begun self.old self.old.stage lsn xid) result self.new }
        ensures whole { IfOk result GivesAssembled }
        ensures served { IfOk result (GivesServed self.old.tables) }
    {
        check_begin(&self.stage)?;
        self.stage = opened(self.alloc, self.last, lsn, xid);
        Ok(Fed::Nothing)
    }

    fn commit(&mut self, lsn: u64, end: u64) -> Result<Fed, AssembleError>
        ensures turned { IsTurned self.old (committed self.old self.old.stage lsn end) result self.new }
        ensures whole { IfOk result GivesAssembled }
        ensures served { IfOk result (GivesServed self.old.tables) }
    {
        check_end(&self.stage, lsn)?;
        match mem::replace(&mut self.stage, Stage::Outside) {
            Stage::Taking(mut tx) => {
                tx.end = end;
                self.last = lsn;
                Ok(Fed::Tx(tx))
            }
            _ => {
                let last = self.last;
                Ok(Fed::Repeat { lsn, last })
            }
        }
    }

    fn relate(
        &mut self,
        oid: u32,
        ns: Octets,
        name: Octets,
        columns: ColumnsSent,
    ) -> Result<Fed, AssembleError>
        requires few { length columns < 65536 }
        ensures turned { IsTurned self.old (next (relation_of oid ns name columns) (related self.old)) result self.new }
        ensures whole { IfOk result GivesAssembled }
        ensures served { IfOk result (GivesServed self.old.tables) }
    {
        let relation = relation_of(self.alloc, oid, ns, name, columns)?;
        self.relations.put(relation)?;
        Ok(Fed::Nothing)
    }

    fn change(&mut self, kind: u8, message: Message) -> Result<Fed, AssembleError>
        requires { Fits message }
        ensures turned { IsTurned self.old (changed self.old self.old.stage kind message) result self.new }
        ensures whole { IfOk result GivesAssembled }
        ensures served { IfOk result (GivesServed self.old.tables) }
    {
        match &mut self.stage {
            Stage::Outside => {
                drop(message);
                Err(AssembleError::OutOfOrder { have: 0, got: kind })
            }
            Stage::Passing { .. } => {
                drop(message);
                Ok(Fed::Nothing)
            }
            Stage::Taking(tx) => {
                take(
                    self.alloc,
                    self.tables.as_slice(),
                    &self.relations,
                    tx,
                    message,
                )?;
                Ok(Fed::Nothing)
            }
            Stage::Refused(error) => {
                drop(message);
                Err(*error)
            }
        }
    }
}

/// A Begin stands outside of a transaction alone.
fn check_begin(stage: &Stage) -> Result<(), AssembleError>
    ensures { Gives result (may_begin stage.now) }
{
    match stage {
        Stage::Outside => Ok(()),
        Stage::Passing { .. } => Err(AssembleError::OutOfOrder {
            have: b'B',
            got: b'B',
        }),
        Stage::Taking(_) => Err(AssembleError::OutOfOrder {
            have: b'B',
            got: b'B',
        }),
        Stage::Refused(error) => Err(*error),
    }
}

/// A Commit stands inside a transaction alone, and has its Begin's LSN.
fn check_end(stage: &Stage, lsn: u64) -> Result<(), AssembleError>
    ensures { Gives result (may_end stage.now lsn) }
{
    match stage {
        Stage::Outside => Err(AssembleError::OutOfOrder { have: 0, got: b'C' }),
        Stage::Passing { begin } => check_lsn(*begin, lsn),
        Stage::Taking(tx) => check_lsn(tx.lsn, lsn),
        Stage::Refused(error) => Err(*error),
    }
}

fn check_lsn(begin: u64, commit: u64) -> Result<(), AssembleError>
    ensures { Gives result (same_lsn begin commit) }
{
    if begin != commit {
        return Err(AssembleError::LsnMismatch { begin, commit });
    }
    Ok(())
}

/// The stage behind a Begin: a transaction whose LSN is not above the last one's is a repeat.
fn opened(alloc: Global, last: u64, lsn: u64, xid: u32) -> Stage
    ensures { result ≡ opened last lsn xid }
{
    if lsn <= last {
        return Stage::Passing { begin: lsn };
    }
    Stage::Taking(Tx {
        xid,
        lsn,
        end: 0,
        bytes: 0,
        defs: TableDefs::new(alloc),
        changes: Changes::new(alloc),
    })
}
