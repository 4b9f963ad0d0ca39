//! The messages of commits.
ghost use Rattle.std.specs.Prelude.{◌≡◌, ◌<◌, ◌∷◌, [], ◌++◌, List, map, IfOk, OnOk};
ghost use Rattle.std.specs.List.{AllByRecursion};
ghost use Rattle.pgout.specs.Grammar.{Fits, column};
ghost use Rattle.drill_work.specs.declared.plain.Statement.TheVariants.{Truncate};
ghost use Rattle.drill_work.specs.Messages.{message_of, column_sent, relation, relation_before, begin_of, commit_of, messages_of, event_of, commit_events, streamed_events};

use crate::fields::{fields_of, octets};
use crate::plain::{Commit, Commits, Statement, Statements};
use core_events::Event;
use pgout::{Before, ColumnSent, Message, write_message};
use shape_base::{OutOfMemory, Seq};
use std::alloc::Global;

/// The OID of the table.
pub const TABLE_OID: u32 = 16_384;

/// Events, in their order.
pub type Events = Seq<Event>;

fn truncate_message(alloc: Global) -> Result<Message, OutOfMemory>
    ensures is { IfOk result (λ message. message ≡ message_of Truncate) }
    ensures fits { IfOk result Fits }
{
    let mut oids = Seq::new(alloc);
    oids.push(TABLE_OID)?;
    Ok(Message::Truncate { options: 0, oids })
}

/// The message of a change.
fn message_of(alloc: Global, statement: &Statement) -> Result<Message, OutOfMemory>
    ensures is { IfOk result (λ message. message ≡ message_of statement.now) }
    ensures fits { IfOk result Fits }
{
    let oid = TABLE_OID;
    match statement {
        Statement::Insert(new) => {
            let row = fields_of(alloc, new)?;
            Ok(Message::Insert { oid, row })
        }
        Statement::Update { old, new } => {
            let before = Before::Whole(fields_of(alloc, old)?);
            let row = fields_of(alloc, new)?;
            Ok(Message::Update { oid, before, row })
        }
        Statement::Delete(old) => {
            let before = Before::Whole(fields_of(alloc, old)?);
            Ok(Message::Delete { oid, before })
        }
        Statement::Truncate => truncate_message(alloc),
    }
}

fn column_sent(alloc: Global, name: &str, oid: u32) -> Result<ColumnSent, OutOfMemory>
    ensures { IfOk result (λ sent. sent ≡ column_sent name.now oid) }
{
    Ok(ColumnSent {
        flags: 1,
        name: octets(alloc, name.as_bytes())?,
        oid,
        modifier: 4_294_967_295,
    })
}

/// The definition of the table.
fn relation(alloc: Global) -> Result<Message, OutOfMemory>
    ensures is { IfOk result (λ message. message ≡ relation) }
    ensures fits { IfOk result Fits }
{
    let mut columns = Seq::new(alloc);
    columns.push(column_sent(alloc, "id", 23)?)?;
    columns.push(column_sent(alloc, "n", 23)?)?;
    columns.push(column_sent(alloc, "s", 25)?)?;
    Ok(Message::Relation {
        oid: TABLE_OID,
        ns: octets(alloc, b"public")?,
        name: octets(alloc, b"items")?,
        identity: b'f',
        columns,
    })
}

/// Puts a message last.
fn push_message(alloc: Global, events: &mut Events, message: &Message) -> Result<(), OutOfMemory>
    requires { Fits message.now }
    ensures { OnOk result (events.new ≡ events.old ++ event_of message.now ∷ []) }
{
    let bytes = write_message(alloc, message)?;
    let bytes = octets(alloc, &bytes)?;
    events.push(Event::Message { bytes })?;
    Ok(())
}

/// Puts the definition of the table last, where the commit is the first of all.
fn push_relation(alloc: Global, events: &mut Events, number: u16) -> Result<(), OutOfMemory>
    ensures { OnOk result (events.new ≡ events.old ++ map event_of (relation_before number)) }
{
    if number > 0 {
        return Ok(());
    }
    let message = relation(alloc)?;
    push_message(alloc, events, &message)
}

/// Puts the messages of changes last.
fn push_statements(
    alloc: Global,
    events: &mut Events,
    statements: &Statements,
) -> Result<(), OutOfMemory>
    ensures { OnOk result (events.new ≡ events.old ++ map event_of (map message_of statements.now)) }
{
    for statement in statements.as_slice() {
        let message = message_of(alloc, statement)?;
        push_message(alloc, events, &message)?;
    }
    Ok(())
}

/// Puts the beginning of a commit last.
fn push_begin(alloc: Global, events: &mut Events, number: u16) -> Result<(), OutOfMemory>
    ensures { OnOk result (events.new ≡ events.old ++ event_of (begin_of number) ∷ []) }
{
    let begin = Message::Begin {
        lsn: 100 + u64::from(number),
        time: 0,
        xid: 1_000 + u32::from(number),
    };
    push_message(alloc, events, &begin)
}

/// Puts the end of a commit last.
fn push_end(alloc: Global, events: &mut Events, number: u16) -> Result<(), OutOfMemory>
    ensures { OnOk result (events.new ≡ events.old ++ event_of (commit_of number) ∷ []) }
{
    let end = Message::Commit {
        flags: 0,
        lsn: 100 + u64::from(number),
        end: 108 + u64::from(number),
        time: 0,
    };
    push_message(alloc, events, &end)
}

/// Puts the messages of a commit last.
fn push_commit(alloc: Global, events: &mut Events, commit: &Commit) -> Result<(), OutOfMemory>
    ensures { OnOk result (events.new ≡ events.old ++ commit_events commit.now) }
{
    push_begin(alloc, events, commit.number)?;
    push_relation(alloc, events, commit.number)?;
    push_statements(alloc, events, &commit.statements)?;
    push_end(alloc, events, commit.number)?;
    Ok(())
}

/// What is streamed of commits, in their order.
pub fn streamed_events(alloc: Global, commits: &Commits) -> Result<Events, OutOfMemory>
    ensures { IfOk result (λ events. events ≡ streamed_events commits.now) }
{
    let mut events = Seq::new(alloc);
    for commit in commits.as_slice() {
        push_commit(alloc, &mut events, commit)?;
    }
    Ok(events)
}
