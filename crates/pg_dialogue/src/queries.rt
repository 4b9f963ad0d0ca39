//! What the client writes.
ghost use Rattle.std.specs.Prelude.{◌≡◌, ◌+◌, ◌<◌, ◌^◌, ◌++◌, ◌∷◌, [], length, IfOk, OnOk, codes};
ghost use Rattle.std.specs.List.{flat_map};
ghost use Rattle.pg_dialogue.specs.Queries.{pair, user_pairs, startup_message, startup, replication_startup, query, begin_query, snapshot_query, commit_query, select, select_query, describe_query, apostrophes, start_replication, start_query, IsShortLogin, IsShortName};

use crate::login::Login;
use byte_format::{put_string, put_u32};
use shape_base::{OutOfMemory, Served, push_quoted};
use std::alloc::{AllocError, Global};

/// Version 3.0 of the protocol.
const VERSION: u32 = 196_608;

/// A name and its value.
fn put_pair(out: &mut Vec<u8>, name: &[u8], value: &[u8]) -> Result<(), AllocError>
    ensures { OnOk result (out.new.items ≡ out.old.items ++ pair name.now value.now) }
{
    put_string(out, name)?;
    put_string(out, value)
}

/// Who asks, and of which database.
fn put_user(out: &mut Vec<u8>, login: &Login) -> Result<(), AllocError>
    ensures { OnOk result (out.new.items ≡ out.old.items ++ user_pairs login.now) }
{
    put_pair(out, b"user", login.user.as_bytes())?;
    put_pair(out, b"database", login.database.as_bytes())
}

fn startup_message(alloc: Global, pairs: &[u8]) -> Result<Vec<u8>, OutOfMemory>
    requires { length pairs.now < 2 ^ 31 }
    ensures { IfOk result (λ bytes. bytes.items ≡ startup_message pairs.now) }
{
    let mut out = Vec::new(alloc);
    put_u32(&mut out, 9 + pairs.len() as u32)?;
    put_u32(&mut out, VERSION)?;
    out.extend_from_slice(pairs)?;
    out.push(0)?;
    Ok(out)
}

/// The startup of a connection for queries.
#[tactic(auto, unfolding(crate::specs::Queries::startup))]
fn startup(alloc: Global, login: &Login) -> Result<Vec<u8>, OutOfMemory>
    requires { IsShortLogin login.now }
    ensures { IfOk result (λ bytes. bytes.items ≡ startup login.now) }
{
    let mut pairs = Vec::new(alloc);
    put_user(&mut pairs, login)?;
    startup_message(alloc, pairs.as_slice())
}

/// The startup of a replication connection.
#[tactic(auto, unfolding(crate::specs::Queries::replication_startup))]
fn replication_startup(alloc: Global, login: &Login) -> Result<Vec<u8>, OutOfMemory>
    requires { IsShortLogin login.now }
    ensures { IfOk result (λ bytes. bytes.items ≡ replication_startup login.now) }
{
    let mut pairs = Vec::new(alloc);
    put_user(&mut pairs, login)?;
    put_pair(&mut pairs, b"replication", b"database")?;
    startup_message(alloc, pairs.as_slice())
}

/// A query.
fn query(alloc: Global, text: &[u8]) -> Result<Vec<u8>, OutOfMemory>
    requires { length text.now + 5 < 2 ^ 32 }
    ensures { IfOk result (λ bytes. bytes.items ≡ query text.now) }
{
    let mut out = Vec::new(alloc);
    out.push(b'Q')?;
    put_u32(&mut out, 5 + text.len() as u32)?;
    put_string(&mut out, text)?;
    Ok(out)
}

/// All rows of the table.
fn put_select(out: &mut Vec<u8>, table: &Served) -> Result<(), OutOfMemory>
    ensures { OnOk result (out.new.items ≡ out.old.items ++ select table.now) }
{
    out.extend_from_slice(b"SELECT * FROM ")?;
    push_quoted(out, table.ns.as_bytes())?;
    out.push(b'.')?;
    push_quoted(out, table.name.as_bytes())?;
    Ok(())
}

/// The query for all rows of the table.
#[tactic(auto, unfolding(crate::specs::Queries::select_query))]
fn select_query(alloc: Global, table: &Served) -> Result<Vec<u8>, OutOfMemory>
    requires { IsShortName table.now }
    ensures { IfOk result (λ bytes. bytes.items ≡ select_query table.now) }
{
    let mut text = Vec::new(alloc);
    put_select(&mut text, table)?;
    query(alloc, text.as_slice())
}

/// The query for no row of the table.
#[tactic(auto, unfolding(crate::specs::Queries::describe_query))]
fn describe_query(alloc: Global, table: &Served) -> Result<Vec<u8>, OutOfMemory>
    requires { IsShortName table.now }
    ensures { IfOk result (λ bytes. bytes.items ≡ describe_query table.now) }
{
    let mut text = Vec::new(alloc);
    put_select(&mut text, table)?;
    text.extend_from_slice(b" LIMIT 0")?;
    query(alloc, text.as_slice())
}

/// Adds a text with each apostrophe doubled.
fn put_apostrophes(out: &mut Vec<u8>, text: &[u8]) -> Result<(), OutOfMemory>
    ensures { OnOk result (out.new.items ≡ out.old.items ++ flat_map apostrophes text.now) }
{
    'bytes: for byte in text {
        if *byte == b'\'' {
            out.push(b'\'')?;
        }
        out.push(*byte)?;
    }
    Ok(())
}

/// The command for the changes of the publication in the slot.
fn start_replication(alloc: Global, login: &Login) -> Result<Vec<u8>, OutOfMemory>
    ensures { IfOk result (λ text. text.items ≡ start_replication login.now) }
{
    let mut name = Vec::new(alloc);
    push_quoted(&mut name, login.publication.as_bytes())?;
    let mut text = Vec::new(alloc);
    text.extend_from_slice(b"START_REPLICATION SLOT ")?;
    push_quoted(&mut text, login.slot.as_bytes())?;
    text.extend_from_slice(b" LOGICAL 0/0 (proto_version '1', publication_names '")?;
    put_apostrophes(&mut text, name.as_slice())?;
    text.extend_from_slice(b"')")?;
    Ok(text)
}

/// The query that opens the stream.
#[tactic(auto, unfolding(crate::specs::Queries::start_query))]
fn start_query(alloc: Global, login: &Login) -> Result<Vec<u8>, OutOfMemory>
    requires { IsShortLogin login.now }
    ensures { IfOk result (λ bytes. bytes.items ≡ start_query login.now) }
{
    let text = start_replication(alloc, login)?;
    query(alloc, text.as_slice())
}

/// What is written up to the first row of a snapshot.
#[derive(Drop)]
pub(crate) struct SnapshotSent {
    pub startup: Vec<u8>,
    pub begin: Vec<u8>,
    pub snapshot: Vec<u8>,
    pub select: Vec<u8>,
}

/// What is written of a dialogue with one query.
#[derive(Drop)]
pub(crate) struct QuerySent {
    pub startup: Vec<u8>,
    pub query: Vec<u8>,
}

/// What is written up to the first row of a snapshot.
#[tactic(auto, unfolding(crate::specs::Queries::begin_query, crate::specs::Queries::snapshot_query))]
pub(crate) fn opening(
    alloc: Global,
    login: &Login,
    table: &Served,
) -> Result<SnapshotSent, OutOfMemory>
    requires login { IsShortLogin login.now }
    requires table { IsShortName table.now }
    ensures startup { IfOk result (λ o. o.startup.items ≡ startup login.now) }
    ensures begin { IfOk result (λ o. o.begin.items ≡ begin_query) }
    ensures snapshot { IfOk result (λ o. o.snapshot.items ≡ snapshot_query) }
    ensures select { IfOk result (λ o. o.select.items ≡ select_query table.now) }
{
    Ok(SnapshotSent {
        startup: startup(alloc, login)?,
        begin: query(alloc, b"BEGIN ISOLATION LEVEL REPEATABLE READ READ ONLY")?,
        snapshot: query(alloc, b"SELECT pg_current_snapshot()")?,
        select: select_query(alloc, table)?,
    })
}

/// What is written to describe a table.
pub(crate) fn describing(
    alloc: Global,
    login: &Login,
    table: &Served,
) -> Result<QuerySent, OutOfMemory>
    requires login { IsShortLogin login.now }
    requires table { IsShortName table.now }
    ensures startup { IfOk result (λ a. a.startup.items ≡ startup login.now) }
    ensures query { IfOk result (λ a. a.query.items ≡ describe_query table.now) }
{
    Ok(QuerySent {
        startup: startup(alloc, login)?,
        query: describe_query(alloc, table)?,
    })
}

/// What is written to open the stream.
pub(crate) fn streaming(alloc: Global, login: &Login) -> Result<QuerySent, OutOfMemory>
    requires { IsShortLogin login.now }
    ensures startup { IfOk result (λ a. a.startup.items ≡ replication_startup login.now) }
    ensures query { IfOk result (λ a. a.query.items ≡ start_query login.now) }
{
    Ok(QuerySent {
        startup: replication_startup(alloc, login)?,
        query: start_query(alloc, login)?,
    })
}

/// What is written to end a snapshot.
#[tactic(auto, unfolding(crate::specs::Queries::commit_query))]
pub(crate) fn closing(alloc: Global) -> Result<Vec<u8>, OutOfMemory>
    ensures { IfOk result (λ bytes. bytes.items ≡ commit_query) }
{
    query(alloc, b"COMMIT")
}
