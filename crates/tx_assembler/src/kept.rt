//! The changes of served tables that messages bring.
ghost use Rattle.std.specs.Prelude.{◌≡◌, ◌+◌, ◌*◌, ◌<◌, ◌≤◌, length, OnOk, OnErr};
ghost use Rattle.std.specs.FinMap as map;
ghost use Rattle.pgout.specs.declared.message.Message.TheVariants as messages;
ghost use Rattle.pgout.specs.Grammar.{Fits, spelled, tuple};
ghost use Rattle.tx_assembler.specs.Answers.{Gives, next};
ghost use Rattle.tx_assembler.specs.Kept.{inserted, update_of, updated, delete_of, deleted, bytes_of_some, target_of, truncated, with_changes};
ghost use Rattle.tx_assembler.specs.Whole.{most_bytes};
ghost use Rattle.tx_assembler.specs.Feeding.{within_limit, grown, taken_by};
ghost use Rattle.tx_assembler.specs.Taking.{IsTaken, HasMore, definition_at, with_one, row_bytes, served_under, some_served, truncation, truncations};

use super::answer::AssembleError;
use super::rows::row_of;
use super::sizes::fields_size;
use super::tables::table_named;
use super::transactions::{add_change, cut_back};
use pgout::{Before, Fields, Message};
use relation_cache::{Relation, Relations, UnknownRelation};
use shape_base::{ChangeKind, OutOfMemory, Served, Tx};
use std::alloc::Global;

/// The most bytes of kept change messages in one transaction.
const MOST_BYTES: u64 = 67_108_864;

impl From<UnknownRelation> for AssembleError {
    ghost use Rattle.std.specs.Prelude.{◌≡◌};
    ghost use Rattle.tx_assembler.specs.declared.answer.AssembleError.TheVariants as errors;

    ghost from_gives = { λ u e. e ≡ errors.UnknownRelation u.oid };

    fn from(unknown: UnknownRelation) -> AssembleError {
        let oid = unknown.oid;
        AssembleError::UnknownRelation { oid }
    }
}

/// The bytes of the kept messages with so many more.
#[tactic(auto, unfolding(crate::specs::Whole::most_bytes))]
fn bytes_with(bytes: u64, more: u64) -> Result<u64, AssembleError>
    requires small { bytes ≤ most_bytes }
    requires few { more < 4611686018427387904 }
    ensures { Gives result (within_limit (bytes + more)) }
{
    let bytes = bytes + more;
    if bytes > MOST_BYTES {
        let limit = MOST_BYTES;
        return Err(AssembleError::TxTooLarge { bytes, limit });
    }
    Ok(bytes)
}

/// Keeps one change, whose message has so many bytes.
fn keep(
    alloc: Global,
    tx: &mut Tx,
    table: u32,
    relation: &Relation,
    size: u64,
    kind: ChangeKind,
) -> Result<(), AssembleError>
    requires small { tx.old.bytes ≤ most_bytes }
    requires few { size < 4611686018427387904 }
    ensures { IsTaken result tx.old tx.new (with_one tx.old size (definition_at table relation.now) kind) }
{
    let bytes = bytes_with(tx.bytes, size)?;
    add_change(alloc, tx, table, relation, kind)?;
    tx.bytes = bytes;
    Ok(())
}

fn insert(
    alloc: Global,
    tx: &mut Tx,
    table: u32,
    relation: &Relation,
    row: Fields,
) -> Result<(), AssembleError>
    requires small { tx.old.bytes ≤ most_bytes }
    requires fits { tuple.Fits row }
    ensures { IsTaken result tx.old tx.new (next (inserted row (definition_at table relation.now)) (with_one tx.old (8 + row_bytes row) (definition_at table relation.now))) }
{
    let size = 8 + fields_size(row.as_slice());
    let new = row_of(alloc, relation.columns.len(), &[], row)?;
    keep(alloc, tx, table, relation, size, ChangeKind::Insert { new })
}

fn update_whole(
    alloc: Global,
    tx: &mut Tx,
    table: u32,
    relation: &Relation,
    old: Fields,
    row: Fields,
) -> Result<(), AssembleError>
    requires small { tx.old.bytes ≤ most_bytes }
    requires old_fits { tuple.Fits old }
    requires fits { tuple.Fits row }
    ensures { IsTaken result tx.old tx.new (next (update_of old row (definition_at table relation.now)) (with_one tx.old (11 + row_bytes old + row_bytes row) (definition_at table relation.now))) }
{
    let size = 11 + fields_size(old.as_slice()) + fields_size(row.as_slice());
    let width = relation.columns.len();
    let old = row_of(alloc, width, &[], old)?;
    let new = row_of(alloc, width, old.as_slice(), row)?;
    let kind = ChangeKind::Update { old, new };
    keep(alloc, tx, table, relation, size, kind)
}

fn delete_whole(
    alloc: Global,
    tx: &mut Tx,
    table: u32,
    relation: &Relation,
    old: Fields,
) -> Result<(), AssembleError>
    requires small { tx.old.bytes ≤ most_bytes }
    requires fits { tuple.Fits old }
    ensures { IsTaken result tx.old tx.new (next (delete_of old (definition_at table relation.now)) (with_one tx.old (8 + row_bytes old) (definition_at table relation.now))) }
{
    let size = 8 + fields_size(old.as_slice());
    let old = row_of(alloc, relation.columns.len(), &[], old)?;
    keep(alloc, tx, table, relation, size, ChangeKind::Delete { old })
}

fn update(
    alloc: Global,
    tx: &mut Tx,
    table: u32,
    relation: &Relation,
    oid: u32,
    before: Before,
    row: Fields,
) -> Result<(), AssembleError>
    requires small { tx.old.bytes ≤ most_bytes }
    requires fits { Fits (messages.Update oid before row) }
    ensures { IsTaken result tx.old tx.new (next (updated oid before row (definition_at table relation.now)) (with_one tx.old (length (spelled (messages.Update oid before row))) (definition_at table relation.now))) }
{
    match before {
        Before::Whole(old) => update_whole(alloc, tx, table, relation, old, row),
        Before::Key(_) => Err(AssembleError::NoOldRow { oid }),
        Before::Absent => Err(AssembleError::NoOldRow { oid }),
    }
}

fn delete(
    alloc: Global,
    tx: &mut Tx,
    table: u32,
    relation: &Relation,
    oid: u32,
    before: Before,
) -> Result<(), AssembleError>
    requires small { tx.old.bytes ≤ most_bytes }
    requires fits { Fits (messages.Delete oid before) }
    ensures { IsTaken result tx.old tx.new (next (deleted oid before (definition_at table relation.now)) (with_one tx.old (length (spelled (messages.Delete oid before))) (definition_at table relation.now))) }
{
    match before {
        Before::Whole(old) => delete_whole(alloc, tx, table, relation, old),
        Before::Key(_) => Err(AssembleError::NoOldRow { oid }),
        Before::Absent => Err(AssembleError::NoOldRow { oid }),
    }
}

fn take_insert(
    alloc: Global,
    tables: &[Served],
    relations: &Relations,
    tx: &mut Tx,
    oid: u32,
    row: Fields,
) -> Result<(), AssembleError>
    requires few { length tables.now < 4294967296 }
    requires small { tx.old.bytes ≤ most_bytes }
    requires fits { Fits (messages.Insert oid row) }
    ensures { IsTaken result tx.old tx.new (taken_by tx.old (messages.Insert oid row) (target_of tables.now (map.get relations.now))) }
{
    let relation = relations.get(oid)?;
    match table_named(tables, &relation.ns, &relation.name) {
        Some(table) => insert(alloc, tx, table, relation, row),
        None => Ok(()),
    }
}

fn take_update(
    alloc: Global,
    tables: &[Served],
    relations: &Relations,
    tx: &mut Tx,
    oid: u32,
    before: Before,
    row: Fields,
) -> Result<(), AssembleError>
    requires few { length tables.now < 4294967296 }
    requires small { tx.old.bytes ≤ most_bytes }
    requires fits { Fits (messages.Update oid before row) }
    ensures { IsTaken result tx.old tx.new (taken_by tx.old (messages.Update oid before row) (target_of tables.now (map.get relations.now))) }
{
    let relation = relations.get(oid)?;
    match table_named(tables, &relation.ns, &relation.name) {
        Some(table) => update(alloc, tx, table, relation, oid, before, row),
        None => Ok(()),
    }
}

fn take_delete(
    alloc: Global,
    tables: &[Served],
    relations: &Relations,
    tx: &mut Tx,
    oid: u32,
    before: Before,
) -> Result<(), AssembleError>
    requires few { length tables.now < 4294967296 }
    requires small { tx.old.bytes ≤ most_bytes }
    requires fits { Fits (messages.Delete oid before) }
    ensures { IsTaken result tx.old tx.new (taken_by tx.old (messages.Delete oid before) (target_of tables.now (map.get relations.now))) }
{
    let relation = relations.get(oid)?;
    match table_named(tables, &relation.ns, &relation.name) {
        Some(table) => delete(alloc, tx, table, relation, oid, before),
        None => Ok(()),
    }
}

/// Whether this table is served. One without a relation is refused.
fn is_served(tables: &[Served], relations: &Relations, oid: u32) -> Result<bool, AssembleError>
    requires { length tables.now < 4294967296 }
    ensures { Gives result (served_under oid (target_of tables.now (map.get relations.now) oid)) }
{
    let relation = relations.get(oid)?;
    match table_named(tables, &relation.ns, &relation.name) {
        Some(_) => Ok(true),
        None => Ok(false),
    }
}

/// Whether one of these tables is served. The first one without a relation is refused.
fn is_one_served(
    tables: &[Served],
    relations: &Relations,
    oids: &[u32],
) -> Result<bool, AssembleError>
    requires { length tables.now < 4294967296 }
    ensures { Gives result (some_served (target_of tables.now (map.get relations.now)) oids.now) }
{
    let mut found = false;
    let mut rest = oids;
    while let [oid, others @ ..] = rest {
        if is_served(tables, relations, *oid)? {
            found = true;
        }
        rest = others;
    }
    Ok(found)
}

/// Adds a truncation of this table where it is served; or leaves the transaction as it was.
fn add_truncation(
    alloc: Global,
    tables: &[Served],
    relations: &Relations,
    tx: &mut Tx,
    oid: u32,
) -> Result<(), OutOfMemory>
    requires { length tables.now < 4294967296 }
    ensures ok { OnOk result (tx.new ≡ with_changes tx.old (truncation (target_of tables.now (map.get relations.now) oid))) }
    ensures err { OnErr result (tx.new ≡ tx.old) }
{
    match relations.get(oid) {
        Ok(relation) => match table_named(tables, &relation.ns, &relation.name) {
            Some(table) => add_change(alloc, tx, table, relation, ChangeKind::Truncate),
            None => Ok(()),
        },
        Err(_) => Ok(()),
    }
}

/// Adds a truncation of each of these tables that is served; or leaves the transaction with some of them more.
fn add_truncations(
    alloc: Global,
    tables: &[Served],
    relations: &Relations,
    tx: &mut Tx,
    oids: &[u32],
) -> Result<(), OutOfMemory>
    requires { length tables.now < 4294967296 }
    ensures ok { OnOk result (tx.new ≡ with_changes tx.old (truncations (target_of tables.now (map.get relations.now)) oids.now)) }
    ensures err { OnErr result (HasMore tx.old tx.new) }
{
    let mut rest = oids;
    while let [oid, others @ ..] = rest {
        add_truncation(alloc, tables, relations, tx, *oid)?;
        rest = others;
    }
    Ok(())
}

/// Adds a truncation of each of these tables that is served; or leaves the transaction as it was.
fn add_all_truncations(
    alloc: Global,
    tables: &[Served],
    relations: &Relations,
    tx: &mut Tx,
    oids: &[u32],
) -> Result<(), OutOfMemory>
    requires { length tables.now < 4294967296 }
    ensures ok { OnOk result (tx.new ≡ with_changes tx.old (truncations (target_of tables.now (map.get relations.now)) oids.now)) }
    ensures err { OnErr result (tx.new ≡ tx.old) }
{
    let defs = tx.defs.len();
    let changes = tx.changes.len();
    match add_truncations(alloc, tables, relations, tx, oids) {
        Ok(()) => Ok(()),
        Err(error) => {
            cut_back(alloc, tx, defs, changes);
            Err(error)
        }
    }
}

/// Takes a Truncate that names a served table, and tables with relations alone.
fn truncate(
    alloc: Global,
    tables: &[Served],
    relations: &Relations,
    tx: &mut Tx,
    oids: &[u32],
) -> Result<(), AssembleError>
    requires few { length tables.now < 4294967296 }
    requires small { tx.old.bytes ≤ most_bytes }
    requires fits { length oids.now < 4294967296 }
    ensures { IsTaken result tx.old tx.new (grown tx.old (6 + 4 * length oids.now) (truncations (target_of tables.now (map.get relations.now)) oids.now)) }
{
    let bytes = bytes_with(tx.bytes, 6 + 4 * oids.len() as u64)?;
    add_all_truncations(alloc, tables, relations, tx, oids)?;
    tx.bytes = bytes;
    Ok(())
}

fn take_truncate(
    alloc: Global,
    tables: &[Served],
    relations: &Relations,
    tx: &mut Tx,
    oids: &[u32],
) -> Result<(), AssembleError>
    requires few { length tables.now < 4294967296 }
    requires small { tx.old.bytes ≤ most_bytes }
    requires fits { length oids.now < 4294967296 }
    ensures { IsTaken result tx.old tx.new (next (truncated (target_of tables.now (map.get relations.now)) oids.now) (λ cs. grown tx.old (bytes_of_some (6 + 4 * length oids.now) cs) cs)) }
{
    match is_one_served(tables, relations, oids) {
        Ok(true) => truncate(alloc, tables, relations, tx, oids),
        Ok(false) => Ok(()),
        Err(error) => Err(error),
    }
}

/// Takes the changes of served tables that a message brings; or leaves the transaction as it was.
pub(crate) fn take(
    alloc: Global,
    tables: &[Served],
    relations: &Relations,
    tx: &mut Tx,
    message: Message,
) -> Result<(), AssembleError>
    requires few { length tables.now < 4294967296 }
    requires small { tx.old.bytes ≤ most_bytes }
    requires fits { Fits message }
    ensures { IsTaken result tx.old tx.new (taken_by tx.old message (target_of tables.now (map.get relations.now))) }
{
    match message {
        Message::Insert { oid, row } => take_insert(alloc, tables, relations, tx, oid, row),
        Message::Update { oid, before, row } => {
            take_update(alloc, tables, relations, tx, oid, before, row)
        }
        Message::Delete { oid, before } => take_delete(alloc, tables, relations, tx, oid, before),
        Message::Truncate { oids, .. } => {
            take_truncate(alloc, tables, relations, tx, oids.as_slice())
        }
        Message::Begin { .. } => Ok(()),
        Message::Logical { .. } => Ok(()),
        Message::Commit { .. } => Ok(()),
        Message::Origin { .. } => Ok(()),
        Message::Relation { .. } => Ok(()),
        Message::TypeName { .. } => Ok(()),
    }
}
