//! Transactions while they grow.
ghost use Rattle.std.specs.Prelude.{◌≡◌, ◌+◌, ◌<◌, ◌≤◌, nat_le, [], ◌∷◌, take, length, Some, None, OnOk, OnErr, IfOk};
ghost use Rattle.shape_base.specs.Tables.{same_def};
ghost use Rattle.tx_assembler.specs.Kept.{place_of_definition, with_change, with_change_at};
ghost use Rattle.tx_assembler.specs.Taking.{definition_at};

use relation_cache::Relation;
use shape_base::{Change, ChangeKind, Duplicate, OutOfMemory, Seq, TableDef, Tx};
use std::alloc::Global;
use std::mem;

/// Whether a definition is that of the served table in this place under this relation.
fn is_defined_so(definition: &TableDef, table: u32, relation: &Relation) -> bool
    ensures { result ≡ same_def definition.now (definition_at table relation.now) }
{
    definition.table == table
        && definition.oid == relation.oid
        && definition.columns == relation.columns
}

/// The place of the definition of a served table under a relation, where the transaction has it already.
fn place_of_definition(defs: &[TableDef], table: u32, relation: &Relation) -> Option<u64>
    ensures { result ≡ place_of_definition defs.now (definition_at table relation.now) }
{
    let mut place = 0;
    let mut rest = defs;
    while let [definition, others @ ..] = rest {
        if is_defined_so(definition, table, relation) {
            return Some(place);
        }
        place += 1;
        rest = others;
    }
    None
}

/// Adds a change under a definition that the transaction does not have yet; or leaves the transaction as it was.
fn add_defined(tx: &mut Tx, definition: TableDef, kind: ChangeKind) -> Result<(), OutOfMemory>
    ensures ok { OnOk result (tx.new ≡ with_change_at tx.old (record { definition = definition; kind = kind }) None) }
    ensures err { OnErr result (tx.new ≡ tx.old) }
{
    let place = tx.defs.len();
    let def = u32::try_from(place).map_err(|_| OutOfMemory)?;
    tx.defs.push(definition)?;
    match tx.changes.push(Change { def, kind }) {
        Ok(()) => Ok(()),
        Err(error) => {
            tx.defs.remove(place);
            Err(error)
        }
    }
}

/// Adds a change of the served table in this place, which came under this relation; or leaves the transaction as it was.
pub(crate) fn add_change(
    alloc: Global,
    tx: &mut Tx,
    table: u32,
    relation: &Relation,
    kind: ChangeKind,
) -> Result<(), OutOfMemory>
    ensures ok { OnOk result (tx.new ≡ with_change tx.old (record { definition = definition_at table relation.now; kind = kind })) }
    ensures err { OnErr result (tx.new ≡ tx.old) }
{
    match place_of_definition(tx.defs.as_slice(), table, relation) {
        Some(place) => {
            let def = u32::try_from(place).map_err(|_| OutOfMemory)?;
            tx.changes.push(Change { def, kind })
        }
        None => {
            let oid = relation.oid;
            let columns = relation.columns.copy(alloc)?;
            add_defined(
                tx,
                TableDef {
                    table,
                    oid,
                    columns,
                },
                kind,
            )
        }
    }
}

/// Takes the last items away, so that no more than so many are left.
fn cut<T: Drop>(alloc: Global, list: &mut Seq<T>, len: u64)
    ensures { list.new ≡ take len list.old }
{
    let mut items = mem::replace(list, Seq::new(alloc)).into_vec();
    items.truncate(len as usize);
    *list = Seq::from_vec(items);
}

/// Takes the last definitions and changes away, so that no more than so many are left.
pub(crate) fn cut_back(alloc: Global, tx: &mut Tx, defs: u64, changes: u64)
    ensures { tx.new ≡ record { xid = tx.old.xid; lsn = tx.old.lsn; end = tx.old.end; bytes = tx.old.bytes; defs = take defs tx.old.defs; changes = take changes tx.old.changes } }
{
    cut(alloc, &mut tx.defs, defs);
    cut(alloc, &mut tx.changes, changes);
}
