//! Relations from Relation messages.
ghost use Rattle.std.specs.Prelude.{◌≡◌, IfOk};
ghost use Rattle.tx_assembler.specs.Answers.{Gives};
ghost use Rattle.tx_assembler.specs.Rows.{namespace_of, columns_of, relation_of};

use super::answer::AssembleError;
use super::rows::text_of;
use pgout::ColumnsSent;
use relation_cache::Relation;
use shape_base::{Column, Columns, Octets, OutOfMemory};
use std::alloc::Global;

/// The namespace as the catalogue has it: an empty one stands for `pg_catalog`.
fn namespace_of(alloc: Global, ns: Octets) -> Result<Octets, OutOfMemory>
    ensures { IfOk result (λ made. made ≡ namespace_of ns) }
{
    if ns.len() == 0 {
        return Ok(Octets::from_vec(Vec::from_slice(alloc, b"pg_catalog")?));
    }
    Ok(ns)
}

fn columns_of(alloc: Global, columns: ColumnsSent) -> Result<Columns, AssembleError>
    ensures { Gives result (columns_of columns) }
{
    let mut made = Columns::new(alloc);
    for column in columns.into_vec() {
        let name = text_of(column.name)?;
        let oid = column.oid;
        made.push(Column { name, oid })?;
    }
    Ok(made)
}

/// The relation that a Relation message describes.
pub(crate) fn relation_of(
    alloc: Global,
    oid: u32,
    ns: Octets,
    name: Octets,
    columns: ColumnsSent,
) -> Result<Relation, AssembleError>
    ensures { Gives result (relation_of oid ns name columns) }
{
    let ns = text_of(namespace_of(alloc, ns)?)?;
    let name = text_of(name)?;
    let columns = columns_of(alloc, columns)?;
    Ok(Relation {
        oid,
        ns,
        name,
        columns,
    })
}
