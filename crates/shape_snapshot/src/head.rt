//! What a snapshot says before its rows.
ghost use Rattle.std.specs.Prelude.{◌≡◌, ◌⊎◌, true, false, Ok, Err, IfOk, IfErr, OnOk};
ghost use Rattle.shape_base.specs.Visibility.{Visibility};
ghost use Rattle.shape_snapshot.specs.Refusals.{seen_of, is_defined_so, definition_got, fresh_of, IsRefusal};
ghost use Rattle.shape_snapshot.specs.declared.faults.SnapError.TheVariants as errors;

use crate::faults::SnapError;
use pg_dialogue::SnapHead;
use shape_base::{Duplicate, TableDef, are_same_defs};
use snapshot_merge::{Vis, VisError};
use std::alloc::Global;

/// Which transactions the snapshot shows. `BadSnapshot` exactly where the text of that cannot be read.
pub(crate) fn read_visibility(alloc: Global, head: &SnapHead) -> Result<Vis, SnapError>
    ensures ok { IfOk result (λ vis. seen_of head.now ≡ Ok vis) }
    ensures err { IfErr result (IsRefusal (seen_of head.now)) }
{
    match Vis::read(alloc, head.vis.as_bytes()) {
        Ok(vis) => Ok(vis),
        Err(VisError::BadSnapshot { place }) => Err(SnapError::BadSnapshot { place }),
        Err(VisError::OutOfMemory) => Err(SnapError::OutOfMemory),
    }
}

/// `DefinitionChanged` exactly where the snapshot's OID or columns are not the definition's.
pub(crate) fn check_definition(
    alloc: Global,
    have: &TableDef,
    head: &SnapHead,
) -> Result<(), SnapError>
    ensures ok { OnOk result (is_defined_so have.now head.now ≡ true) }
    ensures err { IfErr result (λ e. (e ≡ errors.OutOfMemory) ⊎ (is_defined_so have.now head.now ≡ false) × (e ≡ errors.DefinitionChanged have.now (definition_got have.now head.now))) }
{
    let got = TableDef {
        table: have.table,
        oid: head.oid,
        columns: head.columns.copy(alloc)?,
    };
    if are_same_defs(have, &got) {
        return Ok(());
    }
    let have = have.copy(alloc)?;
    Err(SnapError::DefinitionChanged { have, got })
}

/// `Stale` exactly where a transaction was taken before and is not visible.
pub(crate) fn check_last(vis: &Vis, last: Option<u32>) -> Result<(), SnapError>
    ensures ok { OnOk result (fresh_of last vis.now ≡ Ok vis.now) }
    ensures err { IfErr result (λ e. fresh_of last vis.now ≡ Err e) }
{
    let Some(last) = last else {
        return Ok(());
    };
    if vis.visible(last) {
        return Ok(());
    }
    Err(SnapError::Stale {
        last,
        xmax: vis.xmax(),
    })
}
