//! Commits, read.
use cases::row_of;
use shape_base::{Change, ChangeKind, Changes, OutOfMemory, TableDef, TableDefs, Tx};
use std::alloc::Global;

/// A change: `+ROW`, `-ROW`, `ROW>ROW` or `truncate`.
fn kind_of(alloc: Global, text: &str) -> Result<ChangeKind, OutOfMemory> {
    if text == "truncate" {
        return Ok(ChangeKind::Truncate);
    }
    if let Some(row) = text.strip_prefix('+') {
        return Ok(ChangeKind::Insert {
            new: row_of(alloc, row, ' ')?,
        });
    }
    if let Some(row) = text.strip_prefix('-') {
        return Ok(ChangeKind::Delete {
            old: row_of(alloc, row, ' ')?,
        });
    }
    let (old, new) = cases::cut(text, '>');
    Ok(ChangeKind::Update {
        old: row_of(alloc, old, ' ')?,
        new: row_of(alloc, new, ' ')?,
    })
}

/// Changes with bars between them, all under one definition.
fn changes_of(alloc: Global, text: &str) -> Result<Changes, OutOfMemory> {
    let mut changes = Changes::new(alloc);
    if text.is_empty() {
        return Ok(changes);
    }
    for word in text.split('|') {
        let kind = kind_of(alloc, word)?;
        changes.push(Change { def: 0, kind })?;
    }
    Ok(changes)
}

/// A commit of ten bytes.
pub(crate) fn tx_of(
    alloc: Global,
    lsn: u64,
    xid: u32,
    definition: TableDef,
    changes: &str,
) -> Result<Tx, OutOfMemory> {
    let mut defs = TableDefs::new(alloc);
    defs.push(definition)?;
    let changes = changes_of(alloc, changes)?;
    Ok(Tx {
        xid,
        lsn,
        end: lsn,
        bytes: 10,
        defs,
        changes,
    })
}
