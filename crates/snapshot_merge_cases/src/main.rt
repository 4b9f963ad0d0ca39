//! Reads lines that hold texts of snapshots or transactions that wait for one, and prints what `snapshot_merge` answers: a table of its cases.
//!
//! | Line | What is printed |
//! |---|---|
//! | `read 10:20:10,14` | the parts of the text, or the place from which on it is refused |
//! | `visible 10:20:10,14 9 10 11` | of each id of 32 bits whether it is visible, `y` or `n` |
//! | `pending 100 60 40 1` | of transactions with so many bytes, numbered from 1, under that limit: whether each is kept; then those that waited, in order |
#![tactic(auto)]

use cases::{Answers, answer_lines, cut};
use shape_base::{Changes, OutOfMemory, TableDefs, Tx};
use snapshot_merge::{Pending, PendingError, Vis, VisError};
use std::alloc::Global;
use std::io;

/// The parts of a text.
fn read_line(alloc: Global, text: &str) -> Result<String, OutOfMemory> {
    match Vis::read(alloc, text.as_bytes()) {
        Ok(vis) => {
            let mut out = format!(in alloc; "xmin {} xmax {} listed", vis.xmin(), vis.xmax())?;
            for id in vis.listed() {
                write!(out, " {id}")?;
            }
            Ok(out)
        }
        Err(VisError::BadSnapshot { place }) => Ok(format!(in alloc; "bad_snapshot {place}")?),
        Err(VisError::OutOfMemory) => Err(OutOfMemory),
    }
}

/// Which of the ids are visible.
fn visible_line(alloc: Global, text: &str, ids: &str) -> Result<String, OutOfMemory> {
    let mut out = String::new(alloc);
    let Ok(vis) = Vis::read(alloc, text.as_bytes()) else {
        return Err(OutOfMemory);
    };
    for id in ids.split(' ') {
        match id.parse::<u32>() {
            Ok(id) => out.push(if vis.visible(id) { 'y' } else { 'n' })?,
            Err(_) => out.push('?')?,
        }
    }
    Ok(out)
}

fn tx_of(alloc: Global, xid: u32, bytes: u64) -> Tx {
    Tx {
        xid,
        lsn: 0,
        end: 0,
        bytes,
        defs: TableDefs::new(alloc),
        changes: Changes::new(alloc),
    }
}

/// Puts a transaction to the others, and adds what is answered to a line.
fn push(
    alloc: Global,
    out: &mut String,
    pending: &mut Pending,
    xid: u32,
    bytes: u64,
) -> Result<(), OutOfMemory> {
    match pending.push(&tx_of(alloc, xid, bytes)) {
        Ok(()) => {
            out.push_str("kept; ")?;
            Ok(())
        }
        Err(PendingError::PendingFull { bytes, limit }) => {
            write!(out, "pending_full {bytes} {limit}; ")?;
            Ok(())
        }
        Err(PendingError::OutOfMemory) => Err(OutOfMemory),
    }
}

/// Which transactions are kept.
fn pending_line(alloc: Global, limit: &str, sizes: &str) -> Result<String, OutOfMemory> {
    let mut out = String::new(alloc);
    let mut pending = Pending::new(alloc, limit.parse::<u64>().unwrap_or(0));
    let mut xid = 0u32;
    for size in sizes.split(' ') {
        xid = xid.wrapping_add(1);
        push(
            alloc,
            &mut out,
            &mut pending,
            xid,
            size.parse::<u64>().unwrap_or(0),
        )?;
    }
    out.push_str("waited")?;
    for tx in pending.drain().as_slice() {
        let xid = tx.xid;
        write!(out, " {xid}")?;
    }
    Ok(out)
}

#[derive(Drop)]
struct SnapshotCases;

impl Answers for SnapshotCases {
    fn answer(&mut self, alloc: Global, line: &str) -> Result<Option<String>, OutOfMemory> {
        let (word, rest) = cut(line, ' ');
        let (first, others) = cut(rest, ' ');
        let answer = match word {
            "read" => read_line(alloc, rest)?,
            "visible" => visible_line(alloc, first, others)?,
            "pending" => pending_line(alloc, first, others)?,
            _ => format!(in alloc; "no such line")?,
        };
        Ok(Some(answer))
    }
}

fn main(rt: HostRuntime) -> io::Result<()> {
    answer_lines(&rt, &mut SnapshotCases)
}
