//! Reads lines that are calls on one shape, and prints what `shape_state` answers: a table of its cases.
//!
//! | Line | What is printed |
//! |---|---|
//! | `begin items 65536 - - - n > 10` | a new shape of that table, with the limits of its chunks, its log, all logs and its buffer (`-`: none), and that clause (none: each row) |
//! | `snap 1:1: 1 5 a;2 6 b` | what `ready` answers to a snapshot of that visibility with these rows |
//! | `c 100 5 0 +1 5 a\|1 5 a>2 5 a\|-2 5 a\|truncate` | what is prepared for the commit with that LSN, id and bytes of the other logs, of these changes; it is committed |
//! | `other 100 5 0 +1 5 a` | the same, under another OID |
//! | `page 0_1 live late` | the page after that offset, with the texts of its entries; `size` prints no texts |
//! | `stage`, `bytes`, `took`, `drop` | these of the shape; `drop` drops it as deleted |
#![tactic(auto)]

mod changes;
mod printing;
mod tables;
mod whole;

ghost use Rattle.std.specs.Prelude.{◌≡◌};

use cases::{Answers, answer_lines, cut, number_of, row_of};
use changes::tx_of;
use pg_dialogue::SnapHead;
use printing::{gone_words, paged_words, prepared_words, stage_words};
use shape_base::{Cause, Duplicate, Offset, OutOfMemory, RowTest, Text, Tx};
use shape_def::Def;
use shape_snapshot::Snap;
use shape_state::{ReadyError, Shape};
use std::alloc::Global;
use std::io;
use tables::{def_of, limits_of};
use whole::is_whole;

fn begin(alloc: Global, text: &str) -> Result<Shape<Def>, OutOfMemory> {
    let (table, rest) = cut(text, ' ');
    let (chunk, rest) = cut(rest, ' ');
    let (log, rest) = cut(rest, ' ');
    let (all, rest) = cut(rest, ' ');
    let (pending, clause) = cut(rest, ' ');
    let test = def_of(alloc, table, clause)?;
    Shape::begin(alloc, test, limits_of(chunk, log, all, pending))
}

/// Gives a snapshot rows.
fn fill(alloc: Global, snap: &mut Snap<Def>, rows: &str) -> Result<bool, OutOfMemory>
    ensures test { snap.new.emitter.test ≡ snap.old.emitter.test }
    ensures least { snap.new.kept.log.least ≡ snap.old.kept.log.least }
{
    if rows.is_empty() {
        return Ok(true);
    }
    for row in rows.split(';') {
        if snap.row(row_of(alloc, row, ' ')?).is_err() {
            return Ok(false);
        }
    }
    Ok(true)
}

/// Takes a snapshot.
fn take_snapshot(alloc: Global, shape: &mut Shape<Def>, text: &str) -> Result<String, OutOfMemory> {
    let (vis, rows) = cut(text, ' ');
    if !shape.is_unready() {
        return Ok(format!(in alloc; "not asked for")?);
    }
    let head = SnapHead {
        vis: Text::of(alloc, vis)?,
        oid: shape.test().definition().oid,
        columns: shape.test().definition().columns.copy(alloc)?,
    };
    let limits = shape.limits();
    let Ok(mut snap) = Snap::start(alloc, shape.test(), None, &head, &limits) else {
        return Ok(format!(in alloc; "refused")?);
    };
    if !fill(alloc, &mut snap, rows)? {
        return Ok(format!(in alloc; "refused")?);
    }
    match shape.ready(snap) {
        Ok(()) => Ok(format!(in alloc; "ok")?),
        Err(ReadyError::Gone { cause }) => gone_words(alloc, cause),
        Err(ReadyError::OutOfMemory) => Err(OutOfMemory),
    }
}

/// Takes a commit.
fn take(
    alloc: Global,
    shape: &mut Shape<Def>,
    tx: &Tx,
    others: u64,
) -> Result<String, OutOfMemory> {
    if !is_whole(tx) || !shape.is_later(tx.lsn) {
        return Ok(format!(in alloc; "no such commit")?);
    }
    let prepared = shape.prepare(tx, others)?;
    let words = prepared_words(alloc, &prepared)?;
    shape.commit(prepared);
    Ok(words)
}

/// Reads a commit, and takes it.
fn commit_line(
    alloc: Global,
    shape: &mut Shape<Def>,
    text: &str,
    added: u32,
) -> Result<String, OutOfMemory> {
    let (lsn, rest) = cut(text, ' ');
    let (xid, rest) = cut(rest, ' ');
    let (others, changes) = cut(rest, ' ');
    let mut definition = shape.test().definition().copy(alloc)?;
    definition.oid = definition.oid.saturating_add(added);
    let xid = xid.parse::<u32>().unwrap_or(0);
    let tx = tx_of(alloc, number_of(lsn), xid, definition, changes)?;
    take(alloc, shape, &tx, number_of(others))
}

fn page_line(
    alloc: Global,
    shape: &Shape<Def>,
    text: &str,
    texts: bool,
) -> Result<String, OutOfMemory> {
    let (offset, words) = cut(text, ' ');
    let Ok(offset) = Offset::read(offset.as_bytes()) else {
        return Ok(format!(in alloc; "no such offset")?);
    };
    let paged = shape.page(offset, words.starts_with("live"), words.ends_with("late"))?;
    paged_words(alloc, &paged, texts)
}

/// What a call on a shape answers.
fn call_line(
    alloc: Global,
    shape: &mut Shape<Def>,
    word: &str,
    rest: &str,
) -> Result<String, OutOfMemory> {
    match word {
        "snap" => take_snapshot(alloc, shape, rest),
        "c" => commit_line(alloc, shape, rest, 0),
        "other" => commit_line(alloc, shape, rest, 1),
        "page" => page_line(alloc, shape, rest, true),
        "size" => page_line(alloc, shape, rest, false),
        "stage" => stage_words(alloc, shape.stage()),
        "bytes" => Ok(format!(in alloc; "{}", shape.bytes())?),
        "took" => Ok(format!(in alloc; "{}", shape.took())?),
        "drop" => {
            shape.drop_with(Cause::Deleted);
            stage_words(alloc, shape.stage())
        }
        _ => Ok(format!(in alloc; "no such line")?),
    }
}

#[derive(Drop)]
struct ShapeCases {
    shape: Option<Shape<Def>>,
}

impl Answers for ShapeCases {
    fn answer(&mut self, alloc: Global, line: &str) -> Result<Option<String>, OutOfMemory> {
        let (word, rest) = cut(line, ' ');
        if word == "begin" {
            self.shape = Some(begin(alloc, rest)?);
            return Ok(None);
        }
        match &mut self.shape {
            Some(shape) => Ok(Some(call_line(alloc, shape, word, rest)?)),
            None => Ok(None),
        }
    }
}

fn main(rt: HostRuntime) -> io::Result<()> {
    answer_lines(&rt, &mut ShapeCases { shape: None })
}
