//! What snapshots under way show.
ghost use Rattle.std.specs.Prelude.{◌≡◌, ◌++◌, ◌∷◌, [], List, map, IfOk, OnOk, decimal};
ghost use Rattle.std.specs.List.{list_any};
ghost use Rattle.std.specs.Option.{option_copied};
ghost use Rattle.shape_base.specs.declared.value.Value.TheVariants.{Words};
ghost use Rattle.drill_work.specs.Notes.{has_note, note_of, noted_one, noted, note_for, vis_text, column, columns, row_of, rows_of, snapshot_of, given_one, given};

use crate::drill::Drill;
use crate::fields::letter_text;
use crate::messages::{Events, TABLE_OID};
use crate::plain::{Item, Items};
use core_events::Event;
use pg_dialogue::SnapHead;
use shape_base::{Column, Columns, Duplicate, OutOfMemory, Row, Rows, Seq, Text, Value};
use std::alloc::Global;

/// What a snapshot under way shows: the rows, and the transactions before this id.
#[derive(Drop)]
pub struct Note {
    /// The exchange that owns the snapshot.
    pub exchange: u32,
    pub shown: u64,
    pub rows: Items,
}

/// Notes, in the order in which they were taken.
pub type Notes = Seq<Note>;

/// Numbers of exchanges.
pub type Exchanges = Seq<u32>;

impl Duplicate for Item {
    fn copy(&self, _alloc: Global) -> Result<Item, OutOfMemory> {
        Ok(*self)
    }
}

fn has_note(notes: &Notes, exchange: u32) -> bool
    ensures { result ≡ has_note notes.now exchange }
{
    for note in notes.as_slice() {
        if note.exchange == exchange {
            return true;
        }
    }
    false
}

/// A note of the present table, and of all commits that were made.
fn note_of(alloc: Global, drill: &Drill, exchange: u32) -> Result<Note, OutOfMemory>
    ensures { IfOk result (λ note. note ≡ note_of drill.now exchange) }
{
    Ok(Note {
        exchange,
        shown: 1_000 + u64::from(drill.commits),
        rows: drill.plain.rows.copy(alloc)?,
    })
}

/// Takes a note for one snapshot under way, where there is none.
fn note_one(
    alloc: Global,
    drill: &Drill,
    notes: &mut Notes,
    exchange: u32,
) -> Result<(), OutOfMemory>
    ensures { OnOk result (notes.new ≡ noted_one drill.now notes.old exchange) }
{
    if has_note(notes, exchange) {
        return Ok(());
    }
    notes.push(note_of(alloc, drill, exchange)?)?;
    Ok(())
}

/// Takes a note for each snapshot under way that has none.
pub fn take_notes(
    alloc: Global,
    drill: &Drill,
    notes: &mut Notes,
    under_way: &Exchanges,
) -> Result<(), OutOfMemory>
    ensures { OnOk result (notes.new ≡ noted drill.now notes.old under_way.now) }
{
    for exchange in under_way.as_slice() {
        note_one(alloc, drill, notes, *exchange)?;
    }
    Ok(())
}

fn words(alloc: Global, text: &str) -> Result<Value, OutOfMemory>
    ensures { IfOk result (λ value. value ≡ Words text.now) }
{
    Ok(Value::Words(Text::of(alloc, text)?))
}

fn number_words(alloc: Global, number: u64) -> Result<Value, OutOfMemory>
    ensures { IfOk result (λ value. value ≡ Words (decimal number)) }
{
    let mut digits = itoa::Buffer::new();
    words(alloc, digits.format(number))
}

/// A row, as a snapshot has it.
fn row_of(alloc: Global, item: &Item) -> Result<Row, OutOfMemory>
    ensures { IfOk result (λ row. row ≡ row_of item.now) }
{
    let mut row = Seq::new(alloc);
    row.push(number_words(alloc, item.id)?)?;
    row.push(number_words(alloc, item.n)?)?;
    row.push(words(alloc, letter_text(item.letter))?)?;
    Ok(row)
}

fn rows_of(alloc: Global, items: &Items) -> Result<Rows, OutOfMemory>
    ensures { IfOk result (λ rows. rows ≡ rows_of items.now) }
{
    let mut rows = Seq::new(alloc);
    for item in items.as_slice() {
        rows.push(row_of(alloc, item)?)?;
    }
    Ok(rows)
}

/// The text of a snapshot that shows each transaction before this id, and no other.
fn vis_text(alloc: Global, shown: u64) -> Result<Text, OutOfMemory>
    ensures { IfOk result (λ text. text ≡ vis_text shown) }
{
    let mut digits = itoa::Buffer::new();
    let number = digits.format(shown);
    let mut text = String::new(alloc);
    text.push_str(number)?;
    text.push_str(":")?;
    text.push_str(number)?;
    text.push_str(":")?;
    Ok(Text::from_string(text))
}

fn column(alloc: Global, name: &str, oid: u32) -> Result<Column, OutOfMemory>
    ensures { IfOk result (λ made. made ≡ column name.now oid) }
{
    let name = Text::of(alloc, name)?;
    Ok(Column { name, oid })
}

/// The columns of the table.
pub fn columns(alloc: Global) -> Result<Columns, OutOfMemory>
    ensures { IfOk result (λ all. all ≡ columns) }
{
    let mut all = Seq::new(alloc);
    all.push(column(alloc, "id", 23)?)?;
    all.push(column(alloc, "n", 23)?)?;
    all.push(column(alloc, "s", 25)?)?;
    Ok(all)
}

fn snapshot_of(alloc: Global, note: &Note) -> Result<Event, OutOfMemory>
    ensures { IfOk result (λ event. event ≡ snapshot_of note.now) }
{
    let head = SnapHead {
        vis: vis_text(alloc, note.shown)?,
        oid: TABLE_OID,
        columns: columns(alloc)?,
    };
    let rows = rows_of(alloc, &note.rows)?;
    Ok(Event::Snapshot {
        exchange: note.exchange,
        head,
        rows,
    })
}

/// The first note of a snapshot.
fn note_for(notes: &Notes, exchange: u32) -> Option<&Note>
    ensures { option_copied result ≡ note_for exchange notes.now }
{
    for note in notes.as_slice() {
        if note.exchange == exchange {
            return Some(note);
        }
    }
    None
}

fn push_given(
    alloc: Global,
    events: &mut Events,
    notes: &Notes,
    exchange: u32,
) -> Result<(), OutOfMemory>
    ensures { OnOk result (events.new ≡ events.old ++ given_one notes.now exchange) }
{
    match note_for(notes, exchange) {
        None => Ok(()),
        Some(note) => {
            events.push(snapshot_of(alloc, note)?)?;
            Ok(())
        }
    }
}

/// Gives each snapshot under way its rows, and then sets the clock.
pub fn given(
    alloc: Global,
    notes: &Notes,
    under_way: &Exchanges,
    now: u64,
) -> Result<Events, OutOfMemory>
    ensures { IfOk result (λ events. events ≡ given notes.now under_way.now now) }
{
    let mut events = Seq::new(alloc);
    for exchange in under_way.as_slice() {
        push_given(alloc, &mut events, notes, *exchange)?;
    }
    events.push(Event::Moment { now })?;
    Ok(events)
}
