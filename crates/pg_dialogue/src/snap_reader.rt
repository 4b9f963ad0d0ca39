//! The dialogue of a snapshot, read without a link, from bytes that come in pieces.
ghost use Rattle.std.specs.Prelude.{◌≡◌, ◌⊎◌, ℕ, ◌+◌, ◌<◌, ◌≤◌, List, [], ◌++◌, length, drop, true, Ok, Some, None, OnOk, OnErr, IfOk, IfErr};
ghost use Rattle.pg_dialogue.specs.Dialogue.{noted};
ghost use Rattle.pg_dialogue.specs.Course.{course_of, Refused, is_said};
ghost use Rattle.pg_dialogue.specs.Reached.{InRange};
ghost use Rattle.pg_dialogue.specs.Pieces.{Given, nothing_given, with_answer, MayCome, IsFront, as_given, open_stand, Took, Awaits, IsWhole, opened, closed, turned, Stepped, StepRefused};

use crate::first::first_of;
use crate::login::SnapHead;
use crate::replies::reply;
use crate::wanted::{News, Told, Wanted};
use crate::wire_error::WireError;
use bytes::BytesMut;
use shape_base::{OutOfMemory, Row};
use std::alloc::Global;
use std::marker::Model;
use std::mem;

/// What a snapshot's dialogue gives, one after the other.
#[derive(Drop)]
pub enum SnapStep {
    /// What it says before its rows.
    Head(SnapHead),
    /// The next row of the table.
    Row(Row),
    /// That it is done.
    Done,
}

/// Which message comes next.
#[derive(Clone, Copy)]
enum Stage {
    /// The message of the opening in this place, from 0.
    Opening(usize),
    /// A row, or the end of the rows.
    Rows,
    /// The message behind the rows in this place, from 0.
    Closing(usize),
    /// None: the dialogue is done.
    Over,
}

/// What one message did.
#[derive(Drop)]
enum Turn {
    /// No whole message is there, or none is waited for.
    Open,
    /// It was taken, and gives this.
    Moved(Option<SnapStep>),
}

/// The messages up to the first row.
const OPENING: [Wanted; 9] = [
    Wanted::Authentication,
    Wanted::Started,
    Wanted::Completed,
    Wanted::Ready,
    Wanted::SnapshotColumn,
    Wanted::SnapshotText,
    Wanted::Completed,
    Wanted::Ready,
    Wanted::TableColumns,
];

/// The messages behind the rows.
const CLOSING: [Wanted; 3] = [Wanted::Ready, Wanted::Completed, Wanted::Ready];

/// The dialogue of a snapshot whose bytes come in pieces. It writes nothing: whoever holds the connection does.
///
/// A contract sees how far it was read.
#[derive(Drop)]
pub struct SnapReader {
    place: u64,
    bytes: BytesMut,
    stage: Stage,
    told: Told,
}

impl Model for SnapReader {
    ghost use Rattle.std.specs.Prelude.{◌<◌, ◌^◌, ◌+◌, length};
    ghost use Rattle.pg_dialogue.specs.Reached.{Reached, InRange};

    ghost Value = { Reached };

    ghost view = { λ r. record { place = r.place; rest = r.bytes.items; stage = r.stage; told = r.told } };

    ghost invariant = { λ r. (r.place + length r.bytes.items < 2 ^ 64) × InRange r.stage };
}

/// The message that comes next.
fn wanted_at(stage: Stage) -> Option<Wanted>
    requires { InRange stage }
    ensures { Awaits stage result }
{
    match stage {
        Stage::Opening(n) => Some(OPENING[n]),
        Stage::Rows => Some(Wanted::TableRow),
        Stage::Closing(n) => Some(CLOSING[n]),
        Stage::Over => None,
    }
}

impl SnapReader {
    /// The beginning of a dialogue.
    pub fn new(alloc: Global) -> SnapReader
        ensures { Took [] nothing_given result }
    {
        SnapReader {
            place: 0,
            bytes: BytesMut::new(alloc),
            stage: Stage::Opening(0),
            told: Told::nothing(alloc),
        }
    }

    /// The next bytes that the server sent, which are copied once; behind a dialogue that is done they are ignored. After 2^64 bytes no more are taken, as where memory runs out.
    pub fn feed(&mut self, piece: &[u8]) -> Result<(), OutOfMemory>
        // The bytes that were fed are those of the pieces.
        ensures took { OnOk result ((fed : List ℕ) (given : Given) → Took fed given self.old → Took (fed ++ piece.now) given self.new) }
        ensures err { OnErr result (self.new ≡ self.old) }
    {
        if let Stage::Over = self.stage {
            return Ok(());
        }
        let room = u64::MAX - (self.place + self.bytes.len() as u64);
        if room < piece.len() as u64 {
            return Err(OutOfMemory);
        }
        self.bytes.extend_from_slice(piece)?;
        Ok(())
    }

    fn pass(&mut self, size: usize)
        requires { size ≤ length self.old.rest }
        ensures { self.new ≡ record self.old { place = self.old.place + size; rest = drop size self.old.rest } }
    {
        self.bytes.advance(size);
        self.place += size as u64;
    }

    /// Goes on after the message of the opening in this place; gives the head once it was the last.
    fn open(&mut self, n: usize, news: News) -> Option<SnapStep>
        requires { n < 9 }
        ensures turned { result ≡ (opened n (noted self.old.told news)).step }
        ensures moved { self.new ≡ record self.old { stage = (opened n (noted self.old.told news)).stage; told = (opened n (noted self.old.told news)).told } }
    {
        self.told.note(news);
        if n + 1 != OPENING.len() {
            self.stage = Stage::Opening(n + 1);
            return None;
        }
        let alloc = *self.bytes.allocator();
        let told = mem::replace(&mut self.told, Told::nothing(alloc));
        let Told { head, row: _ } = told;
        self.stage = Stage::Rows;
        Some(SnapStep::Head(head))
    }

    /// Gives the row, or goes on behind the rows where there is none.
    fn take_row(&mut self, news: News) -> Option<SnapStep>
        ensures turned { result ≡ (turned Stage.Rows self.old.told news).step }
        ensures moved { self.new ≡ record self.old { stage = (turned Stage.Rows self.old.told news).stage; told = (turned Stage.Rows self.old.told news).told } }
    {
        let alloc = *self.bytes.allocator();
        let mut told = Told::nothing(alloc);
        told.note(news);
        let Told { head, row } = told;
        match row {
            Some(row) => {
                self.stage = Stage::Rows;
                Some(SnapStep::Row(row))
            }
            None => {
                self.told = Told { head, row: None };
                self.stage = Stage::Closing(0);
                None
            }
        }
    }

    /// Goes on after the message behind the rows in this place; the dialogue is done once it was the last.
    fn close(&mut self, n: usize, news: News) -> Option<SnapStep>
        requires { n < 3 }
        ensures turned { result ≡ (closed n (noted self.old.told news)).step }
        ensures moved { self.new ≡ record self.old { stage = (closed n (noted self.old.told news)).stage; told = (closed n (noted self.old.told news)).told } }
    {
        self.told.note(news);
        if n + 1 != CLOSING.len() {
            self.stage = Stage::Closing(n + 1);
            return None;
        }
        self.stage = Stage::Over;
        Some(SnapStep::Done)
    }

    /// Goes on after a message that was waited for, and what is given.
    fn turn(&mut self, news: News) -> Option<SnapStep>
        ensures turned { result ≡ (turned self.old.stage self.old.told news).step }
        ensures moved { self.new ≡ record self.old { stage = (turned self.old.stage self.old.told news).stage; told = (turned self.old.stage self.old.told news).told } }
    {
        match self.stage {
            Stage::Opening(n) => self.open(n, news),
            Stage::Rows => self.take_row(news),
            Stage::Closing(n) => self.close(n, news),
            Stage::Over => None,
        }
    }

    /// Takes this message, which stands first and is whole.
    fn take(&mut self, wanted: Wanted, kind: u8, size: usize) -> Result<Turn, WireError>
        requires awaited { Awaits self.old.stage (Some wanted) }
        requires whole { IsWhole self.old.rest kind size }
        ensures ok { IfOk result (λ t. Stepped self.old t self.new) }
        ensures kept { OnErr result (self.new ≡ self.old) }
        ensures err { IfErr result (λ e. StepRefused self.old e) }
    {
        let alloc = *self.bytes.allocator();
        let payload = &self.bytes.as_slice()[5..size];
        match reply(alloc, wanted, self.place, kind, payload) {
            Ok(None) => {
                self.pass(size);
                Ok(Turn::Moved(None))
            }
            Ok(Some(news)) => {
                self.pass(size);
                Ok(Turn::Moved(self.turn(news)))
            }
            Err(error) => Err(error),
        }
    }

    /// Takes the message that stands first, where it is whole.
    fn take_first(&mut self, wanted: Wanted) -> Result<Turn, WireError>
        requires { Awaits self.old.stage (Some wanted) }
        ensures ok { IfOk result (λ t. Stepped self.old t self.new) }
        ensures kept { OnErr result (self.new ≡ self.old) }
        ensures err { IfErr result (λ e. StepRefused self.old e) }
    {
        match first_of(self.place, self.bytes.as_slice()) {
            Ok(Some((kind, size))) => self.take(wanted, kind, size),
            Ok(None) => Ok(Turn::Open),
            Err(error) => Err(error),
        }
    }

    /// Takes the message that stands first, where it is whole and one is waited for.
    fn step(&mut self) -> Result<Turn, WireError>
        ensures ok { IfOk result (λ t. Stepped self.old t self.new) }
        ensures over { self.old.stage ≡ Stage.Over → result ≡ Ok Turn.Open }
        ensures kept { OnErr result (self.new ≡ self.old) }
        ensures err { IfErr result (λ e. StepRefused self.old e) }
    {
        match wanted_at(self.stage) {
            Some(wanted) => self.take_first(wanted),
            None => Ok(Turn::Open),
        }
    }

    /// What the dialogue gives next: its head once, then each row, then once that it is done. `None` exactly where no more of it stands in what was fed, and after it is done. After a refusal the same
    /// comes again.
    ///
    /// The refusals are those of the server's messages: `ErrorResponse`, `BadReply`, `AuthWanted` and `NotUtf8`, each with the place of the message's first byte in all that was fed.
    pub fn next(&mut self) -> Result<Option<SnapStep>, WireError>
        // However the bytes were cut: what is given is a front of the course of all that was fed, and of whatever is fed behind.
        ensures took { (fed : List ℕ) (given : Given) → Took fed given self.old → Took fed (with_answer given result) self.new }
        ensures front { (fed more : List ℕ) (given : Given) → Took fed given self.old → IsFront (with_answer given result) (course_of (fed ++ more)) }
        ensures order { IfOk result (λ step. (fed : List ℕ) (given : Given) → Took fed given self.old → MayCome given step) }
        // `None`: the course of all that was fed is what was given, and wants more, or is done.
        ensures whole { result ≡ Ok None → (fed : List ℕ) (given : Given) → Took fed given self.old → course_of fed ≡ as_given given (open_stand given.done (length fed)) }
        ensures over { (fed : List ℕ) (given : Given) → Took fed given self.old → given.done ≡ true → result ≡ Ok None }
        // A refusal is that of the course, whatever is fed behind.
        ensures refused { IfErr result (λ e. (e ≡ WireError.OutOfMemory) ⊎ ((fed more : List ℕ) (given : Given) → Took fed given self.old → course_of (fed ++ more) ≡ as_given given (Refused e))) }
        ensures said { IfErr result (λ e. (e ≡ WireError.OutOfMemory) ⊎ (is_said e ≡ true)) }
    {
        'messages: loop {
            match self.step() {
                Ok(Turn::Open) => return Ok(None),
                Ok(Turn::Moved(None)) => {}
                Ok(Turn::Moved(Some(step))) => return Ok(Some(step)),
                Err(error) => return Err(error),
            }
        }
    }
}
