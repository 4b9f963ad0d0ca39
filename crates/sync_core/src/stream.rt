//! The stream: its frames, its messages and its transactions.
ghost use Rattle.std.specs.Prelude.{◌≡◌, ◌++◌, [], ◌∷◌, List, ℕ, false, None, IfSome, IfOk, OnOk};
ghost use Rattle.shape_base.specs.declared.served.Served.{Served};
ghost use Rattle.pg_wire.specs.declared.frame.Frame.{Frame};
ghost use Rattle.pg_wire.specs.Cutting.{Took};
ghost use Rattle.pgout.specs.Grammar.{Fits};
ghost use Rattle.pgout.specs.declared.message.Message.{Message};
ghost use Rattle.tx_assembler.specs.Stream.{HasTaken};
ghost use Rattle.sync_core.specs.Stream as spec;
ghost use Rattle.sync_core.specs.Stream.{item_of, begun, anew, with_piece, assembly_name, frame_fault, Sent, Framed};
ghost use Rattle.sync_core.specs.Streaming.{HasCome, Stands, TakesItem, TakesFrame, Receives, AreWhole, AreOfServed, BringsServed, txs_in, txs_of, refusal_in, later_refusal};

use pg_wire::{Frame, FrameError, Frames};
use pgout::{Message, MessageError, read_message};
use shape_base::{OutOfMemory, Text, Tx, Txs};
use std::alloc::Global;
use tx_assembler::{AssembleError, Assembler, Fed};

/// How far the stream has come.
#[derive(Drop)]
pub struct Stream {
    /// The bytes that were not taken.
    pub frames: Frames,
    pub assembler: Assembler,
    /// How many messages came since it began.
    pub count: u64,
    /// Whether it ended or was refused since it began.
    pub over: bool,
}

/// Why the stream was refused: the name, and the place of the frame or the number of the message.
#[derive(Drop)]
pub struct Refusal {
    pub name: Text,
    pub place: u64,
}

/// What a message or a frame led to.
#[derive(Drop)]
pub enum Outcome {
    /// Nothing yet.
    Nothing,
    /// A transaction ended.
    Commit(Tx),
    /// The stream ended.
    Ended,
    /// The stream was refused.
    Refused(Refusal),
}

/// What a record of the stream led to.
#[derive(Drop)]
pub struct Brought {
    pub txs: Txs,
    pub refusal: Option<Refusal>,
}

/// The name of a refusal; want of memory is none.
fn name_of(error: AssembleError) -> Option<&'static str>
    ensures name { IfSome result (λ name. name.now ≡ assembly_name error) }
    ensures refusal { IfSome result (λ _. error ≡ AssembleError.OutOfMemory → ⊥) }
{
    match error {
        AssembleError::OutOfOrder { .. } => Some("out_of_order"),
        AssembleError::LsnMismatch { .. } => Some("lsn_mismatch"),
        AssembleError::UnknownRelation { .. } => Some("unknown_relation"),
        AssembleError::NoOldRow { .. } => Some("no_old_row"),
        AssembleError::WrongWidth { .. } => Some("wrong_width"),
        AssembleError::BinaryColumn { .. } => Some("binary_column"),
        AssembleError::UnsentValue { .. } => Some("unsent_value"),
        AssembleError::NotUtf8 { .. } => Some("not_utf8"),
        AssembleError::TxTooLarge { .. } => Some("tx_too_large"),
        AssembleError::OutOfMemory => None,
    }
}

fn named(alloc: Global, name: &str, place: u64) -> Result<Refusal, OutOfMemory>
    ensures { IfOk result (λ r. r ≡ record { name = name.now; place = place }) }
{
    let name = Text::of(alloc, name)?;
    Ok(Refusal { name, place })
}

/// The refusal of a frame.
fn frame_refusal(alloc: Global, error: FrameError) -> Result<Refusal, OutOfMemory>
    ensures fault { IfOk result (λ r. r ≡ record { name = (frame_fault error).name; place = (frame_fault error).place }) }
    ensures refusal { IfOk result (λ _. error ≡ FrameError.OutOfMemory → ⊥) }
{
    match error {
        FrameError::BadFrame { place } => named(alloc, "bad_frame", place),
        FrameError::FrameTooLong { place, .. } => named(alloc, "frame_too_long", place),
        FrameError::ServerError { place, .. } => named(alloc, "server_error", place),
        FrameError::OutOfMemory => Err(OutOfMemory),
    }
}

impl Brought {
    fn nothing(alloc: Global) -> Brought
        ensures { result ≡ record { txs = []; refusal = None } }
    {
        Brought {
            txs: Txs::new(alloc),
            refusal: None,
        }
    }

    /// Adds what came.
    fn add(&mut self, outcome: Outcome) -> Result<(), OutOfMemory>
        ensures { OnOk result (self.new ≡ record { txs = self.old.txs ++ txs_in outcome; refusal = later_refusal self.old.refusal (refusal_in outcome) }) }
    {
        match outcome {
            Outcome::Nothing => Ok(()),
            Outcome::Commit(tx) => self.txs.push(tx),
            Outcome::Ended => Ok(()),
            Outcome::Refused(refusal) => {
                self.refusal = Some(refusal);
                Ok(())
            }
        }
    }
}

impl Stream {
    /// A stream of which nothing came.
    pub fn new(alloc: Global, assembler: Assembler) -> Stream
        ensures { (tables : List Served) → HasTaken tables [] [] assembler → Stands tables result begun }
    {
        Stream {
            frames: Frames::new(alloc),
            assembler,
            count: 0,
            over: false,
        }
    }

    /// The stream begins anew.
    pub fn begin_anew(&mut self, alloc: Global)
        ensures { (tables : List Served) (s : spec.Stream) → Stands tables self.old s → Stands tables self.new (anew s) }
    {
        self.frames = Frames::new(alloc);
        self.assembler.reopen();
        self.count = 0;
        self.over = false;
    }

    /// Takes a message.
    fn feed(&mut self, alloc: Global, message: Message) -> Result<Outcome, OutOfMemory>
        requires fits { Fits message }
        requires goes { self.old.over ≡ false }
        ensures takes { (tables : List Served) (s : spec.Stream) → HasCome tables self.old s → IfOk result (λ outcome. TakesItem tables s (spec.Read message) outcome self.new) }
        ensures whole { IfOk result (λ outcome. AreWhole (txs_in outcome)) }
        ensures served { IfOk result (λ outcome. AreOfServed self.old.assembler.tables (txs_in outcome)) }
        ensures frames { self.new.frames ≡ self.old.frames }
    {
        let Some(next) = self.count.checked_add(1) else {
            return Err(OutOfMemory);
        };
        match self.assembler.feed(message) {
            Ok(Fed::Nothing) => {
                self.count = next;
                Ok(Outcome::Nothing)
            }
            Ok(Fed::Tx(tx)) => {
                self.count = next;
                Ok(Outcome::Commit(tx))
            }
            Ok(Fed::Repeat { .. }) => {
                self.count = next;
                Ok(Outcome::Nothing)
            }
            Err(error) => {
                let Some(name) = name_of(error) else {
                    return Err(OutOfMemory);
                };
                self.over = true;
                Ok(Outcome::Refused(named(alloc, name, self.count)?))
            }
        }
    }

    /// Takes the bytes of a message.
    fn take_message(&mut self, alloc: Global, bytes: &[u8]) -> Result<Outcome, OutOfMemory>
        requires { self.old.over ≡ false }
        ensures takes { (tables : List Served) (s : spec.Stream) → HasCome tables self.old s → IfOk result (λ outcome. TakesItem tables s (item_of bytes.now) outcome self.new) }
        ensures whole { IfOk result (λ outcome. AreWhole (txs_in outcome)) }
        ensures served { IfOk result (λ outcome. AreOfServed self.old.assembler.tables (txs_in outcome)) }
        ensures frames { self.new.frames ≡ self.old.frames }
    {
        match read_message(alloc, bytes) {
            Ok(message) => self.feed(alloc, message),
            Err(MessageError::OutOfMemory) => Err(OutOfMemory),
            Err(MessageError::BadMessage { .. }) => {
                self.over = true;
                Ok(Outcome::Refused(named(alloc, "bad_message", self.count)?))
            }
        }
    }

    /// Takes the next frame, where there is a whole one.
    fn take_frame(&mut self, alloc: Global) -> Result<Option<Outcome>, OutOfMemory>
        requires { self.old.over ≡ false }
        ensures takes { (tables : List Served) (s : spec.Stream) (fed : List ℕ) (taken : List Frame) → HasCome tables self.old s → Took fed taken self.old.frames → IfOk result (λ outcome. TakesFrame tables s fed taken outcome self.new) }
        ensures whole { IfOk result (λ outcome. AreWhole (txs_of outcome)) }
        ensures served { IfOk result (λ outcome. AreOfServed self.old.assembler.tables (txs_of outcome)) }
    {
        match self.frames.next() {
            Ok(None) => Ok(None),
            Ok(Some(Frame::Wal { message, .. })) => {
                let outcome = self.take_message(alloc, message.as_slice())?;
                Ok(Some(outcome))
            }
            Ok(Some(Frame::Keepalive { .. })) => Ok(Some(Outcome::Nothing)),
            Ok(Some(Frame::Done)) => {
                self.over = true;
                Ok(Some(Outcome::Ended))
            }
            Err(error) => {
                self.over = true;
                let refusal = frame_refusal(alloc, error)?;
                Ok(Some(Outcome::Refused(refusal)))
            }
        }
    }

    /// Takes one message of the stream; where the stream is over it is passed over.
    pub fn receive_message(&mut self, alloc: Global, bytes: &[u8]) -> Result<Brought, OutOfMemory>
        ensures receives { (tables : List Served) (s : spec.Stream) → Stands tables self.old s → IfOk result (λ brought. Receives tables s (with_piece tables s (Sent bytes.now)) brought self.new) }
        ensures whole { IfOk result (λ brought. AreWhole brought.txs) }
        ensures served { IfOk result (λ brought. BringsServed self.old brought.txs) }
    {
        if self.over {
            return Ok(Brought::nothing(alloc));
        }
        let outcome = self.take_message(alloc, bytes)?;
        let mut brought = Brought::nothing(alloc);
        brought.add(outcome)?;
        Ok(brought)
    }

    /// Takes the next bytes of frames; where the stream is over they are passed over.
    pub fn receive_frames(&mut self, alloc: Global, bytes: &[u8]) -> Result<Brought, OutOfMemory>
        ensures receives { (tables : List Served) (s : spec.Stream) → Stands tables self.old s → IfOk result (λ brought. Receives tables s (with_piece tables s (Framed bytes.now)) brought self.new) }
        ensures whole { IfOk result (λ brought. AreWhole brought.txs) }
        ensures served { IfOk result (λ brought. BringsServed self.old brought.txs) }
    {
        let mut brought = Brought::nothing(alloc);
        if self.over {
            return Ok(brought);
        }
        self.frames.feed(bytes)?;
        'frames: for _ in 0..u64::MAX {
            let Some(outcome) = self.take_frame(alloc)? else {
                return Ok(brought);
            };
            brought.add(outcome)?;
            if self.over {
                return Ok(brought);
            }
        }
        Err(OutOfMemory)
    }
}
