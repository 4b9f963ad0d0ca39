//! Standard input and output. They tell nothing of their bytes, and count their faults.
ghost use Rattle.std.specs.Prelude.{◌≡◌, ◌≤◌, length, IfSome, false, []};

use super::outside::{Failed, Sink, Source, Traffic};
use std::io::{Error, ErrorKind, Read, Write};

/// What is read from a reader of std.
#[derive(Drop)]
pub struct Input<R: Drop> {
    reader: R,
    faults: u64,
}

/// Whether a signal came in before the call did anything, so that it is to be made again.
fn is_interrupted(error: &Error) -> bool {
    error.kind() == ErrorKind::Interrupted
}

/// Reads bytes to the front of the room and answers how many; none where the reader failed.
fn read_front<R: Read>(reader: &mut R, room: &mut [u8]) -> Option<usize>
    ensures { IfSome result (λ n. n ≤ length room.new) }
{
    for _ in 0..u64::MAX {
        match reader.read(room) {
            Ok(count) => return Some(count),
            Err(error) => {
                if !is_interrupted(&error) {
                    return None;
                }
            }
        }
    }
    None
}

impl<R: Read + Drop> Input<R> {
    /// A source over this reader, without faults.
    pub fn new(reader: R) -> Input<R>
        ensures reader { result.reader ≡ reader }
        ensures faults { result.faults ≡ 0 }
    {
        Input { reader, faults: 0 }
    }
}

impl<R: Read + Drop> Traffic for Input<R> {
    ghost tells = { false };

    ghost given = { λ _. [] };

    ghost left = { λ _. [] };

    ghost written = { λ _. [] };

    ghost failed_reads = { λ s. s.faults };

    ghost failed_writes = { λ _. 0 };
}

impl<R: Read + Drop> Source for Input<R> {
    fn read(&mut self, room: &mut [u8]) -> Result<usize, Failed> {
        match read_front(&mut self.reader, room) {
            Some(count) => Ok(count),
            None => {
                self.faults = self.faults.saturating_add(1);
                Err(Failed)
            }
        }
    }
}

/// What is written to a writer of std.
#[derive(Drop)]
pub struct Output<W: Drop> {
    writer: W,
    faults: u64,
}

/// Writes a front of the piece and answers how many bytes it has; 0 where nothing more can be written.
fn write_front<W: Write>(writer: &mut W, piece: &[u8]) -> usize
    ensures { result ≤ length piece.now }
{
    for _ in 0..u64::MAX {
        match writer.write(piece) {
            Ok(count) => return count,
            Err(error) => {
                if !is_interrupted(&error) {
                    return 0;
                }
            }
        }
    }
    0
}

impl<W: Write + Drop> Output<W> {
    /// A sink over this writer, without faults.
    pub fn new(writer: W) -> Output<W>
        ensures writer { result.writer ≡ writer }
        ensures faults { result.faults ≡ 0 }
    {
        Output { writer, faults: 0 }
    }
}

impl<W: Write + Drop> Traffic for Output<W> {
    ghost tells = { false };

    ghost given = { λ _. [] };

    ghost left = { λ _. [] };

    ghost written = { λ _. [] };

    ghost failed_reads = { λ _. 0 };

    ghost failed_writes = { λ s. s.faults };
}

impl<W: Write + Drop> Sink for Output<W> {
    fn write_all(&mut self, piece: &[u8]) -> Result<(), Failed> {
        let mut rest = piece;
        while !rest.is_empty() {
            let count = write_front(&mut self.writer, rest);
            if count == 0 {
                self.faults = self.faults.saturating_add(1);
                return Err(Failed);
            }
            rest = &rest[count..];
        }
        Ok(())
    }
}
