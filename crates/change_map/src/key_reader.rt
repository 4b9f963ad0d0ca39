//! Key texts, read back into their parts.
ghost use Rattle.std.specs.Prelude.{ℕ, ◌≡◌, [], IfOk, IsErrOf, MatchOption};
ghost use Rattle.change_map.specs.Keys.{Parts, Spells, IsReadAs, IsKeyText, IsLongestFront, in_one};
ghost use Rattle.change_map.specs.Reading.{separator, read_so_far, IsReading, Takes};

use super::wanted::{Wanted, after, nothing};
use shape_base::{OutOfMemory, Text, Texts};
use std::alloc::{AllocError, Global};
use std::mem;

/// Why bytes are no key text.
#[derive(Clone, Copy, Debug, PartialEq, Eq)]
pub enum KeyTextError {
    /// No key text is these bytes; the place is the length of their longest prefix that begins one.
    BadKey { place: u64 },
    OutOfMemory,
}

impl From<OutOfMemory> for KeyTextError {
    ghost use Rattle.std.specs.Prelude.{◌≡◌};
    ghost use Rattle.change_map.specs.declared.key_reader.KeyTextError.TheVariants as errors;

    ghost from_gives = { λ _ e. e ≡ errors.OutOfMemory };

    fn from(_error: OutOfMemory) -> KeyTextError {
        KeyTextError::OutOfMemory
    }
}

/// Where a reader stands.
#[derive(Clone, Copy)]
enum Spot {
    /// Before the quote that begins a part.
    Before,
    /// Within a part, where its last character still wants these bytes.
    Within { wanted: Wanted },
    /// Behind a quote that ends a part, or is the first of two.
    Behind,
}

/// A reader of a key text.
#[derive(Drop)]
struct KeyReader {
    /// The parts that have ended.
    done: Vec<Text>,
    /// The bytes of the part that has not, each quote once.
    current: Vec<u8>,
    spot: Spot,
}

/// The byte that stands between the last of these parts and the part before which they stand.
fn separator(done: &[Text]) -> u8
    ensures { result ≡ separator done.now }
{
    match done {
        [] => b'.',
        [_, ..] => b'/',
    }
}

impl KeyReader {
    fn new(alloc: Global) -> KeyReader
        ensures reading { IsReading result }
        ensures none { read_so_far result ≡ [] }
    {
        KeyReader {
            done: Vec::new(alloc),
            current: Vec::new(alloc),
            spot: Spot::Before,
        }
    }

    /// Takes a byte before a part.
    fn take_before(&mut self, byte: u8) -> bool
        requires reading { IsReading self.old }
        requires before { self.old.spot ≡ Spot.Before }
        ensures { Takes self.old self.new byte result }
    {
        if byte != b'"' {
            return false;
        }
        self.spot = Spot::Within { wanted: nothing() };
        true
    }

    /// Takes a quote within a part. None stands within a character.
    fn take_quote(&mut self, wanted: Wanted) -> bool
        requires reading { IsReading self.old }
        requires within { self.old.spot ≡ Spot.Within wanted }
        ensures { Takes self.old self.new 34 result }
    {
        if wanted.left > 0 {
            return false;
        }
        self.spot = Spot::Behind;
        true
    }

    /// Takes a byte within a part.
    fn take_within(&mut self, wanted: Wanted, byte: u8) -> Result<bool, OutOfMemory>
        requires reading { IsReading self.old }
        requires within { self.old.spot ≡ Spot.Within wanted }
        ensures { IfOk result (Takes self.old self.new byte) }
    {
        if byte == b'"' {
            return Ok(self.take_quote(wanted));
        }
        let Some(wanted) = after(wanted, byte) else {
            return Ok(false);
        };
        self.current.push(byte)?;
        self.spot = Spot::Within { wanted };
        Ok(true)
    }

    /// Takes a byte behind a quote.
    fn take_behind(&mut self, alloc: Global, byte: u8) -> Result<bool, OutOfMemory>
        requires reading { IsReading self.old }
        requires behind { self.old.spot ≡ Spot.Behind }
        ensures { IfOk result (Takes self.old self.new byte) }
    {
        if byte == b'"' {
            self.current.push(b'"')?;
            self.spot = Spot::Within { wanted: nothing() };
            return Ok(true);
        }
        if byte != separator(self.done.as_slice()) {
            return Ok(false);
        }
        let part = mem::replace(&mut self.current, Vec::new(alloc));
        self.done.push(Text::of_bytes(part))?;
        self.spot = Spot::Before;
        Ok(true)
    }

    /// Takes a byte, unless no key text goes on with it.
    fn take(&mut self, alloc: Global, byte: u8) -> Result<bool, OutOfMemory>
        requires { IsReading self.old }
        ensures { IfOk result (Takes self.old self.new byte) }
    {
        match self.spot {
            Spot::Before => Ok(self.take_before(byte)),
            Spot::Within { wanted } => self.take_within(wanted, byte),
            Spot::Behind => self.take_behind(alloc, byte),
        }
    }

    /// The parts, where what has been read is a key text, and else none.
    fn finish(self) -> Result<Option<Texts>, OutOfMemory>
        requires { IsReading self }
        ensures { IfOk result (λ parts. MatchOption parts (¬ (IsKeyText (read_so_far self))) (λ texts. IsReadAs (read_so_far self) texts)) }
    {
        let Spot::Behind = self.spot else {
            return Ok(None);
        };
        let mut parts = self.done;
        if parts.len() < 2 {
            return Ok(None);
        }
        parts.push(Text::of_bytes(self.current))?;
        Ok(Some(Texts::from_vec(parts)))
    }
}

/// The parts of a key text: its namespace, its table and its key values, of which there is at
/// least one.
///
/// Refuses `BadKey` exactly where no key text is these bytes; the place is the length of their
/// longest prefix that begins one. A character that breaks off at the end of a prefix still begins
/// one.
pub fn read_key(alloc: Global, text: &[u8]) -> Result<Texts, KeyTextError>
    ensures read { IfOk result (IsReadAs text.now) }
    ensures refused { (place : ℕ) → IsErrOf result (KeyTextError.BadKey place) → ¬ (IsKeyText text.now) × IsLongestFront text.now place }
    ensures back { (p : Parts) → Spells p text.now → IfOk result (λ texts. texts ≡ in_one p) }
{
    let mut reader = KeyReader::new(alloc);
    for (place, byte) in text.iter().enumerate() {
        if !reader.take(alloc, *byte)? {
            let place = place as u64;
            return Err(KeyTextError::BadKey { place });
        }
    }
    match reader.finish()? {
        Some(parts) => Ok(parts),
        None => Err(KeyTextError::BadKey {
            place: text.len() as u64,
        }),
    }
}
