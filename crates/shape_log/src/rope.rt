//! Bytes that grow at their end, of which those that were frozen are shared and not copied.
ghost use Rattle.std.specs.Prelude.{◌≡◌, ℕ, ◌+◌, ◌-◌, ◌<◌, ◌≤◌, ◌^◌, min, List, [], ◌++◌, length, max, IsOk, IfOk, IfSome, OnOk, OnErr, slice_range, slice_index_or};
ghost use Rattle.shape_log.specs.Roped.{flat, ArePlaced};

use bytes::{Bytes, BytesMut};
use shape_base::OutOfMemory;
use std::alloc::Global;
use std::marker::Model;

/// A frozen part.
#[derive(Drop)]
pub(crate) struct Part {
    /// The place of its first byte.
    start: u64,
    bytes: Bytes,
}

/// A rope: frozen parts, and the last one, which grows. Contracts see all bytes.
#[derive(Drop)]
pub(crate) struct Rope {
    parts: Vec<Part>,
    /// The place of the last part's first byte.
    start: u64,
    last: BytesMut,
    /// For how many bytes more there is room.
    room: u64,
    alloc: Global,
}

impl Model for Rope {
    ghost use Rattle.std.specs.Prelude.{◌++◌};
    ghost use Rattle.shape_log.specs.Roped.{Roped, flat};

    ghost Value = { Roped };

    ghost use Rattle.shape_log.specs.Inside.{IsRope};

    ghost view = { λ r. record { bytes = flat r.parts.items ++ r.last.items; room = r.room } };

    ghost invariant = { IsRope };
}

/// What a rope of so many bytes makes room for, where it needs that much: an eighth of what it has more, up to half a mebibyte.
fn growth(len: u64, bytes: u64) -> u64
    ensures { bytes ≤ result }
{
    bytes.saturating_add((len / 8).min(524_288))
}

fn part_at(parts: &[Part], place: usize) -> &Part
    requires { place < length parts.now }
    ensures { result.now ≡ slice_index_or parts.now place result.now }
{
    &parts[place]
}

/// The bytes from one place up to another, shared, where one part has them all.
fn shared(parts: &[Part], from: u64, to: u64) -> Result<Option<Bytes>, OutOfMemory>
    requires { from ≤ to }
    ensures { IfOk result (λ found. IfSome found (λ b. (end : ℕ) (rest : List ℕ) → ArePlaced 0 parts.now end → b ≡ slice_range (flat parts.now ++ rest) from to)) }
{
    let place = parts.partition_point(|part| part.start <= from);
    if place == 0 {
        return Ok(None);
    }
    let part = part_at(parts, place - 1);
    if from < part.start {
        return Ok(None);
    }
    let (low, high) = ((from - part.start) as usize, (to - part.start) as usize);
    if high > part.bytes.len() {
        return Ok(None);
    }
    let bytes = part.bytes.slice(low..high)?;
    Ok(Some(bytes))
}

/// The bytes from one place up to another, copied.
fn copied(alloc: Global, bytes: &[u8], low: usize, high: usize) -> Result<Bytes, OutOfMemory>
    requires order { low ≤ high }
    requires within { high ≤ length bytes.now }
    ensures { IfOk result (λ b. b ≡ slice_range bytes.now low high) }
{
    Ok(Bytes::copy_from_slice(alloc, &bytes[low..high])?)
}

/// Adds those of the bytes, which begin in the place `start`, that stand from one place up to another.
fn put_between(
    out: &mut Vec<u8>,
    start: u64,
    bytes: &[u8],
    from: u64,
    to: u64,
) -> Result<(), OutOfMemory>
    requires { from ≤ to }
    ensures { OnOk result (out.new.items ≡ out.old.items ++ slice_range bytes.now (from - start) (to - start)) }
{
    let len = bytes.len() as u64;
    let low = from.saturating_sub(start).min(len) as usize;
    let high = to.saturating_sub(start).min(len) as usize;
    out.extend_from_slice(&bytes[low..high])?;
    Ok(())
}

/// The bytes of all parts from one place up to another, copied.
fn gathered(
    alloc: Global,
    parts: &[Part],
    last: &[u8],
    start: u64,
    from: u64,
    to: u64,
) -> Result<Bytes, OutOfMemory>
    requires order { from ≤ to }
    requires placed { ArePlaced 0 parts.now start }
    ensures { IfOk result (λ b. b ≡ slice_range (flat parts.now ++ last.now) from to) }
{
    let mut out = Vec::new(alloc);
    for part in parts {
        put_between(&mut out, part.start, part.bytes.as_slice(), from, to)?;
    }
    put_between(&mut out, start, last, from, to)?;
    Ok(Bytes::from_vec(out)?)
}

impl Rope {
    pub(crate) fn new(alloc: Global) -> Rope
        ensures bytes { result.bytes ≡ [] }
        ensures room { result.room ≡ 0 }
    {
        Rope {
            parts: Vec::new(alloc),
            start: 0,
            last: BytesMut::new(alloc),
            room: 0,
            alloc,
        }
    }

    /// How many bytes there are.
    pub(crate) fn len(&self) -> u64
        ensures { result ≡ length self.now.bytes }
    {
        self.start + self.last.len() as u64
    }

    /// Makes room for at least so many bytes more.
    pub(crate) fn reserve(&mut self, bytes: u64) -> Result<(), OutOfMemory>
        ensures ok { OnOk result (self.new.room ≡ max self.old.room bytes) }
        ensures room { bytes ≤ self.old.room → IsOk result }
        ensures err { OnErr result (self.new ≡ self.old) }
        ensures bytes { self.new.bytes ≡ self.old.bytes }
    {
        if bytes <= self.room {
            return Ok(());
        }
        let len = self.start + self.last.len() as u64;
        if len.checked_add(bytes).is_none() {
            return Err(OutOfMemory);
        }
        if bytes > (self.last.capacity() - self.last.len()) as u64 {
            let more = growth(len, bytes);
            self.last.reserve(more as usize)?;
        }
        self.room = bytes;
        Ok(())
    }

    /// Adds bytes at the end. It takes no memory.
    pub(crate) fn put(&mut self, bytes: &[u8])
        requires { length bytes.now ≤ self.old.room }
        ensures bytes { self.new.bytes ≡ self.old.bytes ++ bytes.now }
        ensures room { self.new.room + length bytes.now ≡ self.old.room }
    {
        self.room -= bytes.len() as u64;
        self.last.extend_reserved(bytes);
    }

    /// Freezes the bytes before a place: from then on they are shared.
    pub(crate) fn freeze(&mut self, place: u64) -> Result<(), OutOfMemory>
        requires { place ≤ length self.old.bytes }
        ensures same { self.new ≡ self.old }
    {
        if place <= self.start {
            return Ok(());
        }
        let count = (place - self.start) as usize;
        self.parts.reserve(1)?;
        let bytes = self.last.freeze_to(count)?;
        let part = Part {
            start: self.start,
            bytes,
        };
        self.parts.push(part).unwrap();
        self.start = place;
        Ok(())
    }

    /// The bytes from one place up to another. Where they all stand in one frozen part they are shared, and else copied.
    pub(crate) fn cut(&self, from: u64, to: u64) -> Result<Bytes, OutOfMemory>
        requires order { from ≤ to }
        requires within { to ≤ length self.now.bytes }
        ensures { IfOk result (λ b. b ≡ slice_range self.now.bytes from to) }
    {
        let (parts, last) = (self.parts.as_slice(), self.last.as_slice());
        if from >= self.start {
            let (low, high) = ((from - self.start) as usize, (to - self.start) as usize);
            let bytes = copied(self.alloc, last, low, high)?;
            return Ok(bytes);
        }
        if let Some(bytes) = shared(parts, from, to)? {
            return Ok(bytes);
        }
        let bytes = gathered(self.alloc, parts, last, self.start, from, to)?;
        Ok(bytes)
    }
}
