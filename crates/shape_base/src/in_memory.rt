//! Objects of the outside that are kept in memory.
ghost use Rattle.std.specs.Prelude.{◌≡◌, ◌<◌, ◌≤◌, [], take, drop, true};
ghost use Rattle.std.specs.Vec.{vec_len};
ghost use Rattle.shape_base.specs.Outside.{Rose};

use super::outside::{Failed, Sink, Source, Traffic};
use std::alloc::Global;

/// Gives bytes in pieces. The calls that stand in a list fail; calls count from 0.
#[derive(Drop)]
pub struct MemorySource {
    bytes: Vec<u8>,
    at: usize,
    piece: usize,
    failing: Vec<u64>,
    calls: u64,
    faults: u64,
    ghost in_range: { at ≤ vec_len bytes },
    ghost moves: { 0 < piece },
}

impl MemorySource {
    /// A source of these bytes that gives at most `piece` of them in a call.
    pub fn new(bytes: Vec<u8>, piece: usize, failing: Vec<u64>) -> MemorySource
        requires { 0 < piece }
        ensures left { drop result.at result.bytes.items ≡ bytes.items }
        ensures start { result.at ≡ 0 }
        ensures pieces { result.piece ≡ piece }
        ensures failing { result.failing ≡ failing }
        ensures calls { result.calls ≡ 0 }
        ensures faults { result.faults ≡ 0 }
    {
        MemorySource {
            bytes,
            at: 0,
            piece,
            failing,
            calls: 0,
            faults: 0,
        }
    }

    /// How many bytes it gave.
    pub fn count(&self) -> usize
        ensures { result ≡ self.now.at }
    {
        self.at
    }
}

impl Traffic for MemorySource {
    ghost tells = { true };

    ghost given = { λ s. take s.at s.bytes.items };

    ghost left = { λ s. drop s.at s.bytes.items };

    ghost written = { λ _. [] };

    ghost failed_reads = { λ s. s.faults };

    ghost failed_writes = { λ _. 0 };
}

impl Source for MemorySource {
    fn read(&mut self, room: &mut [u8]) -> Result<usize, Failed> {
        let call = self.calls;
        self.calls = call.saturating_add(1);
        if self.failing.contains(&call) {
            self.faults = self.faults.saturating_add(1);
            return Err(Failed);
        }
        let rest = self.bytes.len() - self.at;
        let count = rest.min(room.len()).min(self.piece);
        let end = self.at + count;
        room[..count].copy_from_slice(&self.bytes[self.at..end]);
        self.at = end;
        Ok(count)
    }
}

/// Keeps what is written. The calls that stand in a list fail; calls count from 0.
#[derive(Drop)]
pub struct MemorySink {
    bytes: Vec<u8>,
    failing: Vec<u64>,
    calls: u64,
    faults: u64,
}

impl MemorySink {
    /// A sink to which nothing was written.
    pub fn new(alloc: Global, failing: Vec<u64>) -> MemorySink
        ensures bytes { result.bytes.items ≡ [] }
        ensures failing { result.failing ≡ failing }
        ensures calls { result.calls ≡ 0 }
        ensures faults { result.faults ≡ 0 }
    {
        MemorySink {
            bytes: Vec::new(alloc),
            failing,
            calls: 0,
            faults: 0,
        }
    }

    /// What was written.
    pub fn bytes(&self) -> &[u8]
        ensures { result.now ≡ self.now.bytes.items }
    {
        &self.bytes
    }
}

impl Traffic for MemorySink {
    ghost tells = { true };

    ghost given = { λ _. [] };

    ghost left = { λ _. [] };

    ghost written = { λ s. s.bytes.items };

    ghost failed_reads = { λ _. 0 };

    ghost failed_writes = { λ s. s.faults };
}

impl Sink for MemorySink {
    #[tactic(auto, using(crate::proofs::Pieces::adds_nothing))]
    fn write_all(&mut self, piece: &[u8]) -> Result<(), Failed> {
        let call = self.calls;
        self.calls = call.saturating_add(1);
        if self.failing.contains(&call) {
            self.faults = self.faults.saturating_add(1);
            return Err(Failed);
        }
        if self.bytes.extend_from_slice(piece).is_err() {
            self.faults = self.faults.saturating_add(1);
            return Err(Failed);
        }
        Ok(())
    }
}
