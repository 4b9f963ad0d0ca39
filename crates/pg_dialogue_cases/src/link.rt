//! A link in memory.
ghost use Rattle.std.specs.Prelude.{◌≡◌, ◌<◌, true, take, drop};

use shape_base::{Failed, MemorySink, MemorySource, Sink, Source, Traffic};

/// A source and a sink in one.
#[derive(Drop)]
pub(crate) struct MemoryLink {
    pub source: MemorySource,
    pub sink: MemorySink,
}

impl Traffic for MemoryLink {
    ghost tells = { true };

    ghost given = { λ s. take s.source.at s.source.bytes.items };

    ghost left = { λ s. drop s.source.at s.source.bytes.items };

    ghost written = { λ s. s.sink.bytes.items };

    ghost failed_reads = { λ s. s.source.faults };

    ghost failed_writes = { λ s. s.sink.faults };
}

impl Source for MemoryLink {
    fn read(&mut self, room: &mut [u8]) -> Result<usize, Failed> {
        self.source.read(room)
    }
}

impl Sink for MemoryLink {
    fn write_all(&mut self, piece: &[u8]) -> Result<(), Failed> {
        self.sink.write_all(piece)
    }
}
