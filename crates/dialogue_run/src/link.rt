//! A link over TCP.
ghost use Rattle.std.specs.Prelude.{◌≡◌, false, []};

use shape_base::{Failed, Input, Output, Sink, Source, Traffic};
use std::alloc::Global;
use std::io;
use std::io::BufReader;
use std::net::TcpStream;

/// A TCP connection, whose reads are buffered. It tells nothing of its bytes, and counts its faults.
#[derive(Drop)]
pub(crate) struct TcpLink {
    input: Input<BufReader<TcpStream>>,
    output: Output<TcpStream>,
}

impl TcpLink {
    pub fn new(alloc: Global, stream: TcpStream) -> io::Result<TcpLink> {
        let output = Output::new(stream.try_clone()?);
        let input = Input::new(BufReader::new(alloc, stream)?);
        Ok(TcpLink { input, output })
    }
}

impl Traffic for TcpLink {
    ghost tells = { false };

    ghost given = { λ _. [] };

    ghost left = { λ _. [] };

    ghost written = { λ _. [] };

    ghost failed_reads = { λ s. s.input.faults };

    ghost failed_writes = { λ s. s.output.faults };
}

impl Source for TcpLink {
    fn read(&mut self, room: &mut [u8]) -> Result<usize, Failed> {
        self.input.read(room)
    }
}

impl Sink for TcpLink {
    fn write_all(&mut self, piece: &[u8]) -> Result<(), Failed> {
        self.output.write_all(piece)
    }
}
