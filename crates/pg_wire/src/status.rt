//! What a client of the replication connection sends.
ghost use Rattle.std.specs.Prelude.{◌≡◌, IfOk};
ghost use Rattle.pg_wire.specs.Status.{status_bytes};

use byte_format::{put_u32, put_u64};
use bytes::Bytes;
use shape_base::OutOfMemory;
use std::alloc::Global;

/// The bytes of a standby status update (PostgreSQL manual, 55.4 Streaming Replication Protocol) in a CopyData frame: written, flushed and applied up to the
/// position, and no reply wanted. The time is in microseconds since 2000-01-01, as its 64 bits.
pub fn status_update(alloc: Global, position: u64, time: u64) -> Result<Bytes, OutOfMemory>
    ensures { IfOk result (λ bytes. bytes ≡ status_bytes position time) }
{
    let mut out = Vec::with_capacity(alloc, 39)?;
    out.push(b'd')?;
    put_u32(&mut out, 38)?;
    out.push(b'r')?;
    put_u64(&mut out, position)?;
    put_u64(&mut out, position)?;
    put_u64(&mut out, position)?;
    put_u64(&mut out, time)?;
    out.push(0)?;
    Ok(Bytes::from_vec(out)?)
}
