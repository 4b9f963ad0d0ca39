//! The laws over the rules by which frames are read, each the contract of a function with nothing to do.
ghost use Rattle.pg_wire.specs.Laws.{WholeFrames, WalPayloads, KeepalivePayloads, Prefixes, FramedBytes, UnfinishedBytes, RefusedBytes};

/// A frame's bytes are read as one frame of their size, with what its payload gives, whatever follows.
pub fn whole_frames()
    ensures { WholeFrames }
{}

/// The payload of an XLogData gives its two positions and its message.
pub fn wal_payloads()
    ensures { WalPayloads }
{}

/// The payload of a keepalive gives its position and whether a reply is wanted.
pub fn keepalive_payloads()
    ensures { KeepalivePayloads }
{}

/// Each proper prefix of a whole frame is unfinished.
pub fn prefixes()
    ensures { Prefixes }
{}

/// A frame is read only where its bytes stand first.
pub fn framed_bytes()
    ensures { FramedBytes }
{}

/// Bytes are unfinished only where they are fewer than a type byte and a length, or some continuation of them is a frame.
pub fn unfinished_bytes()
    ensures { UnfinishedBytes }
{}

/// Bytes are refused only where no continuation of them begins with a frame.
pub fn refused_bytes()
    ensures { RefusedBytes }
{}
