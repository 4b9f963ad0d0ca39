//! The reading of a script's messages.
ghost use Rattle.std.specs.Prelude.{◌≡◌, IsTrue};
ghost use Rattle.pgout.specs.Grammar.{Fits, spelled};

use crate::assembly::Assembly;
use byte_format::{u8_at, u32_at};
use pgout::{Message, read_message, write_message};
use std::alloc::Global;

/// What is done with each message that was read.
#[derive(Drop)]
pub struct Work {
    /// It is written again, and its bytes are compared.
    pub again: bool,
    /// It is fed to an assembler.
    pub assembly: Option<Assembly>,
}

/// What a script holds.
pub enum Decoded {
    /// So many messages, and nothing that is wrong.
    Messages(u64),
    /// The record of this number, from 0, is wrong, or memory ran out at it.
    Wrong(u64),
}

/// Whether these bytes are a message, which the work is done with.
fn is_message(alloc: Global, bytes: &[u8], work: &mut Work) -> bool
    ensures { IsTrue result → (m : Message) × Fits m × (bytes.now ≡ spelled m) }
{
    match read_message(alloc, bytes) {
        Ok(message) => {
            (!work.again || is_written(alloc, &message, bytes))
                && is_taken(&mut work.assembly, message)
        }
        Err(_) => false,
    }
}

/// Whether the message is written as these bytes.
fn is_written(alloc: Global, message: &Message, bytes: &[u8]) -> bool
    requires { Fits message.now }
    ensures { IsTrue result → bytes.now ≡ spelled message.now }
{
    match write_message(alloc, message) {
        Ok(written) => written.as_slice() == bytes,
        Err(_) => false,
    }
}

/// Whether the message is taken by the assembler, where there is one.
fn is_taken(assembly: &mut Option<Assembly>, message: Message) -> bool
    requires { Fits message }
{
    match assembly {
        Some(assembly) => assembly.take(message),
        None => {
            drop(message);
            true
        }
    }
}

/// A record's kind, its payload and what stands after it; none where the bytes end before.
fn record_at(bytes: &[u8]) -> Option<(u8, &[u8], &[u8])> {
    let Ok((kind, rest)) = u8_at(bytes) else {
        return None;
    };
    let Ok((len, rest)) = u32_at(rest) else {
        return None;
    };
    let len = len as usize;
    if rest.len() < len {
        return None;
    }
    let (payload, rest) = rest.split_at(len);
    Some((kind, payload, rest))
}

/// Reads the messages of a script, up to its record `E` or its end, and does the work with each.
pub fn decode(alloc: Global, script: &[u8], work: &mut Work) -> Decoded {
    let mut rest = script;
    let mut messages = 0;
    for record in 0..u64::MAX {
        if rest.is_empty() {
            break;
        }
        let Some((kind, payload, after)) = record_at(rest) else {
            return Decoded::Wrong(record);
        };
        if kind == b'E' {
            break;
        }
        if kind == b'M' {
            if !is_message(alloc, payload, work) {
                return Decoded::Wrong(record);
            }
            messages += 1;
        }
        rest = after;
    }
    Decoded::Messages(messages)
}
