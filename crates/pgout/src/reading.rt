//! The reading of messages.
ghost use Rattle.std.specs.Prelude.{◌≡◌, ℕ, IfOk, MatchResult};
ghost use Rattle.byte_format.specs.Format.{Gives};
ghost use Rattle.byte_format.specs.Whole.{IsFirstWrong, whole};
ghost use Rattle.pgout.specs.Faults.{IsReading, first_of};
ghost use Rattle.pgout.specs.Grammar.{Fits, spelled, rows_kinds, kinds, message};

use crate::bodies::{
    begin_of, commit_of, delete_of, insert_of, logical_of, origin_of, relation_of, truncate_of,
    type_name_of, update_of,
};
use crate::fault::MessageError;
use crate::message::Message;
use byte_format::ReadError;
use std::alloc::Global;

/// A change of rows.
fn rows_body_of(alloc: Global, kind: u8, bytes: &[u8]) -> Result<(Message, &[u8]), ReadError>
    ensures { Gives (λ x. (x.0, x.1.now)) result (rows_kinds kind bytes.now) }
{
    match kind {
        b'I' => insert_of(alloc, bytes),
        b'U' => update_of(alloc, bytes),
        b'D' => delete_of(alloc, bytes),
        b'T' => truncate_of(alloc, bytes),
        _ => Err(ReadError::Wrong {
            left: bytes.len() + 1,
        }),
    }
}

fn body_of(alloc: Global, kind: u8, bytes: &[u8]) -> Result<(Message, &[u8]), ReadError>
    ensures { Gives (λ x. (x.0, x.1.now)) result (kinds kind bytes.now) }
{
    match kind {
        b'B' => begin_of(bytes),
        b'M' => logical_of(alloc, bytes),
        b'C' => commit_of(bytes),
        b'O' => origin_of(alloc, bytes),
        b'R' => relation_of(alloc, bytes),
        b'Y' => type_name_of(alloc, bytes),
        _ => rows_body_of(alloc, kind, bytes),
    }
}

fn whole_of(alloc: Global, bytes: &[u8]) -> Result<Message, ReadError>
    ensures { Gives (λ x. x) result (whole message bytes.now) }
{
    match bytes {
        [] => Err(ReadError::Wrong { left: 0 }),
        [kind, rest @ ..] => {
            let (message, rest) = body_of(alloc, *kind, rest)?;
            if !rest.is_empty() {
                return Err(ReadError::Wrong { left: rest.len() });
            }
            Ok(message)
        }
    }
}

/// The first byte, or 0 where there is none.
fn kind_of(bytes: &[u8]) -> u8
    ensures { result ≡ first_of bytes.now }
{
    match bytes {
        [] => 0,
        [kind, ..] => *kind,
    }
}

/// The message that all of the bytes spell.
///
/// `BadMessage` exactly where the bytes are no whole message with nothing left over. No memory is taken by what a count or a length claims, only by what
/// came; each value is copied once.
pub fn read_message(alloc: Global, bytes: &[u8]) -> Result<Message, MessageError>
    // What is read is in the grammar, and all of the bytes are its spelling.
    ensures found { IfOk result (λ m. Fits m × (bytes.now ≡ spelled m)) }
    // A message of the grammar is read from its spelling, unless memory runs out.
    ensures again { (m : Message) → Fits m → bytes.now ≡ spelled m → MatchResult result (λ n. n ≡ m) (λ e. e ≡ MessageError.OutOfMemory) }
    // It is a function of the bytes.
    ensures exact { IsReading result (whole message bytes.now) }
    // The place is the first byte that no message has there, or the length.
    ensures bad { (place kind : ℕ) → result ≡ Err (MessageError.BadMessage place kind) → IsFirstWrong message bytes.now place × (kind ≡ first_of bytes.now) }
{
    let kind = kind_of(bytes);
    match whole_of(alloc, bytes) {
        Ok(message) => Ok(message),
        Err(ReadError::OutOfMemory) => Err(MessageError::OutOfMemory),
        Err(ReadError::Wrong { left }) => Err(MessageError::BadMessage {
            place: (bytes.len() - left) as u64,
            kind,
        }),
    }
}
