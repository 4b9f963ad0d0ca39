//! Reading the server's messages from a link, one at a time.
ghost use Rattle.std.specs.Prelude.{◌≡◌, ◌+◌, ◌<◌, ◌≤◌, ◌++◌, true, length, IfOk, OnOk, OnErr, IfErr, IsErrOf, slice_index, ◌∷◌, []};
ghost use Rattle.std.specs.Int.{w32, from_be_bytes};
ghost use Rattle.std.specs.Vec.{vec_len};
ghost use Rattle.shape_base.specs.Outside.{Rose};
ghost use Rattle.pg_dialogue.specs.Messages.{Says, behind};
ghost use Rattle.pg_dialogue.specs.Links.{to_come, since, Takes, Stops, StopsSaid};

use crate::wire_error::WireError;
use shape_base::Source;
use std::alloc::Global;

/// The most bytes that the link may give in one dialogue.
pub const LIMIT: u64 = 68_719_476_736;

/// How many bytes are read at once at most.
const PIECE: usize = 1024;

/// How far a dialogue got.
#[derive(Drop)]
pub(crate) struct Inbox {
    /// How many bytes the link gave.
    pub place: u64,
    /// The payload of the last message, or what was read so far of the next.
    pub payload: Vec<u8>,
    ghost limited: { place ≤ 68719476736 },
}

/// The type byte and the length of a message.
pub(crate) fn head_of(head: &[u8]) -> (u8, u32)
    requires { length head.now ≡ 5 }
    ensures kind { result.0 ≡ slice_index head.now 0 }
    ensures len { result.1 ≡ from_be_bytes w32 (slice_index head.now 1 ∷ slice_index head.now 2 ∷ slice_index head.now 3 ∷ slice_index head.now 4 ∷ []) }
{
    let len = u32::from_be_bytes([head[1], head[2], head[3], head[4]]);
    (head[0], len)
}

impl Inbox {
    /// Nothing was read yet.
    pub fn new(alloc: Global) -> Inbox
        ensures { result.place ≡ 0 }
    {
        Inbox {
            place: 0,
            payload: Vec::new(alloc),
        }
    }

    /// Reads until the payload has that many bytes. Only bytes that came take memory.
    fn fill<P: Source>(&mut self, link: &mut P, want: usize) -> Result<(), WireError>
        requires { vec_len self.old.payload ≤ want }
        ensures took { P.tells ≡ true → Takes (P.given link.old) (P.left link.old) self.old.place (P.given link.new) (P.left link.new) self.new.place }
        ensures filled { P.tells ≡ true → OnOk result (self.new.payload.items ≡ self.old.payload.items ++ since (P.given link.old) (P.given link.new)) }
        ensures full { OnOk result (vec_len self.new.payload ≡ want) }
        ensures counted { OnOk result (self.new.place + vec_len self.old.payload ≡ self.old.place + vec_len self.new.payload) }
        ensures short { P.tells ≡ true → IfErr result (λ e. Stops e self.new.place (P.left link.new) (vec_len self.old.payload + length (since (P.given link.old) (P.given link.new))) want) }
        ensures later { P.failed_reads link.old ≤ P.failed_reads link.new }
        ensures fault { IsErrOf result WireError.LinkFault → Rose (P.failed_reads link.old) (P.failed_reads link.new) }
        ensures written { P.written link.new ≡ P.written link.old }
        ensures writes { P.failed_writes link.new ≡ P.failed_writes link.old }
    {
        let mut room = [0; PIECE];
        'pieces: while self.payload.len() < want {
            let open = LIMIT - self.place;
            if open == 0 {
                return Err(WireError::TooLong { limit: LIMIT });
            }
            let most = (want - self.payload.len()).min(PIECE).min(open as usize);
            let count = match link.read(&mut room[..most]) {
                Ok(count) => count,
                Err(_) => return Err(WireError::LinkFault),
            };
            if count == 0 {
                return Err(WireError::Ended { place: self.place });
            }
            self.place += count as u64;
            self.payload.extend_from_slice(&room[..count])?;
        }
        Ok(())
    }

    /// Reads the next message, and gives its type byte; its payload is kept.
    pub fn message<P: Source>(&mut self, link: &mut P) -> Result<u8, WireError>
        ensures took { P.tells ≡ true → Takes (P.given link.old) (P.left link.old) self.old.place (P.given link.new) (P.left link.new) self.new.place }
        ensures ok { P.tells ≡ true → IfOk result (λ kind. to_come self.old.place (P.left link.old) ≡ Says self.old.place kind self.new.payload.items (to_come self.new.place (P.left link.new))) }
        ensures err { P.tells ≡ true → IfErr result (λ e. StopsSaid e (to_come self.old.place (P.left link.old))) }
        ensures size { OnOk result (self.old.place + 5 ≤ self.new.place) }
        ensures behind { P.tells ≡ true → OnOk result (self.new.place ≡ behind self.old.place self.new.payload.items) }
        ensures later { P.failed_reads link.old ≤ P.failed_reads link.new }
        ensures fault { IsErrOf result WireError.LinkFault → Rose (P.failed_reads link.old) (P.failed_reads link.new) }
        ensures written { P.written link.new ≡ P.written link.old }
        ensures writes { P.failed_writes link.new ≡ P.failed_writes link.old }
    {
        let start = self.place;
        self.payload.clear();
        self.fill(link, 5)?;
        let (kind, len) = head_of(self.payload.as_slice());
        if len < 4 {
            return Err(WireError::BadReply { place: start });
        }
        self.payload.clear();
        self.fill(link, len as usize - 4)?;
        Ok(kind)
    }
}
