//! The whole program, over any source and sinks.
ghost use Rattle.std.specs.Prelude.{◌≡◌, ◌≢◌, ◌↔◌, ◌+◌, ◌≤◌, ◌++◌, true, length, take, map, nat_lt};
ghost use Rattle.std.specs.String.{string_bytes};
ghost use Rattle.shape_base.specs.Outside.{Rose, AddsFront};
ghost use Rattle.script.specs.Items.{items_of};
ghost use Rattle.script.specs.Reading.{since};
ghost use Rattle.script_play.specs.Settings.{AreWords};
ghost use Rattle.shape_replay.specs.Headline.{IsHeadline};
ghost use Rattle.shape_replay.specs.Running.{status_of, complaint, said_of, Said, IsRun};

use crate::complaint::complain;
use script_play::{Stop, are_words, laws, limits_of, play};
use shape_base::{Sink, Source};
use std::alloc::Global;

/// The most bytes of a script.
pub const LIMIT: usize = 67_108_864;

/// Says why a play stopped before the end record, if it did, and gives the status.
fn tell<E: Sink>(err: &mut E, answer: Result<(), Stop>) -> u8
    ensures status { result ≡ status_of answer }
    ensures said { E.tells ≡ true → Said (E.written err.old) (E.written err.new) (E.failed_writes err.old) (E.failed_writes err.new) (said_of answer) }
    ensures silent { result ≡ 0 → E.written err.new ≡ E.written err.old }
{
    match answer {
        Ok(()) => 0,
        Err(stop) => complain(err, stop),
    }
}

/// Replays a script, and gives a status: 0 done, 1 out_of_memory, 2 usage, 3 read_fault, 4 write_fault, 5 bad_script, 6 unfinished, 7 too_long, 8 too_many_exchanges.
///
/// For every status but 0 one line with its name goes to `err`; for 5 it has the place of the first byte of the record that was refused, and the cause.
pub fn run<S: Source, K: Sink, E: Sink>(
    alloc: Global,
    words: &[String],
    input: &mut S,
    out: &mut K,
    err: &mut E,
) -> u8
    // Which status it is, what is written, and what is said.
    ensures exact { S.tells ≡ true → AreWords (map string_bytes words.now) → IsRun (map string_bytes words.now) (items_of (take 67108864 (S.left input.old))) (items_of (since (S.given input.old) (S.given input.new))) (nat_lt 67108864 (length (S.left input.old)))
        (λ text. K.tells ≡ true → K.written out.new ≡ K.written out.old ++ text) (λ text. K.tells ≡ true → AddsFront (K.written out.old) (K.written out.new) text)
        (λ text. E.tells ≡ true → Said (E.written err.old) (E.written err.new) (E.failed_writes err.old) (E.failed_writes err.new) text) result }
    ensures usage { (result ≡ 2) ↔ (AreWords (map string_bytes words.now) → ⊥) }
    ensures usage_said { result ≡ 2 → E.tells ≡ true → Said (E.written err.old) (E.written err.new) (E.failed_writes err.old) (E.failed_writes err.new) (complaint Stop.Usage) }
    ensures nothing { result ≡ 2 → K.written out.new ≡ K.written out.old }
    ensures silent { result ≡ 0 → E.written err.new ≡ E.written err.old }
    ensures known { result ≤ 8 }
    ensures read_fault { result ≡ 3 → Rose (S.failed_reads input.old) (S.failed_reads input.new) }
    ensures write_fault { result ≡ 4 → Rose (K.failed_writes out.old) (K.failed_writes out.new) }
    // The headline: whatever is written is right, for each history that the records may tell of.
    ensures headline { S.tells ≡ true → K.tells ≡ true → AreWords (map string_bytes words.now) → IsHeadline (map string_bytes words.now) (items_of (take 67108864 (S.left input.old))) (K.written out.old) (K.written out.new) }
    // How much is read.
    ensures given { S.tells ≡ true → length (S.given input.new) ≤ length (S.given input.old) + 67108865 }
{
    if !are_words(words) {
        return complain(err, Stop::Usage);
    }
    laws::headline();
    let limits = limits_of(words);
    tell(err, play(alloc, limits, LIMIT, input, out))
}
