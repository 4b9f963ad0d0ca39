//! The status of a run, and the line that is said of one that stopped.
ghost use Rattle.std.specs.Prelude.{◌≡◌, true, Err};
ghost use Rattle.std.specs.List.{flat_map};
ghost use Rattle.shape_replay.specs.Running.{cause_name, complaint, status_of, Said};

use script_play::{ScriptCause, Stop};
use shape_base::Sink;

/// The name of a cause.
fn cause_name(cause: ScriptCause) -> &'static str
    ensures { result.now ≡ cause_name cause }
{
    match cause {
        ScriptCause::UnknownKind => "unknown_kind",
        ScriptCause::BadPayload => "bad_payload",
        ScriptCause::LateTable => "late_table",
        ScriptCause::NoTable => "no_table",
        ScriptCause::NotASnapshot => "not_a_snapshot",
        ScriptCause::NoClient => "no_client",
        ScriptCause::NoExchange => "no_exchange",
        ScriptCause::NoReply => "no_reply",
        ScriptCause::WrongAddress => "wrong_address",
        ScriptCause::ClockBack => "clock_back",
    }
}

/// Writes pieces one after the other, up to a failed write. It counts nowhere else.
fn say<E: Sink>(err: &mut E, pieces: &[&str])
    ensures { E.tells ≡ true → Said (E.written err.old) (E.written err.new) (E.failed_writes err.old) (E.failed_writes err.new) (flat_map (λ piece. piece.now) pieces.now) }
{
    for piece in pieces {
        match err.write_all(piece.as_bytes()) {
            Ok(()) => {}
            Err(_) => return,
        }
    }
}

/// Writes the line of a record that was refused.
fn say_refusal<E: Sink>(err: &mut E, place: u64, cause: ScriptCause)
    ensures { E.tells ≡ true → Said (E.written err.old) (E.written err.new) (E.failed_writes err.old) (E.failed_writes err.new) (complaint (Stop.BadScript place cause)) }
{
    let mut digits = itoa::Buffer::new();
    say(
        err,
        &[
            "shape_replay: bad_script ",
            digits.format(place),
            " ",
            cause_name(cause),
            "\n",
        ],
    );
}

/// Writes why a run stopped, and gives its status.
pub fn complain<E: Sink>(err: &mut E, stop: Stop) -> u8
    ensures status { result ≡ status_of (Err stop) }
    ensures said { E.tells ≡ true → Said (E.written err.old) (E.written err.new) (E.failed_writes err.old) (E.failed_writes err.new) (complaint stop) }
{
    match stop {
        Stop::OutOfMemory => {
            say(err, &["shape_replay: out_of_memory\n"]);
            1
        }
        Stop::Usage => {
            say(err, &["shape_replay: usage\n"]);
            2
        }
        Stop::ReadFault => {
            say(err, &["shape_replay: read_fault\n"]);
            3
        }
        Stop::WriteFault => {
            say(err, &["shape_replay: write_fault\n"]);
            4
        }
        Stop::BadScript { place, cause } => {
            say_refusal(err, place, cause);
            5
        }
        Stop::Unfinished => {
            say(err, &["shape_replay: unfinished\n"]);
            6
        }
        Stop::TooLong => {
            say(err, &["shape_replay: too_long\n"]);
            7
        }
        Stop::TooManyExchanges => {
            say(err, &["shape_replay: too_many_exchanges\n"]);
            8
        }
    }
}
