//! Why a record is refused.
ghost use Rattle.std.specs.Prelude.{◌≡◌};
ghost use Rattle.script_play.specs.Script.{cause_for};

use core_events::Unfit;

/// Why a record of a script is refused.
#[derive(Clone, Copy, Debug, PartialEq, Eq)]
pub enum ScriptCause {
    /// No record has this kind.
    UnknownKind,
    /// The payload is not of its kind's form, or a table is declared again.
    BadPayload,
    /// A table is declared after a record of another kind.
    LateTable,
    /// No table with this number was declared.
    NoTable,
    /// The exchange owns no snapshot under way.
    NotASnapshot,
    /// No client has this number.
    NoClient,
    /// No exchange has this number.
    NoExchange,
    /// The exchange has no reply.
    NoReply,
    /// The exchange's target is not the client's next one.
    WrongAddress,
    /// The moment is before the clock.
    ClockBack,
}

/// Why a record is refused whose event does not fit.
pub fn cause_for(unfit: Unfit) -> ScriptCause
    ensures { result ≡ cause_for unfit }
{
    match unfit {
        Unfit::BadPayload => ScriptCause::BadPayload,
        Unfit::NotASnapshot => ScriptCause::NotASnapshot,
        Unfit::NoClient => ScriptCause::NoClient,
        Unfit::NoExchange => ScriptCause::NoExchange,
        Unfit::NoReply => ScriptCause::NoReply,
        Unfit::WrongAddress => ScriptCause::WrongAddress,
        Unfit::ClockBack => ScriptCause::ClockBack,
    }
}
