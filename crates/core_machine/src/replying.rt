//! What an exchange is answered now.
ghost use Rattle.std.specs.Prelude.{◌≡◌, IfOk};
ghost use Rattle.std.specs.Option.{option_map};
ghost use Rattle.core_law.specs.Situation as law;
ghost use Rattle.core_law.specs.Situation.{Options};
ghost use Rattle.core_law.specs.Reached.{WasGiven};
ghost use Rattle.core_law.specs.Steps.{Written, reply_now, written_to, unless_lost};
ghost use Rattle.core_server.specs.Standing as servers;
ghost use Rattle.core_server.specs.Standing.{IsSituated};
ghost use Rattle.core_exchanges.specs.Standing.{asked_of, role_of};
ghost use Rattle.core_machine.specs.Replying.{reply_in};
ghost use Rattle.shape_base.specs.RegistryHistory.{was_registered};
ghost use Rattle.std.specs.Prelude.{true};

use core_exchanges::{Asked, Role};
use core_server::Server;
use http_edge::{ErrorCode, refusal_reply};
use shape_base::{Ask, OutOfMemory, Reply};
use std::alloc::Global;

/// The reply to a request, late or not, where there is one yet.
fn answer(
    alloc: Global,
    server: &Server,
    ask: &Ask,
    late: bool,
) -> Result<Option<Reply>, OutOfMemory>
    requires { IsSituated server.now }
    ensures { (o : Options) (v : law.Server) → servers.Stands o v server.now → IfOk result (λ reply. reply ≡ reply_in (written_to o v late (asked_of (Asked.AsksFor ask.now)))) }
{
    server.answer(alloc, ask, late)
}

/// The reply to what a request asks for, where there is one yet.
fn reply_to(
    alloc: Global,
    server: &Server,
    asked: &Asked,
    late: bool,
) -> Result<Option<Reply>, OutOfMemory>
    requires { IsSituated server.now }
    ensures { (o : Options) (v : law.Server) → servers.Stands o v server.now → IfOk result (λ reply. reply ≡ reply_in (written_to o v late (asked_of asked.now))) }
{
    match asked {
        Asked::Refused(code) => Ok(Some(refusal_reply(alloc, code)?)),
        Asked::AsksFor(ask) => answer(alloc, server, ask, late),
    }
}

/// The reply to a request that waits for a number: a refusal where the number was removed.
fn reply_unless_lost(
    alloc: Global,
    server: &Server,
    asked: &Asked,
    number: u64,
    late: bool,
) -> Result<Option<Reply>, OutOfMemory>
    requires { IsSituated server.now }
    ensures { (o : Options) (v : law.Server) → servers.Stands o v server.now → was_registered v.registry number ≡ true → IfOk result (λ reply. reply ≡ reply_in (unless_lost o v late (asked_of asked.now) number)) }
{
    if server.is_live(number) {
        return reply_to(alloc, server, asked, late);
    }
    Ok(Some(refusal_reply(alloc, &ErrorCode::SnapshotLost)?))
}

/// The reply that an exchange gets now, late or not, where there is one.
pub(crate) fn reply_for(
    alloc: Global,
    server: &Server,
    asked: &Asked,
    role: Role,
    late: bool,
) -> Result<Option<Reply>, OutOfMemory>
    requires { IsSituated server.now }
    ensures { (o : Options) (v : law.Server) → servers.Stands o v server.now → WasGiven v (role_of role) → IfOk result (λ reply. reply ≡ reply_in (reply_now o v late (asked_of asked.now) (role_of role))) }
{
    match role {
        Role::Reads => reply_to(alloc, server, asked, late),
        Role::Waits { number } => reply_unless_lost(alloc, server, asked, number, late),
        Role::Owns { number } => reply_unless_lost(alloc, server, asked, number, late),
        Role::HasNone => Ok(None),
    }
}
