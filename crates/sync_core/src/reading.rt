//! What the bytes of requests and of clients' queries come to.
ghost use Rattle.std.specs.Prelude.{◌≡◌, ◌<◌, ◌^◌, ℕ, ◌⊎◌, IfOk, IfErr, length, Err};
ghost use Rattle.http_edge.specs.Head.{front, Asks};
ghost use Rattle.http_edge.specs.Route.{IsRouteAnswer, IsRouted};
ghost use Rattle.http_edge.specs.declared.refusal.Refusal.TheVariants as refusals;
ghost use Rattle.http_edge.specs.declared.request.HeadError.TheVariants as heads;
ghost use Rattle.core_law.specs.Laws.{get_of};
ghost use Rattle.core_exchanges.specs.Standing.{asked_of};
ghost use Rattle.core_machine.specs.Firsts.{first_asked, IsServedFirst};
ghost use Rattle.core_machine.specs.Firsts as firsts;
ghost use Rattle.sync_core.specs.Reading.{asked_as, refused_head, ReadsHead, ReadsQuery};
ghost use Rattle.sync_core.specs.Coming.{reading_of, joining_of, JoinsWith, IsRefusedWhole, IsServedIn, IsServedJoining};

use core_clients::{QueryError, read_query};
use core_exchanges::Asked;
use core_machine::{First, code_of};
use fold_client::{Query, first_target};
use http_edge::{ErrorCode, HeadError, Refusal, Request, has_more, read_request, route};
use shape_base::{Ask, OutOfMemory, ServedTables, Text};
use std::alloc::Global;

/// What the head of a request comes to.
#[derive(Drop)]
pub(crate) enum Coming {
    /// A request: its target, where its head has one; what it asks for; and whether its connection ends with the reply.
    Request {
        target: Option<Text>,
        asked: Asked,
        close: bool,
    },
    /// The head was cut off.
    Cut,
    /// More bytes follow a whole head.
    More,
}

/// What the web form of a client's query comes to.
#[derive(Drop)]
pub(crate) enum Joining {
    /// A query, and what its first target asks for.
    Query { query: Query, first: First },
    /// It is no form of a query.
    Unread,
}

/// What a routed target asks for; want of memory is no answer.
fn asked_by(routed: Result<Ask, Refusal>) -> Result<Asked, OutOfMemory>
    ensures asked { IfOk result (λ asked. asked_of asked ≡ asked_as routed) }
    ensures kept { IfOk result (λ asked. routed ≡ Err refusals.OutOfMemory → ⊥) }
{
    match routed {
        Ok(ask) => Ok(Asked::AsksFor(ask)),
        Err(Refusal::OutOfMemory) => Err(OutOfMemory),
        Err(refusal) => Ok(Asked::Refused(code_of(refusal))),
    }
}

/// The same of a client's first target.
fn first_by(routed: Result<Ask, Refusal>) -> Result<First, OutOfMemory>
    ensures asked { IfOk result (λ first. first_asked first ≡ asked_as routed) }
    ensures kept { IfOk result (λ first. routed ≡ Err refusals.OutOfMemory → ⊥) }
{
    match routed {
        Ok(ask) => Ok(First::AsksFor(ask)),
        Err(Refusal::OutOfMemory) => Err(OutOfMemory),
        Err(refusal) => Ok(First::Refused(refusal)),
    }
}

/// A head that is refused: it has no target, and its connection ends with the reply.
fn refused(code: ErrorCode) -> Coming
    ensures { reading_of result ≡ refused_head code }
{
    Coming::Request {
        target: None,
        asked: Asked::Refused(code),
        close: true,
    }
}

/// The same of a head behind which more bytes may stand.
fn refused_whole(alloc: Global, bytes: &[u8], code: ErrorCode) -> Result<Coming, OutOfMemory>
    ensures { IfOk result (IsRefusedWhole bytes.now code) }
{
    if has_more(alloc, bytes)? {
        return Ok(Coming::More);
    }
    Ok(refused(code))
}

/// What a request comes to whose head was read.
fn requested(
    alloc: Global,
    tables: &ServedTables,
    bytes: &[u8],
    request: Request,
) -> Result<Coming, OutOfMemory>
    requires few { length tables.now < 2 ^ 32 }
    requires asks { Asks (front bytes.now) request }
    ensures reads { IfOk result (λ coming. ReadsHead tables.now bytes.now (reading_of coming)) }
    ensures served { IfOk result (IsServedIn tables.now) }
{
    if request.length < bytes.len() as u64 {
        return Ok(Coming::More);
    }
    let asked = asked_by(route(alloc, &request, tables))?;
    let Request { target, close, .. } = request;
    Ok(Coming::Request {
        target: Some(target),
        asked,
        close,
    })
}

/// What the head of a request comes to.
pub(crate) fn read_head(
    alloc: Global,
    tables: &ServedTables,
    bytes: &[u8],
) -> Result<Coming, OutOfMemory>
    requires few { length tables.now < 2 ^ 32 }
    ensures reads { IfOk result (λ coming. ReadsHead tables.now bytes.now (reading_of coming)) }
    ensures served { IfOk result (IsServedIn tables.now) }
{
    match read_request(alloc, bytes) {
        Ok(request) => requested(alloc, tables, bytes, request),
        Err(HeadError::Partial) => Ok(Coming::Cut),
        Err(HeadError::HeadTooLong) => refused_whole(alloc, bytes, ErrorCode::HeadTooLong),
        Err(HeadError::BadHead) => Ok(refused(ErrorCode::BadHead)),
        Err(HeadError::BodyRefused) => refused_whole(alloc, bytes, ErrorCode::BodyRefused),
        Err(HeadError::OutOfMemory) => Err(OutOfMemory),
    }
}

/// A GET of a target.
fn get(target: Text) -> Request
    ensures { result ≡ get_of target }
{
    Request {
        length: 0,
        get: true,
        target,
        close: false,
    }
}

/// A client with a query, and what its first target asks for.
fn first_of(alloc: Global, tables: &ServedTables, query: Query) -> Result<Joining, OutOfMemory>
    requires few { length tables.now < 2 ^ 32 }
    ensures joins { IfOk result (λ joining. JoinsWith tables.now query (joining_of joining)) }
    ensures served { IfOk result (IsServedJoining tables.now) }
{
    let request = get(first_target(alloc, &query)?);
    let first = first_by(route(alloc, &request, tables))?;
    Ok(Joining::Query { query, first })
}

/// What the web form of a client's query comes to.
pub(crate) fn read_client(
    alloc: Global,
    tables: &ServedTables,
    bytes: &[u8],
) -> Result<Joining, OutOfMemory>
    requires few { length tables.now < 2 ^ 32 }
    ensures reads { IfOk result (λ joining. ReadsQuery tables.now bytes.now (joining_of joining)) }
    ensures served { IfOk result (IsServedJoining tables.now) }
{
    match read_query(alloc, bytes) {
        Ok(query) => first_of(alloc, tables, query),
        Err(QueryError::BadPayload) => Ok(Joining::Unread),
        Err(QueryError::OutOfMemory) => Err(OutOfMemory),
    }
}
