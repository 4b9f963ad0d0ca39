//! How exchanges are given their replies.
ghost use Rattle.std.specs.Prelude.{◌≡◌, ◌++◌, ℕ, List, OnOk, IfOk, true};
ghost use Rattle.std.specs.Option.{option_map};
ghost use Rattle.core_law.specs.Situation as law;
ghost use Rattle.core_law.specs.Situation.{Options};
ghost use Rattle.core_law.specs.Reached.{HasText, WasGiven};
ghost use Rattle.core_exchanges.specs.Standing.{asked_of, role_of};
ghost use Rattle.core_server.specs.Standing as servers;
ghost use Rattle.core_server.specs.Standing.{IsSituated};
ghost use Rattle.core_machine.specs.Replying.{reply_in, reply_at};
ghost use Rattle.core_machine.specs.Answering.{CanAnswer, Answers, AnswersAll, text_of};

use crate::replying::reply_for;
use core_events::{Out, Outs};
use core_exchanges::{Exchange, Exchanges};
use core_server::Server;
use http_edge::{ErrorCode, refusal_reply, write_reply};
use shape_base::{OutOfMemory, Reply};
use std::alloc::Global;

/// An exchange that is refused whatever else it would get.
#[derive(Drop)]
pub struct Refusal {
    pub index: u32,
    pub code: ErrorCode,
}

/// The reply that an exchange without one gets now, where there is one.
fn reply_now(
    alloc: Global,
    server: &Server,
    exchange: &Exchange,
    index: u32,
    late: bool,
    refusal: &Option<Refusal>,
) -> Result<Option<Reply>, OutOfMemory>
    requires { IsSituated server.now }
    ensures { (o : Options) (v : law.Server) → servers.Stands o v server.now → WasGiven v (role_of exchange.now.role) → IfOk result (λ reply. reply ≡ reply_in (reply_at o v late refusal.now index (asked_of exchange.now.asked) (role_of exchange.now.role))) }
{
    if let Some(refusal) = refusal {
        if refusal.index == index {
            return Ok(Some(refusal_reply(alloc, &refusal.code)?));
        }
    }
    reply_for(alloc, server, &exchange.asked, exchange.role, late)
}

/// The reply of an exchange that came from outside is put out as its text.
fn put_out(
    alloc: Global,
    exchange: &Exchange,
    index: u32,
    reply: &Reply,
    outs: &mut Outs,
) -> Result<(), OutOfMemory>
    requires { HasText reply.now }
    ensures { OnOk result (outs.new ≡ outs.old ++ text_of index exchange.now.outside exchange.now.close reply.now) }
{
    if !exchange.outside {
        return Ok(());
    }
    let bytes = write_reply(alloc, reply, exchange.close)?;
    outs.push(Out::Given {
        exchange: index,
        bytes,
    })?;
    Ok(())
}

/// The exchange in a place has its reply, where there is one now and it has none yet. One that came from outside has it put out.
pub(crate) fn answer_one(
    alloc: Global,
    server: &Server,
    exchanges: &mut Exchanges,
    index: u32,
    late: bool,
    refusal: &Option<Refusal>,
    outs: &mut Outs,
) -> Result<(), OutOfMemory>
    requires { CanAnswer server.now exchanges.old }
    ensures { OnOk result ((o : Options) (s : law.Situation) (xs : List law.Exchange) → Answers o s xs server.now refusal.now exchanges.old outs.old index late exchanges.new outs.new) }
{
    let Some(exchange) = exchanges.get(index) else {
        return Ok(());
    };
    if exchange.given.is_some() {
        return Ok(());
    }
    let Some(reply) = reply_now(alloc, server, exchange, index, late, refusal)? else {
        return Ok(());
    };
    put_out(alloc, exchange, index, &reply, outs)?;
    exchanges.give(index, reply);
    Ok(())
}

/// The exchanges in these places have their replies, one after the other.
pub(crate) fn answer_all(
    alloc: Global,
    server: &Server,
    exchanges: &mut Exchanges,
    places: &[u32],
    late: bool,
    refusal: &Option<Refusal>,
    outs: &mut Outs,
) -> Result<(), OutOfMemory>
    requires { CanAnswer server.now exchanges.old }
    ensures { OnOk result ((o : Options) (s : law.Situation) (xs : List law.Exchange) → AnswersAll o s xs server.now refusal.now exchanges.old outs.old places.now late exchanges.new outs.new) }
{
    for index in places {
        answer_one(alloc, server, exchanges, *index, late, refusal, outs)?;
    }
    Ok(())
}
