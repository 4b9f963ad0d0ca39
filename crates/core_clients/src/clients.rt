//! The clients of a script, each by its number.
ghost use Rattle.std.specs.Prelude.{◌≡◌, [], List, length, slice_get, IfOk, OnOk, OnErr};
ghost use Rattle.std.specs.Option.{option_map, option_and_then};
ghost use Rattle.http_edge.specs.Lawful.{Asked};
ghost use Rattle.core_law.specs.Situation.{Customer, Situation};
ghost use Rattle.core_law.specs.Situation as law;
ghost use Rattle.core_law.specs.Steps.{change_at};
ghost use Rattle.core_law.specs.Clients as steps;
ghost use Rattle.core_law.specs.Run as run;
ghost use Rattle.core_clients.specs.Placing.{placed_ask};
ghost use Rattle.core_clients.specs.Standing.{Stands};
ghost use Rattle.core_clients.specs.Taking.{Takes, Loses};

use super::follower::{Follower, Received};
use fold_client::Query;
use shape_base::{Ask, OutOfMemory, Reply, Text};
use std::alloc::Global;

/// How many bytes a target has at most in a client's head of 16,384 bytes: `GET `, ` HTTP/1.1`, `host: shapes` and `connection: close`, with four line ends, take 50.
const LONGEST_TARGET: usize = 16_334;

/// Whether the head of a client's GET of this target is too long to be read (RFC 9112, section 3): its request line, `host: shapes`, `connection: close` and an empty line have more
/// than 16,384 bytes.
pub fn is_long(target: &Text) -> bool
    ensures { result ≡ steps.is_long target.now }
{
    target.as_bytes().len() > LONGEST_TARGET
}

/// Clients, numbered from 0 in the order in which they joined. For contracts they stand for a list of customers.
#[derive(Drop)]
pub struct Clients {
    alloc: Global,
    followers: Vec<Follower>,
}

impl Clients {
    /// No clients.
    pub fn new(alloc: Global) -> Clients
        ensures { Stands result [] }
    {
        Clients {
            alloc,
            followers: Vec::new(alloc),
        }
    }

    /// How many clients there are.
    pub fn len(&self) -> u64
        ensures { (customers : List Customer) → Stands self.now customers → result ≡ length customers }
    {
        self.followers.len() as u64
    }

    /// A client more, which has nothing yet. Without memory the clients are as they were.
    pub fn join(&mut self, query: Query) -> Result<(), OutOfMemory>
        ensures ok { OnOk result ((s : Situation) (asked : Asked) → Stands self.old s.customers → Stands self.new (run.join s query asked).customers) }
        ensures err { OnErr result ((customers : List Customer) → Stands self.old customers → Stands self.new customers) }
    {
        self.followers.push(Follower::new(self.alloc, query))?;
        Ok(())
    }

    /// The target of a client's next request; none exactly where no client has this number.
    pub fn next_target(&self, client: u32) -> Result<Option<Text>, OutOfMemory>
        ensures { IfOk result (λ target. (customers : List Customer) → Stands self.now customers → target ≡ option_map law.next_target (slice_get customers client)) }
    {
        match self.followers.get(client as usize) {
            Some(follower) => Ok(Some(follower.client.next_target()?)),
            None => Ok(None),
        }
    }

    /// What a client's next target asks for, by what its first one did; none exactly where no client has this number.
    pub fn placed(&self, client: u32, first: &Ask) -> Result<Option<Ask>, OutOfMemory>
        ensures { IfOk result (λ ask. (customers : List Customer) → Stands self.now customers → ask ≡ option_map (λ (c : Customer). placed_ask (law.held_of c) first.now) (slice_get customers client)) }
    {
        match self.followers.get(client as usize) {
            Some(follower) => Ok(Some(follower.placed(self.alloc, first)?)),
            None => Ok(None),
        }
    }

    /// The exchange whose reply a client waits for; none also where no client has this number.
    pub fn waiting(&self, client: u32) -> Option<u32>
        ensures { (customers : List Customer) → Stands self.now customers → result ≡ option_and_then (λ (c : Customer). c.waiting) (slice_get customers client) }
    {
        match self.followers.get(client as usize) {
            Some(follower) => follower.waiting,
            None => None,
        }
    }

    /// A client waits for the reply of an exchange. Where no client has this number, nothing happens.
    pub fn wait(&mut self, client: u32, exchange: u32)
        ensures { (customers : List Customer) → Stands self.old customers → Stands self.new (change_at (steps.waits_at exchange) customers client) }
    {
        let place = client as usize;
        if place < self.followers.len() {
            self.followers[place].waiting = Some(exchange);
        }
    }

    /// A client takes a reply, whichever exchange it came by, and forgets its open exchange. None exactly where no client has this number.
    ///
    /// A reply that ends up to date puts out the block of the client's rows, in byte order of their keys; one by which it starts again puts out a refetch; one of a status
    /// other than 200 and 409 puts out that status. A watch goes on where more pages follow and where the client starts again.
    ///
    /// Without memory the client waits as before, and is as it was, has started again without a handle, or has taken the reply; the others are as they were.
    pub fn take(&mut self, client: u32, reply: &Reply) -> Result<Option<Received>, OutOfMemory>
        ensures takes { IfOk result (λ found. Takes self.old self.new client reply.now found) }
        ensures loses { OnErr result (Loses self.old self.new client reply.now) }
    {
        let place = client as usize;
        if place >= self.followers.len() {
            return Ok(None);
        }
        let received = self.followers[place].take(self.alloc, client, reply)?;
        Ok(Some(received))
    }
}
