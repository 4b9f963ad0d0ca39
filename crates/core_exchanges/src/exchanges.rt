//! All exchanges.
ghost use Rattle.std.specs.Prelude.{◌≡◌, [], ◌∷◌, ◌++◌, List, length, slice_get, take_while, true, IfOk, OnOk, OnErr};
ghost use Rattle.std.specs.Option.{option_copied};
ghost use Rattle.std.specs.Ordering.{nat_cmp};
ghost use Rattle.std.specs.List.Sorted.{IsStrictlySortedBy};
ghost use Rattle.fold_client.specs.Following.{Heard};
ghost use Rattle.core_law.specs.Situation as law;
ghost use Rattle.core_law.specs.Situation.{Options, Situation};
ghost use Rattle.core_law.specs.Steps.{change_at};
ghost use Rattle.core_law.specs.Clients as steps;
ghost use Rattle.core_law.specs.Reached.{MomentsRise};
ghost use Rattle.core_exchanges.specs.Standing.{Stands, StandsFor, StandsThere, ArePlaces, awaits, is_open, has_space};
ghost use Rattle.core_exchanges.specs.Giving.{given_to, HearsAs, is_late, is_late_there};

use super::exchange::Exchange;
use super::indexes::Indexes;
use shape_base::{OutOfMemory, Reply};
use std::alloc::Global;

/// How many exchanges there may be.
const EXCHANGE_LIMIT: usize = 10_000;

/// Exchanges, numbered from 0 in the order in which they came. For contracts they stand for a list of exchanges.
#[derive(Drop)]
pub struct Exchanges {
    alloc: Global,
    items: Vec<Exchange>,
    indexes: Indexes,
}

/// The exchange in a place.
fn item_at(items: &[Exchange], index: u32) -> Option<&Exchange>
    ensures { option_copied result ≡ slice_get items.now index }
{
    items.get(index as usize)
}

/// One more, behind the others.
fn put(items: &mut Vec<Exchange>, exchange: Exchange) -> Result<(), OutOfMemory>
    ensures ok { OnOk result (items.new.items ≡ items.old.items ++ exchange ∷ []) }
    ensures err { OnErr result (items.new.items ≡ items.old.items) }
{
    items.push(exchange)?;
    Ok(())
}

impl Exchanges {
    /// No exchanges.
    pub fn new(alloc: Global) -> Exchanges
        ensures { Stands result [] }
    {
        Exchanges {
            alloc,
            items: Vec::new(alloc),
            indexes: Indexes::new(alloc),
        }
    }

    /// How many there are.
    pub fn len(&self) -> u64
        ensures { (xs : List law.Exchange) → Stands self.now xs → result ≡ length xs }
    {
        self.items.len() as u64
    }

    /// Whether there is room for one more: there are fewer than 10,000.
    pub fn has_room(&self) -> bool
        ensures space { result ≡ has_space self.now }
        ensures room { (s : Situation) → Stands self.now s.exchanges → result ≡ steps.has_room s }
    {
        self.items.len() < EXCHANGE_LIMIT
    }

    /// The exchange in a place; none exactly past the end.
    pub fn get(&self, index: u32) -> Option<&Exchange>
        ensures { (xs : List law.Exchange) → Stands self.now xs → StandsThere (option_copied result) (slice_get xs index) }
    {
        item_at(self.items.as_slice(), index)
    }

    /// One more that has no reply, at the end.
    fn push_open(&mut self, index: u32, exchange: Exchange) -> Result<u32, OutOfMemory>
        ensures index { IfOk result (λ place. place ≡ index) }
        ensures ok { OnOk result ((xs : List law.Exchange) (x : law.Exchange) → Stands self.old xs → index ≡ length xs → StandsFor exchange x → is_open x ≡ true → Stands self.new (xs ++ x ∷ [])) }
        ensures err { OnErr result ((xs : List law.Exchange) → Stands self.old xs → index ≡ length xs → Stands self.new xs) }
    {
        let number = exchange.awaited();
        self.indexes.add(index, number)?;
        match put(&mut self.items, exchange) {
            Ok(()) => Ok(index),
            Err(error) => {
                self.indexes.remove(index, number);
                Err(error)
            }
        }
    }

    /// One more, behind the others. Without memory all is as it was.
    pub fn push(&mut self, exchange: Exchange) -> Result<u32, OutOfMemory>
        requires { has_space self.old ≡ true }
        ensures ok { IfOk result (λ index. (xs : List law.Exchange) (x : law.Exchange) → Stands self.old xs → StandsFor exchange x → (index ≡ length xs) × Stands self.new (xs ++ x ∷ [])) }
        ensures err { OnErr result ((xs : List law.Exchange) → Stands self.old xs → Stands self.new xs) }
    {
        let index = self.items.len() as u32;
        if exchange.given.is_some() {
            put(&mut self.items, exchange)?;
            return Ok(index);
        }
        self.push_open(index, exchange)
    }

    /// The places of those that have no reply and await a number, rising.
    pub fn awaiting(&self, number: u64) -> Result<Vec<u32>, OutOfMemory>
        ensures { IfOk result (λ places. (xs : List law.Exchange) → Stands self.now xs → ArePlaces (awaits number) xs places.items) }
    {
        self.indexes.awaiting(number)
    }

    /// The exchange in a place has this reply, unless it has one, and awaits nothing any more. Past the end nothing happens.
    pub fn give(&mut self, index: u32, reply: Reply)
        ensures { (xs : List law.Exchange) (heard : law.Exchange → Heard) → HearsAs heard reply → Stands self.old xs → Stands self.new (change_at (given_to heard) xs index) }
    {
        let place = index as usize;
        if place < self.items.len() {
            let number = self.items[place].awaited();
            self.items[place].hear(reply);
            self.indexes.remove(index, number);
        }
    }

    /// Whether the exchange in a place was held for as long as it may be.
    fn is_late(&self, index: u32, now: u64, hold: u64) -> bool
        ensures { result ≡ is_late_there now hold (slice_get self.now.items.items index) }
    {
        match item_at(self.items.as_slice(), index) {
            Some(exchange) => exchange.is_late(now, hold),
            None => false,
        }
    }

    /// The places of those that have no reply and are late, before the first that is not.
    fn late_front(&self, now: u64, hold: u64) -> Result<Vec<u32>, OutOfMemory>
        ensures ordered { IsStrictlySortedBy nat_cmp self.now.indexes.unanswered.keys }
        ensures front { IfOk result (λ places. places.items ≡ take_while (λ p. is_late_there now hold (slice_get self.now.items.items p)) self.now.indexes.unanswered.keys) }
    {
        let open = self.indexes.unanswered.iter().copied();
        let late = open.take_while(|&index| self.is_late(index, now, hold));
        Ok(late.collect(self.alloc)?)
    }

    /// The places of those that have no reply and were held for `hold` milliseconds or longer at the moment `now`, rising. Where one came earlier than one before it, nothing is said.
    pub fn late(&self, now: u64, hold: u64) -> Result<Vec<u32>, OutOfMemory>
        ensures { IfOk result (λ places. (o : Options) (xs : List law.Exchange) → Stands self.now xs → MomentsRise xs → o.limits.hold ≡ hold → ArePlaces (is_late o now) xs places.items) }
    {
        self.late_front(now, hold)
    }
}
