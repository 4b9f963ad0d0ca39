//! The lock.
ghost use Rattle.std.specs.Prelude.{◌≡◌, ◌+◌, ◌<◌, true, [], ◌∷◌, ◌++◌, length, IfOk, IfErr, IsOk, IsSome, if◌then◌else◌};
ghost use mathlib.Core.List.{IsPrefix};
ghost use Rattle.front_lock.specs.Rule.{added, any_of, picked, marked};
ghost use Rattle.front_lock.specs.Passes.{mine, IsWhole, IsSameShare, IsHalfOf, IsShareOfBoth, IsSameLock};

use crate::pass::{Held, Note, Pass};
use crate::plays::{Halve, Tell};
use crate::sleepers::Sleepers;
use crate::stands::{Adds, Stands};
use crate::steps::{SERVING, TICKET, await_turn, count, draw, enter, leave, put, unite};
use crate::view::{Ticketed, View};
use atomic_table::{Refused, Table};
use std::alloc::{AllocError, AllocFailed, Global};
use std::marker::Model;
use std::snapshot::Snapshot;
use std::sync::Wait;

/// A state that was taken and not given back: the ticket `serving` was never served to its end, since its `Held` was
/// let go. `ticket` is the next one that would have been drawn, so it is above `serving`.
#[derive(Debug, Drop)]
pub struct Taken {
    pub ticket: u64,
    pub serving: u64,
}

/// A state that one caller at a time takes. Contracts see which lock it is.
///
/// A lock has a history, the list of the events of its state, which exists in proofs alone. What a caller knows of it
/// stands in its `Pass`.
#[derive(Drop)]
pub struct FrontLock<S: Stands> {
    table: Table<Option<S>, View<S::Event, S::Fixed>, Snapshot<S>, Ticketed<S>, Global>,
    sleepers: Sleepers,
}

impl<S: Stands> Model for FrontLock<S> {
    ghost use Rattle.std.specs.Prelude.{◌≡◌};
    ghost use Rattle.atomic_table.specs.Seated.{TableId, table_id_coded};

    ghost Value = { TableId };

    ghost coded = { table_id_coded };

    ghost view = { λ l. l.table.shared.table_id };

    ghost invariant = { λ l. (l.table.shared.table_id.words ≡ 3) × (l.table.shared.table_id.slots ≡ 1) };
}

impl<S: Stands> FrontLock<S> {
    /// A lock with this state and no events, and the pass that has the whole share of it. The state's own data are
    /// the lock's from then on. `AllocError` where there is no memory; the state is then lost.
    pub fn new(alloc: Global, state: S) -> Result<(FrontLock<S>, Pass<S>), AllocError>
        requires { S.stands state (S.fixed state) 0 [] }
        ensures lock { IfOk result (λ r. r.1.lock ≡ r.0) }
        ensures data { IfOk result (λ r. r.1.fixed ≡ S.fixed state) }
        ensures seen { IfOk result (λ r. (r.1.seen ≡ []) × (r.1.own ≡ [])) }
        ensures whole { IfOk result (λ r. IsWhole r.1 × (r.1.depth ≡ 0)) }
    {
        let about = Snapshot::of(&state);
        let mut slots = Vec::new(alloc);
        if let Err(AllocFailed { value: _ }) = slots.push(Some(state)) {
            return Err(AllocError);
        }
        match Table::new(alloc, &[0, 0, 0], slots, &about) {
            Ok((table, seat)) => {
                let sleepers = Sleepers::new();
                Ok((FrontLock { table, sleepers }, Pass { seat }))
            }
            Err(Refused { slots: _ }) => Err(AllocError),
        }
    }

    /// Waits for the caller's turn, and hands out the state. It stands for all events so far, which extend those that
    /// the pass had seen; the caller has then seen them.
    pub fn take<R: Wait>(&self, rt: &R, pass: Pass<S>) -> (Held<S>, S)
        requires { pass.lock ≡ self.now }
        ensures stands { S.stands result.1 pass.fixed 0 result.0.seen }
        ensures seen { IsPrefix pass.seen result.0.seen }
        ensures mine { (result.0.own ≡ pass.own) × (mine result.0 ≡ mine pass) }
        ensures lock { IsSameLock pass result.0 × IsSameShare pass result.0 }
        ensures whole { IsWhole pass → (pass.seen ≡ result.0.seen) × (mine result.0 ≡ result.0.seen) }
    {
        let Pass { mut seat } = pass;
        let table = &self.table.shared;
        let ticket = draw(rt, table, &self.sleepers, &mut seat);
        await_turn(rt, table, &mut seat, ticket);
        let state = enter(table, &mut seat, ticket);
        (Held { seat, ticket }, state)
    }

    /// Gives the state back. Exactly where `adds` is true the history gets one event more, the one that the call picks
    /// by `A`, as the caller's own; the state has to stand for the events with it.
    pub fn give<A: Adds<S::Event>>(&self, held: Held<S>, state: S, adds: bool) -> Pass<S>
        requires lock { held.lock ≡ self.now }
        requires event { adds ≡ true → IsSome A.event }
        requires stands { S.stands state held.fixed 0 (held.seen ++ added adds A.event) }
        ensures seen { result.seen ≡ held.seen ++ added adds A.event }
        ensures mine { mine result ≡ mine held ++ added adds A.event }
        ensures own { result.own ≡ (if adds then marked held.own held.seen else held.own) }
        ensures lock { IsSameLock held result × IsSameShare held result }
    {
        let Held { mut seat, ticket } = held;
        let table = &self.table.shared;
        put(table, &mut seat, ticket, state);
        count::<S, A>(table, &mut seat, ticket, adds);
        leave(table, &mut seat, ticket);
        self.sleepers.wake(table);
        Pass { seat }
    }

    /// A second pass, which has seen as much and has no events of its own. Each of the two has half the share. It
    /// always answers Ok.
    pub fn split(&self, pass: &mut Pass<S>) -> Result<Pass<S>, AllocError>
        requires { pass.old.lock ≡ self.now }
        ensures sure { IsOk result }
        ensures second { IfOk result (λ p. IsSameLock pass.old p × (p.seen ≡ pass.old.seen) × (p.own ≡ []) × IsHalfOf pass.old p) }
        ensures first { IfOk result (λ _. IsSameLock pass.old pass.new × (pass.new.seen ≡ pass.old.seen) × (pass.new.own ≡ pass.old.own) × IsHalfOf pass.old pass.new) }
        ensures refused { IfErr result (λ _. pass.new ≡ pass.old) }
    {
        let seat = self.table.shared.split_seat::<Halve>(&mut pass.seat);
        Ok(Pass { seat })
    }

    /// Two passes in one. It has seen at least all that both had, and has the own events and the shares of both. What
    /// it has seen is one legal history: some state stands for it. Both passes show the same data.
    pub fn join(&self, first: Pass<S>, second: Pass<S>) -> Pass<S>
        requires first { first.lock ≡ self.now }
        requires second { second.lock ≡ self.now }
        ensures seen { IsPrefix first.seen result.seen × IsPrefix second.seen result.seen }
        ensures legal { (x : S) × S.stands x first.fixed 0 result.seen }
        ensures data { second.fixed ≡ first.fixed }
        ensures own { result.own ≡ any_of first.own second.own }
        ensures mine { (picked first.own result.seen ≡ mine first) × (picked second.own result.seen ≡ mine second) }
        ensures each_once { length (mine result) ≡ length (mine first) + length (mine second) }
        ensures share { IsShareOfBoth first second result }
        ensures lock { IsSameLock first result }
        ensures whole { IsWhole result → mine result ≡ result.seen }
    {
        let Pass { mut seat } = first;
        let Pass { seat: other } = second;
        unite(&self.table.shared, &mut seat, other);
        Pass { seat }
    }

    /// What the pass has seen, for the holder of another to learn. The pass stays as it is. It always answers Ok.
    pub fn note(&self, pass: &mut Pass<S>) -> Result<Note<S>, AllocError>
        requires { pass.old.lock ≡ self.now }
        ensures sure { IsOk result }
        ensures note { IfOk result (λ n. IsSameLock pass.old n × (n.seen ≡ pass.old.seen)) }
        ensures kept { pass.new ≡ pass.old }
    {
        let seat = self.table.shared.split_seat::<Tell>(&mut pass.seat);
        Ok(Note { seat })
    }

    /// The pass has then seen at least all that it and the noting pass had. Its own events and its share stay.
    pub fn learn(&self, pass: Pass<S>, note: Note<S>) -> Pass<S>
        requires pass { pass.lock ≡ self.now }
        requires note { note.lock ≡ self.now }
        ensures seen { IsPrefix pass.seen result.seen × IsPrefix note.seen result.seen }
        ensures legal { (x : S) × S.stands x pass.fixed 0 result.seen }
        ensures mine { (result.own ≡ pass.own) × (mine result ≡ mine pass) }
        ensures lock { IsSameLock pass result × IsSameShare pass result }
        ensures whole { IsWhole result → mine result ≡ result.seen }
    {
        let Pass { mut seat } = pass;
        let Note { seat: other } = note;
        unite(&self.table.shared, &mut seat, other);
        Pass { seat }
    }

    /// Ends the lock and hands out its state, which stands for all events; they extend those that the pass had seen.
    /// `Taken` exactly where the ticket word and the serving word differ, so that some `Held` was never given back.
    /// The state is then lost. It never comes to a pass with the whole share.
    pub fn close(self, pass: Pass<S>) -> Result<S, Taken>
        requires { pass.lock ≡ self }
        ensures state { IfOk result (λ s. (events : _) × IsPrefix pass.seen events × S.stands s pass.fixed 0 events × (IsWhole pass → events ≡ pass.seen)) }
        ensures whole { IsWhole pass → IsOk result }
        ensures taken { IfErr result (λ t. t.serving < t.ticket) }
    {
        let FrontLock { table, sleepers: _ } = self;
        let Pass { seat } = pass;
        let mut closed = table.close_with(seat);
        let ticket = closed.word(TICKET);
        let serving = closed.word(SERVING);
        let slot = closed.take(0);
        closed.free();
        if ticket != serving {
            return Err(Taken { ticket, serving });
        }
        match slot {
            Some(state) => Ok(state),
            None => unreachable!(),
        }
    }
}
