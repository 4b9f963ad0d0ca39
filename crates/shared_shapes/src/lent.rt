//! A pass that a call takes out and puts back.
ghost use Rattle.std.specs.Prelude.{◌≡◌, []};
ghost use mathlib.Core.List.{IsPrefix};
ghost use Rattle.front_lock.specs.Passes.{mine, IsSameLock, IsSameShare};
ghost use Rattle.shared_shapes.specs.Sharing.{Halves, Tells};

use front_lock::{FrontLock, Note, Pass, Stands};
use std::marker::Model;

/// A pass, which is out only while a call has it. Contracts see what the pass knows.
#[derive(Drop)]
pub struct Lent<S: Stands> {
    pub(crate) pass: Option<Pass<S>>,
}

impl<S: Stands> Model for Lent<S> {
    ghost use Rattle.std.specs.Prelude.{IsSome};
    ghost use Rattle.front_lock.specs.Passes.{Known};
    ghost use Rattle.lock_events.specs.Written.{known_in};

    ghost Value = { Known S.Event S.Fixed };

    ghost view = { λ l. known_in S.no_data l.pass };

    ghost invariant = { λ l. IsSome l.pass };
}

impl<S: Stands> Lent<S> {
    /// A second pass that has seen as much, with no events of its own.
    pub(crate) fn split(&mut self, lock: &FrontLock<S>) -> Lent<S>
        requires { self.old.lock ≡ lock.now }
        ensures first { Halves self.old self.new self.old.own }
        ensures second { Halves self.old result [] }
    {
        let Some(mut pass) = self.pass.take() else {
            unreachable!()
        };
        let Ok(second) = lock.split(&mut pass) else {
            unreachable!()
        };
        self.pass = Some(pass);
        Lent { pass: Some(second) }
    }

    /// What it has seen, for another to learn.
    pub(crate) fn note(&mut self, lock: &FrontLock<S>) -> Note<S>
        requires { self.old.lock ≡ lock.now }
        ensures kept { self.new ≡ self.old }
        ensures note { IsSameLock self.old result × (result.seen ≡ self.old.seen) }
    {
        let Some(mut pass) = self.pass.take() else {
            unreachable!()
        };
        let Ok(note) = lock.note(&mut pass) else {
            unreachable!()
        };
        self.pass = Some(pass);
        note
    }

    /// It has then seen what the note tells.
    pub(crate) fn learn(&mut self, lock: &FrontLock<S>, note: Note<S>)
        requires lock { (self.old.lock ≡ lock.now) × (note.lock ≡ lock.now) }
        ensures on { Tells self.old note.seen self.new }
        ensures share { IsSameShare self.old self.new }
        ensures legal { (x : S) × S.stands x self.old.fixed 0 self.new.seen }
    {
        let Some(pass) = self.pass.take() else {
            unreachable!()
        };
        self.pass = Some(lock.learn(pass, note));
    }

    /// It has then seen what the other has, which has no events of its own, and has the share of both.
    pub(crate) fn join(&mut self, lock: &FrontLock<S>, other: Lent<S>)
        requires lock { (self.old.lock ≡ lock.now) × (other.lock ≡ lock.now) }
        requires bare { other.own ≡ [] }
        ensures on { Tells self.old other.seen self.new }
        ensures data { other.fixed ≡ self.old.fixed }
        ensures legal { (x : S) × S.stands x self.old.fixed 0 self.new.seen }
    {
        let Some(first) = self.pass.take() else {
            unreachable!()
        };
        let Lent { pass } = other;
        let Some(second) = pass else { unreachable!() };
        self.pass = Some(lock.join(first, second));
    }
}
