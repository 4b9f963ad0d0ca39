//! A list that one holder alone adds to, and traces that say what stood in it.
ghost use Rattle.std.specs.Prelude.{◌≡◌, [], ◌∷◌, ◌++◌, Some, IfOk};
ghost use mathlib.Core.List.{IsPrefix};
ghost use Rattle.front_lock.specs.Passes.{mine, IsWhole, IsSameLock, IsSameShare};

use front_lock::{Adds, FrontLock, Note, Pass, Stands};
use std::alloc::{AllocError, Global};
use std::marker::{Brand, Model, PhantomData};
use std::snapshot::Snapshot;
use std::sync::Wait;

/// A state that is nothing, with any history.
#[derive(Drop)]
pub struct Blank<E> {
    of: PhantomData<E>,
}

impl<E> Stands for Blank<E> {
    type Event = E;

    type Fixed = ();

    ghost no_data = { tt };

    ghost fixed = { λ _. tt };

    ghost stands = { λ _ _ _ _. Unit {0} };
}

/// The right to add to a list. Contracts see which list it is and what stands in it.
#[derive(Drop)]
pub struct Pen<E> {
    lock: FrontLock<Blank<E>>,
    pass: Option<Pass<Blank<E>>>,
}

impl<E> Model for Pen<E> {
    ghost use Rattle.std.specs.Prelude.{◌≡◌, IsSome};
    ghost use Rattle.lock_events.specs.Written.{Written, known_in, IsPen};

    ghost Value = { Written E };

    ghost view = { λ p. record { of = p.lock; list = (known_in tt p.pass).seen } };

    ghost invariant = { λ p. IsSome p.pass × IsPen p.lock (known_in tt p.pass) };
}

/// What stood in the list of a pen at some time.
#[derive(Drop)]
pub struct Trace<E> {
    note: Note<Blank<E>>,
}

impl<E> Model for Trace<E> {
    ghost use Rattle.lock_events.specs.Written.{Written};

    ghost Value = { Written E };

    ghost view = { λ t. record { of = t.note.lock; list = t.note.seen } };
}

// Adds the event to the lock's history.
fn write_as<E, A: Adds<E>, R: Wait>(
    rt: &R,
    lock: &FrontLock<Blank<E>>,
    pass: Pass<Blank<E>>,
    event: &Snapshot<E>,
) -> Pass<Blank<E>>
    requires lock { pass.lock ≡ lock.now }
    requires whole { IsWhole pass }
    requires event { A.event ≡ Some event.now.value }
    ensures lock { IsSameLock pass result × IsSameShare pass result }
    ensures seen { result.seen ≡ pass.seen ++ event.now.value ∷ [] }
    ensures mine { mine result ≡ result.seen }
{
    let (held, state) = lock.take(rt, pass);
    lock.give::<A>(held, state, true)
}

impl<E> Pen<E> {
    /// A pen with an empty list of its own.
    pub fn new(alloc: Global) -> Result<Pen<E>, AllocError>
        ensures { IfOk result (λ p. p.list ≡ []) }
    {
        match FrontLock::new(alloc, Blank { of: PhantomData }) {
            Ok((lock, pass)) => Ok(Pen {
                lock,
                pass: Some(pass),
            }),
            Err(e) => Err(e),
        }
    }

    /// Adds the event.
    pub fn write<R: Wait>(&mut self, rt: &R, event: &Snapshot<E>)
        ensures of { self.new.of ≡ self.old.of }
        ensures list { self.new.list ≡ self.old.list ++ event.now.value ∷ [] }
    {
        let Some(pass) = self.pass.take() else {
            unreachable!()
        };
        self.pass = Some(write_as::<E, Brand, R>(rt, &self.lock, pass, event));
    }

    /// What stands in the list.
    pub fn trace(&mut self) -> Trace<E>
        ensures trace { result ≡ self.old }
        ensures kept { self.new ≡ self.old }
    {
        let Some(mut pass) = self.pass.take() else {
            unreachable!()
        };
        let Ok(note) = self.lock.note(&mut pass) else {
            unreachable!()
        };
        self.pass = Some(pass);
        Trace { note }
    }

    /// What a trace of this list says stands at its front.
    pub fn compare(&mut self, trace: Trace<E>)
        requires { trace.of ≡ self.old.of }
        ensures kept { self.new ≡ self.old }
        ensures front { IsPrefix trace.list self.old.list }
    {
        let Some(pass) = self.pass.take() else {
            unreachable!()
        };
        let Trace { note } = trace;
        self.pass = Some(self.lock.learn(pass, note));
    }
}
