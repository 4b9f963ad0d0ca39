//! The rounds of a drill.
ghost use Rattle.std.specs.Prelude.{◌≡◌, ◌<◌, ◌≤◌, ◌+◌, List, [], IfOk, OnOk};
ghost use Rattle.drill_work.specs.Rounds.{IsSound, IsWithin, rounded, begun, enqueued, emptied, committed, truncated, asked, turn_by, round, turns};

use crate::chance::Chance;
use crate::change::changes;
use crate::plain::{Commit, Commits, Plain, Statement, Statements};
use shape_base::{OutOfMemory, Seq};
use std::alloc::Global;
use std::mem;

/// What a round brings.
#[derive(Drop)]
pub enum Turn {
    /// These commits are streamed, in their order; there may be none.
    Streams(Commits),
    /// A client watches; or it takes an earlier reply that it asks for, where there is one and it may.
    Asks { client: u32, earlier: bool },
    /// Each snapshot under way gets its rows, and then the clock shows so many milliseconds.
    Gives { now: u64 },
}

/// What the rounds of a drill are.
pub type Turns = Seq<Turn>;

/// A drill between two rounds.
#[derive(Drop)]
pub struct Drill {
    pub chance: Chance,
    /// The table after all commits that were made.
    pub plain: Plain,
    /// How many commits were made.
    pub commits: u16,
    /// The commits that were made and not yet streamed.
    pub queue: Commits,
    /// How many rounds were run.
    pub rounds: u64,
}

/// How many rounds a drill has.
pub const ROUNDS: u64 = 2_000;

impl Drill {
    /// The drill of a number, before its first round.
    pub fn new(alloc: Global, number: u64) -> Drill
        ensures begun { result ≡ begun number }
        ensures sound { IsSound result }
    {
        Drill {
            chance: Chance { state: number },
            plain: Plain {
                rows: Seq::new(alloc),
                fresh: 1,
            },
            commits: 0,
            queue: Seq::new(alloc),
            rounds: 0,
        }
    }

    /// Makes a commit of these changes, and queues it.
    fn enqueue(&mut self, statements: Statements) -> Result<(), OutOfMemory>
        requires { self.old.commits < 65535 }
        ensures { OnOk result (self.new ≡ enqueued statements self.old) }
    {
        let commit = Commit {
            number: self.commits,
            statements,
        };
        self.queue.push(commit)?;
        self.commits += 1;
        Ok(())
    }

    /// The whole queue, which is empty then.
    fn release(&mut self, alloc: Global) -> Commits
        ensures queue { result ≡ self.old.queue }
        ensures rest { self.new ≡ emptied self.old }
    {
        mem::replace(&mut self.queue, Seq::new(alloc))
    }

    /// A commit of one to four changes. In one of three cases it waits, and else the queue is streamed.
    #[tactic(auto, unfolding(crate::specs::Rounds::committed))]
    fn commit(&mut self, alloc: Global) -> Result<Turn, OutOfMemory>
        requires ids { self.old.plain.fresh + 4 ≤ 4294967296 }
        requires number { self.old.commits < 65535 }
        ensures commits { IfOk result (λ turn. committed self.old ≡ rounded turn self.new) }
        ensures small { OnOk result (IsWithin self.old self.new) }
    {
        let count = 1 + self.chance.next(4);
        let statements = changes(alloc, &mut self.chance, &mut self.plain, count)?;
        self.enqueue(statements)?;
        if self.chance.next(3) == 0 {
            return Ok(Turn::Streams(Seq::new(alloc)));
        }
        Ok(Turn::Streams(self.release(alloc)))
    }

    /// In one of fifty cases a commit that truncates the table, and then the queue is streamed.
    #[tactic(auto, unfolding(crate::specs::Rounds::truncated))]
    fn truncate(&mut self, alloc: Global) -> Result<Turn, OutOfMemory>
        requires { self.old.commits < 65535 }
        ensures truncates { IfOk result (λ turn. truncated self.old ≡ rounded turn self.new) }
        ensures small { OnOk result (IsWithin self.old self.new) }
    {
        if self.chance.next(50) > 0 {
            return Ok(Turn::Streams(Seq::new(alloc)));
        }
        let mut statements = Seq::new(alloc);
        statements.push(Statement::Truncate)?;
        self.plain.rows = Seq::new(alloc);
        self.enqueue(statements)?;
        Ok(Turn::Streams(self.release(alloc)))
    }

    /// A client's turn.
    #[tactic(auto, unfolding(crate::specs::Rounds::asked))]
    fn ask(&mut self) -> Turn
        ensures asks { asked self.old ≡ rounded result self.new }
        ensures small { IsWithin self.old self.new }
    {
        let client = self.chance.next(4) as u32;
        let earlier = self.chance.next(4) == 0;
        Turn::Asks { client, earlier }
    }

    /// What a round of this kind brings.
    #[tactic(auto, unfolding(crate::specs::Rounds::turn_by))]
    fn turn_by(&mut self, alloc: Global, kind: u64) -> Result<Turn, OutOfMemory>
        requires ids { self.old.plain.fresh + 4 ≤ 4294967296 }
        requires number { self.old.commits < 65535 }
        requires rounds { self.old.rounds < 2000 }
        ensures brings { IfOk result (λ turn. turn_by kind self.old ≡ rounded turn self.new) }
        ensures small { OnOk result (IsWithin self.old self.new) }
    {
        match kind {
            0..=5 => self.commit(alloc),
            6 => self.truncate(alloc),
            7..=8 => Ok(self.ask()),
            _ => Ok(Turn::Gives {
                now: 20_000 * (self.rounds + 1),
            }),
        }
    }

    /// Runs the next round, and gives what it brings. After want of memory the drill is of no use.
    #[tactic(auto, unfolding(crate::specs::Rounds::round))]
    pub fn round(&mut self, alloc: Global) -> Result<Turn, OutOfMemory>
        requires sound { IsSound self.old }
        requires more { self.old.rounds < 2000 }
        ensures round { IfOk result (λ turn. round self.old ≡ rounded turn self.new) }
        ensures sound { OnOk result (IsSound self.new) }
        ensures one { OnOk result (self.new.rounds ≡ self.old.rounds + 1) }
    {
        let kind = self.chance.next(10);
        let turn = self.turn_by(alloc, kind)?;
        self.rounds += 1;
        Ok(turn)
    }
}

/// All rounds of the drill of a number.
pub fn turns(alloc: Global, number: u64) -> Result<Turns, OutOfMemory>
    ensures { IfOk result (λ all. all ≡ turns 2000 (begun number)) }
{
    let mut drill = Drill::new(alloc, number);
    let mut all = Seq::new(alloc);
    for _ in 0..ROUNDS {
        all.push(drill.round(alloc)?)?;
    }
    Ok(all)
}
