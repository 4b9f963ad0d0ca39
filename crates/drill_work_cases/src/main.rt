//! Reads lines with numbers, and prints what the drills of these numbers bring in their 2,000 rounds, as `drill_work` has them: a table of its cases.
//!
//! A line of `stdin` is a number of 64 bits. What is printed of its drill: how many commits are made, and how many of them are streamed; how many rounds are a client's, in how many of these it looks for an
//! earlier reply, and how many rounds give snapshots their rows; how many rows are left, the least id that no row had, and the last state of the generator.
#![tactic(auto)]

ghost use Rattle.std.specs.Prelude.{◌≡◌, ◌+◌, ◌≤◌, OnOk};
ghost use Rattle.drill_work.specs.Rounds.{IsSound};

use cases::{Answers, answer_lines};
use drill_work::{Drill, ROUNDS, Turn};
use shape_base::OutOfMemory;
use std::alloc::Global;
use std::io;

/// What answers lines.
#[derive(Drop)]
struct Drills;

/// How much of each kind the rounds brought.
#[derive(Clone, Copy, Drop)]
struct Counts {
    streamed: u64,
    asked: u64,
    looked: u64,
    gave: u64,
}

/// Counts what a round brings. No count passes its type's end.
fn counted(counts: Counts, turn: &Turn) -> Counts {
    let mut counts = counts;
    match turn {
        Turn::Streams(commits) => counts.streamed = counts.streamed.saturating_add(commits.len()),
        Turn::Asks { client: _, earlier } => {
            counts.asked = counts.asked.saturating_add(1);
            if *earlier {
                counts.looked = counts.looked.saturating_add(1);
            }
        }
        Turn::Gives { now: _ } => counts.gave = counts.gave.saturating_add(1),
    }
    counts
}

/// Runs all rounds of a drill that was not run yet.
fn run(alloc: Global, drill: &mut Drill) -> Result<Counts, OutOfMemory>
    requires sound { IsSound drill.old }
    requires begun { drill.old.rounds ≡ 0 }
{
    let mut counts = Counts {
        streamed: 0,
        asked: 0,
        looked: 0,
        gave: 0,
    };
    for _ in 0..ROUNDS {
        let turn = drill.round(alloc)?;
        counts = counted(counts, &turn);
    }
    Ok(counts)
}

impl Answers for Drills {
    fn answer(&mut self, alloc: Global, line: &str) -> Result<Option<String>, OutOfMemory> {
        let number = line.parse::<u64>().unwrap_or(0);
        let mut drill = Drill::new(alloc, number);
        let counts = run(alloc, &mut drill)?;
        let Counts {
            streamed,
            asked,
            looked,
            gave,
        } = counts;
        let commits = drill.commits;
        let rows = drill.plain.rows.len();
        let fresh = drill.plain.fresh;
        let state = drill.chance.state;
        let rounds = format!(in alloc;
            "commits {commits} streamed {streamed} asked {asked} looked {looked} gave {gave}"
        )?;
        Ok(Some(format!(in alloc; "{rounds} rows {rows} fresh {fresh} state {state}")?))
    }
}

fn main(rt: HostRuntime) -> io::Result<()> {
    answer_lines(&rt, &mut Drills)
}
