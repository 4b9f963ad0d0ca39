//! A script from its first byte: record after record, until one of them ends it or none is left.
ghost use Rattle.std.specs.Prelude.{◌≡◌, ◌≢◌, ◌+◌, ◌≤◌, ◌++◌, true, take, drop, length, nat_lt, [], List, ℕ, IfOk, IfErr, OnErr, IsErrOf};
ghost use Rattle.shape_base.specs.Outside.{Rose, AddsFront};
ghost use Rattle.script.specs.Items.{items_of};
ghost use Rattle.script.specs.Reading.{since};
ghost use Rattle.script_play.specs.Settings.{AreLimits};
ghost use Rattle.script_play.specs.Replaying.{CameOut};

use crate::playing::{Stage, play_item};
use crate::stop::Stop;
use script::next_item;
use shape_base::{Limits, Sink, Source};
use std::alloc::Global;

/// Whether bytes stand past the limit, where all within it were read.
fn has_more<S: Source>(source: &mut S, budget: usize) -> Result<bool, Stop>
    requires { S.tells ≡ true → take budget (S.left source.old) ≡ [] }
    ensures more { S.tells ≡ true → IfOk result (λ more. more ≡ nat_lt 0 (length (drop budget (S.left source.old)))) }
    ensures given { S.tells ≡ true → length (S.given source.new) ≤ length (S.given source.old) + 1 }
    ensures kept { S.tells ≡ true → OnErr result (S.given source.new ≡ S.given source.old) }
    ensures later { S.failed_reads source.old ≤ S.failed_reads source.new }
    ensures fault { IsErrOf result Stop.ReadFault → Rose (S.failed_reads source.old) (S.failed_reads source.new) }
    ensures causes { IfErr result (λ e. e ≡ Stop.ReadFault) }
{
    if budget > 0 {
        return Ok(false);
    }
    let mut room = [0; 1];
    match source.read(&mut room) {
        Ok(count) => Ok(count > 0),
        Err(_) => Err(Stop::ReadFault),
    }
}

/// Plays the records among the first bytes of a source, so many at most, and writes what they put out.
///
/// `limit` is in bytes. It answers Ok at the end record, and else why the script stopped before it.
pub fn play<S: Source, K: Sink>(
    alloc: Global,
    limits: Limits,
    limit: usize,
    input: &mut S,
    out: &mut K,
) -> Result<(), Stop>
    ensures came_out { (words : List (List ℕ)) → AreLimits words limits → S.tells ≡ true → CameOut words (items_of (take limit (S.left input.old))) (items_of (since (S.given input.old) (S.given input.new))) (nat_lt limit (length (S.left input.old))) (λ text. K.tells ≡ true → K.written out.new ≡ K.written out.old ++ text) (λ text. K.tells ≡ true → AddsFront (K.written out.old) (K.written out.new) text) result }
    ensures given { S.tells ≡ true → length (S.given input.new) ≤ length (S.given input.old) + (limit + 1) }
    ensures causes { IfErr result (λ e. e ≢ Stop.Usage) }
    ensures read_fault { IsErrOf result Stop.ReadFault → Rose (S.failed_reads input.old) (S.failed_reads input.new) }
    ensures write_fault { IsErrOf result Stop.WriteFault → Rose (K.failed_writes out.old) (K.failed_writes out.new) }
{
    let mut room = [0; 4096];
    let mut stage = Stage::new(alloc);
    let mut budget = limit;
    'records: loop {
        let place = (limit - budget) as u64;
        let Some(item) = next_item(alloc, input, &mut room, &mut budget)? else {
            if has_more(input, budget)? {
                return Err(Stop::TooLong);
            }
            return Err(Stop::Unfinished);
        };
        if !play_item(alloc, out, limits, &mut stage, place, item)? {
            return Ok(());
        }
    }
}
