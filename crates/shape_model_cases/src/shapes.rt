//! Shapes over histories, and the rows that they show.
ghost use Rattle.std.specs.Prelude.{◌≡◌, ◌≤◌, length};
ghost use Rattle.shape_base.specs.Tables.{IsGoodHistory};

use super::histories::history_of;
use super::logs::answer_line;
use cases::{ask_of, cut, number_of, texts_of};
use shape_base::{Ask, History, OutOfMemory, Text, Texts};
use shape_def::{Def, DefError};
use shape_model::{HistoryError, def_after, good_history, shape_rows};
use std::alloc::Global;

/// The chosen columns between commas: none for `-`.
fn chosen_of(alloc: Global, text: &str) -> Result<Option<Texts>, OutOfMemory> {
    if text == "-" {
        return Ok(None);
    }
    Ok(Some(texts_of(alloc, text, ',')?))
}

/// A clause: none for `-`.
fn clause_of(alloc: Global, text: &str) -> Result<Option<Text>, OutOfMemory> {
    if text == "-" {
        return Ok(None);
    }
    Ok(Some(Text::of(alloc, text)?))
}

/// The rows that the shape of a request shows after some steps.
fn shown_line(
    alloc: Global,
    history: &History,
    steps: u64,
    ask: &Ask,
) -> Result<String, OutOfMemory>
    requires good { IsGoodHistory history.now }
    requires there { steps ≤ length history.now.steps }
    requires table { ask.now.table ≡ 0 }
{
    if history.tables.len() == 0 {
        return Ok(format!(in alloc; "no table")?);
    }
    if history.defs.len() == 0 {
        return Ok(format!(in alloc; "no table")?);
    }
    let definition = def_after(history, 0, steps);
    if definition.table != 0 {
        return Ok(format!(in alloc; "no table")?);
    }
    if definition.columns.len() > 1600 {
        return Ok(format!(in alloc; "no table")?);
    }
    match Def::from_ask(alloc, ask, &history.tables, definition) {
        Ok(test) => answer_line(alloc, shape_rows(alloc, history, &test, steps)),
        Err(DefError::OutOfMemory) => Err(OutOfMemory),
        Err(_) => Ok(format!(in alloc; "no shape")?),
    }
}

/// The same, where the history is good and has so many steps.
fn checked_line(
    alloc: Global,
    history: &History,
    steps: u64,
    ask: &Ask,
) -> Result<String, OutOfMemory>
    requires { ask.now.table ≡ 0 }
{
    if steps > history.steps.len() {
        return Ok(format!(in alloc; "no such step")?);
    }
    match good_history(alloc, history) {
        Ok(()) => shown_line(alloc, history, steps, ask),
        Err(HistoryError::BadHistory { step }) => Ok(format!(in alloc; "bad {step}")?),
        Err(HistoryError::OutOfMemory) => Err(OutOfMemory),
    }
}

/// The rows that a shape shows after some steps of a history, or why it shows none.
pub(crate) fn shape_line(alloc: Global, text: &str) -> Result<String, OutOfMemory> {
    let (steps, rest) = cut(text, ':');
    let (chosen, rest) = cut(rest, ':');
    let (clause, history) = cut(rest, ':');
    let history = history_of(alloc, history, true)?;
    let chosen = chosen_of(alloc, chosen)?;
    let clause = clause_of(alloc, clause)?;
    let ask = ask_of(chosen, clause, Text::of(alloc, "")?);
    checked_line(alloc, &history, number_of(steps), &ask)
}
