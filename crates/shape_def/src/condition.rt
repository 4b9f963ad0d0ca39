//! A table's definition with a clause over its columns.
ghost use Rattle.std.specs.Prelude.{◌≡◌, length, None, Some, IfOk, IfErr, MatchResult};
ghost use Rattle.std.specs.Option.{option_map};
ghost use Rattle.std.specs.Arc.{arc_value};
ghost use Rattle.shape_base.specs.Shape.{IsLeast};
ghost use Rattle.shape_def.specs.Clauses.{answer_in, truth_under, unread_under, refusal_by, refusal_of_clause};
ghost use Rattle.shape_def.specs.Definition.{IsRefusal};
ghost use Rattle.shape_def.specs.Held.{IsHeldFor};

use crate::faults::DefError;
use shape_base::{BadValue, Columns, Duplicate, OutOfMemory, Row, TableDef, Text, Tri};
use std::alloc::Global;
use std::marker::Model;
use std::sync::Arc;
use where_eval::{Checked, check};
use where_parser::parse;

/// A checked clause, which copies of a definition share.
type Shared = Arc<Checked, Global>;

/// A table's definition with a clause over its columns.
#[derive(Drop)]
pub(crate) struct Condition {
    definition: TableDef,
    clause: Option<Text>,
    checked: Option<Shared>,
}

impl Model for Condition {
    ghost use Rattle.std.specs.Option.{option_map};
    ghost use Rattle.std.specs.Arc.{arc_value};
    ghost use Rattle.shape_def.specs.Held.{Conditioned, IsHeld};

    ghost Value = { Conditioned };

    ghost view = { λ a. record { definition = a.definition; clause = a.clause } };

    ghost invariant = { λ a. IsHeld a.definition.columns a.clause (option_map arc_value a.checked) };
}

fn share(alloc: Global, checked: Checked) -> Result<Shared, OutOfMemory>
    ensures { IfOk result (λ shared. arc_value shared ≡ checked) }
{
    Ok(Arc::new(alloc, checked)?)
}

/// The clause of a text over columns.
fn check_text(alloc: Global, columns: &Columns, text: &Text) -> Result<Shared, DefError>
    ensures ok { IfOk result (λ shared. IsHeldFor columns.now text.now (arc_value shared) × (refusal_by columns.now (answer_in text.now) ≡ None)) }
    ensures err { IfErr result (λ e. IsRefusal (refusal_by columns.now (answer_in text.now)) e) }
{
    let expr = parse(alloc, text)?;
    let checked = check(alloc, &expr, columns)?;
    Ok(share(alloc, checked)?)
}

fn share_again(shared: &Option<Shared>) -> Result<Option<Shared>, OutOfMemory>
    ensures { IfOk result (λ twin. option_map arc_value twin ≡ option_map arc_value shared.now) }
{
    match shared {
        None => Ok(None),
        Some(shared) => Ok(Some(Arc::try_clone(shared)?)),
    }
}

fn copy_text(alloc: Global, text: &Option<Text>) -> Result<Option<Text>, OutOfMemory>
    ensures { IfOk result (λ twin. twin ≡ text.now) }
{
    match text {
        None => Ok(None),
        Some(text) => Ok(Some(text.copy(alloc)?)),
    }
}

impl Condition {
    /// The condition of a definition and a clause, which are copied. Refuses what is no clause
    /// over the definition's columns.
    pub(crate) fn new(
        alloc: Global,
        definition: &TableDef,
        clause: &Option<Text>,
    ) -> Result<Condition, DefError>
        ensures ok { IfOk result (λ made. (made.definition ≡ definition.now) × (made.clause ≡ clause.now) × (refusal_of_clause definition.now.columns clause.now ≡ None)) }
        ensures err { IfErr result (λ e. IsRefusal (refusal_of_clause definition.now.columns clause.now) e) }
    {
        match clause {
            None => Ok(Condition {
                definition: definition.copy(alloc)?,
                clause: None,
                checked: None,
            }),
            Some(text) => Ok(Condition {
                definition: definition.copy(alloc)?,
                checked: Some(check_text(alloc, &definition.columns, text)?),
                clause: Some(text.copy(alloc)?),
            }),
        }
    }

    pub(crate) fn definition(&self) -> &TableDef
        ensures { result.now ≡ self.now.definition }
    {
        &self.definition
    }

    /// The truth of a row, or `BadValue` with the least column that the clause names and whose
    /// text has no value.
    pub(crate) fn truth(&self, row: &Row) -> Result<Tri, BadValue>
        requires { length row.now ≡ length self.now.definition.columns }
        ensures { MatchResult result (λ tri. truth_under self.now.definition.columns self.now.clause row.now ≡ Some tri) (λ e. (truth_under self.now.definition.columns self.now.clause row.now ≡ None) × IsLeast (unread_under self.now.definition.columns self.now.clause row.now) e.column) }
    {
        match &self.checked {
            None => Ok(Tri::True),
            Some(checked) => where_eval::truth(checked.as_ref(), row),
        }
    }
}

impl Duplicate for Condition {
    fn copy(&self, alloc: Global) -> Result<Condition, OutOfMemory> {
        let definition = self.definition.copy(alloc)?;
        let clause = copy_text(alloc, &self.clause)?;
        let checked = share_again(&self.checked)?;
        Ok(Condition {
            definition,
            clause,
            checked,
        })
    }
}
