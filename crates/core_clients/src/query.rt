//! Queries of clients, read from web forms (URL Standard, section 5).
ghost use Rattle.std.specs.Prelude.{◌≡◌, ◌⊎◌, ◌++◌, ◌∷◌, [], Some, None, List, ℕ, IfOk, IfErr, OnOk};
ghost use Rattle.std.specs.Str.{IsUtf8};
ghost use Rattle.form_urlencoded.specs.Form.{decode, parse};
ghost use Rattle.http_edge.specs.Parameters.{Pair};
ghost use Rattle.fold_client.specs.declared.client.Query.{Query as Asked};
ghost use Rattle.core_clients.specs.QueryForm.{IsQueryOf, IsQueryForm};
ghost use Rattle.core_clients.specs.Reading.{AreRead};
ghost use Rattle.core_clients.specs.declared.query.QueryError.TheVariants as errors;

use super::form::text_of;
use fold_client::Query;
use form_urlencoded::raw_pairs;
use http_edge::has_bad_percent;
use shape_base::{OutOfMemory, Text};
use std::alloc::Global;

/// Why bytes were not read as a query.
#[derive(Clone, Copy, Debug, PartialEq, Eq)]
pub enum QueryError {
    /// They are no web form of a query.
    BadPayload,
    /// An allocation failed.
    OutOfMemory,
}

impl From<OutOfMemory> for QueryError {
    ghost use Rattle.std.specs.Prelude.{◌≡◌};
    ghost use Rattle.core_clients.specs.declared.query.QueryError.TheVariants as errors;

    ghost from_gives = { λ _ e. e ≡ errors.OutOfMemory };

    fn from(_error: OutOfMemory) -> QueryError {
        QueryError::OutOfMemory
    }
}

/// The values that were read so far, each under its name.
#[derive(Drop)]
struct Values {
    table: Option<Text>,
    columns: Option<Text>,
    clause: Option<Text>,
}

/// Puts a value where none is yet.
fn put(slot: &mut Option<Text>, value: Text) -> Result<(), QueryError>
    ensures put { OnOk result ((slot.old ≡ None) × (slot.new ≡ Some value)) }
    ensures refused { IfErr result (λ e. (e ≡ errors.BadPayload) × (slot.old ≡ None → ⊥)) }
{
    if slot.is_some() {
        return Err(QueryError::BadPayload);
    }
    *slot = Some(value);
    Ok(())
}

impl Values {
    /// Adds a value under its name; `BadPayload` where a query has no such name, or has a value under it.
    fn add(&mut self, name: &[u8], value: Text) -> Result<(), QueryError>
        ensures added { OnOk result ((front : List Pair) → IsUtf8 name.now → IsUtf8 value → AreRead front self.old → AreRead (front ++ (name.now, value) ∷ []) self.new) }
        ensures refused { IfErr result (λ e. (e ≡ errors.BadPayload) × ((front rest : List Pair) (q : Asked) → AreRead front self.old → IsQueryOf (front ++ (name.now, value) ∷ rest) q → ⊥)) }
    {
        if name == b"table".as_slice() {
            put(&mut self.table, value)
        } else if name == b"columns".as_slice() {
            put(&mut self.columns, value)
        } else if name == b"where".as_slice() {
            put(&mut self.clause, value)
        } else {
            Err(QueryError::BadPayload)
        }
    }

    /// Adds a pair as a web form has it.
    fn add_pair(&mut self, alloc: Global, name: &[u8], value: &[u8]) -> Result<(), QueryError>
        ensures added { OnOk result ((front : List Pair) → AreRead front self.old → AreRead (front ++ (decode name.now, decode value.now) ∷ []) self.new) }
        ensures refused { IfErr result (λ e. (e ≡ errors.OutOfMemory) ⊎ ((e ≡ errors.BadPayload) × ((front rest : List Pair) (q : Asked) → AreRead front self.old → IsQueryOf (front ++ (decode name.now, decode value.now) ∷ rest) q → ⊥))) }
    {
        let name = match text_of(alloc, name) {
            Ok(name) => name,
            Err(error) => return Err(error),
        };
        let value = match text_of(alloc, value) {
            Ok(value) => value,
            Err(error) => return Err(error),
        };
        match self.add(name.as_bytes(), value) {
            Ok(()) => Ok(()),
            Err(error) => Err(error),
        }
    }
}

/// The values of a web form's pairs.
fn values_of(alloc: Global, form: &[u8]) -> Result<Values, QueryError>
    ensures read { IfOk result (λ values. AreRead (parse form.now) values) }
    ensures refused { IfErr result (λ e. (e ≡ errors.OutOfMemory) ⊎ ((e ≡ errors.BadPayload) × ((q : Asked) → IsQueryOf (parse form.now) q → ⊥))) }
{
    let mut values = Values {
        table: None,
        columns: None,
        clause: None,
    };
    let mut pairs = raw_pairs(form);
    'pairs: while let Some((name, value)) = pairs.next() {
        match values.add_pair(alloc, name, value) {
            Ok(()) => {}
            Err(error) => return Err(error),
        }
    }
    Ok(values)
}

/// The query whose web form these bytes are: `table` once, and `columns` and `where` at most once.
///
/// `BadPayload` exactly where they are no such form: a percent sign has no two hexadecimal digits after it, a name or a value is not
/// UTF-8, a name is another one or stands twice, or there is no table.
pub fn read_query(alloc: Global, form: &[u8]) -> Result<Query, QueryError>
    ensures read { IfOk result (λ query. IsQueryForm form.now query) }
    ensures refused { IfErr result (λ e. (e ≡ errors.OutOfMemory) ⊎ ((e ≡ errors.BadPayload) × ((q : Asked) → IsQueryForm form.now q → ⊥))) }
{
    if has_bad_percent(form) {
        return Err(QueryError::BadPayload);
    }
    let values = match values_of(alloc, form) {
        Ok(values) => values,
        Err(error) => return Err(error),
    };
    let Values {
        table,
        columns,
        clause,
    } = values;
    match table {
        Some(table) => Ok(Query {
            table,
            columns,
            clause,
        }),
        None => Err(QueryError::BadPayload),
    }
}
