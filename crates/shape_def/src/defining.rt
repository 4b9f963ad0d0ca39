//! A shape's definition.
ghost use Rattle.std.proofs.Props.{props};
ghost use Rattle.std.specs.Prelude.{◌≡◌, ◌<◌, ◌^◌, length, false, None, Some, IfOk, IfErr, IfSome, slice_get, if◌then◌else◌};
ghost use Rattle.shape_base.specs.Tables.{key_places};
ghost use Rattle.shape_base.specs.Shape.{IsTest};
ghost use Rattle.shape_def.specs.declared.faults.DefError.TheVariants as errors;
ghost use Rattle.shape_def.specs.Clauses.{unread_under, reads_under};
ghost use Rattle.column_names.specs.Names.{has_name_twice};
ghost use Rattle.shape_def.specs.Definition.{is_key_missing, refusal_of, knows_of, knows_for, IsRefusal, IsDefined};

use crate::choosing::choose;
use crate::condition::Condition;
use crate::faults::DefError;
use crate::index::places_of;
use column_names::ColumnNames;
use shape_base::{
    Ask, BadValue, Duplicate, OutOfMemory, Places, Row, RowTest, Served, ServedTables, TableDef,
    Text, Tri,
};
use std::alloc::Global;

/// What a shape knows of its definition: the served table, the columns, the places of the key and
/// of the chosen columns, the clause, and the text that tells the shape apart.
#[derive(Drop)]
pub struct Def {
    served: Served,
    condition: Condition,
    key: Places,
    selected: Places,
    identity: Text,
    ghost lawful: { IsTest (knows_of served condition.definition key selected condition.clause) } by { Prim.hlevel props },
}

/// The columns by their names, and the places of the key columns.
#[derive(Drop)]
struct Keyed {
    columns: ColumnNames,
    key: Places,
}

/// Finds the key columns. Refuses `KeyMissing` exactly where the definition lacks one, or two of
/// its columns have one name.
fn find_key(alloc: Global, served: &Served, def: &TableDef) -> Result<Keyed, DefError>
    requires { length def.now.columns < 2 ^ 32 }
    ensures ok { IfOk result (λ made. (made.columns ≡ def.now.columns) × (key_places served.now def.now ≡ Some made.key) × (has_name_twice def.now.columns ≡ false)) }
    ensures err { IfErr result (λ e. IsRefusal (if is_key_missing served.now def.now then Some errors.KeyMissing else None) e) }
{
    let columns = ColumnNames::new(alloc, &def.columns)?;
    if columns.has_name_twice() {
        return Err(DefError::KeyMissing);
    }
    let Some(key) = places_of(alloc, &columns, &served.key)? else {
        return Err(DefError::KeyMissing);
    };
    Ok(Keyed { columns, key })
}

/// The definition for a request of this served table.
fn define(alloc: Global, served: &Served, ask: &Ask, def: &TableDef) -> Result<Def, DefError>
    requires { length def.now.columns < 2 ^ 32 }
    ensures ok { IfOk result (λ made. IsDefined (knows_of made.served made.condition.definition made.key made.selected made.condition.clause) served.now def.now ask.now.columns ask.now.clause) }
    ensures identity { IfOk result (λ made. made.identity ≡ ask.now.identity) }
    ensures clause { IfOk result (λ made. made.condition.clause ≡ ask.now.clause) }
    ensures err { IfErr result (λ e. IsRefusal (refusal_of served.now def.now ask.now.columns ask.now.clause) e) }
{
    let keyed = find_key(alloc, served, def)?;
    let selected = choose(alloc, &keyed.columns, &served.key, &ask.columns)?;
    let condition = Condition::new(alloc, def, &ask.clause)?;
    let served = served.copy(alloc)?;
    let identity = ask.identity.copy(alloc)?;
    Ok(Def {
        served,
        condition,
        key: keyed.key,
        selected,
        identity,
    })
}

impl Def {
    /// The definition of the shape that a request asks for, over a definition of its table. All
    /// columns are selected where the request chooses none; without a clause each row is.
    ///
    /// Refusals, in the order in which they are tried: `KeyMissing` exactly where the definition
    /// lacks a key column, or two of its columns have one name; `UnknownColumn` without an atom
    /// exactly where a chosen column is none of the definition's; `KeyNotSelected` exactly where
    /// columns are chosen and a key column is not among them; then `Syntax` and `TooDeep` exactly
    /// as parsing refuses the clause, and `UnknownColumn` with an atom, `TypeMismatch` and
    /// `BadLiteral` exactly as checking it over the columns does.
    pub fn from_ask(
        alloc: Global,
        ask: &Ask,
        tables: &ServedTables,
        def: &TableDef,
    ) -> Result<Def, DefError>
        requires table { def.now.table ≡ ask.now.table }
        requires served { ask.now.table < length tables.now }
        requires few { length def.now.columns < 2 ^ 32 }
        ensures ok { IfOk result (λ made. IfSome (slice_get tables.now ask.now.table) (λ served. IsDefined (knows_of made.served made.condition.definition made.key made.selected made.condition.clause) served def.now ask.now.columns ask.now.clause)) }
        ensures knows { IfOk result (λ made. knows_for tables.now ask.now.table def.now ask.now.columns ask.now.clause ≡ Some (knows_of made.served made.condition.definition made.key made.selected made.condition.clause)) }
        ensures identity { IfOk result (λ made. made.identity ≡ ask.now.identity) }
        ensures clause { IfOk result (λ made. made.condition.clause ≡ ask.now.clause) }
        ensures err { IfErr result (λ e. IfSome (slice_get tables.now ask.now.table) (λ served. IsRefusal (refusal_of served def.now ask.now.columns ask.now.clause) e)) }
    {
        let served = tables.at(u64::from(ask.table));
        define(alloc, served, ask, def)
    }
}

impl Duplicate for Def {
    fn copy(&self, alloc: Global) -> Result<Def, OutOfMemory> {
        Ok(Def {
            served: self.served.copy(alloc)?,
            condition: self.condition.copy(alloc)?,
            key: self.key.copy(alloc)?,
            selected: self.selected.copy(alloc)?,
            identity: self.identity.copy(alloc)?,
        })
    }
}

impl RowTest for Def {
    ghost knows = { λ t. knows_of t.served t.condition.definition t.key t.selected t.condition.clause };

    ghost unread = { λ t. unread_under t.condition.definition.columns t.condition.clause };

    ghost identity_of = { λ t. t.identity };

    ghost lawful = { λ t. t.lawful };

    ghost reads = { λ t row width. reads_under t.condition.definition.columns t.condition.clause row };

    fn served(&self) -> &Served {
        &self.served
    }

    fn definition(&self) -> &TableDef {
        self.condition.definition()
    }

    fn key(&self) -> &Places {
        &self.key
    }

    fn selected(&self) -> &Places {
        &self.selected
    }

    fn identity(&self) -> &Text {
        &self.identity
    }

    fn truth(&self, row: &Row) -> Result<Tri, BadValue> {
        self.condition.truth(row)
    }
}
