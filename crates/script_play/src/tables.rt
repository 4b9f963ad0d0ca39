//! The tables that a script declares.
ghost use Rattle.std.specs.Prelude.{◌≡◌, ◌<◌, length, map, codes, IfOk};
ghost use Rattle.std.specs.List.{AllByRecursion};
ghost use Rattle.core_server.specs.Standing.{IsCatalog};
ghost use Rattle.script_play.specs.Script.{is_same_table, is_declared};
ghost use Rattle.script_play.specs.Tables.{names_of, catalog_of, IsServed, AreServed, HasKey, HasFewColumns};

use core_events::Options;
use script::Declaration;
use shape_base::{
    Columns, Duplicate, Limits, OutOfMemory, Seq, Served, ServedTables, TableDef, TableDefs, Text,
    Texts,
};
use std::alloc::Global;

/// The name of the run.
const RUN: &str = "replay";

/// Whether a table has the schema and the name of another.
fn is_same_table(table: &Declaration, other: &Declaration) -> bool
    ensures { result ≡ is_same_table table.now other.now }
{
    table.ns == other.ns && table.name == other.name
}

/// Whether a table of this schema and name was declared.
pub fn is_declared(declared: &[Declaration], table: &Declaration) -> bool
    ensures { result ≡ is_declared declared.now table.now }
{
    let mut left = declared;
    while let [other, rest @ ..] = left {
        if is_same_table(other, table) {
            return true;
        }
        left = rest;
    }
    false
}

/// The names of columns.
fn names_of(alloc: Global, columns: &Columns) -> Result<Texts, OutOfMemory>
    ensures { IfOk result (λ names. names ≡ names_of columns.now) }
{
    let mut names = Texts::new(alloc);
    for column in columns.as_slice() {
        names.push(column.name.copy(alloc)?)?;
    }
    Ok(names)
}

/// The table as it is served.
fn served_of(alloc: Global, table: &Declaration) -> Result<Served, OutOfMemory>
    requires { HasKey table.now }
    ensures { IfOk result (IsServed table.now) }
{
    let key = names_of(alloc, &table.key)?;
    Ok(Served {
        ns: table.ns.copy(alloc)?,
        name: table.name.copy(alloc)?,
        key,
    })
}

/// The tables as they are served.
fn tables_of(alloc: Global, declared: &[Declaration]) -> Result<ServedTables, OutOfMemory>
    requires { AllByRecursion HasKey declared.now }
    ensures { IfOk result (AreServed declared.now) }
{
    let mut tables = Vec::new(alloc);
    for table in declared {
        tables.push(served_of(alloc, table)?)?;
    }
    Ok(Seq::from_vec(tables))
}

/// The first definitions of the tables, each in its table's place. There is no memory for 2^32 tables, nor for 2^32 columns of one.
fn catalog_of(alloc: Global, declared: &[Declaration]) -> Result<TableDefs, OutOfMemory>
    ensures catalog { IfOk result (λ defs. defs ≡ catalog_of 0 declared.now) }
    ensures few { IfOk result (λ defs. length declared.now < 4294967296) }
    ensures columns { IfOk result (λ defs. AllByRecursion HasFewColumns declared.now) }
{
    let mut defs = Vec::new(alloc);
    let mut place: u32 = 0;
    for table in declared {
        if table.columns.len() > u32::MAX as u64 {
            return Err(OutOfMemory);
        }
        defs.push(TableDef {
            table: place,
            oid: table.oid,
            columns: table.columns.copy(alloc)?,
        })?;
        place = place.checked_add(1).ok_or(OutOfMemory)?;
    }
    Ok(Seq::from_vec(defs))
}

/// What a core is started with over these tables.
pub fn options_of(
    alloc: Global,
    limits: Limits,
    declared: &[Declaration],
) -> Result<Options, OutOfMemory>
    requires { AllByRecursion HasKey declared.now }
    ensures limits { IfOk result (λ options. options.limits ≡ limits) }
    ensures run { IfOk result (λ options. options.run ≡ codes "replay") }
    ensures tables { IfOk result (λ options. AreServed declared.now options.tables) }
    ensures catalog { IfOk result (λ options. options.defs ≡ catalog_of 0 declared.now) }
    ensures placed { IfOk result (λ options. IsCatalog options.tables options.defs) }
    ensures few { IfOk result (λ options. length options.tables < 4294967296) }
{
    let run = Text::of(alloc, RUN)?;
    let tables = tables_of(alloc, declared)?;
    let defs = catalog_of(alloc, declared)?;
    Ok(Options {
        limits,
        run,
        tables,
        defs,
    })
}
