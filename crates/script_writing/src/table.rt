//! Declared tables.
ghost use Rattle.std.specs.Prelude.{◌≡◌, ◌&&◌, not, IfOk};
ghost use Rattle.script.specs.Tables.{is_key};
ghost use Rattle.column_names.specs.Names.{has_name_twice};
ghost use Rattle.script_writing.specs.Outcomes.{Puts};
ghost use Rattle.script_writing.specs.Parts.{all};
ghost use Rattle.script_writing.specs.Tables.{key_column, table};

use crate::fault::WriteError;
use crate::parts::{put_int16, put_int32, put_text};
use crate::rows::put_columns;
use column_names::ColumnNames;
use script::Declaration;
use shape_base::{Column, Columns, OutOfMemory};
use std::alloc::Global;

/// The place of a key's column, where the table has it there.
fn put_key_column(out: &mut Vec<u8>, names: &ColumnNames, column: &Column) -> Result<(), WriteError>
    ensures { Puts result out.old.items out.new.items (key_column names.now column.now) }
{
    let Some(place) = names.place_of(&column.name) else {
        return Err(WriteError::Unwritable);
    };
    if names.columns().at(place).oid != column.oid {
        return Err(WriteError::Unwritable);
    }
    put_int16(out, place)
}

/// The places of the key's columns.
fn put_key_columns(out: &mut Vec<u8>, names: &ColumnNames, key: &[Column]) -> Result<(), WriteError>
    ensures { Puts result out.old.items out.new.items (all (key_column names.now) key.now) }
{
    for column in key {
        put_key_column(out, names, column)?;
    }
    Ok(())
}

/// Whether a key has a column, and none twice.
fn is_key(alloc: Global, key: &Columns) -> Result<bool, OutOfMemory>
    ensures { IfOk result (λ is. is ≡ is_key key.now) }
{
    if key.len() == 0 {
        return Ok(false);
    }
    let names = ColumnNames::new(alloc, key)?;
    Ok(!names.has_name_twice())
}

/// Whether no two columns have one name, and the key has a column and none twice.
fn is_declared(alloc: Global, names: &ColumnNames, key: &Columns) -> Result<bool, OutOfMemory>
    ensures { IfOk result (λ is. is ≡ (not (has_name_twice names.now) && is_key key.now)) }
{
    if names.has_name_twice() {
        return Ok(false);
    }
    is_key(alloc, key)
}

/// A served table and its first definition.
pub fn put_table(
    alloc: Global,
    out: &mut Vec<u8>,
    declaration: &Declaration,
) -> Result<(), WriteError>
    ensures { Puts result out.old.items out.new.items (table declaration.now) }
{
    let names = ColumnNames::new(alloc, &declaration.columns)?;
    if !is_declared(alloc, &names, &declaration.key)? {
        return Err(WriteError::Unwritable);
    }
    put_text(out, &declaration.ns)?;
    put_text(out, &declaration.name)?;
    put_int32(out, u64::from(declaration.oid))?;
    put_columns(out, &declaration.columns)?;
    put_int16(out, declaration.key.len())?;
    put_key_columns(out, &names, declaration.key.as_slice())?;
    Ok(())
}
