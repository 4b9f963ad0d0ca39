//! Declared tables.
ghost use Rattle.std.specs.Prelude.{◌≡◌, ◌++◌, length, IfOk, Some, None, slice_get};
ghost use Rattle.std.specs.Option.{option_copied};
ghost use Rattle.byte_format.specs.Format.{Gives};
ghost use Rattle.column_names.specs.Names.{has_name_twice};
ghost use Rattle.script.specs.Tables.{places_at, placed_at, picked, is_key, with_key, declared};

use crate::columns::columns_of;
use crate::lists::{Part, parts_at};
use crate::texts::text_of;
use byte_format::{ReadError, u16_at, u32_at};
use column_names::ColumnNames;
use shape_base::{Column, Columns, Duplicate, OutOfMemory, Seq, Text};
use std::alloc::Global;

/// A served table and its first definition.
#[derive(Drop)]
pub struct Declaration {
    /// The name of its schema.
    pub ns: Text,
    pub name: Text,
    /// Its OID (PostgreSQL manual, 53.11 pg_class).
    pub oid: u32,
    /// Its columns; no two have one name.
    pub columns: Columns,
    /// Its key's columns: at least one, and none twice.
    pub key: Columns,
}

/// The same with the places of the key's columns, before they are tried.
#[derive(Drop)]
pub struct Placed {
    pub ns: Text,
    pub name: Text,
    pub oid: u32,
    pub columns: Columns,
    pub key: Seq<u16>,
}

impl Part for u16 {
    ghost use Rattle.std.specs.Int.{w16};
    ghost use Rattle.byte_format.specs.Format.{number_at};

    ghost read = { number_at w16 };

    fn part_at(_alloc: Global, bytes: &[u8]) -> Result<(u16, &[u8]), ReadError> {
        u16_at(bytes)
    }
}

/// A count and that many places, and the bytes after them.
fn places_of(alloc: Global, bytes: &[u8]) -> Result<(Seq<u16>, &[u8]), ReadError>
    ensures { Gives (λ x. (x.0, x.1.now)) result (places_at bytes.now) }
{
    let (count, rest) = u16_at(bytes)?;
    let (places, rest) = parts_at::<u16>(alloc, u64::from(count), rest)?;
    Ok((Seq::from_vec(places), rest))
}

/// A table, its columns and the places of its key, and the bytes after them.
pub fn placed_of(alloc: Global, bytes: &[u8]) -> Result<(Placed, &[u8]), ReadError>
    ensures { Gives (λ x. (x.0, x.1.now)) result (placed_at bytes.now) }
{
    let (ns, rest) = text_of(alloc, bytes)?;
    let (name, rest) = text_of(alloc, rest)?;
    let (oid, rest) = u32_at(rest)?;
    let (columns, rest) = columns_of(alloc, rest)?;
    let (key, rest) = places_of(alloc, rest)?;
    let placed = Placed {
        ns,
        name,
        oid,
        columns,
        key,
    };
    Ok((placed, rest))
}

/// The column in a place.
fn column_in(columns: &Columns, place: u16) -> Option<&Column>
    ensures { option_copied result ≡ slice_get columns.now place }
{
    columns.as_slice().get(usize::from(place))
}

/// The columns in these places, or none where one is out of range.
fn picked(alloc: Global, columns: &Columns, places: &[u16]) -> Result<Option<Columns>, OutOfMemory>
    ensures { IfOk result (λ key. key ≡ picked columns.now places.now) }
{
    let mut key = Columns::new(alloc);
    for place in places {
        match column_in(columns, *place) {
            None => return Ok(None),
            Some(column) => key.push(column.copy(alloc)?)?,
        }
    }
    Ok(Some(key))
}

/// Whether two of the columns have one name.
fn has_name_twice(alloc: Global, columns: &Columns) -> Result<bool, OutOfMemory>
    ensures { IfOk result (λ twice. twice ≡ has_name_twice columns.now) }
{
    let names = ColumnNames::new(alloc, columns)?;
    Ok(names.has_name_twice())
}

/// Whether a key has a column, and none twice.
fn is_key(alloc: Global, key: &Columns) -> Result<bool, OutOfMemory>
    ensures { IfOk result (λ is. is ≡ is_key key.now) }
{
    if key.len() == 0 {
        return Ok(false);
    }
    let twice = has_name_twice(alloc, key)?;
    Ok(!twice)
}

/// The declaration, or none where two columns have one name, or the key has no column, one out of range or one twice.
#[tactic(auto, unfolding(crate::specs::Tables::declared))]
pub fn declared(alloc: Global, placed: Placed) -> Result<Option<Declaration>, OutOfMemory>
    ensures { IfOk result (λ d. d ≡ declared placed) }
{
    if has_name_twice(alloc, &placed.columns)? {
        return Ok(None);
    }
    let Some(key) = picked(alloc, &placed.columns, placed.key.as_slice())? else {
        return Ok(None);
    };
    if !is_key(alloc, &key)? {
        return Ok(None);
    }
    let Placed {
        ns,
        name,
        oid,
        columns,
        key: _,
    } = placed;
    Ok(Some(Declaration {
        ns,
        name,
        oid,
        columns,
        key,
    }))
}
