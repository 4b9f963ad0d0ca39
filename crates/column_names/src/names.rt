//! Columns with a map of their names.
ghost use Rattle.std.specs.Prelude.{◌≡◌, ◌<◌, ◌||◌, length, is_some, IfOk, IfSome};
ghost use Rattle.shape_base.specs.Tables.{place_of as place_in};
ghost use Rattle.column_names.specs.Names.{has_name_twice};
ghost use Rattle.column_names.specs.Places.{place_under, IsIndexed};

use shape_base::{Columns, Duplicate, OutOfMemory, Text};
use std::alloc::Global;
use std::collections::BTreeMap;
use std::marker::Model;

/// The columns of a table, with the place of the first column of each name. Contracts see the columns.
#[derive(Drop)]
pub struct ColumnNames {
    columns: Columns,
    places: BTreeMap<Text, u64>,
    repeats: bool,
}

impl Model for ColumnNames {
    ghost use Rattle.std.specs.Prelude.{List};
    ghost use Rattle.shape_base.specs.declared.definition.Column.{Column};
    ghost use Rattle.column_names.specs.Places.{IsIndexed};

    ghost Value = { List Column };

    ghost view = { λ a. a.columns };

    ghost invariant = { λ a. IsIndexed a.places a.repeats a.columns };
}

/// The places of columns by their names, and whether a name stood twice.
#[derive(Drop)]
struct Indexed {
    places: BTreeMap<Text, u64>,
    repeats: bool,
}

/// Whether a later column has the name, or two later ones have one name.
fn repeats_with(later: Option<u64>, repeats: bool) -> bool
    ensures { result ≡ (is_some later || repeats) }
{
    later.is_some() || repeats
}

/// The places of columns by their names.
#[tactic(auto, using(crate::proofs::Indexing::all_indexed, crate::proofs::Indexing::none_indexed))]
fn index(alloc: Global, columns: &Columns) -> Result<Indexed, OutOfMemory>
    ensures { IfOk result (λ index. IsIndexed index.places index.repeats columns.now) }
{
    let mut places = BTreeMap::new(alloc);
    let mut repeats = false;
    let mut left = columns.len();
    while left > 0 {
        left -= 1;
        let name = columns.at(left).name.copy(alloc)?;
        let later = places.insert(name, left)?;
        repeats = repeats_with(later, repeats);
    }
    Ok(Indexed { places, repeats })
}

/// The place that the map has for a name.
fn place_under(places: &BTreeMap<Text, u64>, name: &Text) -> Option<u64>
    ensures { result ≡ place_under places.now name.now }
{
    places.get(name).copied()
}

impl ColumnNames {
    /// The columns, which are copied, by their names.
    pub fn new(alloc: Global, columns: &Columns) -> Result<ColumnNames, OutOfMemory>
        ensures { IfOk result (λ names. names ≡ columns.now) }
    {
        let index = index(alloc, columns)?;
        let columns = columns.copy(alloc)?;
        Ok(ColumnNames {
            columns,
            places: index.places,
            repeats: index.repeats,
        })
    }

    /// The columns, in their places.
    pub fn columns(&self) -> &Columns
        ensures { result.now ≡ self.now }
    {
        &self.columns
    }

    /// How many columns there are.
    pub fn len(&self) -> u64
        ensures { result ≡ length self.now }
    {
        self.columns.len()
    }

    /// The place of the first column of that name.
    pub fn place_of(&self, name: &Text) -> Option<u64>
        ensures first { result ≡ place_in self.now name.now }
        ensures within { IfSome result (λ place. place < length self.now) }
    {
        place_under(&self.places, name)
    }

    /// Whether two columns have one name.
    pub fn has_name_twice(&self) -> bool
        ensures { result ≡ has_name_twice self.now }
    {
        self.repeats
    }
}
