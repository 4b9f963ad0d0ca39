//! The columns that a request chooses.
ghost use Rattle.std.specs.Prelude.{◌≡◌, ◌<◌, ◌^◌, ◌++◌, ◌∷◌, [], length, None, IfOk, IfErr, OnOk, if◌then◌else◌};
ghost use Rattle.shape_base.specs.Tables.{place_of};
ghost use Rattle.shape_def.specs.Chosen.{is_in};
ghost use Rattle.shape_def.specs.Definition.{is_chosen, places_from, leaves_out, refusal_of_choice, IsRefusal};

use crate::faults::DefError;
use crate::identities::name_set;
use crate::index::has_strange_name;
use column_names::ColumnNames;
use shape_base::{Columns, OutOfMemory, Places, Text, Texts};
use std::alloc::Global;
use std::collections::BTreeSet;

/// The set of the chosen names, where names are chosen.
fn set_of(alloc: Global, names: &Option<Texts>) -> Result<Option<BTreeSet<Text>>, OutOfMemory>
    ensures { IfOk result (λ set. is_in set ≡ is_chosen names.now) }
{
    match names {
        None => Ok(None),
        Some(names) => Ok(Some(name_set(alloc, names)?)),
    }
}

fn is_in(set: &Option<BTreeSet<Text>>, name: &Text) -> bool
    ensures { result ≡ is_in set.now name.now }
{
    match set {
        None => true,
        Some(set) => set.contains(name),
    }
}

/// Whether a key column is not in the set.
fn leaves_out(set: &Option<BTreeSet<Text>>, key: &Texts) -> bool
    ensures { result ≡ leaves_out (is_in set.now) key.now }
{
    for name in key.as_slice() {
        if !is_in(set, name) {
            return true;
        }
    }
    false
}

/// Adds a place at the end where the column's name is in the set.
fn push_place(
    places: &mut Places,
    set: &Option<BTreeSet<Text>>,
    name: &Text,
    place: u32,
) -> Result<(), OutOfMemory>
    ensures { OnOk result (places.new ≡ places.old ++ (if is_in set.now name.now then place ∷ [] else [])) }
{
    if !is_in(set, name) {
        return Ok(());
    }
    places.push(place)?;
    Ok(())
}

/// The places of the columns whose names are in the set; they rise.
fn places_of(
    alloc: Global,
    set: &Option<BTreeSet<Text>>,
    columns: &Columns,
) -> Result<Places, OutOfMemory>
    requires { length columns.now < 2 ^ 32 }
    ensures { IfOk result (λ places. places ≡ places_from (is_in set.now) 0 columns.now) }
{
    let mut places = Places::new(alloc);
    for place in 0..columns.len() {
        push_place(&mut places, set, &columns.at(place).name, place as u32)?;
    }
    Ok(places)
}

/// The places of the chosen columns.
pub(crate) fn choose(
    alloc: Global,
    columns: &ColumnNames,
    key: &Texts,
    names: &Option<Texts>,
) -> Result<Places, DefError>
    requires { length columns.now < 2 ^ 32 }
    ensures ok { IfOk result (λ places. (places ≡ places_from (is_chosen names.now) 0 columns.now) × (refusal_of_choice (place_of columns.now) key.now names.now ≡ None)) }
    ensures err { IfErr result (λ e. IsRefusal (refusal_of_choice (place_of columns.now) key.now names.now) e) }
{
    if has_strange_name(columns, names) {
        return Err(DefError::UnknownColumn { atom: None });
    }
    let set = set_of(alloc, names)?;
    if leaves_out(&set, key) {
        return Err(DefError::KeyNotSelected);
    }
    Ok(places_of(alloc, &set, columns.columns())?)
}
