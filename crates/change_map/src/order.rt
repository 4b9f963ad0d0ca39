//! The order in which the cells of a shape stand.
ghost use Rattle.std.specs.Prelude.{◌≡◌, ◌<◌, length, map, IfOk};
ghost use Rattle.std.specs.List.{AllByRecursion, IsDistinct};
ghost use Rattle.std.specs.BTreeMap.{values};
ghost use Rattle.shape_base.specs.Tables.{same_text};
ghost use Rattle.shape_base.specs.Shape.{name_at, by_name};

use shape_base::{OutOfMemory, Places, Seq, TableDef, Text};
use std::alloc::Global;
use std::collections::BTreeMap;

pub(crate) fn name_of(definition: &TableDef, place: u32) -> &Text
    requires { place < length definition.now.columns }
    ensures { result.now ≡ name_at definition.now place }
{
    &definition.columns.at(u64::from(place)).name
}

/// The selected places under their columns' names.
fn places_by_name<'a>(
    alloc: Global,
    definition: &'a TableDef,
    selected: &[u32],
) -> Result<BTreeMap<&'a Text, u32>, OutOfMemory>
    requires places { AllByRecursion (λ p. p < length definition.now.columns) selected.now }
    requires distinct { IsDistinct same_text (map (name_at definition.now) selected.now) }
    ensures order { IfOk result (λ named. values named ≡ by_name definition.now selected.now) }
{
    let mut named = BTreeMap::new(alloc);
    let mut left = selected.len();
    while left > 0 {
        left -= 1;
        let place = selected[left];
        named.insert(name_of(definition, place), place)?;
    }
    Ok(named)
}

/// The selected places, in byte order of their columns' names.
pub(crate) fn in_name_order(
    alloc: Global,
    definition: &TableDef,
    selected: &[u32],
) -> Result<Places, OutOfMemory>
    requires places { AllByRecursion (λ p. p < length definition.now.columns) selected.now }
    requires distinct { IsDistinct same_text (map (name_at definition.now) selected.now) }
    ensures order { IfOk result (λ order. order ≡ by_name definition.now selected.now) }
{
    let named = places_by_name(alloc, definition, selected)?;
    let mut order = Vec::with_capacity(alloc, named.len())?;
    for place in named.into_values() {
        order.push(place)?;
    }
    Ok(Seq::from_vec(order))
}
