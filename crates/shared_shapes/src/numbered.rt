//! A map by number.
ghost use Rattle.std.specs.Prelude.{◌≡◌, ℕ, IfOk, IfErr, OnOk, OnErr, None, is_some};
ghost use Rattle.std.specs.List.{list_any};
ghost use Rattle.std.specs.Ordering.{nat_cmp, eq_by_cmp};
ghost use Rattle.std.specs.Option.{option_copied_mut};
ghost use Rattle.std.specs.FinMap as fin;

use shape_base::OutOfMemory;
use std::alloc::Global;
use std::collections::BTreeMap;
use std::marker::Model;

/// A value for each of some numbers. Contracts see it as a finite map.
#[derive(Drop)]
pub(crate) struct Numbered<V> {
    values: BTreeMap<u64, V>,
}

impl<V> Model for Numbered<V> {
    ghost use Rattle.std.specs.Ordering.{nat_cmp};
    ghost use Rattle.std.specs.Coded.{coded_ℕ};
    ghost use Rattle.std.specs.FinMap as fin;
    ghost use Rattle.std.specs.FinMap.{FinMap};

    ghost Value = { FinMap nat_cmp V };

    ghost coded = { fin.code coded_ℕ V.code };

    ghost view = { λ a. fin.from_entries a.values.entries };
}

impl<V> Numbered<V> {
    ghost use Rattle.std.specs.Borrow.{sem};
    ghost use Rattle.shared_shapes.specs.Lends.{lends_at};

    /// An empty map.
    pub(crate) fn new(alloc: Global) -> Numbered<V>
        ensures { result ≡ fin.empty }
    {
        Numbered {
            values: BTreeMap::new(alloc),
        }
    }

    /// The numbers that have a value.
    pub(crate) fn numbers(&self, alloc: Global) -> Result<Vec<u64>, OutOfMemory>
        ensures { IfOk result (λ v. (n : ℕ) → is_some (fin.get self.now n) ≡ list_any (eq_by_cmp nat_cmp n) v.items) }
    {
        let numbers: Vec<u64> = self.values.keys().copied().collect(alloc)?;
        Ok(numbers)
    }

    /// The value of a number, to write to.
    pub(crate) fn get_mut(&mut self, number: u64) -> Option<&mut V>
        ensures* writes_back { sem 𝓛 (lends_at V.row self.entry number result) }
        ensures value { option_copied_mut result ≡ fin.get self.old number }
    {
        self.values.get_mut(&number)
    }
}

impl<V: Drop> Numbered<V> {
    /// A number gets this value, or the map is unchanged.
    pub(crate) fn insert(&mut self, number: u64, value: V) -> Result<(), OutOfMemory>
        ensures ok { OnOk result (self.new ≡ fin.insert self.old number value) }
        ensures err { OnErr result (self.new ≡ self.old) }
    {
        match self.values.insert(number, value) {
            Ok(_) => Ok(()),
            Err(_) => Err(OutOfMemory),
        }
    }

    /// Takes the value of a number out.
    pub(crate) fn take(&mut self, number: u64) -> Option<V>
        ensures value { result ≡ fin.get self.old number }
        ensures rest { self.new ≡ fin.remove self.old number }
    {
        self.values.remove(&number)
    }

    /// A number has no value any more.
    pub(crate) fn remove(&mut self, number: u64)
        ensures { self.new ≡ fin.remove self.old number }
    {
        let _was = self.values.remove(&number);
    }
}
