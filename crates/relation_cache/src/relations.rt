//! The last relation of each object identifier.
ghost use Rattle.std.specs.Prelude.{◌≡◌, ℕ, Some, None, OnOk, OnErr, MatchResult};
ghost use Rattle.std.specs.FinMap as map;

use super::relation::Relation;
use shape_base::OutOfMemory;
use std::alloc::Global;
use std::collections::BTreeMap;
use std::marker::Model;

/// No relation of this object identifier was put.
#[derive(Clone, Copy, Debug, PartialEq, Eq)]
pub struct UnknownRelation {
    pub oid: u32,
}

/// Relations by their object identifiers, seen as the map from each identifier to the last relation that was put with it.
#[derive(Drop)]
pub struct Relations {
    by_oid: BTreeMap<u32, Relation>,
}

impl Model for Relations {
    ghost use Rattle.std.specs.FinMap as map;
    ghost use Rattle.relation_cache.specs.Relations.{ByOid, by_oid_code};

    ghost Value = { ByOid };

    ghost coded = { by_oid_code };

    ghost view = { λ a. map.from_entries a.by_oid.entries };
}

impl Relations {
    /// No relations.
    pub fn new(alloc: Global) -> Relations
        ensures { result ≡ map.empty }
    {
        Relations {
            by_oid: BTreeMap::new(alloc),
        }
    }

    /// Takes the relation in the place of one with the same object identifier.
    pub fn put(&mut self, relation: Relation) -> Result<(), OutOfMemory>
        ensures ok { OnOk result (self.new ≡ map.insert self.old relation.oid relation) }
        ensures err { OnErr result (self.new ≡ self.old) }
    {
        let _before = self.by_oid.insert(relation.oid, relation)?;
        Ok(())
    }

    /// The last relation that was put with this object identifier.
    ///
    /// `UnknownRelation` exactly where none was put. Takes no memory.
    pub fn get(&self, oid: u32) -> Result<&Relation, UnknownRelation>
        ensures { MatchResult result (λ r. map.get self.now oid ≡ Some r.now) (λ e. (map.get self.now oid ≡ None) × (e.oid ≡ oid)) }
    {
        match self.by_oid.get(&oid) {
            Some(relation) => Ok(relation),
            None => Err(UnknownRelation { oid }),
        }
    }
}
