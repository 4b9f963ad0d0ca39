//! Which handle is live under an identity.
ghost use Rattle.std.specs.Prelude.{◌≡◌, ◌<◌, List, ℕ, None, Some, IfOk, OnOk, OnErr};
ghost use Rattle.std.specs.Option.{option_map};
ghost use Rattle.shape_registry.specs.Names.{part_of, name_under, now_ready, Renames};

use shape_base::{OutOfMemory, Text};
use std::alloc::Global;
use std::collections::BTreeMap;
use std::hash::{FoldHasher, Hasher};
use std::marker::Model;

/// A live handle.
#[derive(Clone, Copy)]
pub struct Live {
    pub number: u64,
    pub is_ready: bool,
}

/// How many maps there are.
const PARTS: usize = 1024;

/// The live handles of identities, in many small maps. An identity's hash picks its map, in which identities are compared whole.
///
/// Contracts see the maps, by `name_under`.
#[derive(Drop)]
pub struct Names {
    parts: Vec<BTreeMap<Text, Live>>,
}

impl Model for Names {
    ghost use Rattle.std.specs.Prelude.{◌≡◌, length, map};
    ghost use Rattle.shape_registry.specs.Names.{Parts};

    ghost Value = { Parts };

    ghost view = { λ a. map (λ part. part.entries) a.parts.items };

    ghost invariant = { λ a. length a.parts.items ≡ 1024 };
}

/// The place of the map that an identity's hash picks.
fn part_of(identity: &Text) -> usize
    ensures part { result ≡ part_of identity.now }
    ensures within { result < 1024 }
{
    let mut hasher = FoldHasher::default();
    hasher.write(identity.as_bytes());
    (hasher.finish() % PARTS as u64) as usize
}

impl Names {
    /// No identity has a handle.
    pub fn new(alloc: Global) -> Result<Names, OutOfMemory>
        ensures { IfOk result (λ names. (identity : List ℕ) → name_under names identity ≡ None) }
    {
        let mut parts = Vec::with_capacity(alloc, PARTS)?;
        for _ in 0..PARTS {
            parts.push(BTreeMap::new(alloc))?;
        }
        Ok(Names { parts })
    }

    /// The handle of an identity.
    pub fn get(&self, identity: &Text) -> Option<Live>
        ensures { result ≡ name_under self.now identity.now }
    {
        self.parts[part_of(identity)].get(identity).copied()
    }

    /// The identity has this handle from now on.
    pub fn insert(&mut self, identity: Text, live: Live) -> Result<(), OutOfMemory>
        ensures ok { OnOk result (Renames self.old self.new identity (Some live)) }
        ensures err { OnErr result (self.new ≡ self.old) }
    {
        let part = part_of(&identity);
        self.parts[part].insert(identity, live)?;
        Ok(())
    }

    /// The handle of the identity is ready from now on.
    pub fn make_ready(&mut self, identity: &Text)
        ensures { Renames self.old self.new identity.now (option_map now_ready (name_under self.old identity.now)) }
    {
        let Some(live) = self.parts[part_of(identity)].get_mut(identity) else {
            return;
        };
        live.is_ready = true;
    }

    /// The identity has no handle from now on.
    pub fn remove(&mut self, identity: &Text)
        ensures { Renames self.old self.new identity.now None }
    {
        let _live = self.parts[part_of(identity)].remove(identity);
    }
}
