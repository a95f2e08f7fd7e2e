// An index of a list by hashes.
ghost use Rattle.std.specs.Prelude.{◌<◌, ℕ, ◌++◌, [], ◌∷◌, List, OnOk, length, slice_index};
ghost use Rattle.blk_verdict.specs.ByHash.{IsByHash, IsLastWithHash};

use blk_addr::NoMemory;
use std::alloc::Global;
use std::collections::BTreeMap;

// For each hash of a list its last place, and from each place the one before with the same hash.
#[derive(Drop)]
pub(crate) struct ByHash {
    // the last place of each hash
    lasts: BTreeMap<u32, usize>,
    // before each place the last one with the same hash
    befores: Vec<Option<usize>>,
}

impl ByHash {
    // The places of no list.
    pub(crate) fn none(alloc: Global) -> ByHash
        ensures { IsByHash result [] }
    {
        ByHash {
            lasts: BTreeMap::new(alloc),
            befores: Vec::new(alloc),
        }
    }

    // The last place with a hash.
    pub(crate) fn last(&self, hash: u32) -> Option<usize>
        ensures { (hashes : List ℕ) → IsByHash self.now hashes → IsLastWithHash hashes hash (length hashes) result }
    {
        self.lasts.get(&hash).copied()
    }

    // The last place before one with the same hash.
    pub(crate) fn before(&self, place: usize) -> Option<usize>
        ensures { (hashes : List ℕ) → IsByHash self.now hashes → place < length hashes → IsLastWithHash hashes (slice_index hashes place) place result }
    {
        match self.befores.get(place) {
            Some(before) => *before,
            None => None,
        }
    }

    // Adds a hash at the end of the list.
    pub(crate) fn add(&mut self, hash: u32) -> Result<(), NoMemory>
        ensures { OnOk result ((hashes : List ℕ) → IsByHash self.old hashes → IsByHash self.new (hashes ++ hash ∷ [])) }
    {
        let place = self.befores.len();
        let before = self.last(hash);
        self.befores.push(before)?;
        self.lasts.insert(hash, place)?;
        Ok(())
    }
}
