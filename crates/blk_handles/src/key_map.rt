// A map from the records of open objects to the keys under which they are stored.
ghost use Rattle.std.specs.Prelude.{◌≡◌, ◌+◌, ◌<◌, [], length, Some, None, IsSome, IfOk, IfErr};
ghost use Rattle.blk_model.specs.Sizes.{handle_names};
ghost use Rattle.blk_handles.specs.KeyMap.{key_for, IsAt, IsGapFor, SetsOnly};

use crate::handles::NAMES;
use blk_addr::{Addr, NoMemory};
use std::alloc::Global;
use std::marker::Model;

// The key of the object with a record.
#[derive(Clone, Copy, Debug)]
pub struct RecordKey {
    entry: Addr,
    key: usize,
}

/// A map from the addresses of records to keys, with the memory for as many as there are handle
/// names. It is seen as the list of its items, in the order of the addresses.
#[derive(Debug, Drop)]
pub struct KeyMap {
    sorted: Vec<RecordKey>,
}

impl Model for KeyMap {
    ghost use Rattle.std.specs.Prelude.{List};
    ghost use Rattle.blk_handles.specs.declared.key_map.RecordKey.{RecordKey};

    ghost Value = { List RecordKey };

    ghost use Rattle.std.specs.Prelude.{◌≤◌, vec_capacity};
    ghost use Rattle.blk_model.specs.Sizes.{handle_names};
    ghost use Rattle.blk_handles.specs.KeyMap.{IsRising};

    ghost view = { λ m. m.sorted.items };

    ghost invariant = { λ m. IsRising m.sorted.items × (handle_names ≤ vec_capacity m.sorted) };
}

impl KeyMap {
    // An empty map, with all its memory.
    pub fn new(alloc: Global) -> Result<KeyMap, NoMemory>
        ensures { IfOk result (λ m. m ≡ []) }
    {
        Ok(KeyMap {
            sorted: Vec::with_capacity(alloc, usize::from(NAMES))?,
        })
    }

    // The key of a record, if the map has it.
    pub fn key_of(&self, entry: Addr) -> Option<usize>
        ensures { result ≡ key_for self.now entry }
    {
        match self.search(entry) {
            Ok(at) => Some(self.sorted[at].key),
            Err(_) => None,
        }
    }

    // Adds a record with its key.
    pub fn insert(&mut self, entry: Addr, key: usize)
        requires absent { key_for self.old entry ≡ None }
        requires fits { length self.old < handle_names }
        ensures sets { SetsOnly self.old self.new entry (Some key) }
        ensures len { length self.new ≡ length self.old + 1 }
    {
        match self.search(entry) {
            Ok(_) => unreachable!(),
            Err(at) => {
                let inserted = self.sorted.insert(at, RecordKey { entry, key });
                prove!(inserted.is_ok());
            }
        }
    }

    // Takes a record out.
    pub fn remove(&mut self, entry: Addr)
        requires { IsSome (key_for self.old entry) }
        ensures sets { SetsOnly self.old self.new entry None }
        ensures len { length self.new + 1 ≡ length self.old }
    {
        match self.search(entry) {
            Ok(at) => {
                self.sorted.remove(at);
            }
            Err(_) => unreachable!(),
        }
    }

    // Where the record is, or where it would be put.
    fn search(&self, entry: Addr) -> Result<usize, usize>
        ensures found { IfOk result (IsAt self.now entry) }
        ensures absent { IfErr result (IsGapFor self.now entry) }
    {
        self.sorted
            .binary_search_by_key(&entry.word(), |item| item.entry.word())
    }
}
