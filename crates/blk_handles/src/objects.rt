// The open objects, each under a key of its own, found by their records.
ghost use Rattle.std.specs.Prelude.{◌≡◌, ◌+◌, ◌<◌, [], Some, None, IfSome, IfNone, IfOk};
ghost use Rattle.slab.specs.Slab.{get, slab_len, ContainsKey, Updates};
ghost use Rattle.blk_model.specs.Sizes.{handle_names};
ghost use Rattle.blk_handles.specs.Objects.{IsObjectOf, IsClosed, AreDistinct};

use crate::handles::NAMES;
use crate::key_map::KeyMap;
use crate::open_object::OpenObject;
use blk_addr::{Addr, NoMemory};
use slab::Slab;
use std::alloc::Global;
use std::marker::Model;

/// The open objects, with the memory for as many as there are handle names. They are seen as a slab, in
/// which no two have one record.
#[derive(Debug, Drop)]
pub struct Objects {
    slab: Slab<OpenObject>,
    keys: KeyMap,
}

impl Model for Objects {
    ghost use Rattle.slab.specs.Slab.{Slab as Slots};
    ghost use Rattle.blk_handles.specs.declared.open_object.OpenObject.{OpenObject};

    ghost Value = { Slots OpenObject };

    ghost use Rattle.std.specs.Prelude.{◌≤◌};
    ghost use Rattle.blk_model.specs.Sizes.{handle_names};
    ghost use Rattle.blk_handles.specs.Objects.{IsIndexOf};

    ghost view = { λ o. o.slab };

    ghost invariant = { λ o. IsIndexOf o.keys o.slab × (handle_names ≤ o.slab.capacity) };
}

impl Objects {
    // No objects, with all their memory.
    pub fn new(alloc: Global) -> Result<Objects, NoMemory>
        ensures { IfOk result (λ objects. objects.slots ≡ []) }
    {
        Ok(Objects {
            slab: Slab::with_capacity(alloc, usize::from(NAMES))?,
            keys: KeyMap::new(alloc)?,
        })
    }

    // The number of objects.
    pub fn len(&self) -> usize
        ensures { result ≡ slab_len self.now }
    {
        self.slab.len()
    }

    // The key of the object with a record, if there is one.
    pub fn key_of(&self, entry: Addr) -> Option<usize>
        ensures found { IfSome result (IsObjectOf self.now entry) }
        ensures absent { IfNone result (IsClosed self.now entry) }
    {
        self.keys.key_of(entry)
    }

    // The object under a key, if there is one.
    pub fn get(&self, key: usize) -> Option<OpenObject>
        ensures { result ≡ get self.now key }
    {
        self.slab.get(key).copied()
    }

    // The object under a key that has one.
    pub fn at(&self, key: usize) -> OpenObject
        requires { ContainsKey self.now key }
        ensures { get self.now key ≡ Some result }
    {
        match self.get(key) {
            Some(object) => object,
            None => unreachable!(),
        }
    }

    // Puts an object in the place of the one with its record.
    pub fn set(&mut self, key: usize, object: OpenObject)
        requires { IsObjectOf self.old object.entry key }
        ensures updates { Updates self.old self.new key (Some object) }
        ensures len { slab_len self.new ≡ slab_len self.old }
        ensures distinct { AreDistinct self.new }
    {
        if let Some(stored) = self.slab.get_mut(key) {
            *stored = object;
        }
    }

    // Adds an object with a record of its own, and gives its key.
    pub fn insert(&mut self, object: OpenObject) -> usize
        requires closed { IsClosed self.old object.entry }
        requires fits { slab_len self.old < handle_names }
        ensures vacant { get self.old result ≡ None }
        ensures updates { Updates self.old self.new result (Some object) }
        ensures len { slab_len self.new ≡ slab_len self.old + 1 }
        ensures distinct { AreDistinct self.new }
    {
        let entry = object.entry;
        let key = self.slab.insert_reserved(object);
        self.keys.insert(entry, key);
        key
    }

    // Takes out the object under a key.
    pub fn remove(&mut self, key: usize) -> OpenObject
        requires { ContainsKey self.old key }
        ensures here { get self.old key ≡ Some result }
        ensures updates { Updates self.old self.new key None }
        ensures len { slab_len self.new + 1 ≡ slab_len self.old }
        ensures distinct { AreDistinct self.new }
    {
        let object = self.slab.remove(key);
        self.keys.remove(object.entry);
        object
    }
}
