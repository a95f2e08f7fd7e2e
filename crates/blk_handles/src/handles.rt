// The handle names and what they are bound to.
ghost use Rattle.std.specs.Prelude.{◌≡◌, ◌<◌, Some, None, IsSome, IfSome, IfOk, is_some, position, slice_set, slice_index_or};
ghost use Rattle.std.specs.Option.{option_map, ForSome};
ghost use Rattle.blk_model.specs.Sizes.{handle_names};
ghost use Rattle.blk_handles.specs.Bindings.{AreShared, all_free, binding_of, is_open, open_with, binding_for, with_change, with_status, with_doom, open_count, open_object, released_of};

use crate::objects::Objects;
use crate::open_object::{OpenObject, Released};
use blk_addr::{Addr, NoMemory};
use std::alloc::Global;
use std::marker::Model;

/// How many handle names there are: they are 0 to 4095.
pub const NAMES: u16 = 4096;

/// The handle names, 0 to 4095, and the objects that they are bound to.
///
/// They are seen as a finite map: what each name is bound to, if it is bound. Names of one record
/// share one object, so a flag that is set by one of them is seen by all. An object is open, and
/// its record pinned, as long as a name is bound to it.
#[derive(Debug, Drop)]
pub struct Handles {
    // the key of the object that each name is bound to
    names: Vec<Option<usize>>,
    objects: Objects,
}

impl Model for Handles {
    ghost use Rattle.blk_handles.specs.Bindings.{Bindings};

    ghost Value = { Bindings };

    ghost use Rattle.blk_handles.specs.Stored.{bindings_of, AreNamesStored};

    ghost view = { λ h. bindings_of h.names.items h.objects };

    ghost invariant = { λ h. AreNamesStored h.names.items h.objects };
}

impl Handles {
    /// All names free. This takes the memory for all names and objects: no later call takes any.
    ///
    /// # Errors
    ///
    /// `NoMemory` when out of memory.
    pub fn new(alloc: Global) -> Result<Handles, NoMemory>
        ensures { IfOk result (λ handles. handles ≡ all_free) }
    {
        let mut names = Vec::new(alloc);
        names.resize(usize::from(NAMES), None)?;
        Ok(Handles {
            names,
            objects: Objects::new(alloc)?,
        })
    }

    /// Binds a free name to the object with a record. Where the object is open, the name joins it,
    /// and its flags stay. Else it is opened, with its node and this dirty flag, and isn't doomed.
    pub fn bind(&mut self, name: u16, entry: Addr, node: Addr, dirty: bool)
        requires known { name < handle_names }
        requires free { binding_of self.old name ≡ None }
        requires same_node { ForSome (open_with self.old entry) (λ object. object.node ≡ node) }
        ensures binds { self.new ≡ slice_set self.old name (Some (binding_for self.old entry node dirty)) }
        ensures shared { AreShared self.new }
    {
        let slot = usize::from(name);
        match self.objects.key_of(entry) {
            Some(key) => {
                let mut object = self.objects.at(key);
                object.names += 1;
                self.objects.set(key, object);
                self.names[slot] = Some(key);
            }
            None => {
                let object = OpenObject {
                    entry,
                    node,
                    names: 1,
                    doomed: false,
                    dirty,
                };
                self.names[slot] = Some(self.objects.insert(object));
            }
        }
    }

    /// The object that a name is bound to. `None` where the name is free, or 4096 or more.
    pub fn object(&self, name: u16) -> Option<OpenObject>
        ensures object { result ≡ option_map (open_object self.now) (binding_of self.now name) }
        ensures shared { AreShared self.now }
    {
        let key = key_at(&self.names, name)?;
        self.objects.get(key)
    }

    /// The open object with a record. `None` where no name is bound to it. This doesn't read the
    /// names.
    pub fn object_of(&self, entry: Addr) -> Option<OpenObject>
        ensures object { result ≡ option_map (open_object self.now) (open_with self.now entry) }
        ensures shared { AreShared self.now }
    {
        let key = self.objects.key_of(entry)?;
        self.objects.get(key)
    }

    /// Sets the doomed flag and the dirty flag of the object that a name is bound to, for all its names.
    pub fn mark(&mut self, name: u16, doomed: bool, dirty: bool)
        requires bound { IsSome (binding_of self.old name) }
        ensures marks { IfSome (binding_of self.old name) (λ object. self.new ≡ with_change (with_status doomed dirty) object.entry self.old) }
        ensures shared { AreShared self.new }
    {
        let Some(key) = key_at(&self.names, name) else {
            unreachable!();
        };
        let mut object = self.objects.at(key);
        object.doomed = doomed;
        object.dirty = dirty;
        self.objects.set(key, object);
    }

    /// Marks the open object with a record as doomed, for all its names. Gives whether it is open;
    /// where it isn't, nothing changes.
    pub fn doom_entry(&mut self, entry: Addr) -> bool
        ensures open { result ≡ is_open self.old entry }
        ensures dooms { self.new ≡ with_change with_doom entry self.old }
        ensures shared { AreShared self.new }
    {
        let Some(key) = self.objects.key_of(entry) else {
            return false;
        };
        let mut object = self.objects.at(key);
        object.doomed = true;
        self.objects.set(key, object);
        true
    }

    /// Frees a name. Gives the object as it was, where no other name is bound to it: it is closed
    /// then.
    pub fn release(&mut self, name: u16) -> Released
        requires bound { IsSome (binding_of self.old name) }
        ensures frees { self.new ≡ slice_set self.old name None }
        ensures answer { IfSome (binding_of self.old name) (λ object. result ≡ released_of self.old self.new object) }
        ensures shared { AreShared self.new }
    {
        let Some(key) = key_at(&self.names, name) else {
            unreachable!();
        };
        self.names[usize::from(name)] = None;
        let mut object = self.objects.at(key);
        let is_last = object.names == 1;
        if is_last {
            return Released::Last(self.objects.remove(key));
        }
        object.names -= 1;
        self.objects.set(key, object);
        Released::More
    }

    /// Whether a name is bound to the object with a record. This doesn't read the names.
    #[tactic(auto, using(crate::proofs::BindingLemmas::open_with_told))]
    pub fn is_pinned(&self, entry: Addr) -> bool
        ensures { result ≡ is_open self.now entry }
    {
        self.object_of(entry).is_some()
    }

    /// The least name that is bound. `None` where none is.
    pub fn least_name(&self) -> Option<u16>
        ensures { result ≡ position is_some self.now }
    {
        for name in 0..NAMES {
            if key_at(&self.names, name).is_some() {
                return Some(name);
            }
        }
        None
    }

    /// The number of open objects, each counted once, however many names are bound to it. This
    /// doesn't read the names.
    pub fn open_objects(&self) -> usize
        ensures { result ≡ open_count self.now }
    {
        self.objects.len()
    }
}

// The key of a name, if it is bound. A name past the last is not.
fn key_at(names: &[Option<usize>], name: u16) -> Option<usize>
    ensures { result ≡ slice_index_or names.now name None }
{
    match names.get(usize::from(name)) {
        Some(key) => *key,
        None => None,
    }
}
