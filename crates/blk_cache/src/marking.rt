// An open object becomes dirty, or clean.
ghost use Rattle.std.specs.Prelude.{◌≡◌, IfSome, IsSome, OnOk, true};
ghost use Rattle.std.specs.Option.{ForSome};
ghost use Rattle.spec_image.specs.Told.{Stays, MayWrite, ForTold};
ghost use Rattle.blk_io.specs.Faults.{IfDamaged, IfDevice, UndamagedWhere};
ghost use Rattle.law_folder.specs.CommandLaws.{marked};
ghost use Rattle.blk_disk.specs.Open.{IsOpen};
ghost use Rattle.blk_handles.specs.Bindings.{binding_of};
ghost use Rattle.blk_object.specs.FailedChecks.{IsFailedCheck};
ghost use Rattle.blk_cache.specs.CommandClauses.{KeepsAny, OnlyNamesChange};
ghost use Rattle.blk_cache.specs.Marking.{ForEachNamed, dirty_word, MarkedBy, MarkingBy};

use crate::cache::Cache;
use blk_io::{Fault, Folder};
use blk_object::set_dirty_word;

impl Cache {
    /// Makes the object that a handle names, live or doomed, dirty or clean, where it isn't so: the dirty flag of its
    /// node becomes the number of the session, or 0, and then its names have this flag too.
    ///
    /// This takes three folder calls, and none where it is so.
    pub(crate) fn set_dirty<F: Folder>(
        &mut self,
        folder: &mut F,
        handle: u16,
        dirty: bool,
    ) -> Result<(), Fault>
        requires bound { IsSome (binding_of self.old.handles handle) }
        requires is_open { ForSome (F.told folder.old).files (IsOpen self.old.files) }

        // In the end each state that was kept is kept with its object dirty, or clean.
        ensures marked { OnOk result (ForTold (F.told folder.old) (ForEachNamed self.old handle) (MarkedBy self.new (F.told folder.new) dirty)) }

        // At each word the old durable contents are recovered, or the new ones.
        ensures stops { ForTold (F.told folder.old) (ForEachNamed self.old handle) (MarkingBy (F.told folder.old) (F.told folder.new) dirty) }

        // Where the object is dirty or clean as asked already, no call is made.
        ensures idle { IfSome (binding_of self.old.handles handle) (λ binding. binding.dirty ≡ dirty → Stays (F.told folder.old) (F.told folder.new)) }

        ensures stays_bound { IsSome (binding_of self.new.handles handle) }
        ensures others { OnlyNamesChange self.old self.new }
        ensures charged { self.new.open_bytes ≡ self.old.open_bytes }
        ensures is_open { ForSome (F.told folder.new).files (IsOpen self.new.files) }

        // Corruption is a check that fails on what is read here; nothing is written after it. An observable folder gives none where the cache keeps a state.
        ensures damaged { IfDamaged result (IsFailedCheck self.new.files (F.told folder.new)) }
        ensures untold { UndamagedWhere result (F.told folder.old) (KeepsAny self.old) }
        ensures writes { MayWrite F.told F.faults folder.old folder.new (IfDevice result) }
    {
        let Some(object) = self.handles.object(handle) else {
            unreachable!();
        };
        if same(object.dirty, dirty) {
            return Ok(());
        }
        let word = self.dirty_word(dirty);
        set_dirty_word(folder, &self.files, object.node, word)?;
        self.handles.mark(handle, object.doomed, dirty);
        Ok(())
    }

    // The dirty flag of an object that is dirty, or clean.
    fn dirty_word(&self, dirty: bool) -> u32
        ensures { result ≡ dirty_word self.now dirty }
    {
        if dirty { self.mark } else { 0 }
    }
}

// Whether two flags are the same.
fn same(a: bool, b: bool) -> bool
    ensures so { result ≡ true → a ≡ b }
    ensures always { a ≡ b → result ≡ true }
{
    a == b
}
