// The end of a Create: its object is made, and bound to the handle.
ghost use Rattle.std.specs.Prelude.{◌≡◌, ◌≤◌, ◌<◌, IfOk, IsTrue, None, OnOk, Some, length, slice_set, true};
ghost use Rattle.std.specs.Option.{ForSome};
ghost use Rattle.spec_image.specs.Told.{MayWrite};
ghost use Rattle.blk_io.specs.Faults.{IfDamaged, IfDevice, UndamagedWhere};
ghost use Rattle.blk_model.specs.Effects.{created};
ghost use Rattle.blk_model.specs.Sizes.{handle_names, longest_key};
ghost use Rattle.blk_model.specs.declared.Answer.TheVariants as answer;
ghost use Rattle.blk_disk.specs.Open.{IsOpen};
ghost use Rattle.blk_disk.specs.Tables.{is_node_among, is_record_among};
ghost use Rattle.blk_handles.specs.Bindings.{AreShared, binding_for, binding_of, open_with};
ghost use Rattle.blk_object.specs.FailedChecks.{IsFailedCheck};
ghost use Rattle.blk_cache.specs.Creating.{CountsOneMore, IsReadyForSome, KeepsWithRoom, ForCanHave, ForHasRoom, ForReadyCreate};
ghost use Rattle.blk_sparse.specs.Clauses.{Recovers};
ghost use Rattle.blk_cache.specs.CommandClauses.{EndedBy, EndingBy, KeptAs};

use crate::cache::Cache;
use blk_addr::Addr;
use blk_evict::Live;
use blk_io::{Fault, Folder};
use blk_model::Answer;
use blk_object::make_entry;

impl Cache {
    // Ends a Create that isn't refused, after its evictions: its object is made, and a free handle names it.
    pub(crate) fn end_create<F: Folder>(
        &mut self,
        folder: &mut F,
        handle: u16,
        key: &[u8],
        moment: u64,
    ) -> Result<Answer, Fault>
        requires some { 1 ≤ length key.now }
        requires most { length key.now ≤ longest_key }
        requires known { handle < handle_names }
        requires free { binding_of self.old.handles handle ≡ None }
        requires is_open { ForSome (F.told folder.old).files (IsOpen self.old.files) }

        // The Create is done, whatever state it began with, and after each single write the folder is as a crash in it may leave it.
        ensures does { ForReadyCreate self.old (F.told folder.old) moment handle key.now (EndedBy self.new (F.told folder.new) result) }
        ensures stops { ForReadyCreate self.old (F.told folder.old) moment handle key.now (EndingBy (F.told folder.new)) }

        ensures done { IfOk result (λ given. given ≡ answer.Done) }
        ensures notes { self.new.notes ≡ self.old.notes }
        ensures mark { self.new.mark ≡ self.old.mark }
        ensures is_open { OnOk result (ForSome (F.told folder.new).files (IsOpen self.new.files)) }
        ensures damaged { IfDamaged result (IsFailedCheck self.new.files (F.told folder.new)) }
        ensures untold { UndamagedWhere result (F.told folder.old) (IsReadyForSome self.old handle key.now) }
        ensures writes { MayWrite F.told F.faults folder.old folder.new (IfDevice result) }
    {
        self.make_object(folder, handle, key, moment)?;
        Ok(Answer::Done)
    }

    // Makes a new object with a key that no live object has, once there is space for it: it is dirty, its item is in
    // front of the LRU list, and a free handle name is bound to it.
    //
    // The object is made in the folder before the name is bound and the item is counted. After a fault nothing is
    // promised of the cache but that it can be dropped.
    pub(crate) fn make_object<F: Folder>(
        &mut self,
        folder: &mut F,
        handle: u16,
        key: &[u8],
        moment: u64,
    ) -> Result<(), Fault>
        requires some { 1 ≤ length key.now }
        requires most { length key.now ≤ longest_key }
        requires known { handle < handle_names }
        requires free { binding_of self.old.handles handle ≡ None }
        requires is_open { ForSome (F.told folder.old).files (IsOpen self.old.files) }

        // In the end each state that was kept, that has space for the object, is kept with it.
        ensures made { OnOk result (ForHasRoom self.old (F.told folder.old) handle key.now (KeptAs self.new (F.told folder.new) (created handle key.now))) }

        // At each word the old durable contents are recovered.
        ensures stops { ForCanHave self.old (F.told folder.old) handle key.now (Recovers (F.told folder.old) (F.told folder.new)) }

        ensures notes { self.new.notes ≡ self.old.notes }
        ensures mark { self.new.mark ≡ self.old.mark }
        ensures is_open { OnOk result (ForSome (F.told folder.new).files (IsOpen self.new.files)) }

        // Corruption is a check that fails on what is read here; nothing is written after it.
        ensures damaged { IfDamaged result (IsFailedCheck self.new.files (F.told folder.new)) }

        // An observable folder reports no corruption where the cache keeps such a state.
        ensures untold { UndamagedWhere result (F.told folder.old) (KeepsWithRoom self.old handle key.now) }
        ensures writes { MayWrite F.told F.faults folder.old folder.new (IfDevice result) }
    {
        let made = make_entry(folder, &mut self.files, key, self.mark, moment)?;
        let new = Live {
            entry: made.entry,
            node: made.node,
            charge: key.len() as u64,
        };
        let node = self.node_of(&new);
        self.bind_new(handle, &new, node);
        Ok(())
    }

    // Gives a free handle to a new object, which is dirty, and counts it.
    fn bind_new(&mut self, name: u16, new: &Live, node: Addr)
        requires known { name < handle_names }
        requires free { binding_of self.old.handles name ≡ None }
        requires same_node { ForSome (open_with self.old.handles new.now.entry) (λ object. object.node ≡ node) }
        requires stands { IsTrue (is_node_among self.old.files node) }
        requires names { IsTrue (is_record_among self.old.files new.now.entry) }
        ensures binds { self.new.handles ≡ slice_set self.old.handles name (Some (binding_for self.old.handles new.now.entry node true)) }
        ensures counts { CountsOneMore self.old self.new new.now.charge }
        ensures shared { AreShared self.new.handles }
    {
        self.items = self.items.saturating_add(1);
        self.bytes = self.bytes.saturating_add(new.charge);
        self.open_bytes = self.open_bytes.saturating_add(new.charge);
        self.handles.bind(name, new.entry, node, true);
    }
}
