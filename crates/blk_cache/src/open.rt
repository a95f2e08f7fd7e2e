// The command Open.
ghost use Rattle.std.specs.Prelude.{◌≡◌, ◌<◌, ◌^◌, IfOk, IfSome, IsTrue, None, Ok, Some, false, slice_set};
ghost use Rattle.std.specs.Option.{ForSome};
ghost use Rattle.spec_image.specs.Told.{Stays, MayWrite};
ghost use Rattle.blk_io.specs.Faults.{IfDamaged, IfDevice, UndamagedWhere};
ghost use Rattle.blk_model.specs.Request.{to_open};
ghost use Rattle.blk_model.specs.Sizes.{handle_names};
ghost use Rattle.blk_model.specs.declared.Answer.TheVariants as answer;
ghost use Rattle.blk_disk.specs.Open.{IsOpen};
ghost use Rattle.blk_disk.specs.Tables.{is_node_among, is_record_among};
ghost use Rattle.blk_handles.specs.Bindings.{AreShared, binding_for, binding_of, is_open, open_with};
ghost use Rattle.blk_object.specs.FailedChecks.{IsFailedCheck};
ghost use Rattle.blk_cache.specs.CommandClauses.{DoneBy, ForCall, IsOpenDamage, IsRefused, KeepsAny, OnlyNamesChange, SparedBy, StopsBy, charged_with, open_refusal};

use crate::cache::Cache;
use blk_addr::Addr;
use blk_evict::{Live, find_live};
use blk_handles::NAMES;
use blk_io::{Fault, Folder};
use blk_lru::touch;
use blk_model::{Answer, Refusal};
use blk_ranges::LONGEST_KEY;

impl Cache {
    /// Gives a handle name to the live object with a key, and puts its item in front of the LRU list.
    ///
    /// It is refused with `BadKey` where the key has no bytes or more than 32768, `BadHandle` where the name is 4096 or
    /// more, `HandleBusy` where it is bound, and `Missing` where no live object has the key, the first of these. After a
    /// fault nothing is promised of the cache but that it can be dropped.
    pub(crate) fn open<F: Folder>(
        &mut self,
        folder: &mut F,
        handle: u16,
        key: &[u8],
        moment: u64,
    ) -> Result<Answer, Fault>
        requires is_open { ForSome (F.told folder.old).files (IsOpen self.old.files) }
        ensures does { ForCall self.old (F.told folder.old) moment (to_open handle key.now) (DoneBy self.new (F.told folder.new) result) }
        ensures stops { ForCall self.old (F.told folder.old) moment (to_open handle key.now) (StopsBy (F.told folder.new)) }

        // What the names and the key alone decide is refused on every folder, and a refusal does nothing.
        ensures refuses { IfSome (open_refusal self.old.handles handle key.now) (λ why. result ≡ Ok (answer.Refused why)) }
        ensures quiet { IfOk result (λ answer. IsRefused answer → Stays (F.told folder.old) (F.told folder.new)) }
        ensures unchanged { IfOk result (λ answer. IsRefused answer → self.new ≡ self.old) }

        ensures spares { ForCall self.old (F.told folder.old) moment (to_open handle key.now) (SparedBy (F.told folder.new) result) }
        ensures is_open { ForSome (F.told folder.new).files (IsOpen self.new.files) }
        ensures notes { self.new.notes ≡ self.old.notes }
        ensures mark { self.new.mark ≡ self.old.mark }

        // An observable folder reports no corruption where the cache keeps a state.
        ensures damaged { IfDamaged result (IsOpenDamage self.old.files (F.told folder.old) (F.told folder.new) key.now) }
        ensures cause { IfDamaged result (IsFailedCheck self.new.files (F.told folder.new)) }
        ensures untold { UndamagedWhere result (F.told folder.old) (KeepsAny self.old) }
        ensures writes { MayWrite F.told F.faults folder.old folder.new (IfDevice result) }
    {
        if let Some(why) = self.refuses_open(handle, key) {
            return Ok(Answer::Refused(why));
        }
        let Some(live) = find_live(folder, &self.files, key)? else {
            return Ok(Answer::Refused(Refusal::Missing));
        };
        let node = self.node_of(&live);
        touch(folder, &self.files, node, moment)?;
        self.bind_live(handle, &live, node);
        Ok(Answer::Done)
    }

    // The refusals of an Open that the key and the table of handles alone decide.
    pub(crate) fn refuses_open(&self, handle: u16, key: &[u8]) -> Option<Refusal>
        ensures { result ≡ open_refusal self.now.handles handle key.now }
    {
        if key.is_empty() || key.len() > LONGEST_KEY as usize {
            Some(Refusal::BadKey)
        } else if handle >= NAMES {
            Some(Refusal::BadHandle)
        } else if self.handles.object(handle).is_some() {
            Some(Refusal::HandleBusy)
        } else {
            None
        }
    }

    // The node of a live object that was found: where it is open, that in the table of handles.
    pub(crate) fn node_of(&self, live: &Live) -> Addr
        requires stands { IsTrue (is_node_among self.now.files live.now.node) }
        ensures same { ForSome (open_with self.now.handles live.now.entry) (λ object. object.node ≡ result) }
        ensures new { open_with self.now.handles live.now.entry ≡ None → result ≡ live.now.node }
        ensures stands { IsTrue (is_node_among self.now.files result) }
    {
        match self.handles.object_of(live.entry) {
            Some(object) => object.node,
            None => live.node,
        }
    }

    // Gives a free handle to a live object, whose cost is added to that of the open objects where it wasn't open.
    fn bind_live(&mut self, name: u16, live: &Live, node: Addr)
        requires known { name < handle_names }
        requires free { binding_of self.old.handles name ≡ None }
        requires same_node { ForSome (open_with self.old.handles live.now.entry) (λ object. object.node ≡ node) }
        requires stands { IsTrue (is_node_among self.old.files node) }
        requires names { IsTrue (is_record_among self.old.files live.now.entry) }
        ensures binds { self.new.handles ≡ slice_set self.old.handles name (Some (binding_for self.old.handles live.now.entry node false)) }
        ensures charges { self.new.open_bytes ≡ charged_with self.old.open_bytes (is_open self.old.handles live.now.entry) live.now.charge }
        ensures others { OnlyNamesChange self.old self.new }
        ensures shared { AreShared self.new.handles }
        ensures few { self.new.bytes < 2 ^ 64 }
    {
        // That the bytes are those of a u64 is known once they are read.
        let _bytes = self.bytes;
        let was_open = self.handles.is_pinned(live.entry);
        self.open_bytes = charged_with(self.open_bytes, was_open, live.charge);
        self.handles.bind(name, live.entry, node, false);
    }
}

// The cost of the open objects with one more, unless that was open already.
fn charged_with(charged: u64, was_open: bool, charge: u64) -> u64
    ensures { result ≡ charged_with charged was_open charge }
{
    if was_open {
        charged
    } else {
        charged.saturating_add(charge)
    }
}
