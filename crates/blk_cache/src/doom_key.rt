// The command DoomKey.
ghost use Rattle.std.specs.Prelude.{◌≡◌, ◌≤◌, IfOk, IfSome, IsTrue, Ok, OnOk, length};
ghost use Rattle.std.specs.Option.{ForSome};
ghost use Rattle.spec_image.specs.Told.{Stays, MayWrite, ForTold};
ghost use Rattle.blk_io.specs.Faults.{IfDamaged, IfDevice, UndamagedWhere};
ghost use Rattle.blk_model.specs.Refusals.{no_key};
ghost use Rattle.blk_model.specs.Request.{to_doom_key};
ghost use Rattle.blk_model.specs.Sizes.{longest_key};
ghost use Rattle.blk_model.specs.declared.Answer.TheVariants as answer;
ghost use Rattle.blk_model.specs.declared.Refusal.TheVariants as refusal;
ghost use Rattle.spec_format.specs.Address.{blocks_256, kind_of};
ghost use Rattle.blk_disk.specs.Open.{IsOpen};
ghost use Rattle.blk_disk.specs.Tables.{is_node_among, stands_among};
ghost use Rattle.blk_object.specs.FailedChecks.{IsFailedCheck};
ghost use Rattle.blk_cache.specs.CommandClauses.{DoneBy, IsRefused, KeepsAny, SparedBy, StopsBy, AtAnyMoment};
ghost use Rattle.blk_cache.specs.Dooming.{CacheDoomedBy, CacheDoomingBy, CacheUndamagedAt, ForEachKept};

use crate::cache::Cache;
use crate::dooming_objects::{Target, doom_target, find_target};
use blk_evict::is_no_key;
use blk_io::{Fault, Folder};
use blk_model::{Answer, Refusal};

impl Cache {
    /// Dooms the live object with a key: an open one as `doom` does; any other is removed whole, with its parts.
    ///
    /// It is refused with `BadKey` where the key has no bytes or more than 32768, and `Missing` where no live object has
    /// the key. After a fault nothing is promised of the cache but that it can be dropped.
    pub(crate) fn doom_key<F: Folder>(
        &mut self,
        folder: &mut F,
        key: &[u8],
    ) -> Result<Answer, Fault>
        requires is_open { ForSome (F.told folder.old).files (IsOpen self.old.files) }
        ensures does { AtAnyMoment self.old (F.told folder.old) (to_doom_key key.now) (DoneBy self.new (F.told folder.new) result) }
        ensures stops { AtAnyMoment self.old (F.told folder.old) (to_doom_key key.now) (StopsBy (F.told folder.new)) }

        // A key that is none is refused on every folder, and a refusal does nothing.
        ensures refuses { IsTrue (no_key key.now) → result ≡ Ok (answer.Refused refusal.BadKey) }
        ensures quiet { IfOk result (λ answer. IsRefused answer → Stays (F.told folder.old) (F.told folder.new)) }
        ensures unchanged { IfOk result (λ answer. IsRefused answer → self.new ≡ self.old) }

        ensures spares { AtAnyMoment self.old (F.told folder.old) (to_doom_key key.now) (SparedBy (F.told folder.new) result) }
        ensures is_open { ForSome (F.told folder.new).files (IsOpen self.new.files) }
        ensures notes { self.new.notes ≡ self.old.notes }
        ensures mark { self.new.mark ≡ self.old.mark }

        // Corruption is a check that fails on what is read here; nothing is written after it.
        ensures damaged { IfDamaged result (IsFailedCheck self.new.files (F.told folder.new)) }

        // An observable folder reports no corruption where the cache keeps a state.
        ensures untold { UndamagedWhere result (F.told folder.old) (KeepsAny self.old) }
        ensures writes { MayWrite F.told F.faults folder.old folder.new (IfDevice result) }
    {
        if is_no_key(key) {
            return Ok(Answer::Refused(Refusal::BadKey));
        }
        let Some(target) = find_target(folder, &self.files, key)? else {
            return Ok(Answer::Refused(Refusal::Missing));
        };
        self.doom_found(folder, &target, key)?;
        Ok(Answer::Done)
    }

    // Dooms a live object with a key, as it was found.
    fn doom_found<F: Folder>(
        &mut self,
        folder: &mut F,
        target: &Target,
        key: &[u8],
    ) -> Result<(), Fault>
        requires some { 1 ≤ length key.now }
        requires short { length key.now ≤ longest_key }
        requires node { IsTrue (is_node_among self.old.files target.now.node) }
        requires kind { kind_of target.now.found.entry ≡ blocks_256 }
        requires stands { IsTrue (stands_among self.old.files target.now.found.entry) }
        requires kind_before { IfSome target.now.found.before (λ before. kind_of before ≡ blocks_256) }
        requires stands_before { IfSome target.now.found.before (λ before. IsTrue (stands_among self.old.files before)) }
        requires is_open { ForSome (F.told folder.old).files (IsOpen self.old.files) }
        ensures dooms { OnOk result (ForTold (F.told folder.old) (ForEachKept self.old key.now target.now) (CacheDoomedBy self.new (F.told folder.new))) }
        ensures stops { ForTold (F.told folder.old) (ForEachKept self.old key.now target.now) (CacheDoomingBy (F.told folder.old) (F.told folder.new)) }
        ensures is_open { ForSome (F.told folder.new).files (IsOpen self.new.files) }
        ensures notes { self.new.notes ≡ self.old.notes }
        ensures mark { self.new.mark ≡ self.old.mark }
        ensures damaged { IfDamaged result (IsFailedCheck self.new.files (F.told folder.new)) }
        ensures untold { ForTold (F.told folder.old) (ForEachKept self.old key.now target.now) (CacheUndamagedAt result (F.told folder.old)) }
        ensures writes { MayWrite F.told F.faults folder.old folder.new (IfDevice result) }
    {
        let entry = target.found.entry;
        let is_held = self.handles.is_pinned(entry);
        let gone = doom_target(folder, &self.files, target, key, &mut self.name, is_held)?;
        self.count_doomed(entry, &gone);
        Ok(())
    }
}
