// Eviction units are removed until a goal is met.
ghost use Rattle.std.specs.Prelude.{◌≡◌, IfOk, IsTrue, OnOk, true};
ghost use Rattle.std.specs.Option.{ForSome};
ghost use Rattle.spec_image.specs.Told.{MayWrite, ForTold};
ghost use Rattle.blk_io.specs.Faults.{IfDamaged, IfDevice, UndamagedWhere};
ghost use Rattle.blk_io.specs.Streams.{GoesOn};
ghost use Rattle.blk_disk.specs.Open.{IsOpen};
ghost use Rattle.blk_disk.specs.Tables.{is_node_among, is_record_among};
ghost use Rattle.blk_object.specs.FailedChecks.{IsFailedCheck};
ghost use Rattle.blk_cache.specs.Covering.{KeepsCovered};
ghost use Rattle.blk_cache.specs.Evicting.{BegunBy, EvictedBy, EvictingBy, ForEachThatMayGo, ForGoal, ForUnit, KeepsThatMayGo, OnlyItemsChange, PrintedBy, count_of_groups, CountedBy, RemovingBy, UnitEvictedBy};
ghost use Rattle.blk_evict.specs.RoomPrinting.{FailsWhereItRose};

use crate::cache::Cache;
use crate::covered::Covered;
use crate::goal::Goal;
use blk_evict::{Unpinned, evict_group};
use blk_io::{Fault, Folder, Sink};

impl Cache {
    /// Removes eviction units, each that of the last item that isn't pinned, until enough is evicted or each item is pinned, and
    /// prints each item of them. The answer is how many items were evicted. The parts in range are pinned.
    ///
    /// After a fault nothing is promised of the cache but that it can be dropped. Where the output fails nothing more is
    /// printed, and the eviction goes on.
    pub(crate) fn evict_until<F: Folder, K: Sink>(
        &mut self,
        folder: &mut F,
        out: &mut K,
        failed: &mut bool,
        goal: &Goal,
        parts: &Covered,
    ) -> Result<u64, Fault>
        requires is_open { ForSome (F.told folder.old).files (IsOpen self.old.files) }

        // Each state that was kept is kept without the eviction units that are evicted, and their items are counted and printed.
        ensures evicted { OnOk result (ForGoal self.old parts.now (F.told folder.old) goal.now (EvictedBy self.new (F.told folder.new))) }
        ensures counts { IfOk result (λ count. ForGoal self.old parts.now (F.told folder.old) goal.now (λ state groups. count ≡ count_of_groups groups)) }
        ensures prints { OnOk result (ForGoal self.old parts.now (F.told folder.old) goal.now (PrintedBy failed.old failed.new K.written out.old out.new)) }

        // At each word a prefix of the eviction units that are evicted is out; on any answer a prefix of their text was printed.
        ensures stops { ForGoal self.old parts.now (F.told folder.old) goal.now (EvictingBy (F.told folder.old) (F.told folder.new)) }
        ensures front { ForGoal self.old parts.now (F.told folder.old) goal.now (BegunBy K.written out.old out.new) }

        // Where the output failed before nothing is printed.
        ensures quiet { failed.old ≡ true → (failed.new ≡ true) × (K.written out.new ≡ K.written out.old) }
        ensures fails { FailsWhereItRose failed.old failed.new (K.faults out.old) (K.faults out.new) }
        ensures others { OnlyItemsChange self.old self.new }
        ensures is_open { ForSome (F.told folder.new).files (IsOpen self.new.files) }

        // Corruption is a check that fails on what is read here; nothing is written after it.
        ensures damaged { IfDamaged result (IsFailedCheck self.new.files (F.told folder.new)) }

        // An observable folder reports no corruption where the cache keeps a state with these parts in range.
        ensures untold { UndamagedWhere result (F.told folder.old) (KeepsCovered self.old parts.now) }
        ensures writes { MayWrite F.told F.faults folder.old folder.new (IfDevice result) }
        ensures sink_later { GoesOn K.is K.faults out.old out.new }
    {
        let before = self.items;
        self.evict_groups(folder, out, failed, goal, parts)?;
        Ok(before.saturating_sub(self.items))
    }

    // Removes eviction units until the goal is met or each item is pinned.
    fn evict_groups<F: Folder, K: Sink>(
        &mut self,
        folder: &mut F,
        out: &mut K,
        failed: &mut bool,
        goal: &Goal,
        parts: &Covered,
    ) -> Result<(), Fault>
        requires is_open { ForSome (F.told folder.old).files (IsOpen self.old.files) }
        ensures evicted { OnOk result (ForGoal self.old parts.now (F.told folder.old) goal.now (EvictedBy self.new (F.told folder.new))) }
        ensures counts { OnOk result (ForGoal self.old parts.now (F.told folder.old) goal.now (CountedBy self.old self.new)) }
        ensures prints { OnOk result (ForGoal self.old parts.now (F.told folder.old) goal.now (PrintedBy failed.old failed.new K.written out.old out.new)) }
        ensures stops { ForGoal self.old parts.now (F.told folder.old) goal.now (EvictingBy (F.told folder.old) (F.told folder.new)) }
        ensures front { ForGoal self.old parts.now (F.told folder.old) goal.now (BegunBy K.written out.old out.new) }
        ensures quiet { failed.old ≡ true → (failed.new ≡ true) × (K.written out.new ≡ K.written out.old) }
        ensures fails { FailsWhereItRose failed.old failed.new (K.faults out.old) (K.faults out.new) }
        ensures others { OnlyItemsChange self.old self.new }
        ensures is_open { ForSome (F.told folder.new).files (IsOpen self.new.files) }
        ensures damaged { IfDamaged result (IsFailedCheck self.new.files (F.told folder.new)) }
        ensures untold { UndamagedWhere result (F.told folder.old) (KeepsCovered self.old parts.now) }
        ensures writes { MayWrite F.told F.faults folder.old folder.new (IfDevice result) }
        ensures sink_later { GoesOn K.is K.faults out.old out.new }
    {
        let most = self.items;
        let mut behind = None;
        for _ in 0..most {
            if self.is_met(goal) {
                return Ok(());
            }
            let Some(found) = self.last_unpinned(folder, behind, parts)? else {
                return Ok(());
            };
            behind = found.behind;
            self.evict(folder, out, failed, &found)?;
        }
        Ok(())
    }

    // Removes the eviction unit of an item that isn't pinned, and prints its items: a main item with its parts, or a part alone.
    fn evict<F: Folder, K: Sink>(
        &mut self,
        folder: &mut F,
        out: &mut K,
        failed: &mut bool,
        found: &Unpinned,
    ) -> Result<(), Fault>
        requires node { IsTrue (is_node_among self.old.files found.now.node) }
        requires record_stands { IsTrue (is_record_among self.old.files found.now.entry) }
        requires is_open { ForSome (F.told folder.old).files (IsOpen self.old.files) }

        // Where it may be evicted in a state that was kept, that is kept without its eviction unit.
        ensures evicted { OnOk result (ForTold (F.told folder.old) (ForEachThatMayGo self.old found.now) (UnitEvictedBy self.new (F.told folder.new))) }
        ensures prints { OnOk result (ForUnit self.old found.now (F.told folder.old) (PrintedBy failed.old failed.new K.written out.old out.new)) }
        ensures stops { ForUnit self.old found.now (F.told folder.old) (RemovingBy (F.told folder.old) (F.told folder.new)) }
        ensures front { ForUnit self.old found.now (F.told folder.old) (BegunBy K.written out.old out.new) }
        ensures quiet { failed.old ≡ true → (failed.new ≡ true) × (K.written out.new ≡ K.written out.old) }
        ensures fails { FailsWhereItRose failed.old failed.new (K.faults out.old) (K.faults out.new) }
        ensures others { OnlyItemsChange self.old self.new }
        ensures is_open { ForSome (F.told folder.new).files (IsOpen self.new.files) }
        ensures damaged { IfDamaged result (IsFailedCheck self.new.files (F.told folder.new)) }
        ensures untold { UndamagedWhere result (F.told folder.old) (KeepsThatMayGo self.old found.now) }
        ensures writes { MayWrite F.told F.faults folder.old folder.new (IfDevice result) }
        ensures sink_later { GoesOn K.is K.faults out.old out.new }
    {
        let gone = evict_group(folder, &self.files, &mut self.name, out, failed, found)?;
        self.items = self.items.saturating_sub(gone.items);
        self.bytes = self.bytes.saturating_sub(gone.bytes);
        Ok(())
    }
}
