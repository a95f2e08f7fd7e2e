// Space is made.
ghost use Rattle.std.specs.Prelude.{◌≡◌, ◌≤◌, ◌&&◌, ◌||◌, ◌==◌, [], IfOk, None, OnErr, OnOk, true};
ghost use Rattle.std.specs.Option.{ForSome};
ghost use Rattle.spec_image.specs.Told.{Rises, Stays, MayWrite};
ghost use Rattle.blk_io.specs.Faults.{IfDamaged, IfDevice, UndamagedWhere};
ghost use Rattle.blk_io.specs.Streams.{GoesOn};
ghost use Rattle.blk_model.specs.Room.{fits};
ghost use Rattle.blk_disk.specs.Open.{IsOpen};
ghost use Rattle.law_state.specs.Commands.{ForKept};
ghost use Rattle.blk_object.specs.FailedChecks.{IsFailedCheck};
ghost use Rattle.blk_cache.specs.CacheKeeping.{HoldsState};
ghost use Rattle.blk_cache.specs.CommandClauses.{KeepsAny, ForAnyKept};
ghost use Rattle.blk_cache.specs.Covering.{ForCovered, KeepsCovered};
ghost use Rattle.blk_cache.specs.Evicting.{BegunBy, EvictedBy, EvictingBy, OnlyItemsChange, PrintedBy};
ghost use Rattle.blk_cache.specs.MakingRoom.{ForMaking, ForUnits, ForRoom, says_full, HasSpace, TellsFull};
ghost use Rattle.blk_evict.specs.RoomPrinting.{FailsWhereItRose};

use crate::cache::Cache;
use crate::covered::Covered;
use crate::goal::Goal;
use blk_io::{Fault, Folder, Sink};

/// Whether there is space for what a command adds.
#[derive(Clone, Copy, PartialEq, Eq)]
pub(crate) enum Room {
    /// The open objects and what is added exceed a limit.
    Full,
    /// There is space, and what had to be evicted for it is out.
    Made,
}

impl Cache {
    /// Makes space for so many more bytes and items, where there can be space, and prints what is evicted for it. No
    /// part is in range.
    ///
    /// After a fault nothing is promised of the cache but that it can be dropped.
    pub(crate) fn make_room<F: Folder, K: Sink>(
        &mut self,
        folder: &mut F,
        out: &mut K,
        failed: &mut bool,
        bytes: u64,
        items: u64,
    ) -> Result<Room, Fault>
        requires is_open { ForSome (F.told folder.old).files (IsOpen self.old.files) }

        // There is no space exactly where the model has none; then nothing is done.
        ensures full { IfOk result (λ answer. ForKept (HoldsState self.old) (F.told folder.old) (λ state. TellsFull bytes items answer state [])) }
        ensures stays { IfOk result (λ answer. says_full answer ≡ true → Stays (F.told folder.old) (F.told folder.new)) }
        ensures tried { OnErr result (ForKept (HoldsState self.old) (F.told folder.old) (λ state. HasSpace bytes items state [])) }
        ensures unchanged { IfOk result (λ answer. says_full answer ≡ true → self.new ≡ self.old) }
        ensures unprinted { IfOk result (λ answer. says_full answer ≡ true → K.written out.new ≡ K.written out.old) }

        // Each state that was kept is kept without what is evicted for it, and that is printed.
        ensures made { OnOk result (ForMaking self.old (F.told folder.old) bytes items (EvictedBy self.new (F.told folder.new))) }
        ensures prints { OnOk result (ForMaking self.old (F.told folder.old) bytes items (PrintedBy failed.old failed.new K.written out.old out.new)) }

        // At each word a prefix of what is evicted is out; on any answer a prefix of its text was printed.
        ensures stops { ForMaking self.old (F.told folder.old) bytes items (EvictingBy (F.told folder.old) (F.told folder.new)) }
        ensures front { ForMaking self.old (F.told folder.old) bytes items (BegunBy K.written out.old out.new) }

        // Where the output failed before nothing is printed.
        ensures quiet { failed.old ≡ true → (failed.new ≡ true) × (K.written out.new ≡ K.written out.old) }
        ensures fails { FailsWhereItRose failed.old failed.new (K.faults out.old) (K.faults out.new) }
        ensures others { OnlyItemsChange self.old self.new }
        ensures is_open { ForSome (F.told folder.new).files (IsOpen self.new.files) }

        // Corruption is a check that fails on what is read here; nothing is written after it.
        ensures damaged { IfDamaged result (IsFailedCheck self.new.files (F.told folder.new)) }

        // An observable folder reports no corruption where the cache keeps a state.
        ensures untold { UndamagedWhere result (F.told folder.old) (KeepsAny self.old) }
        ensures silent { (F.told folder.old).files ≡ None → (F.told folder.new).files ≡ None }
        ensures later { F.faults folder.old ≤ F.faults folder.new }
        ensures sink_later { GoesOn K.is K.faults out.old out.new }
        ensures device { IfDevice result (Rises (F.faults folder.old) (F.faults folder.new)) }
    {
        self.make_room_beside(folder, out, failed, bytes, items, &Covered::none())
    }

    /// Makes space for so many more bytes and items, where there can be space, and prints what is evicted for it. The
    /// parts in range stay.
    ///
    /// Nothing is evicted where they fit, or nothing is asked for; and whether there can be space is decided by what is
    /// kept in memory. After a fault nothing is promised of the cache but that it can be dropped.
    pub(crate) fn make_room_beside<F: Folder, K: Sink>(
        &mut self,
        folder: &mut F,
        out: &mut K,
        failed: &mut bool,
        bytes: u64,
        items: u64,
        parts: &Covered,
    ) -> Result<Room, Fault>
        requires is_open { ForSome (F.told folder.old).files (IsOpen self.old.files) }

        // There is no space exactly where the model has none; then nothing is done.
        ensures full { IfOk result (λ answer. ForCovered self.old parts.now (F.told folder.old) (TellsFull bytes items answer)) }
        ensures stays { IfOk result (λ answer. says_full answer ≡ true → Stays (F.told folder.old) (F.told folder.new)) }
        ensures tried { OnErr result (ForCovered self.old parts.now (F.told folder.old) (HasSpace bytes items)) }
        ensures unchanged { IfOk result (λ answer. says_full answer ≡ true → self.new ≡ self.old) }
        ensures unprinted { IfOk result (λ answer. says_full answer ≡ true → K.written out.new ≡ K.written out.old) }

        // Each state that was kept is kept without what is evicted for it, and that is printed.
        ensures made { OnOk result (ForUnits self.old parts.now (F.told folder.old) bytes items (EvictedBy self.new (F.told folder.new))) }
        ensures prints { OnOk result (ForUnits self.old parts.now (F.told folder.old) bytes items (PrintedBy failed.old failed.new K.written out.old out.new)) }

        // At each word a prefix of what is evicted is out; on any answer a prefix of its text was printed.
        ensures stops { ForUnits self.old parts.now (F.told folder.old) bytes items (EvictingBy (F.told folder.old) (F.told folder.new)) }
        ensures front { ForUnits self.old parts.now (F.told folder.old) bytes items (BegunBy K.written out.old out.new) }

        // Where the output failed before nothing is printed.
        ensures quiet { failed.old ≡ true → (failed.new ≡ true) × (K.written out.new ≡ K.written out.old) }
        ensures fails { FailsWhereItRose failed.old failed.new (K.faults out.old) (K.faults out.new) }
        ensures others { OnlyItemsChange self.old self.new }
        ensures is_open { ForSome (F.told folder.new).files (IsOpen self.new.files) }

        // Corruption is a check that fails on what is read here; nothing is written after it.
        ensures damaged { IfDamaged result (IsFailedCheck self.new.files (F.told folder.new)) }

        // An observable folder reports no corruption where the cache keeps a state with these parts in range.
        ensures untold { UndamagedWhere result (F.told folder.old) (KeepsCovered self.old parts.now) }
        ensures silent { (F.told folder.old).files ≡ None → (F.told folder.new).files ≡ None }
        ensures later { F.faults folder.old ≤ F.faults folder.new }
        ensures sink_later { GoesOn K.is K.faults out.old out.new }
        ensures device { IfDevice result (Rises (F.faults folder.old) (F.faults folder.new)) }
    {
        if self.is_full(bytes, items, parts) {
            return Ok(Room::Full);
        }
        self.evict_for(folder, out, failed, bytes, items, parts)?;
        Ok(Room::Made)
    }

    /// Evicts what is needed for so many more bytes and items, where there can be space for them, and prints it. The
    /// parts in range stay.
    ///
    /// Nothing is evicted where they fit, or nothing is asked for. After a fault nothing is promised of the cache but that
    /// it can be dropped.
    pub(crate) fn evict_for<F: Folder, K: Sink>(
        &mut self,
        folder: &mut F,
        out: &mut K,
        failed: &mut bool,
        bytes: u64,
        items: u64,
        parts: &Covered,
    ) -> Result<(), Fault>
        requires is_open { ForSome (F.told folder.old).files (IsOpen self.old.files) }

        // Each state that was kept, and has space, is kept without what is evicted for it, and that is printed.
        ensures evicted { OnOk result (ForRoom self.old parts.now (F.told folder.old) bytes items (EvictedBy self.new (F.told folder.new))) }
        ensures prints { OnOk result (ForRoom self.old parts.now (F.told folder.old) bytes items (PrintedBy failed.old failed.new K.written out.old out.new)) }

        // At each word a prefix of what is evicted is out; on any answer a prefix of its text was printed.
        ensures stops { ForRoom self.old parts.now (F.told folder.old) bytes items (EvictingBy (F.told folder.old) (F.told folder.new)) }
        ensures front { ForRoom self.old parts.now (F.told folder.old) bytes items (BegunBy K.written out.old out.new) }

        // Where the output failed before nothing is printed.
        ensures quiet { failed.old ≡ true → (failed.new ≡ true) × (K.written out.new ≡ K.written out.old) }
        ensures fails { FailsWhereItRose failed.old failed.new (K.faults out.old) (K.faults out.new) }
        ensures others { OnlyItemsChange self.old self.new }
        ensures is_open { ForSome (F.told folder.new).files (IsOpen self.new.files) }

        // Corruption is a check that fails on what is read here; nothing is written after it.
        ensures damaged { IfDamaged result (IsFailedCheck self.new.files (F.told folder.new)) }

        // An observable folder reports no corruption where the cache keeps a state with these parts in range.
        ensures untold { UndamagedWhere result (F.told folder.old) (KeepsCovered self.old parts.now) }
        ensures writes { MayWrite F.told F.faults folder.old folder.new (IfDevice result) }
        ensures sink_later { GoesOn K.is K.faults out.old out.new }
    {
        if self.wants_none(bytes, items) {
            return Ok(());
        }
        self.evict_until(folder, out, failed, &Goal::Room { bytes, items }, parts)?;
        Ok(())
    }

    // Whether nothing is evicted for so many more bytes and items: nothing is asked for, or they fit.
    fn wants_none(&self, bytes: u64, items: u64) -> bool
        ensures none { ForAnyKept self.now (λ state. result ≡ ((bytes == 0 && items == 0) || fits state.limits.max_bytes bytes items state)) }
    {
        if asks_nothing(bytes, items) {
            return true;
        }
        self.fits(bytes, items)
    }
}

// Whether nothing is asked for.
fn asks_nothing(bytes: u64, items: u64) -> bool
    ensures { result ≡ (bytes == 0 && items == 0) }
{
    bytes == 0 && items == 0
}
