// The totals of a cache, and its end.
ghost use Rattle.std.specs.Prelude.{◌≡◌, ◌≤◌, OnErr, OnOk};
ghost use Rattle.std.specs.Option.{ForSome};
ghost use Rattle.spec_image.specs.Image.{Image, Index as index};
ghost use Rattle.spec_image.specs.Steps.{word_step};
ghost use Rattle.spec_image.specs.Told.{Applies, AppliesPrefix, PassesAny, Rises};
ghost use Rattle.blk_model.specs.Room.{items as items_of, total};
ghost use Rattle.blk_model.specs.State.{State};
ghost use Rattle.spec_folder.specs.Found.{HoldsStill};
ghost use Rattle.blk_disk.specs.Open.{IsOpen};
ghost use Rattle.blk_repair.specs.Counters.{crash_place};
ghost use Rattle.blk_cache.specs.BoundNames.{AreAllFree};
ghost use Rattle.blk_cache.specs.CacheKeeping.{KeepsState};
ghost use Rattle.blk_cache.specs.Opening.{EndsSession, ForSession};

use crate::cache::Cache;
use blk_index::set_word;
use blk_io::{Failed, Folder};
use blk_record::IndexHead;

impl Cache {
    /// The number of items, and the sum of their costs in bytes. Doomed open objects count too.
    pub fn totals(&self) -> (u64, u64)
        ensures kept { (result.0 ≡ self.now.items) × (result.1 ≡ self.now.bytes) }
        ensures totals { (state : State) (image : Image) → KeepsState self.now state image → (result.0 ≡ items_of state) × (result.1 ≡ total state) }
    {
        (self.items, self.bytes)
    }

    /// Ends the session, by one folder call. No handle name is bound.
    ///
    /// `Failed` comes only where the folder failed in this call.
    pub fn finish<F: Folder>(self, f: &mut F) -> Result<(), Failed>
        requires free { AreAllFree self.handles }
        requires is_open { ForSome (F.told f.old).files (IsOpen self.files) }

        // In the end the folder is consistent, no session is open, and the index has the version that is made now.
        ensures ended { OnOk result (ForSession self (F.told f.old) (λ from. ForSome (F.told f.new).files EndsSession)) }
        ensures steps { OnOk result (Applies (F.told f.old) (F.told f.new) (word_step index crash_place 0)) }
        ensures prefix { AppliesPrefix (F.told f.old) (F.told f.new) (word_step index crash_place 0) }

        // Before and after the step recovery gives the same.
        ensures stops { ForSession self (F.told f.old) (λ from. PassesAny (F.told f.old) (F.told f.new) (HoldsStill from)) }

        ensures later { F.faults f.old ≤ F.faults f.new }
        ensures failed { OnErr result (Rises (F.faults f.old) (F.faults f.new)) }
    {
        set_word(f, IndexHead::CRASH, 0)
    }
}
