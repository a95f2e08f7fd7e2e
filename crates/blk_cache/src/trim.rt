// The command Trim.
ghost use Rattle.std.specs.Prelude.{◌≡◌, IfOk};
ghost use Rattle.std.specs.Option.{ForSome};
ghost use Rattle.spec_image.specs.Told.{MayWrite};
ghost use Rattle.blk_io.specs.Faults.{IfDamaged, IfDevice, UndamagedWhere};
ghost use Rattle.blk_io.specs.Streams.{GoesOn};
ghost use Rattle.blk_model.specs.Request.{to_trim};
ghost use Rattle.blk_disk.specs.Open.{IsOpen};
ghost use Rattle.blk_object.specs.FailedChecks.{IsFailedCheck};
ghost use Rattle.blk_cache.specs.CommandClauses.{DoneBy, IsRefused, KeepsAny, StopsBy, AtAnyMoment};
ghost use Rattle.blk_evict.specs.RoomPrinting.{FailsWhereItRose};
ghost use Rattle.blk_cache.specs.Stepping.{FrontBy, SaidBy};

use crate::cache::Cache;
use crate::covered::Covered;
use crate::goal::Goal;
use blk_io::{Fault, Folder, Sink};
use blk_model::Answer;

impl Cache {
    /// Removes eviction units from the back of the LRU list, until no more than so many bytes are left or each item is pinned, and
    /// prints what is evicted. It answers how many items were evicted, and is never refused.
    ///
    /// After a fault nothing is promised of the cache but that it can be dropped.
    pub(crate) fn trim<F: Folder, K: Sink>(
        &mut self,
        folder: &mut F,
        out: &mut K,
        failed: &mut bool,
        bytes: u64,
    ) -> Result<Answer, Fault>
        requires is_open { ForSome (F.told folder.old).files (IsOpen self.old.files) }
        ensures does { AtAnyMoment self.old (F.told folder.old) (to_trim bytes) (DoneBy self.new (F.told folder.new) result) }
        ensures stops { AtAnyMoment self.old (F.told folder.old) (to_trim bytes) (StopsBy (F.told folder.new)) }

        // What it evicts is printed, and on any answer a prefix of that.
        ensures says { AtAnyMoment self.old (F.told folder.old) (to_trim bytes) (SaidBy failed.old failed.new K.written out.old out.new result) }
        ensures front { AtAnyMoment self.old (F.told folder.old) (to_trim bytes) (FrontBy K.written out.old out.new) }
        ensures fails { FailsWhereItRose failed.old failed.new (K.faults out.old) (K.faults out.new) }

        ensures passes { IfOk result (λ given. IsRefused given → ⊥) }
        ensures is_open { ForSome (F.told folder.new).files (IsOpen self.new.files) }
        ensures notes { self.new.notes ≡ self.old.notes }
        ensures mark { self.new.mark ≡ self.old.mark }

        // Corruption is a check that fails on what is read here; nothing is written after it.
        ensures damaged { IfDamaged result (IsFailedCheck self.new.files (F.told folder.new)) }

        // An observable folder reports no corruption where the cache keeps a state.
        ensures untold { UndamagedWhere result (F.told folder.old) (KeepsAny self.old) }
        ensures writes { MayWrite F.told F.faults folder.old folder.new (IfDevice result) }
        ensures sink_later { GoesOn K.is K.faults out.old out.new }
    {
        let count = self.evict_until(folder, out, failed, &Goal::Bytes(bytes), &Covered::none())?;
        Ok(Answer::Trimmed(count))
    }
}
