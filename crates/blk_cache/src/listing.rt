// The command List, and the rows that it shows.
ghost use Rattle.std.specs.Prelude.{IfOk, OnOk};
ghost use Rattle.spec_image.specs.Told.{ReadsOnly};
ghost use Rattle.blk_io.specs.Faults.{IfDamaged, IfDevice, IsShort, UndamagedWhere};
ghost use Rattle.blk_io.specs.Streams.{GoesOn};
ghost use Rattle.blk_io.specs.declared.folder.FileId.TheVariants as names;
ghost use Rattle.blk_model.specs.Request.{to_list};
ghost use Rattle.blk_object.specs.FailedChecks.{IsFailedCheck};
ghost use Rattle.blk_cache.specs.CommandClauses.{DoneBy, IsRefused, KeepsAny, AtAnyMoment};
ghost use Rattle.blk_cache.specs.Listing.{OnlyRoomChanges};
ghost use Rattle.blk_cache.specs.Stepping.{Puts, PutsPart};
ghost use Rattle.blk_evict.specs.RoomPrinting.{FailsWhereItRose};
ghost use Rattle.blk_cache.specs.Replying.{ForRowLines};

use crate::cache::Cache;
use blk_index::word;
use blk_io::{Fault, Folder, Sink};
use blk_model::Answer;
use blk_print::print_items;
use blk_record::IndexHead;

impl Cache {
    /// How many items the LRU list has, by one folder call. Nothing is written, and nothing is refused.
    pub(crate) fn list<F: Folder>(&self, folder: &mut F) -> Result<Answer, Fault>
        ensures does { AtAnyMoment self.now (F.told folder.old) to_list (DoneBy self.now (F.told folder.new) result) }
        ensures reads { ReadsOnly F.told F.faults folder.old folder.new (IfDevice result) }
        ensures passes { IfOk result (λ given. IsRefused given → ⊥) }

        // Too few bytes, which an observable folder doesn't give where the cache keeps a state.
        ensures damaged { IfDamaged result (IsShort (F.told folder.old) names.Index IndexHead.SIZES 4) }
        ensures cause { IfDamaged result (IsFailedCheck self.now.files (F.told folder.new)) }
        ensures untold { UndamagedWhere result (F.told folder.old) (KeepsAny self.now) }
    {
        let count = word(folder, IndexHead::SIZES)?;
        Ok(Answer::Listed(u64::from(count)))
    }

    /// Prints the rows of a List, a line each, from the front of the LRU list on: of an object its key and the lengths of
    /// its streams, and of a part its number and how many bytes it has. A doomed object has none.
    ///
    /// One folder call finds the first item, and five more are made for each. Nothing is written. After a fault a
    /// prefix of the lines is printed.
    pub(crate) fn print_rows<F: Folder, K: Sink>(
        &mut self,
        folder: &mut F,
        out: &mut K,
        failed: &mut bool,
    ) -> Result<(), Fault>
        ensures printed { OnOk result (ForRowLines self.old (F.told folder.old) (Puts failed.old failed.new K.written out.old out.new)) }
        ensures part { ForRowLines self.old (F.told folder.old) (PutsPart failed.old K.written out.old out.new) }
        ensures failed { FailsWhereItRose failed.old failed.new (K.faults out.old) (K.faults out.new) }
        ensures others { OnlyRoomChanges self.old self.new }
        ensures reads { ReadsOnly F.told F.faults folder.old folder.new (IfDevice result) }
        ensures damaged { IfDamaged result (IsFailedCheck self.new.files (F.told folder.new)) }
        ensures untold { UndamagedWhere result (F.told folder.old) (KeepsAny self.old) }
        ensures later_out { GoesOn K.is K.faults out.old out.new }
    {
        print_items(folder, &self.files, &mut self.name, out, failed)
    }
}
