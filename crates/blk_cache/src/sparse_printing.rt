// The bytes of a SparseRead are printed.
ghost use Rattle.std.specs.Prelude.{OnOk};
ghost use Rattle.std.specs.Option.{ForSome};
ghost use Rattle.spec_image.specs.Told.{ReadsOnly};
ghost use Rattle.blk_io.specs.Faults.{IfDamaged, IfDevice, UndamagedWhere};
ghost use Rattle.blk_io.specs.Streams.{GoesOn};
ghost use Rattle.blk_disk.specs.Open.{IsOpen};
ghost use Rattle.blk_object.specs.FailedChecks.{IsFailedCheck};
ghost use Rattle.blk_cache.specs.Listing.{OnlyRoomChanges};
ghost use Rattle.blk_cache.specs.ReadPrinting.{ForPresent, KeepsPresent};
ghost use Rattle.blk_cache.specs.Stepping.{Puts, PutsPart};
ghost use Rattle.blk_evict.specs.RoomPrinting.{FailsWhereItRose};

use crate::cache::Cache;
use crate::sparse_asking::LARGEST_OFFSET;
use blk_io::{Fault, Folder, Sink};
use blk_print::{PresentRange, print_present};
use blk_ranges::PART_SIZE;

impl Cache {
    /// Prints the line of a SparseRead that was done: the number of bytes that are present from `offset` on, which its
    /// answer gave, and then the bytes.
    ///
    /// Nothing is written. Where the handle names no object, or so many bytes end past where sparse data does, nothing is
    /// printed. After a fault a prefix of the line is printed.
    pub(crate) fn print_sparse<F: Folder, K: Sink>(
        &mut self,
        folder: &mut F,
        out: &mut K,
        failed: &mut bool,
        handle: u16,
        offset: u64,
        number: u64,
    ) -> Result<(), Fault>
        requires is_open { ForSome (F.told folder.old).files (IsOpen self.old.files) }
        ensures printed { OnOk result (ForPresent self.old (F.told folder.old) handle offset number (Puts failed.old failed.new K.written out.old out.new)) }
        ensures part { ForPresent self.old (F.told folder.old) handle offset number (PutsPart failed.old K.written out.old out.new) }
        ensures failed { FailsWhereItRose failed.old failed.new (K.faults out.old) (K.faults out.new) }
        ensures others { OnlyRoomChanges self.old self.new }
        ensures reads { ReadsOnly F.told F.faults folder.old folder.new (IfDevice result) }

        // An observable folder reports no corruption where the cache keeps a state with so many bytes.
        ensures damaged { IfDamaged result (IsFailedCheck self.new.files (F.told folder.new)) }
        ensures untold { UndamagedWhere result (F.told folder.old) (KeepsPresent self.old handle offset number) }
        ensures later_out { GoesOn K.is K.faults out.old out.new }
    {
        let Some(object) = self.handles.object(handle) else {
            return Ok(());
        };
        if number > u64::from(PART_SIZE) || offset > LARGEST_OFFSET - number {
            return Ok(());
        }
        let range = PresentRange {
            entry: object.entry,
            node: object.node,
            offset,
            count: number,
        };
        print_present(folder, &self.files, &mut self.name, out, failed, &range)
    }
}
