// Blocks are freed.
ghost use Rattle.std.specs.Prelude.{false, IsTrue, OnOk};
ghost use Rattle.std.specs.Option.{ForSome};
ghost use Rattle.spec_image.specs.Told.{Stays, MayWrite, LeavesFrom};
ghost use Rattle.spec_format.specs.Address.{block_count, file_selector, first_block};
ghost use Rattle.blk_io.specs.Faults.{IfDamaged, IfDevice, UndamagedWhere};
ghost use Rattle.blk_disk.specs.Tables.{Agrees, stands_among};
ghost use Rattle.blk_alloc.specs.Marking.{KeepsHints};
ghost use Rattle.blk_alloc.specs.Owning.{CanBeFreed, FreesInProgress, FreesOrStops, IsFreed, IsCause};
ghost use Rattle.blk_alloc.specs.Clauses.{StopsOrEnds};

use crate::blocks::blocks_of;
use crate::change::read_and_change;
use blk_addr::Addr;
use blk_disk::BlockFiles;
use blk_io::{Fault, Folder};

/// Frees the blocks of an address: their marks in the map are cleared, and the counters of the file are adjusted.
///
/// A failed check is a read of the file's header that gave too few bytes, or a counter that would leave its range, and
/// nothing is written then. Where the address is one of the allocations of its file, only an opaque folder gives either.
pub fn free<F: Folder>(f: &mut F, files: &BlockFiles, addr: Addr) -> Result<(), Fault>
    requires stands { IsTrue (stands_among files.now addr) }
    requires agrees { ForSome (F.told f.old).files (Agrees files.now) }
    ensures freed { OnOk result (ForSome (F.told f.old).files (λ from. ForSome (F.told f.new).files (IsFreed from addr))) }
    ensures agrees { ForSome (F.told f.new).files (Agrees files.now) }

    // At each word only map, counters and updating of the file have changed, and updating is 1 until the last word, with which all of it is done; each block
    // that was there still is, with its bytes, and a well-formed folder is well formed.
    ensures stops { StopsOrEnds (F.told f.old) (F.told f.new) (FreesInProgress addr) (FreesOrStops addr) }

    // Whatever it answers, no hint has changed.
    ensures hints { LeavesFrom (F.told f.old) (F.told f.new) KeepsHints }

    ensures cause { IfDamaged result (IsCause (F.told f.old) (file_selector addr) (first_block addr) (block_count addr) false) }
    ensures unwritten { IfDamaged result (λ _. Stays (F.told f.old) (F.told f.new)) }
    ensures untold { UndamagedWhere result (F.told f.old) (λ image. CanBeFreed image addr) }
    ensures writes { MayWrite F.told F.faults f.old f.new (IfDevice result) }
{
    let blocks = blocks_of(addr);
    read_and_change(f, blocks.file, blocks.start, blocks.count, false)
}
