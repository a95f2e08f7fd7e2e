// Blocks of a file are marked as used.
ghost use Rattle.std.specs.Prelude.{◌≡◌, ◌≢◌, ◌<◌, ◌/◌, true, IfOk, OnOk, IsTrue};
ghost use Rattle.std.specs.Option.{ForSome};
ghost use Rattle.spec_image.specs.Told.{MayWrite, LeavesFrom};
ghost use Rattle.spec_format.specs.Address as address;
ghost use Rattle.spec_format.specs.Address.{external, rankings};
ghost use Rattle.blk_addr.specs.Kind.{kind_number};
ghost use Rattle.blk_io.specs.Faults.{IfDamaged, IfDevice};
ghost use Rattle.blk_disk.specs.Tables.{Agrees, stands_among};
ghost use Rattle.blk_alloc.specs.Fitting.{IsMapWord, IsPlace};
ghost use Rattle.blk_alloc.specs.Extending.{HasItsBlocks, KeepsBlockCounts, KeepsLists, KeepsStanding};
ghost use Rattle.blk_alloc.specs.Owning.{IsCause};
ghost use Rattle.blk_alloc.specs.Marking.{CountsUsed, CanBeMarked, KeepsHints, MarksUsed, PassesToMarked};
ghost use Rattle.blk_alloc.specs.Clauses.{OkLeavesWhere, OpaqueIfDamagedWhere};

use crate::blocks::Blocks;
use crate::change::change;
use blk_addr::{Addr, Kind};
use blk_disk::BlockFiles;
use blk_io::{Fault, Folder};

// Marks blocks of a file as used: lengthens the file to all its blocks, where it is shorter, and marks them, where
// the word of the map that has them was read.
pub(crate) fn mark<F: Folder>(
    folder: &mut F,
    files: &mut BlockFiles,
    kind: Kind,
    place: Blocks,
    word: u32,
) -> Result<Addr, Fault>
    requires block_kind { kind_number kind ≢ external }
    requires some { 0 < place.count }
    requires node { kind_number kind ≡ rankings → place.count ≡ 1 }
    requires place { IsPlace files.old (kind_number kind) place.count place }
    requires agrees { ForSome (F.told folder.old).files (Agrees files.old) }
    requires read { ForSome (F.told folder.old).files (λ image. IsMapWord image place.file (place.start / 32) word) }
    ensures word { IfOk result (λ addr. addr ≡ address.block_word (kind_number kind) place.file place.start place.count) }
    ensures stands { IfOk result (λ addr. IsTrue (stands_among files.new addr)) }
    ensures keeps { KeepsStanding files.old files.new }
    ensures counted { OnOk result (LeavesFrom (F.told folder.old) (F.told folder.new) (CountsUsed place.file place.start)) }
    ensures hints { OnOk result (LeavesFrom (F.told folder.old) (F.told folder.new) KeepsHints) }
    ensures used { OkLeavesWhere result (F.told folder.old) (F.told folder.new) (λ from. CanBeMarked from place) (MarksUsed files.old) }
    ensures agrees { ForSome (F.told folder.new).files (Agrees files.new) }
    ensures links { OnOk result (KeepsLists files.old files.new) }
    ensures blocks { OnOk result (KeepsBlockCounts files.old files.new) }
    ensures long { OnOk result (HasItsBlocks files.new place.file) }

    // At each word only the length, the map and the counters of the file have changed, it is no shorter, and updating is 1 until the map and the counters are
    // done.
    ensures stops { PassesToMarked (F.told folder.old) (F.told folder.new) files.old (kind_number kind) place }
    ensures writes { MayWrite F.told F.faults folder.old folder.new (IfDevice result) }
    ensures place { IsPlace files.new (kind_number kind) place.count place }
    ensures cause { IfDamaged result (IsCause (F.told folder.new) place.file place.start place.count true) }
    ensures untold { OpaqueIfDamagedWhere result (F.told folder.old) (λ image. CanBeMarked image place) }
{
    files.fit(folder, place.file)?;
    let addr = Addr::of_blocks(kind, place.file, place.start, place.count);
    change(folder, place.file, place.start, place.count, true, word)?;
    Ok(addr)
}
