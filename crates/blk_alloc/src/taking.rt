// Blocks that were found are taken.
ghost use Rattle.std.specs.Prelude.{◌≡◌, ◌≢◌, ◌<◌, ◌/◌, true, IfOk, OnOk, IsTrue};
ghost use Rattle.std.specs.Option.{ForSome};
ghost use Rattle.spec_image.specs.Told.{MayWrite, LeavesFrom};
ghost use Rattle.spec_format.specs.Address as address;
ghost use Rattle.spec_format.specs.Address.{external, rankings};
ghost use Rattle.spec_format.specs.Maps.{group_size};
ghost use Rattle.blk_addr.specs.Kind.{kind_number};
ghost use Rattle.blk_io.specs.Faults.{IfDamaged, IfDevice};
ghost use Rattle.blk_disk.specs.Tables.{Agrees, stands_among};
ghost use Rattle.blk_alloc.specs.Fitting.{IsPlace, HasMapWord};
ghost use Rattle.blk_alloc.specs.Extending.{HasItsBlocks, KeepsBlockCounts, KeepsLists, KeepsStanding};
ghost use Rattle.blk_alloc.specs.Owning.{IsCause};
ghost use Rattle.blk_alloc.specs.Marking.{CanBeMarked, CountsUsed, HasHintAmong, MarksUsed, PassesToTaken};
ghost use Rattle.blk_alloc.specs.Clauses.{OkLeavesWhere, OpaqueIfDamagedWhere};

use crate::blocks::Found;
use crate::hinting::set_hint;
use crate::marking::mark;
use blk_addr::{Addr, GROUP, Kind};
use blk_disk::BlockFiles;
use blk_io::{Fault, Folder};

// Takes blocks that were found: the hint that led to them becomes the number of their group, and they are marked.
pub(crate) fn take<F: Folder>(
    folder: &mut F,
    files: &mut BlockFiles,
    kind: Kind,
    found: Found,
) -> Result<Addr, Fault>
    requires block_kind { kind_number kind ≢ external }
    requires some { 0 < found.place.count }
    requires node { kind_number kind ≡ rankings → found.place.count ≡ 1 }
    requires small { found.i < 4 }
    requires place { IsPlace files.old (kind_number kind) found.place.count found.place }
    requires read { ForSome (F.told folder.old).files (HasMapWord found.place.file found) }
    requires agrees { ForSome (F.told folder.old).files (Agrees files.old) }
    ensures word { IfOk result (λ addr. addr ≡ address.block_word (kind_number kind) found.place.file found.place.start found.place.count) }
    ensures stands { IfOk result (λ addr. IsTrue (stands_among files.new addr)) }
    ensures keeps { KeepsStanding files.old files.new }
    ensures counted { OnOk result (LeavesFrom (F.told folder.old) (F.told folder.new) (CountsUsed found.place.file found.place.start)) }
    ensures hint { OnOk result (LeavesFrom (F.told folder.old) (F.told folder.new) (HasHintAmong found.place.file found.i (found.place.start / group_size))) }
    ensures used { OkLeavesWhere result (F.told folder.old) (F.told folder.new) (λ from. CanBeMarked from found.place) (MarksUsed files.old) }
    ensures agrees { ForSome (F.told folder.new).files (Agrees files.new) }
    ensures links { OnOk result (KeepsLists files.old files.new) }
    ensures blocks { OnOk result (KeepsBlockCounts files.old files.new) }
    ensures long { OnOk result (HasItsBlocks files.new found.place.file) }

    // At each word only the length, the hint, the map and the counters of the file have changed, it is no shorter, and updating is 1 until the map and the
    // counters are done.
    ensures stops { PassesToTaken (F.told folder.old) (F.told folder.new) files.old (kind_number kind) found }
    ensures writes { MayWrite F.told F.faults folder.old folder.new (IfDevice result) }
    ensures place { IsPlace files.new (kind_number kind) found.place.count found.place }
    ensures cause { IfDamaged result (IsCause (F.told folder.new) found.place.file found.place.start found.place.count true) }
    ensures untold { OpaqueIfDamagedWhere result (F.told folder.old) (λ image. CanBeMarked image found.place) }
{
    set_hint(folder, found.place.file, found.i, found.place.start / GROUP)?;
    mark(folder, files, kind, found.place, found.word)
}
