// Files are extended or added, to get space for blocks.
ghost use Rattle.std.specs.Prelude.{◌≡◌, ◌≢◌, ◌*◌, ◌/◌, ◌≤◌, ◌<◌, [], length, IfOk, OnOk, OnErr, IsTrue};
ghost use Rattle.std.specs.Option.{ForSome};
ghost use Rattle.spec_image.specs.Told.{MayWrite, LeavesFrom, LeavesWhere, StopsFrom};
ghost use Rattle.spec_format.specs.BlockFiles.{is_among, most_blocks, most_files};
ghost use Rattle.spec_format.specs.Address.{external};
ghost use Rattle.spec_format.specs.Growth.{StaysWholeOutside};
ghost use Rattle.blk_addr.specs.Kind.{kind_number};
ghost use Rattle.spec_format.specs.Maps.{group_size, AreAllocations, EmptyAgrees};
ghost use Rattle.blk_disk.specs.Tables.{Agrees, blocks_of, files_of};
ghost use Rattle.blk_disk.specs.Growth.{IsLeastFileNumber, free_number, grown, growth_of, raised};
ghost use Rattle.blk_alloc.specs.Fitting.{IsPlace};
ghost use Rattle.blk_alloc.specs.Extending.{HasCounters, HasNoHints, IsGrowing, KeepsAll, KeepsFiles, KeepsHintsOf, KeepsLinks, KeepsLists, KeepsMarks, KeepsStanding, CountsFreeGroups, RaisesFreeGroups, new_room_of};
ghost use Rattle.blk_alloc.specs.Marking.{CanBeMarked, KeepsHints};
ghost use Rattle.blk_alloc.specs.Clauses.{OkLeaves, OkLeavesWhere};

use crate::blocks::Blocks;
use crate::fitting::blocks_in;
use blk_addr::{GROUP, Kind};
use blk_disk::BlockFiles;
use blk_io::{Failed, Folder};
use blk_record::BlockHead;

// Extends a file, and gives the first of its new blocks.
pub(crate) fn grow_room<F: Folder>(
    folder: &mut F,
    files: &mut BlockFiles,
    kind: Kind,
    file: u8,
    count: u32,
) -> Result<Blocks, Failed>
    requires few { count ≤ group_size }
    requires block_kind { kind_number kind ≢ external }
    requires linked { IsTrue (is_among (files_of files.old (kind_number kind)) file) }
    requires below { blocks_of files.old file < most_blocks }
    requires agrees { ForSome (F.told folder.old).files (Agrees files.old) }
    ensures place { IfOk result (λ place. (place.file ≡ file) × (place.start ≡ blocks_of files.old file / 4 * 4) × (place.count ≡ count)) }
    ensures fits { IfOk result (IsPlace files.new (kind_number kind) count) }
    ensures all { OnOk result (KeepsAll files.old files.new) }
    ensures links { OnOk result (KeepsLists files.old files.new) }
    ensures standing { KeepsStanding files.old files.new }
    ensures marks { OnOk result (LeavesFrom (F.told folder.old) (F.told folder.new) (KeepsMarks files.old)) }
    ensures markable { OkLeavesWhere result (F.told folder.old) (F.told folder.new) (λ from. HasCounters from file) (λ _ place image. CanBeMarked image place) }
    ensures raised { OnOk result (LeavesFrom (F.told folder.old) (F.told folder.new) (RaisesFreeGroups files.old file)) }
    ensures blocks { OnOk result (blocks_of files.new file ≡ grown (blocks_of files.old file)) }
    ensures hints { OnOk result (LeavesFrom (F.told folder.old) (F.told folder.new) KeepsHints) }
    ensures keeps { OnOk result (LeavesWhere (F.told folder.old) (F.told folder.new) (λ from. HasCounters from file) (KeepsFiles files.old)) }
    ensures agrees { OnOk result (ForSome (F.told folder.new).files (Agrees files.new)) }
    ensures same { OnErr result (files.new ≡ files.old) }
    ensures stops { StopsFrom (F.told folder.old) (F.told folder.new) (StaysWholeOutside (growth_of file)) }
    ensures writes { MayWrite F.told F.faults folder.old folder.new (OnErr result) }
{
    let groups = blocks_in(files, file) / GROUP;
    files.grow(folder, file)?;
    let start = groups * GROUP;
    Ok(Blocks { file, start, count })
}

// Adds a file of a kind, extends it, and gives its first blocks.
pub(crate) fn add_room<F: Folder>(
    folder: &mut F,
    files: &mut BlockFiles,
    kind: Kind,
    count: u32,
) -> Result<Blocks, Failed>
    requires few { count ≤ group_size }
    requires block_kind { kind_number kind ≢ external }
    requires room { length (files_of files.old (kind_number kind)) < most_files }
    requires agrees { ForSome (F.told folder.old).files (Agrees files.old) }
    ensures place { IfOk result (λ place. (place.file ≡ free_number files.old) × (place.start ≡ 0) × (place.count ≡ count)) }
    ensures fits { IfOk result (IsPlace files.new (kind_number kind) count) }
    ensures all { OnOk result (KeepsAll files.old files.new) }
    ensures links { OnOk result (KeepsLinks files.old files.new (free_number files.old)) }
    ensures standing { KeepsStanding files.old files.new }
    ensures marks { OnOk result (LeavesFrom (F.told folder.old) (F.told folder.new) (KeepsMarks files.old)) }
    ensures fresh { OnOk result (LeavesFrom (F.told folder.old) (F.told folder.new) (λ from image. AreAllocations image (free_number files.old) [])) }
    ensures raised { OnOk result (LeavesFrom (F.told folder.old) (F.told folder.new) (λ from. CountsFreeGroups (free_number files.old) 256)) }
    ensures blocks { OnOk result (blocks_of files.new (free_number files.old) ≡ 1024) }
    ensures kept_hints { OnOk result (LeavesFrom (F.told folder.old) (F.told folder.new) (KeepsHintsOf files.old)) }
    ensures empty { OnOk result (LeavesFrom (F.told folder.old) (F.told folder.new) (λ from image. EmptyAgrees image (free_number files.old))) }
    ensures hints { OnOk result (LeavesFrom (F.told folder.old) (F.told folder.new) (λ from image. HasNoHints image (free_number files.old))) }
    ensures least { OnOk result (IsLeastFileNumber files.old (free_number files.old)) }
    ensures markable { OkLeaves result (F.told folder.old) (F.told folder.new) (λ _ place image. CanBeMarked image place) }
    ensures keeps { OnOk result (LeavesFrom (F.told folder.old) (F.told folder.new) (KeepsFiles files.old)) }
    ensures agrees { OnOk result (ForSome (F.told folder.new).files (Agrees files.new)) }
    ensures stops { StopsFrom (F.told folder.old) (F.told folder.new) (StaysWholeOutside (new_room_of files.old (kind_number kind))) }
    ensures writes { MayWrite F.told F.faults folder.old folder.new (OnErr result) }
{
    let file = files.add_file(folder, kind)?;
    let place = grow_room(folder, files, kind, file, count)?;
    Ok(place)
}

// The first file of a kind that has fewer than 64896 blocks.
pub(crate) fn growing_file(files: &BlockFiles, kind: Kind) -> Option<u8>
    requires { kind_number kind ≢ external }
    ensures { IsGrowing files.now (files_of files.now (kind_number kind)) result }
{
    for i in 0..files.count(kind) {
        let Some(file) = files.file_at(kind, i) else {
            unreachable!();
        };
        if blocks_in(files, file) < BlockHead::MOST_BLOCKS {
            return Some(file);
        }
    }
    None
}
