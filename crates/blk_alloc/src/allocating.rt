// Blocks are allocated.
ghost use Rattle.std.specs.Prelude.{◌≡◌, ◌≢◌, ◌≤◌, ◌<◌, ◌+◌, ◌-◌, ◌/◌, ◌%◌, None, IfOk, OnOk, IsTrue, length};
ghost use Rattle.std.specs.List.{All};
ghost use Rattle.std.specs.Option.{ForSome};
ghost use Rattle.spec_image.specs.Told.{Stays, MayWrite, ReadsOnly, LeavesFrom, StopsFrom};
ghost use Rattle.spec_format.specs.Address.{block_count, external, file_selector, is_address, kind_of, rankings};
ghost use Rattle.spec_format.specs.BlockFiles.{most_files};
ghost use Rattle.spec_format.specs.Maps.{group_size};
ghost use Rattle.blk_addr.specs.Kind.{kind_number};
ghost use Rattle.blk_io.specs.Faults.{IfDamaged, IfDevice, OkFor, UndamagedWhere};
ghost use Rattle.blk_disk.specs.Tables.{Agrees, files_of, stands_among};
ghost use Rattle.blk_disk.specs.Growth.{grown};
ghost use Rattle.blk_alloc.specs.Fitting.{IsPlace};
ghost use Rattle.blk_alloc.specs.Extending.{HasItsBlocks, HasMostBlocks, KeepsAll, KeepsHintsOf, KeepsLinks, KeepsMarks, KeepsStanding};
ghost use Rattle.blk_alloc.specs.Allocating.{AreCounted, HaveNoRoom, IsChosen, IsCountedOnce, IsKindFull, LiesAtHint, SetsHint, Allocates, Extends, IsRefusal, MakesRoomInProgress, AllocatesInNew, AllocatesWithin, CountsItsRoom, ExtendsOnly, IsExtendedIfThere, IsFreshIfAdded, IsFullKind, IsNewRoom, KeepsItsCount, OkLeavesCounted, PassesToAllocated, PassesToAllocatedNew, most_map_words};
ghost use Rattle.blk_alloc.specs.Clauses.{OkLeaves, OkLeavesWhere};

use crate::blocks::Blocks;
use crate::extending::{add_room, grow_room, growing_file};
use crate::fitting::{blocks_in, find, find_by_hint};
use crate::taking::take;
use blk_addr::{Addr, GROUP, Kind};
use blk_disk::{BlockFiles, Steps};
use blk_io::{Damage, Fault, FileId, Folder, read_word};
use blk_record::BlockHead;
use std::marker::Brand;
use std::sync::ledger::{Blank, Ledger};

// The most files of one kind.
const MOST_FILES: u8 = blk_disk::MOST_FILES as u8;

// The hint by which groups are sought of which all four blocks are free.
const WHOLE_GROUP: u32 = 3;

// The last word of a map.
const LAST_PLACE: u64 = BlockHead::HEADER_LEN - 4;

// The failed check where a kind has 60 files and none may be extended.
fn full_damage<F: Folder>(folder: &mut F, files: &BlockFiles, kind: Kind) -> Result<Damage, Fault>
    requires block_kind { kind_number kind ≢ external }
    requires number { most_files ≤ length (files_of files.now (kind_number kind)) }
    requires full { All (HasMostBlocks files.now) (files_of files.now (kind_number kind)) }
    ensures full { IfOk result (IsKindFull files.now (kind_number kind) (F.told folder.old)) }
    ensures cause { ForSome (F.told folder.old).files (Agrees files.now) → IfDamaged result (IsKindFull files.now (kind_number kind) (F.told folder.old)) }
    ensures reads { ReadsOnly F.told F.faults folder.old folder.new (IfDevice result) }
{
    let Some(last) = files.file_at(kind, MOST_FILES - 1) else {
        unreachable!();
    };
    let file = FileId::Block(last);
    let found = read_word(folder, file, LAST_PLACE)?;
    Ok(Damage {
        file,
        at: LAST_PLACE,
        found,
    })
}

// Makes space for blocks where no file of a kind has any: the first file that may be extended is, and where there is none a file is added.
fn new_room<F: Folder>(
    folder: &mut F,
    files: &mut BlockFiles,
    kind: Kind,
    count: u32,
) -> Result<Blocks, Fault>
    requires few { count ≤ group_size }
    requires block_kind { kind_number kind ≢ external }
    requires agrees { ForSome (F.told folder.old).files (Agrees files.old) }
    requires full { ForSome (F.told folder.old).files (HaveNoRoom files.old (kind_number kind) count) }
    ensures fits { IfOk result (IsPlace files.new (kind_number kind) count) }
    ensures place { OkFor result (F.told folder.old) (λ place _. IsNewRoom files.old (kind_number kind) place) }
    ensures made { OkLeavesWhere result (F.told folder.old) (F.told folder.new) (AreCounted files.old (kind_number kind)) (Extends files.old) }
    ensures within { OkLeaves result (F.told folder.old) (F.told folder.new) (ExtendsOnly files.old (kind_number kind)) }
    ensures counts { OkLeaves result (F.told folder.old) (F.told folder.new) (KeepsItsCount files.old) }
    ensures raised { OkLeaves result (F.told folder.old) (F.told folder.new) (λ from. CountsItsRoom files.new) }
    ensures whole { IfOk result (λ place. place.start % 4 ≡ 0) }
    ensures grown { IfOk result (IsExtendedIfThere files.old files.new) }
    ensures fresh { OkLeaves result (F.told folder.old) (F.told folder.new) (λ from. IsFreshIfAdded files.old) }
    ensures marks { OnOk result (LeavesFrom (F.told folder.old) (F.told folder.new) (KeepsMarks files.old)) }
    ensures hints { OnOk result (LeavesFrom (F.told folder.old) (F.told folder.new) (KeepsHintsOf files.old)) }
    ensures all { OnOk result (KeepsAll files.old files.new) }
    ensures links { IfOk result (λ place. KeepsLinks files.old files.new place.file) }
    ensures standing { KeepsStanding files.old files.new }
    ensures agrees { OnOk result (ForSome (F.told folder.new).files (Agrees files.new)) }
    ensures stops { StopsFrom (F.told folder.old) (F.told folder.new) (MakesRoomInProgress files.old (kind_number kind)) }
    ensures writes { MayWrite F.told F.faults folder.old folder.new (IfDevice result) }
    ensures cause { IfDamaged result (IsKindFull files.old (kind_number kind) (F.told folder.old)) }
    ensures sixty { IfDamaged result (λ _. IsFullKind files.old (kind_number kind)) }
    ensures unwritten { IfDamaged result (λ _. Stays (F.told folder.old) (F.told folder.new)) }
{
    if let Some(file) = growing_file(files, kind) {
        let place = grow_room(folder, files, kind, file, count)?;
        return Ok(place);
    }
    if files.count(kind) >= MOST_FILES {
        let damage = full_damage(folder, files, kind)?;
        return Err(Fault::Damaged(damage));
    }
    let place = add_room(folder, files, kind, count)?;
    Ok(place)
}

// Allocates blocks where no file of a kind has space for them: in one that is extended or added.
fn allocate_new<F: Folder, L: Ledger>(
    folder: &mut F,
    files: &mut BlockFiles,
    kind: Kind,
    count: u32,
    steps: &mut Steps<L>,
) -> Result<Addr, Fault>
    requires some { 0 < count }
    requires few { count ≤ group_size }
    requires block_kind { kind_number kind ≢ external }
    requires node { kind_number kind ≡ rankings → count ≡ 1 }
    requires agrees { ForSome (F.told folder.old).files (Agrees files.old) }
    requires full { ForSome (F.told folder.old).files (HaveNoRoom files.old (kind_number kind) count) }
    ensures chosen { OkFor result (F.told folder.old) (λ addr from. IsChosen files.old from (kind_number kind) count addr) }
    ensures hints { OkLeaves result (F.told folder.old) (F.told folder.new) (SetsHint files.old (kind_number kind) count) }
    ensures most { IfOk result (λ addr. steps.new ≤ steps.old + most_map_words files.new (file_selector addr)) }
    ensures once { OkFor result (F.told folder.old) (λ w from. LiesAtHint files.old files.new (kind_number kind) count from w → steps.new ≡ steps.old + 1) }
    ensures kind { IfOk result (λ addr. (kind_of addr ≡ kind_number kind) × (block_count addr ≡ count)) }
    ensures address { IfOk result (λ addr. IsTrue (is_address addr)) }
    ensures stands { IfOk result (λ addr. IsTrue (stands_among files.new addr)) }
    ensures keeps { KeepsStanding files.old files.new }
    ensures links { IfOk result (λ addr. KeepsLinks files.old files.new (file_selector addr)) }
    ensures long { IfOk result (λ addr. HasItsBlocks files.new (file_selector addr)) }
    ensures counted { OkLeaves result (F.told folder.old) (F.told folder.new) (IsCountedOnce files.old) }
    ensures allocates { OkLeavesCounted result (F.told folder.old) (F.told folder.new) files.old (kind_number kind) AllocatesInNew }
    ensures agrees { OnOk result (ForSome (F.told folder.new).files (Agrees files.new)) }
    ensures stops { PassesToAllocatedNew (F.told folder.old) (F.told folder.new) files.old (kind_number kind) count }
    ensures writes { MayWrite F.told F.faults folder.old folder.new (IfDevice result) }
    ensures cause { IfDamaged result (IsRefusal files.old files.new (kind_number kind) count (F.told folder.old) (F.told folder.new)) }
    ensures untold { UndamagedWhere result (F.told folder.old) (AreCounted files.old (kind_number kind)) }
{
    let room = new_room(folder, files, kind, count)?;
    let groups = (blocks_in(files, room.file) - room.start) / GROUP;
    let found = find_by_hint(folder, files, kind, room, WHOLE_GROUP, groups, steps)?;
    take(folder, files, kind, found)
}

/// Allocates 1 to 4 free blocks of a block kind, or 1 of `Rankings`: they are marked as used. The words of maps that are read are counted.
///
/// They lie inside one group of four. The files of the kind are tried in the order of their links. By its counters a file has space where some group has a
/// longest free run of as many blocks or more. The shortest such run is sought, from the group at its hint on and round to the start; the first group that has
/// it gives its least place, and the hint becomes its number. Where no file has space, the first file with fewer than 64896 blocks grows, and where there is
/// none, a file is added and grows; then it is searched in this way.
///
/// A failed check is a read of a file's header that gave too few bytes, a counter that would leave its range or that
/// counts a group which one round of the map doesn't have, or 60 full files of the kind; then it finds the last word of
/// the last map. Where the files of the kind have counters that agree with their maps, and at most 655362 allocations, only an
/// opaque folder gives one of these.
pub fn allocate_counted<F: Folder, L: Ledger>(
    f: &mut F,
    files: &mut BlockFiles,
    kind: Kind,
    blocks: u32,
    steps: &mut Steps<L>,
) -> Result<Addr, Fault>
    requires some { 0 < blocks }
    requires few { blocks ≤ group_size }
    requires block_kind { kind_number kind ≢ external }
    requires node { kind_number kind ≡ rankings → blocks ≡ 1 }
    requires agrees { ForSome (F.told f.old).files (Agrees files.old) }

    // The blocks are of the kind, as many as asked for, and valid; their file has all its blocks.
    ensures kind { IfOk result (λ addr. (kind_of addr ≡ kind_number kind) × (block_count addr ≡ blocks)) }
    ensures address { IfOk result (λ addr. IsTrue (is_address addr)) }
    ensures stands { IfOk result (λ addr. IsTrue (stands_among files.new addr)) }
    ensures long { IfOk result (λ addr. HasItsBlocks files.new (file_selector addr)) }

    // What was valid still is, and the other files are linked as before.
    ensures keeps { KeepsStanding files.old files.new }
    ensures links { IfOk result (λ addr. KeepsLinks files.old files.new (file_selector addr)) }

    // The blocks to which counters and hints lead, in the first file with space, or where no file of the kind has space, in one that grows, or in a new one
    // only where none may grow.
    ensures chosen { OkFor result (F.told f.old) (λ addr from. IsChosen files.old from (kind_number kind) blocks addr) }
    ensures hints { OkLeaves result (F.told f.old) (F.told f.new) (SetsHint files.old (kind_number kind) blocks) }
    ensures counted { OkLeaves result (F.told f.old) (F.told f.new) (IsCountedOnce files.old) }
    ensures allocates { OkLeavesWhere result (F.told f.old) (F.told f.new) (AreCounted files.old (kind_number kind)) (Allocates files.old) }
    ensures within { OkLeavesCounted result (F.told f.old) (F.told f.new) files.old (kind_number kind) AllocatesWithin }
    ensures agrees { OnOk result (ForSome (F.told f.new).files (Agrees files.new)) }

    // At each word only one file of the kind differs, in its length, map, counters and hints, and where it grows or is added in what these touch; updating is 1
    // until the last word, with which the allocation is done; files have grown at most, and a well-formed folder is well formed.
    ensures stops { PassesToAllocated (F.told f.old) (F.told f.new) files.old (kind_number kind) blocks }

    // At most each word of the map of the file that gives the blocks is read, and one of them again; and exactly one where the group at the hint is taken. Of a
    // file without space none is read.
    ensures most { IfOk result (λ addr. steps.new ≤ steps.old + most_map_words files.new (file_selector addr)) }
    ensures once { OkFor result (F.told f.old) (λ w from. LiesAtHint files.old files.new (kind_number kind) blocks from w → steps.new ≡ steps.old + 1) }

    // Nothing is written where a check of the counters or hints of an existing file fails, or where all files are full.
    ensures cause { IfDamaged result (IsRefusal files.old files.new (kind_number kind) blocks (F.told f.old) (F.told f.new)) }
    ensures untold { UndamagedWhere result (F.told f.old) (AreCounted files.old (kind_number kind)) }
    ensures writes { MayWrite F.told F.faults f.old f.new (IfDevice result) }
{
    match find(f, files, kind, blocks, steps)? {
        Some(found) => take(f, files, kind, found),
        None => allocate_new(f, files, kind, blocks, steps),
    }
}

// Allocates blocks as `allocate_counted` does, with a counter of map words of its own.
fn allocate_from<F: Folder, L: Ledger>(
    folder: &mut F,
    files: &mut BlockFiles,
    kind: Kind,
    blocks: u32,
    blank: Blank,
) -> Result<Addr, Fault>
    requires name { blank.name ≡ L.name }
    requires parts { blank.parts ≡ L.parts }
    requires one { 0 < blank.parts }
    requires some { 0 < blocks }
    requires few { blocks ≤ group_size }
    requires block_kind { kind_number kind ≢ external }
    requires node { kind_number kind ≡ rankings → blocks ≡ 1 }
    requires agrees { ForSome (F.told folder.old).files (Agrees files.old) }

    // The blocks are of the kind, as many as asked for, and valid; their file has all its blocks.
    ensures kind { IfOk result (λ addr. (kind_of addr ≡ kind_number kind) × (block_count addr ≡ blocks)) }
    ensures address { IfOk result (λ addr. IsTrue (is_address addr)) }
    ensures stands { IfOk result (λ addr. IsTrue (stands_among files.new addr)) }
    ensures long { IfOk result (λ addr. HasItsBlocks files.new (file_selector addr)) }

    // What was valid still is, and the other files are linked as before.
    ensures keeps { KeepsStanding files.old files.new }
    ensures links { IfOk result (λ addr. KeepsLinks files.old files.new (file_selector addr)) }

    // The blocks to which counters and hints lead, in the first file with space, or where no file of the kind has space, in one that grows, or in a new one
    // only where none may grow.
    ensures chosen { OkFor result (F.told folder.old) (λ addr from. IsChosen files.old from (kind_number kind) blocks addr) }
    ensures hints { OkLeaves result (F.told folder.old) (F.told folder.new) (SetsHint files.old (kind_number kind) blocks) }
    ensures counted { OkLeaves result (F.told folder.old) (F.told folder.new) (IsCountedOnce files.old) }
    ensures allocates { OkLeavesWhere result (F.told folder.old) (F.told folder.new) (AreCounted files.old (kind_number kind)) (Allocates files.old) }
    ensures within { OkLeavesCounted result (F.told folder.old) (F.told folder.new) files.old (kind_number kind) AllocatesWithin }
    ensures agrees { OnOk result (ForSome (F.told folder.new).files (Agrees files.new)) }

    // At each word only one file of the kind differs, in its length, map, counters and hints, and where it grows or is added in what these touch; updating is 1
    // until the last word, with which the allocation is done; files have grown at most, and a well-formed folder is well formed.
    ensures stops { PassesToAllocated (F.told folder.old) (F.told folder.new) files.old (kind_number kind) blocks }

    // Nothing is written where a check of the counters or hints of an existing file fails, or where all files are full.
    ensures cause { IfDamaged result (IsRefusal files.old files.new (kind_number kind) blocks (F.told folder.old) (F.told folder.new)) }
    ensures untold { UndamagedWhere result (F.told folder.old) (AreCounted files.old (kind_number kind)) }
    ensures writes { MayWrite F.told F.faults folder.old folder.new (IfDevice result) }
{
    let mut steps = Steps::<L>::start(blank);
    allocate_counted(folder, files, kind, blocks, &mut steps)
}

/// Allocates blocks as `allocate_counted` does, which does the work, without the count of map words.
pub fn allocate<F: Folder>(
    f: &mut F,
    files: &mut BlockFiles,
    kind: Kind,
    blocks: u32,
) -> Result<Addr, Fault>
    requires some { 0 < blocks }
    requires few { blocks ≤ group_size }
    requires block_kind { kind_number kind ≢ external }
    requires node { kind_number kind ≡ rankings → blocks ≡ 1 }
    requires agrees { ForSome (F.told f.old).files (Agrees files.old) }

    // The blocks are of the kind, as many as asked for, and valid; their file has all its blocks.
    ensures kind { IfOk result (λ addr. (kind_of addr ≡ kind_number kind) × (block_count addr ≡ blocks)) }
    ensures address { IfOk result (λ addr. IsTrue (is_address addr)) }
    ensures stands { IfOk result (λ addr. IsTrue (stands_among files.new addr)) }
    ensures long { IfOk result (λ addr. HasItsBlocks files.new (file_selector addr)) }

    // What was valid still is, and the other files are linked as before.
    ensures keeps { KeepsStanding files.old files.new }
    ensures links { IfOk result (λ addr. KeepsLinks files.old files.new (file_selector addr)) }

    // The blocks to which counters and hints lead, in the first file with space, or where no file of the kind has space, in one that grows, or in a new one
    // only where none may grow.
    ensures chosen { OkFor result (F.told f.old) (λ addr from. IsChosen files.old from (kind_number kind) blocks addr) }
    ensures hints { OkLeaves result (F.told f.old) (F.told f.new) (SetsHint files.old (kind_number kind) blocks) }
    ensures counted { OkLeaves result (F.told f.old) (F.told f.new) (IsCountedOnce files.old) }
    ensures allocates { OkLeavesWhere result (F.told f.old) (F.told f.new) (AreCounted files.old (kind_number kind)) (Allocates files.old) }
    ensures within { OkLeavesCounted result (F.told f.old) (F.told f.new) files.old (kind_number kind) AllocatesWithin }
    ensures agrees { OnOk result (ForSome (F.told f.new).files (Agrees files.new)) }

    // At each word only one file of the kind differs, in its length, map, counters and hints, and where it grows or is added in what these touch; updating is 1
    // until the last word, with which the allocation is done; files have grown at most, and a well-formed folder is well formed.
    ensures stops { PassesToAllocated (F.told f.old) (F.told f.new) files.old (kind_number kind) blocks }

    // Nothing is written where a check of the counters or hints of an existing file fails, or where all files are full.
    ensures cause { IfDamaged result (IsRefusal files.old files.new (kind_number kind) blocks (F.told f.old) (F.told f.new)) }
    ensures untold { UndamagedWhere result (F.told f.old) (AreCounted files.old (kind_number kind)) }
    ensures writes { MayWrite F.told F.faults f.old f.new (IfDevice result) }
{
    allocate_from::<F, Brand>(f, files, kind, blocks, Blank::new(1))
}
