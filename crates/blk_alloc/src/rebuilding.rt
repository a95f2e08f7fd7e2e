// Maps and counters are rebuilt from the used blocks.
ghost use Rattle.std.specs.Prelude.{◌≡◌, ℕ, ◌+◌, ◌/◌, ◌<◌, ◌≤◌, [], ◌∷◌, true, max, length, OnOk, OnErr, IsTrue};
ghost use Rattle.std.specs.Option.{ForSome};
ghost use Rattle.spec_image.specs.Image.{Block as block, length_of};
ghost use Rattle.spec_image.specs.Told.{Stays, MayWrite, LeavesFrom};
ghost use Rattle.spec_format.specs.Address.{header_size};
ghost use Rattle.spec_format.specs.BlockFiles.{is_among};
ghost use Rattle.spec_format.specs.Headers.{block_fields_length};
ghost use Rattle.blk_io.specs.Faults.{IfDamaged, IfDevice, OpaqueIfDamaged};
ghost use Rattle.blk_disk.specs.Growth.{whole_length};
ghost use Rattle.blk_disk.specs.Tables.{Agrees, Resizes, all_files, files_of, length_in};
ghost use Rattle.blk_alloc.specs.Changes.{map_length};
ghost use Rattle.blk_alloc.specs.Extending.{KeepsStanding};
ghost use Rattle.blk_alloc.specs.Mending.{KeepsLength};
ghost use Rattle.blk_alloc.specs.Rebuilding.{AreFitted, AreItsAllocations, AreRight, IsMending, IsMendingToEnd, IsRebuilding, IsRebuilt, IsShortRead, IsShortReadOf, RemakesInProgress};
ghost use Rattle.blk_alloc.specs.Clauses.{EndsMarked, EndsRebuilt, OnlyNeeded, StaysIfRebuilt, StopsNeeded, WhereCounts, WhereGroups, WhereHeader, WhereItsBlocks, WhereUpdating};

use crate::claimed::{count_runs, mark_claimed};
use crate::comparing::is_right;
use crate::fitting::blocks_in;
use crate::layout::{MAP_LEN, UPDATING};
use crate::mending::{mend, mend_counters, mend_word};
use blk_addr::{BLOCK_FILES, Claims, GROUP};
use blk_disk::BlockFiles;
use blk_io::{Failed, Fault, FileId, Folder, read_exact};
use blk_record::BlockHead;

// Makes the map and the counters of a file those of the used blocks: of the map and the fields that were read, the
// words that differ are written.
fn mend_counts<F: Folder>(
    folder: &mut F,
    claims: &Claims,
    file: u8,
    groups: u32,
    map: &[u8],
    fields: &[u8],
) -> Result<(), Failed>
    requires few { groups ≤ 16224 }
    requires long_map { length map.now ≡ map_length }
    requires long_fields { length fields.now ≡ block_fields_length }
    requires header { ForSome (F.told folder.old).files (λ image. header_size ≤ length_of image (block file)) }
    ensures done { OnOk result (WhereCounts (F.told folder.old) (F.told folder.new) file groups map.now fields.now (EndsMarked claims.now file)) }
    ensures stops { WhereCounts (F.told folder.old) (F.told folder.new) file groups map.now fields.now (OnlyNeeded (IsMending claims.now file)) }
    ensures long { LeavesFrom (F.told folder.old) (F.told folder.new) (KeepsLength (block file)) }
    ensures writes { MayWrite F.told F.faults folder.old folder.new (OnErr result) }
{
    let mut bytes = [0u8; MAP_LEN];
    mark_claimed(claims, file, &mut bytes);
    let mut empty = [0u32; 4];
    count_runs(&bytes, groups, &mut empty);
    mend(folder, file, BlockHead::MAP, map, &bytes)?;
    mend_counters(folder, file, fields, claims.allocations(file), &empty)
}

// Makes the map and the counters of a file those of the used blocks, and then `updating` 0.
fn mend_marks<F: Folder>(
    folder: &mut F,
    claims: &Claims,
    file: u8,
    groups: u32,
    map: &[u8],
    fields: &[u8],
) -> Result<(), Failed>
    requires few { groups ≤ 16224 }
    requires long_map { length map.now ≡ map_length }
    requires long_fields { length fields.now ≡ block_fields_length }
    requires header { ForSome (F.told folder.old).files (λ image. header_size ≤ length_of image (block file)) }
    ensures done { OnOk result (WhereUpdating (F.told folder.old) (F.told folder.new) file groups map.now fields.now (EndsRebuilt claims.now file)) }
    ensures stops { WhereUpdating (F.told folder.old) (F.told folder.new) file groups map.now fields.now (OnlyNeeded (IsMendingToEnd claims.now file)) }
    ensures writes { MayWrite F.told F.faults folder.old folder.new (OnErr result) }
{
    mend_counts(folder, claims, file, groups, map, fields)?;
    mend_word(
        folder,
        file,
        BlockHead::UPDATING,
        &1u32.to_le_bytes(),
        &0u32.to_le_bytes(),
    )
}

// Makes the map and the counters of a file, as they were read, those of the used blocks, and updating 0. Where they are
// already, only updating is written, and otherwise it is 1 until they are.
fn mend_file<F: Folder>(
    folder: &mut F,
    claims: &Claims,
    file: u8,
    groups: u32,
    map: &[u8],
    fields: &[u8],
) -> Result<(), Failed>
    requires few { groups ≤ 16224 }
    requires long_map { length map.now ≡ map_length }
    requires long_fields { length fields.now ≡ block_fields_length }
    requires header { ForSome (F.told folder.old).files (λ image. header_size ≤ length_of image (block file)) }
    ensures done { OnOk result (WhereHeader (F.told folder.old) (F.told folder.new) file groups map.now fields.now (EndsRebuilt claims.now file)) }
    ensures stops { WhereHeader (F.told folder.old) (F.told folder.new) file groups map.now fields.now (OnlyNeeded (RemakesInProgress claims.now file)) }
    ensures clean { WhereHeader (F.told folder.old) (F.told folder.new) file groups map.now fields.now (StaysIfRebuilt claims.now file) }
    ensures writes { MayWrite F.told F.faults folder.old folder.new (OnErr result) }
{
    let updating = &fields[UPDATING..UPDATING + 4];
    if is_right(claims, file, groups, map, fields) {
        return mend_word(
            folder,
            file,
            BlockHead::UPDATING,
            updating,
            &0u32.to_le_bytes(),
        );
    }
    mend_word(
        folder,
        file,
        BlockHead::UPDATING,
        updating,
        &1u32.to_le_bytes(),
    )?;
    mend_marks(folder, claims, file, groups, map, fields)
}

// Reads the header of a file, and writes those of its words that aren't as the used blocks have them.
fn remake<F: Folder>(folder: &mut F, claims: &Claims, file: u8, groups: u32) -> Result<(), Fault>
    requires few { groups ≤ 16224 }
    requires header { ForSome (F.told folder.old).files (λ image. header_size ≤ length_of image (block file)) }
    ensures done { OnOk result (WhereGroups (F.told folder.old) (F.told folder.new) file groups (EndsRebuilt claims.now file)) }
    ensures stops { WhereGroups (F.told folder.old) (F.told folder.new) file groups (OnlyNeeded (RemakesInProgress claims.now file)) }
    ensures clean { WhereGroups (F.told folder.old) (F.told folder.new) file groups (StaysIfRebuilt claims.now file) }
    ensures cause { IfDamaged result (IsShortRead (F.told folder.new) file) }
    ensures untold { OpaqueIfDamaged result (F.told folder.old) }
    ensures writes { MayWrite F.told F.faults folder.old folder.new (IfDevice result) }
{
    let mut map = [0u8; MAP_LEN];
    read_exact(folder, FileId::Block(file), BlockHead::MAP, &mut map)?;
    let mut fields = [0u8; BlockHead::LEN];
    read_exact(folder, FileId::Block(file), 0, &mut fields)?;
    mend_file(folder, claims, file, groups, &map, &fields)?;
    Ok(())
}

// Lengthens a file to all its blocks, where it is shorter, and makes its map and counters anew, where they aren't those
// of the used blocks already.
fn rebuild_file<F: Folder>(
    folder: &mut F,
    files: &mut BlockFiles,
    claims: &Claims,
    file: u8,
) -> Result<(), Fault>
    requires linked { IsTrue (is_among (all_files files.old) file) }
    requires agrees { ForSome (F.told folder.old).files (Agrees files.old) }
    ensures done { OnOk result (ForSome (F.told folder.new).files (λ image. IsRebuilt claims.now image file)) }
    ensures fitted { OnOk result (Resizes files.old files.new file (max (length_in files.old file) (whole_length files.old file))) }
    ensures agrees { ForSome (F.told folder.new).files (Agrees files.new) }
    ensures all { (kind : ℕ) → files_of files.new kind ≡ files_of files.old kind }
    ensures keeps { KeepsStanding files.old files.new }
    ensures stops { StopsNeeded (F.told folder.old) (F.told folder.new) (IsRebuilding claims.now (file ∷ [])) }
    ensures clean { WhereItsBlocks (F.told folder.old) (F.told folder.new) files.old file (StaysIfRebuilt claims.now file) }
    ensures cause { IfDamaged result (IsShortRead (F.told folder.new) file) }
    ensures untold { OpaqueIfDamaged result (F.told folder.old) }
    ensures writes { MayWrite F.told F.faults folder.old folder.new (IfDevice result) }
{
    files.fit(folder, file)?;
    let groups = blocks_in(files, file) / GROUP;
    remake(folder, claims, file, groups)
}

/// Rebuilds all linked block files: their maps and counters become those of the used blocks, and `updating` becomes 0. Hints stay.
///
/// Before that, a file that is shorter than its header and blocks is lengthened to them. Of a header, which is read by
/// two calls, only words that differ from what they have to be are written, each by a call of its own: of map and
/// counters at most 2033, and around them `updating`, which is 1 from before the first of them to after the last. A
/// failed check is a read of a header that gave too few bytes, which only an opaque folder does.
pub fn rebuild<F: Folder>(f: &mut F, files: &mut BlockFiles, claims: &Claims) -> Result<(), Fault>
    requires agrees { ForSome (F.told f.old).files (Agrees files.old) }
    // In any case the same files are linked, and what was valid still is.
    ensures all { (kind : ℕ) → files_of files.new kind ≡ files_of files.old kind }
    ensures keeps { KeepsStanding files.old files.new }

    ensures rebuilt { OnOk result (ForSome (F.told f.new).files (λ image. (n : ℕ) → is_among (all_files files.old) n ≡ true → IsRebuilt claims.now image n)) }
    ensures allocations { OnOk result (LeavesFrom (F.told f.old) (F.told f.new) (AreItsAllocations claims.now (all_files files.old))) }
    ensures fitted { OnOk result (AreFitted files.old files.new) }
    ensures agrees { ForSome (F.told f.new).files (Agrees files.new) }

    // Each step is needed: it writes bytes that aren't there already, or lengthens a file. At each word only lengths, maps, counters and updating differ, each
    // mark and each counter is as it was or as the used blocks have it, and in each file updating is 1 until map and counters are done; a file whose map and
    // counters were right has each byte as before; files have grown at most, and a well-formed folder is well formed.
    ensures stops { StopsNeeded (F.told f.old) (F.told f.new) (IsRebuilding claims.now (all_files files.old)) }

    // Where each file has all its blocks, and its map and its counters are right, no step is made.
    ensures clean { ForSome (F.told f.old).files (λ from. AreRight claims.now files.old from → Stays (F.told f.old) (F.told f.new)) }

    ensures cause { IfDamaged result (IsShortReadOf (F.told f.new) (all_files files.old)) }
    ensures untold { OpaqueIfDamaged result (F.told f.old) }
    ensures writes { MayWrite F.told F.faults f.old f.new (IfDevice result) }
{
    for number in 0..BLOCK_FILES {
        let file = number as u8;
        if files.max_entries(file).is_some() {
            rebuild_file(f, files, claims, file)?;
        }
    }
    Ok(())
}
