// Words of a header are written where they differ.
ghost use Rattle.std.specs.Prelude.{◌≡◌, ◌+◌, ◌%◌, ◌<◌, ◌≤◌, ◌^◌, length, OnOk, OnErr};
ghost use Rattle.std.specs.Option.{ForSome};
ghost use Rattle.spec_image.specs.Image.{Block as block, HasRange, length_of};
ghost use Rattle.spec_image.specs.Told.{Stays, MayWrite, LeavesFrom};
ghost use Rattle.spec_format.specs.Address.{header_size};
ghost use Rattle.spec_format.specs.Headers.{block_fields_length};
ghost use Rattle.blk_alloc.specs.Mending.{IsPrefixWritten, KeepsLength, IsOldOrWord};
ghost use Rattle.blk_alloc.specs.Rebuilding.{IsCounting};
ghost use Rattle.blk_alloc.specs.Clauses.{EndsWithBytes, EndsWithCounters, EndsWithWord, OnlyNeeded, WhereBytes, WhereFields, WhereWord};

use crate::layout::{ALLOCATIONS, EMPTY};
use blk_io::{Failed, FileId, Folder};
use blk_record::BlockHead;

// Writes a word of a file where it differs from the old one, which was read.
pub(crate) fn mend_word<F: Folder>(
    folder: &mut F,
    file: u8,
    at: u64,
    old: &[u8],
    new: &[u8],
) -> Result<(), Failed>
    requires aligned { at % 4 ≡ 0 }
    requires old_word { length old.now ≡ 4 }
    requires new_word { length new.now ≡ 4 }
    requires inside { ForSome (F.told folder.old).files (λ image. HasRange image (block file) at 4) }
    ensures done { OnOk result (WhereWord (F.told folder.old) (F.told folder.new) file at old.now (EndsWithWord file at new.now)) }
    ensures stops { WhereWord (F.told folder.old) (F.told folder.new) file at old.now (OnlyNeeded (IsOldOrWord file at new.now)) }
    ensures same { old.now ≡ new.now → Stays (F.told folder.old) (F.told folder.new) }
    ensures long { LeavesFrom (F.told folder.old) (F.told folder.new) (KeepsLength (block file)) }
    ensures writes { MayWrite F.told F.faults folder.old folder.new (OnErr result) }
{
    if *old == *new {
        return Ok(());
    }
    folder.write_at(FileId::Block(file), at, new)
}

// Writes those words of a file, from an offset on, that differ from the old ones, which were read.
pub(crate) fn mend<F: Folder>(
    folder: &mut F,
    file: u8,
    at: u64,
    old: &[u8],
    new: &[u8],
) -> Result<(), Failed>
    requires aligned { at % 4 ≡ 0 }
    requires words { length new.now % 4 ≡ 0 }
    requires alike { length old.now ≡ length new.now }
    requires small { at + length new.now < 2 ^ 32 }
    requires inside { ForSome (F.told folder.old).files (λ image. HasRange image (block file) at (length new.now)) }
    ensures done { OnOk result (WhereBytes (F.told folder.old) (F.told folder.new) file at old.now (EndsWithBytes file at new.now)) }
    ensures stops { WhereBytes (F.told folder.old) (F.told folder.new) file at old.now (OnlyNeeded (IsPrefixWritten (block file) at new.now)) }
    ensures long { LeavesFrom (F.told folder.old) (F.told folder.new) (KeepsLength (block file)) }
    ensures writes { MayWrite F.told F.faults folder.old folder.new (OnErr result) }
{
    for k in 0..new.len() / 4 {
        let i = 4 * k;
        mend_word(folder, file, at + i as u64, &old[i..i + 4], &new[i..i + 4])?;
    }
    Ok(())
}

// Writes those counters of a file that differ from the old ones, which were read.
pub(crate) fn mend_counters<F: Folder>(
    folder: &mut F,
    file: u8,
    fields: &[u8],
    allocations: u32,
    empty: &[u32; 4],
) -> Result<(), Failed>
    requires four { length empty.now ≡ 4 }
    requires long_fields { length fields.now ≡ block_fields_length }
    requires header { ForSome (F.told folder.old).files (λ image. header_size ≤ length_of image (block file)) }
    ensures done { OnOk result (WhereFields (F.told folder.old) (F.told folder.new) file fields.now (EndsWithCounters file allocations empty.now)) }
    ensures stops { WhereFields (F.told folder.old) (F.told folder.new) file fields.now (OnlyNeeded (IsCounting file allocations empty.now)) }
    ensures long { LeavesFrom (F.told folder.old) (F.told folder.new) (KeepsLength (block file)) }
    ensures writes { MayWrite F.told F.faults folder.old folder.new (OnErr result) }
{
    let number = &fields[ALLOCATIONS..ALLOCATIONS + 4];
    mend_word(
        folder,
        file,
        BlockHead::ALLOCATIONS,
        number,
        &allocations.to_le_bytes(),
    )?;
    let runs = [
        empty[0].to_le_bytes(),
        empty[1].to_le_bytes(),
        empty[2].to_le_bytes(),
        empty[3].to_le_bytes(),
    ];
    mend(
        folder,
        file,
        BlockHead::EMPTY,
        &fields[EMPTY..EMPTY + 16],
        runs.as_flattened(),
    )
}
