// Marks of blocks in one group of a file are changed, and the counters follow.
ghost use Rattle.std.specs.Prelude.{◌≤◌, ◌<◌, ◌+◌, ◌/◌, ◌%◌, ◌^◌, OnOk};
ghost use Rattle.std.specs.Option.{ForSome};
ghost use Rattle.spec_image.specs.Image.{Block as block, length_of};
ghost use Rattle.spec_image.specs.Told.{Stays, MayWrite};
ghost use Rattle.spec_format.specs.BlockFiles.{most_blocks};
ghost use Rattle.spec_format.specs.Maps.{group_size};
ghost use Rattle.blk_io.specs.Faults.{IfDamaged, IfDevice};
ghost use Rattle.blk_alloc.specs.Changes.{CanChangeMarks, IsMapInProgress, IsChanged, ChangesOrStops};
ghost use Rattle.blk_alloc.specs.Fitting.{IsMapWord};
ghost use Rattle.blk_alloc.specs.Owning.{IsCause};
ghost use Rattle.blk_alloc.specs.Clauses.{OpaqueIfDamagedWhere, StopsOrEnds};

use crate::layout::BITS_OF_WORD;
use crate::map::word_of;
use crate::plan::Plan;
use blk_io::{Fault, FileId, Folder, read_exact};
use blk_record::BlockHead;

// Marks some neighbouring blocks of one group as used, or clears their marks; the word of the map that has them was read.
pub(crate) fn change<F: Folder>(
    folder: &mut F,
    file: u8,
    start: u32,
    count: u32,
    used: bool,
    word: u32,
) -> Result<(), Fault>
    requires some { 0 < count }
    requires group { start % 4 + count ≤ group_size }
    requires small { start + count < 2 ^ 32 }
    requires header { ForSome (F.told folder.old).files (λ image. 8192 ≤ length_of image (block file)) }
    requires inside { ForSome (F.told folder.old).files (λ image. start + count ≤ most_blocks) }
    requires word { ForSome (F.told folder.old).files (λ image. IsMapWord image file (start / 32) word) }
    ensures changed { OnOk result (ForSome (F.told folder.old).files (λ from. ForSome (F.told folder.new).files (IsChanged from file start count used))) }
    ensures stops { StopsOrEnds (F.told folder.old) (F.told folder.new) (IsMapInProgress file) (ChangesOrStops file start count used) }
    ensures writes { MayWrite F.told F.faults folder.old folder.new (IfDevice result) }
    ensures cause { IfDamaged result (IsCause (F.told folder.old) file start count used) }
    ensures unwritten { IfDamaged result (λ _. Stays (F.told folder.old) (F.told folder.new)) }
    ensures untold { OpaqueIfDamagedWhere result (F.told folder.old) (λ image. CanChangeMarks image file start count used) }
{
    let plan = Plan::read(folder, file, start, count, used, word)?;
    plan.write(folder, file)?;
    Ok(())
}

// Marks blocks of one group as used or clears their marks, as `change` does, and first reads the word of the map that has them.
pub(crate) fn read_and_change<F: Folder>(
    folder: &mut F,
    file: u8,
    start: u32,
    count: u32,
    used: bool,
) -> Result<(), Fault>
    requires some { 0 < count }
    requires group { start % 4 + count ≤ group_size }
    requires small { start + count < 2 ^ 32 }
    requires header { ForSome (F.told folder.old).files (λ image. 8192 ≤ length_of image (block file)) }
    requires inside { ForSome (F.told folder.old).files (λ image. start + count ≤ most_blocks) }
    ensures changed { OnOk result (ForSome (F.told folder.old).files (λ from. ForSome (F.told folder.new).files (IsChanged from file start count used))) }
    ensures stops { StopsOrEnds (F.told folder.old) (F.told folder.new) (IsMapInProgress file) (ChangesOrStops file start count used) }
    ensures writes { MayWrite F.told F.faults folder.old folder.new (IfDevice result) }
    ensures cause { IfDamaged result (IsCause (F.told folder.old) file start count used) }
    ensures unwritten { IfDamaged result (λ _. Stays (F.told folder.old) (F.told folder.new)) }
    ensures untold { OpaqueIfDamagedWhere result (F.told folder.old) (λ image. CanChangeMarks image file start count used) }
{
    let at = BlockHead::MAP + 4 * u64::from(start / BITS_OF_WORD);
    let mut bytes = [0u8; 4];
    read_exact(folder, FileId::Block(file), at, &mut bytes)?;
    let word = word_of(&bytes);
    change(folder, file, start, count, used, word)
}
