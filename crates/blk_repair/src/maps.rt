// The lengths, maps and counters of the block files are rebuilt from what is kept.
ghost use Rattle.std.specs.Prelude.{◌≡◌, ℕ, None, OnOk};
ghost use Rattle.std.specs.Option.{ForSome};
ghost use Rattle.spec_image.specs.Told.{Stays, MayWrite};
ghost use Rattle.blk_io.specs.Faults.{IfDamaged, IfDevice};
ghost use Rattle.blk_disk.specs.Open.{IsOpen};
ghost use Rattle.blk_disk.specs.Tables.{all_files, files_of};
ghost use Rattle.blk_alloc.specs.Extending.{KeepsStanding};
ghost use Rattle.blk_alloc.specs.Rebuilding.{AreFitted, AreRight, IsShortReadOf};
ghost use Rattle.law_recovery.specs.MendedChanges.{KeepsMendedLinks};
ghost use Rattle.blk_repair.specs.Maps.{AreFilesMended, Rebuilds};
ghost use Rattle.blk_repair.specs.Parts.{AppliesOf};
ghost use Rattle.blk_repair.specs.RepairClauses.{ForEntry, HoldsAlong, Leaves, OnImage, WhereRebuilt};

use blk_addr::Claims;
use blk_alloc::rebuild;
use blk_disk::BlockFiles;
use blk_io::{Fault, Folder};

/// Rebuilds the linked block files: their lengths, maps and counters become those of what is kept, whose addresses `claims` has.
///
/// A word is written only where it differs, and a length only where the file is too short. A failed check is a read of
/// a header that gave too few bytes, which only an opaque folder does.
pub fn mend_files<F: Folder>(
    folder: &mut F,
    files: &mut BlockFiles,
    claims: &Claims,
) -> Result<(), Fault>
    requires is_open { ForSome (F.told folder.old).files (IsOpen files.old) }
    // In any case the same files are linked, and what was valid still is.
    ensures all { (kind : ℕ) → files_of files.new kind ≡ files_of files.old kind }
    ensures keeps { KeepsStanding files.old files.new }

    // In the end each linked file has its length, or exactly that of its header and blocks where this is greater.
    ensures fitted { OnOk result (AreFitted files.old files.new) }

    // A step is made only where it is needed, and none but on lengths, maps, counters and updating.
    ensures rebuilds { OnImage F.told folder.old folder.new (AppliesOf (Rebuilds files.old claims.now)) }

    // Where the links are repaired they stay so at each word, with the same kept records and recovered contents; where the used blocks are those of what is
    // kept the files are repaired in the end, and what had its checksum has it still.
    ensures mended { OnOk result (WhereRebuilt F.told folder.old folder.new claims.now (λ entry. Leaves (AreFilesMended entry))) }
    ensures stops { ForEntry F.told folder.old folder.new KeepsMendedLinks (λ entry from. HoldsAlong KeepsMendedLinks entry) }
    ensures is_open { ForSome (F.told folder.new).files (IsOpen files.new) }

    // Where each file has all its blocks, and its map and its counters are right, no step is made.
    ensures clean { ForSome (F.told folder.old).files (λ from. AreRight claims.now files.old from → Stays (F.told folder.old) (F.told folder.new)) }
    ensures damaged { IfDamaged result (IsShortReadOf (F.told folder.new) (all_files files.old)) }
    ensures untold { IfDamaged result (λ _. (F.told folder.old).files ≡ None) }
    ensures writes { MayWrite F.told F.faults folder.old folder.new (IfDevice result) }
{
    rebuild(folder, files, claims)?;
    Ok(())
}
