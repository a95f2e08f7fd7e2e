// Nodes and records get their checksums.
ghost use Rattle.std.specs.Prelude.{◌≤◌, OnOk, All};
ghost use Rattle.std.specs.Option.{ForSome};
ghost use Rattle.spec_image.specs.Image.{Image};
ghost use Rattle.spec_image.specs.Told.{MakesPartOf, Rises};
ghost use Rattle.blk_io.specs.Faults.{IfDamaged, IfDevice, UndamagedWhere};
ghost use Rattle.blk_disk.specs.Open.{IsOpen};
ghost use Rattle.blk_audit.specs.Sealable.{CanBeSealed};
ghost use Rattle.blk_repair.specs.Seals.{AreSealedNow, HasMendedLinksOf, IsNextSealed, IsWrongSealed, seals_steps};
ghost use Rattle.blk_repair.specs.RepairClauses.{DoesAll, HoldsAlong, Leaves, OnImage, WhereSealed};

use blk_addr::Addr;
use blk_disk::BlockFiles;
use blk_io::{Fault, Folder};

/// Writes the checksums of some nodes and records: where one isn't the hash of the bytes before it, it becomes that hash.
///
/// A checksum that is the hash already isn't written. One that is neither 0 nor the hash is corruption, and so are too few bytes. This takes at most two folder
/// calls for each of them.
pub fn seal_records<F: Folder>(
    folder: &mut F,
    files: &BlockFiles,
    records: &[Addr],
) -> Result<(), Fault>
    requires stand { All (CanBeSealed files.now) records.now }
    requires is_open { ForSome (F.told folder.old).files (IsOpen files.now) }
    ensures steps { OnOk result (OnImage F.told folder.old folder.new (DoesAll (seals_steps records.now))) }
    ensures prefix { MakesPartOf (F.told folder.old) (F.told folder.new) (λ from. seals_steps records.now from) }

    // Where the links are repaired and these nodes and records are kept, the links stay so at each word, with the same kept records and recovered contents; in
    // the end these have their checksums, so all that is kept has them if the others had, and what had its checksum or was repaired of the files is so still.
    ensures sealed { OnOk result (WhereSealed F.told folder.old folder.new records.now (λ entry. Leaves (λ from. AreSealedNow entry from records.now))) }
    ensures stops { WhereSealed F.told folder.old folder.new records.now (λ entry from. HoldsAlong HasMendedLinksOf entry) }

    ensures is_open { ForSome (F.told folder.new).files (IsOpen files.now) }

    // An observable folder reports corruption only where the links aren't repaired, or not all of these are kept.
    ensures damaged { IfDamaged result (IsWrongSealed files.now (F.told folder.new)) }
    ensures untold { UndamagedWhere result (F.told folder.old) (λ from. (entry : Image) × IsNextSealed entry records.now from) }

    ensures later { F.faults folder.old ≤ F.faults folder.new }
    ensures device { IfDevice result (Rises (F.faults folder.old) (F.faults folder.new)) }
{
    for record in records {
        files.seal(folder, *record)?;
    }
    Ok(())
}
