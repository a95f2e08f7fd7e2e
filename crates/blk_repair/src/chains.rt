// The hash chains get exactly their kept records.
ghost use Rattle.std.specs.Prelude.{◌≡◌, ◌≤◌, OnOk, All, true};
ghost use Rattle.std.specs.Option.{ForSome};
ghost use Rattle.spec_image.specs.Told.{MakesPartOf, Rises, MayWrite};
ghost use Rattle.blk_io.specs.Faults.{IfDamaged, IfDevice, UndamagedWhere};
ghost use Rattle.blk_disk.specs.Tables.{is_record_among};
ghost use Rattle.blk_disk.specs.Open.{IsOpen};
ghost use Rattle.law_recovery.specs.ChainRepair.{chain_steps, next_words_steps};
ghost use Rattle.blk_repair.specs.Damages.{AllCheck, IsFailedLink};
ghost use Rattle.blk_repair.specs.Chains.{IsBucketWord, KeepsOtherBuckets};
ghost use Rattle.blk_repair.specs.RepairClauses.{DoesAll, DoesPrefix, OnImage, Where};

use crate::links::{first_word, set_front, set_next};
use blk_addr::Addr;
use blk_disk::BlockFiles;
use blk_io::{Fault, Folder};

// Makes a bucket the chain of some records, from its head on: the word of the bucket, as it was read, names the first of them, each has the one after it as its
// next, and the last has 0.
//
// A word is written only where it differs. A wrong checksum of a record that is to be written is corruption, and so are too few bytes. This takes at most one
// folder call and five for each record.
pub(crate) fn mend_chain<F: Folder>(
    folder: &mut F,
    files: &BlockFiles,
    bucket: u16,
    front: u32,
    records: &[Addr],
) -> Result<(), Fault>
    requires stand { All (λ w. is_record_among files.now w ≡ true) records.now }
    requires is_open { ForSome (F.told folder.old).files (IsOpen files.now) }
    ensures steps { OnOk result (Where F.told folder.old folder.new (IsBucketWord front bucket) (DoesAll (chain_steps bucket records.now))) }
    ensures prefix { Where F.told folder.old folder.new (IsBucketWord front bucket) (DoesPrefix (chain_steps bucket records.now)) }
    ensures writes { MayWrite F.told F.faults folder.old folder.new (IfDevice result) }
    ensures others { OnOk result (ForSome (F.told folder.old).files (λ from. ForSome (F.told folder.new).files (KeepsOtherBuckets bucket from))) }
    ensures is_open { ForSome (F.told folder.new).files (IsOpen files.now) }

    // An observable folder reports corruption only where one of the records has a wrong checksum.
    ensures damaged { IfDamaged result (IsFailedLink files.now (F.told folder.new)) }
    ensures untold { UndamagedWhere result (F.told folder.old) (AllCheck records.now) }
{
    set_front(folder, bucket, front, first_word(records))?;
    link(folder, files, records)
}

// Links some records into a chain: each gets the one after it as its next, and the last gets 0.
fn link<F: Folder>(folder: &mut F, files: &BlockFiles, records: &[Addr]) -> Result<(), Fault>
    requires stand { All (λ w. is_record_among files.now w ≡ true) records.now }
    requires is_open { ForSome (F.told folder.old).files (IsOpen files.now) }
    ensures steps { OnOk result (OnImage F.told folder.old folder.new (DoesAll (next_words_steps records.now))) }
    ensures prefix { MakesPartOf (F.told folder.old) (F.told folder.new) (λ from. next_words_steps records.now from) }
    ensures damaged { IfDamaged result (IsFailedLink files.now (F.told folder.new)) }

    // An observable folder reports corruption only where one of the records has a wrong checksum.
    ensures untold { UndamagedWhere result (F.told folder.old) (AllCheck records.now) }
    ensures later { F.faults folder.old ≤ F.faults folder.new }
    ensures device { IfDevice result (Rises (F.faults folder.old) (F.faults folder.new)) }
{
    for i in 0..records.len() {
        let behind = first_word(&records[i + 1..]);
        set_next(folder, files, records[i], behind)?;
    }
    Ok(())
}
