// The words by which chains are linked: those of the table, and the nexts of records. Each is written only where it differs.
ghost use Rattle.std.specs.Prelude.{◌≡◌, ◌≤◌, ◌⊎◌, OnErr, OnOk, true};
ghost use Rattle.std.specs.Option.{ForSome};
ghost use Rattle.spec_image.specs.Image.{Index as index};
ghost use Rattle.spec_image.specs.Steps.{word_step};
ghost use Rattle.spec_image.specs.Told.{AppliesPrefix, MakesPartOf, Rises};
ghost use Rattle.spec_format.specs.Headers.{HasWholeIndex, place_of_bucket};
ghost use Rattle.spec_format.specs.Sealed.{RecordChecks};
ghost use Rattle.spec_folder.specs.View.{store_of};
ghost use Rattle.spec_folder.specs.ListView.{first_or};
ghost use Rattle.blk_io.specs.Faults.{IfDamaged, IfDevice, UndamagedWhere};
ghost use Rattle.blk_disk.specs.Tables.{is_record_among};
ghost use Rattle.blk_disk.specs.Open.{IsOpen};
ghost use Rattle.law_recovery.specs.ChainRepair.{bucket_steps, next_steps};
ghost use Rattle.blk_repair.specs.Chains.{IsBucketWord};
ghost use Rattle.blk_repair.specs.Damages.{IsFailedLink};
ghost use Rattle.blk_repair.specs.RepairClauses.{DoesAll, DoesPrefix, OnImage, Where};

use blk_addr::Addr;
use blk_disk::BlockFiles;
use blk_entry::field;
use blk_index::set_bucket;
use blk_io::{Failed, Fault, Folder};
use blk_record::EntryView;

// The word of the first of some records, or 0.
pub(crate) fn first_word(records: &[Addr]) -> u32
    ensures { result ≡ first_or 0 records.now }
{
    match records.first() {
        Some(record) => record.word(),
        None => 0,
    }
}

// Writes the word of a bucket, where it differs from the one that was read.
pub(crate) fn set_front<F: Folder>(
    folder: &mut F,
    number: u16,
    now: u32,
    word: u32,
) -> Result<(), Failed>
    requires complete { ForSome (F.told folder.old).files HasWholeIndex }
    ensures steps { OnOk result (Where F.told folder.old folder.new (IsBucketWord now number) (DoesAll (bucket_steps number word))) }
    ensures prefix { Where F.told folder.old folder.new (IsBucketWord now number) (DoesPrefix (bucket_steps number word)) }

    // On any folder, observable or not, at most this word is written.
    ensures only { AppliesPrefix (F.told folder.old) (F.told folder.new) (word_step index (place_of_bucket number) word) }

    ensures later { F.faults folder.old ≤ F.faults folder.new }
    ensures failed { OnErr result (Rises (F.faults folder.old) (F.faults folder.new)) }
{
    if now == word {
        return Ok(());
    }
    set_bucket(folder, number, word)
}

// Writes the next of a record in an update with a new checksum, where it differs.
pub(crate) fn set_next<F: Folder>(
    folder: &mut F,
    files: &BlockFiles,
    entry: Addr,
    word: u32,
) -> Result<(), Fault>
    requires stands { is_record_among files.now entry ≡ true }
    requires is_open { ForSome (F.told folder.old).files (IsOpen files.now) }
    ensures checked { OnOk result (ForSome (F.told folder.old).files (λ image. ((store_of image).chain_next entry ≡ word) ⊎ RecordChecks entry image)) }
    ensures steps { OnOk result (OnImage F.told folder.old folder.new (DoesAll (next_steps entry word))) }
    ensures prefix { MakesPartOf (F.told folder.old) (F.told folder.new) (λ from. next_steps entry word from) }
    ensures damaged { IfDamaged result (IsFailedLink files.now (F.told folder.new)) }
    ensures untold { UndamagedWhere result (F.told folder.old) (RecordChecks entry) }
    ensures later { F.faults folder.old ≤ F.faults folder.new }
    ensures device { IfDevice result (Rises (F.faults folder.old) (F.faults folder.new)) }
{
    let now = field(folder, files, entry, EntryView::NEXT)?;
    if now == word {
        return Ok(());
    }
    files.update_sealed(folder, entry, &[(EntryView::NEXT, word)])
}
