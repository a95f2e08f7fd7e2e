// The chain of one bucket, followed from a word on.
ghost use Rattle.std.specs.Prelude.{◌<◌, ◌≤◌, OnOk, None, length};
ghost use Rattle.std.specs.Option.{ForSome};
ghost use Rattle.spec_image.specs.Told.{ReadsOnly};
ghost use Rattle.spec_format.specs.Headers.{table_length};
ghost use Rattle.spec_folder.specs.View.{store_of};
ghost use Rattle.blk_io.specs.Faults.{OkFor};
ghost use Rattle.blk_disk.specs.Tables.{Agrees};
ghost use Rattle.blk_audit.specs.Faults.{IfScanDamaged, IfScanDevice, IsRecordDamage};
ghost use Rattle.blk_audit.specs.Records.{AreRecordsOf};
ghost use Rattle.blk_audit.specs.Chaining.{AreOfFirst, AreReached, AreReachedThere, HasEntry, HasRecords, IsLookedAt, KeepsEnds, RecordsStand, words_reached};
ghost use Rattle.blk_audit.specs.ScanClauses.{AddsChainFrom, IsChainEnd, TakesStep, StepsAlong, ScanUndamagedWhere};

use crate::fault::ScanFault;
use crate::reaching::Reached;
use crate::record_files::{Records, record_of};
use blk_disk::BlockFiles;
use blk_io::Folder;
use blk_record::IndexHead;

// The most records of a chain.
const MOST_RECORDS: u32 = 16_777_216;

// Follows the chain of a bucket from a word on, and adds the records that it reaches. Those reached before are of
// earlier buckets. Gives the word at which the chain ends.
pub(crate) fn follow<F: Folder>(
    folder: &mut F,
    files: &BlockFiles,
    records: &Records,
    bucket: u32,
    start: u32,
    reached: &mut Reached,
) -> Result<u32, ScanFault>
    requires bucket { bucket < table_length }
    requires records { ForSome (F.told folder.old).files (λ image. AreRecordsOf image records.now) }
    requires met { AreReached reached.old }
    requires there { ForSome (F.told folder.old).files (λ image. HasRecords files.now image (words_reached reached.old)) }
    requires stand { RecordsStand files.now (words_reached reached.old) }
    requires others { ForSome (F.told folder.old).files (λ image. Agrees files.now image → AreOfFirst (store_of image) bucket (words_reached reached.old)) }
    ensures met { OnOk result (AreReached reached.new) }
    ensures checked { OnOk result (ForSome (F.told folder.old).files (λ image. HasRecords files.now image (words_reached reached.new))) }
    ensures looked { OnOk result (ForSome (F.told folder.old).files (λ image. IsLookedAt files.now image (words_reached reached.new) start)) }
    ensures more { OnOk result (ForSome (F.told folder.old).files (λ image. length (words_reached reached.old) ≤ length (words_reached reached.new))) }
    ensures reached { OnOk result (ForSome (F.told folder.old).files (AddsChainFrom files.now bucket start reached.old reached.new)) }
    ensures end { OkFor result (F.told folder.old) (IsChainEnd files.now bucket start) }
    ensures stand { OnOk result (RecordsStand files.now (words_reached reached.new)) }
    ensures ends { OnOk result (KeepsEnds reached.old reached.new) }
    ensures reads { ReadsOnly F.told F.faults folder.old folder.new (IfScanDevice result) }
    ensures damaged { IfScanDamaged result (IsRecordDamage files.now (F.told folder.new)) }
    ensures untold { ScanUndamagedWhere result (F.told folder.new) (Agrees files.now) }
{
    let mut word = start;
    for i in 0..MOST_RECORDS {
        match reach(folder, files, records, bucket, reached, word)? {
            Some(next) => word = next,
            None => return Ok(word),
        }
    }
    Ok(word)
}

// Reaches the record of a word, where there is one whose first block was not met, whose checksum matches or is absent, and which is of the bucket. Gives its
// next.
fn reach<F: Folder>(
    folder: &mut F,
    files: &BlockFiles,
    records: &Records,
    bucket: u32,
    reached: &mut Reached,
    word: u32,
) -> Result<Option<u32>, ScanFault>
    requires bucket { bucket < table_length }
    requires records { ForSome (F.told folder.old).files (λ image. AreRecordsOf image records.now) }
    requires met { AreReached reached.old }
    requires there { ForSome (F.told folder.old).files (λ image. AreReachedThere files.now image (words_reached reached.old)) }
    requires stand { RecordsStand files.now (words_reached reached.old) }
    ensures met { OnOk result (AreReached reached.new) }
    ensures stand { OnOk result (RecordsStand files.now (words_reached reached.new)) }
    ensures ends { OnOk result (KeepsEnds reached.old reached.new) }
    ensures checked { OnOk result (ForSome (F.told folder.old).files (λ image. HasEntry files.now image word)) }
    ensures taken { OkFor result (F.told folder.old) (TakesStep files.now word reached.old reached.new) }
    ensures step { OkFor result (F.told folder.old) (StepsAlong files.now bucket word reached.old reached.new) }
    ensures reads { ReadsOnly F.told F.faults folder.old folder.new (IfScanDevice result) }
    ensures damaged { IfScanDamaged result (IsRecordDamage files.now (F.told folder.new)) }
    ensures untold { ScanUndamagedWhere result (F.told folder.new) (Agrees files.now) }
{
    let Some(addr) = files.entry(word) else {
        return Ok(None);
    };
    if reached.has(addr) {
        return Ok(None);
    }
    let said = record_of(folder, files, records, addr)?;
    if !said.words.checks {
        return Ok(None);
    }
    if said.words.hash % IndexHead::BUCKETS != bucket {
        return Ok(None);
    }
    reached.add(addr)?;
    Ok(Some(said.words.next))
}
