// All buckets get exactly the chains of their kept records.
ghost use Rattle.std.specs.Prelude.{◌≡◌, ◌<◌, IfOk, OnOk, All, true, false, length};
ghost use Rattle.std.specs.Option.{ForSome};
ghost use Rattle.spec_image.specs.Told.{MayWrite, ReadsOnly};
ghost use Rattle.spec_format.specs.Headers.{HasWholeIndex, table_length};
ghost use Rattle.blk_io.specs.Faults.{IfDamaged, IfDevice, UndamagedWhere};
ghost use Rattle.blk_disk.specs.Open.{IsOpen};
ghost use Rattle.blk_disk.specs.Tables.{is_record_among};
ghost use Rattle.law_recovery.specs.ChainRepair.{AreChainsMended, chain_repair_steps, chain_steps};
ghost use Rattle.law_recovery.specs.ListRepair.{HoldsTheSame};
ghost use Rattle.blk_index.specs.Table.{buckets_of_piece};
ghost use Rattle.blk_audit.specs.BucketEnds.{AreEnds, records_of as records_among};
ghost use Rattle.blk_audit.specs.Faults.{IsTableDamage};
ghost use Rattle.blk_repair.specs.Chains.{AreChainsScanned, KeepsOtherBuckets, ReadsOnWords};
ghost use Rattle.blk_repair.specs.Damages.{AllCheck, IsChainsRepairDamage, IsFailedLink};
ghost use Rattle.blk_repair.specs.RepairClauses.{DoesAll, DoesPrefix, HoldsAlong, Leaves, Where, WhereNextBucket};

use crate::chains::mend_chain;
use blk_addr::Addr;
use blk_disk::BlockFiles;
use blk_index::{BUCKETS_OF_PIECE, buckets};
use blk_io::{Fault, Folder};

/// Recovers the hash chains: that of each bucket gets exactly its kept records, in rising order of the buckets.
///
/// `records` are the kept records of all buckets, bucket after bucket and each chain in its order. `ends` has for each of the 65536 buckets where its records
/// end among them, so they begin where those of the bucket before end. A bucket for which `whole` is true is the chain of its records already. The words of
/// 16384 buckets are read by one call, and only where one of them isn't reported whole: so the table takes at most 4 calls beside its writes. A wrong checksum
/// of a record that is to be written is corruption, and so are too few bytes.
pub fn mend_chains<F: Folder>(
    folder: &mut F,
    files: &BlockFiles,
    records: &[Addr],
    ends: &[u32],
    whole: &[bool],
) -> Result<(), Fault>
    requires stand { All (λ w. is_record_among files.now w ≡ true) records.now }
    requires ends { AreEnds records.now ends.now }
    requires told { length whole.now ≡ table_length }
    requires is_open { ForSome (F.told folder.old).files (IsOpen files.now) }

    // With the kept records of the folder the steps are those of the repair of the chains, from the first on: all are
    // repaired in the end, and kept records and recovered contents are the same at each word.
    ensures steps { OnOk result (Where F.told folder.old folder.new (AreChainsScanned records.now ends.now whole.now) (DoesAll chain_repair_steps)) }
    ensures prefix { Where F.told folder.old folder.new (AreChainsScanned records.now ends.now whole.now) (DoesPrefix chain_repair_steps) }
    ensures mended { OnOk result (Where F.told folder.old folder.new (AreChainsScanned records.now ends.now whole.now) (Leaves AreChainsMended)) }
    ensures stops { Where F.told folder.old folder.new (AreChainsScanned records.now ends.now whole.now) (HoldsAlong HoldsTheSame) }

    ensures is_open { ForSome (F.told folder.new).files (IsOpen files.now) }
    ensures writes { MayWrite F.told F.faults folder.old folder.new (IfDevice result) }

    // An observable folder reports corruption only where these aren't its kept records.
    ensures damaged { IfDamaged result (IsChainsRepairDamage files.now (F.told folder.new)) }
    ensures untold { UndamagedWhere result (F.told folder.old) (AreChainsScanned records.now ends.now whole.now) }
{
    let mut table = [0u32; BUCKETS_OF_PIECE];
    let mut read = 0;
    for i in 0..ends.len() {
        read = read_piece(folder, whole[i], i as u16, read, &mut table)?;
        let own = records_of(records, ends, i);
        mend_bucket(
            folder,
            files,
            i as u16,
            table[i % BUCKETS_OF_PIECE],
            own,
            whole[i],
        )?;
    }
    Ok(())
}

// Reads the words of the piece of the table in which a bucket is, unless it is reported whole or they were read: the words of the buckets before `read` were.
// Gives the bucket up to which they are read then.
fn read_piece<F: Folder>(
    folder: &mut F,
    whole: bool,
    bucket: u16,
    read: u32,
    table: &mut [u32],
) -> Result<u32, Fault>
    requires size { length table.old ≡ buckets_of_piece }
    ensures size { length table.new ≡ buckets_of_piece }
    ensures fronts { IfOk result (λ now. ForSome (F.told folder.old).files (ReadsOnWords table.old table.new bucket read now)) }
    ensures reached { IfOk result (λ now. whole ≡ false → bucket < now) }
    ensures reads { ReadsOnly F.told F.faults folder.old folder.new (IfDevice result) }
    ensures damaged { IfDamaged result (IsTableDamage (F.told folder.new)) }
    ensures untold { UndamagedWhere result (F.told folder.old) HasWholeIndex }
{
    if whole || u32::from(bucket) < read {
        return Ok(read);
    }
    let first = bucket - bucket % BUCKETS_OF_PIECE as u16;
    buckets(folder, first, table)?;
    Ok(u32::from(first) + BUCKETS_OF_PIECE as u32)
}

// Gives a bucket exactly the chain of its kept records, unless it is reported whole.
fn mend_bucket<F: Folder>(
    folder: &mut F,
    files: &BlockFiles,
    bucket: u16,
    front: u32,
    records: &[Addr],
    whole: bool,
) -> Result<(), Fault>
    requires stand { All (λ w. is_record_among files.now w ≡ true) records.now }
    requires is_open { ForSome (F.told folder.old).files (IsOpen files.now) }
    ensures steps { OnOk result (WhereNextBucket F.told folder.old folder.new bucket front records.now whole (DoesAll (chain_steps bucket records.now))) }
    ensures prefix { WhereNextBucket F.told folder.old folder.new bucket front records.now whole (DoesPrefix (chain_steps bucket records.now)) }
    ensures others { OnOk result (ForSome (F.told folder.old).files (λ from. ForSome (F.told folder.new).files (KeepsOtherBuckets bucket from))) }
    ensures is_open { ForSome (F.told folder.new).files (IsOpen files.now) }
    ensures writes { MayWrite F.told F.faults folder.old folder.new (IfDevice result) }
    ensures damaged { IfDamaged result (IsFailedLink files.now (F.told folder.new)) }
    ensures untold { UndamagedWhere result (F.told folder.old) (AllCheck records.now) }
{
    if whole {
        return Ok(());
    }
    mend_chain(folder, files, bucket, front, records)
}

// The records of a bucket among those of all buckets.
fn records_of<'a>(records: &'a [Addr], ends: &[u32], bucket: usize) -> &'a [Addr]
    requires ends { AreEnds records.now ends.now }
    requires bucket { bucket < table_length }
    ensures { result.now ≡ records_among records.now ends.now bucket }
{
    let first = if bucket == 0 {
        0
    } else {
        ends[bucket - 1] as usize
    };
    &records[first..ends[bucket] as usize]
}
