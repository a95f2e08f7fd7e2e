// The chains of the table.
ghost use Rattle.std.specs.Prelude.{◌≡◌, ◌≤◌, ◌+◌, ◌++◌, [], ◌∷◌, IfOk, OnOk, false, length, slice_get};
ghost use Rattle.std.specs.Option.{ForSome};
ghost use Rattle.spec_image.specs.Image.{HasRange, Index as index};
ghost use Rattle.spec_image.specs.Told.{ReadsOnly};
ghost use Rattle.spec_format.specs.Address.{blocks_256, kind_of};
ghost use Rattle.spec_format.specs.BlockFiles.{is_among};
ghost use Rattle.spec_format.specs.Headers.{place_of_bucket, table_length};
ghost use Rattle.spec_folder.specs.View.{store_of};
ghost use Rattle.blk_io.specs.Faults.{OkFor};
ghost use Rattle.blk_disk.specs.Open.{IsOpen};
ghost use Rattle.blk_disk.specs.Tables.{Agrees};
ghost use Rattle.blk_index.specs.Table.{AreBuckets, buckets_of_piece, table_piece_length};
ghost use Rattle.blk_audit.specs.Faults.{IfScanDamaged, IfScanDevice, IsChainsDamage, IsRecordDamage};
ghost use Rattle.blk_audit.specs.Records.{AreRecordsOf};
ghost use Rattle.blk_audit.specs.Chaining.{AreBucketsOf, AreReached, AreChainsThere, HasBuckets, KeepsEnds, RecordsStand, is_block_met, words_reached};
ghost use Rattle.blk_audit.specs.ScanClauses.{HasFirstChains, FollowsFirst, ReachesAllChains, ScanUndamagedWhere};

use crate::fault::ScanFault;
use crate::following::follow;
use crate::record_files::{Records, read_records};
use crate::records::first_of_record;
use blk_addr::{Addr, Claims, NoMemory};
use blk_disk::BlockFiles;
use blk_index::{BUCKETS_OF_PIECE, buckets};
use blk_io::Folder;
use std::alloc::Global;
use std::collections::BTreeSet;

// The calls that read the table.
const PIECES: u16 = 4;

/// The records that the chains of a table reach, bucket after bucket and each chain in its order. No two of them begin
/// with the same block. Of each bucket it is kept where its records end among them, and whether its chain is closed: it
/// ends at the word 0.
#[derive(Drop)]
pub struct Reached {
    words: Vec<Addr>,
    met: Claims,
    known: BTreeSet<u32>,
    ends: Vec<u32>,
    closed: Vec<bool>,
}

impl Reached {
    /// The number of reached records.
    pub fn count(&self) -> usize
        ensures { result ≡ length (words_reached self.now) }
    {
        self.words.len()
    }

    /// The address of one of the reached records, counted from 0.
    pub fn at(&self, i: usize) -> Option<Addr>
        ensures { result ≡ slice_get (words_reached self.now) i }
    {
        self.words.get(i).copied()
    }

    /// Whether a word is the address of one of the reached records.
    pub fn contains(&self, word: u32) -> bool
        ensures { AreReached self.now → result ≡ is_among (words_reached self.now) word }
    {
        self.known.contains(&word)
    }

    /// The addresses of the reached records.
    pub fn as_slice(&self) -> &[Addr]
        ensures { result.now ≡ words_reached self.now }
    {
        self.words.as_slice()
    }

    /// Where the records of each of the 65536 buckets end among the reached ones: they begin where those of the bucket
    /// before end.
    pub fn bucket_ends(&self) -> &[u32]
        ensures { result.now ≡ self.now.ends.items }
    {
        self.ends.as_slice()
    }

    /// For each of the 65536 buckets, whether its chain ends at the word 0.
    pub fn closed_buckets(&self) -> &[bool]
        ensures { result.now ≡ self.now.closed.items }
    {
        self.closed.as_slice()
    }

    // No record is reached.
    fn none(alloc: Global) -> Reached
        ensures reached { AreReached result }
        ensures none { words_reached result ≡ [] }
        ensures ends { result.ends.items ≡ [] }
        ensures closed { result.closed.items ≡ [] }
    {
        Reached {
            words: Vec::new(alloc),
            met: Claims::new(alloc),
            known: BTreeSet::new(alloc),
            ends: Vec::new(alloc),
            closed: Vec::new(alloc),
        }
    }

    // Whether the first block of a record was met.
    pub(crate) fn has(&self, addr: Addr) -> bool
        requires kind { kind_of addr ≡ blocks_256 }
        requires reached { AreReached self.now }
        ensures { result ≡ is_block_met (words_reached self.now) addr }
    {
        self.met.has(first_of_record(addr))
    }

    // Adds a record whose first block was not met.
    pub(crate) fn add(&mut self, addr: Addr) -> Result<(), NoMemory>
        requires kind { kind_of addr ≡ blocks_256 }
        requires reached { AreReached self.old }
        requires fresh { is_block_met (words_reached self.old) addr ≡ false }
        ensures reached { OnOk result (AreReached self.new) }
        ensures added { OnOk result (words_reached self.new ≡ words_reached self.old ++ addr ∷ []) }
        ensures ends { OnOk result (KeepsEnds self.old self.new) }
    {
        self.met.add(first_of_record(addr))?;
        self.known.insert(addr.word())?;
        self.words.push(addr)?;
        Ok(())
    }

    // Ends the next bucket after the records that were reached.
    fn end_bucket(&mut self, closed: bool) -> Result<(), NoMemory>
        requires reached { AreReached self.old }
        ensures reached { OnOk result (AreReached self.new) }
        ensures words { OnOk result (words_reached self.new ≡ words_reached self.old) }
        ensures ends { OnOk result (self.new.ends.items ≡ self.old.ends.items ++ length (words_reached self.old) ∷ []) }
        ensures closed { OnOk result (self.new.closed.items ≡ self.old.closed.items ++ closed ∷ []) }
    {
        let Ok(end) = u32::try_from(self.words.as_slice().len()) else {
            return Err(NoMemory);
        };
        self.ends.push(end)?;
        self.closed.push(closed)?;
        Ok(())
    }
}

/// Follows the chain of each bucket, bucket after bucket. Nothing is written, and every chain ends.
///
/// One call reads 16384 words of the table. Of the records, those whose first block is in `named` are read 128 blocks by one
/// call, and each other one by a call of its own, so `named` changes the cost and not the result. A failed check is a read that
/// gave too few bytes; a folder whose files are those of `files` gives none. `Device` comes only where the folder failed in this
/// call.
pub fn chains<F: Folder>(
    alloc: Global,
    folder: &mut F,
    files: &BlockFiles,
    named: &Claims,
) -> Result<Reached, ScanFault>
    ensures reached { OkFor result (F.told folder.old) (ReachesAllChains files.now) }
    ensures buckets { OkFor result (F.told folder.old) (λ reached image. Agrees files.now image → AreBucketsOf (store_of image) reached) }
    ensures met { IfOk result AreReached }
    ensures stand { IfOk result (λ reached. RecordsStand files.now (words_reached reached)) }
    ensures ends { IfOk result HasBuckets }
    ensures checked { OkFor result (F.told folder.old) (λ reached image. AreChainsThere files.now image (words_reached reached)) }
    ensures reads { ReadsOnly F.told F.faults folder.old folder.new (IfScanDevice result) }

    // An observable folder reports corruption only where its index is too short or the block files don't agree with it.
    ensures damaged { IfScanDamaged result (IsChainsDamage files.now (F.told folder.new)) }
    ensures untold { ScanUndamagedWhere result (F.told folder.old) (IsOpen files.now) }
{
    let records = read_records(alloc, folder, files, named)?;
    chains_over(alloc, folder, files, &records)
}

// Follows the chains, where these records were read before.
pub(crate) fn chains_over<F: Folder>(
    alloc: Global,
    folder: &mut F,
    files: &BlockFiles,
    records: &Records,
) -> Result<Reached, ScanFault>
    requires records { ForSome (F.told folder.old).files (λ image. AreRecordsOf image records.now) }
    ensures reached { OkFor result (F.told folder.old) (ReachesAllChains files.now) }
    ensures buckets { OkFor result (F.told folder.old) (λ reached image. Agrees files.now image → AreBucketsOf (store_of image) reached) }
    ensures met { IfOk result AreReached }
    ensures stand { IfOk result (λ reached. RecordsStand files.now (words_reached reached)) }
    ensures ends { IfOk result HasBuckets }
    ensures checked { OkFor result (F.told folder.old) (λ reached image. AreChainsThere files.now image (words_reached reached)) }
    ensures reads { ReadsOnly F.told F.faults folder.old folder.new (IfScanDevice result) }
    ensures damaged { IfScanDamaged result (IsChainsDamage files.now (F.told folder.new)) }
    ensures untold { ScanUndamagedWhere result (F.told folder.old) (IsOpen files.now) }
{
    let mut reached = Reached::none(alloc);
    for piece in 0..PIECES {
        let first = piece * BUCKETS_OF_PIECE as u16;
        follow_piece(folder, files, records, first, &mut reached)?;
    }
    Ok(reached)
}

// Follows the chains of a piece of the table, from a bucket one on, where those before it were followed.
fn follow_piece<F: Folder>(
    folder: &mut F,
    files: &BlockFiles,
    records: &Records,
    first: u16,
    reached: &mut Reached,
) -> Result<(), ScanFault>
    requires inside { first + buckets_of_piece ≤ table_length }
    requires records { ForSome (F.told folder.old).files (λ image. AreRecordsOf image records.now) }
    requires met { AreReached reached.old }
    requires there { ForSome (F.told folder.old).files (HasFirstChains files.now reached.old first) }
    requires before { ForSome (F.told folder.old).files (FollowsFirst files.now first reached.old) }
    requires stand { RecordsStand files.now (words_reached reached.old) }
    requires many { length reached.old.ends.items ≡ first }
    ensures met { OnOk result (AreReached reached.new) }
    ensures checked { OnOk result (ForSome (F.told folder.old).files (HasFirstChains files.now reached.new (first + buckets_of_piece))) }
    ensures table { OnOk result (ForSome (F.told folder.old).files (λ image. HasRange image index (place_of_bucket first) table_piece_length)) }
    ensures reached { OnOk result (ForSome (F.told folder.old).files (FollowsFirst files.now (first + buckets_of_piece) reached.new)) }
    ensures stand { OnOk result (RecordsStand files.now (words_reached reached.new)) }
    ensures many { OnOk result (length reached.new.ends.items ≡ first + buckets_of_piece) }
    ensures reads { ReadsOnly F.told F.faults folder.old folder.new (IfScanDevice result) }
    ensures damaged { IfScanDamaged result (IsChainsDamage files.now (F.told folder.new)) }
    ensures untold { ScanUndamagedWhere result (F.told folder.new) (IsOpen files.now) }
{
    let mut table = [0u32; BUCKETS_OF_PIECE];
    buckets(folder, first, &mut table)?;
    follow_all(folder, files, records, first, &table, reached)?;
    Ok(())
}

// Follows the chains of neighbouring buckets from one on, by their words of the table.
fn follow_all<F: Folder>(
    folder: &mut F,
    files: &BlockFiles,
    records: &Records,
    first: u16,
    table: &[u32],
    reached: &mut Reached,
) -> Result<(), ScanFault>
    requires inside { first + length table.now ≤ table_length }
    requires records { ForSome (F.told folder.old).files (λ image. AreRecordsOf image records.now) }
    requires words { ForSome (F.told folder.old).files (λ image. AreBuckets image first table.now) }
    requires met { AreReached reached.old }
    requires there { ForSome (F.told folder.old).files (HasFirstChains files.now reached.old first) }
    requires before { ForSome (F.told folder.old).files (FollowsFirst files.now first reached.old) }
    requires stand { RecordsStand files.now (words_reached reached.old) }
    requires many { length reached.old.ends.items ≡ first }
    ensures met { OnOk result (AreReached reached.new) }
    ensures checked { OnOk result (ForSome (F.told folder.old).files (HasFirstChains files.now reached.new (first + length table.now))) }
    ensures reached { OnOk result (ForSome (F.told folder.old).files (FollowsFirst files.now (first + length table.now) reached.new)) }
    ensures stand { OnOk result (RecordsStand files.now (words_reached reached.new)) }
    ensures many { OnOk result (length reached.new.ends.items ≡ first + length table.now) }
    ensures reads { ReadsOnly F.told F.faults folder.old folder.new (IfScanDevice result) }
    ensures damaged { IfScanDamaged result (IsRecordDamage files.now (F.told folder.new)) }
    ensures untold { ScanUndamagedWhere result (F.told folder.new) (Agrees files.now) }
{
    for i in 0..table.len() {
        let bucket = u32::from(first) + i as u32;
        let end = follow(folder, files, records, bucket, table[i], reached)?;
        reached.end_bucket(end == 0)?;
    }
    Ok(())
}
