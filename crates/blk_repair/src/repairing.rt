// The whole recovery of a folder.
ghost use Rattle.std.specs.Prelude.{◌≡◌, ◌%◌, ◌^◌, ℕ, None, OnOk, OnErr, All};
ghost use Rattle.std.specs.Option.{ForSome};
ghost use Rattle.spec_image.specs.Image.{Image};
ghost use Rattle.spec_image.specs.Told.{MayWrite};
ghost use Rattle.spec_format.specs.Session.{session_after};
ghost use Rattle.blk_io.specs.Faults.{IfDamaged, IfDevice, UndamagedWhere};
ghost use Rattle.blk_disk.specs.Open.{IsOpen};
ghost use Rattle.blk_disk.specs.Tables.{all_files, files_of};
ghost use Rattle.blk_alloc.specs.Extending.{KeepsStanding};
ghost use Rattle.blk_alloc.specs.Rebuilding.{AreFitted, IsShortReadOf};
ghost use Rattle.blk_audit.specs.Sealable.{CanBeSealed};
ghost use Rattle.law_recovery.specs.ChainRepair.{AreChainsMended, chain_repair_steps};
ghost use Rattle.law_recovery.specs.ListRepair.{HoldsTheSame};
ghost use Rattle.law_recovery.specs.Mended.{HasMendedFiles, HasOnlyKeptFiles};
ghost use Rattle.law_recovery.specs.MendedChanges.{IsMidRepair};
ghost use Rattle.law_recovery.specs.MendedLinks.{HasMendedLinks};
ghost use Rattle.blk_scan.specs.Scans.{ChainsStandIf, StandAmong};
ghost use Rattle.blk_repair.specs.Damages.{IsChainsRepairDamage};
ghost use Rattle.blk_repair.specs.Deletions.{DeletesOthers};
ghost use Rattle.blk_repair.specs.Parts.{AppliesOf};
ghost use Rattle.blk_repair.specs.Repair.{AreBucketsScanned, AreLinksMended, AreOnlyKeptLeft, AreOthersDeleted, IsBehindRepairDamage, IsLinksRepairDamage, IsNextFinished, IsRepairDamage, IsRepairable, IsRepaired, IsRepairedFor, IsRestRepairDamage, MendsFiles, MendsLinks, MendsRest};
ghost use Rattle.blk_repair.specs.RepairClauses.{DoesAll, EndsOrStopsRepair, EndsRepair, ForEntry, Leaves, OnImage, RepairsAll, RepairsBehind, SetsOnlyWords, StaysWhere, StaysWhereBoth, StopsWith, Where, WhereRebuilt, next_id_of};

use crate::counters::mend_index;
use crate::deletions::{delete_unclaimed, delete_unlinked};
use crate::list::mend_list;
use crate::maps::mend_files;
use crate::seals::seal_records;
use crate::tables::mend_chains;
use blk_addr::Claims;
use blk_disk::BlockFiles;
use blk_index::word;
use blk_io::{Failed, Fault, Folder};
use blk_record::{IndexHead, WORD_VALUES};
use blk_scan::Scan;

/// Recovers a folder by what its scan reported: the LRU list, the chains, the block files, the files that nothing names, the checksums, and the words of the
/// index. The last step sets the crash word to 1, in a session with the next number.
///
/// It takes no memory and walks nothing. At each word kept records and recovered contents are the same, so it may crash anywhere and be begun
/// again. A failed check is one of a part. An observable folder gives none where the scan is its own.
pub fn repair<F: Folder>(f: &mut F, files: &mut BlockFiles, scan: &Scan) -> Result<(), Fault>
    requires stand { StandAmong files.old scan.now }
    requires is_open { ForSome (F.told f.old).files (IsOpen files.old) }

    // In any case the same files are linked, and what was valid still is.
    ensures all { (kind : ℕ) → files_of files.new kind ≡ files_of files.old kind }
    ensures keeps { KeepsStanding files.old files.new }

    // In the end each linked file has its length, or exactly that of its header and blocks where this is greater.
    ensures fitted { OnOk result (AreFitted files.old files.new) }

    // With the scan of a well-formed folder nothing is left to repair in the end, and at each word the kept
    // records and the recovered contents are the same.
    ensures mended { OnOk result (Where F.told f.old f.new (IsRepairable scan.now) (Leaves IsRepaired)) }

    // Where the recovery is cut short, the crash word wasn't written, or the last step wrote it, and all is repaired as at the end.
    ensures stops { Where F.told f.old f.new (IsRepairable scan.now) (λ from. EndsOrStopsRepair (next_id_of from) from) }

    // The steps are those of the parts, in their order; the last makes the crash word 1, and no other writes inside it.
    ensures steps { OnOk result (Where F.told f.old f.new (IsRepairable scan.now) (λ from. RepairsAll files.old scan.now (next_id_of from) from)) }
    ensures last { OnOk result (Where F.told f.old f.new (IsRepairable scan.now) (λ from. EndsRepair (next_id_of from) from)) }

    ensures is_open { ForSome (F.told f.new).files (IsOpen files.new) }

    // Where nothing else is to be repaired, the only steps are those of the words of the index.
    ensures clean { OnOk result (Where F.told f.old f.new (IsRepairable scan.now) (λ from. SetsOnlyWords scan.now (next_id_of from) from from)) }

    // An observable folder reports corruption only where the scan isn't its own.
    ensures damaged { IfDamaged result (IsRepairDamage files.new (F.told f.new)) }
    ensures untold { UndamagedWhere result (F.told f.old) (IsRepairable scan.now) }

    ensures writes { MayWrite F.told F.faults f.old f.new (IfDevice result) }
{
    let this_id = word(f, IndexHead::THIS_ID)?;
    mend_all(f, files, scan, next_id(this_id))
}

// The session's number after this one: never 0.
fn next_id(this_id: u32) -> u32
    ensures { result ≡ session_after this_id }
{
    match this_id.wrapping_add(1) {
        0 => 1,
        next => next,
    }
}

// Recovers the links, and then all the rest, for a session with this number.
fn mend_all<F: Folder>(
    folder: &mut F,
    files: &mut BlockFiles,
    scan: &Scan,
    this_id: u32,
) -> Result<(), Fault>
    requires stand { StandAmong files.old scan.now }
    requires is_open { ForSome (F.told folder.old).files (IsOpen files.old) }
    ensures all { (kind : ℕ) → files_of files.new kind ≡ files_of files.old kind }
    ensures keeps { KeepsStanding files.old files.new }
    ensures fitted { OnOk result (AreFitted files.old files.new) }
    ensures mended { OnOk result (Where F.told folder.old folder.new (IsRepairable scan.now) (Leaves (IsRepairedFor this_id))) }
    ensures stops { Where F.told folder.old folder.new (IsRepairable scan.now) (EndsOrStopsRepair this_id) }
    ensures last { OnOk result (Where F.told folder.old folder.new (IsRepairable scan.now) (EndsRepair this_id)) }
    ensures steps { OnOk result (Where F.told folder.old folder.new (IsRepairable scan.now) (RepairsAll files.old scan.now this_id)) }
    ensures is_open { ForSome (F.told folder.new).files (IsOpen files.new) }
    ensures clean { OnOk result (Where F.told folder.old folder.new (IsRepairable scan.now) (λ from. SetsOnlyWords scan.now this_id from from)) }
    ensures damaged { IfDamaged result (IsRepairDamage files.new (F.told folder.new)) }
    ensures untold { UndamagedWhere result (F.told folder.old) (IsRepairable scan.now) }
    ensures writes { MayWrite F.told F.faults folder.old folder.new (IfDevice result) }
{
    mend_links(folder, files, scan)?;
    mend_behind(folder, files, scan, this_id)
}

// Recovers what comes after the links: the files, and then the rest.
fn mend_behind<F: Folder>(
    folder: &mut F,
    files: &mut BlockFiles,
    scan: &Scan,
    this_id: u32,
) -> Result<(), Fault>
    requires stand { All (CanBeSealed files.old) scan.now.bare.items }
    requires is_open { ForSome (F.told folder.old).files (IsOpen files.old) }
    ensures all { (kind : ℕ) → files_of files.new kind ≡ files_of files.old kind }
    ensures keeps { KeepsStanding files.old files.new }
    ensures fitted { OnOk result (AreFitted files.old files.new) }
    ensures mended { OnOk result (ForEntry F.told folder.old folder.new (AreLinksMended scan.now) (λ entry from. Leaves (IsRepairedFor this_id) entry)) }
    ensures stops { ForEntry F.told folder.old folder.new (AreLinksMended scan.now) (λ entry from. EndsOrStopsRepair this_id entry) }
    ensures last { OnOk result (ForEntry F.told folder.old folder.new (AreLinksMended scan.now) (λ entry from. EndsRepair this_id entry)) }
    ensures steps { OnOk result (ForEntry F.told folder.old folder.new (AreLinksMended scan.now) (RepairsBehind files.old scan.now this_id)) }
    ensures is_open { ForSome (F.told folder.new).files (IsOpen files.new) }
    ensures clean { OnOk result (ForEntry F.told folder.old folder.new (AreLinksMended scan.now) (SetsOnlyWords scan.now this_id)) }
    ensures damaged { IfDamaged result (IsBehindRepairDamage files.new (F.told folder.new)) }
    ensures untold { UndamagedWhere result (F.told folder.old) (λ from. (entry : Image) × AreLinksMended scan.now entry from) }
    ensures writes { MayWrite F.told F.faults folder.old folder.new (IfDevice result) }
{
    mend_store(folder, files, scan.claims())?;
    mend_rest(folder, files, scan, this_id)
}

// Rebuilds the block files from what is used, and then deletes the files that nothing names.
fn mend_store<F: Folder>(
    folder: &mut F,
    files: &mut BlockFiles,
    claims: &Claims,
) -> Result<(), Fault>
    requires is_open { ForSome (F.told folder.old).files (IsOpen files.old) }
    ensures all { (kind : ℕ) → files_of files.new kind ≡ files_of files.old kind }
    ensures keeps { KeepsStanding files.old files.new }
    ensures fitted { OnOk result (AreFitted files.old files.new) }
    ensures mended { OnOk result (WhereRebuilt F.told folder.old folder.new claims.now (λ entry. Leaves (AreOnlyKeptLeft entry))) }
    ensures stops { WhereRebuilt F.told folder.old folder.new claims.now (λ entry from. StopsWith IsMidRepair entry) }
    ensures steps { OnOk result (OnImage F.told folder.old folder.new (AppliesOf (MendsFiles files.old claims.now))) }
    ensures is_open { ForSome (F.told folder.new).files (IsOpen files.new) }
    ensures clean { OnOk result (WhereRebuilt F.told folder.old folder.new claims.now (λ entry. StaysWhereBoth HasMendedFiles HasOnlyKeptFiles)) }
    ensures damaged { IfDamaged result (IsShortReadOf (F.told folder.new) (all_files files.new)) }
    ensures untold { IfDamaged result (λ _. (F.told folder.old).files ≡ None) }
    ensures writes { MayWrite F.told F.faults folder.old folder.new (IfDevice result) }
{
    mend_files(folder, files, claims)?;
    delete_others(folder, files, claims)?;
    Ok(())
}

// Deletes the block files that aren't linked, and then the external files that aren't used.
fn delete_others<F: Folder>(
    folder: &mut F,
    files: &BlockFiles,
    claims: &Claims,
) -> Result<(), Failed>
    requires is_open { ForSome (F.told folder.old).files (IsOpen files.now) }
    ensures mended { OnOk result (WhereRebuilt F.told folder.old folder.new claims.now (λ entry. Leaves (AreOthersDeleted entry))) }
    ensures stops { WhereRebuilt F.told folder.old folder.new claims.now (λ entry from. StopsWith IsMidRepair entry) }
    ensures steps { OnOk result (OnImage F.told folder.old folder.new (AppliesOf (DeletesOthers files.now claims.now))) }
    ensures is_open { ForSome (F.told folder.new).files (IsOpen files.now) }
    ensures clean { OnOk result (WhereRebuilt F.told folder.old folder.new claims.now (λ entry. StaysWhere HasOnlyKeptFiles)) }
    ensures writes { MayWrite F.told F.faults folder.old folder.new (OnErr result) }
{
    delete_unlinked(folder, files)?;
    delete_unclaimed(folder, claims)
}

// Recovers the LRU list, and then the chains.
fn mend_links<F: Folder>(folder: &mut F, files: &BlockFiles, scan: &Scan) -> Result<(), Fault>
    requires stand { StandAmong files.now scan.now }
    requires is_open { ForSome (F.told folder.old).files (IsOpen files.now) }
    ensures mended { OnOk result (Where F.told folder.old folder.new (IsRepairable scan.now) (Leaves (AreLinksMended scan.now))) }
    ensures stops { Where F.told folder.old folder.new (IsRepairable scan.now) (StopsWith IsMidRepair) }
    ensures steps { OnOk result (Where F.told folder.old folder.new (IsRepairable scan.now) (AppliesOf MendsLinks)) }
    ensures is_open { ForSome (F.told folder.new).files (IsOpen files.now) }
    ensures clean { OnOk result (Where F.told folder.old folder.new (IsRepairable scan.now) (StaysWhere HasMendedLinks)) }
    ensures damaged { IfDamaged result (IsLinksRepairDamage files.now (F.told folder.new)) }
    ensures untold { UndamagedWhere result (F.told folder.old) (IsRepairable scan.now) }
    ensures writes { MayWrite F.told F.faults folder.old folder.new (IfDevice result) }
{
    mend_list(folder, files, scan.walked_nodes(), scan.kept_nodes())?;
    mend_buckets(folder, files, scan)
}

// Gives each bucket exactly the chain of its kept records, where the scan reports one that hasn't.
fn mend_buckets<F: Folder>(folder: &mut F, files: &BlockFiles, scan: &Scan) -> Result<(), Fault>
    requires stand { ChainsStandIf files.now scan.now.chains }
    requires is_open { ForSome (F.told folder.old).files (IsOpen files.now) }
    ensures mended { OnOk result (Where F.told folder.old folder.new (AreBucketsScanned scan.now.chains) (Leaves AreChainsMended)) }
    ensures stops { Where F.told folder.old folder.new (AreBucketsScanned scan.now.chains) (StopsWith HoldsTheSame) }
    ensures steps { OnOk result (Where F.told folder.old folder.new (AreBucketsScanned scan.now.chains) (DoesAll chain_repair_steps)) }
    ensures is_open { ForSome (F.told folder.new).files (IsOpen files.now) }
    ensures clean { OnOk result (Where F.told folder.old folder.new (AreBucketsScanned scan.now.chains) (StaysWhere HasMendedLinks)) }
    ensures damaged { IfDamaged result (IsChainsRepairDamage files.now (F.told folder.new)) }
    ensures untold { UndamagedWhere result (F.told folder.old) (AreBucketsScanned scan.now.chains) }
    ensures writes { MayWrite F.told F.faults folder.old folder.new (IfDevice result) }
{
    match scan.chains() {
        Some(chains) => mend_chains(
            folder,
            files,
            chains.records(),
            chains.ends(),
            chains.whole(),
        ),
        None => Ok(()),
    }
}

// Writes the missing checksums of what is kept, and sets the words of the index.
fn mend_rest<F: Folder>(
    folder: &mut F,
    files: &BlockFiles,
    scan: &Scan,
    this_id: u32,
) -> Result<(), Fault>
    requires stand { All (CanBeSealed files.now) scan.now.bare.items }
    requires is_open { ForSome (F.told folder.old).files (IsOpen files.now) }
    ensures mended { OnOk result (ForEntry F.told folder.old folder.new (IsNextFinished scan.now) (λ entry from. Leaves (IsRepairedFor this_id) entry)) }
    ensures stops { ForEntry F.told folder.old folder.new (IsNextFinished scan.now) (λ entry from. EndsOrStopsRepair this_id entry) }
    ensures last { OnOk result (ForEntry F.told folder.old folder.new (IsNextFinished scan.now) (λ entry from. EndsRepair this_id entry)) }
    ensures steps { OnOk result (ForEntry F.told folder.old folder.new (IsNextFinished scan.now) (λ entry. AppliesOf (MendsRest scan.now entry this_id))) }
    ensures is_open { ForSome (F.told folder.new).files (IsOpen files.now) }
    ensures clean { OnOk result (ForEntry F.told folder.old folder.new (IsNextFinished scan.now) (SetsOnlyWords scan.now this_id)) }
    ensures damaged { IfDamaged result (IsRestRepairDamage files.now (F.told folder.new)) }
    ensures untold { UndamagedWhere result (F.told folder.old) (λ from. (entry : Image) × IsNextFinished scan.now entry from) }
    ensures writes { MayWrite F.told F.faults folder.old folder.new (IfDevice result) }
{
    seal_records(folder, files, scan.bare())?;
    let items = low_word(scan.items());
    let bytes = scan.bytes();
    mend_index(folder, items, bytes, this_id)
}

// A number modulo 2^32.
fn low_word(value: u64) -> u32
    ensures { result ≡ value % 2 ^ 32 }
{
    (value % WORD_VALUES) as u32
}
