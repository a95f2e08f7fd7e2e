// The consistency check of a folder.
ghost use Rattle.std.specs.Prelude.{◌≡◌, ◌≤◌, IfOk, None, length};
ghost use Rattle.std.specs.Option.{ForSome};
ghost use Rattle.spec_image.specs.Told.{ReadsOnly};
ghost use Rattle.spec_format.specs.BlockFiles.{IsDamagedBy, IsUsable, IsWellFormed, first_block_damage};
ghost use Rattle.spec_format.specs.Headers.{IsUnfinished};
ghost use Rattle.spec_folder.specs.ListView.{most_nodes};
ghost use Rattle.blk_io.specs.Faults.{damage_of, OkFor};
ghost use Rattle.blk_disk.specs.declared.tables.BlockFiles.{BlockFiles as Files};
ghost use Rattle.blk_disk.specs.Open.{IsOpen};
ghost use Rattle.blk_disk.specs.Tables.{Agrees};
ghost use Rattle.blk_audit.specs.Chaining.{HasBuckets};
ghost use Rattle.blk_audit.specs.Faults.{IfScanDamaged, IfScanDevice};
ghost use Rattle.blk_audit.specs.ReadLists.{AreListsAmong};
ghost use Rattle.blk_scan.specs.Bare.{bare_of_kept};
ghost use Rattle.blk_scan.specs.Faults.{IsBlocksDamage, IsFolderDamage, IsScanDamage};
ghost use Rattle.blk_scan.specs.Scans.{AreBare, ChainsStandIf, IsEmptyScan, IsExactScan, IsScanOf, StandAmong};
ghost use Rattle.blk_scan.specs.Clauses.{ForToldBy, IsFirstBlockDamage};

use crate::bare::bare_of;
use crate::chains::kept_chains;
use crate::ordering::{Ordered, order};
use crate::scan::Scan;
use crate::telling::{add_unlisted, kept_of, nodes_of};
use blk_addr::{Addr, NoMemory};
use blk_audit::{Lists, ScanFault, read_lists};
use blk_disk::BlockFiles;
use blk_index::{Start, look};
use blk_io::Folder;
use blk_verdict::{Judged, charge_of_all, judge_nodes, unlisted};
use std::alloc::Global;

/// Reports what a folder holds, as it is once its operation in flight is redone. An uninitialized folder holds nothing. Nothing is written.
///
/// The index is looked at; where it is initialized the block files are loaded, and the folder is scanned by them. The folder
/// calls are those of `look`, `BlockFiles::load` and `scan_files`.
///
/// # Errors
///
/// `Damaged` with the first check of the index and of the headers of the block files that fails; an observable folder reports
/// no other failed check. `Device` where the folder failed in this call, and `Memory` when out of memory.
pub fn scan_folder<F: Folder>(alloc: Global, folder: &mut F) -> Result<Scan, ScanFault>
    ensures scanned { OkFor result (F.told folder.old) (λ scan image. IsWellFormed image → IsScanOf image scan) }
    ensures exact { OkFor result (F.told folder.old) (λ scan image. IsWellFormed image → IsExactScan image scan) }
    ensures empty { OkFor result (F.told folder.old) (λ scan image. IsUnfinished image → IsEmptyScan scan) }
    ensures few { IfOk result (λ scan. length scan.walked.items ≤ most_nodes) }
    ensures checked { IfOk result (λ _. ForSome (F.told folder.old).files IsUsable) }
    ensures reads { ReadsOnly F.told F.faults folder.old folder.new (IfScanDevice result) }

    // An observable folder reports corruption only where a check of its headers fails: the first that does.
    ensures damaged { IfScanDamaged result (λ damage. ForSome (F.told folder.old).files (IsDamagedBy (damage_of damage))) }

    // The cause of a failed check, which holds for an opaque folder too.
    ensures cause { IfScanDamaged result (IsFolderDamage (F.told folder.old)) }
{
    match look(folder)? {
        Start::Unfinished => Ok(Scan::empty(alloc)),
        Start::Finished => scan_finished(alloc, folder),
    }
}

// Reports what a folder holds whose index is initialized.
fn scan_finished<F: Folder>(alloc: Global, folder: &mut F) -> Result<Scan, ScanFault>
    ensures scanned { OkFor result (F.told folder.old) (λ scan image. IsScanOf image scan) }
    ensures exact { OkFor result (F.told folder.old) (λ scan image. IsExactScan image scan) }
    ensures few { IfOk result (λ scan. length scan.walked.items ≤ most_nodes) }
    ensures checked { OkFor result (F.told folder.old) (λ _ image. first_block_damage image ≡ None) }
    ensures reads { ReadsOnly F.told F.faults folder.old folder.new (IfScanDevice result) }
    ensures damaged { IfScanDamaged result (λ damage. ForSome (F.told folder.old).files (IsFirstBlockDamage damage)) }
    ensures cause { IfScanDamaged result (IsBlocksDamage (F.told folder.old)) }
{
    let files = BlockFiles::load(folder)?;
    scan_files(alloc, folder, &files)
}

/// Reports what a folder holds whose block files were loaded, as it is once its operation in flight is redone. Nothing is written.
///
/// The folder calls are those of `read_lists`, `judge_nodes` and `unlisted`. A failed check is a read that gave too few
/// bytes; a folder whose files are those of `files` gives none. `Device` comes only where the folder failed in this
/// call, and `Memory` when out of memory.
pub fn scan_files<F: Folder>(
    alloc: Global,
    folder: &mut F,
    files: &BlockFiles,
) -> Result<Scan, ScanFault>
    ensures scanned { OkFor result (F.told folder.old) (λ scan image. Agrees files.now image → IsScanOf image scan) }
    ensures exact { OkFor result (F.told folder.old) (λ scan image. Agrees files.now image → IsExactScan image scan) }
    ensures stand { IfOk result (StandAmong files.now) }
    ensures few { IfOk result (λ scan. length scan.walked.items ≤ most_nodes) }
    ensures reads { ReadsOnly F.told F.faults folder.old folder.new (IfScanDevice result) }

    // An observable folder reports corruption only where its index is too short or the block files don't agree with it.
    ensures damaged { IfScanDamaged result (IsScanDamage files.now (F.told folder.new)) }
    ensures untold { ForSome (F.told folder.old).files (IsOpen files.now) → IfScanDamaged result (λ _. (F.told folder.old).files ≡ None) }
{
    let lists = read_lists(alloc, folder, files)?;
    let judged = judge_nodes(alloc, folder, files, &lists)?;
    let unlisted = unlisted(alloc, folder, files, &lists)?;
    let ordered = order(alloc, &lists, &judged)?;
    let bare = bare_of(alloc, folder, files, &lists, &ordered.records)?;
    let scan = tell(alloc, &lists, judged, ordered, &unlisted, bare)?;
    Ok(scan)
}

// What is reported of a folder by its lists and by what came of its walked nodes.
fn tell(
    alloc: Global,
    lists: &Lists,
    judged: Judged,
    ordered: Ordered,
    unlisted: &[Addr],
    bare: Vec<Addr>,
) -> Result<Scan, NoMemory>
    requires buckets { HasBuckets lists.now.reached }
    requires few { length ordered.records.items ≤ most_nodes }
    ensures told { IfOk result (λ scan. ForToldBy lists.now judged ordered unlisted.now (λ image. AreBare image bare.items → IsScanOf image scan)) }
    ensures exact { IfOk result (λ scan. ForToldBy lists.now judged ordered unlisted.now (λ image. bare.items ≡ bare_of_kept image → IsExactScan image scan)) }
    ensures walked { IfOk result (λ scan. scan.walked.items ≡ ordered.walked.items) }
    ensures bare { IfOk result (λ scan. scan.bare.items ≡ bare.items) }
    ensures chains { IfOk result (λ scan. (files : Files) → AreListsAmong files lists.now → ChainsStandIf files scan.chains) }
{
    let kept = kept_of(alloc, &ordered.records)?;
    let kept_nodes = nodes_of(alloc, &ordered.records)?;
    let chains = kept_chains(alloc, &lists.reached, &ordered.records)?;
    let bytes = charge_of_all(&ordered.records);
    let mut dropped = ordered.dropped;
    add_unlisted(&mut dropped, unlisted)?;
    Ok(Scan {
        walked: ordered.walked,
        kept,
        kept_nodes,
        dropped,
        claims: judged.kept.into_claims(),
        bytes,
        chains,
        bare,
    })
}
