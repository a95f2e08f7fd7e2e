// The nodes and the records of what is kept whose checksum is absent.
ghost use Rattle.std.specs.Prelude.{◌≡◌, ◌++◌, [], ◌∷◌, All, IfOk, None, OnOk, Some};
ghost use Rattle.std.specs.BTreeSet.{contains};
ghost use Rattle.std.specs.Option.{ForSome};
ghost use Rattle.std.specs.Ordering.{nat_cmp};
ghost use Rattle.spec_image.specs.Told.{ReadsOnly};
ghost use Rattle.blk_io.specs.Faults.{OkFor};
ghost use Rattle.blk_disk.specs.Tables.{Agrees};
ghost use Rattle.blk_audit.specs.Faults.{IfScanDamaged, IfScanDevice, IsRecordDamage};
ghost use Rattle.blk_audit.specs.Sealable.{CanBeSealed};
ghost use Rattle.blk_audit.specs.Walking.{NodesStand, nodes_walked};
ghost use Rattle.blk_scan.specs.Bare.{bare_of_kept};
ghost use Rattle.blk_scan.specs.Scans.{AreBare};
ghost use Rattle.blk_scan.specs.Clauses.{ForKeptIn, ForTablesOf, AreBareNodes, AddsBareNode, AddsBareRecords, AddsBareRecord};

use crate::sets::{entries_of, set_of};
use crate::telling::nodes_of;
use blk_addr::{Addr, NoMemory};
use blk_audit::{Lists, ScanFault};
use blk_disk::BlockFiles;
use blk_io::Folder;
use blk_verdict::Loaded;
use std::alloc::Global;
use std::collections::BTreeSet;

// The nodes and the records of some kept ones whose checksum is absent (0).
//
// One folder call reads each of the records that was not read with the lists.
pub(crate) fn bare_of<F: Folder>(
    alloc: Global,
    folder: &mut F,
    files: &BlockFiles,
    lists: &Lists,
    records: &[Loaded],
) -> Result<Vec<Addr>, ScanFault>
    requires nodes { NodesStand files.now (nodes_walked lists.now.walked) }
    ensures bare { OkFor result (F.told folder.old) (λ bare. ForKeptIn files.now lists.now records.now (λ image. AreBare image bare.items)) }
    ensures exact { OkFor result (F.told folder.old) (λ bare. ForKeptIn files.now lists.now records.now (λ image. bare.items ≡ bare_of_kept image)) }
    ensures stand { IfOk result (λ bare. All (CanBeSealed files.now) bare.items) }
    ensures reads { ReadsOnly F.told F.faults folder.old folder.new (IfScanDevice result) }
    ensures damaged { IfScanDamaged result (IsRecordDamage files.now (F.told folder.new)) }
    ensures untold { ForSome (F.told folder.old).files (Agrees files.now) → IfScanDamaged result (λ _. (F.told folder.old).files ≡ None) }
{
    let nodes = nodes_of(alloc, records)?;
    let kept = set_of(alloc, &nodes)?;
    let mut bare = bare_nodes(alloc, lists, &kept)?;
    let entries = entries_of(alloc, records)?;
    add_records(folder, files, lists, &entries, &mut bare)?;
    Ok(bare)
}

// Those of the walked nodes that are kept and whose checksum is absent.
fn bare_nodes(alloc: Global, lists: &Lists, kept: &BTreeSet<u32>) -> Result<Vec<Addr>, NoMemory>
    ensures bare { IfOk result (λ bare. AreBareNodes lists.now (contains nat_cmp kept.now) bare.items) }
    ensures stand { IfOk result (λ bare. ForTablesOf lists.now (λ files. All (CanBeSealed files) bare.items)) }
{
    let mut bare = Vec::new(alloc);
    for i in 0..lists.walked.count() {
        add_node(lists, kept, i, &mut bare)?;
    }
    Ok(bare)
}

// Adds one of the walked nodes, if it is kept and its checksum is absent.
fn add_node(
    lists: &Lists,
    kept: &BTreeSet<u32>,
    i: usize,
    bare: &mut Vec<Addr>,
) -> Result<(), NoMemory>
    ensures added { OnOk result (AddsBareNode lists.now i (contains nat_cmp kept.now) bare.old.items bare.new.items) }
    ensures stand { OnOk result (ForTablesOf lists.now (λ files. All (CanBeSealed files) bare.old.items → All (CanBeSealed files) bare.new.items)) }
{
    let Some(node) = lists.walked.at(i) else {
        return Ok(());
    };
    let Some(here) = lists.node(i) else {
        return Ok(());
    };
    if kept.contains(&node.word()) && here.bare {
        bare.push(node)?;
    }
    Ok(())
}

// Adds those of some records whose checksum is absent.
fn add_records<F: Folder>(
    folder: &mut F,
    files: &BlockFiles,
    lists: &Lists,
    entries: &[Addr],
    bare: &mut Vec<Addr>,
) -> Result<(), ScanFault>
    ensures added { OnOk result (ForSome (F.told folder.old).files (AddsBareRecords files.now lists.now entries.now bare.old.items bare.new.items)) }
    ensures stand { OnOk result (All (CanBeSealed files.now) bare.old.items → All (CanBeSealed files.now) bare.new.items) }
    ensures reads { ReadsOnly F.told F.faults folder.old folder.new (IfScanDevice result) }
    ensures damaged { IfScanDamaged result (IsRecordDamage files.now (F.told folder.new)) }
    ensures untold { ForSome (F.told folder.old).files (Agrees files.now) → IfScanDamaged result (λ _. (F.told folder.old).files ≡ None) }
{
    for i in 0..entries.len() {
        add_record(folder, files, lists, entries[i], bare)?;
    }
    Ok(())
}

// Adds a record, if it is valid and its checksum is absent.
fn add_record<F: Folder>(
    folder: &mut F,
    files: &BlockFiles,
    lists: &Lists,
    entry: Addr,
    bare: &mut Vec<Addr>,
) -> Result<(), ScanFault>
    ensures added { OnOk result (ForSome (F.told folder.old).files (AddsBareRecord files.now lists.now entry bare.old.items bare.new.items)) }
    ensures stand { OnOk result (All (CanBeSealed files.now) bare.old.items → All (CanBeSealed files.now) bare.new.items) }
    ensures reads { ReadsOnly F.told F.faults folder.old folder.new (IfScanDevice result) }
    ensures damaged { IfScanDamaged result (IsRecordDamage files.now (F.told folder.new)) }
    ensures untold { ForSome (F.told folder.old).files (Agrees files.now) → IfScanDamaged result (λ _. (F.told folder.old).files ≡ None) }
{
    let Some(standing) = files.entry(entry.word()) else {
        return Ok(());
    };
    let said = lists.record_at(folder, files, standing)?;
    if said.words.bare {
        push(bare, standing)?;
    }
    Ok(())
}

// Adds a node or a record.
fn push(bare: &mut Vec<Addr>, one: Addr) -> Result<(), NoMemory>
    ensures { OnOk result (bare.new.items ≡ bare.old.items ++ one ∷ []) }
{
    bare.push(one)?;
    Ok(())
}
