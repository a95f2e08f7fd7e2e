// The LRU list and the chains are read.
ghost use Rattle.std.specs.Prelude.{◌≡◌, ◌≤◌, ◌<◌, ◌++◌, ◌∷◌, [], IfOk, OnOk, None, map, length};
ghost use Rattle.std.specs.List.{cons_option};
ghost use Rattle.std.specs.Option.{ForSome, option_map};
ghost use Rattle.spec_image.specs.Image.{Image};
ghost use Rattle.spec_image.specs.Told.{ReadsOnly};
ghost use Rattle.blk_io.specs.Faults.{OkFor};
ghost use Rattle.blk_disk.specs.Open.{IsOpen};
ghost use Rattle.blk_disk.specs.Tables.{Agrees};
ghost use Rattle.blk_audit.specs.BucketEnds as shown;
ghost use Rattle.blk_audit.specs.Chaining.{HasBuckets, RecordsStand, words_reached};
ghost use Rattle.blk_audit.specs.Faults.{IfScanDamaged, IfScanDevice, IsListsDamage, IsRecordDamage};
ghost use Rattle.blk_audit.specs.ReadLists.{AreListsOf};
ghost use Rattle.blk_audit.specs.Walking.{nodes_walked};
ghost use Rattle.blk_inspect.specs.Findings.{findings_text, node_row_at, node_row_said, record_row_at};
ghost use Rattle.blk_inspect.specs.Texts.{chain_text, list_text};

use crate::findings::Findings;
use crate::rows::{NodeRow, RecordRow};
use blk_addr::{Addr, NoMemory};
use blk_audit::{Lists, Reached, ScanFault, WalkedNode, read_lists};
use blk_disk::BlockFiles;
use blk_io::Folder;
use std::alloc::Global;

/// Reads the nodes of the LRU list, as it is once its operation in flight is redone.
pub(crate) fn read_list<F: Folder>(
    alloc: Global,
    folder: &mut F,
    files: &BlockFiles,
) -> Result<Findings, ScanFault>
    ensures found { OkFor result (F.told folder.old) (λ findings image. Agrees files.now image → findings_text findings ≡ list_text image) }
    ensures reads { ReadsOnly F.told F.faults folder.old folder.new (IfScanDevice result) }
    ensures damaged { IfScanDamaged result (IsListsDamage files.now (F.told folder.new)) }
    ensures untold { ForSome (F.told folder.old).files (IsOpen files.now) → IfScanDamaged result (λ _. (F.told folder.old).files ≡ None) }
{
    let lists = read_lists(alloc, folder, files)?;
    let rows = node_rows(alloc, &lists)?;
    Ok(Findings::Nodes(rows))
}

// The rows of the walked nodes.
fn node_rows(alloc: Global, lists: &Lists) -> Result<Vec<NodeRow>, NoMemory>
    ensures { IfOk result (λ rows. (image : Image) → AreListsOf image lists.now → rows.items ≡ map (node_row_at image) (nodes_walked lists.now.walked)) }
{
    let mut rows = Vec::new(alloc);
    for i in 0..lists.walked.count() {
        add_node(&mut rows, lists.node(i))?;
    }
    Ok(rows)
}

// Adds the row of a node, if there is one.
fn add_node(rows: &mut Vec<NodeRow>, node: Option<WalkedNode>) -> Result<(), NoMemory>
    ensures { OnOk result (rows.new.items ≡ rows.old.items ++ cons_option (option_map node_row_said node) []) }
{
    if let Some(node) = node {
        rows.push(NodeRow {
            node: node.addr.word(),
            contents: node.contents,
            dirty: node.dirty,
        })?;
    }
    Ok(())
}

/// Reads the records of the chain of a bucket.
pub(crate) fn read_chain<F: Folder>(
    alloc: Global,
    folder: &mut F,
    files: &BlockFiles,
    bucket: u16,
) -> Result<Findings, ScanFault>
    ensures found { OkFor result (F.told folder.old) (λ findings image. Agrees files.now image → findings_text findings ≡ chain_text bucket image) }
    ensures reads { ReadsOnly F.told F.faults folder.old folder.new (IfScanDevice result) }
    ensures damaged { IfScanDamaged result (IsListsDamage files.now (F.told folder.new)) }
    ensures untold { ForSome (F.told folder.old).files (IsOpen files.now) → IfScanDamaged result (λ _. (F.told folder.old).files ≡ None) }
{
    let lists = read_lists(alloc, folder, files)?;
    let rows = record_rows(
        alloc,
        folder,
        files,
        &lists,
        records_of(&lists.reached, bucket),
    )?;
    Ok(Findings::Records(rows))
}

// The reached records of a bucket.
fn records_of(reached: &Reached, bucket: u16) -> &[Addr]
    requires { HasBuckets reached.now }
    ensures { result.now ≡ shown.records_of (words_reached reached.now) reached.now.ends.items bucket }
{
    let ends = reached.bucket_ends();
    let bucket = usize::from(bucket);
    let begin = begin_of(ends, bucket);
    let end = ends[bucket] as usize;
    &reached.as_slice()[begin..end]
}

// Where the records of a bucket begin, by where those of each end.
fn begin_of(ends: &[u32], bucket: usize) -> usize
    requires { bucket ≤ length ends.now }
    ensures { result ≡ shown.begin_of ends.now bucket }
{
    if bucket == 0 {
        0
    } else {
        ends[bucket - 1] as usize
    }
}

// The rows of some reached records.
fn record_rows<F: Folder>(
    alloc: Global,
    folder: &mut F,
    files: &BlockFiles,
    lists: &Lists,
    entries: &[Addr],
) -> Result<Vec<RecordRow>, ScanFault>
    requires stand { RecordsStand files.now entries.now }
    ensures rows { OkFor result (F.told folder.old) (λ rows image. AreListsOf image lists.now → rows.items ≡ map (record_row_at image) entries.now) }
    ensures reads { ReadsOnly F.told F.faults folder.old folder.new (IfScanDevice result) }
    ensures damaged { IfScanDamaged result (IsRecordDamage files.now (F.told folder.new)) }
    ensures untold { ForSome (F.told folder.old).files (Agrees files.now) → IfScanDamaged result (λ _. (F.told folder.old).files ≡ None) }
{
    let mut rows = Vec::new(alloc);
    for entry in entries {
        let said = lists.record_at(folder, files, *entry)?;
        add_record(&mut rows, entry.word(), said.words.hash)?;
    }
    Ok(rows)
}

// Adds the row of a record.
fn add_record(rows: &mut Vec<RecordRow>, entry: u32, hash: u32) -> Result<(), NoMemory>
    ensures { OnOk result (rows.new.items ≡ rows.old.items ++ record { entry = entry; hash = hash } ∷ []) }
{
    rows.push(RecordRow { entry, hash })?;
    Ok(())
}
