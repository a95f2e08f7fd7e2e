// The walk of a folder.
ghost use Rattle.std.specs.Prelude.{◌≡◌, IfOk, OnOk};
ghost use Rattle.std.specs.Option.{ForSome};
ghost use Rattle.spec_image.specs.Told.{ReadsOnly};
ghost use Rattle.blk_io.specs.Faults.{OkFor};
ghost use Rattle.blk_audit.specs.Faults.{IfScanDamaged, IfScanDevice, IsWalkDamage};
ghost use Rattle.spec_folder.specs.ListImages.{completed_walk};
ghost use Rattle.blk_disk.specs.Open.{IsOpen};
ghost use Rattle.blk_disk.specs.Tables.{Agrees};
ghost use Rattle.blk_audit.specs.Filled.{CountsStand};
ghost use Rattle.blk_audit.specs.Nodes.{AreNodesOf};
ghost use Rattle.blk_audit.specs.Walking.{AreMet, HasEnds, HasLruList, NodesStand, nodes_walked};
ghost use Rattle.blk_audit.specs.ScanClauses.{ScanUndamagedWhere};

use crate::fault::ScanFault;
use crate::list_walk::{Walked, walk_nodes};
use crate::nodes::Nodes;
use crate::reading::read_nodes;
use blk_disk::BlockFiles;
use blk_index::word;
use blk_io::Folder;
use blk_lru::pending;
use blk_record::IndexHead;
use std::alloc::Global;

/// Walks the LRU list of a folder as it is once its operation in flight is redone. Nothing is written.
///
/// One call reads 1024 nodes of a file, of which each takes 20 bytes of memory, one the head, and at most seven the
/// operation in flight and its nodes. A failed check is a read that gave too few bytes; a folder whose files are those
/// of `files` gives none. `Device` comes only where the folder failed in this call.
pub fn walk<F: Folder>(
    alloc: Global,
    folder: &mut F,
    files: &BlockFiles,
) -> Result<Walked, ScanFault>
    ensures walked { OkFor result (F.told folder.old) (λ walked image. Agrees files.now image → nodes_walked walked ≡ completed_walk image) }
    ensures met { IfOk result AreMet }
    ensures stand { IfOk result (λ walked. NodesStand files.now (nodes_walked walked)) }
    ensures checked { OnOk result (ForSome (F.told folder.old).files (HasLruList files.now)) }
    ensures reads { ReadsOnly F.told F.faults folder.old folder.new (IfScanDevice result) }

    // An observable folder reports corruption only where its index is too short or the block files don't agree with it.
    ensures damaged { IfScanDamaged result (IsWalkDamage files.now (F.told folder.new)) }
    ensures untold { ScanUndamagedWhere result (F.told folder.old) (IsOpen files.now) }
{
    let nodes = read_nodes(alloc, folder, files)?;
    walk_over(alloc, folder, files, &nodes)
}

// Walks `nodes`, the nodes of the folder, as the redo of the operation in flight would link them.
pub(crate) fn walk_over<F: Folder>(
    alloc: Global,
    folder: &mut F,
    files: &BlockFiles,
    nodes: &Nodes,
) -> Result<Walked, ScanFault>
    requires nodes { ForSome (F.told folder.old).files (λ image. Agrees files.now image → AreNodesOf image nodes.now) }
    requires counted { CountsStand files.now nodes.now }
    ensures walked { OkFor result (F.told folder.old) (λ walked image. Agrees files.now image → nodes_walked walked ≡ completed_walk image) }
    ensures met { IfOk result AreMet }
    ensures stand { IfOk result (λ walked. NodesStand files.now (nodes_walked walked)) }
    ensures checked { OnOk result (ForSome (F.told folder.old).files (HasEnds files.now)) }
    ensures reads { ReadsOnly F.told F.faults folder.old folder.new (IfScanDevice result) }
    ensures damaged { IfScanDamaged result (IsWalkDamage files.now (F.told folder.new)) }
    ensures untold { ScanUndamagedWhere result (F.told folder.old) (IsOpen files.now) }
{
    let head = word(folder, IndexHead::HEADS)?;
    let plan = pending(folder, files)?;
    let walked = walk_nodes(alloc, nodes, head, plan.as_slice())?;
    Ok(walked)
}
