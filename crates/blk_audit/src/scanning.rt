// The LRU list and the chains of a folder, read together.
ghost use Rattle.std.specs.Prelude.{◌≡◌, IfOk};
ghost use Rattle.spec_image.specs.Told.{ReadsOnly};
ghost use Rattle.spec_folder.specs.ListImages.{completed_walk};
ghost use Rattle.blk_io.specs.Faults.{OkFor};
ghost use Rattle.blk_disk.specs.Open.{IsOpen};
ghost use Rattle.blk_disk.specs.Tables.{Agrees};
ghost use Rattle.blk_audit.specs.Faults.{IfScanDamaged, IfScanDevice, IsListsDamage};
ghost use Rattle.blk_audit.specs.ReadLists.{AreListsAmong, AreListsOf};
ghost use Rattle.blk_audit.specs.Walking.{nodes_walked};
ghost use Rattle.blk_audit.specs.ScanClauses.{ReachesAllChains, AreListsThere, ScanUndamagedWhere};

use crate::fault::ScanFault;
use crate::list_walk::Walked;
use crate::named::named_by;
use crate::nodes::Nodes;
use crate::reaching::{Reached, chains_over};
use crate::reading::read_nodes;
use crate::record_files::{Records, read_records};
use crate::walking::walk_over;
use blk_addr::Claims;
use blk_disk::BlockFiles;
use blk_io::Folder;
use std::alloc::Global;

/// The walked nodes and the reached records of a folder, with what was read of both.
#[derive(Drop)]
pub struct Lists {
    /// The nodes of the LRU list.
    pub walked: Walked,
    /// The records of the chains.
    pub reached: Reached,
    pub(crate) nodes: Nodes,
    pub(crate) records: Records,
    // the first blocks of the records that the walked nodes name
    pub(crate) named: Claims,
}

/// Walks the LRU list of a folder, as it is once its operation in flight is redone, and follows its chains. Nothing
/// is written.
///
/// On a folder where each reached record is that of a walked node, no call is made for a node or a record alone, but
/// for those of the operation in flight and for records in a file that is too short for its blocks. A failed check is a
/// read that gave too few bytes; a folder whose files are those of `files` gives none. `Device` comes only where the
/// folder failed in this call.
pub fn read_lists<F: Folder>(
    alloc: Global,
    folder: &mut F,
    files: &BlockFiles,
) -> Result<Lists, ScanFault>
    ensures walked { OkFor result (F.told folder.old) (λ lists image. Agrees files.now image → nodes_walked lists.walked ≡ completed_walk image) }
    ensures reached { OkFor result (F.told folder.old) (λ lists. ReachesAllChains files.now lists.reached) }
    ensures checked { OkFor result (F.told folder.old) (AreListsThere files.now) }
    ensures lists { OkFor result (F.told folder.old) (λ lists image. Agrees files.now image → AreListsOf image lists) }
    ensures stand { IfOk result (AreListsAmong files.now) }
    ensures reads { ReadsOnly F.told F.faults folder.old folder.new (IfScanDevice result) }

    // An observable folder reports corruption only where its index is too short or the block files don't agree with it.
    ensures damaged { IfScanDamaged result (IsListsDamage files.now (F.told folder.new)) }
    ensures untold { ScanUndamagedWhere result (F.told folder.old) (IsOpen files.now) }
{
    let nodes = read_nodes(alloc, folder, files)?;
    let walked = walk_over(alloc, folder, files, &nodes)?;
    let named = named_by(alloc, &nodes, &walked)?;
    let records = read_records(alloc, folder, files, &named)?;
    let reached = chains_over(alloc, folder, files, &records)?;
    Ok(Lists {
        walked,
        reached,
        nodes,
        records,
        named,
    })
}
