// All nodes of a folder.
ghost use Rattle.std.specs.Prelude.{IfOk, OnOk};
ghost use Rattle.std.specs.Option.{ForSome};
ghost use Rattle.spec_image.specs.Told.{ReadsOnly};
ghost use Rattle.blk_io.specs.Faults.{OkFor};
ghost use Rattle.blk_audit.specs.Faults.{IfScanDamaged, IfScanDevice, IsNodesDamage};
ghost use Rattle.blk_disk.specs.Tables.{Agrees};
ghost use Rattle.blk_audit.specs.Filled.{CountsStand};
ghost use Rattle.blk_audit.specs.Nodes.{AreNodesOf, HasNodes};
ghost use Rattle.blk_audit.specs.ScanClauses.{ScanUndamagedWhere};

use crate::fault::ScanFault;
use crate::nodes::Nodes;
use blk_addr::BLOCK_FILES;
use blk_disk::BlockFiles;
use blk_io::Folder;
use std::alloc::Global;

// Reads the nodes that are there, file after file, each file in pieces.
pub(crate) fn read_nodes<F: Folder>(
    alloc: Global,
    folder: &mut F,
    files: &BlockFiles,
) -> Result<Nodes, ScanFault>
    ensures nodes { OkFor result (F.told folder.old) (λ nodes image. Agrees files.now image → AreNodesOf image nodes) }
    ensures checked { OnOk result (ForSome (F.told folder.old).files (HasNodes files.now)) }
    ensures counted { IfOk result (CountsStand files.now) }
    ensures reads { ReadsOnly F.told F.faults folder.old folder.new (IfScanDevice result) }
    ensures damaged { IfScanDamaged result (IsNodesDamage (F.told folder.new)) }
    ensures untold { ScanUndamagedWhere result (F.told folder.old) (Agrees files.now) }
{
    let mut nodes = Nodes::none(alloc);
    for n in 0..BLOCK_FILES as u32 {
        nodes.add_file(folder, files, n as u8)?;
    }
    Ok(nodes)
}
