// The dirty flag of a node is set.
ghost use Rattle.std.specs.Prelude.{◌≤◌, IsTrue};
ghost use Rattle.std.specs.Option.{ForSome};
ghost use Rattle.spec_image.specs.Told.{Rises};
ghost use Rattle.blk_io.specs.Faults.{IfDamaged, IfDevice};
ghost use Rattle.blk_disk.specs.Open.{IsOpen};
ghost use Rattle.blk_disk.specs.Tables.{is_node_among};
ghost use Rattle.blk_entry.specs.Marks.{SetsDirty};
ghost use Rattle.blk_object.specs.FailedChecks.{IsFailedCheck};

use blk_addr::Addr;
use blk_disk::BlockFiles;
use blk_entry::{set_clean, set_dirty};
use blk_io::{Fault, Folder};

/// Sets the dirty flag of a node to this number, where 0 means clean: one folder call reads the node, and two write.
pub fn set_dirty_word<F: Folder>(
    folder: &mut F,
    files: &BlockFiles,
    node: Addr,
    mark: u32,
) -> Result<(), Fault>
    requires stands { IsTrue (is_node_among files.now node) }
    requires is_open { ForSome (F.told folder.old).files (IsOpen files.now) }
    ensures sets { SetsDirty files.now (F.told folder.old) (F.told folder.new) node mark result }
    ensures is_open { ForSome (F.told folder.new).files (IsOpen files.now) }

    // Corruption is a check that fails on what is read here; nothing is written after it.
    ensures damaged { IfDamaged result (IsFailedCheck files.now (F.told folder.new)) }

    ensures later { F.faults folder.old ≤ F.faults folder.new }
    ensures device { IfDevice result (Rises (F.faults folder.old) (F.faults folder.new)) }
{
    if mark == 0 {
        set_clean(folder, files, node)
    } else {
        set_dirty(folder, files, node, mark)
    }
}
