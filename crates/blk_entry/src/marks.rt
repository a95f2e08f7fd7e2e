// The dirty flags of nodes.
ghost use Rattle.std.specs.Prelude.{◌≡◌, ◌≢◌, ◌≤◌, IsTrue};
ghost use Rattle.std.specs.Option.{ForSome};
ghost use Rattle.spec_image.specs.Told.{Rises};
ghost use Rattle.spec_format.specs.Address.{kind_of, rankings};
ghost use Rattle.blk_io.specs.Faults.{IfDevice};
ghost use Rattle.blk_disk.specs.Tables.{Agrees, stands_among};
ghost use Rattle.blk_entry.specs.Marks.{SetsDirty};

use blk_addr::Addr;
use blk_disk::BlockFiles;
use blk_io::{Fault, Folder};
use blk_record::NodeView;

/// Sets the dirty flag of a node to a number that isn't 0.
///
/// The node is read by one folder call. Then its checksum becomes 0, and by one call more the dirty flag is written and the checksum after it becomes the hash.
/// Too few bytes of a node or a wrong checksum are corruption, and nothing is written.
pub fn set_dirty<F: Folder>(
    f: &mut F,
    files: &BlockFiles,
    node: Addr,
    mark: u32,
) -> Result<(), Fault>
    requires some { mark ≢ 0 }
    requires kind { kind_of node ≡ rankings }
    requires stands { IsTrue (stands_among files.now node) }
    requires agrees { ForSome (F.told f.old).files (Agrees files.now) }
    ensures sets { SetsDirty files.now (F.told f.old) (F.told f.new) node mark result }
    ensures later { F.faults f.old ≤ F.faults f.new }
    ensures device { IfDevice result (Rises (F.faults f.old) (F.faults f.new)) }
{
    set_dirty_word(f, files, node, mark)
}

/// Sets the dirty flag of a node to 0, by the same calls as `set_dirty`.
pub fn set_clean<F: Folder>(f: &mut F, files: &BlockFiles, node: Addr) -> Result<(), Fault>
    requires kind { kind_of node ≡ rankings }
    requires stands { IsTrue (stands_among files.now node) }
    requires agrees { ForSome (F.told f.old).files (Agrees files.now) }
    ensures sets { SetsDirty files.now (F.told f.old) (F.told f.new) node 0 result }
    ensures later { F.faults f.old ≤ F.faults f.new }
    ensures device { IfDevice result (Rises (F.faults f.old) (F.faults f.new)) }
{
    set_dirty_word(f, files, node, 0)
}

// Sets the dirty flag of a node to this word.
fn set_dirty_word<F: Folder>(
    folder: &mut F,
    files: &BlockFiles,
    node: Addr,
    mark: u32,
) -> Result<(), Fault>
    requires kind { kind_of node ≡ rankings }
    requires stands { IsTrue (stands_among files.now node) }
    requires agrees { ForSome (F.told folder.old).files (Agrees files.now) }
    ensures sets { SetsDirty files.now (F.told folder.old) (F.told folder.new) node mark result }
    ensures later { F.faults folder.old ≤ F.faults folder.new }
    ensures device { IfDevice result (Rises (F.faults folder.old) (F.faults folder.new)) }
{
    // Reading it tells the prover that the word is one of an address.
    let _word = node.word();
    files.update_sealed(folder, node, &[(NodeView::DIRTY, mark)])
}
