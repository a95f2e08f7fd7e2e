// Places of the LRU list: the node in front of one, and an item that may be evicted.
ghost use Rattle.std.specs.Prelude.{IfOk, IfSome, IsTrue};
ghost use Rattle.std.specs.Option.{ForSome};
ghost use Rattle.spec_image.specs.Told.{ReadsOnly};
ghost use Rattle.blk_io.specs.Faults.{IfDamaged, IfDevice, UndamagedWhere};
ghost use Rattle.blk_disk.specs.Open.{IsOpen};
ghost use Rattle.blk_disk.specs.Tables.{is_node_among};
ghost use Rattle.blk_object.specs.FailedChecks.{IsFailedCheck};
ghost use Rattle.blk_object.specs.ListWalks.{GoesTo};
ghost use Rattle.blk_evict.specs.ListPlaces.{IsPlaceInList, IsNodeBefore};

use blk_addr::Addr;
use blk_disk::BlockFiles;
use blk_io::{Fault, Folder};
use blk_lru::{before, last};
use blk_record::NodeView;

/// An item that isn't pinned: its node and its record, and the node next after it in the LRU list.
#[derive(Clone, Copy, Debug)]
pub struct Unpinned {
    pub node: Addr,
    pub entry: Addr,
    pub behind: Option<Addr>,
}

/// The node in front of one in the LRU list, or the last one, by one folder call. Nothing is written.
pub fn in_front<F: Folder>(
    folder: &mut F,
    files: &BlockFiles,
    behind: &Option<Addr>,
) -> Result<Option<Addr>, Fault>
    requires stands { IfSome behind.now (λ node. IsTrue (is_node_among files.now node)) }
    ensures node { IfOk result (λ node. ForSome (F.told folder.old).files (IsNodeBefore files.now behind.now node)) }
    ensures word { IfOk result (λ found. ForSome (F.told folder.old).files (λ image. GoesTo NodeView.PREV image behind.now found)) }
    ensures stands { IfOk result (λ node. IfSome node (λ n. IsTrue (is_node_among files.now n))) }
    ensures reads { ReadsOnly F.told F.faults folder.old folder.new (IfDevice result) }
    ensures damaged { IfDamaged result (IsFailedCheck files.now (F.told folder.new)) }
    ensures untold { ForSome (F.told folder.old).files (IsOpen files.now) → UndamagedWhere result (F.told folder.old) (IsPlaceInList behind.now) }
{
    match *behind {
        Some(node) => before(folder, files, node),
        None => last(folder, files),
    }
}
