// The LRU list is recovered.
ghost use Rattle.std.specs.Prelude.{◌≡◌, ◌≤◌, OnOk, All, true};
ghost use Rattle.std.specs.Option.{ForSome};
ghost use Rattle.spec_image.specs.Told.{MakesPartOf, Rises};
ghost use Rattle.blk_io.specs.Faults.{IfDamaged, IfDevice, UndamagedWhere};
ghost use Rattle.blk_disk.specs.Open.{IsOpen};
ghost use Rattle.blk_disk.specs.Tables.{is_node_among};
ghost use Rattle.blk_lru.specs.Lists.{last_node_of};
ghost use Rattle.law_recovery.specs.ListRepair.{HoldsTheSame, IsListMended};
ghost use Rattle.blk_repair.specs.Damages.{IsListRepairDamage};
ghost use Rattle.blk_repair.specs.Removals.{IsListScanned, mending_steps};
ghost use Rattle.blk_repair.specs.RepairClauses.{DoesAll, HoldsAlong, Leaves, OnImage, Where};

use crate::removals::remove_others;
use blk_addr::Addr;
use blk_disk::BlockFiles;
use blk_io::{Fault, Folder};
use blk_lru::{complete, end_at};

/// Recovers the LRU list: the operation in flight is redone, the last of the walked nodes becomes the end of the list, and each walked node that isn't kept is
/// removed, in the order of the list.
///
/// `walked` are the nodes that the redo leaves, and `kept` those of them that are kept, in the same order. A list that is
/// whole and idle with the kept nodes takes 3 folder calls. A failed check is one of the calls on the list.
pub fn mend_list<F: Folder>(
    folder: &mut F,
    files: &BlockFiles,
    walked: &[Addr],
    kept: &[Addr],
) -> Result<(), Fault>
    requires stand { All (λ w. is_node_among files.now w ≡ true) walked.now }
    requires is_open { ForSome (F.told folder.old).files (IsOpen files.now) }
    ensures steps { OnOk result (OnImage F.told folder.old folder.new (DoesAll (mending_steps walked.now kept.now))) }
    ensures prefix { MakesPartOf (F.told folder.old) (F.told folder.new) (mending_steps walked.now kept.now) }

    // With the walked and the kept nodes of the folder the list is repaired in the end, and kept records and recovered contents are the same at each
    // word.
    ensures mended { OnOk result (Where F.told folder.old folder.new (IsListScanned walked.now kept.now) (Leaves IsListMended)) }
    ensures stops { Where F.told folder.old folder.new (IsListScanned walked.now kept.now) (HoldsAlong HoldsTheSame) }

    ensures is_open { ForSome (F.told folder.new).files (IsOpen files.now) }

    // An observable folder reports corruption only where these aren't its walked and kept nodes.
    ensures damaged { IfDamaged result (IsListRepairDamage files.now (F.told folder.new)) }
    ensures untold { UndamagedWhere result (F.told folder.old) (IsListScanned walked.now kept.now) }

    ensures later { F.faults folder.old ≤ F.faults folder.new }
    ensures device { IfDevice result (Rises (F.faults folder.old) (F.faults folder.new)) }
{
    complete(folder, files)?;
    end_at(folder, files, last_of(walked))?;
    remove_others(folder, files, walked, kept)
}

// The last of some nodes.
fn last_of(nodes: &[Addr]) -> Option<Addr>
    ensures { result ≡ last_node_of nodes.now }
{
    nodes.last().copied()
}
