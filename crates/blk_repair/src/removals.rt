// The nodes that aren't kept are removed from the LRU list.
ghost use Rattle.std.specs.Prelude.{◌≡◌, ◌≤◌, OnOk, All, drop, true};
ghost use Rattle.std.specs.Option.{ForSome};
ghost use Rattle.spec_image.specs.Image.{Image};
ghost use Rattle.spec_image.specs.Told.{MakesPartOf, Rises};
ghost use Rattle.blk_io.specs.Faults.{IfDamaged, IfDevice, UndamagedWhere};
ghost use Rattle.blk_disk.specs.Open.{IsOpen};
ghost use Rattle.blk_disk.specs.Tables.{is_node_among};
ghost use Rattle.law_recovery.specs.ListRepair.{HoldsTheSame, IsListMended, all_but, is_first, removal_steps};
ghost use Rattle.blk_repair.specs.Damages.{IsRemovalsDamage};
ghost use Rattle.blk_repair.specs.Removals.{IsEndedList};
ghost use Rattle.blk_repair.specs.RepairClauses.{DoesAll, HoldsAlong, Leaves, OnImage, WhereEnded};

use blk_addr::Addr;
use blk_disk::BlockFiles;
use blk_io::{Fault, Folder};
use blk_lru::remove;

/// Removes the walked nodes that aren't kept from the LRU list, in its order. Those that are kept are some of the walked ones, in the same order.
///
/// A node is removed by an operation of its own, so by at most 17 folder calls; a list in which all nodes are kept takes
/// none. A failed check is one of `remove`.
pub fn remove_others<F: Folder>(
    folder: &mut F,
    files: &BlockFiles,
    walked: &[Addr],
    kept: &[Addr],
) -> Result<(), Fault>
    requires stand { All (λ w. is_node_among files.now w ≡ true) walked.now }
    requires is_open { ForSome (F.told folder.old).files (IsOpen files.now) }
    ensures steps { OnOk result (OnImage F.told folder.old folder.new (DoesAll (removal_steps (all_but walked.now kept.now)))) }
    ensures prefix { MakesPartOf (F.told folder.old) (F.told folder.new) (λ from. removal_steps (all_but walked.now kept.now) from) }

    // Where the list was ended with the walked nodes, it is repaired in the end, and kept records and recovered contents are the same at each
    // word.
    ensures mended { OnOk result (WhereEnded F.told folder.old folder.new walked.now kept.now (λ entry from. Leaves IsListMended entry)) }
    ensures stops { WhereEnded F.told folder.old folder.new walked.now kept.now (λ entry from. HoldsAlong HoldsTheSame entry) }

    ensures is_open { ForSome (F.told folder.new).files (IsOpen files.now) }

    // An observable folder reports corruption only where the list wasn't ended with the walked nodes.
    ensures damaged { IfDamaged result (IsRemovalsDamage files.now (F.told folder.new)) }
    ensures untold { UndamagedWhere result (F.told folder.old) (λ from. (entry : Image) × IsEndedList entry walked.now kept.now from) }

    ensures later { F.faults folder.old ≤ F.faults folder.new }
    ensures device { IfDevice result (Rises (F.faults folder.old) (F.faults folder.new)) }
{
    let mut passed = 0;
    for i in 0..walked.len() {
        let node = walked[i];
        if is_next(kept, passed, node) {
            passed += 1;
        } else {
            remove(folder, files, node)?;
        }
    }
    Ok(())
}

// Whether a node is the one at a place among some.
fn is_next(nodes: &[Addr], at: usize, node: Addr) -> bool
    ensures { result ≡ is_first node (drop at nodes.now) }
{
    match nodes.get(at) {
        Some(next) => node == *next,
        None => false,
    }
}
