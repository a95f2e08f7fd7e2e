// The main item of an object is removed from list and chain before its parts.
ghost use Rattle.std.specs.Prelude.{◌≡◌, IfSome, IsTrue, OnOk};
ghost use Rattle.std.specs.Option.{ForSome};
ghost use Rattle.spec_image.specs.Told.{MayWrite, EndsIn};
ghost use Rattle.spec_format.specs.Address.{blocks_256, kind_of};
ghost use Rattle.blk_io.specs.Faults.{IfDamaged, IfDevice, OpaqueIfDamaged};
ghost use Rattle.blk_disk.specs.Open.{IsOpen};
ghost use Rattle.blk_disk.specs.Tables.{is_node_among, stands_among};
ghost use Rattle.law_state.specs.Changes.{SameSession};
ghost use Rattle.blk_object.specs.FailedChecks.{IsFailedCheck};
ghost use Rattle.blk_object.specs.RemovalCalls.{StopsDooming, ForMain, WhereMain, TakesMain};

use crate::counters::count_less;
use crate::removing::take_out;
use blk_addr::Addr;
use blk_chain::Found;
use blk_disk::BlockFiles;
use blk_io::{Fault, Folder};

/// Takes the main item of an object that is removed with its parts out of the LRU list and of its chain, before the parts, and lowers the counters of the index
/// by it and its cost. Nothing is freed: its places have no owner then.
///
/// Its record is in its chain after the record before, or is the first; and it names this node. This takes as many
/// folder calls as `take_out`, and six for the counters.
pub fn take_main<F: Folder>(
    folder: &mut F,
    files: &BlockFiles,
    found: &Found,
    node: Addr,
    charge: u64,
) -> Result<(), Fault>
    requires node { IsTrue (is_node_among files.now node) }
    requires kind { kind_of found.now.entry ≡ blocks_256 }
    requires stands { IsTrue (stands_among files.now found.now.entry) }
    requires kind_before { IfSome found.now.before (λ before. kind_of before ≡ blocks_256) }
    requires stands_before { IfSome found.now.before (λ before. IsTrue (stands_among files.now before)) }
    requires is_open { ForSome (F.told folder.old).files (IsOpen files.now) }

    // Where all items are counted, and `charge` is the cost of the main item, this item is out in the end, and those that are left are counted.
    ensures out { OnOk result (ForMain (F.told folder.old) node found.now (TakesMain charge (F.told folder.new))) }

    // At each word the old durable contents are recovered, or those with the object doomed.
    ensures stops { ForMain (F.told folder.old) node found.now (StopsDooming (F.told folder.old) (F.told folder.new)) }

    // The session is the same then.
    ensures session { OnOk result (WhereMain (F.told folder.old) node found.now (EndsIn (F.told folder.new) SameSession)) }

    ensures is_open { ForSome (F.told folder.new).files (IsOpen files.now) }

    // Corruption is a check that fails on what is read here; nothing is written after it.
    ensures damaged { IfDamaged result (IsFailedCheck files.now (F.told folder.new)) }

    // An observable folder, with such an item, reports no corruption.
    ensures untold { WhereMain (F.told folder.old) node found.now (λ from. OpaqueIfDamaged result (F.told folder.old)) }

    ensures writes { MayWrite F.told F.faults folder.old folder.new (IfDevice result) }
{
    take_out(folder, files, found, node)?;
    count_less(folder, files, charge)
}
