// Removes a part of an object that is removed with its parts.
ghost use Rattle.std.specs.Prelude.{◌≡◌, ◌<◌, ◌^◌, IfOk, IfSome, IsTrue, OnOk};
ghost use Rattle.std.specs.Option.{ForSome};
ghost use Rattle.spec_image.specs.Told.{MayWrite, EndsIn};
ghost use Rattle.spec_format.specs.Address.{blocks_256, kind_of};
ghost use Rattle.spec_folder.specs.Found.{charge_of};
ghost use Rattle.blk_io.specs.Faults.{IfDamaged, IfDevice, OpaqueIfDamaged};
ghost use Rattle.blk_disk.specs.Open.{IsOpen};
ghost use Rattle.blk_disk.specs.Tables.{is_node_among, stands_among};
ghost use Rattle.law_state.specs.Changes.{SameSession};
ghost use Rattle.blk_object.specs.FailedChecks.{IsFailedCheck};
ghost use Rattle.blk_object.specs.Owning.{ForLoaded};
ghost use Rattle.blk_object.specs.RemovalCalls.{ForNext, WhereNext, RemovesNext, LeavesOthers, ForPart, StopsPart};

use crate::counters::count_less;
use crate::removing_objects::take_away;
use blk_addr::Addr;
use blk_chain::Found;
use blk_disk::BlockFiles;
use blk_io::{Fault, Folder};

/// Removes a part of an object that is removed with all its parts, after the main item: it is taken out of the LRU list and of its chain, its places are freed,
/// and the counters of the index are lowered by it and its cost in bytes, which is given.
///
/// Its record is in its chain after the record before, or is the first; and it names this node. This takes as many
/// folder calls as `remove_item`.
pub fn remove_part<F: Folder>(
    folder: &mut F,
    files: &BlockFiles,
    found: &Found,
    node: Addr,
) -> Result<u64, Fault>
    requires node { IsTrue (is_node_among files.now node) }
    requires kind { kind_of found.now.entry ≡ blocks_256 }
    requires stands { IsTrue (stands_among files.now found.now.entry) }
    requires kind_before { IfSome found.now.before (λ before. kind_of before ≡ blocks_256) }
    requires stands_before { IfSome found.now.before (λ before. IsTrue (stands_among files.now before)) }
    requires is_open { ForSome (F.told folder.old).files (IsOpen files.now) }

    // The answer is the cost of what lay there with this record.
    ensures charge { IfOk result (λ charge. ForLoaded (F.told folder.old) found.now.entry (λ was. charge ≡ charge_of was)) }
    ensures small { IfOk result (λ charge. charge < 2 ^ 34) }

    // Where some items are out, or none, and the others are counted, one more is out in the end, and those that are left are counted.
    ensures removed { OnOk result (ForNext (F.told folder.old) node found.now (RemovesNext (F.told folder.new) found.now)) }

    // The session is the same then.
    ensures session { OnOk result (WhereNext (F.told folder.old) node found.now (EndsIn (F.told folder.new) SameSession)) }

    // What lay in unlinked places, as its main item, loads yet by itself.
    ensures keeps { OnOk result (ForNext (F.told folder.old) node found.now (LeavesOthers (F.told folder.new))) }

    // While a part is removed after its main item, the durable contents with its object doomed are recovered.
    ensures part { ForPart (F.told folder.old) node found.now (StopsPart (F.told folder.old) (F.told folder.new)) }

    ensures is_open { ForSome (F.told folder.new).files (IsOpen files.now) }

    // Corruption is a check that fails on what is read here; nothing is written after it.
    ensures damaged { IfDamaged result (IsFailedCheck files.now (F.told folder.new)) }

    // An observable folder, with such an item, reports no corruption.
    ensures untold { WhereNext (F.told folder.old) node found.now (λ from. OpaqueIfDamaged result (F.told folder.old)) }

    ensures writes { MayWrite F.told F.faults folder.old folder.new (IfDevice result) }
{
    let charge = take_away(folder, files, found, node)?;
    count_less(folder, files, charge)?;
    Ok(charge)
}
