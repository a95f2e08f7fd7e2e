// A single item is removed.
ghost use Rattle.std.specs.Prelude.{◌≡◌, ◌<◌, ◌^◌, All, IfOk, IfSome, IsTrue, OnOk};
ghost use Rattle.std.specs.Option.{ForSome};
ghost use Rattle.spec_image.specs.Told.{MayWrite, EndsIn};
ghost use Rattle.spec_format.specs.Address.{blocks_256, kind_of};
ghost use Rattle.spec_folder.specs.Found.{charge_of};
ghost use Rattle.blk_io.specs.Faults.{IfDamaged, IfDevice, OpaqueIfDamaged};
ghost use Rattle.blk_disk.specs.Open.{IsOpen};
ghost use Rattle.blk_disk.specs.Tables.{is_node_among, stands_among};
ghost use Rattle.law_state.specs.Changes.{SameSession};
ghost use Rattle.blk_object.specs.FailedChecks.{IsFailedCheck};
ghost use Rattle.blk_object.specs.Freeing.{IsPlaceAmong};
ghost use Rattle.blk_object.specs.Owning.{ForLoaded};
ghost use Rattle.blk_object.specs.RemovalCalls.{ForAlone, WhereAlone, ForOwnedAlone, WhereOwnedAlone, RemovesAlone, TakesAlone, StopsAlone, ForNext, WhereNext, ForOwnedNext, WhereOwnedNext, TakesNext, StopsTakingNext};

use crate::counters::count_less;
use crate::owning::{Owned, free_owned, read_owned};
use crate::removing::take_out;
use blk_addr::Addr;
use blk_chain::Found;
use blk_disk::BlockFiles;
use blk_io::{Fault, Folder};

/// Removes a single item, that of a plain object that no handle names, or a part: it is taken out of the LRU list and of its chain, its places are freed, and
/// the counters of the index are lowered by it and its cost in bytes, which is given.
///
/// Its record is in its chain after the record before, or is the first; and it names this node. This takes at most 23
/// folder calls until it is out, seven for each of its places, and six for the counters.
pub fn remove_item<F: Folder>(
    folder: &mut F,
    files: &BlockFiles,
    found: &Found,
    node: Addr,
) -> Result<u64, Fault>
    requires node { IsTrue (is_node_among files.now node) }
    requires kind { kind_of found.now.entry ≡ blocks_256 }
    requires stands { IsTrue (stands_among files.now found.now.entry) }
    requires kind_before { IfSome found.now.before (λ before. kind_of before ≡ blocks_256) }
    requires stands_before { IfSome found.now.before (λ before. IsTrue (stands_among files.now before)) }
    requires is_open { ForSome (F.told folder.old).files (IsOpen files.now) }

    // The answer is the cost of what lay there with this record.
    ensures charge { IfOk result (λ charge. ForLoaded (F.told folder.old) found.now.entry (λ was. charge ≡ charge_of was)) }

    // Where such an item lies there in a state that is kept and counted, the state without it is so in the end. At each
    // word the old durable contents are recovered, or those without it.
    ensures removed { OnOk result (ForAlone (F.told folder.old) node found.now (RemovesAlone (F.told folder.new) node found.now)) }
    ensures stops { ForAlone (F.told folder.old) node found.now (StopsAlone (F.told folder.old) (F.told folder.new)) }

    // The session is the same then.
    ensures session { OnOk result (WhereAlone (F.told folder.old) node found.now (EndsIn (F.told folder.new) SameSession)) }

    ensures is_open { ForSome (F.told folder.new).files (IsOpen files.now) }

    // Corruption is a check that fails on what is read here; nothing is written after it.
    ensures damaged { IfDamaged result (IsFailedCheck files.now (F.told folder.new)) }

    // An observable folder, with such an item in a state that is kept and counted, reports no corruption.
    ensures untold { WhereAlone (F.told folder.old) node found.now (λ from. OpaqueIfDamaged result (F.told folder.old)) }

    ensures writes { MayWrite F.told F.faults folder.old folder.new (IfDevice result) }
{
    let owned = read_owned(folder, files, found.entry)?;
    remove_read(folder, files, found, node, &owned)?;
    Ok(owned.charge)
}

/// Removes a single item as `remove_item` does, where its places and its cost were read before: one folder call less.
pub fn remove_read<F: Folder>(
    folder: &mut F,
    files: &BlockFiles,
    found: &Found,
    node: Addr,
    owned: &Owned,
) -> Result<(), Fault>
    requires node { IsTrue (is_node_among files.now node) }
    requires kind { kind_of found.now.entry ≡ blocks_256 }
    requires stands { IsTrue (stands_among files.now found.now.entry) }
    requires kind_before { IfSome found.now.before (λ before. kind_of before ≡ blocks_256) }
    requires stands_before { IfSome found.now.before (λ before. IsTrue (stands_among files.now before)) }
    requires places { All (IsPlaceAmong files.now) owned.now.places }
    requires is_open { ForSome (F.told folder.old).files (IsOpen files.now) }

    // Where these are its places and its cost, and such an item lies there in a state that is kept and counted, the state without it is so in the end. At each
    // word the old durable contents are recovered, or those without it.
    ensures removed { OnOk result (ForOwnedAlone (F.told folder.old) node found.now owned.now (RemovesAlone (F.told folder.new) node found.now)) }
    ensures stops { ForOwnedAlone (F.told folder.old) node found.now owned.now (StopsAlone (F.told folder.old) (F.told folder.new)) }

    // The session is the same then.
    ensures session { OnOk result (WhereOwnedAlone (F.told folder.old) node found.now owned.now (EndsIn (F.told folder.new) SameSession)) }

    ensures is_open { ForSome (F.told folder.new).files (IsOpen files.now) }

    // Corruption is a check that fails on what is read here; nothing is written after it.
    ensures damaged { IfDamaged result (IsFailedCheck files.now (F.told folder.new)) }

    // An observable folder, with such an item in a state that is kept and counted, reports no corruption.
    ensures untold { WhereOwnedAlone (F.told folder.old) node found.now owned.now (λ from. OpaqueIfDamaged result (F.told folder.old)) }

    ensures writes { MayWrite F.told F.faults folder.old folder.new (IfDevice result) }
{
    take_read(folder, files, found, node, owned)?;
    count_less(folder, files, owned.charge)
}

// Takes an item out of list and chain, and frees its places. Its cost is given.
pub(crate) fn take_away<F: Folder>(
    folder: &mut F,
    files: &BlockFiles,
    found: &Found,
    node: Addr,
) -> Result<u64, Fault>
    requires node { IsTrue (is_node_among files.now node) }
    requires kind { kind_of found.now.entry ≡ blocks_256 }
    requires stands { IsTrue (stands_among files.now found.now.entry) }
    requires kind_before { IfSome found.now.before (λ before. kind_of before ≡ blocks_256) }
    requires stands_before { IfSome found.now.before (λ before. IsTrue (stands_among files.now before)) }
    requires is_open { ForSome (F.told folder.old).files (IsOpen files.now) }
    ensures charge { IfOk result (λ charge. ForLoaded (F.told folder.old) found.now.entry (λ was. charge ≡ charge_of was)) }
    ensures small { IfOk result (λ charge. charge < 2 ^ 34) }
    ensures gone { IfOk result (λ charge. ForAlone (F.told folder.old) node found.now (TakesAlone (F.told folder.new) node found.now charge)) }
    ensures stops { ForAlone (F.told folder.old) node found.now (StopsAlone (F.told folder.old) (F.told folder.new)) }
    ensures out { IfOk result (λ charge. ForNext (F.told folder.old) node found.now (TakesNext (F.told folder.new) found.now charge)) }
    ensures going { ForNext (F.told folder.old) node found.now (StopsTakingNext (F.told folder.old) (F.told folder.new) node found.now) }
    ensures is_open { ForSome (F.told folder.new).files (IsOpen files.now) }
    ensures damaged { IfDamaged result (IsFailedCheck files.now (F.told folder.new)) }
    ensures untold { WhereAlone (F.told folder.old) node found.now (λ from. OpaqueIfDamaged result (F.told folder.old)) }
    ensures untold_out { WhereNext (F.told folder.old) node found.now (λ from. OpaqueIfDamaged result (F.told folder.old)) }
    ensures writes { MayWrite F.told F.faults folder.old folder.new (IfDevice result) }
{
    let read = read_owned(folder, files, found.entry)?;
    take_read(folder, files, found, node, &read)?;
    Ok(read.charge)
}

// Takes an item out of list and chain, and frees its places, which were read before.
fn take_read<F: Folder>(
    folder: &mut F,
    files: &BlockFiles,
    found: &Found,
    node: Addr,
    owned: &Owned,
) -> Result<(), Fault>
    requires node { IsTrue (is_node_among files.now node) }
    requires kind { kind_of found.now.entry ≡ blocks_256 }
    requires stands { IsTrue (stands_among files.now found.now.entry) }
    requires kind_before { IfSome found.now.before (λ before. kind_of before ≡ blocks_256) }
    requires stands_before { IfSome found.now.before (λ before. IsTrue (stands_among files.now before)) }
    requires places { All (IsPlaceAmong files.now) owned.now.places }
    requires is_open { ForSome (F.told folder.old).files (IsOpen files.now) }
    ensures gone { OnOk result (ForOwnedAlone (F.told folder.old) node found.now owned.now (TakesAlone (F.told folder.new) node found.now owned.now.charge)) }
    ensures stops { ForOwnedAlone (F.told folder.old) node found.now owned.now (StopsAlone (F.told folder.old) (F.told folder.new)) }
    ensures out { OnOk result (ForOwnedNext (F.told folder.old) node found.now owned.now (TakesNext (F.told folder.new) found.now owned.now.charge)) }
    ensures going { ForOwnedNext (F.told folder.old) node found.now owned.now (StopsTakingNext (F.told folder.old) (F.told folder.new) node found.now) }
    ensures is_open { ForSome (F.told folder.new).files (IsOpen files.now) }
    ensures damaged { IfDamaged result (IsFailedCheck files.now (F.told folder.new)) }
    ensures untold { WhereOwnedAlone (F.told folder.old) node found.now owned.now (λ from. OpaqueIfDamaged result (F.told folder.old)) }
    ensures untold_out { WhereOwnedNext (F.told folder.old) node found.now owned.now (λ from. OpaqueIfDamaged result (F.told folder.old)) }
    ensures writes { MayWrite F.told F.faults folder.old folder.new (IfDevice result) }
{
    take_out(folder, files, found, node)?;
    free_owned(folder, files, owned)
}
