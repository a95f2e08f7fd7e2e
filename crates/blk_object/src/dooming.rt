// An object that a handle names is doomed.
ghost use Rattle.std.specs.Prelude.{◌≡◌, IfSome, IsTrue, OnOk};
ghost use Rattle.std.specs.Option.{ForSome};
ghost use Rattle.spec_image.specs.Told.{MayWrite, EndsIn};
ghost use Rattle.spec_format.specs.Address.{blocks_256, kind_of};
ghost use Rattle.blk_io.specs.Faults.{IfDamaged, IfDevice, OpaqueIfDamaged};
ghost use Rattle.blk_disk.specs.Open.{IsOpen};
ghost use Rattle.blk_disk.specs.Tables.{is_node_among, stands_among};
ghost use Rattle.law_state.specs.Changes.{SameSession};
ghost use Rattle.blk_object.specs.FailedChecks.{IsFailedCheck};
ghost use Rattle.blk_object.specs.RemovalCalls.{ForOut, WhereOut, DoomsOut, StopsOut, ForHeld, WhereHeld, DoomsHeld, DoomsUncounted, StopsDooming};

use crate::counters::count_less;
use crate::removing::take_out;
use blk_addr::Addr;
use blk_chain::Found;
use blk_disk::BlockFiles;
use blk_io::{Fault, Folder};
use blk_record::EntryView;

// The state of the record of a doomed object.
const DOOMED: u32 = 2;

/// Sets the doomed state in the record of an object that a handle names, all of whose items are out of list and chains, in one update with a new checksum: one
/// folder call reads the record, and three write.
///
/// A failed check is a record that has too few bytes or a wrong checksum, and nothing is written then.
pub fn doom_record<F: Folder>(folder: &mut F, files: &BlockFiles, entry: Addr) -> Result<(), Fault>
    requires kind { kind_of entry ≡ blocks_256 }
    requires stands { IsTrue (stands_among files.now entry) }
    requires is_open { ForSome (F.told folder.old).files (IsOpen files.now) }

    // Where the record of a main item that is out loads by itself, it loads as a doomed object in the end: so the state with it doomed is kept, with its words
    // in use.
    ensures doomed { OnOk result (ForOut (F.told folder.old) entry (DoomsOut (F.told folder.new))) }

    // At each word the durable contents with the object doomed are recovered.
    ensures stops { ForOut (F.told folder.old) entry (StopsOut (F.told folder.old) (F.told folder.new)) }

    ensures is_open { ForSome (F.told folder.new).files (IsOpen files.now) }

    // Corruption is a check that fails on what is read here; nothing is written after it.
    ensures damaged { IfDamaged result (IsFailedCheck files.now (F.told folder.new)) }

    // An observable folder, with such an object, reports no corruption.
    ensures untold { WhereOut (F.told folder.old) entry (λ from. OpaqueIfDamaged result (F.told folder.old)) }

    ensures writes { MayWrite F.told F.faults folder.old folder.new (IfDevice result) }
{
    files.update_sealed(folder, entry, &[(EntryView::STATE, DOOMED)])
}

/// Dooms a live object without parts that a handle names: its main item is taken out of the LRU list and of its chain,
/// its record gets the state of a doomed one, and the index counts one item less, and its cost no longer. Nothing
/// is freed: its places stay its own until the last handle is closed.
///
/// Its record is in its chain after the record before, or is the first; and it names this node. This takes as many
/// folder calls as `take_out`, four for the record, and six for the counters.
pub fn doom_plain<F: Folder>(
    folder: &mut F,
    files: &BlockFiles,
    found: &Found,
    node: Addr,
    charge: u64,
) -> Result<(), Fault>
    requires node { IsTrue (is_node_among files.now node) }
    requires kind { kind_of found.now.entry ≡ blocks_256 }
    requires stands { IsTrue (stands_among files.now found.now.entry) }
    requires kind_before { IfSome found.now.before (λ before. kind_of before ≡ blocks_256) }
    requires stands_before { IfSome found.now.before (λ before. IsTrue (stands_among files.now before)) }
    requires is_open { ForSome (F.told folder.old).files (IsOpen files.now) }

    // Where all items are counted, and `charge` is the cost of the object, the state with it doomed is kept and counted in the end, the same words unlinked.
    ensures doomed { OnOk result (ForHeld (F.told folder.old) node found.now (DoomsHeld charge (F.told folder.new))) }

    // At each word the old durable contents are recovered, or those with it doomed.
    ensures stops { ForHeld (F.told folder.old) node found.now (StopsDooming (F.told folder.old) (F.told folder.new)) }

    // The session is the same then.
    ensures session { OnOk result (WhereHeld (F.told folder.old) node found.now (EndsIn (F.told folder.new) SameSession)) }

    ensures is_open { ForSome (F.told folder.new).files (IsOpen files.now) }

    // Corruption is a check that fails on what is read here; nothing is written after it.
    ensures damaged { IfDamaged result (IsFailedCheck files.now (F.told folder.new)) }

    // An observable folder, with such an object, reports no corruption.
    ensures untold { WhereHeld (F.told folder.old) node found.now (λ from. OpaqueIfDamaged result (F.told folder.old)) }

    ensures writes { MayWrite F.told F.faults folder.old folder.new (IfDevice result) }
{
    hold_out(folder, files, found, node)?;
    count_less(folder, files, charge)
}

// Takes the main item of an object without parts out, and gives its record the state of a doomed one.
fn hold_out<F: Folder>(
    folder: &mut F,
    files: &BlockFiles,
    found: &Found,
    node: Addr,
) -> Result<(), Fault>
    requires node { IsTrue (is_node_among files.now node) }
    requires kind { kind_of found.now.entry ≡ blocks_256 }
    requires stands { IsTrue (stands_among files.now found.now.entry) }
    requires kind_before { IfSome found.now.before (λ before. kind_of before ≡ blocks_256) }
    requires stands_before { IfSome found.now.before (λ before. IsTrue (stands_among files.now before)) }
    requires is_open { ForSome (F.told folder.old).files (IsOpen files.now) }
    ensures held { OnOk result (ForHeld (F.told folder.old) node found.now (DoomsUncounted (F.told folder.new))) }
    ensures stops { ForHeld (F.told folder.old) node found.now (StopsDooming (F.told folder.old) (F.told folder.new)) }
    ensures is_open { ForSome (F.told folder.new).files (IsOpen files.now) }
    ensures damaged { IfDamaged result (IsFailedCheck files.now (F.told folder.new)) }
    ensures untold { WhereHeld (F.told folder.old) node found.now (λ from. OpaqueIfDamaged result (F.told folder.old)) }
    ensures writes { MayWrite F.told F.faults folder.old folder.new (IfDevice result) }
{
    take_out(folder, files, found, node)?;
    doom_record(folder, files, found.entry)
}
