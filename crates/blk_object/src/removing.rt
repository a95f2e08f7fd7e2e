// An item is removed from the LRU list and from its chain.
ghost use Rattle.std.specs.Prelude.{◌≡◌, IfSome, IsTrue, OnOk};
ghost use Rattle.std.specs.Option.{ForSome};
ghost use Rattle.spec_image.specs.Told.{MayWrite};
ghost use Rattle.spec_format.specs.Address.{blocks_256, kind_of};
ghost use Rattle.blk_io.specs.Faults.{IfDamaged, IfDevice, UndamagedWhere};
ghost use Rattle.blk_disk.specs.Open.{IsOpen};
ghost use Rattle.blk_disk.specs.Tables.{is_node_among, stands_among};
ghost use Rattle.blk_object.specs.FailedChecks.{IsFailedCheck};
ghost use Rattle.blk_object.specs.Removing.{MayGoOut, TakesOut, StopsTakingOut};

use blk_addr::Addr;
use blk_chain::{Found, unlink};
use blk_disk::BlockFiles;
use blk_io::{Fault, Folder};
use blk_lru::remove;

/// Takes an item out: its node out of the LRU list, and then its record out of its chain, in which it comes after the
/// record before, or is the first.
///
/// This takes at most 17 folder calls for the list, and then three for the first of a chain, or five for another record.
/// A failed check is one of the removal from the list or of the unlinking.
pub fn take_out<F: Folder>(
    folder: &mut F,
    files: &BlockFiles,
    found: &Found,
    node: Addr,
) -> Result<(), Fault>
    requires node { IsTrue (is_node_among files.now node) }
    requires kind { kind_of found.now.entry ≡ blocks_256 }
    requires stands { IsTrue (stands_among files.now found.now.entry) }
    requires kind_before { IfSome found.now.before (λ before. kind_of before ≡ blocks_256) }
    requires stands_before { IfSome found.now.before (λ before. IsTrue (stands_among files.now before)) }
    requires is_open { ForSome (F.told folder.old).files (IsOpen files.now) }

    // An item that may be removed is taken out.
    ensures taken { OnOk result (TakesOut (F.told folder.old) (F.told folder.new) node found.now) }

    // At each word a prefix of the writes of the list is made, or the node is out of it and the record is in its chain yet, or out of
    // it.
    ensures stops { StopsTakingOut (F.told folder.old) (F.told folder.new) node found.now }

    ensures is_open { ForSome (F.told folder.new).files (IsOpen files.now) }

    // Corruption is a check that fails on what is read here; nothing is written after it.
    ensures damaged { IfDamaged result (IsFailedCheck files.now (F.told folder.new)) }

    // An observable folder reports corruption only for an item that may not be removed.
    ensures untold { UndamagedWhere result (F.told folder.old) (MayGoOut node found.now.entry found.now.before) }

    ensures writes { MayWrite F.told F.faults folder.old folder.new (IfDevice result) }
{
    remove(folder, files, node)?;
    unlink(folder, files, found)
}
