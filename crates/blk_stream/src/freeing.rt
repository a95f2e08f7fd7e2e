// The place of data is freed.
ghost use Rattle.std.specs.Prelude.{◌≡◌, ◌≢◌, IsTrue, OnErr, OnOk};
ghost use Rattle.std.specs.Option.{ForSome};
ghost use Rattle.spec_image.specs.Footprint.{SameOutside};
ghost use Rattle.spec_image.specs.Told.{LeavesFrom, MayWrite, Stays, StopsFrom};
ghost use Rattle.spec_format.specs.Address.{external, kind_of};
ghost use Rattle.blk_io.specs.Faults.{IfDamaged, IfDevice, UndamagedWhere};
ghost use Rattle.blk_disk.specs.Tables.{Agrees, stands_among};
ghost use Rattle.blk_stream.specs.Freeing.{IsPlaceFreed, MayBeFreed, freeing_of};
ghost use Rattle.blk_stream.specs.StreamClauses.{IsFreeingCause};
ghost use Rattle.blk_stream.specs.Stages.{FreesPlace, FreesPlaceInProgress};

use crate::places::is_of;
use blk_addr::{Addr, Kind};
use blk_disk::BlockFiles;
use blk_io::{Failed, Fault, Folder};

// Frees the place of data: its blocks, or its file.
pub(crate) fn free_place<F: Folder>(
    folder: &mut F,
    files: &BlockFiles,
    addr: Addr,
) -> Result<(), Fault>
    requires stands { kind_of addr ≢ external → IsTrue (stands_among files.now addr) }
    requires agrees { ForSome (F.told folder.old).files (Agrees files.now) }
    ensures freed { OnOk result (LeavesFrom (F.told folder.old) (F.told folder.new) (IsPlaceFreed addr)) }
    ensures frees { OnOk result (LeavesFrom (F.told folder.old) (F.told folder.new) (FreesPlace addr)) }
    ensures stops { StopsFrom (F.told folder.old) (F.told folder.new) (SameOutside (freeing_of addr)) }
    ensures stages { StopsFrom (F.told folder.old) (F.told folder.new) (FreesPlaceInProgress addr) }
    ensures agrees { ForSome (F.told folder.new).files (Agrees files.now) }
    ensures cause { IfDamaged result (IsFreeingCause (F.told folder.old) addr) }
    ensures unwritten { IfDamaged result (λ _. Stays (F.told folder.old) (F.told folder.new)) }
    ensures untold { UndamagedWhere result (F.told folder.old) (MayBeFreed addr) }
    ensures writes { MayWrite F.told F.faults folder.old folder.new (IfDevice result) }
{
    if is_of(addr, Kind::External) {
        delete_file(folder, files, addr)?;
        Ok(())
    } else {
        blk_alloc::free(folder, files, addr)
    }
}

// Removes an external file.
fn delete_file<F: Folder>(folder: &mut F, files: &BlockFiles, addr: Addr) -> Result<(), Failed>
    requires kind { kind_of addr ≡ external }
    requires agrees { ForSome (F.told folder.old).files (Agrees files.now) }
    ensures freed { OnOk result (LeavesFrom (F.told folder.old) (F.told folder.new) (IsPlaceFreed addr)) }
    ensures frees { OnOk result (LeavesFrom (F.told folder.old) (F.told folder.new) (FreesPlace addr)) }
    ensures stops { StopsFrom (F.told folder.old) (F.told folder.new) (SameOutside (freeing_of addr)) }
    ensures stages { StopsFrom (F.told folder.old) (F.told folder.new) (FreesPlaceInProgress addr) }
    ensures agrees { ForSome (F.told folder.new).files (Agrees files.now) }
    ensures writes { MayWrite F.told F.faults folder.old folder.new (OnErr result) }
{
    // Only the contract needs the block files: naming them tells the prover what they say of the folder.
    let _files = files;
    blk_external::delete(folder, addr)
}
