// A new place for data.
ghost use Rattle.std.specs.Prelude.{◌≡◌, ◌≢◌, ◌==◌, ◌<◌, true, IfOk, OnOk};
ghost use Rattle.std.specs.Option.{ForSome};
ghost use Rattle.spec_image.specs.Told.{MayWrite, StopsWhere};
ghost use Rattle.spec_format.specs.Address.{external, file_selector, kind_of};
ghost use Rattle.spec_format.specs.Headers.{HasWholeIndex};
ghost use Rattle.blk_addr.specs.Kind.{kind_number};
ghost use Rattle.blk_io.specs.Faults.{IfDamaged, IfDevice, UndamagedWhere};
ghost use Rattle.blk_disk.specs.Tables.{Agrees};
ghost use Rattle.blk_entry.specs.Keys as keys;
ghost use Rattle.blk_alloc.specs.Extending.{HasItsBlocks, KeepsStanding};
ghost use Rattle.blk_stream.specs.Placing.{CanBePlaced, IsPlaceRefusal, IsNewPlace, KeepsOtherLinks, PlacesInProgress};
ghost use Rattle.blk_stream.specs.StreamClauses.{OkEndsIf};
ghost use Rattle.blk_stream.specs.Stages.{TakesInProgress, TakesPlace};

use blk_addr::{Addr, Kind, blocks_for, kind_for};
use blk_disk::BlockFiles;
use blk_io::{Fault, Folder};

// A new place for data of a size: blocks, or an external file without bytes.
pub(crate) fn new_place<F: Folder>(
    folder: &mut F,
    files: &mut BlockFiles,
    size: u32,
) -> Result<Addr, Fault>
    requires some { 0 < size }
    requires agrees { ForSome (F.told folder.old).files (Agrees files.old) }
    requires complete { ForSome (F.told folder.old).files HasWholeIndex }
    ensures stores { IfOk result (λ addr. keys.stores files.new size addr ≡ true) }
    ensures long { IfOk result (λ addr. kind_of addr ≢ external → HasItsBlocks files.new (file_selector addr)) }
    ensures keeps { KeepsStanding files.old files.new }
    ensures links { IfOk result (λ addr. KeepsOtherLinks files.old files.new addr) }
    ensures placed { OkEndsIf result (F.told folder.old) (F.told folder.new) (CanBePlaced files.old size) (IsNewPlace files.old) }
    ensures takes { OkEndsIf result (F.told folder.old) (F.told folder.new) (CanBePlaced files.old size) (TakesPlace files.old files.new) }
    ensures agrees { OnOk result (ForSome (F.told folder.new).files (Agrees files.new)) }
    ensures stops { StopsWhere (F.told folder.old) (F.told folder.new) (CanBePlaced files.old size) (PlacesInProgress files.old size) }
    ensures stages { StopsWhere (F.told folder.old) (F.told folder.new) (CanBePlaced files.old size) TakesInProgress }
    ensures cause { IfDamaged result (IsPlaceRefusal files.old files.new size (F.told folder.old) (F.told folder.new)) }
    ensures untold { UndamagedWhere result (F.told folder.old) (CanBePlaced files.old size) }
    ensures writes { MayWrite F.told F.faults folder.old folder.new (IfDevice result) }
{
    let kind = kind_for(size);
    if is_external(kind) {
        let addr = blk_external::create(folder)?;
        // Reading it tells the prover that the word is one of an address.
        let _word = addr.word();
        return Ok(addr);
    }
    blk_alloc::allocate(folder, files, kind, blocks_for(size))
}

// Whether a kind is that of external files.
fn is_external(kind: Kind) -> bool
    ensures { result ≡ (kind_number kind == external) }
{
    kind == Kind::External
}
