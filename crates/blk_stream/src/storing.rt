// A new place gets the bytes of a new stream.
ghost use Rattle.std.specs.Prelude.{◌≡◌, ◌+◌, ◌≤◌, true, IfOk, OnOk, length};
ghost use Rattle.std.specs.Option.{ForSome};
ghost use Rattle.spec_image.specs.Told.{MayWrite, StopsWhere};
ghost use Rattle.spec_format.specs.Headers.{HasWholeIndex};
ghost use Rattle.spec_folder.specs.Entries.{most_stream_bytes};
ghost use Rattle.blk_io.specs.Faults.{IfDamaged, IfDevice, UndamagedWhere};
ghost use Rattle.blk_disk.specs.Tables.{Agrees};
ghost use Rattle.blk_alloc.specs.Extending.{KeepsStanding};
ghost use Rattle.blk_stream.specs.Placing.{IsPlaceRefusal};
ghost use Rattle.blk_stream.specs.Stages.{FillsByStage};
ghost use Rattle.blk_stream.specs.StreamClauses.{HasSpaceFor, IsFilledAt, OkEndsIf, StoresNew};
ghost use Rattle.blk_stream.specs.Streams.{may_keep};

use crate::filling::fill;
use crate::places::Stored;
use crate::placing::new_place;
use blk_addr::Addr;
use blk_disk::BlockFiles;
use blk_io::{Fault, Folder};

/// Stores the bytes of a new stream, which no record names yet: zeros, and then the given ones from an offset on. A place
/// is allocated for them and filled.
///
/// A failed check is a cause of `allocate` or `create`.
pub fn store_new<F: Folder>(
    folder: &mut F,
    files: &mut BlockFiles,
    offset: u32,
    bytes: &[u8],
) -> Result<Addr, Fault>
    requires some { 1 ≤ length bytes.now }
    requires most { offset + length bytes.now ≤ most_stream_bytes }
    requires agrees { ForSome (F.told folder.old).files (Agrees files.old) }
    requires complete { ForSome (F.told folder.old).files HasWholeIndex }
    ensures fits { IfOk result (λ addr. may_keep files.new (offset + length bytes.now) addr ≡ true) }

    // Where there is space for them they are stored there.
    ensures stored { OkEndsIf result (F.told folder.old) (F.told folder.new) (HasSpaceFor files.old offset bytes.now) (StoresNew offset bytes.now) }

    // A place was allocated and then filled; at each word it is being allocated or filled.
    ensures staged { OkEndsIf result (F.told folder.old) (F.told folder.new) (HasSpaceFor files.old offset bytes.now) (IsFilledAt files.old files.new) }
    ensures stages { StopsWhere (F.told folder.old) (F.told folder.new) (HasSpaceFor files.old offset bytes.now) (FillsByStage files.old files.new) }

    ensures keeps { KeepsStanding files.old files.new }
    ensures agrees { OnOk result (ForSome (F.told folder.new).files (Agrees files.new)) }
    ensures damaged { IfDamaged result (IsPlaceRefusal files.old files.new (offset + length bytes.now) (F.told folder.old) (F.told folder.new)) }
    ensures untold { UndamagedWhere result (F.told folder.old) (HasSpaceFor files.old offset bytes.now) }
    ensures writes { MayWrite F.told F.faults folder.old folder.new (IfDevice result) }
{
    let none = Stored {
        size: 0,
        addr: None,
    };
    let size = offset + bytes.len() as u32;
    let addr = new_place(folder, files, size)?;
    fill(folder, files, none, addr, size, offset, bytes)?;
    Ok(addr)
}
