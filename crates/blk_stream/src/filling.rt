// A new place gets the bytes of a stream.
ghost use Rattle.std.specs.Prelude.{◌≡◌, ◌==◌, ◌+◌, ◌≤◌, ◌<◌, OnOk, if◌then◌else◌, length, unwrap_or};
ghost use Rattle.std.specs.Option.{ForSome};
ghost use Rattle.spec_image.specs.Footprint.{SameOutside};
ghost use Rattle.spec_image.specs.Told.{MayWrite, StopsFrom};
ghost use Rattle.spec_format.specs.Address.{external, kind_of};
ghost use Rattle.blk_io.specs.Faults.{IfDamaged, IfDevice, OpaqueIfDamaged};
ghost use Rattle.blk_disk.specs.Tables.{Agrees};
ghost use Rattle.blk_entry.specs.Keys.{IsInside};
ghost use Rattle.blk_stream.specs.Copying.{HasOldPlace, IsCutOld, IsOldThere, ShareNoFile};
ghost use Rattle.blk_stream.specs.Inside.{data_of};
ghost use Rattle.blk_stream.specs.StreamClauses.{LeavesFilled};

use crate::copying::copy_old;
use crate::inside::{extend_data, write_some};
use crate::places::{Stored, is_of};
use blk_addr::{Addr, Kind};
use blk_disk::BlockFiles;
use blk_io::{Fault, Folder};

// Fills a new place of data of a size: an external file, which has no bytes, gets its length; then come the old bytes before the written ones and after
// them, with zeros where they begin past the old end, and then the written ones.
pub(crate) fn fill<F: Folder>(
    folder: &mut F,
    files: &BlockFiles,
    old: Stored,
    addr: Addr,
    size: u32,
    offset: u32,
    bytes: &[u8],
) -> Result<(), Fault>
    requires old { HasOldPlace files.now old }
    requires inside { IsInside files.now addr 0 size }
    requires few { offset + length bytes.now ≤ size }
    requires agrees { ForSome (F.told folder.old).files (Agrees files.now) }
    ensures filled { OnOk result (LeavesFilled (F.told folder.old) (F.told folder.new) old addr size offset bytes.now) }
    ensures stops { StopsFrom (F.told folder.old) (F.told folder.new) (SameOutside (data_of addr)) }
    ensures agrees { ForSome (F.told folder.new).files (Agrees files.now) }
    ensures damaged { IfDamaged result (IsCutOld (F.told folder.new) old) }
    ensures untold { ForSome (F.told folder.old).files (IsOldThere old) → ShareNoFile (unwrap_or old.addr 0) addr → OpaqueIfDamaged result (F.told folder.old) }
    ensures writes { MayWrite F.told F.faults folder.old folder.new (IfDevice result) }
{
    let start = room_start(addr, old.size);
    extend_data(folder, files, addr, start, size, offset)?;
    copy_old(folder, files, old, addr, size, offset, bytes.len() as u32)?;
    write_some(folder, files, addr, offset, bytes)?;
    Ok(())
}

// Where the space begins that is to be made for a new place: at the old end in blocks, and at the start of an external file, which has no bytes.
fn room_start(addr: Addr, old: u32) -> u32
    ensures { result ≡ (if kind_of addr == external then 0 else old) }
{
    if is_of(addr, Kind::External) { 0 } else { old }
}
