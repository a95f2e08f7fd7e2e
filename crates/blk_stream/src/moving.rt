// A stream gets another place.
ghost use Rattle.std.specs.Prelude.{ℕ, ◌≡◌, ◌≢◌, ◌+◌, ◌<◌, ◌≤◌, false, true, IfOk, IsTrue, Some, OnOk, length, unwrap_or};
ghost use Rattle.std.specs.Option.{ForSome};
ghost use Rattle.spec_image.specs.Told.{MayWrite, StopsWhere};
ghost use Rattle.spec_format.specs.Address.{blocks_256, external, kind_of};
ghost use Rattle.spec_format.specs.Headers.{HasWholeIndex};
ghost use Rattle.spec_format.specs.Records.{entry_size};
ghost use Rattle.spec_folder.specs.Entries.{most_stream_bytes};
ghost use Rattle.blk_io.specs.Faults.{IfDamaged, IfDevice, UndamagedWhere};
ghost use Rattle.blk_disk.specs.Tables.{Agrees, stands_among};
ghost use Rattle.blk_alloc.specs.Extending.{KeepsStanding};
ghost use Rattle.blk_stream.specs.StreamClauses.{AreRecordBytes, FillsFor, HasRecordSeal, IsFreeingCause, LeavesChecked, LeavesRead, LeavesSomePlace, OkEndsIf, StopsChecked, StopsSomePlace, UndamagedChecked};
ghost use Rattle.blk_stream.specs.Streams.{may_keep};
ghost use Rattle.blk_stream.specs.WriteClauses.{EndsByStage, EndsWithSeal, EndsWritten, IsReadAndWritable, ByStages, StopsStreamWrite, IfMoved, IfMovedCut};
ghost use Rattle.blk_stream.specs.Copying.{HasOldPlace};
ghost use Rattle.blk_stream.specs.Freeing.{MayBeFreed};
ghost use Rattle.blk_stream.specs.Moving.{CanBeFilled, FillsInProgress, IsFillDamage, LeavesPlace, LeavesPlaceInProgress};
ghost use Rattle.blk_stream.specs.Stages.{FillsByStage, HasLeftPlace, IsFilled, LeavesByStage};
ghost use Rattle.blk_stream.specs.Writing.{have_one_storage};
ghost use Rattle.blk_stream.specs.Written.{IsWriteDamage};

use crate::changing::name_place;
use crate::filling::fill;
use crate::freeing::free_place;
use crate::places::{Stored, StreamWords, StreamWrite, word_of};
use crate::placing::new_place;
use blk_addr::Addr;
use blk_disk::BlockFiles;
use blk_io::{Fault, Folder};

// The record, whose bytes were read, names another place for a stream, and then the old one is freed.
pub(crate) fn leave_place<F: Folder>(
    folder: &mut F,
    files: &BlockFiles,
    entry: Addr,
    stream: u8,
    bytes: &mut [u8],
    old: Addr,
    to: StreamWords,
) -> Result<(), Fault>
    requires stream { stream < 3 }
    requires kind { kind_of entry ≡ blocks_256 }
    requires stands { IsTrue (stands_among files.now entry) }
    requires long { length bytes.old ≡ entry_size }
    requires old { kind_of old ≢ external → IsTrue (stands_among files.now old) }
    requires agrees { ForSome (F.told folder.old).files (Agrees files.now) }
    ensures changed { OnOk result (LeavesChecked (F.told folder.old) (F.told folder.new) bytes.old entry (LeavesPlace entry stream old to.size to.word)) }
    ensures read { OnOk result (LeavesRead (F.told folder.old) (F.told folder.new) bytes.old entry (λ from. AreRecordBytes bytes.new entry)) }
    ensures sealed { OnOk result (LeavesChecked (F.told folder.old) (F.told folder.new) bytes.old entry (λ from. HasRecordSeal entry)) }
    ensures long { length bytes.new ≡ entry_size }
    ensures staged { OnOk result (LeavesSomePlace (F.told folder.old) (F.told folder.new) bytes.old entry old (HasLeftPlace entry stream old to.size to.word)) }
    ensures stops { StopsChecked (F.told folder.old) (F.told folder.new) bytes.old entry (LeavesPlaceInProgress entry stream old to.size to.word) }
    ensures stages { StopsSomePlace (F.told folder.old) (F.told folder.new) bytes.old entry old (LeavesByStage entry stream old to.size to.word) }
    ensures agrees { ForSome (F.told folder.new).files (Agrees files.now) }
    ensures cause { IfDamaged result (IsFreeingCause (F.told folder.new) old) }
    ensures untold { UndamagedChecked result (F.told folder.old) bytes.old entry (MayBeFreed old) }
    ensures writes { MayWrite F.told F.faults folder.old folder.new (IfDevice result) }
{
    name_place(folder, files, entry, stream, bytes, to.size, to.word)?;
    free_place(folder, files, old)
}

// A new place for data of a size, with what of the old bytes stays and with the new ones; none for no bytes.
fn filled_place<F: Folder>(
    folder: &mut F,
    files: &mut BlockFiles,
    old: Stored,
    size: u32,
    offset: u32,
    bytes: &[u8],
) -> Result<Option<Addr>, Fault>
    requires old { HasOldPlace files.old old }
    requires size { size ≤ most_stream_bytes }
    requires few { offset + length bytes.now ≤ size }
    requires agrees { ForSome (F.told folder.old).files (Agrees files.old) }
    requires complete { ForSome (F.told folder.old).files HasWholeIndex }
    ensures fits { IfOk result (λ addr. may_keep files.new size (unwrap_or addr 0) ≡ true) }
    ensures keeps { KeepsStanding files.old files.new }
    ensures filled { OkEndsIf result (F.told folder.old) (F.told folder.new) (CanBeFilled files.old old size) (FillsFor files.old old size offset bytes.now) }
    ensures staged { OkEndsIf result (F.told folder.old) (F.told folder.new) (CanBeFilled files.old old size) (IsFilled files.old files.new) }
    ensures agrees { OnOk result (ForSome (F.told folder.new).files (Agrees files.new)) }
    ensures stops { StopsWhere (F.told folder.old) (F.told folder.new) (CanBeFilled files.old old size) (FillsInProgress files.old files.new size) }
    ensures stages { StopsWhere (F.told folder.old) (F.told folder.new) (CanBeFilled files.old old size) (FillsByStage files.old files.new) }
    ensures damaged { IfDamaged result (IsFillDamage files.old files.new old size (F.told folder.old) (F.told folder.new)) }
    ensures untold { UndamagedWhere result (F.told folder.old) (CanBeFilled files.old old size) }
    ensures writes { MayWrite F.told F.faults folder.old folder.new (IfDevice result) }
{
    if size == 0 {
        return Ok(None);
    }
    let addr = new_place(folder, files, size)?;
    fill(folder, files, old, addr, size, offset, bytes)?;
    Ok(Some(addr))
}

// Writes bytes of a stream whose new size has another storage than the old one: a new place is filled, then the record names it, and then the old place is
// freed.
pub(crate) fn write_moved<F: Folder>(
    folder: &mut F,
    files: &mut BlockFiles,
    write: StreamWrite,
    record_bytes: &mut [u8],
    old: Stored,
    size: u32,
) -> Result<(), Fault>
    requires stream { write.stream < 3 }
    requires kind { kind_of write.entry ≡ blocks_256 }
    requires stands { IsTrue (stands_among files.old write.entry) }
    requires long { length record_bytes.old ≡ entry_size }
    requires old { HasOldPlace files.old old }
    requires some { (addr : ℕ) → old.addr ≡ Some addr → addr ≢ 0 }
    requires size { size ≤ most_stream_bytes }
    requires few { write.offset + length write.bytes.now ≤ size }
    requires other { have_one_storage old.size size ≡ false }
    requires agrees { ForSome (F.told folder.old).files (Agrees files.old) }
    requires complete { ForSome (F.told folder.old).files HasWholeIndex }
    ensures written { OnOk result (IfMovedCut (F.told folder.old) files.old record_bytes.old write.entry old size (EndsWritten (F.told folder.new) files.new)) }
    ensures staged { OnOk result (IfMoved (F.told folder.old) files.old record_bytes.old write.entry old size (EndsByStage (F.told folder.new) files.new)) }
    ensures sealed { OnOk result (IfMoved (F.told folder.old) files.old record_bytes.old write.entry old size (EndsWithSeal (F.told folder.new))) }
    ensures keeps { KeepsStanding files.old files.new }
    ensures agrees { OnOk result (ForSome (F.told folder.new).files (Agrees files.new)) }
    ensures stops { IfMovedCut (F.told folder.old) files.old record_bytes.old write.entry old size (StopsStreamWrite (F.told folder.old) (F.told folder.new)) }
    ensures stages { IfMoved (F.told folder.old) files.old record_bytes.old write.entry old size (ByStages (F.told folder.old) (F.told folder.new) files.new) }
    ensures damaged { IfDamaged result (IsWriteDamage files.old files.new (F.told folder.old) (F.told folder.new) write.entry.entry write.entry.stream) }
    ensures untold { UndamagedWhere result (F.told folder.old) (IsReadAndWritable files.old record_bytes.old write.entry old size) }
    ensures writes { MayWrite F.told F.faults folder.old folder.new (IfDevice result) }
{
    let place = old.addr;
    let StreamWrite {
        entry,
        stream,
        offset,
        bytes,
        ..
    } = write;
    let new = filled_place(folder, files, old, size, offset, bytes)?;
    let word = word_of(new);
    match place {
        Some(addr) => {
            let to = StreamWords { size, word };
            leave_place(folder, files, entry, stream, record_bytes, addr, to)
        }
        None => {
            name_place(folder, files, entry, stream, record_bytes, size, word)?;
            Ok(())
        }
    }
}
