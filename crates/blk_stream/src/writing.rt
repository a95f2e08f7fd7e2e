// The bytes of a stream are written.
ghost use Rattle.std.specs.Prelude.{ℕ, ◌≡◌, ◌≢◌, ◌+◌, ◌<◌, ◌≤◌, true, IsTrue, None, Some, OnOk, length, unwrap_or};
ghost use Rattle.std.specs.Option.{ForSome};
ghost use Rattle.spec_image.specs.Told.{MayWrite};
ghost use Rattle.spec_format.specs.Address.{blocks_256, kind_of};
ghost use Rattle.spec_format.specs.Headers.{HasWholeIndex};
ghost use Rattle.spec_format.specs.Records.{entry_size};
ghost use Rattle.spec_format.specs.Sealed.{RecordChecks};
ghost use Rattle.spec_folder.specs.Entries.{most_stream_bytes};
ghost use Rattle.blk_io.specs.Faults.{IfDamaged, IfDevice, UndamagedWhere};
ghost use Rattle.blk_disk.specs.Tables.{Agrees, stands_among};
ghost use Rattle.blk_entry.specs.Keys.{IsInFile};
ghost use Rattle.blk_alloc.specs.Extending.{KeepsStanding};
ghost use Rattle.blk_stream.specs.Streams.{HasStreamPlace, address_word, may_keep, size_word};
ghost use Rattle.blk_stream.specs.Writing as writes;
ghost use Rattle.blk_stream.specs.WriteClauses.{CanBeOverwritten, EndsByStage, EndsSealed, EndsWritten, IsReadAndWritable, ByStages, StopsStreamWrite, IfStored, IfWritten, over, size_over};
ghost use Rattle.blk_stream.specs.Written.{IsWriteDamage};

use crate::inside::write_inside;
use crate::moving::write_moved;
use crate::places::{Stored, StreamWrite, stored_in};
use blk_addr::{Addr, blocks_for, kind_for};
use blk_disk::BlockFiles;
use blk_io::{Fault, Folder};
use blk_record::{EntryView, Record};

/// Writes bytes over a stream from an offset on, with zeros before them where it ends there; it ends with them where it
/// is cut, and else keeps what comes after them.
///
/// Where the storage of the new length is that of the old one, they are written in its place, and then the record gets the length. Else a new place is filled,
/// then the record gets its address and the length by one update under a checksum 0, and then the old place is freed.
///
/// A folder that erases what goes out of use gets zeros too, where the stream gets shorter within its blocks: from the
/// new end to the end of the blocks, before the record gets the length.
///
/// A failed check is a read of the record that gave too few bytes, a wrong checksum of the record, or words of the stream that don't give it its storage, and
/// nothing is written then; or a cause of `allocate`, `free` or `create`, or old bytes that are not in their file.
pub fn write<F: Folder>(
    f: &mut F,
    files: &mut BlockFiles,
    entry: Addr,
    stream: u8,
    offset: u64,
    cut: bool,
    bytes: &[u8],
) -> Result<(), Fault>
    requires stream { stream < 3 }
    requires kind { kind_of entry ≡ blocks_256 }
    requires stands { IsTrue (stands_among files.old entry) }
    requires most { offset + length bytes.now ≤ most_stream_bytes }
    requires agrees { ForSome (F.told f.old).files (Agrees files.old) }
    requires complete { ForSome (F.told f.old).files HasWholeIndex }
    requires there { ForSome (F.told f.old).files (λ image. IsInFile (address_word image entry stream) 0 (size_word image entry stream) image) }
    ensures checked { OnOk result (ForSome (F.told f.old).files (RecordChecks entry)) }
    ensures placed { OnOk result (ForSome (F.told f.old).files (HasStreamPlace files.old entry stream)) }

    // The stream has the bytes after the write, in the storage of their number; maps and files have its new place and not the old one, and all else is as
    // before.
    ensures written { OnOk result (IfWritten (F.told f.old) files.old (over entry stream offset cut bytes.now) (EndsWritten (F.told f.new) files.new)) }

    // The stream was written where it lies; or a new place was allocated and filled, then the record named it, and then the old one was freed.
    ensures staged { OnOk result (IfWritten (F.told f.old) files.old (over entry stream offset cut bytes.now) (EndsByStage (F.told f.new) files.new)) }

    ensures sealed { OnOk result (IfWritten (F.told f.old) files.old (over entry stream offset cut bytes.now) (EndsSealed (F.told f.new))) }
    ensures keeps { KeepsStanding files.old files.new }
    ensures agrees { OnOk result (ForSome (F.told f.new).files (Agrees files.new)) }

    // At each word the record's checksum matches or is absent, and nothing but its words of the stream and the two places has changed; the old place is as it
    // was until the record names the new one, which then has the bytes.
    ensures stops { IfWritten (F.told f.old) files.old (over entry stream offset cut bytes.now) (StopsStreamWrite (F.told f.old) (F.told f.new)) }

    // At each word one of these stages is under way: what was done before it is done, and of what comes after it nothing is.
    ensures stages { IfWritten (F.told f.old) files.old (over entry stream offset cut bytes.now) (ByStages (F.told f.old) (F.told f.new) files.new) }

    ensures damaged { IfDamaged result (IsWriteDamage files.old files.new (F.told f.old) (F.told f.new) entry stream) }
    ensures untold { UndamagedWhere result (F.told f.old) (CanBeOverwritten files.old (over entry stream offset cut bytes.now)) }
    ensures writes { MayWrite F.told F.faults f.old f.new (IfDevice result) }
{
    let mut record_bytes = [0u8; EntryView::SIZE];
    files.read_record(f, entry, &mut record_bytes)?;
    let old = stored_in(files, entry, stream, &record_bytes)?;
    let write = StreamWrite {
        entry,
        stream,
        offset: offset as u32,
        cut,
        bytes,
    };
    write_stored(f, files, write, &mut record_bytes, old)
}

// Writes bytes over a stream, by the bytes of its record and where it lies, which were read.
fn write_stored<F: Folder>(
    folder: &mut F,
    files: &mut BlockFiles,
    write: StreamWrite,
    record_bytes: &mut [u8],
    old: Stored,
) -> Result<(), Fault>
    requires stream { write.stream < 3 }
    requires kind { kind_of write.entry ≡ blocks_256 }
    requires stands { IsTrue (stands_among files.old write.entry) }
    requires long { length record_bytes.old ≡ entry_size }
    requires place { may_keep files.old old.size (unwrap_or old.addr 0) ≡ true }
    requires none { old.addr ≡ None → old.size ≡ 0 }
    requires some { (addr : ℕ) → old.addr ≡ Some addr → addr ≢ 0 }
    requires most { write.offset + length write.bytes.now ≤ most_stream_bytes }
    requires agrees { ForSome (F.told folder.old).files (Agrees files.old) }
    requires complete { ForSome (F.told folder.old).files HasWholeIndex }
    requires there { ForSome (F.told folder.old).files (IsInFile (unwrap_or old.addr 0) 0 old.size) }
    ensures written { OnOk result (IfStored (F.told folder.old) files.old record_bytes.old write.entry old (EndsWritten (F.told folder.new) files.new)) }
    ensures staged { OnOk result (IfStored (F.told folder.old) files.old record_bytes.old write.entry old (EndsByStage (F.told folder.new) files.new)) }
    ensures sealed { OnOk result (IfStored (F.told folder.old) files.old record_bytes.old write.entry old (EndsSealed (F.told folder.new))) }
    ensures keeps { KeepsStanding files.old files.new }
    ensures agrees { OnOk result (ForSome (F.told folder.new).files (Agrees files.new)) }
    ensures stops { IfStored (F.told folder.old) files.old record_bytes.old write.entry old (StopsStreamWrite (F.told folder.old) (F.told folder.new)) }
    ensures stages { IfStored (F.told folder.old) files.old record_bytes.old write.entry old (ByStages (F.told folder.old) (F.told folder.new) files.new) }
    ensures damaged { IfDamaged result (IsWriteDamage files.old files.new (F.told folder.old) (F.told folder.new) write.entry.entry write.entry.stream) }
    ensures untold { UndamagedWhere result (F.told folder.old) (IsReadAndWritable files.old record_bytes.old write.entry old (size_over write.entry old)) }
    ensures writes { MayWrite F.told F.faults folder.old folder.new (IfDevice result) }
{
    let place = old.addr;
    let StreamWrite {
        entry,
        stream,
        offset,
        cut,
        bytes,
    } = write;
    let size = size_after(cut, old.size, offset, bytes.len() as u32);
    let write = StreamWrite {
        entry,
        stream,
        offset,
        cut,
        bytes,
    };
    if !have_one_storage(old.size, size) {
        return write_moved(folder, files, write, record_bytes, old, size);
    }
    match place {
        Some(addr) => {
            write_inside(folder, files, write, record_bytes, addr, old.size, size)?;
            Ok(())
        }
        None => Ok(()),
    }
}

// The size of a stream after so many bytes are written from an offset on.
#[tactic(auto, unfolding(crate::specs::Writing::size_after))]
fn size_after(cut: bool, old: u32, offset: u32, count: u32) -> u32
    requires { offset + count ≤ most_stream_bytes }
    ensures { result ≡ writes.size_after cut old offset count }
{
    let end = offset + count;
    if cut { end } else { end.max(old) }
}

// Whether data of two sizes has one storage.
#[tactic(auto, unfolding(crate::specs::Writing::have_one_storage))]
fn have_one_storage(one: u32, other: u32) -> bool
    ensures { result ≡ writes.have_one_storage one other }
{
    if one == 0 || other == 0 {
        return one == other;
    }
    kind_for(one) == kind_for(other) && blocks_for(one) == blocks_for(other)
}
