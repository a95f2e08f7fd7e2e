// A stream of an open object is written.
ghost use Rattle.std.specs.Prelude.{◌≡◌, ◌≤◌, ◌<◌, ◌+◌, IsTrue, OnOk, length};
ghost use Rattle.std.specs.Option.{ForSome};
ghost use Rattle.spec_image.specs.Told.{MayWrite, ReadsOnly};
ghost use Rattle.spec_format.specs.Address.{blocks_256, kind_of};
ghost use Rattle.spec_folder.specs.Entries.{most_stream_bytes};
ghost use Rattle.blk_io.specs.Faults.{IfDamaged, IfDevice, OpaqueIfDamaged, UndamagedWhere};
ghost use Rattle.blk_disk.specs.Open.{IsOpen};
ghost use Rattle.blk_disk.specs.Tables.{Agrees, stands_among};
ghost use Rattle.blk_entry.specs.Keys.{IsInFile};
ghost use Rattle.blk_alloc.specs.Extending.{KeepsStanding};
ghost use Rattle.blk_object.specs.FailedChecks.{IsFailedCheck, ReadsTooFew};
ghost use Rattle.blk_object.specs.Writing.{HasStreamThere, IsStreamThere, IsStreamDamage, ForUnsettled, WhereUnsettled, WritesObject, StopsWriting, ForPartUnsettled, WherePartUnsettled, WritesPartStream, StopsPartWriting};

use crate::freeing::is_external;
use crate::making_places::check_index;
use blk_addr::Addr;
use blk_disk::{BlockFiles, file_of};
use blk_entry::{read_head, record_damage};
use blk_io::{Damage, Fault, Folder};
use blk_model::MOST_STREAM;
use blk_record::{EntryView, WORD_VALUES};
use blk_stream::write;

/// Writes bytes over a stream of a dirty object, live or doomed, or of a part of one, from an offset on, with zeros
/// before them where it ends there; it ends with them where it is cut, and else keeps what comes after them.
///
/// Where the storage of the new length is that of the old one, they are written in its place, and then the record gets
/// the length. Else a new place is filled, then the record gets its address and the length by one update under a checksum 0, and
/// then the old place is freed. The counters of the index stay. Beside the calls of `write`, one reads the record, and
/// two the lengths of files.
///
/// A failed check is one of `write`, an external file that is shorter than its stream, or an index that hasn't its
/// length.
pub fn write_object<F: Folder>(
    folder: &mut F,
    files: &mut BlockFiles,
    entry: Addr,
    stream: u8,
    offset: u64,
    cut: bool,
    bytes: &[u8],
) -> Result<(), Fault>
    requires stream { stream < 3 }
    requires kind { kind_of entry ≡ blocks_256 }
    requires stands { IsTrue (stands_among files.old entry) }
    requires most { offset + length bytes.now ≤ most_stream_bytes }
    requires is_open { ForSome (F.told folder.old).files (IsOpen files.old) }

    // Each state that was kept, with such an object, is kept with its stream written in the end, but for the counters.
    ensures written { OnOk result (WritesObject (F.told folder.old) (F.told folder.new) entry stream offset cut bytes.now) }

    // So is each with a part of such an object, which the stream makes one with another value.
    ensures part_written { OnOk result (WritesPartStream (F.told folder.old) (F.told folder.new) entry stream offset cut bytes.now) }

    // At each word the old durable contents are recovered: a dirty object isn't durable, nor are its parts.
    ensures stops { ForUnsettled (F.told folder.old) entry stream offset cut bytes.now (StopsWriting (F.told folder.old) (F.told folder.new)) }

    ensures part_stops { ForPartUnsettled (F.told folder.old) entry stream offset cut bytes.now (StopsPartWriting (F.told folder.old) (F.told folder.new)) }

    // What was valid still is.
    ensures keeps { KeepsStanding files.old files.new }
    ensures is_open { OnOk result (ForSome (F.told folder.new).files (IsOpen files.new)) }

    // Corruption is a check that fails on what is read here; nothing is written after it.
    ensures damaged { IfDamaged result (IsFailedCheck files.new (F.told folder.new)) }

    // An observable folder, with such an object or such a part, reports no corruption.
    ensures untold { WhereUnsettled (F.told folder.old) entry stream offset cut bytes.now (λ from. OpaqueIfDamaged result (F.told folder.old)) }
    ensures part_untold { WherePartUnsettled (F.told folder.old) entry stream offset cut bytes.now (λ from. OpaqueIfDamaged result (F.told folder.old)) }

    ensures writes { MayWrite F.told F.faults folder.old folder.new (IfDevice result) }
{
    check_stream(folder, files, entry, stream)?;
    write(folder, files, entry, stream, offset, cut, bytes)?;
    check_index(folder)
}

// Checks that the file of a stream has its bytes, where they lie in an external one.
fn check_stream<F: Folder>(
    folder: &mut F,
    files: &BlockFiles,
    entry: Addr,
    stream: u8,
) -> Result<(), Fault>
    requires stream { stream < 3 }
    requires kind { kind_of entry ≡ blocks_256 }
    requires stands { IsTrue (stands_among files.now entry) }
    ensures there { OnOk result (ForSome (F.told folder.old).files (IsStreamThere entry stream)) }
    ensures reads { ReadsOnly F.told F.faults folder.old folder.new (IfDevice result) }
    ensures damaged { IfDamaged result (IsFailedCheck files.now (F.told folder.new)) }
    ensures untold { ForSome (F.told folder.old).files (Agrees files.now) → UndamagedWhere result (F.told folder.old) (HasStreamThere entry stream) }
{
    let head = read_head(folder, files, entry)?;
    let size = head.sizes[usize::from(stream)];
    let word = head.addrs[usize::from(stream)];
    if size == 0 {
        return Ok(());
    }
    let Some(addr) = Addr::from_word(word) else {
        return Err(unplaced(entry, stream, size, word));
    };
    check_length(folder, addr, size)
}

// The failed check of a stream with bytes and without an address: of its size, where that is too large for a stream, and else of its address word.
fn unplaced(entry: Addr, stream: u8, size: u32, word: u32) -> Fault
    requires stream { stream < 3 }
    requires kind { kind_of entry ≡ blocks_256 }
    ensures { IsStreamDamage entry stream size word result }
{
    if size > MOST_STREAM {
        return record_damage(entry, EntryView::DATA_SIZE + 4 * u32::from(stream), size);
    }
    record_damage(entry, EntryView::DATA_ADDR + 4 * u32::from(stream), word)
}

// Checks that an external file has so many bytes; of blocks nothing is checked.
fn check_length<F: Folder>(folder: &mut F, addr: Addr, size: u32) -> Result<(), Fault>
    ensures there { OnOk result (ForSome (F.told folder.old).files (IsInFile addr 0 size)) }
    ensures reads { ReadsOnly F.told F.faults folder.old folder.new (IfDevice result) }
    ensures damaged { IfDamaged result (ReadsTooFew (F.told folder.new)) }
    ensures untold { UndamagedWhere result (F.told folder.old) (IsInFile addr 0 size) }
{
    if !is_external(addr) {
        return Ok(());
    }
    let file = file_of(addr);
    let length = folder.length(file)?.unwrap_or(0);
    if length < u64::from(size) {
        return Err(Fault::Damaged(Damage {
            file,
            at: 0,
            found: (length % WORD_VALUES) as u32,
        }));
    }
    Ok(())
}
