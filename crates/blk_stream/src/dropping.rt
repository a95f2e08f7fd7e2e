// The streams of an entry are dropped.
ghost use Rattle.std.specs.Prelude.{◌≡◌, ◌<◌, IsTrue, OnOk, length};
ghost use Rattle.std.specs.Option.{ForSome};
ghost use Rattle.spec_image.specs.Told.{LeavesFrom, MayWrite, StopsWhere};
ghost use Rattle.spec_format.specs.Address.{blocks_256, kind_of};
ghost use Rattle.spec_format.specs.Records.{entry_size};
ghost use Rattle.spec_format.specs.Sealed.{RecordChecks};
ghost use Rattle.blk_io.specs.Faults.{IfDamaged, IfDevice, UndamagedWhere};
ghost use Rattle.blk_disk.specs.Tables.{Agrees, stands_among};
ghost use Rattle.blk_stream.specs.StreamClauses.{AreRecordBytes, LeavesChecked, LeavesRead, StopsChecked, UndamagedChecked};
ghost use Rattle.blk_stream.specs.Dropping.{AreDropped, DropsInProgress, DropsStream, DropsStreamInProgress, IsDropDamage, IsStreamDropDamage, StreamCanBeDropped, StreamsCanBeDropped};

use crate::moving::leave_place;
use crate::places::{StreamWords, stored_in};
use blk_addr::Addr;
use blk_disk::BlockFiles;
use blk_io::{Fault, Folder};
use blk_record::{EntryView, Record};

/// Makes the three streams of an entry empty, one after the other. Of each that has bytes, the record gets the size and the address 0 by one update under a
/// checksum 0, and then its blocks are freed, or its file is deleted.
///
/// One folder call reads the record; for each stream in blocks eleven follow, and for each in a file five. A failed check is a read of the record that gave too
/// few bytes, or a wrong checksum of the record, and nothing is written then; or the words of a stream that don't give it its storage, or the header of a
/// block file of which the blocks can't be freed.
pub fn drop_streams<F: Folder>(f: &mut F, files: &BlockFiles, entry: Addr) -> Result<(), Fault>
    requires kind { kind_of entry ≡ blocks_256 }
    requires stands { IsTrue (stands_among files.now entry) }
    requires agrees { ForSome (F.told f.old).files (Agrees files.now) }
    ensures checked { OnOk result (ForSome (F.told f.old).files (RecordChecks entry)) }

    // No stream has bytes or a place; the blocks of those that did aren't marked, and their files are deleted; all else is as before.
    ensures dropped { OnOk result (LeavesFrom (F.told f.old) (F.told f.new) (AreDropped 3 entry)) }
    ensures agrees { ForSome (F.told f.new).files (Agrees files.now) }

    // At each word the record's checksum matches or is absent, and nothing but the words of the streams and their places has changed; until the record names a
    // stream no longer, its place is as it was; and a well-formed folder is well formed.
    ensures stops { StopsWhere (F.told f.old) (F.told f.new) (RecordChecks entry) (DropsInProgress entry) }

    // An observable folder reports corruption only where the record has a wrong checksum, or a stream isn't stored and allocated alone.
    ensures damaged { IfDamaged result (IsDropDamage files.now (F.told f.old) (F.told f.new) entry) }
    ensures untold { UndamagedWhere result (F.told f.old) (StreamsCanBeDropped entry) }
    ensures writes { MayWrite F.told F.faults f.old f.new (IfDevice result) }
{
    let mut bytes = [0u8; EntryView::SIZE];
    files.read_record(f, entry, &mut bytes)?;
    for stream in 0..3u8 {
        drop_stream(f, files, entry, stream, &mut bytes)?;
    }
    Ok(())
}

// Makes a stream empty, by the bytes of its record, which were read: the record names its place no longer, and then the place is freed.
fn drop_stream<F: Folder>(
    folder: &mut F,
    files: &BlockFiles,
    entry: Addr,
    stream: u8,
    bytes: &mut [u8],
) -> Result<(), Fault>
    requires stream { stream < 3 }
    requires kind { kind_of entry ≡ blocks_256 }
    requires stands { IsTrue (stands_among files.now entry) }
    requires long { length bytes.old ≡ entry_size }
    requires agrees { ForSome (F.told folder.old).files (Agrees files.now) }
    ensures dropped { OnOk result (LeavesChecked (F.told folder.old) (F.told folder.new) bytes.old entry (DropsStream entry stream)) }
    ensures read { OnOk result (LeavesRead (F.told folder.old) (F.told folder.new) bytes.old entry (λ from. AreRecordBytes bytes.new entry)) }
    ensures long { length bytes.new ≡ entry_size }
    ensures stops { StopsChecked (F.told folder.old) (F.told folder.new) bytes.old entry (DropsStreamInProgress entry stream) }
    ensures agrees { ForSome (F.told folder.new).files (Agrees files.now) }
    ensures damaged { IfDamaged result (IsStreamDropDamage files.now (F.told folder.new) entry stream) }
    ensures untold { UndamagedChecked result (F.told folder.old) bytes.old entry (StreamCanBeDropped files.now entry stream) }
    ensures writes { MayWrite F.told F.faults folder.old folder.new (IfDevice result) }
{
    let old = stored_in(files, entry, stream, bytes)?;
    let Some(addr) = old.addr else {
        return Ok(());
    };
    leave_place(
        folder,
        files,
        entry,
        stream,
        bytes,
        addr,
        StreamWords { size: 0, word: 0 },
    )
}
