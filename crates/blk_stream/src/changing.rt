// The record names another place for a stream.
ghost use Rattle.std.specs.Prelude.{◌≡◌, ◌<◌, IsTrue, OnErr, OnOk, length};
ghost use Rattle.std.specs.Option.{ForSome};
ghost use Rattle.spec_image.specs.Told.{MayWrite};
ghost use Rattle.spec_format.specs.Address.{blocks_256, kind_of};
ghost use Rattle.spec_format.specs.Records.{entry_size};
ghost use Rattle.blk_disk.specs.Tables.{Agrees, stands_among};
ghost use Rattle.blk_stream.specs.Changing.{HasWords, NamesInProgress};
ghost use Rattle.blk_stream.specs.Stages.{NamesShown};
ghost use Rattle.blk_stream.specs.StreamClauses.{AreRecordBytes, HasRecordSeal, LeavesRead, StopsChecked};

use crate::places::{addr_at, size_at};
use blk_addr::Addr;
use blk_disk::BlockFiles;
use blk_io::{Failed, Folder};

// The record, whose bytes were read, names another place for a stream.
pub(crate) fn name_place<F: Folder>(
    folder: &mut F,
    files: &BlockFiles,
    entry: Addr,
    stream: u8,
    bytes: &mut [u8],
    size: u32,
    word: u32,
) -> Result<(), Failed>
    requires stream { stream < 3 }
    requires kind { kind_of entry ≡ blocks_256 }
    requires stands { IsTrue (stands_among files.now entry) }
    requires long { length bytes.old ≡ entry_size }
    requires agrees { ForSome (F.told folder.old).files (Agrees files.now) }
    ensures named { OnOk result (LeavesRead (F.told folder.old) (F.told folder.new) bytes.old entry (λ from. HasWords entry stream size word)) }
    ensures read { OnOk result (LeavesRead (F.told folder.old) (F.told folder.new) bytes.old entry (λ from. AreRecordBytes bytes.new entry)) }
    ensures sealed { OnOk result (LeavesRead (F.told folder.old) (F.told folder.new) bytes.old entry (λ from. HasRecordSeal entry)) }
    ensures long { length bytes.new ≡ entry_size }
    ensures stops { StopsChecked (F.told folder.old) (F.told folder.new) bytes.old entry (NamesInProgress entry stream) }
    ensures stages { StopsChecked (F.told folder.old) (F.told folder.new) bytes.old entry (NamesShown entry stream) }
    ensures agrees { ForSome (F.told folder.new).files (Agrees files.now) }
    ensures writes { MayWrite F.told F.faults folder.old folder.new (OnErr result) }
{
    files.update_record(
        folder,
        entry,
        bytes,
        &[(size_at(stream), size), (addr_at(stream), word)],
    )
}
