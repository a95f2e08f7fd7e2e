// The key of a record that is judged.
ghost use Rattle.std.specs.Prelude.{◌≡◌, ◌≤◌, IfOk, IsTrue, OnErr, OnOk, length, true};
ghost use Rattle.std.specs.Option.{ForSome};
ghost use Rattle.spec_image.specs.Told.{ReadsOnly};
ghost use Rattle.spec_format.specs.Address.{blocks_256, kind_of};
ghost use Rattle.blk_io.specs.Faults.{IfDamaged, IfDevice};
ghost use Rattle.blk_disk.specs.Tables.{stands_among};
ghost use Rattle.blk_entry.specs.Keys.{IsPlaced, most_key};
ghost use Rattle.blk_verdict.specs.Reads.{IsCutRead};
ghost use Rattle.blk_verdict.specs.VerdictClauses.{ChecksPass, HasPlaceIfLong, IsStoredKey, SaysHasKey, has_stored_key};

use crate::storage::is_stored;
use blk_addr::{Addr, LONGEST_SHORT_KEY};
use blk_audit::RecordWords;
use blk_disk::BlockFiles;
use blk_entry::read_data;
use blk_io::{Failed, Fault, Folder};
use blk_record::{EntryView, Record};

// Whether the key of a record is stored as its length asks for; one folder call where it is an external file.
pub(crate) fn has_key<F: Folder>(
    folder: &mut F,
    files: &BlockFiles,
    words: &RecordWords,
) -> Result<bool, Failed>
    requires short { words.now.key_len ≤ most_key }
    ensures key { IfOk result (λ has. ForSome (F.told folder.old).files (SaysHasKey files.now words.now has)) }
    ensures holds { IfOk result (λ has. IsTrue has → HasPlaceIfLong files.now words.now) }
    ensures reads { ReadsOnly F.told F.faults folder.old folder.new (OnErr result) }
{
    if words.key_len <= LONGEST_SHORT_KEY {
        return Ok(words.long_key == 0);
    }
    is_stored(folder, files, words.key_len + 1, words.long_key)
}

// Reads the key of a record into a buffer of its length, by one folder call.
pub(crate) fn read_key<F: Folder>(
    folder: &mut F,
    files: &BlockFiles,
    entry: Addr,
    words: &RecordWords,
    out: &mut [u8],
) -> Result<(), Fault>
    requires kind { kind_of entry ≡ blocks_256 }
    requires stands { IsTrue (stands_among files.now entry) }
    requires placed { IsPlaced files.now entry words.now.key_len words.now.long_key }
    requires size { length out.old ≡ words.now.key_len }
    ensures key { OnOk result (ForSome (F.told folder.old).files (IsStoredKey entry words.now out.new)) }
    ensures reads { ReadsOnly F.told F.faults folder.old folder.new (IfDevice result) }
    ensures short { IfDamaged result (IsCutRead files.now (F.told folder.old)) }
    ensures untold { ChecksPass result (F.told folder.old) files.now (λ image. has_stored_key image entry words.now ≡ true) }
{
    if words.key_len <= LONGEST_SHORT_KEY {
        return read_data(folder, files, entry, EntryView::SIZE as u32, out);
    }
    let Some(addr) = Addr::from_word(words.long_key) else {
        unreachable!();
    };
    read_data(folder, files, addr, 0, out)
}
