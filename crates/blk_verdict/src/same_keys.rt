// Whether a record that is loaded has a key.
ghost use Rattle.std.specs.Prelude.{◌≡◌, ◌≤◌, List, ℕ, IfOk, OnOk, length};
ghost use Rattle.std.specs.Option.{ForSome};
ghost use Rattle.spec_image.specs.Told.{ReadsOnly};
ghost use Rattle.blk_io.specs.Faults.{IfDamaged, IfDevice};
ghost use Rattle.blk_entry.specs.Keys.{most_key};
ghost use Rattle.blk_verdict.specs.Keyed.{HasItsKey, IsKeyOf, words_kept};
ghost use Rattle.blk_verdict.specs.Readable.{IsReadable};
ghost use Rattle.blk_verdict.specs.Reads.{IsCutRead};
ghost use Rattle.blk_verdict.specs.VerdictClauses.{ChecksPass, IsItsKey, IsItsKeyBy};

use crate::keys::read_key;
use crate::loading::Loaded;
use blk_audit::RecordWords;
use blk_disk::BlockFiles;
use blk_entry::LONGEST_NAME;
use blk_io::{Fault, Folder};

/// Whether a record that is loaded has this key.
///
/// Only where its length is that of the key is the record's key read, by one folder call. A failed check is a read that
/// gave too few bytes; a folder whose files are those of `files`, and that has the key, gives none.
pub fn has_this_key<F: Folder>(
    folder: &mut F,
    files: &BlockFiles,
    loaded: &Loaded,
    key: &[u8],
) -> Result<bool, Fault>
    requires readable { IsReadable files.now loaded.now }
    ensures same { IfOk result (λ same. ForSome (F.told folder.old).files (IsItsKeyBy files.now loaded.now key.now same)) }
    ensures reads { ReadsOnly F.told F.faults folder.old folder.new (IfDevice result) }
    ensures short { IfDamaged result (IsCutRead files.now (F.told folder.old)) }
    ensures untold { ChecksPass result (F.told folder.old) files.now (λ image. HasItsKey image loaded.now) }
{
    if loaded.key_len as usize != key.len() {
        return Ok(false);
    }
    if key.len() > LONGEST_NAME as usize {
        return Ok(false);
    }
    is_stored_key(folder, files, loaded, key)
}

// Whether the key of a record, which has the length of this one, is this one.
fn is_stored_key<F: Folder>(
    folder: &mut F,
    files: &BlockFiles,
    loaded: &Loaded,
    key: &[u8],
) -> Result<bool, Fault>
    requires readable { IsReadable files.now loaded.now }
    requires len { loaded.now.key_len ≡ length key.now }
    requires short { length key.now ≤ most_key }
    ensures same { IfOk result (λ same. ForSome (F.told folder.old).files (IsItsKey loaded.now key.now same)) }
    ensures reads { ReadsOnly F.told F.faults folder.old folder.new (IfDevice result) }
    ensures short { IfDamaged result (IsCutRead files.now (F.told folder.old)) }
    ensures untold { ChecksPass result (F.told folder.old) files.now (λ image. HasItsKey image loaded.now) }
{
    let mut buffer = [0u8; LONGEST_NAME as usize];
    let stored = &mut buffer[..key.len()];
    read_key_of(folder, files, loaded, stored)?;
    Ok(*stored == *key)
}

// Reads the key of a record that is loaded into a buffer of its length, by one folder call.
pub(crate) fn read_key_of<F: Folder>(
    folder: &mut F,
    files: &BlockFiles,
    loaded: &Loaded,
    out: &mut [u8],
) -> Result<(), Fault>
    requires readable { IsReadable files.now loaded.now }
    requires size { length out.old ≡ loaded.now.key_len }
    ensures key { OnOk result (ForSome (F.told folder.old).files (λ image. (key : List ℕ) → IsKeyOf image loaded.now key → out.new ≡ key)) }
    ensures reads { ReadsOnly F.told F.faults folder.old folder.new (IfDevice result) }
    ensures short { IfDamaged result (IsCutRead files.now (F.told folder.old)) }
    ensures untold { ChecksPass result (F.told folder.old) files.now (λ image. HasItsKey image loaded.now) }
{
    let words = words_of(loaded);
    read_key(folder, files, loaded.entry, &words, out)
}

// The words that are kept of a record.
fn words_of(loaded: &Loaded) -> RecordWords
    ensures { result ≡ words_kept loaded.now }
{
    RecordWords {
        checks: true,
        bare: true,
        hash: loaded.hash,
        next: 0,
        node: loaded.node.word(),
        state: 0,
        key_len: loaded.key_len,
        long_key: loaded.long_key,
        sizes: loaded.sizes,
        addrs: loaded.addrs,
        flags: 0,
    }
}
