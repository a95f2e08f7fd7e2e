// The streams of a record that is judged.
ghost use Rattle.std.specs.Prelude.{◌≡◌, IfOk, IsTrue, OnErr, true, slice_index};
ghost use Rattle.std.specs.Option.{ForSome};
ghost use Rattle.spec_image.specs.Told.{ReadsOnly};
ghost use Rattle.blk_disk.specs.Tables.{Agrees};
ghost use Rattle.blk_entry.specs.Keys.{stores};
ghost use Rattle.blk_verdict.specs.Streams.{is_stream};
ghost use Rattle.blk_verdict.specs.VerdictClauses.{WhereAgrees, has_stored_streams};

use crate::storage::is_stored;
use blk_audit::RecordWords;
use blk_disk::BlockFiles;
use blk_io::{Failed, Folder};
use blk_model::MOST_STREAM;

// Whether the three streams of a record are stored as their sizes ask for, and it has no fourth; one folder call for
// each that is an external file.
pub(crate) fn has_streams<F: Folder>(
    folder: &mut F,
    files: &BlockFiles,
    words: &RecordWords,
) -> Result<bool, Failed>
    ensures streams { IfOk result (λ has. WhereAgrees (F.told folder.old) files.now (λ image. has ≡ has_stored_streams image words.now)) }
    ensures stores { IfOk result (λ has. IsTrue has → stores files.now (slice_index words.now.sizes 2) (slice_index words.now.addrs 2) ≡ true) }
    ensures reads { ReadsOnly F.told F.faults folder.old folder.new (OnErr result) }
{
    if words.sizes[3] != 0 || words.addrs[3] != 0 {
        return Ok(false);
    }
    if !has_stream(folder, files, words.sizes[0], words.addrs[0])? {
        return Ok(false);
    }
    if !has_stream(folder, files, words.sizes[1], words.addrs[1])? {
        return Ok(false);
    }
    has_stream(folder, files, words.sizes[2], words.addrs[2])
}

// Whether a stream with this size and this address word is stored.
fn has_stream<F: Folder>(
    folder: &mut F,
    files: &BlockFiles,
    size: u32,
    word: u32,
) -> Result<bool, Failed>
    ensures stream { IfOk result (λ has. ForSome (F.told folder.old).files (λ image. Agrees files.now image → has ≡ is_stream image size word)) }
    ensures stores { IfOk result (λ has. IsTrue has → stores files.now size word ≡ true) }
    ensures reads { ReadsOnly F.told F.faults folder.old folder.new (OnErr result) }
{
    if size > MOST_STREAM {
        return Ok(false);
    }
    is_stored(folder, files, size, word)
}
