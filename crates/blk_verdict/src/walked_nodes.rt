// The verdict on walked nodes, by what was read with the lists.
ghost use Rattle.std.specs.Prelude.{◌≡◌, ◌&&◌, ◌==◌, IfOk, None, Some, length};
ghost use Rattle.std.specs.Option.{ForSome};
ghost use Rattle.spec_image.specs.Told.{ReadsOnly};
ghost use Rattle.spec_format.specs.Records.{child};
ghost use Rattle.blk_io.specs.Faults.{IfDamaged, IfDevice};
ghost use Rattle.blk_disk.specs.Tables.{Agrees};
ghost use Rattle.blk_audit.specs.Faults.{IsRecordDamage};
ghost use Rattle.blk_entry.specs.Keys.{most_key};
ghost use Rattle.blk_verdict.specs.PartNames.{IsNameInPrefix};
ghost use Rattle.blk_verdict.specs.Readable.{IsReadableIf};
ghost use Rattle.blk_verdict.specs.Reads.{IsCutRead};
ghost use Rattle.blk_verdict.specs.VerdictClauses.{IsVerdictOn, SaysChild, WhereNode};

use crate::loading::{Verdict, load_words};
use crate::reason::Reason;
use blk_audit::{Lists, RecordWords, WalkedNode};
use blk_disk::BlockFiles;
use blk_io::{Fault, Folder};
use blk_record::CHILD;

/// The verdict on a walked node by itself.
///
/// One folder call reads the record, where it was not read with the lists. Only where the hash of the key is not known, or the record is that of a part, does
/// one read the key, into a prefix of `name`: of a part it is there then. One more each asks for the length of a long key or a stream that is an external file,
/// and one reads the index of a parent or a part. No other byte of the streams is read. A failed check is a read that gave too few bytes; a folder whose files
/// are those of `files` gives none.
pub fn load_walked<F: Folder>(
    folder: &mut F,
    files: &BlockFiles,
    lists: &Lists,
    node: &WalkedNode,
    name: &mut [u8],
) -> Result<Verdict, Fault>
    requires room { length name.old ≡ most_key }
    ensures verdict { IfOk result (λ verdict. WhereNode (F.told folder.old) files.now lists.now node.now (IsVerdictOn node.now.addr verdict)) }
    ensures named { IfOk result (λ verdict. ForSome (F.told folder.old).files (λ image. Agrees files.now image → IsNameInPrefix image verdict name.new)) }
    ensures readable { IfOk result (IsReadableIf files.now) }
    ensures reads { ReadsOnly F.told F.faults folder.old folder.new (IfDevice result) }
    ensures short { IfDamaged result (IsCutRead files.now (F.told folder.old)) }
    ensures untold { ForSome (F.told folder.old).files (Agrees files.now) → IfDamaged result (λ _. (F.told folder.old).files ≡ None) }
{
    let Some(entry) = files.entry(node.contents) else {
        return Ok(Verdict::Dropped(Reason::Contents));
    };
    let said = lists.record_at(folder, files, entry)?;
    let reached = lists.reached.contains(entry.word());
    load_words(folder, files, node, entry, &said, reached, name)
}

/// Whether a walked node names a record that is a part's and whose checksum matches or is absent; such nodes are judged after the others.
///
/// One folder call reads a record that was not read with the lists; no other call is made. A failed check is a read
/// that gave too few bytes; a folder whose files are those of `files` gives none.
pub fn is_child<F: Folder>(
    folder: &mut F,
    files: &BlockFiles,
    lists: &Lists,
    node: &WalkedNode,
) -> Result<bool, Fault>
    ensures child { IfOk result (λ is. WhereNode (F.told folder.old) files.now lists.now node.now (SaysChild node.now.addr is)) }
    ensures reads { ReadsOnly F.told F.faults folder.old folder.new (IfDevice result) }
    ensures damaged { IfDamaged result (IsRecordDamage files.now (F.told folder.new)) }
    ensures untold { ForSome (F.told folder.new).files (Agrees files.now) → IfDamaged result (λ _. (F.told folder.new).files ≡ None) }
{
    let Some(entry) = files.entry(node.contents) else {
        return Ok(false);
    };
    let said = lists.record_at(folder, files, entry)?;
    let is = is_part(&said.words);
    Ok(is)
}

// Whether a record is a part's and its checksum matches or is absent.
fn is_part(words: &RecordWords) -> bool
    ensures { result ≡ (words.now.checks && (words.now.flags == child)) }
{
    words.checks && words.flags == CHILD
}
