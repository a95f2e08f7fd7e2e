// The verdict on a node by itself.
ghost use Rattle.std.specs.Prelude.{◌≡◌, ◌≢◌, ◌≤◌, IfOk, IfSome, IsTrue, None, OnOk, length, true};
ghost use Rattle.std.specs.Option.{ForSome};
ghost use Rattle.spec_image.specs.Told.{ReadsOnly};
ghost use Rattle.spec_format.specs.Address.{blocks_256, kind_of};
ghost use Rattle.spec_format.specs.Records.{child};
ghost use Rattle.blk_entry.specs.Keys.{IsPlaced, may_have, most_key};
ghost use Rattle.blk_io.specs.Faults.{IfDamaged, IfDevice};
ghost use Rattle.blk_disk.specs.Tables.{Agrees, stands_among};
ghost use Rattle.blk_verdict.specs.PartNames.{IsKeyInPrefix, IsNameInPrefix};
ghost use Rattle.blk_verdict.specs.Readable.{IsReadableIf};
ghost use Rattle.blk_verdict.specs.Reads.{IsCutRead};
ghost use Rattle.blk_audit.specs.Records.{IsHashOfKey};
ghost use Rattle.blk_verdict.specs.Verdicts.{loaded_with};
ghost use Rattle.blk_verdict.specs.VerdictClauses.{ChecksPass, IsHashIfRight, IsKeyIfChild, JudgesData, JudgesKey, JudgesNode, JudgesRecord, JudgesStreams, NamesPart, WhereAgrees, has_stored_key};

use crate::keys::{has_key, read_key};
use crate::reason::Reason;
use crate::roles::{Role, read_role};
use crate::streams::has_streams;
use crate::words::reason_by_words;
use blk_addr::Addr;
use blk_audit::{ReadRecord, RecordWords, WalkedNode, read_words};
use blk_disk::BlockFiles;
use blk_entry::LONGEST_NAME;
use blk_io::{Fault, Folder};
use blk_record::{CHILD, super_fast_hash};

/// What is known of a node for which none of the reasons up to `Sparse` holds, and of the record that it names.
#[derive(Clone, Copy, Debug)]
pub struct Loaded {
    /// The address of the node.
    pub node: Addr,
    /// The address of the record.
    pub entry: Addr,
    /// What the record is.
    pub role: Role,
    /// The hash of its key.
    pub hash: u32,
    /// The number of the key's bytes.
    pub key_len: u32,
    /// The word of the storage of a long key, or 0.
    pub long_key: u32,
    /// The sizes of the streams in bytes; the last is of no stream.
    pub sizes: [u32; 4],
    /// The words of the storage of the streams, or 0; the last is of no stream.
    pub addrs: [u32; 4],
}

/// What is found of a node by itself.
#[derive(Clone, Copy, Debug)]
pub enum Verdict {
    /// None of the reasons up to `Sparse` holds.
    Loaded(Loaded),
    /// The first of them that holds.
    Dropped(Reason),
}

/// The verdict on a node, by the record that it names and by whether it is dirty.
///
/// One folder call reads the record, and one its key; the others are those of `load_walked`. `reached` says whether a chain
/// reaches the contents. A failed check is a read that gave too few bytes; a folder whose files are those of `files` gives none.
pub fn load<F: Folder>(
    folder: &mut F,
    files: &BlockFiles,
    node: &WalkedNode,
    reached: bool,
) -> Result<Verdict, Fault>
    ensures verdict { IfOk result (λ verdict. WhereAgrees (F.told folder.old) files.now (JudgesNode node.now reached verdict)) }
    ensures readable { IfOk result (IsReadableIf files.now) }
    ensures reads { ReadsOnly F.told F.faults folder.old folder.new (IfDevice result) }
    ensures short { IfDamaged result (IsCutRead files.now (F.told folder.old)) }
    ensures untold { ForSome (F.told folder.old).files (Agrees files.now) → IfDamaged result (λ _. (F.told folder.old).files ≡ None) }
{
    let Some(entry) = files.entry(node.contents) else {
        return Ok(Verdict::Dropped(Reason::Contents));
    };
    let words = read_words(folder, files, entry)?;
    let said = ReadRecord {
        words,
        hash_is_right: false,
    };
    let mut name = [0u8; LONGEST_NAME as usize];
    load_words(folder, files, node, entry, &said, reached, &mut name)
}

// The verdict on a node that names a record that is there and was read before. Of a part the key is read into a prefix of `name`.
pub(crate) fn load_words<F: Folder>(
    folder: &mut F,
    files: &BlockFiles,
    node: &WalkedNode,
    entry: Addr,
    said: &ReadRecord,
    reached: bool,
    name: &mut [u8],
) -> Result<Verdict, Fault>
    requires kind { kind_of entry ≡ blocks_256 }
    requires stands { IsTrue (stands_among files.now entry) }
    requires room { length name.old ≡ most_key }
    ensures verdict { IfOk result (λ verdict. WhereAgrees (F.told folder.old) files.now (JudgesRecord node.now entry said.now reached verdict)) }
    ensures named { IfOk result (λ verdict. ForSome (F.told folder.old).files (λ image. Agrees files.now image → IsNameInPrefix image verdict name.new)) }
    ensures readable { IfOk result (IsReadableIf files.now) }
    ensures reads { ReadsOnly F.told F.faults folder.old folder.new (IfDevice result) }
    ensures short { IfDamaged result (IsCutRead files.now (F.told folder.old)) }
    ensures untold { ForSome (F.told folder.old).files (Agrees files.now) → IfDamaged result (λ _. (F.told folder.old).files ≡ None) }
{
    // Reading it tells the prover that the word is one of an address.
    let _word = entry.word();
    match reason_by_words(node.addr, entry, node.dirty, &said.words) {
        Some(reason) => Ok(Verdict::Dropped(reason)),
        None => load_data(folder, files, node.addr, entry, said, reached, name),
    }
}

// The verdict on a node by the key of its record and what comes after that.
fn load_data<F: Folder>(
    folder: &mut F,
    files: &BlockFiles,
    node: Addr,
    entry: Addr,
    said: &ReadRecord,
    reached: bool,
    name: &mut [u8],
) -> Result<Verdict, Fault>
    requires kind { kind_of entry ≡ blocks_256 }
    requires stands { IsTrue (stands_among files.now entry) }
    requires has { may_have entry said.now.words.key_len ≡ true }
    requires room { length name.old ≡ most_key }
    ensures verdict { IfOk result (λ verdict. ForSome (F.told folder.old).files (JudgesData files.now node entry said.now reached verdict)) }
    ensures named { IfOk result (λ verdict. ForSome (F.told folder.old).files (λ image. Agrees files.now image → IsNameInPrefix image verdict name.new)) }
    ensures readable { IfOk result (IsReadableIf files.now) }
    ensures reads { ReadsOnly F.told F.faults folder.old folder.new (IfDevice result) }
    ensures short { IfDamaged result (IsCutRead files.now (F.told folder.old)) }
    ensures untold { ForSome (F.told folder.old).files (Agrees files.now) → IfDamaged result (λ _. (F.told folder.old).files ≡ None) }
{
    if has_key(folder, files, &said.words)? {
        load_key(folder, files, node, entry, said, reached, name)
    } else {
        Ok(Verdict::Dropped(Reason::KeyPlace))
    }
}

// The verdict on a node by the key of its record, which is stored, and what comes after that.
fn load_key<F: Folder>(
    folder: &mut F,
    files: &BlockFiles,
    node: Addr,
    entry: Addr,
    said: &ReadRecord,
    reached: bool,
    name: &mut [u8],
) -> Result<Verdict, Fault>
    requires kind { kind_of entry ≡ blocks_256 }
    requires stands { IsTrue (stands_among files.now entry) }
    requires placed { IsPlaced files.now entry said.now.words.key_len said.now.words.long_key }
    requires short { said.now.words.key_len ≤ most_key }
    requires room { length name.old ≡ most_key }
    ensures verdict { IfOk result (λ verdict. ForSome (F.told folder.old).files (JudgesKey files.now node entry said.now reached verdict)) }
    ensures named { IfOk result (λ verdict. ForSome (F.told folder.old).files (λ image. Agrees files.now image → IsNameInPrefix image verdict name.new)) }
    ensures readable { IfOk result (IsReadableIf files.now) }
    ensures reads { ReadsOnly F.told F.faults folder.old folder.new (IfDevice result) }
    ensures short { IfDamaged result (IsCutRead files.now (F.told folder.old)) }
    ensures untold { ChecksPass result (F.told folder.old) files.now (λ image. has_stored_key image entry said.now.words ≡ true) }
{
    let sum = key_sum(folder, files, entry, said, name)?;
    if said.words.hash != sum {
        return Ok(Verdict::Dropped(Reason::Hash));
    }
    if !reached {
        return Ok(Verdict::Dropped(Reason::Chain));
    }
    load_streams(folder, files, node, entry, &said.words, name)
}

// The hash of the key of a record. Where it is not known to be right, or the key is the name of a part, one folder call reads the key into a prefix of `name`.
fn key_sum<F: Folder>(
    folder: &mut F,
    files: &BlockFiles,
    entry: Addr,
    said: &ReadRecord,
    name: &mut [u8],
) -> Result<u32, Fault>
    requires kind { kind_of entry ≡ blocks_256 }
    requires stands { IsTrue (stands_among files.now entry) }
    requires placed { IsPlaced files.now entry said.now.words.key_len said.now.words.long_key }
    requires short { said.now.words.key_len ≤ most_key }
    requires room { length name.old ≡ most_key }
    ensures sum { IfOk result (λ sum. ForSome (F.told folder.old).files (IsHashIfRight entry said.now sum)) }
    ensures key { OnOk result (ForSome (F.told folder.old).files (IsKeyIfChild entry said.now.words name.new)) }
    ensures reads { ReadsOnly F.told F.faults folder.old folder.new (IfDevice result) }
    ensures short { IfDamaged result (IsCutRead files.now (F.told folder.old)) }
    ensures untold { ChecksPass result (F.told folder.old) files.now (λ image. has_stored_key image entry said.now.words ≡ true) }
{
    match known_hash(said) {
        Some(sum) => Ok(sum),
        None => read_sum(folder, files, entry, &said.words, name),
    }
}

// The hash of the key of a record, where it is known to be right and the key is no name, which has to be read.
fn known_hash(said: &ReadRecord) -> Option<u32>
    ensures known { IfSome result (λ sum. (sum ≡ said.now.words.hash) × (said.now.hash_is_right ≡ true)) }
    ensures read { IfSome result (λ _. said.now.words.flags ≢ child) }
{
    if said.words.flags == CHILD {
        return None;
    }
    if !said.hash_is_right {
        return None;
    }
    Some(said.words.hash)
}

// Reads the key of a record into a prefix of `name`, by one folder call, for its hash.
fn read_sum<F: Folder>(
    folder: &mut F,
    files: &BlockFiles,
    entry: Addr,
    words: &RecordWords,
    name: &mut [u8],
) -> Result<u32, Fault>
    requires kind { kind_of entry ≡ blocks_256 }
    requires stands { IsTrue (stands_among files.now entry) }
    requires placed { IsPlaced files.now entry words.now.key_len words.now.long_key }
    requires short { words.now.key_len ≤ most_key }
    requires room { length name.old ≡ most_key }
    ensures sum { IfOk result (λ sum. ForSome (F.told folder.old).files (λ image. IsHashOfKey image entry words.now sum)) }
    ensures key { OnOk result (ForSome (F.told folder.old).files (λ image. IsKeyInPrefix image entry words.now name.new)) }
    ensures reads { ReadsOnly F.told F.faults folder.old folder.new (IfDevice result) }
    ensures short { IfDamaged result (IsCutRead files.now (F.told folder.old)) }
    ensures untold { ChecksPass result (F.told folder.old) files.now (λ image. has_stored_key image entry words.now ≡ true) }
{
    let key = &mut name[..words.key_len as usize];
    read_key(folder, files, entry, words, key)?;
    Ok(super_fast_hash(key))
}

// The verdict on a node by the streams of its record. Of a part the key is a prefix of `name`; no other key is looked at.
fn load_streams<F: Folder>(
    folder: &mut F,
    files: &BlockFiles,
    node: Addr,
    entry: Addr,
    words: &RecordWords,
    name: &[u8],
) -> Result<Verdict, Fault>
    requires kind { kind_of entry ≡ blocks_256 }
    requires stands { IsTrue (stands_among files.now entry) }
    requires placed { IsPlaced files.now entry words.now.key_len words.now.long_key }
    requires short { words.now.key_len ≤ most_key }
    requires room { length name.now ≡ most_key }
    ensures verdict { IfOk result (λ verdict. ForSome (F.told folder.old).files (JudgesStreams files.now node entry words.now name.now verdict)) }
    ensures named { IfOk result (λ verdict. WhereAgrees (F.told folder.old) files.now (NamesPart entry words.now name.now verdict)) }
    ensures readable { IfOk result (IsReadableIf files.now) }
    ensures reads { ReadsOnly F.told F.faults folder.old folder.new (IfDevice result) }
    ensures short { IfDamaged result (IsCutRead files.now (F.told folder.old)) }
    ensures untold { ForSome (F.told folder.old).files (Agrees files.now) → IfDamaged result (λ _. (F.told folder.old).files ≡ None) }
{
    if !has_streams(folder, files, words)? {
        return Ok(Verdict::Dropped(Reason::Streams));
    }
    match read_role(folder, files, words, &name[..words.key_len as usize])? {
        Some(role) => Ok(Verdict::Loaded(loaded_as(node, entry, role, words))),
        None => Ok(Verdict::Dropped(Reason::Sparse)),
    }
}

// What is known of a node whose record has these words.
fn loaded_as(node: Addr, entry: Addr, role: Role, words: &RecordWords) -> Loaded
    ensures { result ≡ loaded_with node entry role words.now }
{
    Loaded {
        node,
        entry,
        role,
        hash: words.hash,
        key_len: words.key_len,
        long_key: words.long_key,
        sizes: words.sizes,
        addrs: words.addrs,
    }
}
