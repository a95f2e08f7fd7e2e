// Records that are found by their keys.
ghost use Rattle.std.specs.Prelude.{◌≡◌, ◌≢◌, ◌↔◌, IfOk, IfSome, IsOk, IsTrue, None, OnOk, true, length};
ghost use Rattle.std.specs.Option.{ForSome};
ghost use Rattle.spec_image.specs.Image.{HasRange, Index as index};
ghost use Rattle.spec_image.specs.Told.{ReadsOnly};
ghost use Rattle.spec_format.specs.Address.{blocks_256, kind_of};
ghost use Rattle.spec_format.specs.Hash.{hash as hash_of};
ghost use Rattle.spec_format.specs.Headers.{HasWholeIndex, place_of_bucket};
ghost use Rattle.blk_io.specs.Faults.{IfDamaged, IfDevice, OkFor};
ghost use Rattle.spec_folder.specs.Chains.{bucket_of_hash};
ghost use Rattle.spec_folder.specs.View.{store_of};
ghost use Rattle.blk_disk.specs.Tables.{is_record_among, stands_among};
ghost use Rattle.blk_entry.specs.Keys.{CanBeRead, IsRecordHead, IsPlaceDamage};
ghost use Rattle.blk_chain.specs.ChainClauses.{CanUnlinkFound, UndamagedByTable};
ghost use Rattle.blk_chain.specs.Finding.{CanBeSearched, IsAnswer, IsDanglingLink, IsChainDamage, IsKeyed, IsFaultOfLink, IsOutcome, IsSearchDamage, IsSought, IsSearchStep, IsStepAt, StandsBefore};
ghost use Rattle.spec_folder.specs.Searches.{bucket_of_key};

use crate::found::Found;
use bitflags::Flags;
use blk_addr::Addr;
use blk_disk::BlockFiles;
use blk_entry::{Head, key_is, read_head, record_damage};
use blk_index::bucket;
use blk_io::{Damage, Fault, FileId, Folder};
use blk_record::{EntryFlags, EntryView, IndexHead, super_fast_hash};

// The most records that a search passes.
const MOST_RECORDS: u32 = 131_073;

// Where a search is: at a word, after the record that has it as its next, or at the head of a chain.
#[derive(Clone, Copy)]
struct Link {
    word: u32,
    before: Option<Addr>,
}

// What a record is sought by beside its key: the hash of the key, and the child flag.
#[derive(Clone, Copy)]
struct Sought {
    hash: u32,
    child: bool,
}

// What a step finds: the record that is sought, or another one after which the search goes on.
enum Step {
    Here(Addr),
    On(Link),
}

/// Finds the record with a key and a child flag in the chain of the key's bucket, and the record
/// before it there. A record whose hash isn't that of its key has no key here. Where more than one
/// record of the chain has the key and the flag, the first is found; where none has, nothing is.
///
/// One folder call reads the word of the bucket, and one each record that is passed. Only where hash,
/// length and child flag agree is the key read too: by one call, or by two where it has more than 16398
/// bytes and the first of them are the same. So no record costs more than three calls.
///
/// A failed check is a read that gave too few bytes, a word of the chain that names no record that is there, a record with a wrong checksum or whose key has a
/// wrong length or place, or a chain that goes on after 131073 records: then the word that would be followed is found. Nothing is written.
pub fn find<F: Folder>(
    f: &mut F,
    files: &BlockFiles,
    key: &[u8],
    child: bool,
) -> Result<Option<Found>, Fault>
    // Of any chain, what is found by following it; of one that can be searched, the first record with the key and the flag.
    ensures outcome { IfOk result (λ answer. ForSome (F.told f.old).files (IsOutcome files.now key.now child answer)) }
    ensures found { OkFor result (F.told f.old) (λ answer image. CanBeSearched key.now image → IsAnswer key.now child answer image) }
    ensures checked { OnOk result (ForSome (F.told f.old).files (λ image. HasRange image index (place_of_bucket (bucket_of_key key.now)) 4)) }

    // What is found is valid, and so is the record before it; it can be unlinked.
    ensures names { IfOk result (λ answer. IfSome answer (λ found. IsTrue (is_record_among files.now found.entry))) }
    ensures kind { IfOk result (λ answer. IfSome answer (λ found. kind_of found.entry ≡ blocks_256)) }
    ensures stands { IfOk result (λ answer. IfSome answer (λ found. IsTrue (stands_among files.now found.entry))) }
    ensures names_before { IfOk result (λ answer. IfSome answer (λ found. StandsBefore files.now found.before)) }
    ensures kind_before { IfOk result (λ answer. IfSome answer (λ found. IfSome found.before (λ before. kind_of before ≡ blocks_256))) }
    ensures stands_before { IfOk result (λ answer. IfSome answer (λ found. IfSome found.before (λ before. IsTrue (stands_among files.now before)))) }
    ensures linked { IfOk result (λ answer. IfSome answer (λ found. ForSome (F.told f.old).files (CanUnlinkFound key.now found))) }
    ensures reads { ReadsOnly F.told F.faults f.old f.new (IfDevice result) }

    // An observable folder reports corruption only for a chain that can't be searched.
    ensures damaged { IfDamaged result (IsSearchDamage files.now (F.told f.old) key.now child) }
    ensures untold { ForSome (F.told f.old).files HasWholeIndex → UndamagedByTable result (F.told f.old) files.now (CanBeSearched key.now) }
{
    let hash = super_fast_hash(key);
    let word = bucket(f, (hash % IndexHead::BUCKETS) as u16)?;
    let front = Link { word, before: None };
    search(f, files, key, &Sought { hash, child }, front)
}

// Follows a chain from the word of its bucket on, up to the record that is sought.
fn search<F: Folder>(
    folder: &mut F,
    files: &BlockFiles,
    key: &[u8],
    sought: &Sought,
    front: Link,
) -> Result<Option<Found>, Fault>
    requires hash { sought.now.hash ≡ hash_of key.now }
    requires front { front.before ≡ None }
    requires word { ForSome (F.told folder.old).files (λ image. (store_of image).table (bucket_of_key key.now) ≡ front.word) }
    ensures outcome { IfOk result (λ answer. ForSome (F.told folder.old).files (IsOutcome files.now key.now sought.now.child answer)) }
    ensures found { OkFor result (F.told folder.old) (λ answer image. CanBeSearched key.now image → IsAnswer key.now sought.now.child answer image) }
    ensures names { IfOk result (λ answer. IfSome answer (λ found. IsTrue (is_record_among files.now found.entry))) }
    ensures kind { IfOk result (λ answer. IfSome answer (λ found. kind_of found.entry ≡ blocks_256)) }
    ensures stands { IfOk result (λ answer. IfSome answer (λ found. IsTrue (stands_among files.now found.entry))) }
    ensures names_before { IfOk result (λ answer. IfSome answer (λ found. StandsBefore files.now found.before)) }
    ensures kind_before { IfOk result (λ answer. IfSome answer (λ found. IfSome found.before (λ before. kind_of before ≡ blocks_256))) }
    ensures stands_before { IfOk result (λ answer. IfSome answer (λ found. IfSome found.before (λ before. IsTrue (stands_among files.now before)))) }
    ensures linked { IfOk result (λ answer. IfSome answer (λ found. ForSome (F.told folder.old).files (CanUnlinkFound key.now found))) }
    ensures reads { ReadsOnly F.told F.faults folder.old folder.new (IfDevice result) }
    ensures damaged { IfDamaged result (IsChainDamage files.now (F.told folder.old) key.now sought.now.child) }
    ensures untold { UndamagedByTable result (F.told folder.old) files.now (CanBeSearched key.now) }
{
    let mut link = front;
    let mut left = MOST_RECORDS;
    while link.word != 0 {
        if left == 0 {
            return Err(damage_of(sought.hash, &link));
        }
        left -= 1;
        match look_at(folder, files, key, sought, &link)? {
            Step::Here(entry) => {
                return Ok(Some(Found {
                    entry,
                    before: link.before,
                }));
            }
            Step::On(next) => link = next,
        }
    }
    Ok(None)
}

// Reads the record of a word, and compares it with what is sought.
fn look_at<F: Folder>(
    folder: &mut F,
    files: &BlockFiles,
    key: &[u8],
    sought: &Sought,
    link: &Link,
) -> Result<Step, Fault>
    requires hash { sought.now.hash ≡ hash_of key.now }
    requires some { link.now.word ≢ 0 }
    requires kind_before { IfSome link.now.before (λ before. kind_of before ≡ blocks_256) }
    requires named_before { StandsBefore files.now link.now.before }
    ensures step { IfOk result (λ step. ForSome (F.told folder.old).files (IsSearchStep files.now key.now sought.now.child link.now.word step)) }
    ensures stands { IfOk result (IsStepAt files.now link.now.word) }
    ensures reads { ReadsOnly F.told F.faults folder.old folder.new (IfDevice result) }
    ensures damaged { IfDamaged result (IsChainDamage files.now (F.told folder.old) key.now sought.now.child) }
    ensures untold { UndamagedByTable result (F.told folder.old) files.now (IsKeyed link.now.word) }
{
    let entry = record_of(files, sought.hash, link)?;
    let head = read_head(folder, files, entry)?;
    if is_sought(folder, files, entry, &head, key, sought)? {
        return Ok(Step::Here(entry));
    }
    Ok(Step::On(Link {
        word: head.next,
        before: Some(entry),
    }))
}

// Whether a record is the one that is sought. Its key is read only where hash, length and flag agree.
fn is_sought<F: Folder>(
    folder: &mut F,
    files: &BlockFiles,
    entry: Addr,
    head: &Head,
    key: &[u8],
    sought: &Sought,
) -> Result<bool, Fault>
    requires hash { sought.now.hash ≡ hash_of key.now }
    requires kind { kind_of entry ≡ blocks_256 }
    requires stands { IsTrue (stands_among files.now entry) }
    requires head { ForSome (F.told folder.old).files (λ image. IsRecordHead image entry head.now) }
    ensures sought { IfOk result (λ same. ForSome (F.told folder.old).files (λ image. IsTrue same ↔ IsSought key.now sought.now.child entry image)) }
    ensures reads { ReadsOnly F.told F.faults folder.old folder.new (IfDevice result) }
    ensures damaged { IfDamaged result (IsPlaceDamage files.now (F.told folder.old) entry (length key.now) head.now.long_key) }
    ensures untold { ForSome (F.told folder.old).files (CanBeRead files.now entry) → IfDamaged result (λ _. (F.told folder.old).files ≡ None) }
{
    if head.hash != sought.hash {
        return Ok(false);
    }
    if (head.flags == EntryFlags::CHILD.bits()) != sought.child {
        return Ok(false);
    }
    key_is(folder, files, entry, head, key)
}

// The record of a word, where it names one that is there.
fn record_of(files: &BlockFiles, hash: u32, link: &Link) -> Result<Addr, Fault>
    requires some { link.now.word ≢ 0 }
    requires kind_before { IfSome link.now.before (λ before. kind_of before ≡ blocks_256) }
    requires named_before { StandsBefore files.now link.now.before }
    ensures entry { IfOk result (λ entry. entry ≡ link.now.word) }
    ensures stands { IfOk result (λ entry. IsTrue (is_record_among files.now entry)) }
    ensures right { is_record_among files.now link.now.word ≡ true → IsOk result }
    ensures damaged { IfDamaged result (IsDanglingLink files.now (bucket_of_hash hash)) }
    ensures never { IfDevice result ⊥ }
{
    match files.entry(link.word) {
        Some(entry) => Ok(entry),
        None => Err(damage_of(hash, link)),
    }
}

// The failed check of the word of a link: of the word of a bucket, or of a record's next.
fn damage_of(hash: u32, link: &Link) -> Fault
    requires kind_before { IfSome link.now.before (λ before. kind_of before ≡ blocks_256) }
    ensures { IsFaultOfLink (bucket_of_hash hash) link.now.before link.now.word result }
{
    match link.before {
        Some(before) => record_damage(before, EntryView::NEXT, link.word),
        None => Fault::Damaged(Damage {
            file: FileId::Index,
            at: IndexHead::TABLE + 4 * u64::from(hash % IndexHead::BUCKETS),
            found: link.word,
        }),
    }
}
