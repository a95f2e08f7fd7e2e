// The keys of entry records.
ghost use Rattle.std.specs.Prelude.{◌≡◌, ◌+◌, ◌%◌, ◌≤◌, ◌<◌, min, IfOk, IsOk, IsTrue, None, OnOk, false, true, length};
ghost use Rattle.std.specs.Option.{ForSome};
ghost use Rattle.spec_image.specs.Bytes.{content, words_at};
ghost use Rattle.spec_image.specs.Told.{ReadsOnly};
ghost use Rattle.blk_record.specs.Views.{entry_window};
ghost use Rattle.spec_format.specs.Address.{blocks_256, is_address, kind_of, place};
ghost use Rattle.spec_format.specs.Records.{entry_size};
ghost use Rattle.blk_io.specs.declared.folder.FileId.TheVariants as FileId;
ghost use Rattle.blk_io.specs.Faults.{IfDamaged, IfDevice, UndamagedWhereBoth};
ghost use Rattle.blk_disk.specs.Tables.{Agrees, stands_among};
ghost use Rattle.spec_format.specs.Sealed.{RecordChecks};
ghost use Rattle.spec_folder.specs.View.{entry_at};
ghost use Rattle.blk_entry.specs.Keys as keys;
ghost use Rattle.blk_entry.specs.Keys.{CanBeRead, HasKeyBytes, HasKeyPlace, HasRecord, IsRecordHead, IsHeadDamage, IsInside, IsMisplacedKey, IsPiece, IsPlaceOfKey, key_at, key_bytes};

use crate::data::{is_of, read_data};
use blk_addr::{Addr, Kind, LONGEST_SHORT_KEY, RECORD_BLOCK, blocks_for, entry_blocks, kind_for};
use blk_disk::{BlockFiles, file_of};
use blk_io::{Damage, Fault, Folder};
use blk_record::{BlockHead, EntryView, Record};

/// The longest key of all, in bytes: the name of a part.
pub const LONGEST_NAME: u32 = 32796;

// How many bytes a block of a record has.
const BLOCK: u64 = RECORD_BLOCK as u64;

/// The words of a record that say what it is, and where its chain goes on.
#[derive(Clone, Copy, Debug)]
pub struct Head {
    /// The hash of the key.
    pub hash: u32,
    /// The word of the next record in the chain, or 0.
    pub next: u32,
    /// The word of the rankings node.
    pub node: u32,
    /// The number of the key's bytes.
    pub key_len: u32,
    /// The word of the storage of a long key, or 0.
    pub long_key: u32,
    /// The sizes of the streams in bytes; the last is of no stream.
    pub sizes: [u32; 4],
    /// The words of the storage of the streams, or 0; the last is of no stream.
    pub addrs: [u32; 4],
    /// 1 where the record is of a sparse entry, 2 where it is of a part of one.
    pub flags: u32,
}

// Where a key lies: its bytes in the data of an address, after some others.
#[derive(Clone, Copy)]
pub(crate) struct KeyPlace {
    pub(crate) addr: Addr,
    pub(crate) skip: u32,
    pub(crate) len: u32,
}

/// Copies a piece of an entry's key into a prefix of `out`: the bytes from a place on, as many as there are and as fit. The number of them is given, which is 0
/// at or past the key's end.
///
/// One folder call reads the record, and one the piece. A failed check is a read that gave too few bytes, a wrong checksum of the record, a length that the key
/// can't have, or the word of a long key that isn't a valid address which stores the key.
pub fn key_piece<F: Folder>(
    f: &mut F,
    files: &BlockFiles,
    entry: Addr,
    at: u32,
    out: &mut [u8],
) -> Result<usize, Fault>
    requires kind { kind_of entry ≡ blocks_256 }
    requires stands { IsTrue (stands_among files.now entry) }
    ensures within { IfOk result (λ n. n ≤ length out.old) }

    // The piece is one of the bytes where the record's words say that its key lies, and so one of its key.
    ensures bytes { IfOk result (λ n. ForSome (F.told f.old).files (λ image. IsPiece (key_bytes image entry) at out.old out.new n)) }
    ensures piece { IfOk result (λ n. ForSome (F.told f.old).files (λ image. ForSome (key_at image entry) (λ key. IsPiece key at out.old out.new n))) }

    // The record's checksum matches or is absent, its key has a place, and the piece is in the file.
    ensures checked { OnOk result (ForSome (F.told f.old).files (HasRecord entry)) }
    ensures placed { OnOk result (ForSome (F.told f.old).files (HasKeyPlace files.now entry)) }
    ensures there { IfOk result (λ n. ForSome (F.told f.old).files (λ image. HasKeyBytes entry (min at (entry_at image entry).key_len) n image)) }
    ensures reads { ReadsOnly F.told F.faults f.old f.new (IfDevice result) }

    // An observable folder reports corruption only where the record has a wrong checksum or no key to read.
    ensures damaged { IfDamaged result (keys.IsPartDamage files.now (F.told f.old) entry at (length out.old)) }
    ensures untold { ForSome (F.told f.old).files (CanBeRead files.now entry) → IfDamaged result (λ _. (F.told f.old).files ≡ None) }
{
    let head = read_head(f, files, entry)?;
    let key = key_place(files, entry, head)?;
    let at = at.min(key.len);
    let n = ((key.len - at) as usize).min(out.len());
    let piece = &mut out[..n];
    read_data(f, files, key.addr, key.skip + at, piece)?;
    Ok(n)
}

/// Reads the words of a record that say what it is, by one folder call.
///
/// A failed check is a read that gave too few bytes, or a wrong checksum of the record.
pub fn read_head<F: Folder>(folder: &mut F, files: &BlockFiles, entry: Addr) -> Result<Head, Fault>
    requires kind { kind_of entry ≡ blocks_256 }
    requires stands { IsTrue (stands_among files.now entry) }
    ensures head { IfOk result (λ head. ForSome (F.told folder.old).files (λ image. IsRecordHead image entry head)) }
    ensures checked { OnOk result (ForSome (F.told folder.old).files (HasRecord entry)) }
    ensures reads { ReadsOnly F.told F.faults folder.old folder.new (IfDevice result) }

    // An observable folder reports corruption only for a wrong checksum of the record.
    ensures damaged { IfDamaged result (IsHeadDamage (F.told folder.old) entry) }
    ensures untold { UndamagedWhereBoth result (F.told folder.old) (Agrees files.now) (RecordChecks entry) }
{
    let mut window = [0u8; EntryView::SIZE];
    files.read_block(folder, entry, 0, &mut window)?;
    let Some(record) = EntryView::over(&window) else {
        unreachable!();
    };
    if !record.checks() {
        return Err(record_damage(entry, EntryView::SEAL as u32, record.word(EntryView::SEAL)));
    }
    Ok(Head {
        hash: record.word(EntryView::HASH as usize),
        next: record.word(EntryView::NEXT as usize),
        node: record.word(EntryView::NODE as usize),
        key_len: record.word(EntryView::KEY_LEN as usize),
        long_key: record.word(EntryView::LONG_KEY as usize),
        sizes: four_words(&record, EntryView::DATA_SIZE as usize),
        addrs: four_words(&record, EntryView::DATA_ADDR as usize),
        flags: record.word(EntryView::FLAGS as usize),
    })
}

/// Four words of a record that lie one after the other.
pub fn four_words(view: &EntryView<'_>, at: usize) -> [u32; 4]
    requires inside { at + 16 ≤ entry_size }
    requires aligned { at % 4 ≡ 0 }
    ensures { result ≡ words_at (content (entry_window view.now)) at 4 }
{
    [
        view.word(at),
        view.word(at + 4),
        view.word(at + 8),
        view.word(at + 12),
    ]
}

/// The failed check of a word of a record: the word at a place in it, with what was found there.
pub fn record_damage(entry: Addr, at: u32, found: u32) -> Fault
    requires kind { kind_of entry ≡ blocks_256 }
    requires small { at < entry_size }
    ensures { keys.IsDamageAt entry at found result }
{
    let front = BlockHead::HEADER_LEN + u64::from(entry.start()) * BLOCK;
    Fault::Damaged(Damage {
        file: file_of(entry),
        at: front + u64::from(at),
        found,
    })
}

// Where the key of a record lies.
pub(crate) fn key_place(files: &BlockFiles, entry: Addr, head: Head) -> Result<KeyPlace, Fault>
    requires kind { kind_of entry ≡ blocks_256 }
    requires stands { IsTrue (stands_among files.now entry) }
    ensures place { IfOk result (IsPlaceOfKey entry head.key_len head.long_key) }
    ensures inside { IfOk result (λ key. IsInside files.now key.addr key.skip key.len) }
    ensures right { keys.may_have entry head.key_len ≡ true → keys.MayHoldIfLong files.now head.key_len head.long_key → IsOk result }
    ensures placed { IfOk result (λ _. keys.IsPlaced files.now entry head.key_len head.long_key) }
    ensures damaged { IfDamaged result (IsMisplacedKey files.now entry head.key_len head.long_key) }
    ensures never { IfDevice result ⊥ }
{
    if !may_have(entry, head.key_len) {
        return Err(record_damage(entry, EntryView::KEY_LEN, head.key_len));
    }
    if head.key_len <= LONGEST_SHORT_KEY {
        return Ok(KeyPlace {
            addr: entry,
            skip: EntryView::SIZE as u32,
            len: head.key_len,
        });
    }
    match long_key(files, head.key_len, head.long_key) {
        Some(addr) => Ok(KeyPlace {
            addr,
            skip: 0,
            len: head.key_len,
        }),
        None => Err(record_damage(entry, EntryView::LONG_KEY, head.long_key)),
    }
}

/// Whether a record may have a key of this length: 1 to 32796, in as many blocks.
#[tactic(auto, unfolding(crate::specs::Keys::may_have))]
pub fn may_have(entry: Addr, key_len: u32) -> bool
    requires { kind_of entry ≡ blocks_256 }
    ensures { result ≡ keys.may_have entry key_len }
{
    1 <= key_len && key_len <= LONGEST_NAME && entry.blocks() == entry_blocks(key_len)
}

/// The address of a long key of so many bytes, where the word is one that may hold it.
pub fn long_key(files: &BlockFiles, key_len: u32, word: u32) -> Option<Addr>
    requires { key_len ≤ keys.most_key }
    ensures { result ≡ keys.long_key_held files.now key_len word }
{
    let addr = Addr::from_word(word)?;
    if stores(files, addr, key_len + 1) {
        Some(addr)
    } else {
        None
    }
}

/// Whether an address is the storage of data of a size, and is valid where it is one of blocks.
pub fn stores(files: &BlockFiles, addr: Addr, size: u32) -> bool
    requires address { is_address addr ≡ true }
    requires some { 0 < size }
    ensures { result ≡ keys.stores files.now size addr }
{
    if !is_of(addr, kind_for(size)) {
        return false;
    }
    is_of(addr, Kind::External) || (addr.blocks() == blocks_for(size) && files.stands(addr))
}
