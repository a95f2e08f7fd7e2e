// Entries in an opaque folder in memory.
ghost use Rattle.std.specs.Prelude.{◌≡◌, ◌≤◌, IfSome, IsTrue, None, length};
ghost use Rattle.spec_format.specs.Address.{blocks_256, kind_of, rankings};
ghost use Rattle.blk_disk.specs.Tables.{stands_among};
ghost use Rattle.blk_entry.specs.Keys.{may_hold, most_key};
ghost use Rattle.blk_entry.specs.Writing.{FitsKey};

use crate::folders::{SIZE, put_files};
use crate::same::assert_same;
use blk_addr::{Addr, Kind};
use blk_disk::BlockFiles;
use blk_entry::{
    NewEntry, field, key_equals, key_piece, long_key, may_have, set_clean, set_dirty, write_entry,
};
use blk_io::{Failed, Fault, FileId, Folder, MemFolder, SilentFolder};
use blk_record::{EntryMut, NodeMut, RecordMut, super_fast_hash};
use std::alloc::Global;
use std::test::Fail;

// An opaque folder in memory.
type Mem = SilentFolder<MemFolder>;

// The first node, and where it begins.
const NODE: u32 = 0x9000_0000;

const NODE_AT: u64 = 8192;

// The hashes of a node's first 32 bytes with the contents 0xA0010000: clean, and with the dirty flag 7. They are
// from a program of the published function.
const CLEAN_SEAL: u32 = 0x84CC_AD46;

const DIRTY_SEAL: u32 = 0xDFFB_BB63;

// The length of a key, the address of its record and that of a long key.
const ENTRIES: [(u32, u32, u32); 12] = [
    (1, 0xA001_0000, 0),
    (159, 0xA001_0000, 0),
    (160, 0xA101_0000, 0),
    (415, 0xA101_0000, 0),
    (416, 0xA201_0000, 0),
    (671, 0xA201_0000, 0),
    (672, 0xA301_0000, 0),
    (927, 0xA301_0000, 0),
    (928, 0xA001_0000, 0xA301_0004),
    (16383, 0xA001_0000, 0xC303_0000),
    (16384, 0xA001_0000, 0x8000_0001),
    (32768, 0xA001_0000, 0x8000_0001),
];

// What a new entry is written with.
const MARK: u32 = 7;

const NEXT: u32 = 0xA001_0009;

const MOMENT: u64 = 0x0102_0304_0506_0708;

// The byte with which all blocks are filled before.
const FILL: u8 = 0xEE;

// A folder with the four block files, which have blocks and no allocation.
fn folder(alloc: Global) -> Result<Mem, Failed> {
    let mut f = SilentFolder::new(MemFolder::new(alloc));
    put_files(&mut f, SIZE, [1024; 4])?;
    Ok(f)
}

// A key of so many bytes.
fn key_of(alloc: Global, size: usize) -> Result<Vec<u8>, Fail> {
    let mut key = Vec::new(alloc);
    key.resize(size, 0)?;
    for (j, byte) in key.iter_mut().enumerate() {
        *byte = ((7 * (j % 65536) + j / 256) % 256) as u8;
    }
    Ok(key)
}

// Writes the record of a key in the first block, by the format alone.
fn put_record(f: &mut Mem, long_key: u32, key: &[u8]) -> Result<(), Failed> {
    let mut bytes = [0; 96];
    let mut record = EntryMut::new(&mut bytes);
    record.set_word(0, super_fast_hash(key));
    record.set_word(8, NODE);
    record.set_word(44, 5);
    record.set_word(60, 0x8000_0002);
    record.set_word(32, (key.len() % 0x1_0000_0000) as u32);
    record.set_word(36, long_key);
    record.seal();
    f.write_at(FileId::Block(1), 8192, &bytes)
}

// Writes a key at its place.
fn put_key(f: &mut Mem, long_key: u32, key: &[u8]) -> Result<(), Failed> {
    match long_key {
        0 => f.write_at(FileId::Block(1), 8192 + 96, key),
        0xA301_0004 => f.write_at(FileId::Block(1), 8192 + 1024, key),
        0xC303_0000 => f.write_at(FileId::Block(3), 8192, key),
        _ => {
            f.set_len(FileId::External(1), key.len() as u64 % 0x1_0000_0000 + 1)?;
            f.write_at(FileId::External(1), 0, key)
        }
    }
}

// The record of a word, where it is valid.
fn entry_of(files: &BlockFiles, word: u32) -> Option<Addr>
    ensures kind { IfSome result (λ addr. kind_of addr ≡ blocks_256) }
    ensures stands { IfSome result (λ addr. IsTrue (stands_among files.now addr)) }
{
    match Addr::from_word(word) {
        Some(addr) => {
            if addr.kind() == Kind::B256 && files.stands(addr) {
                Some(addr)
            } else {
                None
            }
        }
        None => None,
    }
}

// The node of a word, where it is valid.
fn node_of(files: &BlockFiles, word: u32) -> Option<Addr>
    ensures kind { IfSome result (λ addr. kind_of addr ≡ rankings) }
    ensures stands { IfSome result (λ addr. IsTrue (stands_among files.now addr)) }
{
    match Addr::from_word(word) {
        Some(addr) => {
            if addr.kind() == Kind::Rankings && files.stands(addr) {
                Some(addr)
            } else {
                None
            }
        }
        None => None,
    }
}

// Whether an entry has a key.
fn equals(f: &mut Mem, word: u32, key: &[u8]) -> Result<bool, Fault> {
    let files = BlockFiles::load(f)?;
    match entry_of(&files, word) {
        Some(entry) => key_equals(f, &files, entry, key),
        None => Err(Fault::Device),
    }
}

// The same, and the number of the folder calls that it makes.
fn counted_equals(f: &mut Mem, word: u32, key: &[u8]) -> Result<(bool, u64), Fault> {
    let before = f.calls();
    let same = equals(f, word, key)?;
    Ok((same, f.calls().wrapping_sub(before)))
}

// Whether an entry has a key, where the file of the records gets another length after the files are loaded.
fn equals_in_cut_file(f: &mut Mem, word: u32, key: &[u8], length: u64) -> Result<bool, Fault> {
    let files = BlockFiles::load(f)?;
    f.set_len(FileId::Block(1), length)?;
    match entry_of(&files, word) {
        Some(entry) => key_equals(f, &files, entry, key),
        None => Err(Fault::Device),
    }
}

// A piece of the key of an entry.
fn piece(f: &mut Mem, word: u32, at: u32, out: &mut [u8]) -> Result<usize, Fault> {
    let files = BlockFiles::load(f)?;
    match entry_of(&files, word) {
        Some(entry) => key_piece(f, &files, entry, at, out),
        None => Err(Fault::Device),
    }
}

// The length of the key of an entry.
fn length(f: &mut Mem, word: u32) -> Result<u32, Fault> {
    let files = BlockFiles::load(f)?;
    match entry_of(&files, word) {
        Some(entry) => field(f, &files, entry, 32),
        None => Err(Fault::Device),
    }
}

// Sets the dirty flag of the first node to a number, or to 0 where it becomes clean.
fn mark(f: &mut Mem, number: u32) -> Result<(), Fault> {
    let files = BlockFiles::load(f)?;
    match node_of(&files, NODE) {
        Some(node) => {
            if number == 0 {
                set_clean(f, &files, node)
            } else {
                set_dirty(f, &files, node, number)
            }
        }
        None => Err(Fault::Device),
    }
}

// A word of a file.
fn word(f: &mut Mem, file: FileId, at: u64) -> Result<u32, Failed> {
    let mut bytes = [0; 4];
    f.read_at(file, at, &mut bytes)?;
    Ok(u32::from_le_bytes(bytes))
}

// A folder with the record of a key in the first block, and with the key at its place.
fn folder_with(alloc: Global, long_key: u32, key: &[u8]) -> Result<Mem, Failed> {
    let mut f = folder(alloc)?;
    put_record(&mut f, long_key, key)?;
    put_key(&mut f, long_key, key)?;
    Ok(f)
}

// The dirty flag and the checksum of the first node.
fn node_words(f: &mut Mem) -> Result<[u32; 2], Failed> {
    let mark = word(f, FileId::Block(0), NODE_AT + 28)?;
    Ok([mark, word(f, FileId::Block(0), NODE_AT + 32)?])
}

// Sets the dirty flag of the first node: the number of folder calls, and its words then.
fn marked(f: &mut Mem, number: u32) -> Result<(u64, [u32; 2]), Fault> {
    let before = f.calls();
    mark(f, number)?;
    let calls = f.calls().wrapping_sub(before);
    Ok((calls, node_words(f)?))
}

#[test]
fn a_node_is_marked_and_clean_again(rt: HostRuntime) -> Result<(), Fail> {
    let mut f = folder(rt.alloc())?;
    let contents = 0xA001_0000u32.to_le_bytes();
    f.write_at(FileId::Block(0), NODE_AT + 24, &contents)?;

    // Eight calls load the files, one reads the node, one writes the checksum 0, and one the dirty flag and the checksum after it.
    assert_same(&rt, marked(&mut f, 7), Ok((8 + 1 + 2, [7, DIRTY_SEAL])));
    assert_same(&rt, marked(&mut f, 0), Ok((8 + 1 + 2, [0, CLEAN_SEAL])));
    Ok(())
}

// A failed check: its file, its place and its word.
type Place = (FileId, u64, u32);

// The file, the place and the word of a failed check.
fn found<T: Drop>(answer: Result<T, Fault>) -> Option<Place> {
    match answer {
        Err(Fault::Damaged(damage)) => Some((damage.file, damage.at, damage.found)),
        _ => None,
    }
}

// The failed checks where the record in the first block names this place of its key.
fn with_long_key(f: &mut Mem, long_key: u32, key: &[u8]) -> Result<[Option<Place>; 2], Failed> {
    put_record(f, long_key, key)?;
    let mut out = [0; 8];
    Ok([
        found(piece(f, 0xA001_0000, 0, &mut out)),
        found(equals(f, 0xA001_0000, key)),
    ])
}

// The failed checks of a length that two blocks don't have, and of a checksum that isn't the hash.
fn with_wrong_words(f: &mut Mem) -> Result<[Option<Place>; 2], Failed> {
    let mut out = [0; 8];
    let length = found(piece(f, 0xA101_0000, 0, &mut out));
    f.write_at(FileId::Block(1), 8192 + 92, &5u32.to_le_bytes())?;
    Ok([length, found(piece(f, 0xA001_0000, 0, &mut out))])
}

#[test]
fn a_wrong_record_is_a_damage(rt: HostRuntime) -> Result<(), Fail> {
    let mut f = folder(rt.alloc())?;
    let key = key_of(rt.alloc(), 928)?;

    // No address, one of another kind, and one of blocks that are past the last.
    for wrong in [0x2001_0000, 0xC003_0000, 0xA301_0400] {
        let damage = Some((FileId::Block(1), 8192 + 36, wrong));
        let damages = with_long_key(&mut f, wrong, &key);
        assert_same(&rt, damages, Ok([damage, damage]));
    }
    let length = Some((FileId::Block(1), 8192 + 32, 928));
    let seal = Some((FileId::Block(1), 8192 + 92, 5));
    assert_same(&rt, with_wrong_words(&mut f), Ok([length, seal]));
    Ok(())
}

// The failed checks of an external file that ends in the second piece of its key, and of a record whose last two bytes
// are past the end of its file.
fn with_cut_files(f: &mut Mem, key: &[u8]) -> Result<[Option<Place>; 3], Failed> {
    let mut out = [0; 8];
    f.set_len(FileId::External(1), 19000)?;
    Ok([
        found(equals(f, 0xA001_0000, key)),
        found(piece(f, 0xA001_0000, 18995, &mut out)),
        found(equals_in_cut_file(f, 0xA001_0000, key, 8192 + 94)),
    ])
}

#[test]
fn too_few_bytes_are_a_damage(rt: HostRuntime) -> Result<(), Fail> {
    let key = key_of(rt.alloc(), 20000)?;
    let mut f = folder_with(rt.alloc(), 0x8000_0001, &key)?;
    let second = Some((FileId::External(1), 16398, 19000 - 16398));
    let end = Some((FileId::External(1), 18995, 5));
    let record = Some((FileId::Block(1), 8192, 94));
    assert_same(&rt, with_cut_files(&mut f, &key), Ok([second, end, record]));
    Ok(())
}

// The failed checks of making the first node dirty and of making it clean, and the number of folder calls.
fn unmarked(f: &mut Mem) -> ([Option<Place>; 2], u64) {
    let before = f.calls();
    let damages = [found(mark(f, 7)), found(mark(f, 0))];
    (damages, f.calls().wrapping_sub(before))
}

#[test]
fn a_node_that_does_not_check_is_not_marked(rt: HostRuntime) -> Result<(), Fail> {
    let mut f = folder(rt.alloc())?;
    f.write_at(FileId::Block(0), NODE_AT + 32, &5u32.to_le_bytes())?;

    // Eight calls load the files each time, and one reads the node.
    let wrong = Some((FileId::Block(0), NODE_AT + 32, 5));
    assert_same(&rt, unmarked(&mut f), ([wrong, wrong], 2 * (8 + 1)));
    assert_same(&rt, node_words(&mut f), Ok([0, 5]));
    Ok(())
}

// The storage of a long key, where it is one and shares no block with the record.
fn long_place(files: &BlockFiles, entry: Addr, word: u32, key_len: u32) -> Option<Addr>
    requires { key_len ≤ most_key }
    ensures { IfSome result (λ addr. IsTrue (may_hold files.now key_len addr)) }
{
    let addr = long_key(files, key_len, word)?;
    if addr.kind() != Kind::B256 {
        return Some(addr);
    }
    let end = u64::from(entry.start()) + u64::from(entry.blocks());
    if u64::from(addr.start()) < end {
        return None;
    }
    Some(addr)
}

// A new entry with the first node, where its places fit a key.
fn new_entry(files: &BlockFiles, words: (u32, u32), child: bool, key: &[u8]) -> Option<NewEntry>
    ensures { IfSome result (λ new. FitsKey files.now new key.now) }
{
    let entry = entry_of(files, words.0)?;
    let node = node_of(files, NODE)?;
    if key.len() > 32768 || !may_have(entry, key.len() as u32) {
        return None;
    }
    let long_key = if key.len() <= 927 {
        None
    } else {
        Some(long_place(files, entry, words.1, key.len() as u32)?)
    };
    Some(NewEntry {
        entry,
        node,
        long_key,
        child,
        dirty: MARK,
        next: NEXT,
    })
}

// Writes a new entry, where its places fit the key.
fn put_entry(f: &mut Mem, words: (u32, u32), child: bool, key: &[u8]) -> Result<(), Fault> {
    let files = BlockFiles::load(f)?;
    match new_entry(&files, words, child, key) {
        Some(new) => write_entry(f, &files, &new, key, MOMENT),
        None => Err(Fault::Device),
    }
}

// Fills all blocks, and makes the external file of a key.
fn fill(f: &mut Mem, key_len: u32) -> Result<(), Failed> {
    for n in 0..4 {
        f.write_at(FileId::Block(n), 8192, &[FILL; 36864])?;
    }
    f.set_len(FileId::External(1), u64::from(key_len) + 1)?;
    f.write_at(FileId::External(1), u64::from(key_len), &[FILL])
}

// The bytes of a file.
fn bytes_of(alloc: Global, f: &mut Mem, file: FileId) -> Result<Vec<u8>, Fail> {
    let mut bytes = Vec::new(alloc);
    bytes.resize(f.length(file)?.unwrap_or(0) as usize, 0)?;
    f.read_at(file, 0, &mut bytes)?;
    Ok(bytes)
}

// Makes bytes of a range zeros.
fn blank(bytes: &mut [u8], from: usize, count: usize) {
    for byte in bytes.iter_mut().skip(from).take(count) {
        *byte = 0;
    }
}

// Whether a file of two folders is the same outside of two ranges, each a place and a number of bytes.
fn same_but(
    alloc: Global,
    f: &mut Mem,
    g: &mut Mem,
    file: FileId,
    ranges: [(usize, usize); 2],
) -> Result<bool, Fail> {
    let mut one = bytes_of(alloc, f, file)?;
    let mut other = bytes_of(alloc, g, file)?;
    for (from, count) in ranges {
        blank(&mut one, from, count);
        blank(&mut other, from, count);
    }
    Ok(one == other)
}

// The file in which a key lies, and where it begins there.
fn place_of_key(long_key: u32) -> (FileId, u64) {
    match long_key {
        0 => (FileId::Block(1), 8192 + 96),
        0xA301_0004 => (FileId::Block(1), 8192 + 1024),
        0xC303_0000 => (FileId::Block(3), 8192),
        _ => (FileId::External(1), 0),
    }
}

// Whether a key lies at its place, with one zero byte after it, and with zeros in the record where it lies elsewhere.
fn has_key(f: &mut Mem, long_key: u32, key: &[u8], out: &mut [u8]) -> Result<bool, Failed> {
    let (file, at) = place_of_key(long_key);
    f.read_at(file, at, out)?;
    let mut behind = [1];
    f.read_at(file, at.saturating_add(key.len() as u64), &mut behind)?;
    let mut place = [0; 160];
    if long_key != 0 {
        f.read_at(FileId::Block(1), 8192 + 96, &mut place)?;
    }
    Ok(&*out == key && behind == [0] && place == [0; 160])
}

// The words of a record that is the first of its file, with the checksum that its bytes have.
fn wanted_record(long_key: u32, child: bool, key: &[u8]) -> [u8; 96] {
    let mut bytes = [0; 96];
    let mut record = EntryMut::new(&mut bytes);
    record.set_word(0, super_fast_hash(key));
    record.set_word(4, NEXT);
    record.set_word(8, NODE);
    record.set_word(24, 0x0506_0708);
    record.set_word(28, 0x0102_0304);
    record.set_word(32, (key.len() % 0x1_0000_0000) as u32);
    record.set_word(36, long_key);
    record.set_word(72, if child { 2 } else { 0 });
    record.seal();
    bytes
}

// The words of its node.
fn wanted_node(entry: u32) -> [u8; 36] {
    let mut bytes = [0; 36];
    let mut node = NodeMut::new(&mut bytes);
    node.set_word(0, 0x0506_0708);
    node.set_word(4, 0x0102_0304);
    node.set_word(8, 0x0506_0708);
    node.set_word(12, 0x0102_0304);
    node.set_word(24, entry);
    node.set_word(28, MARK);
    node.seal();
    bytes
}

// Whether record and node have all their words.
fn has_records(f: &mut Mem, words: (u32, u32), child: bool, key: &[u8]) -> Result<bool, Failed> {
    let mut record = [0; 96];
    f.read_at(FileId::Block(1), 8192, &mut record)?;
    let mut node = [0; 36];
    f.read_at(FileId::Block(0), NODE_AT, &mut node)?;
    Ok(record == wanted_record(words.1, child, key) && node == wanted_node(words.0))
}

// The ranges of a file that are written where an entry gets a key of so many bytes with one after it.
fn written_in(file: FileId, long_key: u32, size: usize) -> [(usize, usize); 2] {
    let (place, at) = place_of_key(long_key);
    let key = if file == place {
        (at as usize, size)
    } else {
        (0, 0)
    };
    if file == FileId::Block(0) {
        return [(8192, 36), key];
    }
    if file == FileId::Block(1) && long_key != 0 {
        return [(8192, 256), key];
    }
    if file == FileId::Block(1) {
        return [(8192, 96), key];
    }
    [(0, 0), key]
}

// Whether the files of two folders are the same where an entry with a key of so many bytes isn't written.
fn same_elsewhere(
    alloc: Global,
    f: &mut Mem,
    g: &mut Mem,
    long_key: u32,
    size: usize,
) -> Result<bool, Fail> {
    let mut same = true;
    for file in [
        FileId::Block(0),
        FileId::Block(1),
        FileId::Block(2),
        FileId::Block(3),
        FileId::External(1),
    ] {
        let ranges = written_in(file, long_key, size);
        same &= same_but(alloc, f, g, file, ranges)?;
    }
    Ok(same)
}

// Whether all other bytes of the files are as before.
fn spares_the_rest(alloc: Global, f: &mut Mem, long_key: u32, key_len: u32) -> Result<bool, Fail> {
    let mut g = folder(alloc)?;
    fill(&mut g, key_len)?;
    same_elsewhere(alloc, f, &mut g, long_key, key_len as usize + 1)
}

// The number of folder calls that write an entry.
fn calls_of_writing(f: &mut Mem, words: (u32, u32), child: bool, key: &[u8]) -> Result<u64, Fault> {
    let before = f.calls();
    put_entry(f, words, child, key)?;
    Ok(f.calls().wrapping_sub(before))
}

// Whether record, node and key of a new entry are written, and nothing else; the last argument gets the key.
fn is_written(
    f: &mut Mem,
    words: (u32, u32),
    child: bool,
    key: &[u8],
    out: &mut [u8],
) -> Result<bool, Failed> {
    let records = has_records(f, words, child, key)?;
    Ok(has_key(f, words.1, key, out)? && records)
}

// Reads a key in two pieces: the number of bytes of each.
fn halves(f: &mut Mem, entry: u32, out: &mut [u8]) -> Result<[usize; 2], Fault> {
    let half = out.len() / 2;
    let (front, end) = out.split_at_mut(half);
    let first = piece(f, entry, 0, front)?;
    let at = (half % 0x1_0000_0000) as u32;
    Ok([first, piece(f, entry, at, end)?])
}

// Whether an entry has its key, a prefix of it, and a key of another last byte, each with the number of folder calls.
fn counted_three(f: &mut Mem, entry: u32, key: &mut [u8]) -> Result<[(bool, u64); 3], Fault> {
    let same = counted_equals(f, entry, key)?;
    let front = &key[..key.len().saturating_sub(1)];
    let shorter = counted_equals(f, entry, front)?;
    if let Some(byte) = key.last_mut() {
        *byte ^= 1;
    }
    Ok([same, shorter, counted_equals(f, entry, key)?])
}

#[test]
fn new_entries_are_written_and_read(rt: HostRuntime) -> Result<(), Fail> {
    for (key_len, entry, long_key) in ENTRIES {
        let size = key_len as usize;
        let words = (entry, long_key);
        let child = key_len % 2 == 1;
        let mut f = folder(rt.alloc())?;
        fill(&mut f, key_len)?;
        let mut key = key_of(rt.alloc(), size)?;
        let mut read = key_of(rt.alloc(), size)?;

        // Eight calls load the files, and four write.
        let calls = calls_of_writing(&mut f, words, child, &key);
        assert_same(&rt, calls, Ok(8 + 4));
        assert!(rt; is_written(&mut f, words, child, &key, &mut read)?);
        assert!(rt; spares_the_rest(rt.alloc(), &mut f, long_key, key_len)?);

        // The key is read in two pieces.
        read.fill(0);
        let pieces = halves(&mut f, entry, &mut read);
        assert_same(&rt, pieces, Ok([size / 2, size - size / 2]));
        assert_same(&rt, &read, &key);

        // Eight calls load the files, one reads the record, and one reads the key, or two a longer one. Where length or hash
        // differ the key isn't read.
        let pieces = if key_len > 16398 { 2 } else { 1 };
        let answers = [(true, 8 + 1 + pieces), (false, 8 + 1), (false, 8 + 1)];
        assert_same(&rt, counted_three(&mut f, entry, &mut key), Ok(answers));
    }
    Ok(())
}
