// Chains in an opaque folder in memory.
ghost use Rattle.std.specs.Prelude.{◌≡◌, ◌<◌, ◌^◌, IfSome, IsTrue};
ghost use Rattle.spec_format.specs.Address.{blocks_256, kind_of};
ghost use Rattle.blk_disk.specs.Tables.{stands_among};

use crate::folders::put_all;
use crate::same::assert_same;
use blk_addr::{Addr, Kind};
use blk_chain::{Found, find, link_front, unlink};
use blk_disk::BlockFiles;
use blk_index::bucket;
use blk_io::{Damage, Failed, Fault, FileId, Folder, MemFolder, SilentFolder, StopFolder};
use blk_record::{EntryMut, RecordMut, super_fast_hash};
use std::alloc::Global;
use std::test::Fail;

// An opaque folder in memory.
pub(crate) type Silent = SilentFolder<MemFolder>;

// Three keys of one bucket, with their hashes, and two keys of one hash. The hashes are from a program of the
// published function.
pub(crate) const KEYS: [&[u8]; 3] = [b"iev", b"jio", b"nab"];

const TWINS: [&[u8]; 2] = [b"lniw", b"zrti"];

// The words of three records.
pub(crate) const WORDS: [u32; 3] = [0xA001_0000, 0xA001_0001, 0xA001_0002];

// The flags of a plain entry and of a part.
pub(crate) const PLAIN: u32 = 0;

const CHILD: u32 = 2;

// A folder with an index that names nothing, and four block files that have blocks and no allocation.
pub(crate) fn folder(alloc: Global) -> Result<Silent, Failed> {
    let mut f = SilentFolder::new(MemFolder::new(alloc));
    put_all(&mut f, [1024; 4])?;
    Ok(f)
}

// The place of the record of a word.
pub(crate) fn place_of(word: u32) -> u64
    ensures { result < 2 ^ 32 }
{
    8192 + 256 * u64::from(word % 65536)
}

// The bytes of a record of a key with this hash and length.
fn record_with(hash: u32, key_len: u32, flags: u32, next: u32) -> [u8; 96] {
    let mut bytes = [0; 96];
    let mut record = EntryMut::new(&mut bytes);
    record.set_word(0, hash);
    record.set_word(4, next);
    record.set_word(32, key_len);
    record.set_word(72, flags);
    record.seal();
    bytes
}

// The bytes of the record of a key.
fn record_for(key: &[u8], flags: u32, next: u32) -> [u8; 96] {
    let key_len = (key.len() % 0x1_0000_0000) as u32;
    record_with(super_fast_hash(key), key_len, flags, next)
}

// Writes a record and its key, by the format alone.
pub(crate) fn put_record(
    f: &mut Silent,
    word: u32,
    key: &[u8],
    flags: u32,
    next: u32,
) -> Result<(), Failed> {
    let bytes = record_for(key, flags, next);
    f.write_at(FileId::Block(1), place_of(word), &bytes)?;
    f.write_at(FileId::Block(1), place_of(word) + 96, key)
}

// The record of a word, where it is valid.
pub(crate) fn record_of(files: &BlockFiles, word: u32) -> Option<Addr>
    ensures kind { IfSome result (λ addr. kind_of addr ≡ blocks_256) }
    ensures stands { IfSome result (λ addr. IsTrue (stands_among files.now addr)) }
{
    let addr = Addr::from_word(word)?;
    if addr.kind() == Kind::B256 && files.stands(addr) {
        Some(addr)
    } else {
        None
    }
}

// Links the record of a word.
fn link<F: Folder>(f: &mut SilentFolder<F>, word: u32) -> Result<(), Fault> {
    let files = BlockFiles::load(f)?;
    match record_of(&files, word) {
        Some(entry) => link_front(f, &files, entry),
        None => Err(Fault::Device),
    }
}

// Writes a record whose next is the word of its bucket, and links it.
fn add(f: &mut Silent, word: u32, key: &[u8], flags: u32) -> Result<(), Fault> {
    let next = bucket(f, (super_fast_hash(key) % 65536) as u16)?;
    put_record(f, word, key, flags, next)?;
    link(f, word)
}

// What is found of a key and a child flag.
fn look<F: Folder>(f: &mut F, key: &[u8], child: bool) -> Result<Option<Found>, Fault> {
    let files = BlockFiles::load(f)?;
    find(f, &files, key, child)
}

// The words of what is found: of the record, and of the one before it or 0.
fn words<F: Folder>(f: &mut F, key: &[u8], child: bool) -> Result<Option<(u32, u32)>, Fault> {
    let Some(found) = look(f, key, child)? else {
        return Ok(None);
    };
    match found.before {
        Some(before) => Ok(Some((found.entry.word(), before.word()))),
        None => Ok(Some((found.entry.word(), 0))),
    }
}

// Unlinks the record of a key that is no part's, and says whether there was one.
fn take<F: Folder>(f: &mut SilentFolder<F>, key: &[u8]) -> Result<bool, Fault> {
    let files = BlockFiles::load(f)?;
    match find(f, &files, key, false) {
        Ok(Some(found)) => {
            unlink(f, &files, &found)?;
            Ok(true)
        }
        Ok(None) => Ok(false),
        Err(fault) => Err(fault),
    }
}

// A folder with three records in one chain, the last key in front.
pub(crate) fn three(alloc: Global) -> Result<Silent, Fault> {
    let mut f = folder(alloc)?;
    for (key, word) in KEYS.iter().zip(WORDS) {
        add(&mut f, word, key, PLAIN)?;
    }
    Ok(f)
}

// What is found of three keys: the words of the record and of the one before it, or 0.
type Three = [Option<(u32, u32)>; 3];

// The three keys as they are found.
fn all<F: Folder>(f: &mut F) -> Result<Three, Fault> {
    Ok([
        words(f, KEYS[0], false)?,
        words(f, KEYS[1], false)?,
        words(f, KEYS[2], false)?,
    ])
}

// All three of them, and then without each.
const WHOLE: Three = [
    Some((WORDS[0], WORDS[1])),
    Some((WORDS[1], WORDS[2])),
    Some((WORDS[2], 0)),
];

const WITHOUT: [Three; 3] = [
    [None, Some((WORDS[1], WORDS[2])), Some((WORDS[2], 0))],
    [Some((WORDS[0], WORDS[2])), None, Some((WORDS[2], 0))],
    [Some((WORDS[0], WORDS[1])), Some((WORDS[1], 0)), None],
];

// What is found of the three keys when one has been unlinked, and whether it was there then and once more.
fn taken(alloc: Global, key: usize) -> Result<(bool, Three, bool), Fault>
    requires { key < 3 }
{
    let mut f = three(alloc)?;
    let first = take(&mut f, KEYS[key])?;
    let left = all(&mut f)?;
    Ok((first, left, take(&mut f, KEYS[key])?))
}

#[test]
fn each_of_three_records_of_one_bucket_is_unlinked(rt: HostRuntime) {
    for key in 0..3usize {
        assert_same(&rt, taken(rt.alloc(), key), Ok((true, WITHOUT[key], false)));
    }
}

// The three keys as they are found when the middle, the first and the last record of their chain are unlinked in
// turn, after each of them, and the word of the bucket in the end.
fn emptied(alloc: Global) -> Result<([Three; 3], u32), Fault> {
    let mut f = three(alloc)?;
    let _middle = take(&mut f, KEYS[1])?;
    let two = all(&mut f)?;
    let _first = take(&mut f, KEYS[2])?;
    let one = all(&mut f)?;
    let _last = take(&mut f, KEYS[0])?;
    let none = all(&mut f)?;
    let front = bucket(&mut f, (super_fast_hash(KEYS[0]) % 65536) as u16)?;
    Ok(([two, one, none], front))
}

#[test]
fn a_chain_is_emptied_record_by_record(rt: HostRuntime) {
    let one = [Some((WORDS[0], 0)), None, None];
    assert_same(
        &rt,
        emptied(rt.alloc()),
        Ok(([WITHOUT[1], one, [None; 3]], 0)),
    );
}

// What is found of the keys of one hash, and the folder calls that it took to find the first.
fn twins(alloc: Global) -> Result<(Option<(u32, u32)>, Option<(u32, u32)>, u64), Fault> {
    let mut f = folder(alloc)?;
    add(&mut f, WORDS[0], TWINS[0], PLAIN)?;
    add(&mut f, WORDS[1], TWINS[1], PLAIN)?;
    let before = f.calls();
    let first = words(&mut f, TWINS[0], false)?;
    let calls = f.calls().wrapping_sub(before);
    Ok((first, words(&mut f, TWINS[1], false)?, calls))
}

#[test]
fn keys_of_one_hash_are_told_apart(rt: HostRuntime) {
    assert_same(&rt, super_fast_hash(TWINS[0]), super_fast_hash(TWINS[1]));

    // Eight calls load the files, one reads the word of the bucket, and two each record and its key.
    let found = (
        Some((WORDS[0], WORDS[1])),
        Some((WORDS[1], 0)),
        8 + 1 + 2 + 2,
    );
    assert_same(&rt, twins(rt.alloc()), Ok(found));
}

// The folder calls that it takes to find the last of three records of other hashes.
fn calls_of_finding(alloc: Global) -> Result<u64, Fault> {
    let mut f = three(alloc)?;
    let before = f.calls();
    let _found = words(&mut f, KEYS[0], false)?;
    Ok(f.calls().wrapping_sub(before))
}

#[test]
fn records_of_other_hashes_are_passed_by_one_call_each(rt: HostRuntime) {
    // Two records are passed, and two calls read the last and its key.
    assert_same(&rt, calls_of_finding(rt.alloc()), Ok(8 + 1 + 2 + 2));
}

// What is found of a key: of a part where there is none, of a part, and of an entry that is none, with the
// folder calls that the last takes.
fn with_child(alloc: Global) -> Result<(Three, u64), Fault> {
    let mut f = folder(alloc)?;
    add(&mut f, WORDS[0], KEYS[0], PLAIN)?;
    let none = words(&mut f, KEYS[0], true)?;
    add(&mut f, WORDS[1], KEYS[0], CHILD)?;
    let child = words(&mut f, KEYS[0], true)?;
    let before = f.calls();
    let plain = words(&mut f, KEYS[0], false)?;
    Ok(([none, child, plain], f.calls().wrapping_sub(before)))
}

#[test]
fn a_child_has_another_name(rt: HostRuntime) {
    let found = [None, Some((WORDS[1], 0)), Some((WORDS[0], WORDS[1]))];

    // The part's record is passed by one call.
    assert_same(&rt, with_child(rt.alloc()), Ok((found, 8 + 1 + 1 + 2)));
}

// Makes the bucket of a key name this record.
fn put_front(f: &mut Silent, key: &[u8], word: u32) -> Result<(), Failed> {
    let at = 368 + 4 * u64::from(super_fast_hash(key) % 65536);
    f.write_at(FileId::Index, at, &word.to_le_bytes())
}

// A folder where the bucket of the three keys names one record, of the first key and with this next.
fn one(alloc: Global, next: u32) -> Result<Silent, Fault> {
    let mut f = folder(alloc)?;
    put_record(&mut f, WORDS[0], KEYS[0], PLAIN, next)?;
    put_front(&mut f, KEYS[0], WORDS[0])?;
    Ok(f)
}

// What is found of a key that is no part's, and the folder calls that it takes.
fn counted(f: &mut Silent, key: &[u8]) -> Result<(Option<(u32, u32)>, u64), Fault> {
    let before = f.calls();
    let found = words(f, key, false)?;
    Ok((found, f.calls().wrapping_sub(before)))
}

// A search for the first key after a record with its hash and a length of 4 bytes.
fn behind_another_length(alloc: Global) -> Result<(Option<(u32, u32)>, u64), Fault> {
    let mut f = one(alloc, 0)?;
    let longer = record_with(super_fast_hash(KEYS[0]), 4, PLAIN, WORDS[0]);
    f.write_at(FileId::Block(1), place_of(WORDS[1]), &longer)?;
    put_front(&mut f, KEYS[0], WORDS[1])?;
    counted(&mut f, KEYS[0])
}

#[test]
fn a_record_of_another_length_is_passed_by_one_call(rt: HostRuntime) {
    // Eight calls load the files, and one reads the word of the bucket.
    let found = (Some((WORDS[0], WORDS[1])), 8 + 1 + 1 + 2);
    assert_same(&rt, behind_another_length(rt.alloc()), Ok(found));
}

// A search for a key of 32768 bytes, which are in an external file.
fn external(alloc: Global, key: &[u8]) -> Result<(Option<(u32, u32)>, u64), Fault> {
    let mut f = folder(alloc)?;
    let mut bytes = record_for(key, PLAIN, 0);
    let mut record = EntryMut::new(&mut bytes);
    record.set_word(36, 0x8000_0001);
    record.seal();
    f.write_at(FileId::Block(1), place_of(WORDS[0]), &bytes)?;
    f.set_len(FileId::External(1), 32769)?;
    f.write_at(FileId::External(1), 0, key)?;
    put_front(&mut f, key, WORDS[0])?;
    counted(&mut f, key)
}

#[test]
fn the_longest_key_is_found_by_three_calls_for_its_record(rt: HostRuntime) -> Result<(), Fail> {
    let mut key = Vec::new(rt.alloc());
    key.resize(32768, 7)?;

    // The record, and two pieces of the key.
    let found = (Some((WORDS[0], 0)), 8 + 1 + 3);
    assert_same(&rt, external(rt.alloc(), &key), Ok(found));
    Ok(())
}

// A search for the second key there, and the folder calls that it takes.
fn search(alloc: Global, next: u32) -> Result<(Result<Option<(u32, u32)>, Fault>, u64), Fault> {
    let mut f = one(alloc, next)?;
    let before = f.calls();
    let found = words(&mut f, KEYS[1], false);
    Ok((found, f.calls().wrapping_sub(before)))
}

// A failed check of a word of the first record.
fn damage(at: u32, found: u32) -> Fault {
    Fault::Damaged(Damage {
        file: FileId::Block(1),
        at: 8192 + u64::from(at),
        found,
    })
}

#[test]
fn a_loop_of_records_ends(rt: HostRuntime) {
    // Eight calls load the files, one reads the word of the bucket, and one each record.
    let found = (Err(damage(4, WORDS[0])), 8 + 1 + 131_073);
    assert_same(&rt, search(rt.alloc(), WORDS[0]), Ok(found));
}

#[test]
fn a_word_that_names_no_record_is_a_damage(rt: HostRuntime) {
    // No address, a node, and a record past the end of its file.
    for wrong in [0x2001_0000, 0x9000_0000, 0xA001_0100] {
        let found = (Err(damage(4, wrong)), 8 + 1 + 1);
        assert_same(&rt, search(rt.alloc(), wrong), Ok(found));
    }
    assert_same(&rt, search(rt.alloc(), 0), Ok((Ok(None), 8 + 1 + 1)));
}

// A search for the only key, in a record whose checksum is 5.
fn unsealed(alloc: Global) -> Result<Option<(u32, u32)>, Fault> {
    let mut f = one(alloc, 0)?;
    f.write_at(FileId::Block(1), 8192 + 92, &5u32.to_le_bytes())?;
    words(&mut f, KEYS[0], false)
}

#[test]
fn a_record_that_does_not_check_is_a_damage(rt: HostRuntime) {
    assert_same(&rt, unsealed(rt.alloc()), Err(damage(92, 5)));
}

// What is found of the three keys when one is unlinked and so many words are written, and whether it was unlinked.
fn stopped_taking(alloc: Global, key: usize, steps: u64) -> Result<(bool, Three), Fault>
    requires { key < 3 }
{
    let f = three(alloc)?;
    let mut stopped = SilentFolder::new(StopFolder::new(f.into_inner(), steps));
    let done = take(&mut stopped, KEYS[key]).is_ok();
    let mut f = SilentFolder::new(stopped.into_inner().into_inner());
    Ok((done, all(&mut f)?))
}

#[test]
fn unlinking_takes_effect_at_one_word(rt: HostRuntime) {
    // The word of the bucket.
    for (steps, done, found) in [(0, false, WHOLE), (1, true, WITHOUT[2])] {
        assert_same(&rt, stopped_taking(rt.alloc(), 2, steps), Ok((done, found)));
    }

    // The checksum of the record before, its next, and the checksum.
    for key in 0..2usize {
        for steps in 0..4 {
            let found = if steps < 2 { WHOLE } else { WITHOUT[key] };
            assert_same(
                &rt,
                stopped_taking(rt.alloc(), key, steps),
                Ok((steps == 3, found)),
            );
        }
    }
}

// A folder with two linked records, and a third that is complete and isn't linked.
fn with_third(alloc: Global) -> Result<Silent, Fault> {
    let mut f = folder(alloc)?;
    add(&mut f, WORDS[0], KEYS[0], PLAIN)?;
    add(&mut f, WORDS[1], KEYS[1], PLAIN)?;
    put_record(&mut f, WORDS[2], KEYS[2], PLAIN, WORDS[1])?;
    Ok(f)
}

// What is found of the three keys when the third is linked and so many words are written, and whether it was linked.
fn stopped_linking(alloc: Global, steps: u64) -> Result<(bool, Three), Fault> {
    let f = with_third(alloc)?;
    let mut stopped = SilentFolder::new(StopFolder::new(f.into_inner(), steps));
    let done = link(&mut stopped, WORDS[2]).is_ok();
    let mut f = SilentFolder::new(stopped.into_inner().into_inner());
    Ok((done, all(&mut f)?))
}

#[test]
fn linking_takes_effect_at_one_word(rt: HostRuntime) {
    assert_same(&rt, stopped_linking(rt.alloc(), 0), Ok((false, WITHOUT[2])));
    assert_same(&rt, stopped_linking(rt.alloc(), 1), Ok((true, WHOLE)));
}
