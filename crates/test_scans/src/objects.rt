// Objects that are made and removed, in an opaque folder in memory.
use crate::same::assert_same;
use blk_chain::find;
use blk_disk::BlockFiles;
use blk_entry::node_of;
use blk_index::make;
use blk_io::{Fault, FileId, Folder, MemFolder, SilentFolder, read_word};
use blk_object::{Made, make_entry, remove_item};
use std::alloc::Global;
use std::test::Fail;
use test_folders::folders::{HEAD, Mem, give_blocks};

// The number of the session, and a moment with its two words.
const MARK: u32 = 7;

const MOMENT: u64 = 0x0123_4567_89AB_CDEF;

const MOMENT_WORDS: [u32; 2] = [0x89AB_CDEF, 0x0123_4567];

// Three keys of one bucket.
const KEYS: [&[u8]; 3] = [b"iev", b"jio", b"nab"];

// A new folder, whose block files have 1024 blocks each, of which none is allocated.
fn folder(alloc: Global) -> Result<Mem, Fail> {
    let mut f = SilentFolder::new(MemFolder::without_trail(alloc));
    make(&mut f, MOMENT)?;
    give_blocks(&mut f, 1024, [1024; 4])?;
    for number in 0..4 {
        let groups = 256u32.to_le_bytes();
        f.write_at(FileId::Block(number), 36, &groups)?;
    }
    Ok(f)
}

// Makes an object, and gives the words of its record and its node, and the number of the folder calls.
fn made(f: &mut Mem, key: &[u8]) -> Result<([u32; 2], u64), Fault> {
    let mut files = BlockFiles::load(f)?;
    if key.is_empty() || key.len() > 32768 {
        return Err(Fault::Device);
    }
    let start = f.calls();
    let Made { entry, node } = make_entry(f, &mut files, key, MARK, MOMENT)?;
    Ok(([entry.word(), node.word()], f.calls().wrapping_sub(start)))
}

// Removes the object of a key, if there is one, and gives the number of the folder calls.
fn removed(f: &mut Mem, key: &[u8]) -> Result<Option<u64>, Fault> {
    let files = BlockFiles::load(f)?;
    match find(f, &files, key, false) {
        Ok(Some(found)) => {
            let word = node_of(f, &files, found.entry)?.word();
            let Some(node) = files.node(word) else {
                return Ok(None);
            };
            let start = f.calls();
            remove_item(f, &files, &found, node)?;
            Ok(Some(f.calls().wrapping_sub(start)))
        }
        Ok(None) => Ok(None),
        Err(fault) => Err(fault),
    }
}

// Whether a key has an object.
fn is_there(f: &mut Mem, files: &BlockFiles, key: &[u8]) -> Result<bool, Fault> {
    match find(f, files, key, false) {
        Ok(Some(_)) => Ok(true),
        Ok(None) => Ok(false),
        Err(fault) => Err(fault),
    }
}

// Whether each of the three keys has one.
fn are_there(f: &mut Mem) -> Result<[bool; 3], Fault> {
    let files = BlockFiles::load(f)?;
    let mut there = [false; 3];
    for (slot, key) in there.iter_mut().zip(KEYS) {
        *slot = is_there(f, &files, key)?;
    }
    Ok(there)
}

// Four words of a file.
fn words(f: &mut Mem, file: FileId, at: [u64; 4]) -> Result<[u32; 4], Fault> {
    let mut words = [0; 4];
    for (slot, place) in words.iter_mut().zip(at) {
        *slot = read_word(f, file, place)?;
    }
    Ok(words)
}

// What the index counts, the entries and the bytes and the nodes, and the front of the LRU list.
fn counted(f: &mut Mem) -> Result<[u32; 4], Fault> {
    words(f, FileId::Index, [8, 48, 268, HEAD])
}

#[test]
fn an_object_is_made(rt: HostRuntime) -> Result<(), Fail> {
    let mut f = folder(rt.alloc())?;
    let (places, calls) = made(&mut f, b"key")?;
    assert_same(&rt, places, [0xA001_0000, 0x9000_0000]);
    assert!(rt; calls <= 70, "{calls} calls");
    assert_same(&rt, counted(&mut f), Ok([1, 3, 1, 0x9000_0000]));

    // Node, moment and length of the key in the record; moment, contents and dirty flag in the node.
    let [low, high] = MOMENT_WORDS;
    let record = words(&mut f, FileId::Block(1), [8200, 8216, 8220, 8224]);
    assert_same(&rt, record, Ok([0x9000_0000, low, high, 3]));
    let node = words(&mut f, FileId::Block(0), [8192, 8196, 8216, 8220]);
    assert_same(&rt, node, Ok([low, high, 0xA001_0000, MARK]));
    Ok(())
}

#[test]
fn long_keys_lie_in_blocks_and_files(rt: HostRuntime) -> Result<(), Fail> {
    let mut f = folder(rt.alloc())?;
    let key = [b'k'; 20000];
    let (_, _) = made(&mut f, &key[..2000])?;
    let (places, _) = made(&mut f, &key)?;
    assert_same(&rt, places, [0xA001_0001, 0x9000_0001]);
    assert_same(&rt, counted(&mut f), Ok([2, 22000, 2, 0x9000_0001]));
    let long = words(&mut f, FileId::Block(1), [8228, 8484, 8200, 8456]);
    let wanted = [0xB102_0000, 0x8000_0001, 0x9000_0000, 0x9000_0001];
    assert_same(&rt, long, Ok(wanted));
    assert_same(&rt, f.length(FileId::External(1)), Ok(Some(20001)));
    assert_same(&rt, removed(&mut f, &key), Ok(Some(39)));
    assert_same(&rt, f.length(FileId::External(1)), Ok(None));
    Ok(())
}

#[test]
fn the_middle_of_three_keys_of_a_bucket_is_removed(rt: HostRuntime) -> Result<(), Fail> {
    let mut f = folder(rt.alloc())?;
    for key in KEYS {
        let (_, _) = made(&mut f, key)?;
    }
    assert!(rt; removed(&mut f, KEYS[1])?.is_some());
    assert_same(&rt, are_there(&mut f), Ok([true, false, true]));
    assert_same(&rt, counted(&mut f), Ok([2, 6, 2, 0x9000_0002]));

    // The next one gets the places that are free.
    let (places, _) = made(&mut f, KEYS[1])?;
    assert_same(&rt, places, [0xA001_0001, 0x9000_0001]);
    assert_same(&rt, are_there(&mut f), Ok([true; 3]));
    Ok(())
}
