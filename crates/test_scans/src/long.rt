// The longest lists and chains, over several block files.
use crate::same::assert_same;
use blk_index::make;
use blk_io::{Failed, FileId, Folder, MemFolder, SilentFolder};
use std::alloc::Global;
use std::test::Fail;
use test_folders::folders::{HEAD, Mem, NODE_NEXT, audited, dropped_at, put_words};

// The blocks of a full block file.
const FULL: u32 = 64896;

// A kind of block: its bits in a word, its size, and the files of the kind.
#[derive(Clone, Copy)]
struct Blocks {
    bits: u32,
    size: u32,
    files: [u8; 3],
}

const NODES: Blocks = Blocks {
    bits: 0x9000_0000,
    size: 36,
    files: [0, 4, 5],
};

const RECORDS: Blocks = Blocks {
    bits: 0xA000_0000,
    size: 256,
    files: [1, 6, 7],
};

// The word of a block, counted from 0 over all files of its kind.
fn word_of(blocks: Blocks, i: u32) -> u32 {
    let [first, second, third] = blocks.files;
    let file = match i / FULL {
        0 => first,
        1 => second,
        _ => third,
    };
    blocks.bits | (u32::from(file) << 16) | (i % FULL)
}

// Writes words into a block, from a place in it on.
fn put_in(f: &mut Mem, blocks: Blocks, i: u32, at: u64, words: &[u32]) -> Result<(), Failed> {
    let word = word_of(blocks, i);
    let file = FileId::Block(((word >> 16) & 0xFF) as u8);
    let start = u64::from(word & 0xFFFF);
    put_words(
        f,
        file,
        8192 + u64::from(blocks.size) * start + at % 256,
        words,
    )
}

// Gives a kind its three files, all full.
fn fill_files(f: &mut Mem, blocks: Blocks) -> Result<(), Failed> {
    let [first, second, third] = blocks.files;
    for (file, next) in [(first, second), (second, third), (third, 0)] {
        let id = FileId::Block(file);
        f.set_len(id, 8192 + u64::from(blocks.size) * u64::from(FULL))?;
        let number = u32::from(file) | (u32::from(next) << 16);
        put_words(
            f,
            id,
            0,
            &[0xC104_CAC3, 0x20000, number, blocks.size, 0, FULL],
        )?;
    }
    Ok(())
}

// Puts so many nodes without contents into the list.
fn put_nodes(f: &mut Mem, count: u32) -> Result<(), Failed> {
    put_words(f, FileId::Index, HEAD, &[word_of(NODES, 0)])?;
    for i in 0..count {
        let next = word_of(NODES, i.saturating_add(1));
        let before = word_of(NODES, i.saturating_sub(1));
        put_in(f, NODES, i, NODE_NEXT, &[next, before])?;
    }
    Ok(())
}

// Puts so many records into the chain of bucket 5.
fn put_records(f: &mut Mem, count: u32) -> Result<(), Failed> {
    put_words(f, FileId::Index, 368 + 4 * 5, &[word_of(RECORDS, 0)])?;
    for i in 0..count {
        let next = word_of(RECORDS, i.saturating_add(1));
        put_in(f, RECORDS, i, 0, &[5, next])?;
    }
    Ok(())
}

// A folder with so many nodes in the list, and so many records in a chain, in three full block files of each kind.
fn folder(alloc: Global, nodes: u32, records: u32) -> Result<Mem, Failed> {
    let mut f = SilentFolder::new(MemFolder::without_trail(alloc));
    make(&mut f, 7)?;
    fill_files(&mut f, NODES)?;
    fill_files(&mut f, RECORDS)?;
    put_nodes(&mut f, nodes)?;
    put_records(&mut f, records)?;
    Ok(f)
}

// How many nodes are walked, and the last one that is dropped of so many, with the one after it.
fn last_dropped(
    alloc: Global,
    f: &mut Mem,
    count: usize,
) -> Result<(usize, [(u32, u32); 2]), Fail> {
    let scan = audited(alloc, f)?;
    let last = dropped_at(&scan, count.saturating_sub(1));
    Ok((scan.walked(), [last, dropped_at(&scan, count)]))
}

#[test]
fn the_longest_list_and_a_long_chain_are_followed(rt: HostRuntime) -> Result<(), Fail> {
    for (nodes, records, walked, dropped, last) in [
        // No node names a record, so all are dropped; the last one isn't walked.
        (131_073, 0, 131_072, 131_072, (word_of(NODES, 131_071), 1)),
        // No node names one of the records.
        (1, 70_000, 1, 70_001, (word_of(RECORDS, 69_999), 16)),
    ] {
        let mut f = folder(rt.alloc(), nodes, records)?;
        let found = last_dropped(rt.alloc(), &mut f, dropped)?;
        assert_same(&rt, found, (walked, [last, (0, 0)]));
    }
    Ok(())
}
