// The walk and the chains of a small opaque folder in memory.
use crate::folders::put_all;
use crate::same::assert_same;
use blk_addr::Claims;
use blk_audit::{ScanFault, Walked, chains, read_lists, walk};
use blk_disk::BlockFiles;
use blk_io::{Failed, Fault, FileId, Folder, MemFolder, SilentFolder, StopFolder, write_word};
use std::alloc::Global;
use std::test::Fail;

type Silent = SilentFolder<StopFolder>;

// A folder with an index of zeros and four block files, of which the first has space for 1024 nodes, and the second for 144
// records.
fn folder(alloc: Global) -> Result<Silent, Failed> {
    let inner = StopFolder::new(MemFolder::without_trail(alloc), u64::MAX);
    let mut f = SilentFolder::new(inner);
    put_all(&mut f, [1024, 1024, 0, 0])?;
    Ok(f)
}

// Writes the links of node n; its checksum stays 0, and so absent.
fn link(f: &mut Silent, n: u32, next: u32, prev: u32) -> Result<(), Failed> {
    write_word(f, FileId::Block(0), 8192 + 36 * u64::from(n) + 16, next)?;
    write_word(f, FileId::Block(0), 8192 + 36 * u64::from(n) + 20, prev)
}

// The words of the first three walked nodes, and zeros after them.
fn words_of(walked: &Walked) -> [u32; 3] {
    let mut words = [0; 3];
    for i in 0..3 {
        if let Some(node) = walked.at(i) {
            words[i] = node.word();
        }
    }
    words
}

// Three nodes, and the words of three records.
const NODES: [u32; 3] = [0x9000_0000, 0x9000_0001, 0x9000_03FF];

const RECORDS: [u32; 3] = [0xA001_0000, 0xA001_0001, 0xA001_0002];

// A folder whose list begins with the second node, after which are the third and the first.
fn listed(alloc: Global) -> Result<Silent, Failed> {
    let [a, b, c] = NODES;
    let mut f = folder(alloc)?;
    write_word(&mut f, FileId::Index, 288, b)?;
    link(&mut f, 1, c, b)?;
    link(&mut f, 1023, a, b)?;
    link(&mut f, 0, a, c)?;
    Ok(f)
}

// What is walked, and the folder calls that it takes.
fn walked(alloc: Global, f: &mut Silent) -> Result<([u32; 3], u64), ScanFault> {
    let files = BlockFiles::load(f)?;
    let start = f.calls();
    let walked = walk(alloc, f, &files)?;
    Ok((words_of(&walked), f.calls().wrapping_sub(start)))
}

// Puts a removal of the third node in flight.
fn put_removal(f: &mut Silent) -> Result<(), Fault> {
    write_word(f, FileId::Index, 328, NODES[2])?;
    write_word(f, FileId::Index, 332, 2)?;
    Ok(())
}

// Ends the operation in flight, and has the last node lead to the first.
fn put_ring(f: &mut Silent) -> Result<(), Fault> {
    link(f, 0, NODES[1], NODES[2])?;
    write_word(f, FileId::Index, 328, 0)?;
    Ok(())
}

// What is walked with the removal in flight, and then in the loop.
fn walked_on(alloc: Global, f: &mut Silent) -> Result<[[u32; 3]; 2], ScanFault> {
    put_removal(f)?;
    let without = walked(alloc, f)?.0;
    put_ring(f)?;
    Ok([without, walked(alloc, f)?.0])
}

#[test]
fn a_walk_goes_along_the_completed_list(rt: HostRuntime) -> Result<(), Fail> {
    let [a, b, c] = NODES;
    let mut f = listed(rt.alloc())?;
    assert_same(&rt, walked(rt.alloc(), &mut f), Ok(([b, c, a], 3)));
    let on = [[b, a, 0], [b, c, a]];
    assert_same(&rt, walked_on(rt.alloc(), &mut f), Ok(on));
    Ok(())
}

// Writes the hash and the next of the record at block n; its checksum stays 0, and so absent.
fn chain(f: &mut Silent, n: u32, hash: u32, next: u32) -> Result<(), Failed> {
    write_word(f, FileId::Block(1), 8192 + 256 * u64::from(n), hash)?;
    write_word(f, FileId::Block(1), 8192 + 256 * u64::from(n) + 4, next)
}

// A folder with one chain of three records, of which the third has a hash of another bucket.
fn chained(alloc: Global) -> Result<Silent, Failed> {
    let [a, b, c] = RECORDS;
    let mut f = folder(alloc)?;
    write_word(&mut f, FileId::Index, 368 + 4 * 5, a)?;
    chain(&mut f, 0, 5, b)?;
    chain(&mut f, 1, 0x1_0005, c)?;
    chain(&mut f, 2, 6, 0)?;
    Ok(f)
}

// How many records the chains reach, the second of them, and the folder calls that it takes.
fn reached(alloc: Global, f: &mut Silent) -> Result<(usize, Option<u32>, u64), ScanFault> {
    let files = BlockFiles::load(f)?;
    let named = Claims::new(alloc);
    let start = f.calls();
    let reached = chains(alloc, f, &files, &named)?;
    let second = reached.at(1).map(|word| word.word());
    Ok((reached.count(), second, f.calls().wrapping_sub(start)))
}

// Has the third record name the first one, and lists the nodes of the three.
fn list(f: &mut Silent) -> Result<(), Fault> {
    chain(f, 2, 5, RECORDS[0])?;
    let first = 0x9000_0000;
    write_word(f, FileId::Index, 288, first)?;
    link(f, 0, first + 1, first)?;
    link(f, 1, first + 2, first)?;
    link(f, 2, first + 2, first + 1)?;
    for (at, record) in [8216, 8252, 8288].iter().zip(RECORDS) {
        write_word(f, FileId::Block(0), *at, record)?;
    }
    Ok(())
}

// What is read of the lists: the nodes, the records, and whether the third record and a longer one at its place are reached;
// and the folder calls that it takes.
fn read(alloc: Global, f: &mut Silent) -> Result<(usize, usize, [bool; 2], u64), ScanFault> {
    list(f)?;
    let files = BlockFiles::load(f)?;
    let start = f.calls();
    let lists = read_lists(alloc, f, &files)?;
    let calls = f.calls().wrapping_sub(start);
    let third = [
        lists.reached.contains(RECORDS[2]),
        lists.reached.contains(RECORDS[2].wrapping_add(0x0100_0000)),
    ];
    Ok((lists.walked.count(), lists.reached.count(), third, calls))
}

#[test]
fn a_chain_ends_before_another_bucket_and_before_a_met_record(rt: HostRuntime) -> Result<(), Fail> {
    let mut f = chained(rt.alloc())?;
    let chain = (2, Some(RECORDS[1]), 7);
    assert_same(&rt, reached(rt.alloc(), &mut f), Ok(chain));
    let lists = (3, 3, [true, false], 8);
    assert_same(&rt, read(rt.alloc(), &mut f), Ok(lists));
    Ok(())
}
