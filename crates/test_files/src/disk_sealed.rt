// Records with checksums, in block files in memory.
use crate::disk::{folder_of, word_of};
use crate::same::{assert_same, assert_same_at};
use blk_disk::BlockFiles;
use blk_io::{Damage, Fault, FileId, Folder, MemFolder, SilentFolder};
use std::alloc::Global;
use std::test::Fail;

// Every file has 36864 bytes of blocks: 1024 nodes, or 144 blocks of 256 bytes.
const SIZE: usize = 45056;

// The last node of file 0 and the last block of file 1, and where they begin.
const LAST_NODE: u32 = 0x9000_03FF;

const NODE_AT: u64 = 45020;

const LAST_BLOCK: u32 = 0xA001_008F;

const BLOCK_AT: u64 = 44800;

// The words of a record at 16, 4 and 28, before a second update and after it.
const OLD: [u32; 3] = [0x9000_0007, 0x1234, 1];

const NEW: [u32; 3] = [0x9000_0008, 0x5678, 2];

// The hashes of the first 32 and 92 bytes, from a program of the published function.
const NEW_NODE_SEAL: u32 = 0x4D5C_E1FC;

const ZERO_NODE_SEAL: u32 = 0xD27A_4FAF;

const NEW_ENTRY_SEAL: u32 = 0x0E57_49A8;

// A folder in which nodes and entry records have zeros.
fn zeros(alloc: Global) -> Result<MemFolder, Fail> {
    let headers = [
        (0, 0, 36, 1024),
        (1, 0, 256, 1024),
        (2, 0, 1024, 0),
        (3, 0, 4096, 0),
    ];
    folder_of(alloc, &headers, SIZE)
}

// Updates three words of a node, where it is there.
fn update_node<F: Folder>(f: &mut F, word: u32, values: [u32; 3]) -> Result<bool, Fault> {
    let files = BlockFiles::load(f)?;
    let Some(addr) = files.node(word) else {
        return Ok(false);
    };
    let changes = [(16, values[0]), (4, values[1]), (28, values[2])];
    files.update_sealed(f, addr, &changes)?;
    Ok(true)
}

// Updates three words of an entry record, where it is there.
fn update_entry<F: Folder>(f: &mut F, word: u32, values: [u32; 3]) -> Result<bool, Fault> {
    let files = BlockFiles::load(f)?;
    let Some(addr) = files.entry(word) else {
        return Ok(false);
    };
    let changes = [(16, values[0]), (4, values[1]), (28, values[2])];
    files.update_sealed(f, addr, &changes)?;
    Ok(true)
}

#[test]
fn an_updated_node_has_its_hash_as_seal(rt: HostRuntime) -> Result<(), Fail> {
    let mut f = zeros(rt.alloc())?;
    assert_same(&rt, update_node(&mut f, LAST_NODE, OLD), Ok(true));
    assert_same(&rt, update_node(&mut f, LAST_NODE, NEW), Ok(true));
    assert_same(&rt, word_of(&mut f, 0, NODE_AT + 32), Some(NEW_NODE_SEAL));

    // Each update takes the eight calls that load the files, one read and four writes: the word at 28 and the checksum after it
    // go by one.
    assert_same(&rt, f.calls(), 2 * (8 + 1 + 4) + 1);
    Ok(())
}

#[test]
fn an_updated_entry_record_has_its_hash_as_seal(rt: HostRuntime) -> Result<(), Fail> {
    let mut f = zeros(rt.alloc())?;
    assert_same(&rt, update_entry(&mut f, LAST_BLOCK, NEW), Ok(true));
    assert_same(&rt, word_of(&mut f, 1, BLOCK_AT + 92), Some(NEW_ENTRY_SEAL));
    Ok(())
}

// Updates the last node in an opaque folder, once it has this checksum and its file this length.
fn update_broken(f: &mut SilentFolder<MemFolder>, seal: u32, length: u64) -> Result<bool, Fault> {
    let files = BlockFiles::load(f)?;
    let Some(addr) = files.node(LAST_NODE) else {
        return Ok(false);
    };
    f.write_at(FileId::Block(0), NODE_AT + 32, &seal.to_le_bytes())?;
    f.set_len(FileId::Block(0), length)?;
    let changes = [(16, NEW[0]), (4, NEW[1]), (28, NEW[2])];
    files.update_sealed(f, addr, &changes)?;
    Ok(true)
}

// The failed check of the last node's file.
fn node_damage(at: u64, found: u32) -> Result<bool, Fault> {
    let file = FileId::Block(0);
    Err(Fault::Damaged(Damage { file, at, found }))
}

#[test]
fn a_broken_record_is_not_updated(rt: HostRuntime) -> Result<(), Fail> {
    // A wrong checksum, and a file that ends inside the node.
    let cases = [
        (1, SIZE as u64, node_damage(NODE_AT + 32, 1)),
        (0, NODE_AT + 35, node_damage(NODE_AT, 35)),
    ];
    for (seal, length, answer) in cases {
        let mut f = SilentFolder::new(zeros(rt.alloc())?);
        assert_same_at(&rt, update_broken(&mut f, seal, length), answer, length);

        // The two steps before it are the last ones.
        assert_same(&rt, f.length(FileId::Block(0)), Ok(Some(length)));
        assert_same_at(&rt, f.into_inner().steps(), Some(2), length);
    }
    Ok(())
}

// Gives the last node its checksum.
fn seal_last<F: Folder>(f: &mut F) -> Result<bool, Fault> {
    let files = BlockFiles::load(f)?;
    let Some(addr) = files.node(LAST_NODE) else {
        return Ok(false);
    };
    files.seal(f, addr)?;
    Ok(true)
}

#[test]
fn a_record_is_sealed_by_one_word(rt: HostRuntime) -> Result<(), Fail> {
    let mut f = zeros(rt.alloc())?;

    // The second time the checksum is there, so nothing is written.
    for _ in 0..2 {
        assert_same(&rt, seal_last(&mut f), Ok(true));
        assert_same(&rt, f.steps(), Some(1));
    }
    assert_same(&rt, word_of(&mut f, 0, NODE_AT + 32), Some(ZERO_NODE_SEAL));
    Ok(())
}
