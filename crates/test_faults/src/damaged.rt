// Folders that are corrupt or hostile: what a verification prints of each, and how a count ends on it.
use crate::running::answers;
use crate::same::assert_same;
use blk_index::make;
use blk_inspect::{InspectFault, verify};
use blk_io::{FileId, MemFolder, MemSink, SilentFolder, read_word};
use blk_run::Status;
use std::alloc::Global;
use std::test::Fail;
use test_folders::folders::Change::{Gone, Index, Length, Word};
use test_folders::folders::{
    ADDRS, Change, DIRTY, Entry, Mem, NEXT, OPERATION, PREV, SIZES, TRANSACTION, add, change_all,
    give_blocks,
};

// The records of three entries, the last used first, and the node of the second.
const C: u32 = 0xA001_0000;

const B: u32 = 0xA001_0001;

const A: u32 = 0xA001_0002;

const NODE_OF_B: u32 = 0x9000_0001;

// Their keys have different lengths, so that the bytes show which are kept.
const THREE: [(u32, &[u8]); 3] = [(C, b"cccc"), (B, b"bb"), (A, b"a")];

// A block without an owner.
const BLOCK: u32 = 0xA001_0008;

// The first version of the index.
const FIRST: u32 = 0x2_0000;

// Changes to a folder of these entries, what a verification prints, and how a count ends with what it prints.
type Case = (&'static [Change], &'static str, Status, &'static str);

// As it is; a record whose next is itself; a node with a wrong prev; two records that use one block; block files of which the first
// record alone is there; an operation whose node is beyond the file; another magic word; and a block file that isn't there; a later
// version; and of the first version an open session with a removal in flight, and one with a dirty node.
const CASES: [Case; 11] = [
    (
        &[],
        "kept 3\nitems 3 bytes 7\n",
        Status::Ok,
        "items 3 bytes 7\n",
    ),
    (
        &[Word(C, NEXT, C)],
        "kept 3\nitems 3 bytes 7\n",
        Status::Ok,
        "items 3 bytes 7\n",
    ),
    (
        &[Word(NODE_OF_B, PREV, NODE_OF_B)],
        "kept 1\ndropped a0010001 16 Unlisted\ndropped a0010002 16 Unlisted\nitems 1 bytes 4\n",
        Status::Ok,
        "items 1 bytes 4\n",
    ),
    (
        &[
            Word(C, SIZES, 100),
            Word(C, ADDRS, BLOCK),
            Word(B, SIZES, 200),
            Word(B, ADDRS, BLOCK),
        ],
        "kept 2\ndropped 90000001 13 Claimed\nitems 2 bytes 105\n",
        Status::Ok,
        "items 2 bytes 105\n",
    ),
    (
        &[Length(FileId::Block(1), 8448)],
        "kept 1\ndropped 90000001 1 Contents\ndropped 90000002 1 Contents\nitems 1 bytes 4\n",
        Status::Ok,
        "items 1 bytes 4\n",
    ),
    (
        &[Index(TRANSACTION, 0x9000_0400), Index(OPERATION, 1)],
        "kept 3\nitems 3 bytes 7\n",
        Status::Ok,
        "items 3 bytes 7\n",
    ),
    (
        &[Index(0, 0xC103_CAC4)],
        "",
        Status::Damaged,
        "damaged index 0 c103cac4\n",
    ),
    (
        &[Gone(FileId::Block(2))],
        "",
        Status::Damaged,
        "damaged data_2 8192 00000000\n",
    ),
    (
        &[Index(4, 0x4_0000)],
        "",
        Status::Damaged,
        "damaged index 4 00040000\n",
    ),
    (
        &[
            Index(4, FIRST),
            Index(32, 1),
            Index(TRANSACTION, NODE_OF_B),
            Index(OPERATION, 2),
        ],
        "kept 2\ndropped a0010001 16 Unlisted\nitems 2 bytes 5\n",
        Status::Ok,
        "items 2 bytes 5\n",
    ),
    (
        &[Index(4, FIRST), Index(32, 1), Word(NODE_OF_B, DIRTY, 1)],
        "kept 2\ndropped 90000001 6 Dirty\nitems 2 bytes 5\n",
        Status::Ok,
        "items 2 bytes 5\n",
    ),
];

// Words of the index in whose place the opening puts the version, the sum and 0: the first version with its sum, and with any words;
// and the version that is made now with any words.
const RAISED: [&[Change]; 3] = [
    &[Index(4, FIRST), Index(12, 7)],
    &[
        Index(4, FIRST),
        Index(12, 0xFFFF_FFFF),
        Index(48, 7),
        Index(52, 7),
    ],
    &[Index(12, 1), Index(48, 0xFFFF_FFFF), Index(52, 1)],
];

// A folder of some entries with short keys and no streams, with some changes. It keeps its write trace.
fn folder(alloc: Global, entries: &[(u32, &[u8])], changes: &[Change]) -> Result<Mem, Fail> {
    let mut f = SilentFolder::new(MemFolder::new(alloc));
    make(&mut f, 7)?;
    give_blocks(&mut f, 1024, [1024, 64, 16, 4])?;
    let mut number: u32 = 0;
    for (record, key) in entries {
        let entry = Entry {
            record: *record,
            key,
            long_key: 0,
            flags: 0,
            sizes: [0; 4],
            addrs: [0; 4],
        };
        add(&mut f, number, &entry)?;
        number = number.wrapping_add(1);
    }
    change_all(&mut f, changes)?;
    Ok(f)
}

// The number of steps that were made on a folder, and the folder.
fn steps_of(f: Mem) -> (Option<u64>, Mem) {
    let inner = f.into_inner();
    (inner.steps(), SilentFolder::new(inner))
}

// Whether a verification prints this, or nothing where it finds the folder corrupt, and makes no step.
fn is_verified(alloc: Global, f: Mem, text: &str) -> Result<(bool, Mem), Fail> {
    let (before, mut f) = steps_of(f);
    let mut out = MemSink::new(alloc);
    let is_damaged = matches!(
        &verify(alloc, &mut f, &mut out),
        Err(InspectFault::Damaged(_))
    );
    let (after, f) = steps_of(f);
    let is_so = is_damaged == text.is_empty() && out.written() == text.as_bytes();
    Ok((is_so && before == after, f))
}

// Whether a count ends and prints so, and makes no step where the folder is corrupt.
fn is_counted(alloc: Global, f: Mem, status: Status, line: &str) -> Result<(bool, Mem), Fail> {
    let (before, mut f) = steps_of(f);
    let is_so = answers(alloc, &mut f, &["count"], b"", (status, line.as_bytes()))?;
    let (after, f) = steps_of(f);
    Ok((is_so && (status != Status::Damaged || before == after), f))
}

#[test]
fn hostile_folders_are_verified_and_counted(rt: HostRuntime) -> Result<(), Fail> {
    for (i, (changes, text, status, line)) in CASES.iter().enumerate() {
        let f = folder(rt.alloc(), &THREE, changes)?;
        let (verified, f) = is_verified(rt.alloc(), f, text)?;
        assert!(rt; verified, "{i}");
        let (counted, f) = is_counted(rt.alloc(), f, *status, line)?;
        assert!(rt; counted, "{i}");
        let (again, _) = is_counted(rt.alloc(), f, *status, line)?;
        assert!(rt; again, "{i}, again");
    }
    Ok(())
}

// The words of the index that say its version, and the sum at both of its places.
fn summed(f: &mut Mem) -> Result<[u32; 4], Fail> {
    let mut words = [0; 4];
    for (slot, place) in words.iter_mut().zip([4, 12, 48, 52]) {
        *slot = read_word(f, FileId::Index, place)?;
    }
    Ok(words)
}

#[test]
fn an_opening_raises_the_index(rt: HostRuntime) -> Result<(), Fail> {
    for changes in RAISED.iter() {
        let f = folder(rt.alloc(), &THREE, changes)?;
        let (counted, mut f) = is_counted(rt.alloc(), f, Status::Ok, "items 3 bytes 7\n")?;
        assert!(rt; counted);
        assert_same(&rt, summed(&mut f)?, [0x3_0000, 0, 7, 0]);
    }
    Ok(())
}

// An operation in flight on a node in no block of its file doesn't count, and is ended.
#[test]
fn a_transaction_that_does_not_count_is_ended(rt: HostRuntime) -> Result<(), Fail> {
    let mut f = SilentFolder::new(MemFolder::new(rt.alloc()));
    make(&mut f, 7)?;
    change_all(
        &mut f,
        &[Index(TRANSACTION, 0x9000_0005), Index(OPERATION, 1)],
    )?;
    let none = (Status::Ok, b"items 0 bytes 0\n".as_slice());
    assert!(rt; answers(rt.alloc(), &mut f, &["count"], b"", none)?);
    assert_same(&rt, read_word(&mut f, FileId::Index, TRANSACTION)?, 0);
    Ok(())
}

// Of two records with one key the one nearer the front is kept. The other has a node that names it, so it isn't unlisted.
#[test]
fn of_two_records_of_a_key_one_is_kept(rt: HostRuntime) -> Result<(), Fail> {
    let twins: [(u32, &[u8]); 2] = [(C, b"k"), (B, b"k")];
    let f = folder(rt.alloc(), &twins, &[])?;
    let text = "kept 1\ndropped 90000001 14 Name\nitems 1 bytes 1\n";
    let (verified, f) = is_verified(rt.alloc(), f, text)?;
    assert!(rt; verified);
    let (counted, mut f) = is_counted(rt.alloc(), f, Status::Ok, "items 1 bytes 1\n")?;
    assert!(rt; counted);
    let listed = (Status::Ok, b"main k 0 0 0\nend 1\n".as_slice());
    assert!(rt; answers(rt.alloc(), &mut f, &["list"], b"", listed)?);
    Ok(())
}
