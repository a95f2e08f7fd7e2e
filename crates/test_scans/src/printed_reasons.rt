// What is printed of a folder that is verified.
use crate::printed_entries::{JIO, PARENT_INDEX, STREAMS, changed, holds};
use std::test::Fail;
use test_folders::folders::Change::{Bucket, Word};
use test_folders::folders::{
    ADDRS, BACK, CONTENTS, Change, DIRTY, FLAGS, KEY, KEY_LEN, LONG_KEY, NODE_NEXT, PREV, SEAL,
    SIZES, STATE,
};

// The bucket of the record with streams, and its node.
const BUCKET: u32 = 0x191A;

const NODE: u32 = 0x9000_0002;

// Changes to the folder, and what is printed of what is dropped then: a line for each reason; and none for a doomed record, which is
// neither in the list nor in its chain.
const CASES: [(&[Change], &str); 18] = [
    (&[], "kept 8\nitems 8 bytes 55097\n"),
    (
        &[
            Word(0x9000_0001, NODE_NEXT, 0x9000_0003),
            Word(0x9000_0003, PREV, 0x9000_0001),
            Bucket(BUCKET, 0),
            Word(STREAMS, STATE, 2),
        ],
        "kept 7\nitems 7 bytes 31790\n",
    ),
    (
        &[Word(NODE, CONTENTS, 0), Bucket(BUCKET, 0)],
        "kept 7\ndropped 90000002 1 Contents\nitems 7 bytes 31790\n",
    ),
    (
        &[Word(STREAMS, SEAL, 1)],
        "kept 7\ndropped 90000002 2 Seal\nitems 7 bytes 31790\n",
    ),
    (
        &[Word(STREAMS, STATE, 2)],
        "kept 7\ndropped 90000002 3 State\nitems 7 bytes 31790\n",
    ),
    (
        &[Word(STREAMS, BACK, 0x9000_0001), Bucket(BUCKET, 0)],
        "kept 7\ndropped 90000002 4 Back\nitems 7 bytes 31790\n",
    ),
    (
        &[Word(STREAMS, FLAGS, 3)],
        "kept 7\ndropped 90000002 5 Flags\nitems 7 bytes 31790\n",
    ),
    (
        &[Word(NODE, DIRTY, 1)],
        "kept 7\ndropped 90000002 6 Dirty\nitems 7 bytes 31790\n",
    ),
    (
        &[Word(STREAMS, KEY_LEN, 0)],
        "kept 7\ndropped 90000002 7 KeyLength\nitems 7 bytes 31790\n",
    ),
    (
        &[Word(STREAMS, LONG_KEY, 0xA001_0020)],
        "kept 7\ndropped 90000002 8 KeyPlace\nitems 7 bytes 31790\n",
    ),
    (
        &[Word(STREAMS, KEY, 0)],
        "kept 7\ndropped 90000002 9 Hash\nitems 7 bytes 31790\n",
    ),
    (
        &[Bucket(BUCKET, 0)],
        "kept 7\ndropped 90000002 10 Chain\nitems 7 bytes 31790\n",
    ),
    (
        &[Word(STREAMS, SIZES, 600)],
        "kept 7\ndropped 90000002 11 Streams\nitems 7 bytes 31790\n",
    ),
    (
        &[Word(PARENT_INDEX, 4, 0x8000_0000)],
        "kept 6\ndropped 90000003 15 Parent\ndropped 90000004 12 Sparse\nitems 6 bytes 45513\n",
    ),
    (
        &[Word(STREAMS, ADDRS, 0xA101_0000)],
        "kept 7\ndropped 90000002 13 Claimed\nitems 7 bytes 31790\n",
    ),
    (
        &[Word(JIO, KEY, 0x0076_6569), Word(JIO, 0, 0x9554_AF82)],
        "kept 7\ndropped 90000001 14 Name\nitems 7 bytes 55094\n",
    ),
    (
        &[Word(PARENT_INDEX, 64, 0)],
        "kept 7\ndropped 90000003 15 Parent\nitems 7 bytes 53870\n",
    ),
    (
        &[
            Word(0x9000_0001, NODE_NEXT, 0x9000_0003),
            Word(0x9000_0003, PREV, 0x9000_0001),
        ],
        "kept 7\ndropped a0010004 16 Unlisted\nitems 7 bytes 31790\n",
    ),
];

#[test]
fn each_reason_has_its_line(rt: HostRuntime) -> Result<(), Fail> {
    for (changes, text) in CASES {
        let mut f = changed(rt.alloc(), changes)?;
        assert!(rt; holds(rt.alloc(), &mut f, text)?, "{text}");
    }
    Ok(())
}
