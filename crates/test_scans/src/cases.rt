// Changes to the folder of all kinds of entries, with what a consistency check finds then.
use blk_io::FileId;
use test_folders::folders::Change::{Bucket, Gone, Index, Length, Word};
use test_folders::folders::{
    ADDRS, BACK, CONTENTS, Change, DIRTY, FLAGS, HEAD, KEY, KEY_LEN, LONG_KEY, NEXT, NODE_NEXT,
    NODE_SEAL, OPERATION, PREV, SEAL, SIZES, STATE, TAIL, TRANSACTION,
};
use test_folders::stopped::MOST_REASONS;
use test_folders::worked::{
    BLOCKS, IEV, JIO, LNIW, MAGIC, N, NAB, OF_LONGER, OF_STREAMS, OF_THREE, OF_TWO, OTHER_INDEX,
    OUTSIDE, PARENT, PARENT_INDEX, PART, PART_DATA, PART_INDEX, STREAMS, TWIN, TWO, UNOWNED, ZRTI,
};

// Changes to the folder, how many are kept then, and the word of each node and record that is dropped, with its reason's number.
pub(crate) type Case = (&'static [Change], u64, &'static [(u32, u32)]);

// The reasons 1 to 10 and 16, each alone, or with one that follows from it.
const ALONE: [Case; 24] = [
    (
        &[Word(N[7], CONTENTS, 0), Bucket(OF_STREAMS, 0)],
        11,
        &[(N[7], 1)],
    ),
    (
        &[Word(N[7], CONTENTS, PARENT_INDEX), Bucket(OF_STREAMS, 0)],
        11,
        &[(N[7], 1)],
    ),
    (
        &[Word(N[7], CONTENTS, 0xA001_0040), Bucket(OF_STREAMS, 0)],
        11,
        &[(N[7], 1)],
    ),
    (&[Word(STREAMS, SEAL, 1)], 11, &[(N[7], 2)]),
    (&[Word(STREAMS, STATE, 1)], 11, &[(N[7], 3)]),
    (&[Word(STREAMS, STATE, 2)], 11, &[(N[7], 3)]),
    (
        &[Word(STREAMS, BACK, N[6]), Bucket(OF_STREAMS, 0)],
        11,
        &[(N[7], 4)],
    ),
    (&[Word(STREAMS, FLAGS, 3)], 11, &[(N[7], 5)]),
    (&[Word(N[7], DIRTY, 1)], 11, &[(N[7], 6)]),
    (&[Word(STREAMS, KEY_LEN, 0)], 11, &[(N[7], 7)]),
    (&[Word(STREAMS, KEY_LEN, 160)], 11, &[(N[7], 7)]),
    (&[Word(STREAMS, KEY_LEN, 32769)], 11, &[(N[7], 7)]),
    (&[Word(PART, KEY_LEN, 32797)], 11, &[(N[5], 7)]),
    (&[Word(STREAMS, LONG_KEY, UNOWNED)], 11, &[(N[7], 8)]),
    (&[Word(BLOCKS, LONG_KEY, 0xB202_0008)], 11, &[(N[10], 8)]),
    (&[Word(BLOCKS, LONG_KEY, 0xB102_0010)], 11, &[(N[10], 8)]),
    (&[Length(FileId::External(2), 20000)], 11, &[(N[11], 8)]),
    (&[Gone(FileId::External(2))], 11, &[(N[11], 8)]),
    (&[Word(STREAMS, 0, 0x029D_191A)], 11, &[(N[7], 9)]),
    (&[Word(STREAMS, KEY, 0)], 11, &[(N[7], 9)]),
    (&[Word(0xB102_0008, 0, 0)], 11, &[(N[10], 9)]),
    (&[Bucket(OF_STREAMS, 0)], 11, &[(N[7], 10)]),
    (
        &[Bucket(OF_LONGER, 0xA001_0018)],
        11,
        &[(N[9], 10), (0xA001_0018, 16)],
    ),
    (
        &[Word(N[6], NODE_NEXT, N[8]), Word(N[8], PREV, N[6])],
        11,
        &[(STREAMS, 16)],
    ),
];

// The reasons 11, 13 and 14.
const STREAM_CASES: [Case; 16] = [
    (&[Word(STREAMS, SIZES, 0x8000_0000)], 11, &[(N[7], 11)]),
    (&[Word(STREAMS, SIZES, 600)], 11, &[(N[7], 11)]),
    (&[Word(STREAMS, SIZES, 0)], 11, &[(N[7], 11)]),
    (&[Word(STREAMS, ADDRS, 0)], 11, &[(N[7], 11)]),
    (&[Word(STREAMS, ADDRS, 0xA101_0040)], 11, &[(N[7], 11)]),
    (&[Word(STREAMS, ADDRS, 0xB002_000C)], 11, &[(N[7], 11)]),
    (&[Length(FileId::External(1), 19999)], 11, &[(N[7], 11)]),
    (&[Gone(FileId::External(1))], 11, &[(N[7], 11)]),
    (&[Word(STREAMS, SIZES + 12, 1)], 11, &[(N[7], 11)]),
    (&[Word(STREAMS, ADDRS + 12, UNOWNED)], 11, &[(N[7], 11)]),
    (&[Word(STREAMS, ADDRS, 0xA101_0000)], 11, &[(N[7], 13)]),
    (&[Word(STREAMS, ADDRS, 0xA101_000C)], 11, &[(N[7], 13)]),
    (
        &[Word(JIO, SIZES, 20000), Word(JIO, ADDRS, 0x8000_0001)],
        11,
        &[(N[7], 13)],
    ),
    (
        &[Word(TWIN, SIZES, 300), Word(TWIN, ADDRS, 0xA101_0014)],
        11,
        &[(N[8], 13)],
    ),
    (
        &[Word(TWIN, SIZES, 1024), Word(TWIN, ADDRS, PART_DATA)],
        11,
        &[(N[5], 13)],
    ),
    (
        &[Word(JIO, KEY, 0x0076_6569), Word(JIO, 0, 0x9554_AF82)],
        11,
        &[(N[1], 14)],
    ),
];

// A parent and its part, where the parent isn't right, isn't that of the part, or isn't there: no parent has the key j.
const PARENTS: [Case; 15] = [
    (
        &[Word(PARENT, SIZES + 4, 5), Word(PARENT, ADDRS + 4, UNOWNED)],
        10,
        &[(N[5], 15), (N[6], 12)],
    ),
    (
        &[Word(PARENT, SIZES + 8, 8255)],
        10,
        &[(N[5], 15), (N[6], 12)],
    ),
    (
        &[Word(PARENT_INDEX, 4, 0x8000_0000)],
        10,
        &[(N[5], 15), (N[6], 12)],
    ),
    (&[Word(PARENT_INDEX, 8, 0)], 10, &[(N[5], 15), (N[6], 12)]),
    (&[Word(PARENT_INDEX, 12, 0)], 10, &[(N[5], 15), (N[6], 12)]),
    (&[Word(PARENT_INDEX, 12, 2)], 10, &[(N[5], 15), (N[6], 12)]),
    (&[Word(PARENT_INDEX, 16, 0)], 10, &[(N[5], 15), (N[6], 12)]),
    (&[Word(PARENT_INDEX, 20, 1)], 10, &[(N[5], 15), (N[6], 12)]),
    (&[Word(PARENT_INDEX, 24, 1)], 10, &[(N[5], 15), (N[6], 12)]),
    (&[Word(PARENT_INDEX, 60, 1)], 10, &[(N[5], 15), (N[6], 12)]),
    (&[Word(PARENT_INDEX, 64, 2)], 11, &[(N[5], 15)]),
    (&[Word(PARENT_INDEX, 0, 2)], 11, &[(N[5], 15)]),
    (&[Word(PARENT, FLAGS, 0)], 11, &[(N[5], 15)]),
    (&[Word(N[6], DIRTY, 1)], 10, &[(N[5], 15), (N[6], 6)]),
    (
        &[
            Word(PART, KEY + 4, 0x3A6A_5F65),
            Word(PART, 0, 0xA7D9_D14E),
            Bucket(0xD14E, PART),
        ],
        11,
        &[(N[5], 15)],
    ),
];

// Parts that aren't right, one that is, and two of one name.
const PARTS: [Case; 20] = [
    (
        &[Word(PART, SIZES, 5), Word(PART, ADDRS, UNOWNED)],
        11,
        &[(N[5], 12)],
    ),
    (
        &[
            Word(PART, SIZES + 4, 1048577),
            Word(PART, ADDRS + 4, 0x8000_0003),
            Length(FileId::External(3), 1048577),
        ],
        11,
        &[(N[5], 12)],
    ),
    (
        &[
            Word(PART, SIZES + 4, 1048576),
            Word(PART, ADDRS + 4, 0x8000_0003),
            Length(FileId::External(3), 1048576),
        ],
        12,
        &[],
    ),
    (&[Word(PART, SIZES + 8, 191)], 11, &[(N[5], 12)]),
    (&[Word(PART_INDEX, 0, 2)], 11, &[(N[5], 12)]),
    (&[Word(PART_INDEX, 4, 0x8000_0000)], 11, &[(N[5], 12)]),
    (&[Word(PART_INDEX, 8, 0)], 11, &[(N[5], 12)]),
    (&[Word(PART_INDEX, 12, 0)], 11, &[(N[5], 12)]),
    (&[Word(PART_INDEX, 12, 2)], 11, &[(N[5], 12)]),
    (&[Word(PART_INDEX, 16, 1)], 11, &[(N[5], 12)]),
    (&[Word(PART_INDEX, 20, 5)], 11, &[(N[5], 12)]),
    (
        &[Word(PART_INDEX, 16, 1), Word(PART_INDEX, 20, 1024)],
        11,
        &[(N[5], 12)],
    ),
    (
        &[Word(PART_INDEX, 16, 1024), Word(PART_INDEX, 20, 5)],
        11,
        &[(N[5], 12)],
    ),
    (
        &[Word(PART_INDEX, 16, 0), Word(PART_INDEX, 20, 5)],
        11,
        &[(N[5], 12)],
    ),
    (
        &[Word(PART_INDEX, 16, 1), Word(PART_INDEX, 20, 5)],
        11,
        &[(N[5], 12)],
    ),
    (&[Word(PART_INDEX, 24, 1)], 11, &[(N[5], 12)]),
    (&[Word(PART_INDEX, 60, 1)], 11, &[(N[5], 12)]),
    (&[Word(PART_INDEX, 64, 3)], 11, &[(N[5], 12)]),
    (
        &[
            Word(IEV, FLAGS, 2),
            Word(IEV, SIZES + 8, 192),
            Word(IEV, ADDRS + 8, OTHER_INDEX),
            Word(OTHER_INDEX, 0, 1),
            Word(OTHER_INDEX, 8, MAGIC),
            Word(OTHER_INDEX, 12, 1),
            Word(OTHER_INDEX, 16, u32::MAX),
        ],
        11,
        &[(N[0], 12)],
    ),
    (
        &[
            Word(TWIN, FLAGS, 2),
            Word(TWIN, SIZES + 8, 192),
            Word(TWIN, ADDRS + 8, OTHER_INDEX),
            Word(OTHER_INDEX, 0, 1),
            Word(OTHER_INDEX, 8, MAGIC),
            Word(OTHER_INDEX, 12, 1),
            Word(OTHER_INDEX, 16, u32::MAX),
        ],
        11,
        &[(N[8], 14)],
    ),
];

// Loops and joins of the list and of chains, and a file of records that is too short.
const SHAPES: [Case; 15] = [
    (&[Word(N[11], NODE_NEXT, N[0])], 12, &[]),
    (&[Word(N[11], NODE_NEXT, N[5])], 12, &[]),
    (&[Word(N[11], NODE_NEXT, 0)], 12, &[]),
    (
        &[Word(N[3], NODE_NEXT, 0x9000_0400)],
        4,
        &[
            (BLOCKS, 16),
            (STREAMS, 16),
            (ZRTI, 16),
            (PARENT, 16),
            (TWIN, 16),
            (PART, 16),
            (OUTSIDE, 16),
            (TWO, 16),
        ],
    ),
    (
        &[Word(N[1], PREV, N[1])],
        1,
        &[
            (BLOCKS, 16),
            (STREAMS, 16),
            (ZRTI, 16),
            (LNIW, 16),
            (PARENT, 16),
            (TWIN, 16),
            (PART, 16),
            (NAB, 16),
            (JIO, 16),
            (OUTSIDE, 16),
            (TWO, 16),
        ],
    ),
    (
        &[Word(N[1], NODE_SEAL, 1)],
        1,
        &[
            (BLOCKS, 16),
            (STREAMS, 16),
            (ZRTI, 16),
            (LNIW, 16),
            (PARENT, 16),
            (TWIN, 16),
            (PART, 16),
            (NAB, 16),
            (JIO, 16),
            (OUTSIDE, 16),
            (TWO, 16),
        ],
    ),
    (
        &[Index(HEAD, N[1])],
        0,
        &[
            (BLOCKS, 16),
            (STREAMS, 16),
            (ZRTI, 16),
            (LNIW, 16),
            (PARENT, 16),
            (TWIN, 16),
            (PART, 16),
            (NAB, 16),
            (JIO, 16),
            (IEV, 16),
            (OUTSIDE, 16),
            (TWO, 16),
        ],
    ),
    (
        &[Index(HEAD, 0)],
        0,
        &[
            (BLOCKS, 16),
            (STREAMS, 16),
            (ZRTI, 16),
            (LNIW, 16),
            (PARENT, 16),
            (TWIN, 16),
            (PART, 16),
            (NAB, 16),
            (JIO, 16),
            (IEV, 16),
            (OUTSIDE, 16),
            (TWO, 16),
        ],
    ),
    (&[Word(IEV, NEXT, IEV)], 12, &[]),
    (&[Word(IEV, NEXT, NAB)], 12, &[]),
    (&[Word(JIO, NEXT, STREAMS)], 11, &[(N[0], 10)]),
    (&[Bucket(OF_TWO, NAB)], 10, &[(N[3], 10), (N[4], 10)]),
    (&[Word(JIO, SEAL, 1)], 10, &[(N[0], 10), (N[1], 2)]),
    (
        &[Word(NAB, NEXT, 0xA101_0001)],
        11,
        &[(N[1], 10), (0xA101_0001, 16)],
    ),
    (
        &[Length(FileId::Block(1), 8448), Bucket(OF_THREE, IEV)],
        1,
        &[
            (N[1], 1),
            (N[2], 1),
            (N[3], 1),
            (N[4], 1),
            (N[5], 1),
            (N[6], 1),
            (N[7], 1),
            (N[8], 1),
            (N[9], 1),
            (N[10], 1),
            (N[11], 1),
        ],
    ),
];

// Operations in flight: those that count, and nine that don't, two of them by their head alone.
const OPERATIONS: [Case; 17] = [
    (
        &[Index(TRANSACTION, N[0]), Index(OPERATION, 2)],
        11,
        &[(IEV, 16)],
    ),
    (
        &[Index(TRANSACTION, N[1]), Index(OPERATION, 2)],
        11,
        &[(JIO, 16)],
    ),
    (
        &[Index(TRANSACTION, N[11]), Index(OPERATION, 2)],
        11,
        &[(OUTSIDE, 16)],
    ),
    (
        &[
            Index(TRANSACTION, N[1]),
            Index(OPERATION, 2),
            Word(N[1], NODE_NEXT, 0),
        ],
        2,
        &[
            (BLOCKS, 16),
            (STREAMS, 16),
            (ZRTI, 16),
            (LNIW, 16),
            (PARENT, 16),
            (TWIN, 16),
            (PART, 16),
            (NAB, 16),
            (OUTSIDE, 16),
            (TWO, 16),
        ],
    ),
    (
        &[
            Index(TRANSACTION, N[7]),
            Index(OPERATION, 3),
            Word(N[6], NODE_NEXT, N[6]),
        ],
        12,
        &[],
    ),
    (&[Index(TRANSACTION, N[0]), Index(OPERATION, 1)], 12, &[]),
    (
        &[
            Index(TRANSACTION, N[11]),
            Index(OPERATION, 1),
            Word(N[10], NODE_NEXT, N[10]),
        ],
        12,
        &[],
    ),
    (
        &[
            Index(TRANSACTION, N[11]),
            Index(OPERATION, 1),
            Index(HEAD, 0),
        ],
        1,
        &[
            (BLOCKS, 16),
            (STREAMS, 16),
            (ZRTI, 16),
            (LNIW, 16),
            (PARENT, 16),
            (TWIN, 16),
            (PART, 16),
            (NAB, 16),
            (JIO, 16),
            (IEV, 16),
            (TWO, 16),
        ],
    ),
    (&[Index(TRANSACTION, N[1]), Index(OPERATION, 0)], 12, &[]),
    (&[Index(TRANSACTION, N[1]), Index(OPERATION, 4)], 12, &[]),
    (&[Index(TRANSACTION, IEV), Index(OPERATION, 2)], 12, &[]),
    (
        &[Index(TRANSACTION, 0x9000_0400), Index(OPERATION, 2)],
        12,
        &[],
    ),
    (
        &[
            Index(TRANSACTION, N[11]),
            Index(OPERATION, 1),
            Word(N[10], NODE_NEXT, N[10]),
            Word(N[11], NODE_SEAL, 1),
        ],
        11,
        &[(OUTSIDE, 16)],
    ),
    (
        &[
            Index(TRANSACTION, N[11]),
            Index(OPERATION, 2),
            Word(N[11], PREV, 0x9000_0400),
        ],
        11,
        &[(OUTSIDE, 16)],
    ),
    (
        &[
            Index(TRANSACTION, N[11]),
            Index(OPERATION, 3),
            Word(N[11], PREV, 0x9000_0400),
        ],
        11,
        &[(OUTSIDE, 16)],
    ),
    (
        &[
            Index(TRANSACTION, N[11]),
            Index(OPERATION, 1),
            Index(HEAD, 0x9000_0400),
        ],
        0,
        &[
            (BLOCKS, 16),
            (STREAMS, 16),
            (ZRTI, 16),
            (LNIW, 16),
            (PARENT, 16),
            (TWIN, 16),
            (PART, 16),
            (NAB, 16),
            (JIO, 16),
            (IEV, 16),
            (OUTSIDE, 16),
            (TWO, 16),
        ],
    ),
    (
        &[
            Index(TRANSACTION, N[7]),
            Index(OPERATION, 3),
            Word(N[0], NODE_SEAL, 1),
        ],
        0,
        &[
            (BLOCKS, 16),
            (STREAMS, 16),
            (ZRTI, 16),
            (LNIW, 16),
            (PARENT, 16),
            (TWIN, 16),
            (PART, 16),
            (NAB, 16),
            (JIO, 16),
            (IEV, 16),
            (OUTSIDE, 16),
            (TWO, 16),
        ],
    ),
];

// Several reasons for one node, of which the first counts, and all sixteen in two folders.
const TOGETHER: [Case; 3] = [
    (
        &[
            Word(STREAMS, STATE, 1),
            Word(STREAMS, FLAGS, 3),
            Word(N[7], DIRTY, 1),
        ],
        11,
        &[(N[7], 3)],
    ),
    (
        &MOST_REASONS,
        1,
        &[
            (N[0], 6),
            (N[1], 3),
            (N[2], 5),
            (N[3], 7),
            (N[4], 8),
            (N[5], 15),
            (N[7], 9),
            (N[8], 13),
            (N[9], 10),
            (N[10], 11),
            (N[11], 1),
            (OUTSIDE, 16),
        ],
    ),
    (
        &[
            Word(IEV, SEAL, 1),
            Word(JIO, BACK, N[3]),
            Word(ZRTI, KEY, 0x7769_6E6C),
            Word(PARENT_INDEX, 8, 0),
        ],
        7,
        &[
            (N[0], 2),
            (N[1], 4),
            (N[4], 14),
            (N[5], 15),
            (N[6], 12),
            (JIO, 16),
        ],
    ),
];

// The tables.
pub(crate) const TABLES: [&[Case]; 7] = [
    &ALONE,
    &STREAM_CASES,
    &PARENTS,
    &PARTS,
    &SHAPES,
    &OPERATIONS,
    &TOGETHER,
];
