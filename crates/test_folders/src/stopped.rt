// Changes to the folder of all kinds of entries after which its repair and its opening crash.
use crate::folders::Change::{Bucket, Gone, Index, Length, Word};
use crate::folders::{
    ADDRS, CONTENTS, Change, DIRTY, FLAGS, HEAD, KEY_LEN, LONG_KEY, NEXT, NODE_NEXT, NODE_SEAL,
    OPERATION, SEAL, SIZES, STATE, TAIL, TRANSACTION,
};
use crate::worked::{
    BLOCKS, IEV, JIO, LNIW, N, NAB, OF_LONGER, OF_THREE, OF_TWO, PARENT_INDEX, PART_DATA, STREAMS,
    TWIN, ZRTI,
};
use blk_io::FileId;

// The first version of the index.
const FIRST: u32 = 0x2_0000;

/// Changes after which the index has its first version: its word alone; any words where that has its sum, and where the one that is made
/// now has a half of it, and both.
pub const PUT_BACK: [&[Change]; 4] = [
    &[Index(4, FIRST)],
    &[Index(4, FIRST), Index(12, 7)],
    &[Index(4, FIRST), Index(12, 7), Index(52, 7)],
    &[Index(4, FIRST), Index(12, 7), Index(48, 7), Index(52, 7)],
];

/// Changes for which eleven of the twelve are dropped, each for a reason of its own. What is changed has no checksum then.
pub const MOST_REASONS: [Change; 21] = [
    Word(N[0], DIRTY, 1),
    Word(N[0], NODE_SEAL, 0),
    Word(JIO, STATE, 2),
    Word(JIO, SEAL, 0),
    Word(NAB, FLAGS, 4),
    Word(NAB, SEAL, 0),
    Word(LNIW, KEY_LEN, 0),
    Word(LNIW, SEAL, 0),
    Word(ZRTI, LONG_KEY, 1),
    Word(ZRTI, SEAL, 0),
    Word(PARENT_INDEX, 64, 0),
    Word(STREAMS, 0, 0x029D_191A),
    Word(STREAMS, SEAL, 0),
    Word(TWIN, SIZES, 100),
    Word(TWIN, ADDRS, 0xA001_0010),
    Word(TWIN, SEAL, 0),
    Bucket(OF_LONGER, 0),
    Word(BLOCKS, SIZES, 5),
    Word(BLOCKS, SEAL, 0),
    Word(N[11], CONTENTS, 0),
    Word(N[11], NODE_SEAL, 0),
];

/// Changes after which repair crashes at each of its words: a removal in flight and a list whose last node points back; a move
/// in flight, a record with a wrong checksum and a dirty parent; a record in two chains, and a node without a checksum; blocks that
/// are used twice, in and out of a chain; an insertion in flight into a list without a head; an operation that doesn't count, a
/// loop in a chain and one in the list; a file of records that is too short; files that nothing names; external files that are
/// missing or too short, and another tail; the first version of the index, with any words where the sums of both are, an open session, a
/// removal in flight and a dirty node; and almost all reasons.
pub const STOPPED: [&[Change]; 11] = [
    &[
        Index(TRANSACTION, N[1]),
        Index(OPERATION, 2),
        Word(N[11], NODE_NEXT, N[5]),
        Word(N[11], NODE_SEAL, 0),
    ],
    &[
        Index(TRANSACTION, N[7]),
        Index(OPERATION, 3),
        Word(JIO, SEAL, 1),
        Word(N[6], DIRTY, 1),
        Word(N[6], NODE_SEAL, 0),
    ],
    &[
        Word(JIO, NEXT, STREAMS),
        Word(JIO, SEAL, 0),
        Word(N[3], NODE_SEAL, 0),
    ],
    &[
        Word(TWIN, SIZES, 1024),
        Word(TWIN, ADDRS, PART_DATA),
        Word(TWIN, SEAL, 0),
        Bucket(OF_TWO, LNIW),
    ],
    &[
        Index(TRANSACTION, N[11]),
        Index(OPERATION, 1),
        Index(HEAD, 0),
    ],
    &[
        Index(TRANSACTION, N[1]),
        Index(OPERATION, 4),
        Word(IEV, NEXT, NAB),
        Word(IEV, SEAL, 0),
        Word(N[11], NODE_NEXT, N[0]),
        Word(N[11], NODE_SEAL, 0),
    ],
    &[Length(FileId::Block(1), 8448), Bucket(OF_THREE, IEV)],
    &[
        Length(FileId::Block(9), 8192),
        Length(FileId::External(7), 100),
        Length(FileId::External(9), 0),
    ],
    &[
        Length(FileId::External(1), 19999),
        Gone(FileId::External(2)),
        Index(TAIL, N[3]),
    ],
    &[
        Index(4, FIRST),
        Index(12, 7),
        Index(48, 7),
        Index(52, 7),
        Index(32, 1),
        Index(TRANSACTION, N[1]),
        Index(OPERATION, 2),
        Word(N[6], DIRTY, 1),
        Word(N[6], NODE_SEAL, 0),
    ],
    &MOST_REASONS,
];
