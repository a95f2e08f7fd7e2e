// A folder of all kinds of entries.
use crate::folders::{Entry, add, give_blocks, put_index};
use blk_index::make;
use blk_io::{FileId, Folder, SilentFolder};
use std::alloc::Global;
use std::test::Fail;

/// The records of the folder: three of one bucket, two with keys of one hash, a part, its parent, one with streams, one with
/// the key of the part, and three with longer keys: of two blocks, in a block file, and in an external file.
pub const IEV: u32 = 0xA001_0000;

pub const JIO: u32 = 0xA001_0001;

pub const NAB: u32 = 0xA001_0002;

pub const LNIW: u32 = 0xA001_0004;

pub const ZRTI: u32 = 0xA001_0005;

pub const PART: u32 = 0xA001_0008;

pub const PARENT: u32 = 0xA001_0009;

pub const STREAMS: u32 = 0xA001_000C;

pub const TWIN: u32 = 0xA001_000D;

pub const TWO: u32 = 0xA101_0018;

pub const BLOCKS: u32 = 0xA001_001C;

pub const OUTSIDE: u32 = 0xA001_001D;

// Each of them with its key, which goes on with the byte x up to its length, and with the place of a long key.
const ENTRIES: [(u32, &[u8], usize, u32); 12] = [
    (IEV, b"iev", 3, 0),
    (JIO, b"jio", 3, 0),
    (NAB, b"nab", 3, 0),
    (LNIW, b"lniw", 4, 0),
    (ZRTI, b"zrti", 4, 0),
    (PART, b"Range_k:1:0", 11, 0),
    (PARENT, b"k", 1, 0),
    (STREAMS, b"streams", 7, 0),
    (TWIN, b"Range_k:1:0", 11, 0),
    (TWO, b"two", 200, 0),
    (BLOCKS, b"blocks", 2000, 0xB102_0008),
    (OUTSIDE, b"external", 20000, 0x8000_0002),
];

/// Their buckets.
pub const OF_THREE: u32 = 0xAF82;

pub const OF_TWO: u32 = 0x66E8;

pub const OF_STREAMS: u32 = 0x191A;

pub const OF_LONGER: u32 = 0xC031;

/// The indexes of the part and of the parent, and the data of the part.
pub const PART_INDEX: u32 = 0xA001_0011;

pub const PARENT_INDEX: u32 = 0xC203_0000;

pub const PART_DATA: u32 = 0xB002_0000;

/// Blocks of 256 bytes without an owner.
pub const UNOWNED: u32 = 0xA001_0020;

pub const OTHER_INDEX: u32 = 0xA001_0021;

pub const MAGIC: u32 = 0xC103_CAC3;

/// The nodes, in the order of the list.
pub const N: [u32; 12] = [
    0x9000_0000,
    0x9000_0001,
    0x9000_0002,
    0x9000_0003,
    0x9000_0004,
    0x9000_0005,
    0x9000_0006,
    0x9000_0007,
    0x9000_0008,
    0x9000_0009,
    0x9000_000A,
    0x9000_000B,
];

// The flags, sizes and addresses of an entry.
fn streams_of(record: u32) -> (u32, [u32; 4], [u32; 4]) {
    match record {
        PART => (2, [0, 1024, 192, 0], [0, PART_DATA, PART_INDEX, 0]),
        PARENT => (1, [100, 0, 8256, 0], [0xA001_0010, 0, PARENT_INDEX, 0]),
        STREAMS => (
            0,
            [300, 3000, 20000, 0],
            [0xA101_0014, 0xB202_0004, 0x8000_0001, 0],
        ),
        _ => (0, [0; 4], [0; 4]),
    }
}

// Adds an entry with a key that goes on with the byte x.
fn add_entry<F: Folder>(
    alloc: Global,
    f: &mut SilentFolder<F>,
    number: u32,
    row: (u32, &[u8], usize, u32),
) -> Result<(), Fail> {
    let (record, text, length, long_key) = row;
    let mut key = Vec::from_slice(alloc, text)?;
    key.resize(length, b'x')?;
    let (flags, sizes, addrs) = streams_of(record);
    let entry = Entry {
        record,
        key: &key,
        long_key,
        flags,
        sizes,
        addrs,
    };
    add(f, number, &entry)?;
    Ok(())
}

/// Makes a folder of all of them, in which every checksum is 0.
pub fn make_all<F: Folder>(alloc: Global, f: &mut SilentFolder<F>) -> Result<(), Fail> {
    make(f, 7)?;
    give_blocks(f, 1024, [1024, 64, 16, 4])?;
    f.set_len(FileId::External(1), 20000)?;
    f.set_len(FileId::External(2), 20001)?;
    let mut number: u32 = 0;
    for row in ENTRIES {
        add_entry(alloc, f, number, row)?;
        number = number.wrapping_add(1);
    }
    put_index(f, PART_INDEX, 1)?;
    put_index(f, PARENT_INDEX, 1)?;
    Ok(())
}
