// Folders of some entries, and what is printed of them.
use blk_index::make;
use blk_inspect::{InspectFault, Part, inspect, verify};
use blk_io::{FileId, Folder, MemFolder, MemSink, SilentFolder};
use std::alloc::Global;
use std::test::Fail;
use test_folders::folders::{
    Change, Entry, Mem, add, change_all, give_blocks, put_index, put_words,
};

// The records of the folder: two of one bucket, one with streams, a part, its parent, and three with longer keys: of two
// blocks, in a block file, and in an external file.
pub(crate) const IEV: u32 = 0xA001_0000;

pub(crate) const JIO: u32 = 0xA001_0001;

pub(crate) const STREAMS: u32 = 0xA001_0004;

pub(crate) const PART: u32 = 0xA001_0008;

pub(crate) const PARENT: u32 = 0xA001_0009;

const TWO: u32 = 0xA101_0018;

const BLOCKS: u32 = 0xA001_001C;

const OUTSIDE: u32 = 0xA001_001D;

// Each of them with its key, which goes on with the byte x up to its length, and with the place of a long key.
const ENTRIES: [(u32, &[u8], usize, u32); 8] = [
    (IEV, b"iev", 3, 0),
    (JIO, b"jio", 3, 0),
    (STREAMS, b"streams", 7, 0),
    (PART, b"Range_k:1:0", 11, 0),
    (PARENT, b"k", 1, 0),
    (TWO, b"two", 200, 0),
    (BLOCKS, b"blocks", 2000, 0xB102_0008),
    (OUTSIDE, b"external", 20000, 0x8000_0002),
];

// The indexes of the part and of the parent.
const PART_INDEX: u32 = 0xA001_0011;

pub(crate) const PARENT_INDEX: u32 = 0xC203_0000;

// The flags, sizes and addresses of an entry.
fn streams_of(record: u32) -> (u32, [u32; 4], [u32; 4]) {
    match record {
        PART => (2, [0, 1024, 192, 0], [0, 0xB002_0000, PART_INDEX, 0]),
        PARENT => (1, [100, 0, 8256, 0], [0xA001_0010, 0, PARENT_INDEX, 0]),
        STREAMS => (
            0,
            [300, 3000, 20000, 0],
            [0xA101_0014, 0xB202_0004, 0x8000_0001, 0],
        ),
        _ => (0, [0; 4], [0; 4]),
    }
}

// Adds an entry with a key that goes on with the byte x.
fn add_entry(
    alloc: Global,
    f: &mut Mem,
    number: u32,
    row: (u32, &[u8], usize, u32),
) -> Result<(), Fail> {
    let (record, text, length, long_key) = row;
    let mut key = Vec::from_slice(alloc, text)?;
    key.resize(length, b'x')?;
    let (flags, sizes, addrs) = streams_of(record);
    let entry = Entry {
        record,
        key: &key,
        long_key,
        flags,
        sizes,
        addrs,
    };
    add(f, number, &entry)?;
    Ok(())
}

// A folder with no entry, as its first session leaves it.
pub(crate) fn no_entries(alloc: Global) -> Result<Mem, Fail> {
    let mut f = SilentFolder::new(MemFolder::without_trail(alloc));
    make(&mut f, 7)?;
    put_words(&mut f, FileId::Index, 20, &[1])?;
    Ok(f)
}

// A folder of all of the entries, in which every checksum is 0.
pub(crate) fn all_entries(alloc: Global) -> Result<Mem, Fail> {
    let mut f = no_entries(alloc)?;
    give_blocks(&mut f, 1024, [1024, 64, 16, 4])?;
    f.set_len(FileId::External(1), 20000)?;
    f.set_len(FileId::External(2), 20001)?;
    let mut number: u32 = 0;
    for row in ENTRIES {
        add_entry(alloc, &mut f, number, row)?;
        number = number.wrapping_add(1);
    }
    put_index(&mut f, PART_INDEX, 1)?;
    put_index(&mut f, PARENT_INDEX, 1)?;
    Ok(f)
}

// A folder with two records of one key, both listed, chained and closed.
pub(crate) fn twins(alloc: Global) -> Result<Mem, Fail> {
    let mut f = no_entries(alloc)?;
    give_blocks(&mut f, 1024, [1024, 64, 16, 4])?;
    add_entry(alloc, &mut f, 0, (IEV, b"iev", 3, 0))?;
    add_entry(alloc, &mut f, 1, (JIO, b"iev", 3, 0))?;
    Ok(f)
}

// The folder of all entries with these changes.
pub(crate) fn changed(alloc: Global, changes: &[Change]) -> Result<Mem, Fail> {
    let mut f = all_entries(alloc)?;
    change_all(&mut f, changes)?;
    Ok(f)
}

// Whether exactly this is printed of a part of a folder.
pub(crate) fn shows(alloc: Global, f: &mut Mem, part: Part, text: &str) -> Result<bool, Fail> {
    let mut out = MemSink::new(alloc);
    inspect(alloc, f, &mut out, &part)?;
    Ok(out.written() == text.as_bytes())
}

// Whether exactly this is printed of a folder that is verified.
pub(crate) fn holds(alloc: Global, f: &mut Mem, text: &str) -> Result<bool, Fail> {
    let mut out = MemSink::new(alloc);
    verify(alloc, f, &mut out)?;
    Ok(out.written() == text.as_bytes())
}

// How a folder is verified where the output fails at a call, and whether what was printed then is a prefix of this.
pub(crate) fn cut(
    alloc: Global,
    f: &mut Mem,
    call: u64,
    text: &str,
) -> Result<(Result<(), InspectFault>, bool), Fail> {
    let mut out = MemSink::new(alloc);
    out.fail_at(call)?;
    let answer = verify(alloc, f, &mut out);
    let is_front = text.as_bytes().starts_with(out.written());
    Ok((answer, is_front))
}
