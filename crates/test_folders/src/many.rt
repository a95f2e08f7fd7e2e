// Folders of many entries.
use crate::folders::{Entry, Mem, add, give_blocks, put_index};
use blk_index::make;
use blk_io::{Fault, FileId, Folder, MemFolder, SilentFolder};
use std::alloc::Global;
use std::test::Fail;

/// How many entries there are.
pub const ENTRIES: u32 = 4000;

/// How many of them aren't plain ones with short keys.
pub const OTHERS: u32 = 100;

/// What these are.
#[derive(Clone, Copy)]
pub enum Sort {
    Plain,
    // They have a stream in an external file.
    External,
    // They have a long key.
    Long,
    // They are parents, and the same number after them are their parts.
    Parents,
}

/// An entry without streams, with a record in this block.
pub fn plain<'a>(block: u32, key: &'a [u8]) -> Entry<'a> {
    Entry {
        record: 0xA001_0000 | block,
        key,
        long_key: 0,
        flags: 0,
        sizes: [0; 4],
        addrs: [0; 4],
    }
}

// Adds an entry with a stream in an external file.
fn add_external(f: &mut Mem, i: u32) -> Result<(), Fault> {
    let number = i.saturating_add(1);
    f.set_len(FileId::External(number), 20000)?;
    let key = i.to_le_bytes();
    let mut entry = plain(i, &key);
    entry.sizes = [20000, 0, 0, 0];
    entry.addrs = [0x8000_0000 | number, 0, 0, 0];
    add(f, i, &entry)
}

// Adds an entry with a key of 1100 bytes.
fn add_long(alloc: Global, f: &mut Mem, i: u32) -> Result<(), Fail> {
    let mut key = Vec::from_slice(alloc, &i.to_le_bytes())?;
    key.resize(1100, b'x')?;
    let mut entry = plain(i, &key);
    entry.long_key = 0xB102_0000 | i.wrapping_mul(4);
    add(f, i, &entry)?;
    Ok(())
}

// Adds a parent.
fn add_parent(f: &mut Mem, i: u32) -> Result<(), Fault> {
    let key = i.to_le_bytes();
    let mut entry = plain(i, &key);
    let index = 0xC203_0000 | i.wrapping_mul(4);
    entry.flags = 1;
    entry.sizes = [0, 0, 8256, 0];
    entry.addrs = [0, 0, index, 0];
    put_index(f, index, 4)?;
    add(f, i, &entry)
}

// Adds the part of a parent.
fn add_part(alloc: Global, f: &mut Mem, i: u32) -> Result<(), Fail> {
    let mut key = Vec::from_slice(alloc, b"Range_")?;
    key.extend_from_slice(&i.wrapping_sub(OTHERS).to_le_bytes())?;
    key.extend_from_slice(b":1:0")?;
    let mut entry = plain(i, &key);
    let index = 0xA001_1000 | i;
    entry.flags = 2;
    entry.sizes = [0, 1024, 192, 0];
    entry.addrs = [0, 0xB002_0000 | i, index, 0];
    put_index(f, index, 4)?;
    add(f, i, &entry)?;
    Ok(())
}

// Adds one of the entries.
fn add_one(alloc: Global, f: &mut Mem, sort: Sort, i: u32) -> Result<(), Fail> {
    match (sort, i / OTHERS) {
        (Sort::External, 0) => add_external(f, i)?,
        (Sort::Long, 0) => add_long(alloc, f, i)?,
        (Sort::Parents, 0) => add_parent(f, i)?,
        (Sort::Parents, 1) => add_part(alloc, f, i)?,
        _ => add(f, i, &plain(i, &i.to_le_bytes()))?,
    }
    Ok(())
}

/// A folder of so many entries.
pub fn many(alloc: Global, sort: Sort, entries: u32) -> Result<Mem, Fail> {
    let mut f = SilentFolder::new(MemFolder::without_trail(alloc));
    make(&mut f, 7)?;
    give_blocks(&mut f, 5120, [5120, 5120, 512, 512])?;
    for i in 0..entries {
        add_one(alloc, &mut f, sort, i)?;
    }
    Ok(f)
}
