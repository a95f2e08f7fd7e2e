// Opaque folders in memory, written by the format alone.
use blk_audit::ScanFault;
use blk_disk::BlockFiles;
use blk_io::{Failed, Fault, FileId, Folder, MemFolder, SilentFolder, read_word};
use blk_record::super_fast_hash;
use blk_scan::{Scan, scan_files};
use std::alloc::Global;

pub type Mem = SilentFolder<MemFolder>;

/// The fields of the index.
pub const HEAD: u64 = 288;

pub const TAIL: u64 = 308;

pub const TRANSACTION: u64 = 328;

pub const OPERATION: u64 = 332;

/// The fields of a node.
pub const NODE_NEXT: u64 = 16;

pub const PREV: u64 = 20;

pub const CONTENTS: u64 = 24;

pub const DIRTY: u64 = 28;

pub const NODE_SEAL: u64 = 32;

/// The fields of a record: those of its four streams lie side by side, and its next is after its hash.
pub const NEXT: u64 = 4;

pub const BACK: u64 = 8;

pub const STATE: u64 = 20;

pub const KEY_LEN: u64 = 32;

pub const LONG_KEY: u64 = 36;

pub const SIZES: u64 = 40;

pub const ADDRS: u64 = 56;

pub const FLAGS: u64 = 72;

pub const SEAL: u64 = 92;

pub const KEY: u64 = 96;

/// The word of node 0, and how many bytes a header has.
pub const NODES: u32 = 0x9000_0000;

const HEADER: u64 = 8192;

/// An entry: its record's address word, its key with the word of its place where it is long, its flags, and the size and address of
/// each of its streams.
#[derive(Clone, Copy)]
pub struct Entry<'a> {
    pub record: u32,
    pub key: &'a [u8],
    pub long_key: u32,
    pub flags: u32,
    pub sizes: [u32; 4],
    pub addrs: [u32; 4],
}

/// The file and the place of the first block of an address in one of the first four block files, or of an external file.
pub fn place_of(word: u32) -> (FileId, u64) {
    let start = u64::from(word & 0xFFFF);
    match word & 0x7003_0000 {
        0x1000_0000 => (FileId::Block(0), HEADER + 36 * start),
        0x2001_0000 => (FileId::Block(1), HEADER + 256 * start),
        0x3002_0000 => (FileId::Block(2), HEADER + 1024 * start),
        0x4003_0000 => (FileId::Block(3), HEADER + 4096 * start),
        _ => (FileId::External(word & 0x0FFF_FFFF), 0),
    }
}

/// Writes neighbouring words from a place on.
pub fn put_words<F: Folder>(
    f: &mut SilentFolder<F>,
    file: FileId,
    place: u64,
    words: &[u32],
) -> Result<(), Failed> {
    let mut at = place;
    for word in words {
        f.write_at(file, at, &word.to_le_bytes())?;
        at = at.wrapping_add(4);
    }
    Ok(())
}

/// Gives the first four block files this many blocks, with bytes for so many.
pub fn give_blocks<F: Folder>(
    f: &mut SilentFolder<F>,
    max_entries: u32,
    blocks: [u64; 4],
) -> Result<(), Failed> {
    let [nodes, small, middle, large] = blocks;
    for (number, bytes) in [
        (0, 36 * (nodes % 65536)),
        (1, 256 * (small % 65536)),
        (2, 1024 * (middle % 65536)),
        (3, 4096 * (large % 65536)),
    ] {
        let file = FileId::Block(number);
        f.set_len(file, HEADER + bytes)?;
        put_words(f, file, 20, &[max_entries])?;
    }
    Ok(())
}

// The place of the bucket of a hash.
fn place_of_bucket(hash: u32) -> u64 {
    368 + 4 * u64::from(hash & 0xFFFF)
}

// Writes the record and the key of an entry, in front of the chain of its bucket.
fn put_record<F: Folder>(
    f: &mut SilentFolder<F>,
    node: u32,
    entry: &Entry<'_>,
) -> Result<(), Fault> {
    let hash = super_fast_hash(entry.key);
    let bucket = place_of_bucket(hash);
    let next = read_word(f, FileId::Index, bucket)?;
    let (file, place) = place_of(entry.record);
    put_words(f, file, place, &[hash, next, node, 0, 0, 0, 0, 0])?;
    let key_len = (entry.key.len() & 0xFFFF) as u32;
    put_words(
        f,
        file,
        place.wrapping_add(KEY_LEN),
        &[key_len, entry.long_key],
    )?;
    put_words(f, file, place.wrapping_add(SIZES), &entry.sizes)?;
    put_words(f, file, place.wrapping_add(ADDRS), &entry.addrs)?;
    put_words(f, file, place.wrapping_add(FLAGS), &[entry.flags])?;
    put_key(f, entry)?;
    put_words(f, FileId::Index, bucket, &[entry.record])?;
    Ok(())
}

// Writes the key of an entry, into its record or after it.
fn put_key<F: Folder>(f: &mut SilentFolder<F>, entry: &Entry<'_>) -> Result<(), Failed> {
    let (file, place) = match entry.long_key {
        0 => place_of(entry.record),
        word => place_of(word),
    };
    let at = if entry.long_key == 0 { KEY } else { 0 };
    f.write_at(file, place.wrapping_add(at), entry.key)
}

/// Adds an entry with a node of this number at the end of the list, and in front of the chain of its bucket. The numbers are
/// given in their order.
pub fn add<F: Folder>(
    f: &mut SilentFolder<F>,
    number: u32,
    entry: &Entry<'_>,
) -> Result<(), Fault> {
    let node = NODES | (number & 0xFFFF);
    put_record(f, node, entry)?;
    let before = NODES | (number.saturating_sub(1) & 0xFFFF);
    let (file, place) = place_of(node);
    put_words(
        f,
        file,
        place.wrapping_add(NODE_NEXT),
        &[node, before, entry.record],
    )?;
    put_words(f, FileId::Index, TAIL, &[node])?;
    if number == 0 {
        put_words(f, FileId::Index, HEAD, &[node])?;
    } else {
        let (file, place) = place_of(before);
        put_words(f, file, place.wrapping_add(NODE_NEXT), &[node])?;
    }
    Ok(())
}

/// A change to a folder.
#[derive(Clone, Copy)]
pub enum Change {
    // A word of the index at a place.
    Index(u64, u32),
    // The word of a bucket.
    Bucket(u32, u32),
    // A word after the first block of an address.
    Word(u32, u64, u32),
    // Another length of a file.
    Length(FileId, u64),
    // A file is taken away.
    Gone(FileId),
}

// Makes a change.
fn make_change<F: Folder>(f: &mut SilentFolder<F>, change: Change) -> Result<(), Failed> {
    match change {
        Change::Index(at, word) => put_words(f, FileId::Index, at, &[word]),
        Change::Bucket(bucket, word) => put_words(
            f,
            FileId::Index,
            place_of_bucket(bucket),
            &[word],
        ),
        Change::Word(addr, at, word) => {
            let (file, place) = place_of(addr);
            put_words(f, file, place.wrapping_add(at), &[word])
        }
        Change::Length(file, length) => f.set_len(file, length),
        Change::Gone(file) => f.delete(file),
    }
}

/// Makes some changes.
pub fn change_all<F: Folder>(f: &mut SilentFolder<F>, changes: &[Change]) -> Result<(), Failed> {
    for one in changes {
        make_change(f, *one)?;
    }
    Ok(())
}

/// Writes a sparse index of the generation 1 and of a key of so many bytes, with the bit of its first part or block.
pub fn put_index<F: Folder>(
    f: &mut SilentFolder<F>,
    index: u32,
    key_len: u32,
) -> Result<(), Failed> {
    let (file, place) = place_of(index);
    put_words(f, file, place, &[1, 0, 0xC103_CAC3, key_len, u32::MAX, 0])?;
    put_words(f, file, place.wrapping_add(64), &[1])
}

/// What a consistency check finds.
pub fn audited<F: Folder>(alloc: Global, f: &mut SilentFolder<F>) -> Result<Scan, ScanFault> {
    let files = BlockFiles::load(f)?;
    scan_files(alloc, f, &files)
}

/// The word and the reason's number of one that is dropped, or zeros.
pub fn dropped_at(scan: &Scan, i: usize) -> (u32, u32) {
    match scan.dropped_at(i) {
        Some(one) => (one.place.word(), one.reason.number()),
        None => (0, 0),
    }
}
