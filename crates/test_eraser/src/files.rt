// Block files whose blocks are full of one byte.
use blk_io::{Failed, FileId, Folder, MemFolder, NoMemory};
use std::alloc::Global;

/// The byte of which the blocks are full.
pub const OLD: u8 = 0xAB;

/// How many bytes a header has.
pub const HEADER_LEN: usize = 8192;

/// The place of a map.
pub const MAP: u64 = 80;

/// The bytes of a block file with blocks of this size, and this first byte of the map: so many bytes of blocks.
pub fn block_file(alloc: Global, size: u16, map: u8, count: usize) -> Result<Vec<u8>, NoMemory> {
    let mut bytes = Vec::new(alloc);
    bytes.resize(HEADER_LEN, 0)?;
    for (slot, byte) in bytes.iter_mut().skip(12).zip(size.to_le_bytes()) {
        *slot = byte;
    }
    for slot in bytes.iter_mut().skip(MAP as usize).take(1) {
        *slot = map;
    }
    bytes.resize(HEADER_LEN.saturating_add(count), OLD)?;
    Ok(bytes)
}

/// A folder with one file.
pub fn folder_with(alloc: Global, file: FileId, bytes: &[u8]) -> Result<MemFolder, NoMemory> {
    let mut folder = MemFolder::new(alloc);
    folder.add_file(file, bytes)?;
    Ok(folder)
}

/// Whether so many bytes of a file from a place on are all this byte.
pub fn is_full_of<F: Folder>(
    f: &mut F,
    file: FileId,
    at: u64,
    count: usize,
    byte: u8,
) -> Result<bool, Failed> {
    let mut out = [0u8; 4096];
    let end = count.min(out.len());
    let n = f.read_at(file, at, &mut out)?;
    Ok(n >= end && out.iter().take(end).all(|b| *b == byte))
}
