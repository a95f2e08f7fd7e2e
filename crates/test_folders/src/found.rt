// What is found in a folder, read by the format alone.
ghost use Rattle.std.specs.Prelude.{◌≤◌, length};

use crate::folders::{ADDRS, CONTENTS, KEY, KEY_LEN, LONG_KEY, SIZES, place_of};
use blk_io::{Fault, FileId, Folder, SilentFolder, read_exact, read_word};
use blk_record::super_fast_hash;
use blk_scan::Scan;

// The most bytes that are read by one call.
const PIECE: u32 = 4096;

// A hash with one more number.
fn mixed(hash: u64, value: u32) -> u64 {
    (hash ^ u64::from(value)).wrapping_mul(0x0000_0100_0000_01B3)
}

// The hash of at most 4096 bytes of a file.
fn hash_of_piece<F: Folder>(
    f: &mut SilentFolder<F>,
    file: FileId,
    at: u64,
    bytes: &mut [u8],
) -> Result<u32, Fault>
    requires { length bytes.old ≤ 4096 }
{
    if bytes.is_empty() {
        return Ok(0);
    }
    read_exact(f, file, at, bytes)?;
    Ok(super_fast_hash(bytes))
}

// A hash with so many bytes of an address, from a place after its first block on.
fn with_bytes<F: Folder>(
    f: &mut SilentFolder<F>,
    addr: u32,
    behind: u64,
    count: u32,
    hash: u64,
) -> Result<u64, Fault> {
    let (file, place) = place_of(addr);
    let mut buffer = [0u8; PIECE as usize];
    let mut all = mixed(hash, count);
    for piece in 0..count / PIECE + 1 {
        let start = piece.wrapping_mul(PIECE);
        let length = count.saturating_sub(start).min(PIECE) as usize;
        let at = place.wrapping_add(behind).wrapping_add(u64::from(start));
        all = mixed(all, hash_of_piece(f, file, at, &mut buffer[..length])?);
    }
    Ok(all)
}

/// The same hash with bytes that are at hand.
pub fn with_these(bytes: &[u8], hash: u64) -> u64 {
    let mut all = mixed(hash, (bytes.len() & 0xFFFF_FFFF) as u32);
    for piece in bytes.chunks(PIECE as usize) {
        all = mixed(all, super_fast_hash(piece));
    }
    if bytes.len() % PIECE as usize == 0 {
        all = mixed(all, 0);
    }
    all
}

// A hash with the key of a record, and the bytes of its three streams.
fn with_entry<F: Folder>(f: &mut SilentFolder<F>, record: u32, hash: u64) -> Result<u64, Fault> {
    let (file, place) = place_of(record);
    let key_len = read_word(f, file, place.wrapping_add(KEY_LEN))?;
    let long_key = read_word(f, file, place.wrapping_add(LONG_KEY))?;
    let mut all = match long_key {
        0 => with_bytes(f, record, KEY, key_len, hash)?,
        word => with_bytes(f, word, 0, key_len, hash)?,
    };
    for at in [0, 4, 8] {
        let size = read_word(f, file, place.wrapping_add(SIZES).wrapping_add(at))?;
        let addr = read_word(f, file, place.wrapping_add(ADDRS).wrapping_add(at))?;
        all = with_bytes(f, addr, 0, size, all)?;
    }
    Ok(all)
}

/// A hash of all that is found in a folder of which a consistency check found this: of each entry that is kept, in the order of the list, its key
/// and the bytes of its streams.
pub fn found<F: Folder>(f: &mut SilentFolder<F>, scan: &Scan) -> Result<u64, Fault> {
    let mut all = 0;
    for node in scan.kept_nodes() {
        let (file, place) = place_of(node.word());
        let record = read_word(f, file, place.wrapping_add(CONTENTS))?;
        all = with_entry(f, record, all)?;
    }
    Ok(all)
}
