// Random calls over windows of some pages, beside the same calls on the folder alone.
use crate::traced::{mixed, window_over, with_bytes, with_file};
use blk_io::{Failed, FileId, Folder, MemFolder, NoMemory};
use std::alloc::Global;
use std::test::Fail;

// How many calls are made over each window.
const CALLS: u64 = 2000;

// Calls are at offsets, and set lengths, below this: within a few pages.
const LONGEST: u64 = 20_000;

// The most bytes of a read, and of a write.
const MOST: usize = 9000;

const LONGEST_WRITE: usize = 600;

// A call on a folder: of a file, with a place and a number of bytes.
#[derive(Clone, Copy)]
enum Call {
    Read(FileId, u64, usize),
    Write(FileId, u64, usize),
    Resize(FileId, u64),
    Delete(FileId),
    Length(FileId),
    List(FileId),
}

// The next number after this one.
fn next(draw: u64) -> u64 {
    draw.wrapping_mul(0x5851_F42D_4C95_7F2D)
        .wrapping_add(0x1405_7B7E_F767_814F)
}

// The call of a number: of thirty-two there are eighteen reads and nine writes.
fn call_of(draw: u64) -> Call {
    let file = match draw >> 60 {
        0..=7 => FileId::Index,
        8..=11 => FileId::Block(2),
        _ => FileId::External(7),
    };
    let at = (draw >> 40) % LONGEST;
    let count = (draw >> 20) as usize % MOST;
    match (draw >> 12) % 32 {
        0..=17 => Call::Read(file, at, count),
        18..=26 => Call::Write(file, at, count % LONGEST_WRITE),
        27..=28 => Call::Resize(file, at),
        29 => Call::Delete(file),
        30 => Call::Length(file),
        _ => Call::List(file),
    }
}

// Writes over bytes of a file, where it has them.
fn write_inside<F: Folder>(f: &mut F, file: FileId, at: u64, bytes: &[u8]) -> Result<u64, Failed> {
    match f.length(file)? {
        Some(n) if at <= n && bytes.len() as u64 <= n - at => {
            f.write_at(file, at, bytes)?;
            Ok(1)
        }
        _ => Ok(0),
    }
}

// Makes a call. Gives a number for its answer.
fn make<F: Folder>(f: &mut F, call: Call, bytes: &[u8], out: &mut [u8]) -> Result<u64, Failed> {
    match call {
        Call::Read(file, at, count) => {
            let most = count.min(out.len());
            let n = f.read_at(file, at, &mut out[..most])?;
            Ok(with_bytes(mixed(0, n as u64), &out[..n]))
        }
        Call::Write(file, at, count) => write_inside(f, file, at, &bytes[..count.min(bytes.len())]),
        Call::Resize(file, length) => {
            f.set_len(file, length)?;
            Ok(0)
        }
        Call::Delete(file) => {
            f.delete(file)?;
            Ok(0)
        }
        Call::Length(file) => Ok(match f.length(file)? {
            Some(n) => n.wrapping_add(1),
            None => 0,
        }),
        Call::List(after) => Ok(match f.list(Some(after))? {
            Some(file) => with_file(1, file),
            None => 0,
        }),
    }
}

// So many zeros.
fn zeros(alloc: Global, count: usize) -> Result<Vec<u8>, NoMemory> {
    let mut bytes = Vec::new(alloc);
    bytes.resize(count, 0)?;
    Ok(bytes)
}

// Makes so many random calls over a window of so many pages and on a folder alone, beginning with this number. Gives the first that
// was answered otherwise.
fn first_difference(alloc: Global, pages: u16, start: u64) -> Result<Option<Call>, Fail> {
    let mut alone = MemFolder::without_trail(alloc);
    let mut window = window_over(alloc, MemFolder::without_trail(alloc), pages)?;
    let mut out = zeros(alloc, MOST)?;
    let mut other = zeros(alloc, MOST)?;
    let mut bytes = zeros(alloc, LONGEST_WRITE)?;
    let mut draw = start;
    for _ in 0..CALLS {
        draw = next(draw);
        for byte in bytes.iter_mut() {
            draw = next(draw);
            *byte = (draw >> 56) as u8;
        }
        let call = call_of(next(draw));
        let answer = make(&mut alone, call, &bytes, &mut out)?;
        if make(&mut window, call, &bytes, &mut other)? != answer {
            return Ok(Some(call));
        }
    }
    Ok(None)
}

#[test]
fn random_calls_are_answered_as_by_the_folder_alone(rt: HostRuntime) -> Result<(), Fail> {
    for (pages, start) in [(1, 11), (2, 12), (3, 13), (4096, 14)] {
        let difference = first_difference(rt.alloc(), pages, start)?;
        assert!(rt; difference.is_none(), "{pages} pages");
    }
    Ok(())
}
