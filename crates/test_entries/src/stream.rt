// Streams in an opaque folder in memory.
ghost use Rattle.std.specs.Prelude.{◌≡◌, IfSome, IsTrue};
ghost use Rattle.spec_format.specs.Address.{blocks_256, kind_of};
ghost use Rattle.blk_disk.specs.Tables.{stands_among};

use crate::folders::{INDEX_LEN, put_files};
use crate::same::assert_same;
use blk_addr::{Addr, Kind};
use blk_disk::BlockFiles;
use blk_io::{Damage, Failed, Fault, FileId, Folder, MemFolder, SilentFolder, StopFolder};
use blk_record::{EntryMut, RecordMut};
use blk_stream::{drop_streams, read, write};
use std::alloc::Global;
use std::test::Fail;

type Mem = SilentFolder<MemFolder>;

// The address of the record: the first block of 256 bytes.
const ENTRY: u32 = 0xA001_0000;

// A folder with the headers of four block files: the first of records has these words, and these blocks marked.
fn headers(alloc: Global, map: u32, words: [(u64, u32); 4]) -> Result<Mem, Failed> {
    let mut f = SilentFolder::new(MemFolder::new(alloc));
    put_files(&mut f, 8192, [0; 4])?;
    let file = FileId::Block(1);
    f.set_len(file, 10240)?;
    for (at, word) in words {
        f.write_at(file, at, &word.to_le_bytes())?;
    }
    f.write_at(file, 80, &map.to_le_bytes())?;
    Ok(f)
}

// A folder with a record, a stream of 1000 bytes in blocks 4 to 7 after it, one of 20000 in a file, and one without bytes.
fn folder(alloc: Global) -> Result<Mem, Failed> {
    // Two allocations, 1024 blocks, one group with three free ones and 254 with four.
    let mut f = headers(alloc, 0xF1, [(16, 2), (20, 1024), (32, 1), (36, 254)])?;
    f.set_len(FileId::Index, INDEX_LEN)?;
    f.write_at(FileId::Block(1), 9216 + 996, b"last")?;
    f.set_len(FileId::External(1), 20000)?;
    f.write_at(FileId::External(1), 19997, b"end")?;
    put_record(&mut f, [1000, 20000, 0], [0xA301_0004, 0x8000_0001, 0])?;
    Ok(f)
}

// A folder with a record that has no stream, and an index of some length.
fn bare_with(alloc: Global, index: u64) -> Result<Mem, Failed> {
    let mut f = headers(alloc, 1, [(16, 1), (20, 1024), (32, 1), (36, 255)])?;
    f.set_len(FileId::Index, index)?;
    f.set_len(FileId::Block(1), 270_336)?;
    put_record(&mut f, [0, 0, 0], [0, 0, 0])?;
    Ok(f)
}

// The folder with a whole index.
fn bare(alloc: Global) -> Result<Mem, Failed> {
    bare_with(alloc, INDEX_LEN)
}

// Writes the record, with these sizes and addresses of its streams.
fn put_record(f: &mut Mem, sizes: [u32; 3], addrs: [u32; 3]) -> Result<(), Failed> {
    let mut bytes = [0; 96];
    let mut record = EntryMut::new(&mut bytes);
    record.set_word(4, 0xA001_0007);
    record.set_word(32, 1);
    record.set_word(40, sizes[0]);
    record.set_word(44, sizes[1]);
    record.set_word(48, sizes[2]);
    record.set_word(56, addrs[0]);
    record.set_word(60, addrs[1]);
    record.set_word(64, addrs[2]);
    record.seal();
    f.write_at(FileId::Block(1), 8192, &bytes)
}

// The record, where it is there.
fn entry_of(files: &BlockFiles) -> Option<Addr>
    ensures kind { IfSome result (λ addr. kind_of addr ≡ blocks_256) }
    ensures stands { IfSome result (λ addr. IsTrue (stands_among files.now addr)) }
{
    match Addr::from_word(ENTRY) {
        Some(addr) => {
            if addr.kind() == Kind::B256 && files.stands(addr) {
                Some(addr)
            } else {
                None
            }
        }
        None => None,
    }
}

// Reads a stream, and gives the number of its bytes and of the folder calls.
fn get(f: &mut Mem, stream: u8, offset: u64, out: &mut [u8]) -> Result<(usize, u64), Fault> {
    let files = BlockFiles::load(f)?;
    let before = f.calls();
    let Some(entry) = entry_of(&files) else {
        return Err(Fault::Device);
    };
    if stream > 2 {
        return Err(Fault::Device);
    }
    let n = read(f, &files, entry, stream, offset, out)?;
    Ok((n, f.calls().wrapping_sub(before)))
}

// Writes to a stream, and gives the number of the folder calls.
fn put<F: Folder>(
    f: &mut SilentFolder<F>,
    stream: u8,
    offset: usize,
    cut: bool,
    bytes: &[u8],
) -> Result<u64, Fault> {
    let mut files = BlockFiles::load(f)?;
    let before = f.calls();
    let Some(entry) = entry_of(&files) else {
        return Err(Fault::Device);
    };
    if stream > 2 || offset > 1_000_000 || bytes.len() > 1_000_000 {
        return Err(Fault::Device);
    }
    write(f, &mut files, entry, stream, offset as u64, cut, bytes)?;
    Ok(f.calls().wrapping_sub(before))
}

// Drops the streams, and gives the number of the folder calls.
fn empty(f: &mut Mem) -> Result<u64, Fault> {
    let files = BlockFiles::load(f)?;
    let before = f.calls();
    let Some(entry) = entry_of(&files) else {
        return Err(Fault::Device);
    };
    drop_streams(f, &files, entry)?;
    Ok(f.calls().wrapping_sub(before))
}

// A word of the first block file of records.
fn word(f: &mut Mem, at: u64) -> Result<u32, Failed> {
    let mut word = [0; 4];
    f.read_at(FileId::Block(1), at, &mut word)?;
    Ok(u32::from_le_bytes(word))
}

// The size and the address of a stream, as the record has them.
fn named(f: &mut Mem, stream: u8) -> Result<[u32; 2], Failed> {
    let at = 8192 + 4 * u64::from(stream);
    Ok([word(f, at + 40)?, word(f, at + 56)?])
}

// Bytes that differ from place to place, from one place on.
fn pattern(alloc: Global, start: usize, count: usize) -> Result<Vec<u8>, Fail> {
    let mut bytes = Vec::new(alloc);
    bytes.resize(count, 0)?;
    for (j, byte) in bytes.iter_mut().enumerate() {
        *byte = ((start % 65536 + j % 65536) % 251) as u8;
    }
    Ok(bytes)
}

// The allocations of the block files of data, and the marked blocks among the first 32 of each.
fn used(f: &mut Mem) -> Result<[(u32, u32); 3], Failed> {
    let mut all = [(0, 0); 3];
    for (n, slot) in all.iter_mut().enumerate() {
        let mut words = [0; 8];
        f.read_at(FileId::Block(n as u8 + 1), 16, &mut words[..4])?;
        f.read_at(FileId::Block(n as u8 + 1), 80, &mut words[4..])?;
        let [a, b, c, d, e, g, h, i] = words;
        *slot = (
            u32::from_le_bytes([a, b, c, d]),
            u32::from_le_bytes([e, g, h, i]).count_ones(),
        );
    }
    Ok(all)
}

// What is used by a record of one block and data of a size.
fn owned(size: usize) -> [(u32, u32); 3] {
    let mut all = [(1, 1), (0, 0), (0, 0)];
    match size {
        0 => {}
        1..=1023 => all[0] = (2, 1 + size.div_ceil(256) as u32),
        1024..=4095 => all[1] = (1, size.div_ceil(1024) as u32),
        4096..=16384 => all[2] = (1, size.div_ceil(4096) as u32),
        _ => {}
    }
    all
}

// Gives stream 1, which had so many bytes, another size, and says whether bytes, map and counters are right then.
fn resized(alloc: Global, f: &mut Mem, had: usize, size: usize) -> Result<bool, Fail> {
    let kept = size.min(had);
    let bytes = pattern(alloc, kept, size - kept)?;
    let done = put(f, 1, kept, size < had, &bytes).is_ok();
    let mut out = pattern(alloc, 9, size)?;
    let read = get(f, 1, 0, &mut out).is_ok();
    let same = out == pattern(alloc, 0, size)?;
    Ok(done && read && same && used(f)? == owned(size))
}

// Makes these bytes the first stream: its size and its address, the length of the first file, and what is used then.
fn stored(
    f: &mut Mem,
    cut: bool,
    bytes: &[u8],
) -> Result<([u32; 2], Option<u64>, [(u32, u32); 3]), Fault> {
    let _calls = put(f, 0, 0, cut, bytes)?;
    Ok((named(f, 0)?, f.length(FileId::External(1))?, used(f)?))
}

#[test]
fn a_stream_lies_in_the_storage_of_its_length(rt: HostRuntime) -> Result<(), Fail> {
    // No place; four blocks of 256 bytes; one of 1024 bytes, and four; one of 4096, and four; a file.
    let cases = [
        (0, 0, None),
        (1023, 0xA301_0004, None),
        (1024, 0xB002_0000, None),
        (4095, 0xB302_0000, None),
        (4096, 0xC003_0000, None),
        (16384, 0xC303_0000, None),
        (16385, 0x8000_0001, Some(16385)),
    ];
    for (size, addr, file) in cases {
        let mut f = bare(rt.alloc())?;
        let bytes = pattern(rt.alloc(), 0, size)?;
        let found = Ok(([size as u32, addr], file, owned(size)));
        assert_same(&rt, stored(&mut f, false, &bytes), found);
    }
    Ok(())
}

// Writes three bytes far past the end of the second stream, and reads from two places before them on: what is read, and
// the stream's size and address, and what is used then.
fn write_far_behind(
    f: &mut Mem,
    out: &mut [u8],
) -> Result<((usize, u64), [u32; 2], [(u32, u32); 3]), Fault> {
    let _calls = put(f, 1, 5000, false, b"abc")?;
    let read = get(f, 1, 4998, out)?;
    Ok((read, named(f, 1)?, used(f)?))
}

#[test]
fn bytes_far_behind_the_end_come_after_zeros(rt: HostRuntime) -> Result<(), Fail> {
    let mut f = bare(rt.alloc())?;
    let mut out = [7; 9];

    // Two blocks of 4096 bytes, which are marked, and no others beside that of the record.
    let found = ((5, 2), [5003, 0xC103_0000], [(1, 1), (0, 0), (1, 2)]);
    assert_same(&rt, write_far_behind(&mut f, &mut out), Ok(found));
    assert_same(&rt, out, *b"\0\0abc\x07\x07\x07\x07");
    Ok(())
}

#[test]
fn a_cut_to_few_bytes_leaves_the_file(rt: HostRuntime) -> Result<(), Fail> {
    let mut f = bare(rt.alloc())?;
    let bytes = pattern(rt.alloc(), 0, 20000)?;
    let whole = ([20000, 0x8000_0001], Some(20000), owned(20000));
    assert_same(&rt, stored(&mut f, false, &bytes), Ok(whole));

    // One block of 256 bytes, after that of the record.
    let cut = ([10, 0xA001_0001], None, [(2, 2), (0, 0), (0, 0)]);
    assert_same(&rt, stored(&mut f, true, &[b'z'; 10]), Ok(cut));
    Ok(())
}

#[test]
fn streams_are_grown_and_cut_into_each_other(rt: HostRuntime) -> Result<(), Fail> {
    let sizes = [0, 1, 1023, 1024, 4095, 4096, 16384, 16385];
    let mut f = bare(rt.alloc())?;
    let mut had = 0usize;
    for old in sizes {
        for new in sizes {
            for size in [old, new] {
                assert!(rt; resized(rt.alloc(), &mut f, had, size)?);
                had = size;
            }
        }
    }
    Ok(())
}

// A list after a write.
fn note(list: &mut Vec<u8>, offset: usize, cut: bool, bytes: &[u8]) -> Result<(), Fail> {
    let end = offset.saturating_add(bytes.len());
    let size = if cut { end } else { end.max(list.len()) };
    list.resize(size, 0)?;
    for (slot, byte) in list.iter_mut().skip(offset).zip(bytes) {
        *slot = *byte;
    }
    Ok(())
}

// Writes to stream 1 and to a list, and says whether they are the same then.
fn alike(
    f: &mut Mem,
    list: &mut Vec<u8>,
    offset: usize,
    cut: bool,
    bytes: &[u8],
) -> Result<bool, Fail> {
    let done = put(f, 1, offset, cut, bytes).is_ok();
    note(list, offset, cut, bytes)?;
    let mut out = list.clone()?;
    out.fill(7);
    let read = get(f, 1, 0, &mut out).is_ok();
    Ok(done && read && out == *list)
}

#[test]
fn four_hundred_random_writes_leave_what_a_list_holds(rt: HostRuntime) -> Result<(), Fail> {
    let mut f = bare(rt.alloc())?;
    let mut list = Vec::new(rt.alloc());
    let mut seed = 1u32;
    for n in 0..400u32 {
        seed = seed.wrapping_mul(1_103_515_245).wrapping_add(12345);
        let offset = (seed >> 8) as usize % 18000;
        let bytes = pattern(rt.alloc(), n as usize, (seed >> 4) as usize % 3000)?;
        let cut = seed >= 0xC000_0000;
        assert!(rt; alike(&mut f, &mut list, offset, cut, &bytes)?);
    }
    Ok(())
}

// The marks of the first 32 blocks of each of the block files of data.
fn marks_of(f: &mut Mem) -> Result<[u32; 3], Failed> {
    let mut all = [0; 3];
    for (n, slot) in all.iter_mut().enumerate() {
        let mut word = [0; 4];
        f.read_at(FileId::Block(n as u8 + 1), 80, &mut word)?;
        *slot = u32::from_le_bytes(word);
    }
    Ok(all)
}

// A folder where stream 1 has some bytes: these, its size and its address, and the marks.
#[derive(Drop)]
struct Moment {
    bytes: Vec<u8>,
    words: [u32; 2],
    marks: [u32; 3],
}

// The folder as it is, where stream 1 should have these bytes.
fn moment_of(f: &mut Mem, bytes: Vec<u8>) -> Result<Moment, Failed> {
    let words = named(f, 1)?;
    let marks = marks_of(f)?;
    Ok(Moment {
        bytes,
        words,
        marks,
    })
}

// Whether these marks have all of `now`, and no others than those of `before` and `after`, which share the record's block alone.
fn are_marked(marks: [u32; 3], now: &Moment, before: &Moment, after: &Moment) -> bool {
    for n in 0..3usize {
        let most = before.marks[n] | after.marks[n];
        let shared = if n == 0 { 1 } else { 0 };
        if before.marks[n] & after.marks[n] != shared {
            return false;
        }
        if now.marks[n] & !marks[n] != 0 || marks[n] & !most != 0 {
            return false;
        }
    }
    true
}

// Whether a reader finds these bytes in stream 1.
fn has(f: &mut Mem, bytes: &Vec<u8>) -> Result<bool, Fail> {
    let mut out = bytes.clone()?;
    out.fill(7);
    let read = get(f, 1, 0, &mut out).is_ok();
    Ok(read && out == *bytes)
}

// A write to stream 1, which has some bytes before it.
#[derive(Drop)]
struct Write {
    old: Vec<u8>,
    offset: usize,
    cut: bool,
    bytes: Vec<u8>,
}

// The folder after so many steps of a write, and whether these were all.
fn stopped(alloc: Global, write: &Write, steps: u64) -> Result<(bool, Mem), Fail> {
    // The head of an index will do, and is sooner made.
    let mut f = bare_with(alloc, 368)?;
    let filled = put(&mut f, 1, 0, false, &write.old).is_ok();
    let mut f = SilentFolder::new(StopFolder::new(f.into_inner(), steps));
    let done = put(&mut f, 1, write.offset, write.cut, &write.bytes).is_ok();
    let f = SilentFolder::new(f.into_inner().into_inner());
    Ok((filled && done, f))
}

// What holds before a write of so many steps, and after it.
fn moments(alloc: Global, write: &Write, all: u64) -> Result<(Moment, Moment), Fail> {
    let old = write.old.clone()?;
    let mut new = write.old.clone()?;
    note(&mut new, write.offset, write.cut, &write.bytes)?;
    let (_, mut f) = stopped(alloc, write, 0)?;
    let before = moment_of(&mut f, old)?;
    let (_, mut f) = stopped(alloc, write, all)?;
    let after = moment_of(&mut f, new)?;
    Ok((before, after))
}

// After so many steps of a write: whether these were all, the size and the address of stream 1, the marks, and whether a
// reader finds these bytes.
fn at_step(
    alloc: Global,
    write: &Write,
    steps: u64,
    bytes: &Vec<u8>,
) -> Result<(bool, [u32; 2], [u32; 3], bool), Fail> {
    let (done, mut f) = stopped(alloc, write, steps)?;
    let found = has(&mut f, bytes)?;
    Ok((done, named(&mut f, 1)?, marks_of(&mut f)?, found))
}

// The first number of steps after which a crashed write leaves something wrong. After so many the record has the new size,
// and not yet the new address, which comes with the next step.
fn first_wrong(alloc: Global, write: &Write, sized: u64, all: u64) -> Result<Option<u64>, Fail> {
    let (before, after) = moments(alloc, write, all)?;
    for steps in 0..all.saturating_add(1) {
        let now = if steps > sized { &after } else { &before };
        let size = if steps < sized {
            before.words[0]
        } else {
            after.words[0]
        };
        let (done, words, marks, found) = at_step(alloc, write, steps, &now.bytes)?;
        let named = words == [size, now.words[1]];
        let marked = are_marked(marks, now, &before, &after);
        if !named || !marked || found != (steps != sized) || done != (steps == all) {
            return Ok(Some(steps));
        }
    }
    Ok(None)
}

#[test]
fn at_each_word_of_a_move_the_record_names_old_bytes_or_new(rt: HostRuntime) -> Result<(), Fail> {
    let moves = [
        (0, 0, false, 10, 14, 16),
        (10, 10, false, 290, 87, 97),
        (10, 17000, false, 4, 9, 19),
        (1100, 0, true, 10, 14, 24),
        (16385, 0, true, 10, 14, 17),
        (10, 0, true, 0, 2, 12),
    ];
    for (had, offset, cut, count, sized, all) in moves {
        let write = Write {
            old: pattern(rt.alloc(), 0, had)?,
            offset,
            cut,
            bytes: pattern(rt.alloc(), 100, count)?,
        };
        assert_same(&rt, first_wrong(rt.alloc(), &write, sized, all)?, None);
    }
    Ok(())
}

#[test]
fn few_calls_write_a_stream(rt: HostRuntime) -> Result<(), Fail> {
    let mut f = bare(rt.alloc())?;
    let cases = [
        (0, 0, false, 1000, 16),
        (0, 10, false, 100, 2),
        (0, 1000, false, 5, 5),
        (0, 1015, false, 5, 6),
        (0, 1020, false, 980, 29),
        (0, 2000, false, 18000, 20),
        (0, 20000, false, 5, 6),
        (0, 0, true, 10, 17),
        (0, 0, true, 0, 12),
        (1, 0, false, 20000, 11),
        (1, 0, true, 0, 6),
        (2, 0, false, 10000, 20),
        (2, 10000, false, 10000, 24),
    ];
    for (stream, offset, cut, count, calls) in cases {
        let bytes = pattern(rt.alloc(), offset, count)?;
        assert_same(&rt, put(&mut f, stream, offset, cut, &bytes), Ok(calls));
    }
    Ok(())
}

#[test]
fn a_piece_is_read_by_two_calls(rt: HostRuntime) -> Result<(), Fail> {
    let mut f = folder(rt.alloc())?;

    // The last two pieces; then at the end, far past it, and of a stream without bytes.
    for (stream, offset, answer, bytes) in [
        (0, 996, (4, 2), *b"last\x07\x07"),
        (1, 19997, (3, 2), *b"end\x07\x07\x07"),
        (0, 1000, (0, 1), [7; 6]),
        (1, 0x1_0000_0000_0000, (0, 1), [7; 6]),
        (2, 0, (0, 1), [7; 6]),
    ] {
        let mut out = [7; 6];
        let read = get(&mut f, stream, offset, &mut out);
        assert!(rt; read == Ok(answer) && out == bytes);
    }
    Ok(())
}

// Seven words of the first block file of records.
fn words_at(f: &mut Mem, places: [u64; 7]) -> Result<[u32; 7], Failed> {
    let mut words = [0; 7];
    for (slot, at) in words.iter_mut().zip(places) {
        *slot = word(f, at)?;
    }
    Ok(words)
}

// Drops the streams: the folder calls, and then the length of the first file, words of the header, and words of the record.
fn dropped(f: &mut Mem) -> Result<(u64, Option<u64>, [[u32; 7]; 2]), Fault> {
    let calls = empty(f)?;
    let file = f.length(FileId::External(1))?;
    let header = words_at(f, [16, 24, 28, 32, 36, 56, 80])?;
    let record = words_at(f, [8196, 8232, 8236, 8240, 8248, 8252, 8256])?;
    Ok((calls, file, [header, record]))
}

#[test]
fn dropped_streams_leave_their_places(rt: HostRuntime) -> Result<(), Fail> {
    let mut f = folder(rt.alloc())?;

    // One allocation, a group with three free blocks and 255 with four, updating, and the map; the record has its link, and
    // no stream.
    let words = [[1, 0, 0, 1, 255, 0, 1], [0xA001_0007, 0, 0, 0, 0, 0, 0]];
    assert_same(&rt, dropped(&mut f), Ok((1 + 11 + 5, None, words)));
    assert_same(&rt, empty(&mut f), Ok(1));
    Ok(())
}

// The faults of reading a stream and of dropping all, where the first has this size and this address.
fn faults_of(f: &mut Mem, size: u32, addr: u32) -> Result<[Option<Fault>; 2], Failed> {
    put_record(f, [size, 0, 0], [addr, 0, 0])?;
    let mut out = [0; 3];
    Ok([get(f, 0, 0, &mut out).err(), empty(f).err()])
}

#[test]
fn wrong_words_are_damages(rt: HostRuntime) -> Result<(), Fail> {
    let mut f = folder(rt.alloc())?;
    let mut out = [0; 3];
    let file = FileId::External(1);
    f.set_len(file, 19998)?;
    let cut = Fault::Damaged(Damage {
        file,
        at: 19997,
        found: 1,
    });
    assert_same(&rt, get(&mut f, 1, 19997, &mut out), Err(cut));

    // A size that no stream has, a storage of another size, blocks that aren't there, and an address of no bytes.
    let cases = [
        (2147483648, 0x8000_0001, 40, 2147483648),
        (1024, 0xA301_0004, 56, 0xA301_0004),
        (1000, 0xA301_0008, 56, 0xA301_0008),
        (0, 0xA301_0004, 56, 0xA301_0004),
    ];
    for (size, addr, at, found) in cases {
        let file = FileId::Block(1);
        let at = 8192 + at;
        let wrong = Some(Fault::Damaged(Damage { file, at, found }));
        let faults = faults_of(&mut f, size, addr);
        assert_same(&rt, faults, Ok([wrong, wrong]));
    }
    Ok(())
}
