// The verdict on a node, in a small opaque folder in memory.
ghost use Rattle.std.specs.Prelude.{◌<◌, length};

use crate::folders::put_files;
use crate::same::assert_same;
use blk_addr::{Addr, Kind};
use blk_audit::WalkedNode;
use blk_disk::BlockFiles;
use blk_io::{Failed, Fault, FileId, Folder, MemFolder, SilentFolder};
use blk_verdict::{Role, Verdict, has_part, load};
use std::alloc::Global;
use std::test::Fail;

type Mem = SilentFolder<MemFolder>;

// The address of the record: the first block of 256 bytes.
const ENTRY: u32 = 0xA001_0000;

const RECORDS: FileId = FileId::Block(1);

// A folder with the record of an entry of a key with this hash.
fn folder(alloc: Global, key: &[u8], hash: u32) -> Result<Mem, Failed>
    requires { length key.now < 100 }
{
    let mut f = SilentFolder::new(MemFolder::new(alloc));
    put_files(&mut f, 20480, [1024; 4])?;
    put_record(&mut f, 0, key, hash)?;
    Ok(f)
}

// Writes the record of an entry of a key with this hash into a block, with the node of the same number.
fn put_record(f: &mut Mem, block: u32, key: &[u8], hash: u32) -> Result<(), Failed>
    requires key { length key.now < 100 }
    requires block { block < 40 }
{
    let place = 8192 + 256 * u64::from(block);
    put(f, RECORDS, place, 0, hash)?;
    put(f, RECORDS, place, 8, 0x9000_0000 + block)?;
    put(f, RECORDS, place, 32, key.len() as u32)?;
    f.write_at(RECORDS, place + 96, key)
}

// Node 0, as it is read.
fn node_0(contents: u32, dirty: u32) -> WalkedNode {
    WalkedNode {
        addr: Addr::of_blocks(Kind::Rankings, 0, 0, 1),
        contents,
        dirty,
        bare: true,
    }
}

// The verdict on node 0.
fn verdict(f: &mut Mem, contents: u32, dirty: u32, reached: bool) -> Result<Verdict, Fault> {
    let files = BlockFiles::load(f)?;
    load(f, &files, &node_0(contents, dirty), reached)
}

// The number of the reason, or 0.
fn number(f: &mut Mem, contents: u32, dirty: u32, reached: bool) -> Result<u32, Fault> {
    match verdict(f, contents, dirty, reached)? {
        Verdict::Loaded(_) => Ok(0),
        Verdict::Dropped(reason) => Ok(reason.number()),
    }
}

// Whether the record is a parent with a part.
fn has(f: &mut Mem, part: u32) -> Result<bool, Fault>
    requires { part < 65536 }
{
    let files = BlockFiles::load(f)?;
    match load(f, &files, &node_0(ENTRY, 0), true)? {
        Verdict::Loaded(loaded) => match loaded.role {
            Role::Parent(_) => has_part(f, &files, loaded.addrs[2], part),
            _ => Ok(false),
        },
        Verdict::Dropped(_) => Ok(false),
    }
}

// Writes a word after a place.
fn put(f: &mut Mem, file: FileId, place: u64, at: u64, word: u32) -> Result<(), Failed> {
    f.write_at(file, place.wrapping_add(at), &word.to_le_bytes())
}

// Writes the index of a sparse entry or of a part, with the generation 1 and the key's length 1.
fn put_index(f: &mut Mem, file: FileId, place: u64) -> Result<(), Failed> {
    for (at, word) in [
        (0, 1u32),
        (8, 0xC103_CAC3),
        (12, 1),
        (16, 0xFFFF_FFFF),
        (64, 1),
    ] {
        put(f, file, place, at, word)?;
    }
    Ok(())
}

// The number of the reason where a word of the record is another one, which is put back then.
fn reason_of(f: &mut Mem, at: u64, old: u32, word: u32) -> Result<u32, Fault> {
    put(f, RECORDS, 8192, at, word)?;
    let reason = number(f, ENTRY, 0, true)?;
    put(f, RECORDS, 8192, at, old)?;
    Ok(reason)
}

// The numbers where the first stream lies in a file that isn't there, and in one that has its length.
fn reasons_of_a_file(f: &mut Mem) -> Result<[u32; 2], Fault> {
    put(f, RECORDS, 8192, 40, 16385)?;
    put(f, RECORDS, 8192, 56, 0x8000_0001)?;
    let missing = number(f, ENTRY, 0, true)?;
    f.set_len(FileId::External(1), 16385)?;
    Ok([missing, number(f, ENTRY, 0, true)?])
}

#[test]
fn a_wrong_word_is_a_reason(rt: HostRuntime) -> Result<(), Fail> {
    let mut f = folder(rt.alloc(), b"abc", 0xD2BE_198A)?;
    for (contents, dirty, reached, reason) in [
        (ENTRY, 0, true, 0),
        (0x9000_0000, 0, true, 1),
        (ENTRY, 1, true, 6),
        (ENTRY, 0, false, 10),
    ] {
        let found = number(&mut f, contents, dirty, reached);
        assert_same(&rt, found, Ok(reason));
    }
    for (at, old, word, reason) in [
        (92, 0u32, 1u32, 2u32),
        (20, 0, 1, 3),
        (8, 0x9000_0000, 0x9000_0001, 4),
        (72, 0, 3, 5),
        (32, 3, 0, 7),
        (36, 0, 1, 8),
        (32, 3, 2, 9),
        (40, 0, 5, 11),
        (72, 0, 1, 12),
        (72, 0, 2, 12),
    ] {
        assert_same(&rt, reason_of(&mut f, at, old, word), Ok(reason));
    }
    assert_same(&rt, reasons_of_a_file(&mut f), Ok([11, 0]));
    Ok(())
}

// A folder whose record is a parent that has part 0.
fn parent(alloc: Global) -> Result<Mem, Failed> {
    let mut f = folder(alloc, b"k", 0x4EA5_85C0)?;
    for (at, word) in [(72, 1u32), (48, 8256), (64, 0xC203_0000)] {
        put(&mut f, RECORDS, 8192, at, word)?;
    }
    put_index(&mut f, FileId::Block(3), 8192)?;
    Ok(f)
}

// A folder whose record is part 0 of that parent.
fn part(alloc: Global) -> Result<Mem, Failed> {
    let mut f = folder(alloc, b"Range_k:1:0", 0x216A_AC0E)?;
    for (at, word) in [
        (72, 2u32),
        (44, 1024),
        (60, 0xB002_0000),
        (48, 192),
        (64, 0xA001_0001),
    ] {
        put(&mut f, RECORDS, 8192, at, word)?;
    }
    put_index(&mut f, RECORDS, 8192 + 256)?;
    Ok(f)
}

// The number of the part that the record is, if it is one.
fn part_of(f: &mut Mem) -> Result<Option<u32>, Fault> {
    match verdict(f, ENTRY, 0, true)? {
        Verdict::Loaded(loaded) => match loaded.role {
            Role::Part(name) => Ok(Some(name.part)),
            _ => Ok(None),
        },
        Verdict::Dropped(_) => Ok(None),
    }
}

// The number of the reason where the part's data is a byte shorter.
fn reason_of_a_shorter_part(f: &mut Mem) -> Result<u32, Fault> {
    put(f, RECORDS, 8192, 44, 1023)?;
    put(f, RECORDS, 8192, 60, 0xA301_0004)?;
    number(f, ENTRY, 0, true)
}

#[test]
fn a_parent_and_a_part_have_their_index(rt: HostRuntime) -> Result<(), Fail> {
    let mut f = parent(rt.alloc())?;
    assert_same(&rt, [has(&mut f, 0), has(&mut f, 1)], [Ok(true), Ok(false)]);
    let mut f = part(rt.alloc())?;
    assert_same(&rt, part_of(&mut f), Ok(Some(0)));
    assert_same(&rt, reason_of_a_shorter_part(&mut f), Ok(12));
    Ok(())
}
