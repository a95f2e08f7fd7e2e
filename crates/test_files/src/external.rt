// External files on a folder in memory.
ghost use Rattle.std.specs.Prelude.{◌≡◌, IfOk};
ghost use Rattle.std.specs.Option.{ForSome};
ghost use Rattle.spec_image.specs.Image.{length_of};
ghost use Rattle.spec_format.specs.Address.{kind_of, external};
ghost use Rattle.blk_external.specs.Numbers.{named_file};
ghost use Rattle.blk_io.specs.FileNames.{file_of};

use crate::same::assert_same;
use blk_addr::{Addr, Kind};
use blk_external::{create, delete, read, resize, write};
use blk_io::{Damage, Failed, Fault, FileId, Folder, MemFolder, SilentFolder, read_word};
use std::alloc::Global;
use std::test::Fail;

const INDEX_LEN: u64 = 262512;

// A folder whose index is whole and has this last number, and which has files of these numbers.
fn with_last(alloc: Global, last: u32, taken: &[u32]) -> Result<MemFolder, Failed> {
    let mut f = SilentFolder::new(MemFolder::without_trail(alloc));
    f.set_len(FileId::Index, INDEX_LEN)?;
    f.write_at(FileId::Index, 16, &last.to_le_bytes())?;
    for number in taken {
        f.set_len(FileId::External(*number), 1)?;
    }
    Ok(f.into_inner())
}

// Makes a file where the index is whole.
fn create_whole<F: Folder>(f: &mut F) -> Result<Addr, Fault>
    ensures { IfOk result (λ addr. kind_of addr ≡ external) }
{
    if f.length(FileId::Index)? != Some(INDEX_LEN) {
        return Err(Fault::Device);
    }
    create(f)
}

// The file of an address.
fn name_of(addr: Addr) -> FileId
    requires { kind_of addr ≡ external }
    ensures { file_of result ≡ named_file addr }
{
    match addr.file() {
        blk_addr::FileId::External(number) => FileId::External(number),
        _ => unreachable!(),
    }
}

// The length of a file.
fn length<F: Folder>(f: &mut F, addr: Addr) -> Result<u64, Failed>
    requires { kind_of addr ≡ external }
    ensures { IfOk result (λ n. ForSome (F.told f.new).files (λ image. length_of image (named_file addr) ≡ n)) }
{
    match f.length(name_of(addr))? {
        Some(n) => Ok(n),
        None => Ok(0),
    }
}

// Writes bytes of a file, where it has them.
fn write_inside<F: Folder>(f: &mut F, addr: Addr, at: u64, bytes: &[u8]) -> Result<(), Failed>
    requires { kind_of addr ≡ external }
{
    let n = length(f, addr)?;
    if at > n || bytes.len() as u64 > n - at {
        return Err(Failed);
    }
    write(f, addr, at, bytes)
}

// Makes a file: the word of its address, its length, and the last number that the index has then.
fn made<F: Folder>(f: &mut F) -> Result<(u32, u64, u32), Fault> {
    let addr = create_whole(f)?;
    let size = length(f, addr)?;
    Ok((addr.word(), size, read_word(f, FileId::Index, 16)?))
}

#[test]
fn a_file_gets_the_first_free_number_after_the_last(rt: HostRuntime) -> Result<(), Fail> {
    let taken: [&[u32]; 9] = [
        &[],
        &[4, 7],
        &[6],
        &[6, 7, 9],
        &[],
        &[268435455],
        &[],
        &[1, 2],
        &[],
    ];
    let lasts = [
        0, 5, 5, 5, 268435454, 268435454, 268435455, 268435455, 4294967295,
    ];
    let wanted = [1, 6, 7, 8, 268435455, 1, 1, 3, 1];
    for i in 0..9 {
        let mut f = with_last(rt.alloc(), lasts[i], taken[i])?;
        let number = wanted[i];
        assert_same(&rt, made(&mut f), Ok((0x8000_0000 + number, 0, number)));
    }
    Ok(())
}

// The number of folder calls that make a file.
fn calls_of_making(f: &mut MemFolder) -> Result<u64, Fault> {
    let before = f.calls();
    let _addr = create_whole(f)?;
    Ok(f.calls().wrapping_sub(before))
}

#[test]
fn two_calls_find_a_next_number_that_is_free(rt: HostRuntime) -> Result<(), Fail> {
    let mut f = with_last(rt.alloc(), 8, &[3])?;

    // The test looks for the index, and the call reads, looks, makes and writes.
    assert_same(&rt, calls_of_making(&mut f), Ok(1 + 4));
    Ok(())
}

// Makes a file of ten bytes, of which the last seven are letters, and reads three at its end and none after it.
fn written<F: Folder>(f: &mut F) -> Result<(Addr, [u8; 3]), Fault>
    ensures { IfOk result (λ made. kind_of made.0 ≡ external) }
{
    let addr = create_whole(f)?;
    resize(f, addr, 10)?;
    write_inside(f, addr, 3, b"abcdefg")?;
    let mut end = [9; 3];
    read(f, addr, 7, &mut end)?;
    let mut none = [];
    read(f, addr, 10, &mut none)?;
    Ok((addr, end))
}

// Cuts the file to five bytes, gives it eight, reads them and deletes it.
fn cut_and_read<F: Folder>(f: &mut F, addr: Addr) -> Result<[u8; 8], Fault>
    requires { kind_of addr ≡ external }
{
    resize(f, addr, 5)?;
    resize(f, addr, 8)?;
    let mut all = [9; 8];
    read(f, addr, 0, &mut all)?;
    delete(f, addr)?;
    Ok(all)
}

// Both, on the only file of a folder: the bytes that are read, and the lengths of the file and of the index in the end.
fn kept<F: Folder>(f: &mut F) -> Result<([u8; 3], [u8; 8], Option<u64>, Option<u64>), Fault> {
    let (addr, end) = written(f)?;
    let all = cut_and_read(f, addr)?;
    let left = f.length(FileId::External(1))?;
    Ok((end, all, left, f.length(FileId::Index)?))
}

#[test]
fn a_file_holds_its_bytes(rt: HostRuntime) -> Result<(), Fail> {
    let mut f = with_last(rt.alloc(), 0, &[])?;
    let bytes = (*b"efg", *b"\0\0\0ab\0\0\0", None, Some(INDEX_LEN));
    assert_same(&rt, kept(&mut f), Ok(bytes));
    Ok(())
}

// The faults of reading past the end of a new file, and of making one where the index ends inside its last number.
fn faults_of_cuts(f: &mut SilentFolder<MemFolder>) -> Result<[Option<Fault>; 2], Fault> {
    let addr = create(f)?;
    resize(f, addr, 10)?;
    let mut out = [7; 4];
    let past = read(f, addr, 7, &mut out).err();
    f.set_len(FileId::Index, 18)?;
    Ok([past, create(f).err()])
}

#[test]
fn too_few_bytes_are_a_damage(rt: HostRuntime) -> Result<(), Fail> {
    let mut f = SilentFolder::new(with_last(rt.alloc(), 8, &[])?);
    let past = Fault::Damaged(Damage {
        file: FileId::External(9),
        at: 7,
        found: 3,
    });
    let index = Fault::Damaged(Damage {
        file: FileId::Index,
        at: 16,
        found: 2,
    });
    assert_same(&rt, faults_of_cuts(&mut f), Ok([Some(past), Some(index)]));
    Ok(())
}
