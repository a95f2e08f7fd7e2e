// Words of an index in memory are written, and read again.
use crate::same::{assert_same, assert_same_at};
use blk_index::{Start, bucket, buckets, look, make, set_bucket, set_word, word};
use blk_io::{Damage, Failed, Fault, FileId, Folder, MemFolder, SilentFolder};
use std::test::Fail;

const INDEX_LEN: u64 = 262512;

// Writes a word of the header and two buckets of an index that has all its bytes.
fn write_three<F: Folder>(f: &mut F) -> Result<bool, Fault> {
    match f.length(FileId::Index)? {
        Some(n) if n == INDEX_LEN => {
            set_word(f, 12, 0x0102_0304)?;
            set_bucket(f, 0, 0x9000_0001)?;
            set_bucket(f, 65535, 0xA101_0002)?;
            Ok(true)
        }
        _ => Ok(false),
    }
}

// Three words of the header and four of the table.
fn words_around<F: Folder>(f: &mut F) -> Result<Option<[u32; 7]>, Fault> {
    match f.length(FileId::Index)? {
        Some(n) if n == INDEX_LEN => Ok(Some([
            word(f, 8)?,
            word(f, 12)?,
            word(f, 16)?,
            bucket(f, 0)?,
            bucket(f, 1)?,
            bucket(f, 65534)?,
            bucket(f, 65535)?,
        ])),
        _ => Ok(None),
    }
}

#[test]
fn each_word_is_one_step_and_the_others_stay(rt: HostRuntime) -> Result<(), Fail> {
    let mut f = MemFolder::new(rt.alloc());
    f.set_len(FileId::Index, INDEX_LEN)?;
    assert_same(&rt, write_three(&mut f), Ok(true));
    assert_same(&rt, (f.calls(), f.steps()), (5, Some(4)));
    let words = [0, 0x0102_0304, 0, 0x9000_0001, 0, 0, 0xA101_0002];
    assert_same(&rt, words_around(&mut f), Ok(Some(words)));
    Ok(())
}

// The failed check of the index.
fn damage(at: u64, found: u32) -> Fault {
    let file = FileId::Index;
    Fault::Damaged(Damage { file, at, found })
}

// What is made of a new index, and what is found where a word of it is another one then.
fn look_with(
    f: &mut SilentFolder<MemFolder>,
    at: u64,
    word: u32,
) -> Result<[Result<Start, Fault>; 2], Failed> {
    make(f, 1)?;
    let made = look(f);
    f.write_at(FileId::Index, at, &word.to_le_bytes())?;
    Ok([made, look(f)])
}

#[test]
fn each_check_of_the_index_names_its_word(rt: HostRuntime) {
    let cases = [
        (0, 0xC104_CAC3),
        (4, 0),
        (4, 0x1_0000),
        (4, 0x2_0001),
        (4, 0x2_FFFF),
        (4, 0x3_0001),
        (4, 0x4_0000),
        (4, 0xFFFF_FFFF),
        (24, 1),
        (28, 65535),
        (36, 2),
        (272, 3),
        (276, 3),
        (280, 3),
        (284, 3),
        (292, 4),
        (296, 4),
        (300, 4),
        (304, 4),
        (312, 5),
        (316, 5),
        (320, 5),
        (324, 5),
        (336, 6),
    ];
    for (at, word) in cases {
        let mut f = SilentFolder::new(MemFolder::new(rt.alloc()));
        let found = [Ok(Start::Finished), Err(damage(at, word))];
        assert_same_at(&rt, look_with(&mut f, at, word), Ok(found), at);
    }
}

#[test]
fn an_index_of_the_first_version_is_finished(rt: HostRuntime) {
    let mut f = SilentFolder::new(MemFolder::new(rt.alloc()));
    let found = [Ok(Start::Finished), Ok(Start::Finished)];
    assert_same(&rt, look_with(&mut f, 4, 0x2_0000), Ok(found));
}

// The faults of reading a bucket, three buckets and the whole index where its last byte is missing, and of reading a word
// where it has 14 bytes.
fn faults_of_cuts(f: &mut SilentFolder<MemFolder>) -> Result<[Option<Fault>; 4], Failed> {
    make(f, 1)?;
    let mut out = [0; 3];
    f.set_len(FileId::Index, INDEX_LEN - 1)?;
    let one = bucket(f, 65535).err();
    let three = buckets(f, 65533, &mut out).err();
    let all = look(f).err();
    f.set_len(FileId::Index, 14)?;
    Ok([one, three, all, word(f, 12).err()])
}

#[test]
fn too_few_bytes_of_the_index_are_a_damage(rt: HostRuntime) {
    let mut f = SilentFolder::new(MemFolder::new(rt.alloc()));
    let faults = [
        Some(damage(INDEX_LEN - 4, 3)),
        Some(damage(INDEX_LEN - 12, 11)),
        Some(damage(INDEX_LEN, (INDEX_LEN - 1) as u32)),
        Some(damage(12, 2)),
    ];
    assert_same(&rt, faults_of_cuts(&mut f), Ok(faults));
}

// The calls that read the last 1024 buckets, and the first and the last two of them.
fn last_piece(f: &mut MemFolder) -> Result<(u64, [u32; 3]), Fault> {
    let mut out = [7; 1024];
    let before = f.calls();
    buckets(f, 64512, &mut out)?;
    let calls = f.calls().wrapping_sub(before);
    Ok((calls, [out[0], out[1022], out[1023]]))
}

#[test]
fn the_last_piece_of_the_table_is_read_by_one_call(rt: HostRuntime) -> Result<(), Fail> {
    let mut f = MemFolder::new(rt.alloc());
    f.set_len(FileId::Index, INDEX_LEN)?;
    assert_same(&rt, write_three(&mut f), Ok(true));
    assert_same(&rt, last_piece(&mut f), Ok((1, [0, 0, 0xA101_0002])));
    Ok(())
}

// A folder whose index has its length, and of which each call gives a hundred bytes.
#[derive(Drop)]
struct ShortReads;

impl Folder for ShortReads {
    ghost use Rattle.blk_io.specs.Untold.{untold, untold_agrees, untold_bytes};

    ghost told = { λ _. untold };

    ghost faults = { λ _. 0 };

    ghost agrees = { λ folder. untold_agrees };

    ghost are_bytes = { λ folder. untold_bytes };

    fn length(&mut self, _file: FileId) -> Result<Option<u64>, Failed> {
        Ok(Some(INDEX_LEN))
    }

    fn read_at(&mut self, _file: FileId, _at: u64, out: &mut [u8]) -> Result<usize, Failed> {
        out.fill(7);
        Ok(out.len().min(100))
    }

    fn write_at(&mut self, _file: FileId, _at: u64, _bytes: &[u8]) -> Result<(), Failed> {
        Ok(())
    }

    fn set_len(&mut self, _file: FileId, _length: u64) -> Result<(), Failed> {
        Ok(())
    }

    fn delete(&mut self, _file: FileId) -> Result<(), Failed> {
        Ok(())
    }

    fn list(&mut self, _after: Option<FileId>) -> Result<Option<FileId>, Failed> {
        Ok(None)
    }

    fn note(&mut self, _answered: u64) -> Result<(), Failed> {
        Ok(())
    }
}

// A folder in memory gives as many bytes as its length says.
#[test]
fn a_short_header_of_a_whole_index_is_a_damage(rt: HostRuntime) {
    let mut f = ShortReads;
    assert_same(&rt, look(&mut f), Err(damage(0, 100)));
}
