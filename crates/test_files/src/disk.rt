// Block files in a folder in memory.
ghost use Rattle.std.specs.Prelude.{◌≡◌, IfOk};
ghost use Rattle.std.specs.Option.{ForSome};
ghost use Rattle.blk_disk.specs.Tables.{Agrees};

use crate::same::{assert_same, assert_same_at};
use blk_addr::{Addr, Kind};
use blk_disk::{BlockFiles, file_of, room_of};
use blk_io::{Damage, Failed, Fault, FileId, Folder, MemFolder, NoMemory, SilentFolder, read_word};
use std::alloc::Global;
use std::test::Fail;

const MAGIC: u32 = 0xC104_CAC3;

const HEADER_LEN: usize = 8192;

// A block file: its number, the next one, the bytes of a block and the number of blocks.
type Header = (u8, u16, u32, u32);

// The first four files, where file 2 leads to file 6 and that to file 4.
const FILES: [Header; 6] = [
    (0, 0, 36, 1024),
    (1, 0, 256, 0),
    (2, 6, 1024, 64896),
    (3, 0, 4096, 0),
    (6, 4, 1024, 1024),
    (4, 0, 1024, 0),
];

// The words of a header, each with its place.
fn words_of(header: Header) -> [(u64, u32); 5] {
    let (number, next, entry_size, blocks) = header;
    let numbers = u32::from(number) + 0x1_0000 * u32::from(next);
    [
        (0, MAGIC),
        (4, 0x20000),
        (8, numbers),
        (12, entry_size),
        (20, blocks),
    ]
}

// Makes a block file with a header, of so many bytes and at least 24.
fn put_file<F: Folder>(f: &mut SilentFolder<F>, header: Header, size: u64) -> Result<(), Failed> {
    let file = FileId::Block(header.0);
    f.set_len(file, size)?;
    for (at, word) in words_of(header) {
        f.write_at(file, at, &word.to_le_bytes())?;
    }
    Ok(())
}

// A folder of these files, each of so many bytes, of which one has another word. No call on it is counted yet.
fn with_word(
    alloc: Global,
    headers: &[Header],
    size: usize,
    other: (u8, u64, u32),
) -> Result<MemFolder, Fail> {
    let mut f = SilentFolder::new(MemFolder::new(alloc));
    put_files(&mut f, headers, size as u64, other)?;
    Ok(as_it_is(&f.into_inner())?)
}

// Makes these files, and writes the other word.
fn put_files<F: Folder>(
    f: &mut SilentFolder<F>,
    headers: &[Header],
    size: u64,
    other: (u8, u64, u32),
) -> Result<(), Failed> {
    for header in headers {
        put_file(f, *header, size)?;
    }
    let (number, at, word) = other;
    f.write_at(FileId::Block(number), at, &word.to_le_bytes())
}

// A new folder with the files of one.
fn as_it_is(f: &MemFolder) -> Result<MemFolder, NoMemory> {
    match f.steps() {
        Some(steps) => f.image(steps),
        None => Err(NoMemory),
    }
}

// A folder of these files, each of so many bytes.
pub(crate) fn folder_of(alloc: Global, headers: &[Header], size: usize) -> Result<MemFolder, Fail> {
    with_word(alloc, headers, size, (0, 0, MAGIC))
}

// The place and the word of the failed check of a file, with which its folder is refused.
fn damage_of(f: &mut MemFolder, file: u8) -> Option<(u64, u32)> {
    match BlockFiles::load(f) {
        Err(Fault::Damaged(damage)) if damage.file == FileId::Block(file) => Some((
            damage.at,
            damage.found,
        )),
        _ => None,
    }
}

#[test]
fn files_are_found_in_the_order_of_the_links(rt: HostRuntime) -> Result<(), Fail> {
    let mut f = folder_of(rt.alloc(), &FILES, HEADER_LEN)?;
    let Ok(files) = BlockFiles::load(&mut f) else {
        panic!(rt; "the files are whole");
    };
    assert_same(&rt, files.files(Kind::B1K), [2, 6, 4].as_slice());
    assert_same(&rt, files.max_entries(2), Some(64896));
    assert_same(&rt, files.max_entries(5), None);
    Ok(())
}

#[test]
fn each_check_of_a_header_names_its_word(rt: HostRuntime) -> Result<(), Fail> {
    let cases = [
        (0, 0xC103_CAC3),
        (4, 0x20001),
        (4, 0x30000),
        (8, 0x0004_0005),
        (8, 0x0001_0006),
        (8, 0x0003_0006),
        (8, 0x0006_0006),
        (8, 0x0100_0006),
        (12, 256),
        (20, 1408),
        (20, 65536),
    ];
    for (at, word) in cases {
        let mut f = with_word(rt.alloc(), &FILES, HEADER_LEN, (6, at, word))?;
        let damage = Some((at, word));
        assert_same_at(
            &rt,
            damage_of(&mut f, 6),
            damage,
            format_args!("{at} {word}"),
        );
    }
    Ok(())
}

// Three files of the first four.
const WITHOUT_2: [Header; 3] = [(0, 0, 36, 1024), (1, 0, 256, 0), (3, 0, 4096, 0)];

// The files, of which file 3 leads to file 6.
const TWICE: [Header; 6] = [
    (0, 0, 36, 1024),
    (1, 0, 256, 0),
    (2, 6, 1024, 64896),
    (3, 6, 4096, 0),
    (6, 4, 1024, 1024),
    (4, 0, 1024, 0),
];

#[test]
fn each_file_is_whole_and_taken_up_once(rt: HostRuntime) -> Result<(), Fail> {
    // A file that ends inside its header, one that is missing, and one that was loaded before.
    for (headers, size, file, damage) in [
        (FILES.as_slice(), HEADER_LEN - 1, 0, (8192, 8191)),
        (&WITHOUT_2, HEADER_LEN, 2, (8192, 0)),
        (&TWICE, HEADER_LEN, 3, (8, 0x0006_0003)),
    ] {
        let mut f = folder_of(rt.alloc(), headers, size)?;
        assert_same_at(&rt, damage_of(&mut f, file), Some(damage), file);
    }
    Ok(())
}

// The headers of data_0 and of the 59 files that it leads to, of which the last leads to this one.
fn sixty_files(alloc: Global, next: u16) -> Result<Vec<Header>, Fail> {
    let mut headers = Vec::new(alloc);
    headers.push((0u8, 4u16, 36u32, 0u32))?;
    for n in 4..62u8 {
        headers.push((n, u16::from(n) + 1, 36, 0))?;
    }
    headers.push((62, next, 36, 0))?;
    Ok(headers)
}

#[test]
fn the_sixtieth_file_of_a_kind_has_no_next_one(rt: HostRuntime) -> Result<(), Fail> {
    // Without that link all sixty are loaded, and the next file is missing.
    for (next, file, damage) in [(63, 62, (8, 0x003F_003E)), (0, 1, (8192, 0))] {
        let headers = sixty_files(rt.alloc(), next)?;
        let mut f = folder_of(rt.alloc(), &headers, HEADER_LEN)?;
        assert_same_at(&rt, damage_of(&mut f, file), Some(damage), next);
    }
    Ok(())
}

// Loads the block files, writes bytes to the blocks of an address, and reads bytes of them.
fn write_and_read<F: Folder>(
    f: &mut F,
    word: u32,
    at: u32,
    bytes: &[u8],
    out: &mut [u8],
) -> Result<bool, Fault> {
    let files = BlockFiles::load(f)?;
    let Some(addr) = Addr::from_word(word) else {
        return Ok(false);
    };
    if !files.stands(addr) || at > 4096 || bytes.len() > 4096 || out.len() > 4096 {
        return Ok(false);
    }
    let room = room_of(addr);
    if u64::from(at) + bytes.len() as u64 > room || out.len() as u64 > room {
        return Ok(false);
    }
    files.write_block(f, addr, at, bytes)?;
    files.read_block(f, addr, 0, out)?;
    Ok(file_of(addr) == FileId::Block(1))
}

#[test]
fn bytes_are_written_over_the_end_of_a_block(rt: HostRuntime) -> Result<(), Fail> {
    let headers = [FILES[0], (1, 0, 256, 1024), (2, 0, 1024, 0), FILES[3]];
    let mut f = folder_of(rt.alloc(), &headers, HEADER_LEN + 1024)?;
    let mut out = [7; 512];

    // Blocks 1 and 2; and block 4, where block 3 is the last that ends inside the file.
    for (word, at, bytes, done) in [
        (0xA101_0001, 254, b"abcd".as_slice(), true),
        (0xA001_0004, 0, b"z".as_slice(), false),
    ] {
        let answer = write_and_read(&mut f, word, at, bytes, &mut out);
        assert_same(&rt, answer, Ok(done));
    }
    assert_same(&rt, middle_of(&out), *b"\0\0abcd\0\0");
    Ok(())
}

// The bytes around the end of the first of two blocks.
fn middle_of(out: &[u8; 512]) -> [u8; 8] {
    [
        out[252], out[253], out[254], out[255], out[256], out[257], out[258], out[259],
    ]
}

// Loads the block files and fits one of them, where it is linked.
fn fit_file<F: Folder>(f: &mut F, file: u8) -> Result<bool, Fault> {
    let mut files = BlockFiles::load(f)?;
    if files.max_entries(file).is_none() {
        return Ok(false);
    }
    files.fit(f, file)?;
    Ok(true)
}

#[test]
fn a_short_file_is_fitted_to_its_blocks(rt: HostRuntime) -> Result<(), Fail> {
    let headers = [FILES[0], (1, 0, 256, 1024), (2, 0, 1024, 0), FILES[3]];
    let mut f = folder_of(rt.alloc(), &headers, HEADER_LEN)?;
    assert_same(&rt, fit_file(&mut f, 1), Ok(true));
    assert_same(&rt, f.length(FileId::Block(1)), Ok(Some(270_336)));
    Ok(())
}

// The first four files, with no blocks.
const EMPTY: [Header; 4] = [
    (0, 0, 36, 0),
    (1, 0, 256, 0),
    (2, 0, 1024, 0),
    (3, 0, 4096, 0),
];

// Loads the block files and grows one of them, where it is linked and may grow.
fn grow_file<F: Folder>(f: &mut F, file: u8) -> Result<bool, Fault> {
    let mut files = BlockFiles::load(f)?;
    let Some(blocks) = files.max_entries(file) else {
        return Ok(false);
    };
    if blocks >= 64896 {
        return Ok(false);
    }
    files.grow(f, file)?;
    Ok(files.max_entries(file).is_some())
}

// A word of a block file, where the file has it.
pub(crate) fn word_of(f: &mut MemFolder, file: u8, at: u64) -> Option<u32> {
    read_word(f, FileId::Block(file), at).ok()
}

// Grows data_1, and gives its counter of empty groups and its blocks then.
fn grown(f: &mut MemFolder) -> Result<[Option<u32>; 2], Fault> {
    if !grow_file(f, 1)? {
        return Err(Fault::Device);
    }
    Ok([word_of(f, 1, 36), word_of(f, 1, 20)])
}

#[test]
fn a_file_grows_by_1024_and_at_last_by_384_blocks(rt: HostRuntime) -> Result<(), Fail> {
    // The counter is raised modulo 2^32, by 256 groups and then by 96.
    let headers = [EMPTY[0], (1, 0, 256, 63488), EMPTY[2], EMPTY[3]];
    let mut f = with_word(rt.alloc(), &headers, HEADER_LEN, (1, 36, 0xFFFF_FFFF))?;
    for (groups, blocks) in [(255, 64512), (351, 64896)] {
        assert_same(&rt, grown(&mut f), Ok([Some(groups), Some(blocks)]));
    }
    assert_same(&rt, f.length(FileId::Block(1)), Ok(Some(16_621_568)));
    Ok(())
}

// Loads the block files and adds one of a kind, where it may have one more.
fn add_to<F: Folder>(f: &mut F, kind: Kind) -> Result<Option<u8>, Fault> {
    let mut files = BlockFiles::load(f)?;
    if kind == Kind::External || files.count(kind) >= 60 {
        return Ok(None);
    }
    let n = files.add_file(f, kind)?;
    Ok(Some(n))
}

// The words of data_4 that a new file has, and where data_1 leads.
fn words_of_new(f: &mut MemFolder) -> [Option<u32>; 6] {
    [
        word_of(f, 4, 0),
        word_of(f, 4, 4),
        word_of(f, 4, 8),
        word_of(f, 4, 12),
        word_of(f, 4, 20),
        word_of(f, 1, 8),
    ]
}

#[test]
fn the_first_new_file_is_data_4(rt: HostRuntime) -> Result<(), Fail> {
    // There is a file of that number that isn't linked.
    let headers = [EMPTY[0], EMPTY[1], EMPTY[2], EMPTY[3], (4, 9, 4096, 77)];
    let mut f = folder_of(rt.alloc(), &headers, 9000)?;
    assert_same(&rt, add_to(&mut f, Kind::B256), Ok(Some(4)));
    let words = [MAGIC, 0x20000, 4, 256, 0, 0x0004_0001];
    assert_same(&rt, words_of_new(&mut f), words.map(|word| Some(word)));
    assert_same(&rt, f.length(FileId::Block(4)), Ok(Some(8192)));
    Ok(())
}

// Reads the first node in an opaque folder, once its file has this length.
fn read_cut(f: &mut SilentFolder<MemFolder>, length: u64) -> Result<bool, Fault> {
    let files = BlockFiles::load(f)?;
    let Some(addr) = files.node(0x9000_0000) else {
        return Ok(false);
    };
    f.set_len(FileId::Block(0), length)?;
    let mut out = [0; 36];
    files.read_block(f, addr, 0, &mut out)?;
    Ok(true)
}

#[test]
fn too_few_bytes_are_a_damage(rt: HostRuntime) -> Result<(), Fail> {
    let alloc = rt.alloc();
    let file = FileId::Block(0);
    let mut f = SilentFolder::new(folder_of(alloc, &FILES, HEADER_LEN + 36)?);
    let at = HEADER_LEN as u64;
    let found = 35;
    assert_same(
        &rt,
        read_cut(&mut f, at + 35),
        Err(Fault::Damaged(Damage { file, at, found })),
    );

    // Of a file that ends inside the fields of its header the length is the failed check.
    assert_same(&rt, f.set_len(file, 79), Ok(()));
    assert_same(
        &rt,
        BlockFiles::load(&mut f).err(),
        Some(Fault::Damaged(Damage {
            file,
            at,
            found: 79,
        })),
    );
    Ok(())
}
