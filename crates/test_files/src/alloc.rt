// Blocks are allocated and freed, and maps are rebuilt, in a folder in memory.
ghost use Rattle.std.specs.Prelude.{◌≤◌, ◌<◌};

use crate::same::{assert_same, assert_same_at};
use blk_addr::{Addr, Claims, Kind};
use blk_alloc::{allocate, free, rebuild};
use blk_disk::BlockFiles;
use blk_io::{Damage, Failed, Fault, FileId, Folder, MemFolder, SilentFolder, read_word};
use std::alloc::Global;
use std::test::Fail;

const MAGIC: u32 = 0xC104_CAC3;

const HEADER_LEN: usize = 8192;

const MAP: usize = 80;

// Writes a word over bytes, where they have it.
fn put_word(bytes: &mut [u8], at: usize, word: u32) {
    for (slot, byte) in bytes.iter_mut().skip(at).zip(word.to_le_bytes()) {
        *slot = byte;
    }
}

// A block file in which so many bytes of the map are 0xFF, with these words, each at its place.
fn file_with(
    alloc: Global,
    size: usize,
    marked: usize,
    words: &[(usize, u32)],
) -> Result<Vec<u8>, Fail> {
    let mut bytes = Vec::new(alloc);
    bytes.resize(size, 0)?;
    for byte in bytes.iter_mut().skip(MAP).take(marked) {
        *byte = 0xFF;
    }
    for (at, word) in words {
        put_word(&mut bytes, *at, *word);
    }
    Ok(bytes)
}

// The words of a header that aren't 0 in a file without blocks.
fn fields(number: u32, entry_size: u32) -> [(usize, u32); 4] {
    [(0, MAGIC), (4, 0x20000), (8, number), (12, entry_size)]
}

// A folder just made, but for its `data_1`, which has these bytes.
fn folder_of(alloc: Global, second: &[u8]) -> Result<MemFolder, Failed> {
    let mut f = SilentFolder::new(MemFolder::without_trail(alloc));
    put_file(&mut f, 1, second)?;
    for (number, size) in [(0u8, 36), (2, 1024), (3, 4096)] {
        let mut header = [0; HEADER_LEN];
        for (at, word) in fields(u32::from(number), size) {
            put_word(&mut header, at, word);
        }
        put_file(&mut f, number, &header)?;
    }
    Ok(f.into_inner())
}

// Makes a block file of these bytes.
fn put_file<F: Folder>(f: &mut SilentFolder<F>, number: u8, bytes: &[u8]) -> Result<(), Failed> {
    f.set_len(FileId::Block(number), bytes.len() as u64)?;
    f.write_at(FileId::Block(number), 0, bytes)
}

// The words of the header of a `data_1` with so many blocks and allocations, and these counters of groups.
fn header(blocks: u32, entries: u32, empty: [u32; 4]) -> [(usize, u32); 10] {
    [
        (0, MAGIC),
        (4, 0x20000),
        (8, 1),
        (12, 256),
        (16, entries),
        (20, blocks),
        (24, empty[0]),
        (28, empty[1]),
        (32, empty[2]),
        (36, empty[3]),
    ]
}

// A folder whose `data_1` has 1024 blocks and this first byte of the map, and says that it has so many
// allocations, and 254 free groups.
fn folder_with(alloc: Global, entries: u32, map: u32) -> Result<MemFolder, Fail> {
    let mut second = file_with(
        alloc,
        HEADER_LEN + 1024 * 256,
        0,
        &header(1024, entries, [0, 0, 0, 254]),
    )?;
    put_word(&mut second, MAP, map);
    Ok(folder_of(alloc, &second)?)
}

// Whether a block file has these words, each at its place.
fn has_words<F: Folder>(f: &mut F, file: u8, words: &[(u64, u32)]) -> Result<bool, Fault> {
    for (at, word) in words {
        if read_word(f, FileId::Block(file), *at)? != *word {
            return Ok(false);
        }
    }
    Ok(true)
}

// Loads the block files, and gives the word of so many blocks of 256 bytes that are allocated.
fn give<F: Folder>(f: &mut F, blocks: u32) -> Result<u32, Fault>
    requires some { 0 < blocks }
    requires few { blocks ≤ 4 }
{
    let mut files = BlockFiles::load(f)?;
    let addr = allocate(f, &mut files, Kind::B256, blocks)?;
    Ok(addr.word())
}

// Loads the block files, and frees the blocks of a word, where it is a valid address.
fn free_word<F: Folder>(f: &mut F, word: u32) -> Result<bool, Fault> {
    let files = BlockFiles::load(f)?;
    let Some(addr) = Addr::from_word(word) else {
        return Ok(false);
    };
    if !files.stands(addr) {
        return Ok(false);
    }
    free(f, &files, addr)?;
    Ok(true)
}

// Loads the block files, and makes their maps those of the used blocks.
fn rebuild_all<F: Folder>(f: &mut F, claims: &Claims) -> Result<(), Fault> {
    let mut files = BlockFiles::load(f)?;
    rebuild(f, &mut files, claims)
}

// The words of four blocks, of one and of three that are given, and the folder calls for the one.
fn give_three(f: &mut MemFolder) -> Result<([u32; 3], u64), Fault> {
    let four = give(f, 4)?;
    let before = f.calls();
    let one = give(f, 1)?;
    let calls = f.calls().wrapping_sub(before);
    Ok(([four, one, give(f, 3)?], calls))
}

// Whether `data_1` has this length, and these words.
fn has_blocks(f: &mut MemFolder, length: u64, words: &[(u64, u32)]) -> Result<bool, Fault> {
    let same = has_words(f, 1, words)?;
    Ok(f.length(FileId::Block(1))? == Some(length) && same)
}

#[test]
fn blocks_lie_inside_a_group_and_are_freed(rt: HostRuntime) -> Result<(), Fail> {
    let second = file_with(rt.alloc(), HEADER_LEN, 0, &fields(1, 256))?;
    let mut f = folder_of(rt.alloc(), &second)?;

    // Eight calls load the files; the fields, a hint and a word of the map are read, the hint is written, and the fields are
    // read again and five writes made for the marks.
    let words = [0xA301_0000, 0xA001_0004, 0xA201_0005];
    assert_same(&rt, give_three(&mut f), Ok((words, 8 + 10)));
    let given = [(16, 3), (20, 1024), (24, 0), (36, 254), (56, 0), (80, 0xFF)];
    assert_same(&rt, has_blocks(&mut f, 270_336, &given), Ok(true));
    assert_same(&rt, free_word(&mut f, 0xA001_0004), Ok(true));
    let freed = [(16, 2), (24, 1), (36, 254), (56, 0), (80, 0xEF)];
    assert_same(&rt, has_words(&mut f, 1, &freed), Ok(true));
    Ok(())
}

#[test]
fn a_file_grows_where_none_has_room(rt: HostRuntime) -> Result<(), Fail> {
    let full = file_with(rt.alloc(), HEADER_LEN, 128, &header(1024, 256, [0; 4]))?;
    let mut f = folder_of(rt.alloc(), &full)?;
    assert_same(&rt, give(&mut f, 2), Ok(0xA101_0400));
    let grown = [(16, 257), (20, 2048), (28, 1), (36, 255)];
    assert_same(&rt, has_words(&mut f, 1, &grown), Ok(true));
    Ok(())
}

// The words of two blocks, of three and of one that are given, and the calls that the last two took.
fn give_two_three_one(f: &mut MemFolder) -> Result<([u32; 3], u64), Fault> {
    let two = give(f, 2)?;
    let before = f.calls();
    let three = give(f, 3)?;
    let one = give(f, 1)?;
    Ok(([two, three, one], f.calls().wrapping_sub(before)))
}

#[test]
fn counters_and_hints_lead_to_the_blocks(rt: HostRuntime) -> Result<(), Fail> {
    let second = file_with(rt.alloc(), HEADER_LEN, 0, &fields(1, 256))?;
    let mut f = folder_of(rt.alloc(), &second)?;

    // The one lies in the group that has a longest free run of 1, and not in the first with space. Eight calls load the files, and
    // of ten more one reads a word of the map.
    let words = [0xA101_0000, 0xA201_0004, 0xA001_0007];
    assert_same(&rt, give_two_three_one(&mut f), Ok((words, 2 * (8 + 10))));
    let hints = [(40, 1), (44, 0), (48, 0), (52, 1)];
    assert_same(&rt, has_words(&mut f, 1, &hints), Ok(true));
    assert_same(&rt, free_word(&mut f, 0xA201_0004), Ok(true));
    assert_same(&rt, has_words(&mut f, 1, &hints), Ok(true));
    Ok(())
}

#[test]
fn a_hint_may_have_any_value(rt: HostRuntime) -> Result<(), Fail> {
    // Of the 256 groups the first, the last, the first again, and the last again.
    for (hint, word, group) in [
        (0, 0xA301_0000, 0),
        (255, 0xA301_03FC, 255),
        (256, 0xA301_0000, 0),
        (0xFFFF_FFFF, 0xA301_03FC, 255),
    ] {
        let words = header(1024, 0, [0, 0, 0, 256]);
        let mut second = file_with(rt.alloc(), HEADER_LEN, 0, &words)?;
        put_word(&mut second, 52, hint);
        let mut f = folder_of(rt.alloc(), &second)?;

        // Eight calls load the files; fields, the hint and one word of the map are read, the hint is written, the file gets its
        // length, and six calls make the marks. The next call is the first after the allocation.
        let next = f.calls().wrapping_add(8 + 12);
        f.fail_at(next, 0)?;
        assert_same_at(&rt, give(&mut f, 4), Ok(word), hint);
        assert_same(
            &rt,
            has_words(&mut f, 1, &[(52, group)]),
            Err(Fault::Device),
        );
        assert_same(&rt, has_words(&mut f, 1, &[(52, group)]), Ok(true));
    }
    Ok(())
}

#[test]
fn a_search_goes_round_once(rt: HostRuntime) -> Result<(), Fail> {
    // Only the third group is free, and the hint is the fourth; then it is said that a group is free that isn't there.
    for (map, answer) in [
        (0xFFFF_F0FF, Ok(0xA301_0008)),
        (
            0xFFFF_FFFF,
            Err(Fault::Damaged(Damage {
                file: FileId::Block(1),
                at: 36,
                found: 1,
            })),
        ),
    ] {
        let words = header(1024, 255, [0, 0, 0, 1]);
        let mut second = file_with(rt.alloc(), HEADER_LEN, 128, &words)?;
        put_word(&mut second, MAP, map);
        put_word(&mut second, 52, 3);
        let mut f = folder_of(rt.alloc(), &second)?;
        assert_same(&rt, give(&mut f, 4), answer);
    }
    Ok(())
}

// The word of a block that is given, and the folder calls.
fn counted_give(f: &mut MemFolder) -> Result<(u32, u64), Fault> {
    let before = f.calls();
    let word = give(f, 1)?;
    Ok((word, f.calls().wrapping_sub(before)))
}

#[test]
fn a_file_is_added_where_none_may_grow(rt: HostRuntime) -> Result<(), Fail> {
    let words = header(64_896, 16_224, [0; 4]);
    let most = file_with(rt.alloc(), HEADER_LEN, 8112, &words)?;
    let mut f = folder_of(rt.alloc(), &most)?;

    // Eight calls load the files; the fields of the full one are read and no word of its map, four calls add a file and four
    // let it grow, a hint and a word of its map are read, the hint is written, and six calls make the marks.
    assert_same(&rt, counted_give(&mut f), Ok((0xA004_0000, 8 + 18)));
    assert_same(&rt, has_words(&mut f, 1, &[(8, 0x4_0001)]), Ok(true));
    let added = [(16, 1), (20, 1024), (32, 1), (36, 255), (80, 1)];
    assert_same(&rt, has_words(&mut f, 4, &added), Ok(true));
    Ok(())
}

#[test]
fn a_counter_at_its_end_is_a_damage(rt: HostRuntime) -> Result<(), Fail> {
    // No allocation is counted; then no group with a longest free run of 3, as the freed block's group has it.
    for (entries, map, word, at) in [(0, 0xFF, 0xA301_0000, 16), (2, 0xF1, 0xA001_0000, 32)] {
        let mut f = folder_with(rt.alloc(), entries, map)?;
        let damage = Damage {
            file: FileId::Block(1),
            at,
            found: 0,
        };
        assert_same(&rt, free_word(&mut f, word), Err(Fault::Damaged(damage)));
        let words = [(16, entries), (80, map)];
        assert_same(&rt, has_words(&mut f, 1, &words), Ok(true));
    }
    Ok(())
}

// Whether each of some words is an address that joins the used blocks.
fn add_words(claims: &mut Claims, words: &[u32]) -> bool {
    for word in words {
        let Some(addr) = Addr::from_word(*word) else {
            return false;
        };
        let Ok(true) = claims.add(addr) else {
            return false;
        };
    }
    true
}

// A `data_1` whose header is wrong but for its hints and its number of blocks, and whose last block is cut.
fn wrong_file(alloc: Global) -> Result<Vec<u8>, Fail> {
    let words = header(1024, 77, [9, 0, 0, 9]);
    let mut bytes = file_with(alloc, HEADER_LEN + 1000 * 256, 8112, &words)?;
    put_word(&mut bytes, 40, 5);
    put_word(&mut bytes, 52, 7);
    Ok(bytes)
}

// Its header with three allocations: a whole group, a block that leaves runs of 1 and 2, and two blocks that leave a run of 2.
fn rebuilt_header(alloc: Global) -> Result<Vec<u8>, Fail> {
    let words = header(1024, 3, [0, 2, 0, 253]);
    let mut bytes = file_with(alloc, HEADER_LEN, 0, &words)?;
    for (at, word) in [(40, 5), (52, 7), (80, 0x2F), (112, 0x0C)] {
        put_word(&mut bytes, at, word);
    }
    Ok(bytes)
}

// Whether `data_1` has a length and begins with these bytes.
fn begins_with(f: &mut MemFolder, length: u64, bytes: &[u8]) -> Result<bool, Failed> {
    let mut front = [0; HEADER_LEN];
    f.read_at(FileId::Block(1), 0, &mut front)?;
    Ok(f.length(FileId::Block(1))? == Some(length) && front.as_slice() == bytes)
}

// Adds the addresses of words to the used blocks, and makes the maps those of the used blocks: the number of folder
// calls.
fn rebuild_with(f: &mut MemFolder, claims: &mut Claims, words: &[u32]) -> Result<u64, Fault> {
    if !add_words(claims, words) {
        return Err(Fault::Device);
    }
    let before = f.calls();
    rebuild_all(f, claims)?;
    Ok(f.calls().wrapping_sub(before))
}

#[test]
fn a_wrong_map_is_made_that_of_the_claims(rt: HostRuntime) -> Result<(), Fail> {
    let mut f = folder_of(rt.alloc(), &wrong_file(rt.alloc())?)?;
    let mut claims = Claims::new(rt.alloc());
    let words = [0xA301_0000, 0xA001_0005, 0xA101_0102, 0x8000_0001];

    // Two reads of each file; of one its length, each word of its map, four counters, and updating twice.
    let first = rebuild_with(&mut f, &mut claims, &words);
    assert_same(&rt, first, Ok(8 + 8 + 1 + 2028 + 4 + 2));
    let expected = rebuilt_header(rt.alloc())?;
    assert_same(&rt, begins_with(&mut f, 270_336, &expected), Ok(true));

    // Nothing is written where all are right: two reads of each file. With a block more a word of the map differs, and three
    // counters; updating is written twice.
    for (words, calls) in [([].as_slice(), 8 + 8), (&[0xA001_0200], 8 + 8 + 4 + 2)] {
        assert_same(&rt, rebuild_with(&mut f, &mut claims, words), Ok(calls));
    }
    Ok(())
}

// Loads the block files of an opaque folder, cuts `data_1`, and allocates a block.
fn give_cut(f: &mut SilentFolder<MemFolder>, length: u64) -> Result<u32, Fault> {
    let mut files = BlockFiles::load(f)?;
    f.set_len(FileId::Block(1), length)?;
    let addr = allocate(f, &mut files, Kind::B256, 1)?;
    Ok(addr.word())
}

// The same, and frees a word.
fn free_cut(f: &mut SilentFolder<MemFolder>, length: u64, word: u32) -> Result<bool, Fault> {
    let files = BlockFiles::load(f)?;
    f.set_len(FileId::Block(1), length)?;
    let Some(addr) = Addr::from_word(word) else {
        return Ok(false);
    };
    if !files.stands(addr) {
        return Ok(false);
    }
    free(f, &files, addr)?;
    Ok(true)
}

#[test]
fn a_map_that_is_too_short_is_a_damage_and_no_lack_of_room(rt: HostRuntime) -> Result<(), Fail> {
    let free = file_with(rt.alloc(), HEADER_LEN, 0, &header(1024, 0, [0, 0, 0, 256]))?;

    // The first word of the map is cut, and then the fields.
    for (length, at, found) in [(82, 80, 2), (50, 0, 50)] {
        let mut f = SilentFolder::new(folder_of(rt.alloc(), &free)?);
        let damage = Damage {
            file: FileId::Block(1),
            at,
            found,
        };
        assert_same_at(
            &rt,
            give_cut(&mut f, length),
            Err(Fault::Damaged(damage)),
            length,
        );
        assert_same(&rt, f.length(FileId::Block(1)), Ok(Some(length)));
    }
    Ok(())
}

#[test]
fn a_header_that_is_too_short_is_a_damage(rt: HostRuntime) -> Result<(), Fail> {
    // The word of the map that has blocks 4 to 7 is cut, which is read first, and then the fields too.
    for (length, at, found) in [(82, 80, 2), (50, 80, 0)] {
        let mut f = SilentFolder::new(folder_with(rt.alloc(), 3, 0xFF)?);
        let damage = Damage {
            file: FileId::Block(1),
            at,
            found,
        };
        assert_same_at(
            &rt,
            free_cut(&mut f, length, 0xA001_0004),
            Err(Fault::Damaged(damage)),
            length,
        );
    }
    Ok(())
}
