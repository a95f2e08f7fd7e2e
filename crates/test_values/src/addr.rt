// Words, sizes and used blocks from the description of the forms.
use crate::same::{assert_same, assert_same_at};
use blk_addr::laws::from_word_of_word;
use blk_addr::{Addr, Claims, FileId, Kind, blocks_for, entry_blocks, kind_for};

#[test]
fn words_are_addresses(rt: HostRuntime) {
    let words = [
        (0x9000_0000, Kind::Rankings, FileId::Block(0), 0, 1),
        (0xA101_0004, Kind::B256, FileId::Block(1), 4, 2),
        (0xB002_0000, Kind::B1K, FileId::Block(2), 0, 1),
        (0xC203_0000, Kind::B4K, FileId::Block(3), 0, 3),
        (0x8000_0001, Kind::External, FileId::External(1), 0, 0),
    ];
    for (word, kind, file, start, blocks) in words {
        let parts = (kind, file, start, blocks);
        assert_same_at(&rt, parts_of(word), Some(parts), word);
        assert_same_at(&rt, word_again(word), Some(word), word);
    }
}

// What the address of a word names.
fn parts_of(word: u32) -> Option<(Kind, FileId, u32, u32)> {
    let addr = Addr::from_word(word)?;
    Some((addr.kind(), addr.file(), addr.start(), addr.blocks()))
}

// The word of the address of a word, which is the same after another reading.
fn word_again(word: u32) -> Option<u32> {
    let addr = Addr::from_word(word)?;
    let again = from_word_of_word(addr)?;
    (again == addr).then(|| addr.word())
}

#[test]
fn words_are_no_addresses(rt: HostRuntime) {
    for word in [
        0xA401_0000,
        0xD000_0000,
        0x2001_0000,
        0x9100_0000,
        0xA101_0003,
        0x8000_0000,
        0,
    ] {
        assert_same_at(&rt, Addr::from_word(word), None, word);
    }
}

#[test]
fn addresses_are_put_together(rt: HostRuntime) {
    for (addr, word) in [
        (Addr::of_blocks(Kind::Rankings, 0, 0, 1), 0x9000_0000),
        (Addr::of_blocks(Kind::B256, 1, 4, 2), 0xA101_0004),
        (Addr::of_blocks(Kind::B1K, 2, 65535, 1), 0xB002_FFFF),
        (Addr::of_blocks(Kind::B4K, 255, 65532, 4), 0xC3FF_FFFC),
        (Addr::of_external(1), 0x8000_0001),
        (Addr::of_external(0x0FFF_FFFF), 0x8FFF_FFFF),
    ] {
        assert_same(&rt, addr.word(), word);
        assert_same(&rt, Addr::from_word(word), Some(addr));
    }
}

#[test]
fn kinds_have_numbers_and_sizes(rt: HostRuntime) {
    for (kind, number, size) in [
        (Kind::External, 0, None),
        (Kind::Rankings, 1, Some(36)),
        (Kind::B256, 2, Some(256)),
        (Kind::B1K, 3, Some(1024)),
        (Kind::B4K, 4, Some(4096)),
    ] {
        assert_same(&rt, kind.number(), number);
        assert_same(&rt, kind.block_size(), size);
    }
}

#[test]
fn keys_take_blocks(rt: HostRuntime) {
    for (key_len, blocks) in [
        (1, 1),
        (159, 1),
        (160, 2),
        (415, 2),
        (416, 3),
        (671, 3),
        (672, 4),
        (927, 4),
        (928, 1),
        (32768, 1),
    ] {
        assert_same_at(
            &rt,
            entry_blocks(key_len),
            blocks,
            format_args!("a key of {key_len} bytes"),
        );
    }
}

#[test]
fn sizes_take_blocks(rt: HostRuntime) {
    let sizes = [
        (0, None),
        (1023, Some((Kind::B256, 4))),
        (1024, Some((Kind::B1K, 1))),
        (4095, Some((Kind::B1K, 4))),
        (4096, Some((Kind::B4K, 1))),
        (16384, Some((Kind::B4K, 4))),
        (16385, Some((Kind::External, 0))),
    ];
    for (size, storage) in sizes {
        assert_same_at(&rt, storage_of(size), storage, format_args!("{size} bytes"));
    }
}

// The kind and the blocks of data, and none of no data.
fn storage_of(size: u32) -> Option<(Kind, u32)> {
    (size > 0).then(|| (kind_for(size), blocks_for(size)))
}

// Adds the address of a word, and says whether it is new.
fn add(claims: &mut Claims, word: u32) -> Option<bool> {
    let addr = Addr::from_word(word)?;
    claims.add(addr).ok()
}

// Whether the address of a word is used in part.
fn has(claims: &Claims, word: u32) -> Option<bool> {
    Some(claims.has(Addr::from_word(word)?))
}

// Adds the address of a word, and gives the allocations of data_1 and data_2 then.
fn added(claims: &mut Claims, word: u32) -> Option<(bool, u32, u32)> {
    let is_new = add(claims, word)?;
    Some((is_new, claims.allocations(1), claims.allocations(2)))
}

#[test]
fn overlapping_claims_change_nothing(rt: HostRuntime) {
    let mut claims = Claims::new(rt.alloc());
    // blocks 4 and 5 of data_1; then 5 to 7, of which 5 is used; then 6 and 7
    for (word, answer) in [
        (0xA101_0004, (true, 1, 0)),
        (0xA201_0005, (false, 1, 0)),
        (0xA101_0006, (true, 2, 0)),
    ] {
        assert_same_at(&rt, added(&mut claims, word), Some(answer), word);
    }
}

// Whether the address of a word is used, is new, is used then, and is new once more.
fn twice(claims: &mut Claims, word: u32) -> Option<[bool; 4]> {
    let before = has(claims, word)?;
    let first = add(claims, word)?;
    let behind = has(claims, word)?;
    Some([before, first, behind, add(claims, word)?])
}

#[test]
fn claims_are_found(rt: HostRuntime) {
    let mut claims = Claims::new(rt.alloc());
    // blocks 4 to 7 of data_3, the last block of data_255, f_000001
    for word in [0xC303_0004, 0xA0FF_FFFF, 0x8000_0001] {
        let found = Some([false, true, true, false]);
        assert_same_at(&rt, twice(&mut claims, word), found, word);
    }
    for (file, block, claimed) in [
        (3, 3, false),
        (3, 4, true),
        (3, 7, true),
        (3, 8, false),
        (2, 65536 + 4, false),
        (4, 7, false),
        (255, 65535, true),
    ] {
        assert_same_at(
            &rt,
            claims.has_block(file, block),
            claimed,
            format_args!("block {block} of {file}"),
        );
    }
    // block 7 of data_3, block 7 of data_4, block 8 of data_3, block 0 of data_255, f_000002
    for (word, claimed) in [
        (0xC003_0007, true),
        (0xC004_0007, false),
        (0xC003_0008, false),
        (0xA0FF_0000, false),
        (0x8000_0002, false),
    ] {
        assert_same_at(&rt, has(&claims, word), Some(claimed), word);
    }
}

// Adds the addresses of three words, all or none, and says whether they were added.
fn add_three(claims: &mut Claims, words: [u32; 3]) -> Option<bool> {
    let addrs = [
        Addr::from_word(words[0])?,
        Addr::from_word(words[1])?,
        Addr::from_word(words[2])?,
    ];
    let are_free = claims.are_free(&addrs);
    let added = claims.add_all(&addrs).ok()?;
    (are_free == added).then_some(added)
}

#[test]
fn addresses_are_added_all_or_none(rt: HostRuntime) {
    let mut claims = Claims::new(rt.alloc());
    // Of data_1 blocks 4 and 5, of data_2 block 4, and f_000001; then the same with one thing used, with two of one
    // block and of one number, and with nothing shared.
    for (words, answer, allocations) in [
        ([0xA101_0004, 0xB002_0004, 0x8000_0001], true, 1),
        ([0xA001_0008, 0xB002_0005, 0x8000_0001], false, 1),
        ([0xA001_0008, 0xB202_0004, 0x8000_0002], false, 1),
        ([0xA301_0008, 0x8000_0002, 0xA001_000B], false, 1),
        ([0x8000_0002, 0xA001_0008, 0x8000_0002], false, 1),
        ([0xA001_0008, 0x8000_0002, 0xA001_0009], true, 3),
        ([0xA001_000A, 0x8000_0003, 0xA001_0009], false, 3),
    ] {
        let added = add_three(&mut claims, words);
        assert_same_at(&rt, added, Some(answer), words[0]);
        assert_same(&rt, claims.allocations(1), allocations);
    }
    for (word, claimed) in [
        (0xA101_0008, true),
        (0xA101_000A, false),
        (0xB002_0005, false),
        (0x8000_0002, true),
        (0x8000_0003, false),
    ] {
        assert_same_at(&rt, has(&claims, word), Some(claimed), word);
    }
    assert_same(&rt, claims.add_all(&[]).ok(), Some(true));
}

// Adds the block of a number of data_0 and of data_4, and says whether both are new.
fn add_both(claims: &mut Claims, start: u32) -> Option<bool> {
    let first = add(claims, 0x9000_0000 | start)?;
    Some(first & add(claims, 0x9004_0000 | start)?)
}

// Adds all of them, and says whether each was new.
fn add_all(claims: &mut Claims) -> Option<bool> {
    for start in 0..65536 {
        if !add_both(claims, start)? {
            return Some(false);
        }
    }
    Some(true)
}

#[test]
fn a_full_list_is_claimed(rt: HostRuntime) {
    let mut claims = Claims::new(rt.alloc());
    // 131072 nodes: each block that an address can name in data_0 and data_4
    assert_same(&rt, add_all(&mut claims), Some(true));
    assert_same(
        &rt,
        [claims.allocations(0), claims.allocations(4)],
        [65536, 65536],
    );
    assert_same(&rt, add(&mut claims, 0x9004_FFFF), Some(false));
}
