// Headers that were made by hand.
use crate::same::assert_same;
use blk_record::{BlockHead, IndexHead};
use std::test::Fail;

// The first fields of an index: its magic and version, 2 items, 300 at the place of the first version's sum, external number 7,
// session 5, no stats, the table's length, an open session, no experiment, a moment, a sum of eight bytes.
const INDEX_START: [u8; 56] = [
    0xC3, 0xCA, 0x03, 0xC1, 0x00, 0x00, 0x03, 0x00, 0x02, 0x00, 0x00, 0x00, 0x2C, 0x01, 0x00, 0x00,
    0x07, 0x00, 0x00, 0x00, 0x05, 0x00, 0x00, 0x00, 0x00, 0x00, 0x00, 0x00, 0x00, 0x00, 0x01, 0x00,
    0x01, 0x00, 0x00, 0x00, 0x00, 0x00, 0x00, 0x00, 0x08, 0x07, 0x06, 0x05, 0x04, 0x03, 0x02, 0x01,
    0xFE, 0xFF, 0xFF, 0x7F, 0x01, 0x00, 0x00, 0x00,
];

// The header of data_1, whose next file is data_4: 3 allocations in 1024 blocks of 256 bytes.
const BLOCK_START: [u8; 24] = [
    0xC3, 0xCA, 0x04, 0xC1, 0x00, 0x00, 0x02, 0x00, 0x01, 0x00, 0x04, 0x00, 0x00, 0x01, 0x00, 0x00,
    0x03, 0x00, 0x00, 0x00, 0x00, 0x04, 0x00, 0x00,
];

// Has each word hold its place, and some number more.
pub(crate) fn number_words(bytes: &mut [u8], more: u32) {
    let mut place = more;
    for word in bytes.chunks_exact_mut(4) {
        word.copy_from_slice(&place.to_le_bytes());
        place = place.wrapping_add(4);
    }
}

// Puts a part in the place of the first bytes.
fn put(bytes: &mut [u8], part: &[u8]) {
    for (byte, new) in bytes.iter_mut().zip(part) {
        *byte = *new;
    }
}

// The first ten words of an index, its moment and its sum.
fn front_of(head: &IndexHead<'_>) -> ([u32; 10], [u64; 2]) {
    let words = [
        head.magic(),
        head.version(),
        head.num_entries(),
        head.num_bytes(),
        head.last_file(),
        head.this_id(),
        head.stats(),
        head.table_len(),
        head.crash(),
        head.experiment(),
    ];
    (words, [head.create_time(), head.num_bytes64()])
}

#[test]
fn an_index_header_is_read(rt: HostRuntime) -> Result<(), Fail> {
    let mut bytes = [0; 368];
    put(&mut bytes, &INDEX_START);
    let head = IndexHead::over(&bytes).ok_or("too short")?;
    let words = [0xC103CAC3, 0x30000, 2, 300, 7, 5, 0, 65536, 1, 0];
    let longs = [0x0102030405060708, 0x17FFFFFFE];
    assert_same(&rt, front_of(&head), (words, longs));
    Ok(())
}

// The words of an index that nothing uses.
fn unused_of(head: &IndexHead<'_>) -> [u32; 7] {
    [
        head.pad(0),
        head.pad(49),
        head.pad1(0),
        head.pad1(1),
        head.filled(),
        head.pad2(0),
        head.pad2(6),
    ]
}

// The first and the last of its lists, and its operation.
fn lists_of(head: &IndexHead<'_>) -> [u32; 9] {
    [
        head.sizes(0),
        head.sizes(4),
        head.heads(0),
        head.heads(4),
        head.tails(0),
        head.tails(4),
        head.transaction(),
        head.operation(),
        head.operation_list(),
    ]
}

#[test]
fn the_lists_of_an_index_are_read(rt: HostRuntime) -> Result<(), Fail> {
    let mut bytes = [0; 368];
    number_words(&mut bytes, 0);
    let head = IndexHead::over(&bytes).ok_or("too short")?;
    assert_same(&rt, unused_of(&head), [56, 252, 256, 260, 264, 340, 364]);
    let lists = [268, 284, 288, 304, 308, 324, 328, 332, 336];
    assert_same(&rt, lists_of(&head), lists);
    Ok(())
}

// The words at the start of the header of a block file, and its numbers.
fn block_front_of(head: &BlockHead<'_>) -> ([u32; 5], u16, u16) {
    let words = [
        head.magic(),
        head.version(),
        head.entry_size(),
        head.num_entries(),
        head.max_entries(),
    ];
    (words, head.this_file(), head.next_file())
}

// The words after them.
fn block_rest_of(head: &BlockHead<'_>) -> [u32; 7] {
    [
        head.empty(0),
        head.empty(3),
        head.hints(0),
        head.hints(3),
        head.updating(),
        head.user(0),
        head.user(4),
    ]
}

#[test]
fn a_block_header_is_read(rt: HostRuntime) -> Result<(), Fail> {
    let mut bytes = [0; 80];
    number_words(&mut bytes, 0);
    put(&mut bytes, &BLOCK_START);
    let head = BlockHead::over(&bytes).ok_or("too short")?;
    let front = ([0xC104CAC3, 0x20000, 256, 3, 1024], 1, 4);
    assert_same(&rt, block_front_of(&head), front);
    assert_same(&rt, block_rest_of(&head), [24, 36, 40, 52, 56, 60, 76]);
    Ok(())
}

#[test]
fn a_shorter_window_is_refused(rt: HostRuntime) {
    let bytes = [0; 368];
    assert!(rt; IndexHead::over(&bytes[..367]).is_none());
    assert!(rt; BlockHead::over(&bytes[..79]).is_none());
}
