// Hashes that a C program of the published function gave, and records written by hand.
ghost use Rattle.std.specs.Prelude.{◌≡◌, ◌≤◌, length};
ghost use Rattle.spec_image.specs.Bytes.{content, spliced, word_at};
ghost use Rattle.spec_image.specs.Steps.{with_word};
ghost use Rattle.spec_format.specs.Records.{entry_size};
ghost use Rattle.blk_record.specs.Fields.{IsField, OtherFieldsStay};

use crate::record::number_words;
use crate::same::{assert_same, assert_same_at};
use bitflags::Flags;
use blk_record::{
    EntryFlags, EntryMut, EntryView, NodeMut, NodeView, Record, RecordMut, SparseHead,
    lent_fields_are_set, super_fast_hash,
};
use std::test::Fail;

// The hash of n bytes, of which byte j is 37 * n + 89 * j + 11 modulo 256.
const MIXED: [u32; 41] = [
    0x00000000, 0xF2475372, 0x4CF6A2D1, 0x430070B8, 0xD1149F43, 0x840A12F5, 0xA40EA6F4, 0xC682C663,
    0x393EC0D1, 0x0041D8C2, 0x03FFB1FE, 0xAB39F024, 0x2E0DFC38, 0xC2BF2F1D, 0x7145673C, 0x330F470C,
    0x5FE0AC09, 0x4745C4C8, 0x4E250459, 0x59148A3B, 0xCCF8A7EC, 0xC3DC853A, 0x591C82FF, 0x49EE08C5,
    0xCDE8E16F, 0xA2AE4FC1, 0xF9251270, 0xEBEE5F2D, 0xD50B9262, 0xE5900B4B, 0x93830531, 0x7320100D,
    0xFE973356, 0x43B724F2, 0x5B61B50D, 0x54E9BCA4, 0xE59B07F8, 0xBE82E46B, 0x7C476029, 0x1A793439,
    0xA5C06A66,
];

// The hash of n + 1 bytes, of which byte j is 255 - j * ((n + 1) % 5): high bytes at the end.
const HIGH: [u32; 15] = [
    0x00000000, 0x839AB006, 0xFE2E0CA5, 0x12535ADE, 0xBABD6C77, 0x022116A2, 0x213D39B7, 0x76CE6C87,
    0x56141B73, 0xBECA7909, 0x2260BAEC, 0x3F493B3D, 0x57F47D7F, 0x7F2C61D9, 0xD9C1EA71,
];

#[test]
fn the_worked_hashes_hold(rt: HostRuntime) {
    assert_same(&rt, super_fast_hash(b""), 0);
    assert_same(&rt, super_fast_hash(b"a"), 0x115EA782);
    assert_same(&rt, super_fast_hash(b"abcd"), 0xDAD8B8DB);
    assert_same(&rt, super_fast_hash(&[0xFF]), 0);
}

#[test]
fn hashes_are_those_of_the_published_function(rt: HostRuntime) {
    for (n, hash) in MIXED.iter().enumerate() {
        let mut key = [0u8; 40];
        for (j, byte) in key.iter_mut().enumerate() {
            *byte = ((37 * n + 89 * j + 11) % 256) as u8;
        }
        assert_same_at(
            &rt,
            super_fast_hash(&key[..n]),
            *hash,
            format_args!("of {n} bytes"),
        );
    }
}

#[test]
fn high_tail_bytes_count_as_negative(rt: HostRuntime) {
    for (i, hash) in HIGH.iter().enumerate() {
        let mut key = [0u8; 15];
        for (j, byte) in key.iter_mut().enumerate() {
            *byte = (255 - j * ((i + 1) % 5)) as u8;
        }
        assert_same_at(
            &rt,
            super_fast_hash(&key[..i + 1]),
            *hash,
            format_args!("of {i} bytes and one"),
        );
    }
}

// What a view wrote is in its window.
fn link(window: &mut [u8], next: u32)
    requires { entry_size ≤ length window.old }
    ensures { window.new ≡ with_word 4 next window.old }
{
    let mut entry = EntryMut::new(window);
    entry.set_word(4, next);
}

#[test]
fn an_entry_record_is_sealed_and_read(rt: HostRuntime) -> Result<(), Fail> {
    let mut bytes = [0; 97];
    link(&mut bytes, 0xA0010002);
    let mut entry = EntryMut::over(&mut bytes).ok_or("too short")?;
    entry.seal();
    assert_same(&rt, (entry.checks(), entry.word(92)), (true, 0x4D444C85));
    entry.set_word(8, 0x90000001);
    assert!(rt; !entry.checks());
    entry.unseal();
    assert!(rt; entry.checks());
    let view = EntryView::over(&bytes).ok_or("too short")?;
    assert_same(
        &rt,
        [view.word(0), view.word(4), view.word(8), view.word(92)],
        [0, 0xA0010002, 0x90000001, 0],
    );
    assert!(rt; view.checks());
    assert_same(&rt, view.bytes().len(), EntryView::SIZE);
    Ok(())
}

#[test]
fn a_node_is_sealed_and_read(rt: HostRuntime) -> Result<(), Fail> {
    let mut bytes = [0; 36];
    let mut node = NodeMut::over(&mut bytes).ok_or("too short")?;
    node.set_word(24, 0xA0010003);
    node.seal();
    assert!(rt; node.checks());
    let view = NodeView::over(&bytes).ok_or("too short")?;
    assert_same(
        &rt,
        (view.word(24), view.word(NodeView::SEAL)),
        (0xA0010003, 0xE3B2DD76),
    );
    assert!(rt; NodeView::over(&[0; 35]).is_none());
    Ok(())
}

// What a loan of a field leaves: its word is that of the bytes, and all other fields stay.
fn fill<R: RecordMut>(view: &mut R, at: usize, bytes: &[u8])
    requires field { IsField R.size at }
    requires four { length bytes.now ≡ 4 }
    ensures window { R.window_of view.new ≡ spliced at bytes.now (R.window_of view.old) }
    ensures set { word_at (content (R.window_of view.new)) at ≡ word_at (content bytes.now) 0 }
    ensures others { OtherFieldsStay R.size at (R.window_of view.old) (R.window_of view.new) }
    ensures same_reference { R.reference view.new ≡ R.reference view.old }
{
    lent_fields_are_set();
    view.field_mut(at).copy_from_slice(bytes);
}

#[test]
fn a_field_is_lent(rt: HostRuntime) -> Result<(), Fail> {
    let mut bytes = [0x55; 97];
    let mut entry = EntryMut::over(&mut bytes).ok_or("too short")?;
    fill(&mut entry, 8, &[1, 2, 3, 0x90]);
    assert_same(
        &rt,
        [entry.word(4), entry.word(8), entry.word(12)],
        [0x55555555, 0x90030201, 0x55555555],
    );
    let field = entry.field_mut(92);
    assert_same(&rt, (field.len(), field[3]), (4, 0x55));
    field[3] = 0xFF;
    assert_same(
        &rt,
        (entry.word(88), entry.word(92)),
        (0x55555555, 0xFF555555),
    );
    assert_same(&rt, (bytes[8], bytes[95], bytes[96]), (1, 0xFF, 0x55));
    Ok(())
}

#[test]
fn a_field_of_a_node_is_lent(rt: HostRuntime) -> Result<(), Fail> {
    let mut bytes = [0; 36];
    let mut node = NodeMut::over(&mut bytes).ok_or("too short")?;
    fill(&mut node, 32, &[4, 3, 2, 1]);
    node.field_mut(0)[0] = 9;
    assert_same(
        &rt,
        [node.word(0), node.word(4), node.word(28), node.word(32)],
        [9, 0, 0, 0x01020304],
    );
    Ok(())
}

// The generation, the last block and the other words of a sparse index.
fn parts_of(head: &SparseHead<'_>) -> (i64, i32, [u32; 5]) {
    let words = [
        head.magic(),
        head.parent_key_len(),
        head.last_block_len(),
        head.zeros(0),
        head.zeros(9),
    ];
    (head.signature(), head.last_block(), words)
}

// Each word holds the number of its place, and 256 more.
#[test]
fn a_sparse_head_is_read(rt: HostRuntime) -> Result<(), Fail> {
    let mut bytes = [0; 64];
    number_words(&mut bytes, 0x100);
    let head = SparseHead::over(&bytes).ok_or("too short")?;
    let words = [0x108, 0x10C, 0x114, 0x118, 0x13C];
    assert_same(&rt, parts_of(&head), (0x0000_0104_0000_0100, 0x110, words));
    let head = SparseHead::over(&[0xFF; 64]).ok_or("too short")?;
    assert_same(&rt, head.last_block(), -1);
    Ok(())
}

#[test]
fn a_window_shorter_than_its_record_is_refused(rt: HostRuntime) {
    assert!(rt; SparseHead::over(&[0; 63]).is_none());
    assert!(rt; EntryView::over(&[0; 95]).is_none());
    assert!(rt; NodeView::over(&[0; 35]).is_none());
    assert!(rt; EntryMut::over(&mut [0; 95]).is_none());
    assert!(rt; NodeMut::over(&mut [0; 35]).is_none());
}

#[test]
fn flags_have_names(rt: HostRuntime) {
    assert_same(
        &rt,
        (EntryFlags::PARENT.bits(), EntryFlags::CHILD.bits()),
        (1, 2),
    );
    assert!(rt; EntryFlags::from_bits_retain(3).contains(EntryFlags::CHILD));
}
