// The blocks that bytes of a map mark, and the space that they leave. Block b is bit b % 8 of byte b / 8.
ghost use Rattle.std.specs.Prelude.{◌≡◌, ℕ, ◌+◌, ◌*◌, ◌^◌, ◌<◌, ◌≤◌, ◌==◌, length, if◌then◌else◌};
ghost use Rattle.spec_image.specs.Bytes.{word_bytes};
ghost use Rattle.spec_format.specs.Maps as maps;
ghost use Rattle.spec_format.specs.Maps.{group_size};
ghost use Rattle.blk_addr.specs.Bits.{has_bit, is_between};
ghost use Rattle.blk_alloc.specs.Places as places;

use blk_addr::GROUP;

const BITS_OF_BYTE: u32 = 8;

// Whether a block is marked.
#[tactic(auto, unfolding(blk_addr::specs::Bits::has_bit))]
pub(crate) fn is_marked(bytes: &[u8], b: u32) -> bool
    ensures { result ≡ has_bit bytes.now b }
{
    let place = (b / BITS_OF_BYTE) as usize;
    match bytes.get(place) {
        Some(byte) => (byte >> (b % BITS_OF_BYTE)) & 1 == 1,
        None => false,
    }
}

// Whether none of the `count` blocks from one on is marked.
#[tactic(auto, unfolding(spec_format::specs::Maps::are_free))]
fn are_free(bytes: &[u8], b: u32, count: u32) -> bool
    requires { b + count < 2 ^ 32 }
    ensures { result ≡ maps.are_free (has_bit bytes.now) b count }
{
    (0..count).all(|i| !is_marked(bytes, b + i))
}

// Whether `count` free blocks lie side by side in a group.
#[tactic(auto, unfolding(spec_format::specs::Maps::has_run))]
fn has_run(bytes: &[u8], group: u32, count: u32) -> bool
    requires few { count ≤ group_size }
    requires small { group < 2 ^ 16 }
    ensures { result ≡ maps.has_run (has_bit bytes.now) group count }
{
    (0..GROUP - count + 1).any(|i| are_free(bytes, GROUP * group + i, count))
}

// The longest run of free blocks in a group.
#[tactic(auto, unfolding(spec_format::specs::Maps::longest_run))]
pub(crate) fn longest_run(bytes: &[u8], group: u32) -> u32
    requires { group < 2 ^ 16 }
    ensures run { result ≡ maps.longest_run (has_bit bytes.now) group }
    ensures most { result ≤ group_size }
{
    if has_run(bytes, group, 4) {
        4
    } else if has_run(bytes, group, 3) {
        3
    } else if has_run(bytes, group, 2) {
        2
    } else if has_run(bytes, group, 1) {
        1
    } else {
        0
    }
}

// Whether `count` blocks from one on lie inside one group and are free.
#[tactic(auto, unfolding(crate::specs::Places::is_place))]
pub(crate) fn is_place(bytes: &[u8], b: u32, count: u32) -> bool
    requires few { count ≤ group_size }
    requires small { b < 2 ^ 17 }
    ensures { result ≡ places.is_place (has_bit bytes.now) count b }
{
    b % GROUP + count <= GROUP && are_free(bytes, b, count)
}

// Marks a block, or clears its mark.
pub(crate) fn set_mark(bytes: &mut [u8], b: u32, used: bool)
    requires { b < 8 * length bytes.old }
    ensures marks { (m : ℕ) → has_bit bytes.new m ≡ (if m == b then used else has_bit bytes.old m) }
    ensures length { length bytes.new ≡ length bytes.old }
{
    let place = (b / BITS_OF_BYTE) as usize;
    let bit = 1 << (b % BITS_OF_BYTE);
    if used {
        bytes[place] |= bit;
    } else {
        bytes[place] &= !bit;
    }
}

// Marks `count` blocks from one on, or clears their marks.
pub(crate) fn set_marks(bytes: &mut [u8], b: u32, count: u32, used: bool)
    requires fits { b + count < 2 ^ 32 }
    requires room { b + count ≤ 8 * length bytes.old }
    ensures marks { (m : ℕ) → has_bit bytes.new m ≡ (if is_between b (b + count) m then used else has_bit bytes.old m) }
    ensures length { length bytes.new ≡ length bytes.old }
{
    for m in b..b + count {
        set_mark(bytes, m, used);
    }
}

// The word of four bytes.
pub(crate) fn word_of(bytes: &[u8]) -> u32
    requires { length bytes.now ≡ 4 }
    ensures { word_bytes result ≡ bytes.now }
{
    let mut word = [0u8; 4];
    word.copy_from_slice(bytes);
    u32::from_le_bytes(word)
}
