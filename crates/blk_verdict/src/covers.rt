// Whether the index of a part agrees with its name and its data.
ghost use Rattle.std.specs.Prelude.{◌≡◌, ◌+◌, ◌*◌, ◌==◌, ◌&&◌, ◌||◌, nat_le, not, true};
ghost use Rattle.std.specs.Int.{cast_unsigned, w64};
ghost use Rattle.std.specs.List.{list_all, range_with_len};
ghost use Rattle.std.specs.Option.{option_map_or};
ghost use Rattle.blk_model.specs.Sizes.{part_block_size, part_blocks};
ghost use Rattle.spec_folder.specs.Entries as entries;
ghost use Rattle.blk_ranges.specs.PartMaps.{index_of, map_signature, partial_of};

use blk_ranges::{ChildName, PartMap};

// Whether a map has the generation and the length of the key that a name says.
pub(crate) fn is_named(map: &PartMap, name: &ChildName) -> bool
    ensures { result ≡ ((map_signature map.now == cast_unsigned w64 name.now.signature) && (map.now.key_len == name.now.key_len)) }
{
    map.signature == name.signature && map.key_len as usize == name.key_len
}

// Whether each byte that a map has as present lies inside so many bytes.
#[tactic(auto, unfolding(spec_folder::specs::Entries::is_covered, blk_ranges::specs::PartMaps::index_of))]
pub(crate) fn is_covered(map: &PartMap, size: u32) -> bool
    ensures { result ≡ entries.is_covered (index_of map.now) size }
{
    has_blocks(map, size) && has_piece(map, size)
}

// Whether the blocks that are present lie inside so many bytes.
fn has_blocks(map: &PartMap, size: u32) -> bool
    ensures { result ≡ list_all (λ b. not ((index_of map.now).present b) || nat_le (part_block_size * (b + 1)) size) (range_with_len 0 part_blocks) }
{
    (0..PartMap::BLOCKS).all(|block| has_block(map, block, size))
}

// Whether a block lies inside so many bytes, or is not present.
#[tactic(auto, using(std::proofs::lemmas::Bool::Decides::nat_tests), unfolding(blk_ranges::specs::PartMaps::index_of))]
fn has_block(map: &PartMap, block: u32, size: u32) -> bool
    ensures { result ≡ (not ((index_of map.now).present block) || nat_le (part_block_size * (block + 1)) size) }
{
    !is_present(map, block) || block < size / PartMap::BLOCK_SIZE
}

// Whether a block is present.
#[tactic(auto, unfolding(blk_ranges::specs::PartMaps::index_of))]
fn is_present(map: &PartMap, block: u32) -> bool
    ensures { result ≡ (index_of map.now).present block }
{
    block < PartMap::BLOCKS && map.has(block)
}

// Whether the piece of the partial block lies inside so many bytes.
fn has_piece(map: &PartMap, size: u32) -> bool
    ensures { result ≡ option_map_or (λ piece. nat_le (part_block_size * piece.0 + piece.1) size) (partial_of map.now) true }
{
    match map.partial() {
        Some((block, len)) => {
            u64::from(PartMap::BLOCK_SIZE) * u64::from(block) + u64::from(len) <= u64::from(size)
        }
        None => true,
    }
}
