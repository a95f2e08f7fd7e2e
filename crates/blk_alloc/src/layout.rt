// The bytes of a map, places in a header that was read, and the blocks of a group.
use blk_record::BlockHead;

// How many bytes the map has.
pub(crate) const MAP_LEN: usize = (BlockHead::HEADER_LEN - BlockHead::MAP) as usize;

// The places of fields.
pub(crate) const ALLOCATIONS: usize = BlockHead::ALLOCATIONS as usize;

pub(crate) const EMPTY: usize = BlockHead::EMPTY as usize;

pub(crate) const UPDATING: usize = BlockHead::UPDATING as usize;

// The bits of a word of the map.
pub(crate) const BITS_OF_WORD: u32 = 32;
