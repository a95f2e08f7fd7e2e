// The storage of data by its size.
ghost use Rattle.std.specs.Prelude.{◌≡◌, ◌≢◌, ◌<◌};
ghost use Rattle.spec_format.specs.Address as address;
ghost use Rattle.spec_format.specs.Address.{external};
ghost use Rattle.spec_format.specs.Storage as storage;
ghost use Rattle.blk_addr.specs.Kind.{kind_number};

use crate::kinds::Kind;

// The largest sizes of the three kinds of blocks that hold data.
const MOST_IN_256: u32 = 1023;

const MOST_IN_1K: u32 = 4095;

const MOST_IN_4K: u32 = 16384;

/// How many bytes a block has of the files in which records lie. A record's key needs a block more for each 256 bytes.
pub const RECORD_BLOCK: u32 = 256;

// The first length at which a key needs a second block of its record.
const SECOND_BLOCK_FROM: u32 = 160;

/// The longest key that lies in its record, in bytes.
pub const LONGEST_SHORT_KEY: u32 = 927;

/// The kind of data of `size` bytes, above 0.
#[tactic(auto, unfolding(spec_format::specs::Storage::kind_for))]
pub fn kind_for(size: u32) -> Kind
    requires { 0 < size }
    ensures { kind_number result ≡ storage.kind_for size }
{
    if size <= MOST_IN_256 {
        Kind::B256
    } else if size <= MOST_IN_1K {
        Kind::B1K
    } else if size <= MOST_IN_4K {
        Kind::B4K
    } else {
        Kind::External
    }
}

/// The number of blocks of data of `size` bytes, above 0; 0 where the data is external.
#[tactic(auto, unfolding(spec_format::specs::Storage::blocks_for))]
pub fn blocks_for(size: u32) -> u32
    requires { 0 < size }
    ensures { result ≡ storage.blocks_for size }
{
    match kind_for(size).block_size() {
        Some(block_size) => size.div_ceil(block_size),
        None => 0,
    }
}

/// The number of blocks of an entry record whose key has `key_len` bytes.
#[tactic(auto, unfolding(spec_format::specs::Storage::entry_blocks))]
pub fn entry_blocks(key_len: u32) -> u32
    ensures { result ≡ storage.entry_blocks key_len }
{
    if key_len < SECOND_BLOCK_FROM || key_len > LONGEST_SHORT_KEY {
        1
    } else {
        (key_len - SECOND_BLOCK_FROM) / RECORD_BLOCK + 2
    }
}
