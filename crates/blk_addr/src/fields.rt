// The fields of an address word.
ghost use Rattle.std.specs.Prelude.{◌≡◌, ◌≤◌, ◌<◌, ◌^◌};
ghost use Rattle.spec_format.specs.Address as address;

// The kind numbers of address words.
pub const EXTERNAL: u32 = 0;

pub const RANKINGS: u32 = 1;

pub const BLOCKS_256: u32 = 2;

pub const BLOCKS_1K: u32 = 3;

pub const BLOCKS_4K: u32 = 4;

// An address can name so many blocks of a file.
pub const BLOCKS_OF_FILE: u32 = 0x1_0000;

/// The blocks of an address lie in one group of so many.
pub const GROUP: u32 = 4;

const INITIALIZED: u32 = 0x8000_0000;

const KIND_SHIFT: u32 = 28;

const KIND_MASK: u32 = 7;

const RESERVED_SHIFT: u32 = 26;

const RESERVED_MASK: u32 = 3;

const COUNT_SHIFT: u32 = 24;

const COUNT_MASK: u32 = 3;

const FILE_SHIFT: u32 = 16;

const FILE_MASK: u32 = 0xFF;

const START_MASK: u32 = 0xFFFF;

/// The last number of an external file, and the bits of an address word that have it.
pub const LAST_EXTERNAL: u32 = 0x0FFF_FFFF;

#[tactic(auto, unfolding(spec_format::specs::Address::is_initialized))]
pub fn is_initialized(word: u32) -> bool
    ensures { result ≡ address.is_initialized word }
{
    word >= INITIALIZED
}

#[tactic(auto, unfolding(spec_format::specs::Address::kind_of))]
pub fn kind_number(word: u32) -> u32
    ensures { result ≡ address.kind_of word }
{
    (word >> KIND_SHIFT) & KIND_MASK
}

#[tactic(auto, unfolding(spec_format::specs::Address::reserved_bits))]
pub fn reserved_bits(word: u32) -> u32
    ensures { result ≡ address.reserved_bits word }
{
    (word >> RESERVED_SHIFT) & RESERVED_MASK
}

#[tactic(auto, unfolding(spec_format::specs::Address::block_count))]
pub fn block_count(word: u32) -> u32
    ensures field { result ≡ address.block_count word }
    ensures most { result ≤ 4 }
{
    ((word >> COUNT_SHIFT) & COUNT_MASK) + 1
}

#[tactic(auto, unfolding(spec_format::specs::Address::file_selector))]
pub fn file_selector(word: u32) -> u8
    ensures { result ≡ address.file_selector word }
{
    ((word >> FILE_SHIFT) & FILE_MASK) as u8
}

#[tactic(auto, unfolding(spec_format::specs::Address::first_block))]
pub fn first_block(word: u32) -> u32
    ensures { result ≡ address.first_block word }
{
    word & START_MASK
}

#[tactic(auto, unfolding(spec_format::specs::Address::external_number))]
pub fn external_number(word: u32) -> u32
    ensures { result ≡ address.external_number word }
{
    word & LAST_EXTERNAL
}

#[tactic(auto, unfolding(spec_format::specs::Address::names_external))]
fn names_external(word: u32) -> bool
    ensures { result ≡ address.names_external word }
{
    kind_number(word) == EXTERNAL && external_number(word) != 0
}

#[tactic(auto, unfolding(spec_format::specs::Address::names_blocks))]
fn names_blocks(word: u32) -> bool
    ensures { result ≡ address.names_blocks word }
{
    let kind = kind_number(word);
    let count = block_count(word);
    RANKINGS <= kind
        && kind <= BLOCKS_4K
        && reserved_bits(word) == 0
        && first_block(word) % GROUP + count <= GROUP
        && (kind != RANKINGS || count == 1)
}

#[tactic(auto, unfolding(spec_format::specs::Address::is_address))]
pub fn is_address(word: u32) -> bool
    ensures { result ≡ address.is_address word }
{
    is_initialized(word) && (names_external(word) || names_blocks(word))
}

// The word of so many blocks of a kind in a file, from a first one on.
#[tactic(auto, unfolding(spec_format::specs::Address::block_word))]
pub fn block_word(kind: u32, file: u8, start: u32, count: u32) -> u32
    requires kind { kind < 8 }
    requires some { 0 < count }
    requires most { count ≤ 4 }
    requires small { start < 65536 }
    ensures { result ≡ address.block_word kind file start count }
{
    INITIALIZED
        + (kind << KIND_SHIFT)
        + ((count - 1) << COUNT_SHIFT)
        + (u32::from(file) << FILE_SHIFT)
        + start
}

// The word of the external file of a number.
#[tactic(auto, unfolding(spec_format::specs::Address::external_word))]
pub fn external_word(number: u32) -> u32
    requires { number < 2 ^ 28 }
    ensures { result ≡ address.external_word number }
{
    INITIALIZED + number
}
