// Blocks of a file, as an address names them.
ghost use Rattle.std.specs.Prelude.{◌≡◌, ◌≢◌, ◌≤◌, ◌<◌, ◌+◌, ◌%◌};
ghost use Rattle.spec_format.specs.Address.{block_count, external, file_selector, first_block, kind_of};
ghost use Rattle.spec_format.specs.Maps.{group_size};

use blk_addr::{Addr, FileId};

// So many neighbouring blocks of a file, from `start` on.
#[derive(Clone, Copy)]
pub(crate) struct Blocks {
    pub file: u8,
    pub start: u32,
    pub count: u32,
}

// Blocks that were found free, the number of the hint that led there, and the word of the map that has them.
#[derive(Clone, Copy)]
pub(crate) struct Found {
    pub place: Blocks,
    pub i: u32,
    pub word: u32,
}

// The blocks that an address names, which lie in one group.
pub(crate) fn blocks_of(addr: Addr) -> Blocks
    requires { kind_of addr ≢ external }
    ensures file { result.file ≡ file_selector addr }
    ensures start { result.start ≡ first_block addr }
    ensures count { result.count ≡ block_count addr }
    ensures some { 0 < result.count }
    ensures group { result.start % 4 + result.count ≤ group_size }
    ensures small { result.start + result.count ≤ 65536 }
{
    let FileId::Block(file) = addr.file() else {
        unreachable!();
    };
    // Reading it tells the prover that the word is one of an address.
    let _word = addr.word();
    Blocks {
        file,
        start: addr.start(),
        count: addr.blocks(),
    }
}
