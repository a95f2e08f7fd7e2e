// The header of a block file.
ghost use Rattle.std.specs.Prelude.{◌≡◌, ◌<◌, ◌≤◌, ◌↔◌, length, IsSome, IfSome};
ghost use Rattle.spec_image.specs.Bytes.{content};
ghost use Rattle.spec_format.specs.Headers.{allocations_of, block_fields_length, empty_of, entry_size_of, hints_of, magic_of, max_entries_of, next_file_of, this_file_of, updating_of, user_of, version_of};

use crate::words::{half, word};
use std::marker::Model;

/// A view of the header of a block file, over a window that has at least 80 bytes.
#[derive(Debug, Drop)]
pub struct BlockHead<'a> {
    window: &'a [u8],
}

impl<'a> Model for BlockHead<'a> {
    ghost use Rattle.std.specs.Prelude.{ℕ, List, ◌≤◌, length};
    ghost use Rattle.spec_format.specs.Headers.{block_fields_length};

    ghost Value = { List ℕ };

    ghost view = { λ head. head.window.now };

    ghost invariant = { λ head. block_fields_length ≤ length head.window.now };
}

impl<'a> BlockHead<'a> {
    /// How many bytes the fields take, before the map.
    pub const LEN: usize = 80;

    /// How many bytes the header has with its map, before the first block.
    pub const HEADER_LEN: u64 = 8192;

    /// The magic number of a block file.
    pub const MAGIC: u32 = 0xC104_CAC3;

    /// The version of the format.
    pub const VERSION: u32 = 0x2_0000;

    /// The most blocks of a file.
    pub const MOST_BLOCKS: u32 = 64896;

    /// The place of the magic number.
    pub const MAGIC_PLACE: u64 = 0;

    /// The place of the version.
    pub const VERSION_PLACE: u64 = 4;

    /// The place of the number of the file, which is in a word with that of the next.
    pub const THIS_FILE: u64 = 8;

    /// The place of the size of a block.
    pub const ENTRY_SIZE: u64 = 12;

    /// The place of the number of the next file of the kind.
    pub const NEXT_FILE: u64 = 10;

    /// The place of the number of allocations.
    pub const ALLOCATIONS: u64 = 16;

    /// The place of the number of blocks.
    pub const MAX_ENTRIES: u64 = 20;

    /// The place of the first of the 4 words `empty`.
    pub const EMPTY: u64 = 24;

    /// The place of the word that is 1 while the map and the counters change.
    pub const UPDATING: u64 = 56;

    /// The place of the map.
    pub const MAP: u64 = 80;

    /// The view of a window that has the bytes.
    pub fn new(window: &'a [u8]) -> BlockHead<'a>
        requires { block_fields_length ≤ length window.now }
        ensures { result ≡ window.now }
    {
        BlockHead { window }
    }

    /// The view of a window, or `None` where it has fewer than 80 bytes.
    pub fn over(window: &'a [u8]) -> Option<BlockHead<'a>>
        ensures enough { IsSome result ↔ (block_fields_length ≤ length window.now) }
        ensures same { IfSome result (λ head. head ≡ window.now) }
    {
        if window.len() < Self::LEN {
            return None;
        }
        Some(BlockHead::new(window))
    }

    /// The magic number.
    pub fn magic(&self) -> u32
        ensures { result ≡ magic_of (content self.now) }
    {
        word(self.window, Self::MAGIC_PLACE as usize)
    }

    /// The version of the format.
    pub fn version(&self) -> u32
        ensures { result ≡ version_of (content self.now) }
    {
        word(self.window, Self::VERSION_PLACE as usize)
    }

    /// The number of the file.
    pub fn this_file(&self) -> u16
        ensures { result ≡ this_file_of (content self.now) }
    {
        half(self.window, Self::THIS_FILE as usize)
    }

    /// The number of the next file of its kind, or 0.
    pub fn next_file(&self) -> u16
        ensures { result ≡ next_file_of (content self.now) }
    {
        half(self.window, Self::NEXT_FILE as usize)
    }

    /// How many bytes a block has.
    pub fn entry_size(&self) -> u32
        ensures { result ≡ entry_size_of (content self.now) }
    {
        word(self.window, Self::ENTRY_SIZE as usize)
    }

    /// The number of allocations.
    pub fn num_entries(&self) -> u32
        ensures { result ≡ allocations_of (content self.now) }
    {
        word(self.window, Self::ALLOCATIONS as usize)
    }

    /// The number of blocks.
    pub fn max_entries(&self) -> u32
        ensures { result ≡ max_entries_of (content self.now) }
    {
        word(self.window, Self::MAX_ENTRIES as usize)
    }

    /// One of 4 words: how many groups have a longest free run of `i + 1` blocks.
    pub fn empty(&self, i: usize) -> u32
        requires { i < 4 }
        ensures { result ≡ empty_of (content self.now) i }
    {
        word(self.window, Self::EMPTY as usize + 4 * i)
    }

    /// One of 4 words: the group where a search for `i + 1` blocks begins.
    pub fn hints(&self, i: usize) -> u32
        requires { i < 4 }
        ensures { result ≡ hints_of (content self.now) i }
    {
        word(self.window, 40 + 4 * i)
    }

    /// 1 while the map and the counters change.
    pub fn updating(&self) -> u32
        ensures { result ≡ updating_of (content self.now) }
    {
        word(self.window, Self::UPDATING as usize)
    }

    /// One of 5 words that are not used.
    pub fn user(&self, i: usize) -> u32
        requires { i < 5 }
        ensures { result ≡ user_of (content self.now) i }
    {
        word(self.window, 60 + 4 * i)
    }
}
