// The header of the index.
ghost use Rattle.std.specs.Prelude.{◌≡◌, ◌<◌, ◌≤◌, ◌↔◌, length, IsSome, IfSome};
ghost use Rattle.spec_image.specs.Bytes.{content};
ghost use Rattle.spec_format.specs.Headers.{crash_of, create_time_of, experiment_of, filled_of, header_length, heads_of, last_file_of, magic_of, num_bytes64_of, num_bytes_of, num_entries_of, operation_list_of, operation_of, pad1_of, pad2_of, pad_of, sizes_of, stats_of, table_len_of, tails_of, this_id_of, transaction_of, version_of};

use crate::words::{long, word};
use std::marker::Model;

/// A view of the header of the index, over a window that has at least 368 bytes.
#[derive(Debug, Drop)]
pub struct IndexHead<'a> {
    window: &'a [u8],
}

impl<'a> Model for IndexHead<'a> {
    ghost use Rattle.std.specs.Prelude.{ℕ, List, ◌≤◌, length};
    ghost use Rattle.spec_format.specs.Headers.{header_length};

    ghost Value = { List ℕ };

    ghost view = { λ head. head.window.now };

    ghost invariant = { λ head. header_length ≤ length head.window.now };
}

impl<'a> IndexHead<'a> {
    /// How many bytes the fields take, before the table.
    pub const LEN: usize = 368;

    /// How many bytes a whole index has.
    pub const INDEX_LEN: u64 = 262_512;

    /// The magic number of an initialized index.
    pub const MAGIC: u32 = 0xC103_CAC3;

    /// The version that folders had first, which is read too.
    pub const FIRST_VERSION: u32 = 0x2_0000;

    /// The version of the format.
    pub const VERSION: u32 = 0x3_0000;

    /// The number of the table's words.
    pub const BUCKETS: u32 = 65536;

    /// The place of the version.
    pub const VERSION_PLACE: u64 = 4;

    /// The place of the number of listed items.
    pub const NUM_ENTRIES: u64 = 8;

    /// The place of the sum of the items' costs in the first version; the later one has 0 there.
    pub const NUM_BYTES: u64 = 12;

    /// The place of the last external number that was made.
    pub const LAST_FILE: u64 = 16;

    /// The place of the number of the session.
    pub const THIS_ID: u64 = 20;

    /// The place of the number of the table's words.
    pub const TABLE_LEN: u64 = 28;

    /// The place of the word that is 1 while a session is open.
    pub const CRASH: u64 = 32;

    /// The place of the creation time, which takes two words.
    pub const CREATE_TIME: u64 = 40;

    /// The place of the sum of the items' costs, which takes two words; the first version has none.
    pub const NUM_BYTES64: u64 = 48;

    /// The place of the length of the LRU list.
    pub const SIZES: u64 = 268;

    /// The place of the head of the LRU list.
    pub const HEADS: u64 = 288;

    /// The place of the tail of the LRU list.
    pub const TAILS: u64 = 308;

    /// The place of the node of the operation in flight.
    pub const TRANSACTION: u64 = 328;

    /// The place of the operation in flight.
    pub const OPERATION: u64 = 332;

    /// The place of the table.
    pub const TABLE: u64 = 368;

    /// The view of a window that has the bytes.
    pub fn new(window: &'a [u8]) -> IndexHead<'a>
        requires { header_length ≤ length window.now }
        ensures { result ≡ window.now }
    {
        IndexHead { window }
    }

    /// The view of a window, or `None` where it has fewer than 368 bytes.
    pub fn over(window: &'a [u8]) -> Option<IndexHead<'a>>
        ensures enough { IsSome result ↔ (header_length ≤ length window.now) }
        ensures same { IfSome result (λ head. head ≡ window.now) }
    {
        if window.len() < Self::LEN {
            return None;
        }
        Some(IndexHead::new(window))
    }

    /// The magic number.
    pub fn magic(&self) -> u32
        ensures { result ≡ magic_of (content self.now) }
    {
        word(self.window, 0)
    }

    /// The version of the format.
    pub fn version(&self) -> u32
        ensures { result ≡ version_of (content self.now) }
    {
        word(self.window, Self::VERSION_PLACE as usize)
    }

    /// The number of listed items.
    pub fn num_entries(&self) -> u32
        ensures { result ≡ num_entries_of (content self.now) }
    {
        word(self.window, Self::NUM_ENTRIES as usize)
    }

    /// The sum of the items' costs modulo 2^32 in the first version, and 0 in the later one.
    pub fn num_bytes(&self) -> u32
        ensures { result ≡ num_bytes_of (content self.now) }
    {
        word(self.window, Self::NUM_BYTES as usize)
    }

    /// The last external number that was made.
    pub fn last_file(&self) -> u32
        ensures { result ≡ last_file_of (content self.now) }
    {
        word(self.window, Self::LAST_FILE as usize)
    }

    /// The number of the session, which rises at each opening.
    pub fn this_id(&self) -> u32
        ensures { result ≡ this_id_of (content self.now) }
    {
        word(self.window, Self::THIS_ID as usize)
    }

    /// A word that is to be 0.
    pub fn stats(&self) -> u32
        ensures { result ≡ stats_of (content self.now) }
    {
        word(self.window, 24)
    }

    /// The number of the table's words, or 0 for the usual one.
    pub fn table_len(&self) -> u32
        ensures { result ≡ table_len_of (content self.now) }
    {
        word(self.window, Self::TABLE_LEN as usize)
    }

    /// 1 while a session is open.
    pub fn crash(&self) -> u32
        ensures { result ≡ crash_of (content self.now) }
    {
        word(self.window, Self::CRASH as usize)
    }

    /// A word that is to be 0.
    pub fn experiment(&self) -> u32
        ensures { result ≡ experiment_of (content self.now) }
    {
        word(self.window, 36)
    }

    /// The creation time, in microseconds since 1970.
    pub fn create_time(&self) -> u64
        ensures { result ≡ create_time_of (content self.now) }
    {
        long(self.window, Self::CREATE_TIME as usize)
    }

    /// The sum of the items' costs; the first version has no such field.
    pub fn num_bytes64(&self) -> u64
        ensures { result ≡ num_bytes64_of (content self.now) }
    {
        long(self.window, Self::NUM_BYTES64 as usize)
    }

    /// One of 50 words that are not used.
    pub fn pad(&self, i: usize) -> u32
        requires { i < 50 }
        ensures { result ≡ pad_of (content self.now) i }
    {
        word(self.window, 56 + 4 * i)
    }

    /// One of 2 words that are not used.
    pub fn pad1(&self, i: usize) -> u32
        requires { i < 2 }
        ensures { result ≡ pad1_of (content self.now) i }
    {
        word(self.window, 256 + 4 * i)
    }

    /// A word that is not used.
    pub fn filled(&self) -> u32
        ensures { result ≡ filled_of (content self.now) }
    {
        word(self.window, 264)
    }

    /// One of 5 words: the number of nodes, and then zeros.
    pub fn sizes(&self, i: usize) -> u32
        requires { i < 5 }
        ensures { result ≡ sizes_of (content self.now) i }
    {
        word(self.window, Self::SIZES as usize + 4 * i)
    }

    /// One of 5 words: the head of the LRU list, and then zeros.
    pub fn heads(&self, i: usize) -> u32
        requires { i < 5 }
        ensures { result ≡ heads_of (content self.now) i }
    {
        word(self.window, Self::HEADS as usize + 4 * i)
    }

    /// One of 5 words: the tail of the LRU list, and then zeros.
    pub fn tails(&self, i: usize) -> u32
        requires { i < 5 }
        ensures { result ≡ tails_of (content self.now) i }
    {
        word(self.window, Self::TAILS as usize + 4 * i)
    }

    /// The node of the operation in flight, or 0.
    pub fn transaction(&self) -> u32
        ensures { result ≡ transaction_of (content self.now) }
    {
        word(self.window, Self::TRANSACTION as usize)
    }

    /// The operation in flight: 1 insert, 2 remove, 3 move.
    pub fn operation(&self) -> u32
        ensures { result ≡ operation_of (content self.now) }
    {
        word(self.window, Self::OPERATION as usize)
    }

    /// A word that is to be 0.
    pub fn operation_list(&self) -> u32
        ensures { result ≡ operation_list_of (content self.now) }
    {
        word(self.window, 336)
    }

    /// One of 7 words that are not used.
    pub fn pad2(&self, i: usize) -> u32
        requires { i < 7 }
        ensures { result ≡ pad2_of (content self.now) i }
    {
        word(self.window, 340 + 4 * i)
    }
}
