// Entry records, as they are read.
ghost use Rattle.std.specs.Prelude.{◌≡◌, ◌≤◌, length};
ghost use Rattle.spec_format.specs.Address.{blocks_256, kind_of};
ghost use Rattle.blk_audit.specs.Records.{is_hash_in, record_in};
ghost use Rattle.blk_audit.specs.Chaining.{first_block_of};

use crate::record_words::{RecordWords, words_of};
use blk_addr::{Addr, FileId, Kind, LONGEST_SHORT_KEY};
use blk_record::{EntryView, Record, super_fast_hash};

/// What was read of a record.
#[derive(Clone, Copy, Debug)]
pub struct ReadRecord {
    /// The words of the record.
    pub words: RecordWords,
    /// Whether its hash is known to be that of its key: the bytes of the key were read with it, and have this hash. No
    /// long key is read with it.
    pub hash_is_right: bool,
}

// The record that begins with the first of these bytes, which may go on after it.
pub(crate) fn record_of_bytes(bytes: &[u8]) -> ReadRecord
    requires { 96 ≤ length bytes.now }
    ensures { result ≡ record_in bytes.now }
{
    let words = words_of(&bytes[..EntryView::SIZE]);
    let hash_is_right = is_hash_of_key(words.hash, words.key_len, &bytes[EntryView::SIZE..]);
    ReadRecord {
        words,
        hash_is_right,
    }
}

// Whether a hash is that of a short key of this length, where these bytes begin with it.
#[tactic(auto, using(std::proofs::lemmas::Bool::Decides::nat_tests))]
fn is_hash_of_key(sum: u32, key_len: u32, bytes: &[u8]) -> bool
    ensures { result ≡ is_hash_in sum key_len bytes.now }
{
    if key_len > LONGEST_SHORT_KEY {
        return false;
    }
    let key_len = key_len as usize;
    if key_len > bytes.len() {
        return false;
    }
    super_fast_hash(&bytes[..key_len]) == sum
}

// The address of the first block of a record.
#[tactic(auto, using(std::proofs::lemmas::Bool::Decides::nat_tests), unfolding(blk_addr::specs::FileId::file_of_word))]
pub(crate) fn first_of_record(addr: Addr) -> Addr
    requires { kind_of addr ≡ blocks_256 }
    ensures { result ≡ first_block_of addr }
{
    let FileId::Block(file) = addr.file() else {
        unreachable!();
    };
    Addr::of_blocks(Kind::B256, file, addr.start(), 1)
}
