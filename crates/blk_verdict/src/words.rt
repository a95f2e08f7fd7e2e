// The reasons that the words of a node, and of the record that it names, give.
ghost use Rattle.std.specs.Prelude.{◌≡◌, ◌==◌, if◌then◌else◌, option_map};
ghost use Rattle.spec_format.specs.Address.{blocks_256, kind_of};
ghost use Rattle.spec_format.specs.Names.{longest_name};
ghost use Rattle.spec_format.specs.Records.{child};
ghost use Rattle.blk_model.specs.Sizes.{longest_key};
ghost use Rattle.spec_folder.specs.Entries as entries;
ghost use Rattle.blk_verdict.specs.Reasons.{reason_of};
ghost use Rattle.blk_audit.specs.Records.{fields_said};
ghost use Rattle.blk_verdict.specs.Loading as loading;

use crate::reason::Reason;
use blk_addr::{Addr, entry_blocks};
use blk_audit::RecordWords;
use blk_entry::LONGEST_NAME;
use blk_ranges::LONGEST_KEY;
use blk_record::CHILD;

// The state of a live entry.
const LIVE: u32 = 0;

// The first of the reasons from `Seal` to `KeyLength` that holds.
#[tactic(auto, using(std::proofs::lemmas::Bool::Decides::nat_tests), unfolding(crate::specs::Loading::reason_by_words))]
pub(crate) fn reason_by_words(
    node: Addr,
    entry: Addr,
    dirty: u32,
    words: &RecordWords,
) -> Option<Reason>
    requires { kind_of entry ≡ blocks_256 }
    ensures { option_map reason_of result ≡ loading.reason_by_words node entry dirty (fields_said words.now) }
{
    if !words.checks {
        return Some(Reason::Seal);
    }
    if words.state != LIVE {
        return Some(Reason::State);
    }
    if words.node != node.word() {
        return Some(Reason::Back);
    }
    // The flags of a part are the largest.
    if words.flags > CHILD {
        return Some(Reason::Flags);
    }
    if dirty != 0 {
        return Some(Reason::Dirty);
    }
    if !is_key_length(entry, words) {
        return Some(Reason::KeyLength);
    }
    None
}

// Whether the key has a length that it may have, and the record as many blocks as it takes.
#[tactic(auto, using(std::proofs::lemmas::Bool::Decides::nat_tests), unfolding(spec_folder::specs::Entries::is_key_length))]
fn is_key_length(entry: Addr, words: &RecordWords) -> bool
    requires { kind_of entry ≡ blocks_256 }
    ensures { result ≡ entries.is_key_length entry (fields_said words.now) }
{
    let longest = longest_with(words.flags);
    1 <= words.key_len && words.key_len <= longest && entry.blocks() == entry_blocks(words.key_len)
}

// The longest key of a record with these flags: a part's is its name.
fn longest_with(flags: u32) -> u32
    ensures { result ≡ (if flags == child then longest_name else longest_key) }
{
    if flags == CHILD {
        LONGEST_NAME
    } else {
        LONGEST_KEY
    }
}
