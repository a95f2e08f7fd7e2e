//! Laws of the views.
ghost use Rattle.std.specs.Prelude.{◌≡◌, ℕ, ◌+◌, ◌*◌};
ghost use Rattle.spec_image.specs.Bytes.{long_at, word_at};
ghost use Rattle.spec_format.specs.Address.{header_size};
ghost use Rattle.spec_format.specs.BlockFiles.{most_blocks};
ghost use Rattle.spec_format.specs.Headers.{block_fields_length, block_magic, block_version, empty_of, first_version, header_length, index_length, index_magic, index_version, place_of_bucket, table_length};
ghost use Rattle.spec_format.specs.Maps.{map_place};
ghost use Rattle.spec_format.specs.Records.{entry_in, node_in};
ghost use Rattle.spec_format.specs.SparseIndex.{sparse_head_length};
ghost use Rattle.blk_record.specs.Places.{HasEntryWords, HasFileWords, HasIndexCounters, HasIndexFields, HasKeyWords, HasListWords, HasMoments, HasStreamWords};

use crate::{BlockHead, EntryView, IndexHead, NodeView, SparseHead};

/// The numbers and places of the index's header are those of the format.
pub fn index_heads_have_the_places_of_the_format()
    ensures lengths { (IndexHead.LEN ≡ header_length) × (IndexHead.INDEX_LEN ≡ index_length) }
    ensures numbers { (IndexHead.MAGIC ≡ index_magic) × (IndexHead.BUCKETS ≡ table_length) }
    ensures versions { (IndexHead.FIRST_VERSION ≡ first_version) × (IndexHead.VERSION ≡ index_version) }
    ensures words { (f : ℕ → ℕ) → HasIndexFields f IndexHead.VERSION_PLACE IndexHead.LAST_FILE IndexHead.TABLE_LEN IndexHead.CREATE_TIME }
    ensures counters { (f : ℕ → ℕ) → HasIndexCounters f IndexHead.NUM_ENTRIES IndexHead.NUM_BYTES IndexHead.NUM_BYTES64 IndexHead.SIZES }
    ensures list { (f : ℕ → ℕ) → HasListWords f IndexHead.HEADS IndexHead.TAILS IndexHead.TRANSACTION IndexHead.OPERATION }
    ensures table { (b : ℕ) → place_of_bucket b ≡ IndexHead.TABLE + 4 * b }
{}

/// The numbers and places of a block file's header are those of the format.
pub fn block_heads_have_the_places_of_the_format()
    ensures lengths { (BlockHead.LEN ≡ block_fields_length) × (BlockHead.HEADER_LEN ≡ header_size) }
    ensures numbers { (BlockHead.MAGIC ≡ block_magic) × (BlockHead.VERSION ≡ block_version) × (BlockHead.MOST_BLOCKS ≡ most_blocks) }
    ensures words { (f : ℕ → ℕ) → HasFileWords f BlockHead.NEXT_FILE BlockHead.ALLOCATIONS BlockHead.MAX_ENTRIES BlockHead.UPDATING }
    ensures empty { (f : ℕ → ℕ) (i : ℕ) → empty_of f i ≡ word_at f (BlockHead.EMPTY + 4 * i) }
    ensures map { BlockHead.MAP ≡ map_place }
{}

/// The head of a sparse index has the length of the format.
pub fn sparse_heads_have_the_length_of_the_format()
    ensures { SparseHead.LEN ≡ sparse_head_length }
{}

/// The places of an entry record are those of the format.
#[tactic(auto, unfolding(spec_format::specs::Records::entry_in))]
pub fn entry_records_have_the_places_of_the_format()
    ensures chain { (f : ℕ → ℕ) (at : ℕ) → ((entry_in f at).hash ≡ word_at f (at + EntryView.HASH)) × ((entry_in f at).next ≡ word_at f (at + EntryView.NEXT)) }
    ensures node { (f : ℕ → ℕ) (at : ℕ) → (entry_in f at).rankings_node ≡ word_at f (at + EntryView.NODE) }
    ensures created { (f : ℕ → ℕ) (at : ℕ) → (entry_in f at).creation_time ≡ long_at f (at + EntryView.CREATION_TIME) }
    ensures key { (f : ℕ → ℕ) (at : ℕ) → HasKeyWords f at EntryView.KEY_LEN EntryView.LONG_KEY }
    ensures streams { (f : ℕ → ℕ) (at : ℕ) → HasStreamWords f at EntryView.DATA_SIZE EntryView.DATA_ADDR }
    ensures flags { (f : ℕ → ℕ) (at : ℕ) → (entry_in f at).flags ≡ word_at f (at + EntryView.FLAGS) }
{}

/// The places of a rankings node are those of the format.
#[tactic(auto, unfolding(spec_format::specs::Records::node_in))]
pub fn nodes_have_the_places_of_the_format()
    ensures moments { (f : ℕ → ℕ) (at : ℕ) → HasMoments f at NodeView.LAST_USED NodeView.LAST_MODIFIED }
    ensures links { (f : ℕ → ℕ) (at : ℕ) → ((node_in f at).next ≡ word_at f (at + NodeView.NEXT)) × ((node_in f at).prev ≡ word_at f (at + NodeView.PREV)) }
    ensures entry { (f : ℕ → ℕ) (at : ℕ) → HasEntryWords f at NodeView.CONTENTS NodeView.DIRTY }
{}
