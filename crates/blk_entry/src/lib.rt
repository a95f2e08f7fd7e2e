//! Entries: their records, keys and dirty flags.
#![tactic(auto)]

mod compare;
mod data;
mod fields;
mod keys;
mod laws;
mod marks;
mod writing;

pub use compare::{key_equals, key_is};
pub use data::{read_data, write_data};
pub use fields::{field, node_of};
pub use keys::{
    Head, LONGEST_NAME, four_words, key_piece, long_key, may_have, read_head, record_damage, stores,
};
pub use laws::{new_entries_are_shown_apart, written_parts_load};
pub use marks::{set_clean, set_dirty};
pub use writing::{NewEntry, write_entry};
