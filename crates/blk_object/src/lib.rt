//! The objects of a folder that keeps a state of the model: how one is made and removed, and what is recovered after a crash at each word.
#![tactic(auto)]

mod call_laws;
mod counters;
mod counting_laws;
mod dooming;
mod dooming_laws;
mod ending;
mod finding_laws;
mod freeing;
mod freeing_laws;
mod list_walks;
mod listed_parts;
mod making;
mod making_places;
mod marking;
mod owning;
mod owning_laws;
mod removing;
mod removing_laws;
mod removing_mains;
mod removing_objects;
mod removing_parts;
mod writing;
mod writing_laws;
mod writing_places_laws;

pub use call_laws::{
    allocated_blocks_are_added, dirty_words_are_set, external_files_are_added,
    external_files_are_gone, freed_blocks_are_gone, new_entries_are_written, nodes_are_listed,
    records_are_linked, records_are_unlinked, whole_folders_find_the_same,
};
pub use counters::{count_less, count_more, count_rise};
pub use counting_laws::{left_items_are_counted, parts_go_until_none_is_left};
pub use dooming::{doom_plain, doom_record};
pub use dooming_laws::held_objects_are_doomed;
pub use ending::end_object;
pub use finding_laws::left_items_are_found;
pub use freeing::free_places;
pub use freeing_laws::freed_words_are_gone;
pub use list_walks::{end_walk, node_damage};
pub use listed_parts::{ListedPart, entry_named, next_part};
pub use making::{Made, creates_can_have_new, make_entry};
pub use making_places::{Places, check_index, take_places};
pub use marking::set_dirty_word;
pub use owning::{Owned, charge_of_head, free_owned, read_owned};
pub use owning_laws::entries_of_states_load;
pub use removing::take_out;
pub use removing_laws::{
    found_entries_may_go_out, less_is_counted, plain_objects_go_alone, taken_items_are_removed,
    taken_parts_are_out,
};
pub use removing_mains::take_main;
pub use removing_objects::{remove_item, remove_read};
pub use removing_parts::remove_part;
pub use writing::write_object;
pub use writing_laws::{more_is_counted, rises_are_counted};
pub use writing_places_laws::filled_places_are_unlinked;
