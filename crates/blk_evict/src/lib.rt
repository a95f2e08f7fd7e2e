//! The items of a folder, given only the table of block files: how one is found, and evicted with its eviction unit.
#![tactic(auto)]

mod evicting_groups;
mod item_names;
mod list_places;
mod looking;
mod read_parent;
mod room_laws;
mod room_printing;

pub use evicting_groups::{evict_group, find_listed, is_no_key, parent_key};
pub use item_names::{EntryKind, Named, kind_said, read_name};
pub use list_places::{Unpinned, in_front};
pub use looking::{Live, Said, find_live, read_charge, read_said};
pub use room_laws::{groups_are_counted_less, groups_go_one_after_another, prints_go_on};
pub use room_printing::say;
