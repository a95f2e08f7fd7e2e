//! Recovery of a folder, by what its scan reported.
//!
//! `repairing` does all of it, one part after another: `list` repairs the LRU list, for which `removals` takes out the nodes that are not kept; `tables` makes
//! each bucket the chain of its kept records, for which `chains` does one bucket, by the words that `links` writes; after them `maps` makes lengths, maps and
//! counters of the block files right, `deletions` deletes the files that nothing names, `seals` writes the absent checksums of what is kept, and `counters`
//! makes the words of the index right.
#![tactic(auto)]

mod chains;
mod counters;
mod deletions;
mod links;
mod list;
mod maps;
mod removals;
mod repairing;
mod seals;
mod tables;

pub use counters::mend_index;
pub use deletions::{delete_unclaimed, delete_unlinked};
pub use list::mend_list;
pub use maps::mend_files;
pub use removals::remove_others;
pub use repairing::repair;
pub use seals::seal_records;
pub use tables::mend_chains;
