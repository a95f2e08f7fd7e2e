//! What a cache folder holds, read in large pieces and judged in memory.
#![tactic(auto)]

mod changes;
mod counting;
mod fault;
mod filling;
mod following;
mod laws;
mod list_walk;
mod named;
mod nodes;
mod reaching;
mod reading;
mod record_files;
mod record_words;
mod records;
mod scanning;
mod walking;

pub use fault::ScanFault;
pub use laws::{chains_are_reached_apart, what_checks_is_sealed};
pub use list_walk::Walked;
pub use named::WalkedNode;
pub use reaching::{Reached, chains};
pub use record_words::{RecordWords, read_words};
pub use records::ReadRecord;
pub use scanning::{Lists, read_lists};
pub use walking::walk;
