//! What a cache folder holds, reported as a whole: the consistency check of its LRU list, its chains and their records.
#![tactic(auto)]

mod bare;
mod chains;
mod nodes;
mod ordering;
mod outcomes;
mod scan;
mod scanning;
mod sets;
mod telling;

pub use chains::KeptChains;
pub use scan::{Dropped, Kept, Scan};
pub use scanning::{scan_files, scan_folder};
