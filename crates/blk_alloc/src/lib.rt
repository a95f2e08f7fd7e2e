//! The allocation of blocks: free blocks are allocated, allocated ones are freed, and the maps that mark the used ones are rebuilt.
#![tactic(auto)]

mod allocating;
mod blocks;
mod change;
mod claimed;
mod comparing;
mod counters;
mod extending;
mod finishing;
mod fitting;
mod freeing;
mod hinting;
mod laws;
mod layout;
mod map;
mod marking;
mod mending;
mod plan;
mod rebuilding;
mod searching;
mod taking;

pub use allocating::{allocate, allocate_counted};
pub use freeing::free;
pub use laws::{counted_files, counts_stay};
pub use rebuilding::rebuild;
