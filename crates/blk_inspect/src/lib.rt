//! What a cache folder holds, printed: its words, its lists, and a verdict on the whole.
//!
//! Everything is read before anything is printed, and nothing is written. `man/blkcache.1` describes the lines.
#![tactic(auto)]

mod fault;
mod findings;
mod heads;
mod inspecting;
mod listing;
mod reading;
mod rows;
mod verdict;

pub use fault::InspectFault;
pub use inspecting::{Part, inspect, verify};
