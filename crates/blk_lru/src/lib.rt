//! The LRU list of a cache folder: its nodes in the order of their last use, linked both ways.
//!
//! Each change is an operation in flight until its last word, so that a crash after any word leaves a list that the redo makes whole.
#![tactic(auto)]

mod changing;
mod completing;
mod ending;
mod nodes;
mod plans;
mod reading;
mod writes;

pub use changing::{insert_front, remove, touch};
pub use completing::{complete, pending};
pub use ending::end_at;
pub use plans::Plan;
pub use reading::{MOST_NODES, after, before, first, last};
pub use writes::Write;
