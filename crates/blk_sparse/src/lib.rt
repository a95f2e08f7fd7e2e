//! Sparse objects: how their parts are found, measured, read, written and accessed, and how an object is removed or
//! doomed with its parts.
#![tactic(auto)]

mod beginning;
mod changing;
mod children;
mod dropping;
mod finding;
mod measured_sums;
mod measuring;
mod measuring_laws;
mod new_part;
mod parents;
mod part_record;
mod parts;
mod present;
mod reading;
mod runs;
mod storing;
mod using;
mod writing;

pub use beginning::begin;
pub use children::{Parent, drop_children, drop_children_with};
pub use dropping::{Gone, drop_parts_with};
pub use finding::{PartRecords, find_parts};
pub use measuring::{Measured, measure, measure_plain};
pub use measuring_laws::writes_raise_as_measured;
pub use parents::{doom_parent, read_signature, remove_parent_with};
pub use present::read_present;
pub use reading::{range, read, use_parts};
pub use runs::{Run, find_run};
pub use storing::{Counted, Target, store_sparse};
pub use using::use_range;
pub use writing::{SparseBytes, write};
