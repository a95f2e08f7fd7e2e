//! Which walked nodes of a cache folder are kept, and why the others are dropped.
#![tactic(auto)]

mod by_hash;
mod charges;
mod covers;
mod fitting;
mod judging;
mod kept;
mod keys;
mod laws;
mod listing;
mod loading;
mod orphans;
mod owning;
mod parts;
mod passes;
mod reason;
mod roles;
mod same_keys;
mod storage;
mod streams;
mod walked_nodes;
mod words;

pub use charges::charge_of_all;
pub use kept::KeptSoFar;
pub use laws::loaded_keys_are_found;
pub use listing::unlisted;
pub use loading::{Loaded, Verdict, load};
pub use parts::has_part;
pub use passes::{Judged, Tried, judge_nodes};
pub use reason::Reason;
pub use roles::Role;
pub use same_keys::has_this_key;
pub use walked_nodes::{is_child, load_walked};
