//! The chains of the table: a map from keys and child flags to records.
#![tactic(auto)]

mod finding;
mod found;
mod laws;
mod link_laws;
mod linking;
mod unlinking;

pub use finding::find;
pub use found::Found;
pub use laws::chains_with_entries_can_be_searched;
pub use link_laws::records_can_be_linked;
pub use linking::link_front;
pub use unlinking::unlink;
