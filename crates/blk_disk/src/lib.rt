//! The block files of a cache folder: their headers checked at the start, and their blocks.
#![tactic(auto)]

mod adding;
mod blocks;
mod counting;
mod growing;
mod growth;
mod heads;
mod laws;
mod load;
mod maps;
mod names;
mod sealed;
mod seals;
mod standing;
mod tables;

pub use counting::Steps;
pub use laws::{files_are_kept_once, files_are_linked_once};
pub use names::file_of;
pub use standing::room_of;
pub use tables::{BlockFiles, MOST_FILES};
