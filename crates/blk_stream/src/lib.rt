//! The streams of entries: each is a list of bytes, in the storage of its length.
#![tactic(auto)]

mod changing;
mod copying;
mod dropping;
mod filling;
mod freeing;
mod inside;
mod laws;
mod moving;
mod places;
mod placing;
mod reading;
mod storing;
mod writing;

pub use dropping::drop_streams;
pub use laws::{drops_are_shown_inside, written_streams_load};
pub use reading::read;
pub use storing::store_new;
pub use writing::write;
