//! The handle names, the objects that they are bound to, and which objects are pinned by them.
//!
//! [`Handles`] is seen as a finite map from names to objects, which the names of one record share.
//! `Handles::new` takes the memory for all of them: no later call takes any.
#![tactic(auto)]

mod handles;
mod key_map;
mod objects;
mod open_object;

pub use handles::{Handles, NAMES};
pub use open_object::{OpenObject, Released};
